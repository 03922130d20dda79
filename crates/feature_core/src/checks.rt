//! Checks of explanations over the edges of a feature graph, and the steps that support one node.
ghost use Rattle.std.specs.Prelude.{◌≡◌, ◌↔◌, ℕ, Bool, List, IsTrue, IsFalse, IfOk, IfErr, MatchOption, length};
ghost use Rattle.digraphs.specs.Bits.{has};
ghost use Rattle.walk_engine.specs.Explanations.{IsExplanation, nodes_of};
ghost use Rattle.walk_engine.specs.Laws.{every};
ghost use Rattle.walk_engine.specs.Walks.{is_in};
ghost use Rattle.walk_engine.specs.declared.walks.Half.{Half};
ghost use Rattle.walk_checks.specs.Exact.{IsExact};
ghost use Rattle.walk_checks.specs.Whys.{IsWhy};
ghost use Rattle.feature_core.specs.Offers.{content_of};

use crate::data::FeatureGraphData;
use crate::directed_edges::Packed;
use crate::error::Error;
use digraphs::IxBitSet;
use feature_edges::DependencyDirection;
use std::alloc::Global;
use walk_engine::{Half, Step};

/// Returns whether `steps` is an explanation for `initials`, by edges and offers in `direction`. No node may be repeated, and
/// each needs a reason that the steps before it support. `Memory` is the only error.
///
/// Returns false for a number that is no node or edge, and for a half that the edge lacks. Linear in the steps and the nodes.
pub fn check_steps(
    alloc: Global,
    built: &FeatureGraphData,
    direction: DependencyDirection,
    initials: &IxBitSet,
    steps: &[Step],
) -> Result<bool, Error<'static>>
    requires { length initials.now ≡ length built.now.packages }
    ensures told { IfOk result (λ answer. IsTrue answer ↔ IsExplanation (content_of direction built.now) (has initials.now) every steps.now) }
    ensures refused { IfErr result (λ e. e ≡ Error.Memory) }
{
    let table = Packed::new(built, direction);
    let answer = walk_checks::check_steps(alloc, &table, initials, steps)?;
    Ok(answer)
}

/// Returns whether `steps` is an explanation that uses no offer in `refused`, and whose nodes are closed under all other offers.
/// `Memory` is the only error.
///
/// An entry of `refused` that is no offer has no effect. Linear in the steps, in `refused`, and in the edges of the listed nodes.
pub fn check_exact_steps(
    alloc: Global,
    built: &FeatureGraphData,
    direction: DependencyDirection,
    initials: &IxBitSet,
    steps: &[Step],
    refused: &[(usize, Half)],
) -> Result<bool, Error<'static>>
    requires { length initials.now ≡ length built.now.packages }
    ensures told { IfOk result (λ answer. IsTrue answer ↔ IsExact (content_of direction built.now) (has initials.now) refused.now steps.now) }
    ensures refused { IfErr result (λ e. e ≡ Error.Memory) }
{
    let table = Packed::new(built, direction);
    let answer = walk_checks::check_exact_steps(alloc, &table, initials, steps, refused)?;
    Ok(answer)
}

/// Returns the steps of an explanation that support `node`, in order, each once, ending with its own step; `None` if `node` isn't
/// listed. `Memory` is the only error.
///
/// If `steps` is not an explanation, the result is unspecified. Linear in the steps and the nodes.
pub fn why(
    alloc: Global,
    built: &FeatureGraphData,
    direction: DependencyDirection,
    steps: &[Step],
    node: usize,
) -> Result<Option<Vec<Step>>, Error<'static>>
    ensures told { IfOk result (λ found. (initials : List Bool) (A : ℕ → Half → Bool) → length initials ≡ length built.now.packages
        → IsExplanation (content_of direction built.now) (has initials) A steps.now
        → MatchOption found (IsFalse (is_in (nodes_of steps.now) node))
        (λ kept. IsWhy (content_of direction built.now) (has initials) A steps.now node kept.items)) }
    ensures refused { IfErr result (λ e. e ≡ Error.Memory) }
{
    let table = Packed::new(built, direction);
    let found = walk_checks::why(alloc, &table, steps, node)?;
    Ok(found)
}
