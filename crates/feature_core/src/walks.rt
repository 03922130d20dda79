//! Walks over the edges of a feature graph.
ghost use Rattle.std.specs.Prelude.{◌≡◌, ◌↔◌, ℕ, IfOk, IfErr, OnErr, IsTrue, length};
ghost use Rattle.digraphs.specs.Bits.{has};
ghost use Rattle.feature_edges.specs.guppy_packages.Tables.{Tables};
ghost use Rattle.feature_core.specs.Built.{IsBuilt};
ghost use Rattle.feature_edges.specs.Choices.{ChosenReach, chosen_pairs};
ghost use Rattle.feature_edges.specs.feature_links.declared.edge.EdgeChoice.TheVariants.{All};
ghost use Rattle.feature_edges.specs.Pairs.{PairLeads, Reach, ReachAlong};
ghost use Rattle.walk_engine.specs.Walks.{IsWalk, LegalRun, MayAsk};
ghost use Rattle.feature_core.specs.Ways.{content};

use crate::data::FeatureGraphData;
use crate::directed_edges::Packed;
use crate::error::Error;
use digraphs::IxBitSet;
use feature_edges::{DependencyDirection, EdgeChoice};
use std::alloc::Global;
use walk_engine::{Offerer, Walk, walk_over};

/// Returns the nodes reached from `initials` in `direction` over the edges that `which` chooses. `Memory` is the only error.
pub fn walk_all(
    alloc: Global,
    built: &FeatureGraphData,
    direction: DependencyDirection,
    initials: &IxBitSet,
    which: EdgeChoice,
) -> Result<IxBitSet, Error<'static>>
    requires { length initials.now ≡ length built.now.packages }
    ensures size { IfOk result (λ set. length set ≡ length built.now.packages) }
    ensures members { IfOk result (λ set. (n : ℕ) → IsTrue (has set n) ↔ ReachAlong (PairLeads (chosen_pairs which built.now.edges) direction) (has initials.now) n) }
    ensures reach { IfOk result (λ set. (t : Tables) → IsBuilt t built.now → (n : ℕ) → IsTrue (has set n) ↔ ChosenReach t which direction (has initials.now) n) }
    ensures all { which ≡ All → IfOk result (λ set. (t : Tables) → IsBuilt t built.now → (n : ℕ) → IsTrue (has set n) ↔ Reach t direction (has initials.now) n) }
    ensures refused { IfErr result (λ e. e ≡ Error.Memory) }
{
    let set = built.reach(alloc, direction, initials, which)?;
    Ok(set)
}

/// Walks over the edges of a feature graph from `initials`, in `direction`.
///
/// Unconditional edges are followed. A conditional edge is followed if one of its offers is accepted: its full link, or a half of
/// a weak edge. Forward, the optional half of a weak edge is offered only when the optional dependency that it names is reached
/// too.
///
/// The offers make a complete legal run, and the members are exactly the least set for the accepted ones. `Memory` is the only
/// error; the offers made by then are a legal run.
pub fn walk<O: Offerer>(
    alloc: Global,
    built: &FeatureGraphData,
    direction: DependencyDirection,
    initials: &IxBitSet,
    offerer: &mut O,
) -> Result<Walk, Error<'static>>
    requires size { length initials.now ≡ length built.now.packages }
    requires may { MayAsk O.can_offer O.gives (content direction (length built.now.packages) built.now.edges built.now.weak) offerer.old }
    ensures size { IfOk result (λ walk. length walk.members ≡ length built.now.packages) }
    ensures walk { IfOk result (λ walk. IsWalk (content direction (length built.now.packages) built.now.edges built.now.weak)
        (has initials.now) O.gives offerer.old offerer.new (has walk.members)) }
    ensures err { OnErr result (LegalRun (content direction (length built.now.packages) built.now.edges built.now.weak)
        (has initials.now) O.gives offerer.old offerer.new) }
    ensures refused { IfErr result (λ e. e ≡ Error.Memory) }
{
    let mut source = Packed::new(built, direction);
    let walk = walk_over(alloc, &mut source, initials, offerer)?;
    Ok(walk)
}
