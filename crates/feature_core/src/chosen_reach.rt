//! Reach over chosen edges of a digraph.
ghost use Rattle.std.specs.Prelude.{◌≡◌, ◌↔◌, ◌<◌, ℕ, IfOk, IsTrue, length};
ghost use Rattle.digraphs.specs.Bits.{has};
ghost use Rattle.feature_edges.specs.Pairs.{PairLeads, ReachAlong};
ghost use Rattle.feature_core.specs.Built.{built_edges};
ghost use Rattle.feature_edges.specs.Choices.{chosen_pairs};
ghost use Rattle.feature_core.specs.inner.ChosenEdges.{is_chosen_at};

use digraphs::{Digraph, IxBitSet};
use feature_edges::{DependencyDirection, EdgeChoice, EdgeList};
use guppy_support::{EdgeFilter, reach};
use std::alloc::{AllocError, Global};

/// Follows the edges that `which` chooses.
#[derive(Drop)]
struct ChosenEdges<'a> {
    edges: &'a EdgeList,
    which: EdgeChoice,
}

impl EdgeFilter for ChosenEdges<'_> {
    ghost knows = { λ f k. k < length f.edges.now };

    ghost is_followed = { λ f k. is_chosen_at f.which f.edges.now k };

    #[inline]
    fn follows(&self, number: usize) -> bool {
        match self.which {
            EdgeChoice::All => true,
            EdgeChoice::FeatureToBaseAndNamed => self.edges.is_unconditional(number),
        }
    }
}

/// Returns the nodes reached from `initials` in `direction` over the edges that `which` chooses.
pub(crate) fn reach_chosen(
    alloc: Global,
    digraph: &Digraph,
    edges: &EdgeList,
    which: EdgeChoice,
    direction: DependencyDirection,
    initials: &IxBitSet,
) -> Result<IxBitSet, AllocError>
    requires same { length edges.now ≡ length digraph.now.edges }
    requires initials { length initials.now ≡ digraph.now.nodes }
    ensures size { IfOk result (λ set. length set ≡ digraph.now.nodes) }
    ensures members { IfOk result (λ set. (n : ℕ) → IsTrue (has set n) ↔ ReachAlong (PairLeads (chosen_pairs which (built_edges digraph.now.edges edges.now)) direction) (has initials.now) n) }
{
    let chosen = ChosenEdges { edges, which };
    let set = reach(alloc, digraph, &chosen, direction.reading(), initials)?;
    Ok(set)
}
