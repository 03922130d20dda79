//! The nodes to which edges that are followed lead.
ghost use Rattle.std.specs.Prelude.{◌≡◌, ◌↔◌, ◌<◌, ℕ, [], Contains, length, IfOk, OnOk, IsTrue};
ghost use Rattle.digraphs.specs.Bits.{has};
ghost use Rattle.guppy_support.specs.Reaches.{FollowedStep, ReachAlong};
ghost use Rattle.guppy_support.specs.inner.Search.{GoesOn};

use crate::reading::Reading;
use crate::search::{EdgeFilter, find, follow};
use digraphs::{Digraph, IxBitSet};
use std::alloc::{AllocError, Global};

// Follows the nodes that wait, and those that are found meanwhile, until none waits.
fn search_on<F: EdgeFilter>(
    digraph: &Digraph,
    filter: &F,
    reading: Reading,
    found: &mut IxBitSet,
    waiting: &mut Vec<usize>,
) -> Result<(), AllocError>
    requires known { (k : ℕ) → k < length digraph.now.edges → F.knows filter.now k }
    requires size { length found.old ≡ digraph.now.nodes }
    requires nodes { (v : ℕ) → Contains waiting.old.items v → v < digraph.now.nodes }
    ensures none { OnOk result (waiting.new.items ≡ []) }
    ensures on { OnOk result (GoesOn (FollowedStep reading digraph.now.edges (F.is_followed filter.now)) found.old waiting.old.items found.new waiting.new.items) }
{
    while let Some(node) = waiting.pop() {
        follow(digraph, filter, reading, node, found, waiting)?;
    }
    Ok(())
}

/// Returns the nodes to which paths, possibly empty, lead from `initials` along the edges that `filter` follows.
/// `reading` decides which end of an edge is its start.
///
/// Allocates one bit per node, and a list of the nodes that are found and not yet followed. `AllocError` is
/// returned when an allocation fails.
pub fn reach<F: EdgeFilter>(
    alloc: Global,
    digraph: &Digraph,
    filter: &F,
    reading: Reading,
    initials: &IxBitSet,
) -> Result<IxBitSet, AllocError>
    requires known { (k : ℕ) → k < length digraph.now.edges → F.knows filter.now k }
    requires initials { length initials.now ≡ digraph.now.nodes }
    ensures size { IfOk result (λ set. length set ≡ digraph.now.nodes) }
    ensures members { IfOk result (λ set. (n : ℕ) → IsTrue (has set n)
        ↔ ReachAlong (FollowedStep reading digraph.now.edges (F.is_followed filter.now)) (has initials.now) n) }
{
    let mut found = IxBitSet::empty(alloc, digraph.node_count())?;
    let mut waiting = Vec::new(alloc);
    for node in initials.ones() {
        find(&mut found, &mut waiting, node)?;
        search_on(digraph, filter, reading, &mut found, &mut waiting)?;
    }
    Ok(found)
}
