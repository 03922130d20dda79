//! Whether a path leads from one node to another.
ghost use Rattle.std.specs.Prelude.{◌≡◌, ◌↔◌, ◌<◌, true, IfOk, IsTrue};
ghost use Rattle.digraphs.specs.Paths.{Path};

use crate::reading::Reading;
use crate::search::{EdgeFilter, find, follow};
use digraphs::{Digraph, IxBitSet};
use std::alloc::{AllocError, Global};

// Follows each edge.
#[derive(Drop)]
struct EveryEdge;

impl EdgeFilter for EveryEdge {
    ghost knows = { λ _ _. Unit {0} };

    ghost is_followed = { λ _ _. true };

    #[inline(always)]
    fn follows(&self, _number: usize) -> bool {
        true
    }
}

/// Returns true if a path, possibly empty, leads from `a` to `b`. The search stops when `b` is found.
///
/// Allocates one bit per node, and a list of the nodes found. `AllocError` is returned when an allocation
/// fails.
pub fn depends_on(alloc: Global, digraph: &Digraph, a: usize, b: usize) -> Result<bool, AllocError>
    requires a { a < digraph.now.nodes }
    requires b { b < digraph.now.nodes }
    ensures { IfOk result (λ answer. IsTrue answer ↔ Path digraph.now.edges a b) }
{
    let mut found = IxBitSet::empty(alloc, digraph.node_count())?;
    let mut waiting = Vec::new(alloc);
    find(&mut found, &mut waiting, a)?;
    while !found.contains(b) {
        let Some(node) = waiting.pop() else {
            return Ok(false);
        };
        follow(
            digraph,
            &EveryEdge,
            Reading::Forward,
            node,
            &mut found,
            &mut waiting,
        )?;
    }
    Ok(true)
}
