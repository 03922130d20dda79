//! The branches that wait to be shown.
ghost use Rattle.std.specs.Prelude.{◌≡◌, ◌++◌, OnOk, map, not};
ghost use Rattle.feats_tree.specs.trees.inner.Walks.{begins_at, branch_at, waits_of};

use std::alloc::AllocError;

/// A branch that waits to be shown.
#[derive(Clone, Copy)]
pub(crate) struct Waiting {
    pub(crate) node: usize,
    pub(crate) depth: usize,
}

/// Returns true if the next of `waiting` isn't at this depth.
pub(crate) fn is_last(waiting: &[Waiting], depth: usize) -> bool
    ensures { result ≡ not (begins_at depth (waits_of waiting.now)) }
{
    match waiting.last() {
        Some(next) => next.depth != depth,
        None => true,
    }
}

/// Lets a branch for each of `nodes` wait, in their order, at this depth.
pub(crate) fn push_all(
    waiting: &mut Vec<Waiting>,
    depth: usize,
    nodes: &[usize],
) -> Result<(), AllocError>
    ensures { OnOk result (waits_of waiting.new.items ≡ map (branch_at depth) nodes.now ++ waits_of waiting.old.items) }
{
    for place in (0..nodes.len()).rev() {
        waiting.push(Waiting {
            node: nodes[place],
            depth,
        })?;
    }
    Ok(())
}
