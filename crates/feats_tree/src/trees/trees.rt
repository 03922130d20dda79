//! The branches of trees.
ghost use Rattle.std.specs.Prelude.{◌≡◌, ◌++◌, ◌+◌, ℕ, List, map, None, IfOk, OnOk};
ghost use Rattle.std.specs.List.{list_any};
ghost use Rattle.feats_tree.specs.trees.Branches.{AreBranches, goes_below, is_cut};
ghost use Rattle.feats_tree.specs.trees.Reach.{HaveAll};
ghost use Rattle.feats_tree.specs.trees.inner.Nodes.{is_hiding_at};
ghost use Rattle.feats_tree.specs.trees.inner.Walks.{Takes, branch_at, shown_branch, waits_of};

use crate::trees::nodes::{Node, is_hiding, nodes_of, take_at, was_shown};
use crate::trees::waiting::{Waiting, is_last, push_all};
use std::alloc::{AllocError, Global};

/// A line of a tree: a root, or a node to which a link of the nearest line before it leads that is one level up.
#[derive(Clone, Copy)]
pub struct Branch {
    /// The number of the node.
    pub node: usize,
    /// The number of branches above this one: 0 for a root.
    pub depth: usize,
    /// True if no later branch is at the same level under the same branch.
    pub is_last: bool,
    /// True if the node has links, and they are shown below a branch before this one.
    pub is_again: bool,
}

/// Trees, as the list of their branches.
#[derive(Drop)]
pub struct Trees {
    pub branches: Vec<Branch>,
    /// True if the node of some branch has links that the limit hides: they are shown below no branch.
    pub is_cut: bool,
}

/// Returns true if the links of a node at `depth` may be shown.
fn may_expand(limit: Option<usize>, depth: usize) -> bool
    ensures { result ≡ goes_below limit depth }
{
    match limit {
        Some(limit) => depth < limit,
        None => true,
    }
}

/// Returns the ends that are shown below `next`.
fn ends_below(
    alloc: Global,
    limit: Option<usize>,
    nodes: &mut Vec<Node>,
    next: Waiting,
) -> Vec<usize>
    ensures { Takes limit nodes.old.items nodes.new.items next.depth next.node result.items }
{
    if may_expand(limit, next.depth) {
        take_at(alloc, nodes, next.node)
    } else {
        Vec::new(alloc)
    }
}

/// Shows `next`, and lets the branches below it wait. An error is returned if an allocation fails, or if the depth doesn't fit.
fn show(
    alloc: Global,
    limit: Option<usize>,
    nodes: &mut Vec<Node>,
    waiting: &mut Vec<Waiting>,
    next: Waiting,
) -> Result<Branch, AllocError>
    ensures branch { IfOk result (λ branch. branch ≡ shown_branch nodes.old.items (waits_of waiting.old.items) next.depth next.node) }
    ensures after { OnOk result ((ends : List ℕ) × Takes limit nodes.old.items nodes.new.items next.depth next.node ends × (waits_of waiting.new.items ≡ map (branch_at (next.depth + 1)) ends ++ waits_of waiting.old.items)) }
{
    let Some(depth) = next.depth.checked_add(1) else {
        return Err(AllocError);
    };
    let branch = Branch {
        node: next.node,
        depth: next.depth,
        is_last: is_last(waiting, next.depth),
        is_again: was_shown(nodes, next.node),
    };
    let ends = ends_below(alloc, limit, nodes, next);
    push_all(waiting, depth, &ends)?;
    Ok(branch)
}

/// Returns true if the node of one of `branches` has links that weren't shown.
fn is_any_hiding(nodes: &[Node], branches: &[Branch]) -> bool
    ensures { result ≡ list_any (λ b. is_hiding_at nodes.now b.node) branches.now }
{
    for branch in branches {
        if is_hiding(nodes, branch.node) {
            return true;
        }
    }
    false
}

/// Returns the branches of the trees of `roots`, in the order in which `cargo tree` prints them. Below a branch are the ends of its node's
/// links, in the order of `links`; if they are shown below an earlier branch, they aren't shown again. With a `limit` no branch is
/// deeper: 1 shows the roots and the ends of their links. A node whose first branch is at the limit is expanded at its first branch above
/// the limit. `is_cut` says whether the limit hides links. Memory grows with the greatest start of a link.
pub fn branches(
    alloc: Global,
    links: &[(usize, usize)],
    roots: &[usize],
    limit: Option<usize>,
) -> Result<Trees, AllocError>
    ensures branches { IfOk result (λ trees. AreBranches links.now roots.now limit trees.branches.items) }
    ensures all { IfOk result (λ trees. limit ≡ None → HaveAll links.now roots.now trees.branches.items) }
    ensures cut { IfOk result (λ trees. trees.is_cut ≡ is_cut links.now limit trees.branches.items) }
{
    let mut nodes = nodes_of(alloc, links)?;
    let mut waiting = Vec::new(alloc);
    push_all(&mut waiting, 0, roots)?;
    let mut shown = Vec::new(alloc);
    while let Some(next) = waiting.pop() {
        let branch = show(alloc, limit, &mut nodes, &mut waiting, next)?;
        shown.push(branch)?;
    }
    let is_cut = is_any_hiding(&nodes, &shown);
    Ok(Trees {
        branches: shown,
        is_cut,
    })
}
