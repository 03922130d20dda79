//! What is known of each node while its trees are shown.
ghost use Rattle.std.specs.Prelude.{◌≡◌, ℕ, ◌<◌, ◌||◌, [], IfOk, OnOk, false, length, not};
ghost use Rattle.feats_tree.specs.trees.Branches.{ends_of, is_empty};
ghost use Rattle.feats_tree.specs.trees.inner.Nodes as spec;

use std::alloc::{AllocError, Global};
use std::mem;

/// What is known of a node.
#[derive(Drop)]
pub(crate) struct Node {
    /// The ends of its links, until they are shown.
    pub(crate) ends: Vec<usize>,
    /// True if it has links and they were shown.
    pub(crate) is_shown: bool,
}

/// Appends nodes without links, until there are more than `number`.
fn make_room(alloc: Global, nodes: &mut Vec<Node>, number: usize) -> Result<(), AllocError>
    ensures long { OnOk result (number < length nodes.new.items) }
    ensures same { OnOk result (spec.AreSame nodes.old.items nodes.new.items) }
{
    for _missing in nodes.len()..=number {
        nodes.push(Node {
            ends: Vec::new(alloc),
            is_shown: false,
        })?;
    }
    Ok(())
}

/// Adds a link from node `from` to node `to`.
fn add_link(alloc: Global, nodes: &mut Vec<Node>, from: usize, to: usize) -> Result<(), AllocError>
    ensures { OnOk result (spec.AddsLink nodes.old.items nodes.new.items from to) }
{
    make_room(alloc, nodes, from)?;
    nodes[from].ends.push(to)?;
    Ok(())
}

/// Returns the nodes with `links`: as many as the greatest start of a link needs.
pub(crate) fn nodes_of(alloc: Global, links: &[(usize, usize)]) -> Result<Vec<Node>, AllocError>
    ensures ends { IfOk result (λ nodes. (node : ℕ) → spec.ends_at nodes.items node ≡ ends_of links.now node) }
    ensures shown { IfOk result (λ nodes. (node : ℕ) → spec.shown_at nodes.items node ≡ false) }
{
    let mut nodes = Vec::new(alloc);
    for link in links {
        add_link(alloc, &mut nodes, link.0, link.1)?;
    }
    Ok(nodes)
}

/// Returns true if node `number` has links and they were shown.
pub(crate) fn was_shown(nodes: &[Node], number: usize) -> bool
    ensures { result ≡ spec.shown_at nodes.now number }
{
    match nodes.get(number) {
        Some(node) => node.is_shown,
        None => false,
    }
}

/// Returns true if node `number` has links that weren't shown.
pub(crate) fn is_hiding(nodes: &[Node], number: usize) -> bool
    ensures { result ≡ spec.is_hiding_at nodes.now number }
{
    match nodes.get(number) {
        Some(node) => !node.ends.is_empty(),
        None => false,
    }
}

/// Returns the ends of the links of `node`, which are shown from then on.
fn take_ends(alloc: Global, node: &mut Node) -> Vec<usize>
    ensures taken { result.items ≡ node.old.ends.items }
    ensures ends { node.new.ends.items ≡ [] }
    ensures shown { node.new.is_shown ≡ (node.old.is_shown || not (is_empty node.old.ends.items)) }
{
    if !node.ends.is_empty() {
        node.is_shown = true;
    }
    mem::replace(&mut node.ends, Vec::new(alloc))
}

/// Returns the ends of the links of node `number` that aren't shown. They are shown from then on.
pub(crate) fn take_at(alloc: Global, nodes: &mut Vec<Node>, number: usize) -> Vec<usize>
    ensures { spec.TakesEnds nodes.old.items nodes.new.items number result.items }
{
    if number < nodes.len() {
        take_ends(alloc, &mut nodes[number])
    } else {
        Vec::new(alloc)
    }
}
