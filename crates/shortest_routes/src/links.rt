//! The links that lead to each node.
ghost use Rattle.std.specs.Prelude.{◌≡◌, ◌++◌, ◌∷◌, ◌<◌, [], ℕ, Contains, IfOk, OnOk, if◌then◌else◌, length, nat_eq};
ghost use Rattle.shortest_routes.specs.inner.Links.{AreBefore, nodes_before};

use std::alloc::{AllocError, Global};

/// Returns `count` empty lists.
fn empty_lists(alloc: Global, count: usize) -> Result<Vec<Vec<usize>>, AllocError>
    ensures length { IfOk result (λ lists. length lists.items ≡ count) }
    ensures empty { IfOk result (λ lists. (n : ℕ) → nodes_before lists.items n ≡ []) }
{
    let mut lists = Vec::with_capacity(alloc, count)?;
    for _list in 0..count {
        lists.push(Vec::new(alloc))?;
    }
    Ok(lists)
}

/// Adds a link from node `from` to node `to`.
fn add_link(lists: &mut Vec<Vec<usize>>, from: usize, to: usize) -> Result<(), AllocError>
    requires { to < length lists.old.items }
    ensures length { OnOk result (length lists.new.items ≡ length lists.old.items) }
    ensures added { OnOk result ((n : ℕ) → nodes_before lists.new.items n ≡ nodes_before lists.old.items n ++ (if nat_eq to n then from ∷ [] else [])) }
{
    lists[to].push(from)?;
    Ok(())
}

/// Returns for each of `count` nodes the nodes from which one of `links` leads to it.
pub(crate) fn lists_before(
    alloc: Global,
    count: usize,
    links: &[(usize, usize)],
) -> Result<Vec<Vec<usize>>, AllocError>
    requires { (from to : ℕ) → Contains links.now (from, to) → (from < count) × (to < count) }
    ensures { IfOk result (λ lists. AreBefore links.now lists.items) }
{
    let mut lists = empty_lists(alloc, count)?;
    for link in links {
        add_link(&mut lists, link.0, link.1)?;
    }
    Ok(lists)
}

/// Returns the nodes before `node`, by `lists`.
pub(crate) fn before(lists: &[Vec<usize>], node: usize) -> &[usize]
    ensures { result.now ≡ nodes_before lists.now node }
{
    match lists.get(node) {
        Some(list) => list.as_slice(),
        None => &[],
    }
}
