//! Components of a digraph, found in one depth-first walk.
ghost use Rattle.std.specs.Prelude.{◌≡◌, ◌≢◌, ℕ, ◌+◌, ◌-◌, ◌^◌, ◌<◌, ◌≤◌, length, set, IfOk, slice_index, true, false};
ghost use Rattle.digraphs.specs.Bits.{has};
ghost use Rattle.digraph_orders.specs.inner.Groups.{HaveOthers};
ghost use Rattle.digraph_orders.specs.inner.Ranks.{AreRanked, IsRanking};

mod walk;

use digraphs::{Digraph, IxBitSet, zeroes};
use std::alloc::{AllocError, Global};
use walk::walked;

/// The components as ranks. The rank of a component is one of its nodes.
#[derive(Drop)]
pub(crate) struct Ranked {
    pub(crate) ranks: Vec<u32>,
    /// The nodes of the components of several nodes. Each other node is the rank of its component.
    pub(crate) several: IxBitSet,
    /// The number of components.
    pub(crate) count: usize,
}

/// Returns the rank of `node`: the node itself if it isn't in `several`, otherwise the first node with its `mark`. If
/// `firsts` has none, that is `node`, which is added. At a mark minus `base`, `firsts` has one plus the first node with
/// that mark, or 0.
fn rank_of(firsts: &mut Vec<u32>, several: &IxBitSet, mark: u32, base: u32, node: usize) -> u32
    requires low { base ≤ mark }
    requires high { mark < length firsts.old.items + base }
    requires several { node < length several.now }
    requires node { node + 1 < 2 ^ 32 }
    ensures long { length firsts.new.items ≡ length firsts.old.items }
    ensures lone { has several.now node ≡ false → result ≡ node }
    ensures same { has several.now node ≡ false → firsts.new.items ≡ firsts.old.items }
    ensures found { has several.now node ≡ true → result + 1 ≡ slice_index firsts.new.items (mark - base) }
    ensures known { has several.now node ≡ true → slice_index firsts.old.items (mark - base) ≢ 0 → firsts.new.items ≡ firsts.old.items }
    ensures added { has several.now node ≡ true → slice_index firsts.old.items (mark - base) ≡ 0 → firsts.new.items ≡ set firsts.old.items (mark - base) (node + 1) }
{
    if !several.contains(node) {
        return node as u32;
    }
    let place = (mark - base) as usize;
    if firsts[place] == 0 {
        firsts[place] = (node + 1) as u32;
    }
    firsts[place] - 1
}

/// Returns the rank of each node's component, from its mark, which is at least `base`. The rank is a node of the
/// component, the same for all its nodes. `several` has each node that isn't the only one with its mark.
fn ranks_of(
    alloc: Global,
    marks: Vec<u32>,
    base: u32,
    several: &IxBitSet,
) -> Result<Vec<u32>, AllocError>
    requires narrow { length marks.items < 2 ^ 32 }
    requires low { (v : ℕ) → v < length marks.items → base ≤ slice_index marks.items v }
    requires high { (v : ℕ) → v < length marks.items → slice_index marks.items v < length marks.items + base }
    requires several { length several.now ≡ length marks.items }
    requires alone { (v u : ℕ) → v < length marks.items → u < length marks.items → slice_index marks.items v ≡ slice_index marks.items u → has several.now v ≡ false → u ≡ v }
    ensures ranked { IfOk result (λ ranks. AreRanked marks.items ranks.items) }
    ensures others { IfOk result (λ ranks. HaveOthers ranks.items (length marks.items) several.now) }
{
    let mut firsts = zeroes(alloc, marks.len())?;
    let mut ranks = marks;
    for node in 0..ranks.len() {
        ranks[node] = rank_of(&mut firsts, several, ranks[node], base, node);
    }
    Ok(ranks)
}

/// Returns the rank of each node's component.
pub(crate) fn component_ranks(alloc: Global, graph: &Digraph) -> Result<Ranked, AllocError>
    ensures ranking { IfOk result (λ r. IsRanking graph.now r.ranks.items) }
    ensures small { IfOk result (λ r. (v : ℕ) → v < graph.now.nodes → slice_index r.ranks.items v < graph.now.nodes) }
    ensures several { IfOk result (λ r. length r.several ≡ graph.now.nodes) }
    ensures others { IfOk result (λ r. HaveOthers r.ranks.items graph.now.nodes r.several) }
{
    graph.facts();
    graph.bounds();
    let nodes = graph.node_count();
    let walk = walked(alloc, graph)?;
    let count = 2 * nodes - walk.level as usize;
    let ranks = ranks_of(alloc, walk.marks, nodes as u32 + 1, &walk.several)?;
    Ok(Ranked {
        ranks,
        several: walk.several,
        count,
    })
}
