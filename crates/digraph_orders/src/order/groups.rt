//! The nodes of each component, by its rank.
ghost use Rattle.std.specs.Prelude.{◌≡◌, ℕ, ◌<◌, length, slice_index, IfOk, IsTrue, true, false};
ghost use Rattle.digraphs.specs.Bits.{has};
ghost use Rattle.digraphs.specs.Rows.{places};
ghost use Rattle.digraph_orders.specs.inner.Groups.{AreGroups, HaveOthers, IsAlone};

use digraphs::{IxBitSet, Rows, pack_rows};
use std::alloc::{AllocError, Global};

/// The nodes of each component.
#[derive(Drop)]
pub(crate) struct Groups {
    /// The nodes of each component: row `r` is the component of rank `r`.
    pub(crate) rows: Rows,
    /// The nodes of the components of several nodes. A node that isn't in this set is its component's rank. The
    /// set is read in place of the ranks and rows, because it is small enough for a processor's cache.
    pub(crate) several: IxBitSet,
}

impl Groups {
    /// Groups the nodes by the rank of their component. `several` has the nodes whose rank is another node, and those
    /// other nodes.
    pub(crate) fn new(
        alloc: Global,
        ranks: &[u32],
        several: IxBitSet,
        nodes: usize,
    ) -> Result<Groups, AllocError>
        requires long { length ranks.now ≡ nodes }
        requires small { (v : ℕ) → v < length ranks.now → slice_index ranks.now v < nodes }
        requires several { length several ≡ nodes }
        requires others { HaveOthers ranks.now nodes several }
        ensures { IfOk result (AreGroups nodes ranks.now) }
    {
        let rows = pack_rows(alloc, nodes, &ranks)?;
        Ok(Groups { rows, several })
    }

    /// Returns true only if `node` is the only node of its component, and so its rank.
    pub(crate) fn is_alone(&self, ranks: &[u32], node: usize, nodes: usize) -> bool
        requires node { node < nodes }
        requires groups { AreGroups nodes ranks.now self.now }
        ensures alone { IsTrue result → IsAlone ranks.now node }
        ensures off { IsTrue result → has self.now.several node ≡ false }
        ensures on { result ≡ false → has self.now.several node ≡ true }
    {
        !self.several.contains(node)
    }

    /// Returns the rank of `node`'s component.
    pub(crate) fn rank(&self, ranks: &[u32], node: usize, nodes: usize) -> usize
        requires node { node < nodes }
        requires groups { AreGroups nodes ranks.now self.now }
        ensures { slice_index ranks.now node ≡ result }
    {
        if self.is_alone(ranks, node, nodes) {
            return node;
        }
        ranks[node] as usize
    }

    /// Returns the nodes of component `rank`, ascending.
    pub(crate) fn row(&self, ranks: &[u32], rank: usize, nodes: usize) -> &[u32]
        requires rank { rank < nodes }
        requires groups { AreGroups nodes ranks.now self.now }
        ensures { result.now ≡ places rank ranks.now }
    {
        &self.rows.numbers[self.rows.begins[rank] as usize..self.rows.begins[rank + 1] as usize]
    }
}
