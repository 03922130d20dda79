//! The first edge of each source, found in one pass because edges ascend by source.
ghost use Rattle.std.specs.Prelude.{◌≡◌, ℕ, ◌+◌, ◌^◌, ◌<◌, ◌≤◌, length, slice_index, max, IfOk, OnOk, OnErr};
ghost use Rattle.digraphs.specs.Graph.{IsDigraph, sources};
ghost use Rattle.digraphs.specs.PackedRows.{AreAllBegun};

use crate::digraph::columns::EdgeColumns;
use std::alloc::{AllocError, Global};

/// Sets the begins of all rows up to `node` that have none to `place`. An allocation's failure is the only error;
/// some rows may then have no begin yet.
pub fn begin_up_to(begins: &mut Vec<u32>, node: usize, place: u32) -> Result<(), AllocError>
    ensures long { OnOk result (length begins.new.items ≡ max (length begins.old.items) (node + 1)) }
    ensures kept { OnOk result ((v : ℕ) → v < length begins.old.items → slice_index begins.new.items v ≡ slice_index begins.old.items v) }
    ensures added { OnOk result ((v : ℕ) → length begins.old.items ≤ v → v < length begins.new.items → slice_index begins.new.items v ≡ place) }
    ensures front { OnErr result ((v : ℕ) → v < length begins.old.items → slice_index begins.new.items v ≡ slice_index begins.old.items v) }
{
    while begins.len() <= node {
        begins.push(place)?;
    }
    Ok(())
}

/// Returns the number of the first edge of each source, and at the end the number of edges.
pub(crate) fn source_begins(
    alloc: Global,
    nodes: usize,
    edges: &EdgeColumns,
) -> Result<Vec<u32>, AllocError>
    requires sound { IsDigraph (record { nodes = nodes; edges = edges.now }) }
    requires narrow { length edges.now < 2 ^ 32 }
    ensures { IfOk result (λ begins. AreAllBegun nodes (sources edges.now) begins.items) }
{
    let end = edges.len();
    let mut begins = Vec::with_capacity(alloc, nodes.saturating_add(1))?;
    for place in 0..end {
        begin_up_to(&mut begins, edges.edge(place).from, place as u32)?;
    }
    begin_up_to(&mut begins, nodes, end as u32)?;
    Ok(begins)
}
