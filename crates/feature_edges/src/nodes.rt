//! The nodes of a package graph: the first node of each package, and the package of each node.
ghost use Rattle.std.specs.Prelude.{◌≡◌, ◌+◌, ◌<◌, ◌++◌, ◌↔◌, OnOk, IfOk, length, replicate};
ghost use Rattle.guppy_packages.specs.Metadata.{package_table_of};
ghost use Rattle.feature_edges.specs.Nodes.{labels_of, first_nodes, node_packages};

use guppy_packages::{PackageGraph, PackageMetadata};
use std::alloc::{AllocError, Global};

/// The first node of each package, and the package of each node.
#[derive(Drop)]
pub struct NodeTable {
    pub firsts: Vec<u32>,
    pub packages: Vec<u32>,
}

/// Returns `number` in 32 bits, or `AllocError` if it doesn't fit.
pub(crate) fn narrow(number: usize) -> Result<u32, AllocError>
    ensures { IfOk result (λ narrow. narrow ≡ number) }
{
    if number > u32::MAX as usize {
        return Err(AllocError);
    }
    Ok(number as u32)
}

/// Appends `number` to `numbers`, `times` times.
fn push_times(numbers: &mut Vec<u32>, number: u32, times: usize) -> Result<(), AllocError>
    ensures { OnOk result (numbers.new.items ≡ numbers.old.items ++ replicate times number) }
{
    for _ in 0..times {
        numbers.push(number)?;
    }
    Ok(())
}

/// Appends the package's number once for each of its nodes.
fn push_nodes(packages: &mut Vec<u32>, metadata: PackageMetadata<'_>) -> Result<(), AllocError>
    ensures { OnOk result (packages.new.items ≡ packages.old.items ++ replicate (length (labels_of (package_table_of metadata.entry))) metadata.entry.package_ix) }
{
    let ix = narrow(metadata.package_ix())?;
    push_times(packages, ix, 1)?;
    push_times(packages, ix, metadata.named_features().len())?;
    push_times(packages, ix, metadata.optional_deps().len())
}

/// Returns the nodes of all packages. Returns `AllocError` if an allocation fails, or the graph is over a
/// [limit](../../../docs/DIFFERENCES.md#limits).
pub fn node_table(alloc: Global, graph: &PackageGraph) -> Result<NodeTable, AllocError>
    ensures firsts { IfOk result (λ table. table.firsts.items ≡ first_nodes graph.now) }
    ensures packages { IfOk result (λ table. table.packages.items ≡ node_packages graph.now) }
{
    let mut firsts = Vec::new(alloc);
    let mut packages = Vec::new(alloc);
    for ix in 0..graph.package_count() {
        firsts.push(narrow(packages.len())?)?;
        push_nodes(&mut packages, graph.package(ix))?;
    }
    Ok(NodeTable { firsts, packages })
}
