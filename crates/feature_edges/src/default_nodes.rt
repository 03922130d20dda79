//! The node of each package's feature `default`.
ghost use Rattle.std.specs.Prelude.{◌≡◌, ◌<◌, ◌↔◌, ℕ, IfOk, Some, codes, length, slice_index};
ghost use Rattle.guppy_packages.specs.Metadata.{package_graph_of};
ghost use Rattle.feature_labels.specs.Names.LabelName.{named};
ghost use Rattle.feature_edges.specs.Nodes.{NodeAt};
ghost use Rattle.feature_edges.specs.DefaultNodes.{AreDefaultNodes, IsDefaultNode};

use crate::node_numbers::Numbers;
use crate::nodes::narrow;
use guppy_packages::PackageMetadata;
use std::alloc::{AllocError, Global};

/// Returns the node of a package's feature `default`, or 0, which is a base, if it has none. Returns `AllocError` if the node
/// doesn't fit in 32 bits.
fn default_node(numbers: Numbers<'_>, metadata: PackageMetadata<'_>) -> Result<u32, AllocError>
    requires { package_graph_of metadata ≡ numbers.graph.now }
    ensures { IfOk result (IsDefaultNode numbers.entry.graph.now metadata.entry.package_ix) }
{
    match numbers.default_of(metadata) {
        Some(node) => narrow(node),
        None => Ok(0),
    }
}

/// Returns the node of each package's feature `default`, or 0 for a package that has none. The errors are those of an allocation,
/// and of a node that doesn't fit in 32 bits.
pub(crate) fn default_nodes(alloc: Global, numbers: Numbers<'_>) -> Result<Vec<u32>, AllocError>
    ensures { IfOk result (λ nodes. AreDefaultNodes numbers.entry.graph.now nodes.items) }
{
    let count = numbers.graph.package_count();
    let mut nodes = Vec::with_capacity(alloc, count)?;
    for ix in 0..count {
        nodes.push(default_node(numbers, numbers.graph.package(ix))?)?;
    }
    Ok(nodes)
}

/// Returns the number at `ix`, or `None` if it is 0.
fn positive_at(numbers: &[u32], ix: usize) -> Option<usize>
    requires { ix < length numbers.now }
    ensures { (n : ℕ) → (result ≡ Some n) ↔ ((n ≡ slice_index numbers.now ix) × (0 < n)) }
{
    let number = numbers[ix] as usize;
    if number == 0 { None } else { Some(number) }
}

/// Returns the node of a package's feature `default`, or `None` if there is none. `nodes` is the list of [`default_nodes`].
pub fn default_at(
    numbers: Numbers<'_>,
    nodes: &[u32],
    metadata: PackageMetadata<'_>,
) -> Option<usize>
    requires graph { package_graph_of metadata ≡ numbers.graph.now }
    requires nodes { AreDefaultNodes numbers.graph.now nodes.now }
    ensures { (n : ℕ) → (result ≡ Some n) ↔ NodeAt numbers.entry.graph.now n metadata.entry.package_ix (named (codes "default")) }
{
    positive_at(nodes, metadata.package_ix())
}
