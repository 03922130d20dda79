//! The gate of each package link: the node of its name among the optional dependencies of its source.
ghost use Rattle.std.specs.Prelude.{◌≡◌, IfOk};
ghost use Rattle.guppy_packages.specs.Metadata.{link_graph_of, link_number_of};
ghost use Rattle.feature_edges.specs.Edges.{IsGate};
ghost use Rattle.feature_edges.specs.inner.GateNodes.{AreGateNodes, IsGateNode};
ghost use Rattle.feature_edges.specs.inner.Weak.{IsOptionalLink};

use crate::node_numbers::Numbers;
use crate::nodes::narrow;
use feature_labels::LinkDeclarations;
use feature_links::is_any_included;
use guppy_packages::PackageLink;
use std::alloc::{AllocError, Global};

/// Returns the gate of `link`, or 0 if the link has no optional declaration. Returns `AllocError` if the gate doesn't fit in 32
/// bits.
fn gate_node(numbers: Numbers<'_>, link: PackageLink<'_>) -> Result<u32, AllocError>
    requires { link_graph_of link ≡ numbers.graph.now }
    ensures { IfOk result (IsGateNode numbers.entry.graph.now (link_number_of link.entry)) }
{
    numbers.graph.facts();
    if !is_any_included(LinkDeclarations::Optional, link.declarations()) {
        return Ok(0);
    }
    match numbers.optional(link.from(), link.dep_name()) {
        Some(node) => narrow(node),
        None => unreachable!(),
    }
}

/// Returns the gate of each package link, or 0 for a link without an optional declaration. The errors are those of an allocation,
/// and of a node that doesn't fit in 32 bits.
pub(crate) fn gate_nodes(alloc: Global, numbers: Numbers<'_>) -> Result<Vec<u32>, AllocError>
    ensures { IfOk result (λ nodes. AreGateNodes numbers.entry.graph.now nodes.items) }
{
    let count = numbers.graph.link_count();
    let mut nodes = Vec::with_capacity(alloc, count)?;
    for ix in 0..count {
        nodes.push(gate_node(numbers, numbers.graph.link(ix))?)?;
    }
    Ok(nodes)
}

/// Returns the gate of package link `ix`, which has an optional declaration. `gates` is the list of [`gate_nodes`].
pub(crate) fn gate_at(numbers: Numbers<'_>, gates: &[u32], ix: usize) -> usize
    requires link { IsOptionalLink numbers.graph.now ix }
    requires gates { AreGateNodes numbers.graph.now gates.now }
    ensures { IsGate numbers.entry.graph.now ix result }
{
    gates[ix] as usize
}
