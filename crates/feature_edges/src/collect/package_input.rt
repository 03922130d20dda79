//! The input for the keys and warnings of a package.
ghost use Rattle.std.specs.Prelude.{◌≡◌};
ghost use Rattle.feature_edges.specs.DefaultNodes.{AreDefaultNodes};
ghost use Rattle.feature_edges.specs.inner.GateNodes.{AreGateNodes};
ghost use Rattle.guppy_packages.specs.Metadata.{package_graph_of};
ghost use Rattle.feature_links.specs.NamedLinks.{AreNamedLinks};

use crate::node_numbers::Numbers;
use feature_links::LinkGroups;
use guppy_packages::PackageMetadata;
use std::alloc::Global;

/// A package, the numbers of nodes, the links by package and name, the node of each package's feature `default`, and the gate of
/// each package link.
#[derive(Clone, Copy)]
pub(crate) struct PackageInput<'a, 'g> {
    pub(crate) alloc: Global,
    pub(crate) numbers: Numbers<'g>,
    pub(crate) groups: &'a LinkGroups<'g>,
    pub(crate) defaults: &'a [u32],
    pub(crate) gates: &'a [u32],
    pub(crate) metadata: PackageMetadata<'g>,
    pub(crate) ghost of_graph: { package_graph_of metadata ≡ numbers.graph.now },
    pub(crate) ghost named_links: { AreNamedLinks numbers.graph.now groups.now },
    pub(crate) ghost default_nodes: { AreDefaultNodes numbers.graph.now defaults.now },
    pub(crate) ghost gate_nodes: { AreGateNodes numbers.graph.now gates.now },
}
