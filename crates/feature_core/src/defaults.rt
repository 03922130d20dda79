//! The features that are on by default.
ghost use Rattle.std.specs.Prelude.{◌≡◌, ◌<◌, ◌↔◌, ℕ, IfOk, IsTrue, length};
ghost use Rattle.digraphs.specs.Bits.{has};
ghost use Rattle.feature_edges.specs.guppy_packages.Metadata.{package_graph_of};
ghost use Rattle.feature_core.specs.Built.{built_edges};
ghost use Rattle.feature_core.specs.Defaults.{IsDefaultFeature, AreDefaults};
ghost use Rattle.feature_edges.specs.DefaultNodes.{AreDefaultNodes};
ghost use Rattle.feature_edges.specs.Edges.{AreBuilt};
ghost use Rattle.feature_edges.specs.Nodes.{node_packages};

use crate::chosen_reach::reach_chosen;
use digraphs::IxBitSet;
use feature_edges::table::EdgeTable;
use feature_edges::{DependencyDirection, EdgeChoice, Numbers, PackageMetadata, default_at};
use std::alloc::{AllocError, Global};

/// Returns the default feature of a package: its feature named `default`, or its base if it has none. `nodes` has the feature
/// `default` of each package.
fn default_feature(numbers: Numbers<'_>, nodes: &[u32], metadata: PackageMetadata<'_>) -> usize
    requires graph { package_graph_of metadata ≡ numbers.graph.now }
    requires nodes { AreDefaultNodes numbers.graph.now nodes.now }
    ensures { (n : ℕ) → (result ≡ n) ↔ IsDefaultFeature numbers.entry.graph.now metadata.entry.package_ix n }
{
    match default_at(numbers, nodes, metadata) {
        Some(node) => node,
        None => numbers.base(metadata),
    }
}

/// Returns the set of the default features of all packages, among `count` nodes. `nodes` has the feature `default` of each package.
fn default_features(
    alloc: Global,
    numbers: Numbers<'_>,
    nodes: &[u32],
    count: usize,
) -> Result<IxBitSet, AllocError>
    requires nodes { AreDefaultNodes numbers.graph.now nodes.now }
    requires count { count ≡ length (node_packages numbers.graph.now) }
    ensures size { IfOk result (λ set. length set ≡ count) }
    ensures members { IfOk result (λ set. (n : ℕ) → IsTrue (has set n) ↔ ((p : ℕ) × IsDefaultFeature numbers.entry.graph.now p n)) }
{
    let mut set = IxBitSet::empty(alloc, count)?;
    for ix in 0..numbers.graph.package_count() {
        let node = default_feature(numbers, nodes, numbers.graph.package(ix));
        set.insert(node);
    }
    Ok(set)
}

/// Returns the set of the nodes that are on by default.
pub(crate) fn default_marks(
    alloc: Global,
    numbers: Numbers<'_>,
    table: &EdgeTable,
) -> Result<IxBitSet, AllocError>
    requires nodes { table.now.digraph.nodes ≡ length (node_packages numbers.graph.now) }
    requires long { length table.now.edges ≡ length table.now.digraph.edges }
    requires edges { AreBuilt numbers.graph.now (built_edges table.now.digraph.edges table.now.edges) table.now.weak.entries }
    requires defaults { AreDefaultNodes numbers.graph.now table.now.defaults.items }
    ensures { IfOk result (λ marks. AreDefaults numbers.entry.graph.now marks) }
{
    let count = table.digraph.node_count();
    let initials = default_features(alloc, numbers, &table.defaults, count)?;
    let marks = reach_chosen(
        alloc,
        &table.digraph,
        &table.edges,
        EdgeChoice::FeatureToBaseAndNamed,
        DependencyDirection::Forward,
        &initials,
    )?;
    Ok(marks)
}
