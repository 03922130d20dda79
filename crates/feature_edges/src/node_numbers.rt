//! The number of each node, by its package and label.
ghost use Rattle.std.specs.Prelude.{◌≡◌, ◌+◌, ◌<◌, ◌^◌, ◌↔◌, ℕ, Some, codes, is_some, length, slice_get, slice_index};
ghost use Rattle.guppy_packages.specs.Metadata.{package_graph_of, package_table_of};
ghost use Rattle.guppy_packages.specs.Tables.{has_feature, has_name};
ghost use Rattle.feature_labels.specs.Names.{label_of};
ghost use Rattle.feature_labels.specs.Names.LabelName.{base, named, optional};
ghost use Rattle.feature_edges.specs.Nodes.{NodeAt, labels_of, first_node, first_nodes, node_packages, node_places};

use crate::nodes::NodeTable;
use feature_labels::FeatureLabel;
use guppy_packages::{PackageGraph, PackageMetadata};

/// A package graph with the first node of each package.
#[derive(Clone, Copy)]
pub struct Numbers<'g> {
    pub graph: &'g PackageGraph,
    pub(crate) firsts: &'g [u32],
    pub ghost all_firsts: { firsts.now ≡ first_nodes graph.now },
    pub ghost few_nodes: { length (node_places graph.now) < 2 ^ 64 },
}

/// Returns the first node of package `ix`.
fn first_of(firsts: &[u32], ix: usize) -> usize
    requires { ix < length firsts.now }
    ensures { result ≡ slice_index firsts.now ix }
{
    firsts[ix] as usize
}

/// Returns label `place` of a package.
fn label<'g>(metadata: PackageMetadata<'g>, place: usize) -> FeatureLabel<'g>
    requires { place < length (labels_of (package_table_of metadata)) }
    ensures { slice_get (labels_of (package_table_of metadata.entry)) place ≡ Some (label_of result) }
{
    let features = metadata.named_features();
    let names = metadata.optional_deps();
    if place == 0 {
        FeatureLabel::Base
    } else if place <= features.len() {
        FeatureLabel::Named(features[place - 1].name())
    } else {
        FeatureLabel::OptionalDependency(names[place - 1 - features.len()].as_str())
    }
}

/// Returns the label of node `ix`, by the first node of each package and the package of each node.
pub fn label_at<'g>(
    graph: &'g PackageGraph,
    firsts: &[u32],
    packages: &[u32],
    ix: usize,
) -> FeatureLabel<'g>
    requires firsts { firsts.now ≡ first_nodes graph.now }
    requires packages { packages.now ≡ node_packages graph.now }
    requires node { ix < length packages.now }
    ensures { NodeAt graph.now ix (slice_index packages.now ix) (label_of result) }
{
    let package_ix = packages[ix] as usize;
    let place = ix - first_of(firsts, package_ix);
    label(graph.package(package_ix), place)
}

impl<'g> Numbers<'g> {
    /// Returns the node of label `place` of a package.
    fn number(self, metadata: PackageMetadata<'g>, place: usize) -> usize
        requires graph { package_graph_of metadata ≡ self.graph.now }
        requires place { place < length (labels_of (package_table_of metadata)) }
        ensures { result ≡ first_node self.entry.graph.now metadata.entry.package_ix + place }
    {
        let ix = metadata.package_ix();
        first_of(self.firsts, ix) + place
    }

    /// Returns the base of a package.
    pub fn base(self, metadata: PackageMetadata<'g>) -> usize
        requires { package_graph_of metadata ≡ self.graph.now }
        ensures number { result ≡ first_node self.entry.graph.now metadata.entry.package_ix }
        ensures node { NodeAt self.entry.graph.now result metadata.entry.package_ix base }
    {
        let _ix = metadata.package_ix();
        self.number(metadata, 0)
    }

    /// Returns the node of the named feature `name` of a package, or `None` if there is none.
    pub fn named(self, metadata: PackageMetadata<'g>, name: &str) -> Option<usize>
        requires { package_graph_of metadata ≡ self.graph.now }
        ensures node { (n : ℕ) → (result ≡ Some n) ↔ NodeAt self.entry.graph.now n metadata.entry.package_ix (named name.now) }
        ensures found { is_some result ≡ has_feature name.now (package_table_of metadata.entry).features }
    {
        self.graph.facts();
        let _ix = metadata.package_ix();
        match metadata.feature_place(name) {
            Some(place) => Some(self.number(metadata, 1 + place)),
            None => None,
        }
    }

    /// Returns the node of the feature `default` of a package, or `None` if there is none.
    pub fn default_of(self, metadata: PackageMetadata<'g>) -> Option<usize>
        requires { package_graph_of metadata ≡ self.graph.now }
        ensures { (n : ℕ) → (result ≡ Some n) ↔ NodeAt self.entry.graph.now n metadata.entry.package_ix (named (codes "default")) }
    {
        self.named(metadata, "default")
    }

    /// Returns the node of the optional dependency `name` of a package, or `None` if there is none.
    pub fn optional(self, metadata: PackageMetadata<'g>, name: &str) -> Option<usize>
        requires { package_graph_of metadata ≡ self.graph.now }
        ensures node { (n : ℕ) → (result ≡ Some n) ↔ NodeAt self.entry.graph.now n metadata.entry.package_ix (optional name.now) }
        ensures found { is_some result ≡ has_name name.now (package_table_of metadata.entry).optional_names }
    {
        self.graph.facts();
        let _ix = metadata.package_ix();
        let features = metadata.named_features().len();
        match metadata.optional_place(name) {
            Some(place) => Some(self.number(metadata, 1 + features + place)),
            None => None,
        }
    }

    /// Returns the node of named feature `place` of a package.
    pub(crate) fn feature(self, metadata: PackageMetadata<'g>, place: usize) -> usize
        requires graph { package_graph_of metadata ≡ self.graph.now }
        requires place { place < length (package_table_of metadata).features }
        ensures { result ≡ first_node self.entry.graph.now metadata.entry.package_ix + 1 + place }
    {
        let _ix = metadata.package_ix();
        self.number(metadata, 1 + place)
    }

    /// Returns the number of nodes of a package.
    pub(crate) fn node_count(self, metadata: PackageMetadata<'g>) -> usize
        requires { package_graph_of metadata ≡ self.graph.now }
        ensures count { result ≡ length (labels_of (package_table_of metadata.entry)) }
        ensures fits { first_node self.entry.graph.now metadata.entry.package_ix + result < 2 ^ 64 }
    {
        let _ix = metadata.package_ix();
        let features = metadata.named_features().len();
        let names = metadata.optional_deps().len();
        1 + features + names
    }
}

/// Returns the numbers of the nodes of `table`.
pub fn numbers_in<'a>(graph: &'a PackageGraph, table: &'a NodeTable) -> Numbers<'a>
    requires firsts { table.now.firsts.items ≡ first_nodes graph.now }
    requires packages { table.now.packages.items ≡ node_packages graph.now }
    ensures { result.graph.now ≡ graph.now }
{
    Numbers {
        graph,
        firsts: table.firsts.as_slice(),
    }
}
