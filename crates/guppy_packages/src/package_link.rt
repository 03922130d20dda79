//! A link between two packages.
ghost use Rattle.std.specs.Prelude.{◌≡◌, Some, slice_get, map};
ghost use Rattle.guppy_packages.specs.Stored.{link_table, declared};
ghost use Rattle.guppy_packages.specs.Tables.{is_dev_only};

use crate::contents::LinkData;
use crate::declaration::{Declaration, are_for_development};
use crate::package_graph::PackageGraph;
use crate::package_metadata::PackageMetadata;

/// A link of a graph: from a package to one of its dependencies.
#[derive(Clone, Copy)]
#[derive_where(Debug)]
pub struct PackageLink<'g> {
    #[derive_where(skip)]
    graph: &'g PackageGraph,
    link_ix: usize,
    pair: (usize, usize),
    contents: &'g LinkData,
    pub ghost stands: { slice_get graph.now.links link_ix ≡ Some (link_table (pair, contents.now)) },
}

impl<'g> PackageLink<'g> {
    ghost use Rattle.guppy_packages.specs.Metadata.{package_graph_of, package_number_of, package_table_of, link_graph_of, link_number_of, link_table_of};

    /// Returns link `link_ix` of `graph`, which joins `pair` and contains `contents`.
    pub(crate) fn new(
        graph: &'g PackageGraph,
        link_ix: usize,
        pair: (usize, usize),
        contents: &'g LinkData,
    ) -> Self
        requires { slice_get graph.now.links link_ix ≡ Some (link_table (pair, contents.now)) }
        ensures graph { link_graph_of result ≡ graph.now }
        ensures link { link_table_of result ≡ link_table (pair, contents.now) }
        ensures number { link_number_of result ≡ link_ix }
    {
        PackageLink {
            graph,
            link_ix,
            pair,
            contents,
        }
    }

    /// Returns the link's number in the graph.
    pub fn link_ix(self) -> usize
        ensures number { result ≡ link_number_of self.entry }
        ensures link { slice_get (link_graph_of self.entry).links result ≡ Some (link_table_of self.entry) }
    {
        self.link_ix
    }

    /// Returns the package that the link leaves.
    pub fn from(self) -> PackageMetadata<'g>
        ensures graph { package_graph_of result ≡ link_graph_of self.entry }
        ensures number { package_number_of result ≡ (link_table_of self.entry).from }
        ensures package { slice_get (link_graph_of self.entry).packages (link_table_of self.entry).from ≡ Some (package_table_of result) }
    {
        self.graph.facts();
        self.graph.package(self.pair.0)
    }

    /// Returns the package that the link leads to.
    pub fn to(self) -> PackageMetadata<'g>
        ensures graph { package_graph_of result ≡ link_graph_of self.entry }
        ensures number { package_number_of result ≡ (link_table_of self.entry).to }
        ensures package { slice_get (link_graph_of self.entry).packages (link_table_of self.entry).to ≡ Some (package_table_of result) }
    {
        self.graph.facts();
        self.graph.package(self.pair.1)
    }

    /// Returns the name of the dependency in the package that the link leaves.
    pub fn dep_name(self) -> &'g str
        ensures { result.now ≡ (link_table_of self.entry).name }
    {
        self.contents.name()
    }

    /// Returns the link's declarations, in row order.
    pub fn declarations(self) -> &'g [Declaration]
        ensures { map declared result.now ≡ (link_table_of self.entry).declarations }
    {
        self.contents.declarations.as_slice()
    }

    /// Returns whether every declaration is for development.
    pub fn dev_only(self) -> bool
        ensures { result ≡ is_dev_only (link_table_of self.entry) }
    {
        are_for_development(self.declarations())
    }
}
