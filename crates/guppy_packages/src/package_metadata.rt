//! A package of a graph.
ghost use Rattle.std.specs.Prelude.{◌≡◌, Some, slice_get, map, codes};
ghost use Rattle.std.specs.String.{string_bytes};
ghost use Rattle.guppy_packages.specs.NamedFeature.{feature_table};
ghost use Rattle.guppy_packages.specs.Stored.{package_table};
ghost use Rattle.guppy_packages.specs.Tables.{feature_place, optional_place, has_feature, AreLinksFrom};

use crate::contents::PackageData;
use crate::named_feature::NamedFeature;
use crate::package_graph::PackageGraph;
use crate::package_id::PackageId;
use std::ops::Range;

/// The error of a look-up: no package has the id.
#[derive(Clone, Copy, PartialEq, Eq, Debug)]
pub struct UnknownPackageId;

/// A package of a graph. Equality compares ids only.
#[derive(Clone, Copy)]
#[derive_where(PartialEq, Eq, Debug)]
pub struct PackageMetadata<'g> {
    #[derive_where(skip)]
    graph: &'g PackageGraph,
    #[derive_where(skip)]
    package_ix: usize,
    id: &'g PackageId,
    #[derive_where(skip)]
    contents: &'g PackageData,
    pub ghost stands: { slice_get graph.now.packages package_ix ≡ Some (package_table (id.now, contents.now)) },
}

impl<'g> PackageMetadata<'g> {
    ghost use Rattle.guppy_packages.specs.Metadata.{package_id_of, package_graph_of, package_number_of, package_table_of};

    /// Returns package `package_ix` of `graph`, with the id `id` and the data `contents`.
    pub(crate) fn new(
        graph: &'g PackageGraph,
        package_ix: usize,
        id: &'g PackageId,
        contents: &'g PackageData,
    ) -> Self
        requires { slice_get graph.now.packages package_ix ≡ Some (package_table (id.now, contents.now)) }
        ensures graph { package_graph_of result ≡ graph.now }
        ensures package { package_table_of result ≡ package_table (id.now, contents.now) }
        ensures number { package_number_of result ≡ package_ix }
    {
        PackageMetadata {
            graph,
            package_ix,
            id,
            contents,
        }
    }

    /// Returns the package's id.
    pub fn id(self) -> &'g PackageId
        ensures { result.now ≡ package_id_of self.entry }
    {
        self.id
    }

    /// Returns the package's number in the graph.
    pub fn package_ix(self) -> usize
        ensures number { result ≡ package_number_of self.entry }
        ensures package { slice_get (package_graph_of self.entry).packages result ≡ Some (package_table_of self.entry) }
    {
        self.package_ix
    }

    /// Returns the package's graph.
    pub fn graph(self) -> &'g PackageGraph
        ensures { result.now ≡ package_graph_of self.entry }
    {
        self.graph
    }

    /// Returns whether the package is a workspace member.
    pub fn in_workspace(self) -> bool
        ensures { result ≡ (package_table_of self.entry).in_workspace }
    {
        self.contents.in_workspace
    }

    /// Returns the package's named features, in row order.
    pub fn named_features(self) -> &'g [NamedFeature]
        ensures { map feature_table result.now ≡ (package_table_of self.entry).features }
    {
        self.contents.features.as_slice()
    }

    /// Returns the index of the feature `name` in `named_features`.
    pub fn feature_place(self, name: &str) -> Option<usize>
        ensures { result ≡ feature_place name.now (package_table_of self.entry).features }
    {
        self.contents.features.place_of(name)
    }

    /// Returns whether a named feature is called `default`.
    pub fn has_default_feature(self) -> bool
        ensures { result ≡ has_feature (codes "default") (package_table_of self.entry).features }
    {
        self.feature_place("default").is_some()
    }

    /// Returns the names of the optional dependencies, in the order of the first row of each.
    pub fn optional_deps(self) -> &'g [String]
        ensures { map string_bytes result.now ≡ (package_table_of self.entry).optional_names }
    {
        self.contents.optional_names.as_slice()
    }

    /// Returns the index of `name` in `optional_deps`.
    pub fn optional_place(self, name: &str) -> Option<usize>
        ensures { result ≡ optional_place name.now (package_table_of self.entry).optional_names }
    {
        self.contents.optional_names.place_of(name)
    }

    /// Returns the numbers of the links that leave the package, ascending.
    pub fn direct_links(self) -> Range<usize>
        ensures { AreLinksFrom (package_graph_of self.entry).links (package_number_of self.entry) result.start result.end }
    {
        self.graph.links_from(self.package_ix)
    }
}
