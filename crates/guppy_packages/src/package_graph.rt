//! The package graph.
ghost use Rattle.std.specs.Prelude.{◌≡◌, ◌<◌, Some, None, length, slice_get, IfOk, MatchResult};
ghost use Rattle.guppy_support.specs.digraph_orders.Sequences.{IsOrderOf};
ghost use Rattle.guppy_packages.specs.PackageOrder.{digraph_of_packages};
ghost use Rattle.guppy_packages.specs.Tables.{package_place, AreLinksFrom, AreTables};

use crate::contents::Link;
use crate::package_id::PackageId;
use crate::package_link::PackageLink;
use crate::package_list::PackageList;
use crate::package_metadata::{PackageMetadata, UnknownPackageId};
use guppy_support::Order;
use std::marker::Model;
use std::ops::Range;

/// Packages with their features, and the links between them. A contract sees it as its tables.
pub struct PackageGraph {
    pub(crate) packages: PackageList,
    pub(crate) links: Vec<Link>,
    // the number of each package's first link, and the number of links at the end
    pub(crate) begins: Vec<u32>,
    pub(crate) order: Order,
}

impl Drop for PackageGraph {
    // Written out, so that a crate above calls it. A derived drop is proved in each crate that drops a value, with those of all fields.
    fn drop(self) {
        let PackageGraph {
            packages: _packages,
            links: _links,
            begins: _begins,
            order: _order,
        } = self;
    }
}

impl Model for PackageGraph {
    ghost use Rattle.guppy_packages.specs.Tables.{Tables, AreTables};

    ghost Value = { Tables };

    ghost use Rattle.std.specs.Prelude.{length};
    ghost use Rattle.guppy_support.specs.digraph_orders.Sequences.{IsOrderOf};
    ghost use Rattle.guppy_packages.specs.PackageOrder.{digraph_of_packages};
    ghost use Rattle.guppy_packages.specs.Stored.{package_tables, link_tables};
    ghost use Rattle.guppy_packages.specs.inner.Begins.{AreAllBegun};

    ghost view = { λ g. record { packages = package_tables g.packages; links = link_tables g.links.items } };

    ghost invariant = { λ g.
        AreTables (record { packages = package_tables g.packages; links = link_tables g.links.items })
        × IsOrderOf (digraph_of_packages (record { packages = package_tables g.packages; links = link_tables g.links.items })) g.order
        × AreAllBegun (length (package_tables g.packages)) (link_tables g.links.items) g.begins.items };
}

impl PackageGraph {
    ghost use Rattle.guppy_packages.specs.Metadata.{package_graph_of, package_id_of, package_number_of, package_table_of, link_graph_of, link_number_of, link_table_of};

    /// States the rules that the tables of every package graph satisfy.
    pub fn facts(&self)
        ensures { AreTables self.now }
    {
        let _ = &self.packages;
    }

    /// Returns the number of packages.
    pub fn package_count(&self) -> usize
        ensures { result ≡ length self.now.packages }
    {
        self.packages.len()
    }

    /// Returns the number of links.
    pub fn link_count(&self) -> usize
        ensures { result ≡ length self.now.links }
    {
        self.links.len()
    }

    /// Returns package `ix`.
    pub fn package(&self, ix: usize) -> PackageMetadata<'_>
        requires { ix < length self.now.packages }
        ensures graph { package_graph_of result ≡ self.now }
        ensures package { slice_get self.now.packages ix ≡ Some (package_table_of result) }
        ensures number { package_number_of result ≡ ix }
    {
        let (id, contents) = self.packages.get(ix);
        PackageMetadata::new(self, ix, id, contents)
    }

    /// Returns link `ix`.
    pub fn link(&self, ix: usize) -> PackageLink<'_>
        requires { ix < length self.now.links }
        ensures graph { link_graph_of result ≡ self.now }
        ensures link { slice_get self.now.links ix ≡ Some (link_table_of result) }
        ensures number { link_number_of result ≡ ix }
    {
        let (pair, data) = &self.links[ix];
        PackageLink::new(self, ix, (pair.0 as usize, pair.1 as usize), data)
    }

    /// Returns the order of the packages, by their numbers: the order of the digraph of their links. A dev-only link doesn't
    /// order its two packages.
    pub fn order(&self) -> &Order
        ensures { IsOrderOf (digraph_of_packages self.now) result.now }
    {
        &self.order
    }

    /// Returns the numbers of the links that leave package `package_ix`: an empty range at the end if there is no such package.
    pub(crate) fn links_from(&self, package_ix: usize) -> Range<usize>
        ensures { AreLinksFrom self.now.links package_ix result.start result.end }
    {
        if package_ix >= self.packages.len() {
            let end = self.links.len();
            return end..end;
        }
        self.begins[package_ix] as usize..self.begins[package_ix + 1] as usize
    }

    /// Returns the package whose id is `id`, or `UnknownPackageId` if there is none.
    pub fn metadata(&self, id: &PackageId) -> Result<PackageMetadata<'_>, UnknownPackageId>
        ensures found { MatchResult result
            (λ m. (package_graph_of m ≡ self.now) × (package_place id.now self.now.packages ≡ Some (package_number_of m)))
            (λ _. package_place id.now self.now.packages ≡ None) }
        ensures id { IfOk result (λ m. package_id_of m ≡ id.now) }
    {
        match self.packages.place_of(id) {
            Some(ix) => Ok(self.package(ix)),
            None => Err(UnknownPackageId),
        }
    }
}
