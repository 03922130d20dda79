//! Sets of packages.
ghost use Rattle.std.specs.Prelude.{◌≡◌, ◌↔◌, IsTrue, IfSome, MatchResult, None, Some, count_by, length};
ghost use Rattle.std.specs.Iterator.{YieldsFirstBy, UpTo, item_count};
ghost use Rattle.std.specs.Iterator.SizeHint.{IsWithinCount};
ghost use Rattle.std.specs.Option.{option_map};
ghost use Rattle.guppy_support.specs.digraphs.Bits.{has};
ghost use Rattle.guppy_packages.specs.PackageSets.{AreInPackageOrder, numbered_package};
ghost use Rattle.guppy_packages.specs.Tables.{package_place};

use crate::direction::DependencyDirection;
use crate::package_graph::PackageGraph;
use crate::package_id::PackageId;
use crate::package_metadata::{PackageMetadata, UnknownPackageId};
use guppy_support::{InOrder, IxBitSet};
use std::fmt;
use std::iter::FusedIterator;
use std::marker::Model;

/// A set of packages of one graph. A contract sees it as the graph's tables and one bit for each package.
#[derive(Drop)]
pub struct PackageSet<'g> {
    graph: &'g PackageGraph,
    members: IxBitSet,
}

impl<'g> Model for PackageSet<'g> {
    ghost use Rattle.std.specs.Prelude.{◌≡◌, length};
    ghost use Rattle.guppy_packages.specs.PackageSets.{PackageMembers};

    ghost Value = { PackageMembers };

    ghost view = { λ s. record { tables = s.graph.now; members = s.members } };

    ghost invariant = { λ s. length s.members ≡ length s.graph.now.packages };
}

impl<'g> PackageSet<'g> {
    /// Returns the set of the packages whose bit in `members` is set. `members` has one bit for each package of `graph`.
    pub fn new(graph: &'g PackageGraph, members: IxBitSet) -> Self
        requires { length members ≡ length graph.now.packages }
        ensures tables { result.tables ≡ graph.now }
        ensures members { result.members ≡ members }
    {
        PackageSet { graph, members }
    }

    /// Returns the number of packages in the set.
    pub fn len(&self) -> usize
        ensures { result ≡ count_by (λ b. b) self.now.members }
    {
        self.members.count()
    }

    /// Returns whether the set is empty.
    pub fn is_empty(&self) -> bool
        ensures { IsTrue result ↔ (count_by (λ b. b) self.now.members ≡ 0) }
    {
        self.len() == 0
    }

    /// Returns whether the set contains the package `id`, or `UnknownPackageId` if the graph doesn't.
    pub fn contains(&self, id: &PackageId) -> Result<bool, UnknownPackageId>
        ensures { MatchResult result
            (λ answer. option_map (has self.now.members) (package_place id.now self.now.tables.packages) ≡ Some answer)
            (λ _. package_place id.now self.now.tables.packages ≡ None) }
    {
        match self.graph.metadata(id) {
            Ok(package) => Ok(self.members.contains(package.package_ix())),
            Err(error) => Err(error),
        }
    }

    /// Returns the packages of the set in the order of packages: forward as it is, in reverse exactly backwards.
    pub fn packages(&self, direction: DependencyDirection) -> Packages<'g, '_>
        ensures { AreInPackageOrder self.now.tables direction self.now.members result }
    {
        Packages {
            graph: self.graph,
            numbers: InOrder::new(self.graph.order(), &self.members, direction.reading()),
        }
    }
}

/// An iterator over the packages of a set, in the order of packages or backwards.
#[derive(Drop)]
pub struct Packages<'g, 'a> {
    graph: &'g PackageGraph,
    numbers: InOrder<'a>,
}

impl<'g, 'a> Model for Packages<'g, 'a> {
    ghost use Rattle.std.specs.Prelude.{List, ℕ, ◌<◌, All, length};
    ghost use Rattle.guppy_packages.specs.PackageSets.{numbered};
    ghost use Rattle.guppy_packages.specs.Tables.{Tables};

    ghost Value = { List (Tables × ℕ) };

    ghost view = { λ it. numbered it.graph.now it.numbers };

    ghost invariant = { λ it. All (λ p. p < length it.graph.now.packages) it.numbers };
}

impl<'g, 'a> Iterator for Packages<'g, 'a> {
    type Item = PackageMetadata<'g>;

    ghost next_gives = { YieldsFirstBy numbered_package (λ rest. rest) };

    ghost remaining = { item_count (λ rest. rest) };

    fn next(&mut self) -> Option<PackageMetadata<'g>> {
        let package_ix = self.numbers.next()?;
        Some(self.graph.package(package_ix))
    }

    fn size_hint(&self) -> (usize, Option<usize>)
        ensures lower { IsWithinCount result.0 (item_count (λ rest. rest) self.now) }
        ensures upper { IfSome result.1 (UpTo (item_count (λ rest. rest) self.now)) }
        ensures exact { result ≡ (length self.now, Some (length self.now)) }
    {
        let len = self.len();
        (len, Some(len))
    }
}

impl<'g, 'a> ExactSizeIterator for Packages<'g, 'a> {
    fn len(&self) -> usize {
        self.numbers.len()
    }
}

impl<'g, 'a> FusedIterator for Packages<'g, 'a> {}

impl fmt::Debug for PackageSet<'_> {
    fn fmt<W: fmt::Write>(&self, f: &mut fmt::Formatter<W>) -> fmt::Result {
        f.debug_struct("PackageSet")
            .field("len", &self.len())
            .finish()
    }
}
