//! The packages with a feature in a set.
ghost use Rattle.std.specs.Prelude.{◌≡◌, ◌+◌, ◌^◌, ◌<◌, ◌≤◌, ◌∷◌, [], IfSome, MatchOption, MatchResult, Some, length};
ghost use Rattle.std.specs.Iterator.{YieldsFirstBy, UpTo, item_count};
ghost use Rattle.std.specs.Iterator.SizeHint.{IsWithinCount};
ghost use Rattle.feature_core.specs.Errors.{refusal_of};
ghost use Rattle.feature_graph.specs.Packages.{RefusesPackageId, TellsPackage, has_member_of, member_packages, member_packages_from};
ghost use Rattle.guppy_packages.specs.PackageSets.{numbered, numbered_package};

use crate::set::FeatureSet;
use feature_core::Error;
use guppy_packages::{PackageId, PackageMetadata};
use std::iter::FusedIterator;
use std::marker::Model;

impl<'g> FeatureSet<'g> {
    /// Returns true if the package with this number has a feature in the set.
    pub(crate) fn has_member_of(&self, package_ix: usize) -> bool
        requires { package_ix < length self.now.graph.tables.packages }
        ensures { result ≡ has_member_of self.now.graph.tables self.now.members package_ix }
    {
        let nodes = self.graph.nodes_of(package_ix);
        'nodes: for node in nodes.start..nodes.end {
            if self.members.contains(node) {
                return true;
            }
        }
        false
    }

    /// Returns the least number, from `from` on, of a package with a feature in the set.
    fn next_package_from(&self, from: usize) -> Option<usize>
        requires { from ≤ length self.now.graph.tables.packages }
        ensures fits { length self.now.graph.tables.packages < 2 ^ 64 }
        ensures least { MatchOption result
            (member_packages_from self.now.graph.tables self.now.members from ≡ [])
            (λ p. (from ≤ p) × (p < length self.now.graph.tables.packages)
            × (member_packages_from self.now.graph.tables self.now.members from ≡ p ∷ member_packages_from self.now.graph.tables self.now.members (p + 1))) }
    {
        let count = self.graph.package_graph().package_count();
        'packages: for package_ix in from..count {
            if self.has_member_of(package_ix) {
                return Some(package_ix);
            }
        }
        None
    }

    /// Returns the number of packages with a feature in the set.
    fn package_count(&self) -> usize
        ensures { result ≡ length (member_packages self.now.graph.tables self.now.members) }
    {
        let mut found = 0;
        let count = self.graph.package_graph().package_count();
        'packages: for package_ix in 0..count {
            if self.has_member_of(package_ix) {
                found += 1;
            }
        }
        found
    }

    /// Returns an iterator over the packages with a feature in the set.
    pub(crate) fn member_packages(&self) -> InitialPackages<'g, '_>
        ensures { result ≡ numbered self.now.graph.tables (member_packages self.now.graph.tables self.now.members) }
    {
        InitialPackages {
            initials: self,
            next: 0,
            left: self.package_count(),
        }
    }

    /// Returns true if the package has a feature in the set, or `UnknownPackageId` if no package has this id.
    pub fn contains_package<'a>(&self, package_id: &'a PackageId) -> Result<bool, Error<'a>>
        ensures { MatchResult result
            (λ answer. TellsPackage self.now.graph.tables self.now.members package_id.now answer)
            (λ e. RefusesPackageId self.now.graph.tables package_id.now (refusal_of e)) }
    {
        match self.graph.package_graph().metadata(package_id) {
            Ok(package) => Ok(self.has_member_of(package.package_ix())),
            Err(_) => Err(Error::UnknownPackageId(package_id)),
        }
    }
}

/// An iterator over the packages of a query's initial features, by number.
#[derive(Drop)]
pub struct InitialPackages<'g, 'a> {
    initials: &'a FeatureSet<'g>,
    next: usize,
    left: usize,
}

impl<'g, 'a> Model for InitialPackages<'g, 'a> {
    ghost use Rattle.std.specs.Prelude.{List, ℕ, ◌≡◌, ◌≤◌, length};
    ghost use Rattle.guppy_packages.specs.Tables.{Tables};
    ghost use Rattle.feature_graph.specs.Packages.{member_packages_from};
    ghost use Rattle.guppy_packages.specs.PackageSets.{numbered};

    ghost Value = { List (Tables × ℕ) };

    ghost view = { λ it. numbered it.initials.now.graph.tables (member_packages_from it.initials.now.graph.tables it.initials.now.members it.next) };

    ghost invariant = { λ it.
        (it.next ≤ length it.initials.now.graph.tables.packages)
        × (it.left ≡ length (member_packages_from it.initials.now.graph.tables it.initials.now.members it.next)) };
}

impl<'g, 'a> Iterator for InitialPackages<'g, 'a> {
    type Item = PackageMetadata<'g>;

    ghost next_gives = { YieldsFirstBy numbered_package (λ rest. rest) };

    ghost remaining = { item_count (λ rest. rest) };

    fn next(&mut self) -> Option<PackageMetadata<'g>> {
        let initials = self.initials;
        let package_ix = initials.next_package_from(self.next)?;
        self.next = package_ix + 1;
        self.left -= 1;
        Some(initials.graph().package_graph().package(package_ix))
    }

    fn size_hint(&self) -> (usize, Option<usize>)
        ensures lower { IsWithinCount result.0 (item_count (λ rest. rest) self.now) }
        ensures upper { IfSome result.1 (UpTo (item_count (λ rest. rest) self.now)) }
        ensures exact { result ≡ (length self.now, Some (length self.now)) }
    {
        let len = self.len();
        (len, Some(len))
    }
}

impl<'g, 'a> ExactSizeIterator for InitialPackages<'g, 'a> {
    fn len(&self) -> usize {
        self.left
    }
}

impl<'g, 'a> FusedIterator for InitialPackages<'g, 'a> {}
