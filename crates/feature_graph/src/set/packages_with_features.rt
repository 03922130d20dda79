//! The features of a set, by package.
ghost use Rattle.std.specs.Prelude.{◌≡◌, ◌<◌, All, IfSome, length};
ghost use Rattle.std.specs.Iterator.{YieldsFirst, item_count};
ghost use Rattle.feature_graph.specs.PackageViews.{IsOfPackage, ListsByPackage, as_read, with_members};
ghost use Rattle.feature_graph.specs.Results.{GivesOrEnds};

use crate::set::FeatureSet;
use feature_core::Error;
use feature_labels::FeatureList;
use guppy_packages::DependencyDirection;
use std::alloc::Global;
use std::iter::FusedIterator;
use std::marker::Model;
use std::slice;

/// An iterator over the numbers of an order, reversed for `Reverse`.
#[derive(Drop)]
struct PackageNumbers<'g> {
    numbers: slice::Iter<'g, usize>,
    direction: DependencyDirection,
}

impl<'g> Model for PackageNumbers<'g> {
    ghost use Rattle.std.specs.Prelude.{ℕ, List};
    ghost use Rattle.std.specs.Slice.Iter.{iter_rest};
    ghost use Rattle.feature_graph.specs.PackageViews.{as_read};

    ghost Value = { List ℕ };

    ghost view = { λ it. as_read it.direction (iter_rest it.numbers) };
}

impl<'g> PackageNumbers<'g> {
    /// Returns an iterator over the numbers of `order` in `direction`.
    fn new(order: &'g [usize], direction: DependencyDirection) -> Self
        ensures { result ≡ as_read direction order.now }
    {
        PackageNumbers {
            numbers: order.iter(),
            direction,
        }
    }
}

impl<'g> Iterator for PackageNumbers<'g> {
    type Item = usize;

    ghost next_gives = { YieldsFirst (λ rest. rest) };

    ghost remaining = { item_count (λ rest. rest) };

    fn next(&mut self) -> Option<usize> {
        match self.direction {
            DependencyDirection::Forward => self.numbers.next().copied(),
            DependencyDirection::Reverse => self.numbers.next_back().copied(),
        }
    }
}

impl<'g> FeatureSet<'g> {
    /// Returns the first package of `numbers` with a feature in the set. It and those before it are consumed.
    fn next_member(&self, numbers: &mut PackageNumbers<'_>) -> Option<usize>
        requires { All (λ p. p < length self.now.graph.tables.packages) numbers.old }
        ensures first { YieldsFirst (with_members self.now) numbers.old result numbers.new }
        ensures number { IfSome result (λ p. p < length self.now.graph.tables.packages) }
        ensures within { All (λ p. p < length self.now.graph.tables.packages) numbers.new }
    {
        while let Some(package_ix) = numbers.next() {
            if self.has_member_of(package_ix) {
                return Some(package_ix);
            }
        }
        None
    }

    /// Returns an iterator over the set's features as lists, one for each package with a feature in the set. The
    /// packages are in the order of the package graph, reversed for `Reverse`. Each item allocates on its own.
    pub fn packages_with_features(
        &self,
        alloc: Global,
        direction: DependencyDirection,
    ) -> PackagesWithFeatures<'g, '_>
        ensures { ListsByPackage direction self.now result }
    {
        let order = self.graph.package_graph().order();
        order.facts();
        PackagesWithFeatures {
            alloc,
            set: self,
            numbers: Some(PackageNumbers::new(order.list(), direction)),
        }
    }
}

/// An iterator over the packages of a set, each as the list of the set's features in it, in the order of packages or
/// backwards. It ends after an error, which is `Memory`.
#[derive(Drop)]
pub struct PackagesWithFeatures<'g, 'a> {
    alloc: Global,
    set: &'a FeatureSet<'g>,
    // `None` after an error
    numbers: Option<PackageNumbers<'g>>,
}

impl<'g, 'a> Model for PackagesWithFeatures<'g, 'a> {
    ghost use Rattle.std.specs.Prelude.{ℕ, List};
    ghost use Rattle.feature_graph.specs.Values.{Set};

    ghost Value = { List (Set × ℕ) };

    ghost use Rattle.feature_graph.specs.inner.PackageSteps.{AreWithin, packages_left};

    ghost view = { λ it. packages_left it.set.now it.numbers };

    ghost invariant = { λ it. AreWithin it.set.now it.numbers };
}

impl<'g, 'a> Iterator for PackagesWithFeatures<'g, 'a> {
    type Item = Result<FeatureList<'g>, Error<'static>>;

    ghost next_gives = { GivesOrEnds IsOfPackage (λ rest. rest) };

    ghost remaining = { item_count (λ rest. rest) };

    fn next(&mut self) -> Option<Result<FeatureList<'g>, Error<'static>>> {
        let set = self.set;
        let numbers = match &mut self.numbers {
            Some(numbers) => numbers,
            None => return None,
        };
        let package_ix = set.next_member(numbers)?;
        match set.list_of(self.alloc, package_ix) {
            Ok(list) => Some(Ok(list)),
            Err(_) => {
                self.numbers = None;
                Some(Err(Error::Memory))
            }
        }
    }
}

impl<'g, 'a> FusedIterator for PackagesWithFeatures<'g, 'a> {}
