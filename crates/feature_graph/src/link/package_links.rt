//! The package links that a link between features covers.
ghost use Rattle.std.specs.Prelude.{◌≡◌, ◌<◌, IfSome, Some, All, length};
ghost use Rattle.std.specs.Iterator.{YieldsFirstBy, UpTo, item_count};
ghost use Rattle.std.specs.Iterator.SizeHint.{IsWithinCount};
ghost use Rattle.feature_graph.specs.LinkValues.{numbered_links};
ghost use Rattle.feature_graph.specs.PackageLinkViews.{numbered_link_of};

use guppy_packages::{PackageGraph, PackageLink};
use std::iter::FusedIterator;
use std::marker::Model;
use std::slice;

/// An iterator over package links, by ascending number. A contract sees it as the list of the remaining links.
#[derive(Drop)]
pub struct PackageLinks<'g> {
    graph: &'g PackageGraph,
    numbers: slice::Iter<'g, usize>,
}

impl<'g> Model for PackageLinks<'g> {
    ghost use Rattle.std.specs.Prelude.{ℕ, List, All, ◌<◌, length};
    ghost use Rattle.std.specs.Slice.Iter.{iter_rest};
    ghost use Rattle.guppy_packages.specs.Tables.{Tables};

    ghost Value = { List (Tables × ℕ) };

    ghost use Rattle.feature_graph.specs.LinkValues.{numbered_links};

    ghost view = { λ it. numbered_links it.graph.now (iter_rest it.numbers) };

    ghost invariant = { λ it. All (λ k. k < length it.graph.now.links) (iter_rest it.numbers) };
}

impl<'g> PackageLinks<'g> {
    /// Returns the links with these numbers.
    pub(crate) fn new(graph: &'g PackageGraph, numbers: &'g [usize]) -> Self
        requires { All (λ k. k < length graph.now.links) numbers.now }
        ensures { result ≡ numbered_links graph.now numbers.now }
    {
        PackageLinks {
            graph,
            numbers: numbers.iter(),
        }
    }
}

impl<'g> Iterator for PackageLinks<'g> {
    type Item = PackageLink<'g>;

    ghost next_gives = { YieldsFirstBy numbered_link_of (λ rest. rest) };

    ghost remaining = { item_count (λ rest. rest) };

    fn next(&mut self) -> Option<PackageLink<'g>> {
        let number = *self.numbers.next()?;
        Some(self.graph.link(number))
    }

    fn size_hint(&self) -> (usize, Option<usize>)
        ensures lower { IsWithinCount result.0 (item_count (λ rest. rest) self.now) }
        ensures upper { IfSome result.1 (UpTo (item_count (λ rest. rest) self.now)) }
        ensures exact { result ≡ (length self.now, Some (length self.now)) }
    {
        let len = self.len();
        (len, Some(len))
    }
}

impl<'g> ExactSizeIterator for PackageLinks<'g> {
    fn len(&self) -> usize {
        self.numbers.len()
    }
}

impl<'g> FusedIterator for PackageLinks<'g> {}
