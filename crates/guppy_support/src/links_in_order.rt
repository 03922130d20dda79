//! The edges between the members of a set, in an order.
ghost use Rattle.std.specs.Prelude.{◌≡◌, ◌+◌, ◌^◌, ◌<◌, ◌≤◌, ◌∷◌, ℕ, [], All, length, drop, slice_get, slice_index, MatchOption, IfSome, IfNone, Some};
ghost use Rattle.std.specs.Iterator.{YieldsFirst, item_count};
ghost use Rattle.guppy_support.specs.Views.{links_in_order, starting, start_of, end_of};
ghost use Rattle.guppy_support.specs.inner.Cursors.{links_after};

use crate::in_order::InOrder;
use crate::reading::Reading;
use digraph_orders::Order;
use digraphs::{Digraph, IxBitSet};
use std::iter::FusedIterator;
use std::marker::Model;

/// An iterator over the numbers of the edges whose ends are both members. Edges are sorted by the place of
/// their start among the members, as `reading` lists them, and then by the number of the other end. Its value
/// in contracts is the list of the remaining edges.
#[derive(Debug, Drop)]
pub struct LinksInOrder<'a> {
    digraph: &'a Digraph,
    members: &'a IxBitSet,
    reading: Reading,
    // the members after the current one, `start`
    nodes: InOrder<'a>,
    start: Option<usize>,
    // the number of edges of the current member that are passed
    passed: usize,
}

impl<'a> Model for LinksInOrder<'a> {
    ghost use Rattle.std.specs.Prelude.{List, ℕ, ◌≡◌, ◌<◌, length, IfSome, All};
    ghost use Rattle.guppy_support.specs.inner.Cursors.{links_left};

    ghost Value = { List ℕ };

    ghost view = { λ it. links_left it.reading it.digraph.now.edges it.members.now it.start it.passed it.nodes };

    ghost invariant = { λ it.
        (length it.members.now ≡ it.digraph.now.nodes)
        × IfSome it.start (λ v. v < it.digraph.now.nodes)
        × All (λ v. v < it.digraph.now.nodes) it.nodes };
}

impl<'a> LinksInOrder<'a> {
    /// Returns an iterator over the edges of `digraph` between `members`, by the place of their start in `order`,
    /// which needn't be an order of `digraph`. `reading` decides the direction, and which end is the start.
    pub fn new(
        order: &'a Order,
        digraph: &'a Digraph,
        members: &'a IxBitSet,
        reading: Reading,
    ) -> Self
        requires order { length order.now.list ≡ digraph.now.nodes }
        requires size { length members.now ≡ digraph.now.nodes }
        ensures { result ≡ links_in_order reading digraph.now.edges order.now.list members.now }
    {
        let mut nodes = InOrder::new(order, members, reading);
        let start = nodes.next();
        LinksInOrder {
            digraph,
            members,
            reading,
            nodes,
            start,
            passed: 0,
        }
    }
}

// Returns the edge at `place` among those that start at `node`.
fn edge_at(digraph: &Digraph, reading: Reading, node: usize, place: usize) -> Option<usize>
    requires { node < digraph.now.nodes }
    ensures edge { result ≡ slice_get (starting reading digraph.now.edges node) place }
    ensures few { IfSome result (λ _. place + 1 < 2 ^ 64) }
{
    match reading {
        Reading::Forward => {
            let numbers = digraph.out_edges(node);
            if place < numbers.end - numbers.start {
                Some(numbers.start + place)
            } else {
                None
            }
        }
        Reading::Backward => digraph.in_edge(node, place),
    }
}

/// Returns the nodes at which `edge` starts and ends.
#[inline]
pub(crate) fn ends_of(digraph: &Digraph, reading: Reading, edge: usize) -> (usize, usize)
    requires { edge < length digraph.now.edges }
    ensures start { result.0 ≡ start_of reading digraph.now.edges edge }
    ensures end { result.1 ≡ end_of reading digraph.now.edges edge }
{
    let ends = digraph.edge(edge);
    match reading {
        Reading::Forward => (ends.from, ends.to),
        Reading::Backward => (ends.to, ends.from),
    }
}

// Returns the first edge of `node` from place `from` on that ends at a member, and the place after it.
fn next_link(
    digraph: &Digraph,
    members: &IxBitSet,
    reading: Reading,
    node: usize,
    from: usize,
) -> Option<(usize, usize)>
    requires node { node < digraph.now.nodes }
    requires size { length members.now ≡ digraph.now.nodes }
    ensures { MatchOption result (links_after reading digraph.now.edges members.now node from ≡ [])
        (λ p. links_after reading digraph.now.edges members.now node from
        ≡ p.0 ∷ links_after reading digraph.now.edges members.now node p.1) }
{
    digraph.facts();
    let mut place = from;
    while let Some(edge) = edge_at(digraph, reading, node, place) {
        place += 1;
        if members.contains(ends_of(digraph, reading, edge).1) {
            return Some((edge, place));
        }
    }
    None
}

impl<'a> Iterator for LinksInOrder<'a> {
    type Item = usize;

    ghost next_gives = { YieldsFirst (λ rest. rest) };

    ghost remaining = { item_count (λ rest. rest) };

    fn next(&mut self) -> Option<usize> {
        while let Some(node) = self.start {
            let found = next_link(self.digraph, self.members, self.reading, node, self.passed);
            if let Some((edge, passed)) = found {
                self.passed = passed;
                return Some(edge);
            }
            self.start = self.nodes.next();
            self.passed = 0;
        }
        None
    }
}

impl<'a> FusedIterator for LinksInOrder<'a> {}
