//! The members of a set in an order.
ghost use Rattle.std.specs.Prelude.{◌≡◌, ◌+◌, ◌<◌, ◌≤◌, ◌∷◌, ℕ, [], length, slice_index, MatchOption, IfSome, Some};
ghost use Rattle.std.specs.Iterator.{YieldsFirst, UpTo, item_count};
ghost use Rattle.std.specs.Iterator.SizeHint.{IsWithinCount};
ghost use Rattle.guppy_support.specs.Views.{in_order};
ghost use Rattle.guppy_support.specs.inner.Cursors.{as_read, members_left};

use crate::reading::Reading;
use digraph_orders::Order;
use digraphs::IxBitSet;
use std::iter::FusedIterator;
use std::marker::Model;

/// An iterator over the members of a set, in the order of its nodes or in reverse. Its value in contracts is
/// the list of the remaining members.
#[derive(Debug, Drop)]
pub struct InOrder<'a> {
    list: &'a [usize],
    members: &'a IxBitSet,
    reading: Reading,
    // the number of nodes passed, in the direction of `reading`
    passed: usize,
    left: usize,
}

impl<'a> Model for InOrder<'a> {
    ghost use Rattle.std.specs.Prelude.{List, ℕ, ◌≡◌, ◌<◌, ◌≤◌, length, slice_index};
    ghost use Rattle.guppy_support.specs.inner.Cursors.{members_left};

    ghost Value = { List ℕ };

    ghost view = { λ it. members_left it.reading it.list.now it.members.now it.passed };

    ghost invariant = { λ it.
        (it.passed ≤ length it.list.now)
        × ((i : ℕ) → i < length it.list.now → slice_index it.list.now i < length it.members.now)
        × (it.left ≡ length (members_left it.reading it.list.now it.members.now it.passed)) };
}

impl<'a> InOrder<'a> {
    /// Returns an iterator over `members` in `order`; for `Backward`, in exactly the reverse order.
    pub fn new(order: &'a Order, members: &'a IxBitSet, reading: Reading) -> Self
        requires { length members.now ≡ length order.now.list }
        ensures { result ≡ in_order reading order.now.list members.now }
    {
        order.facts();
        InOrder {
            list: order.list(),
            members,
            reading,
            passed: 0,
            left: members.count(),
        }
    }
}

// Returns the node at `place`, counted in the direction of `reading`.
fn node_at(list: &[usize], reading: Reading, place: usize) -> usize
    requires { place < length list.now }
    ensures { result ≡ slice_index (as_read reading list.now) place }
{
    match reading {
        Reading::Forward => list[place],
        Reading::Backward => list[list.len() - 1 - place],
    }
}

// Returns the place of the first member from place `from` on, counted in the direction of `reading`.
fn next_place(list: &[usize], members: &IxBitSet, reading: Reading, from: usize) -> Option<usize>
    requires from { from ≤ length list.now }
    requires nodes { (i : ℕ) → i < length list.now → slice_index list.now i < length members.now }
    ensures { MatchOption result (members_left reading list.now members.now from ≡ [])
        (λ place. (place < length list.now) × (members_left reading list.now members.now from
        ≡ slice_index (as_read reading list.now) place ∷ members_left reading list.now members.now (place + 1))) }
{
    for place in from..list.len() {
        if members.contains(node_at(list, reading, place)) {
            return Some(place);
        }
    }
    None
}

impl<'a> Iterator for InOrder<'a> {
    type Item = usize;

    ghost next_gives = { YieldsFirst (λ rest. rest) };

    ghost remaining = { item_count (λ rest. rest) };

    fn next(&mut self) -> Option<usize> {
        let Some(place) = next_place(self.list, self.members, self.reading, self.passed) else {
            self.passed = self.list.len();
            return None;
        };
        self.passed = place + 1;
        self.left -= 1;
        Some(node_at(self.list, self.reading, place))
    }

    fn size_hint(&self) -> (usize, Option<usize>)
        ensures exact { result ≡ (length self.now, Some (length self.now)) }
        ensures lower { IsWithinCount result.0 (item_count (λ rest. rest) self.now) }
        ensures upper { IfSome result.1 (UpTo (item_count (λ rest. rest) self.now)) }
    {
        (self.left, Some(self.left))
    }
}

impl<'a> ExactSizeIterator for InOrder<'a> {
    fn len(&self) -> usize {
        self.left
    }
}

impl<'a> FusedIterator for InOrder<'a> {}
