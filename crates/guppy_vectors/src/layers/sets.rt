//! Calls on bit sets.
use crate::shared::{Failure, Out, cut, halves, insert, number};
use guppy_support::IxBitSet;
use std::alloc::{AllocError, Global};

/// Returns the set of `words`: its bound, and its members. `Words` if one is no number or a member isn't below the bound, or
/// `Memory`.
fn set_of(alloc: Global, words: &str) -> Result<IxBitSet, Failure> {
    let (size, numbers) = cut(words);
    let mut set = IxBitSet::empty(alloc, number(size)?)?;
    insert(&mut set, numbers)?;
    Ok(set)
}

/// Writes `name`, the count of members by `count` and by `ones`, the bound, and the members.
fn tell(out: &Out, name: &str, set: &IxBitSet) {
    out.part(name);
    out.number(": ", set.count());
    out.number(", ", set.ones().len());
    out.number(" of ", set.size());
    out.part(":");
    for number in set.ones() {
        out.number(" ", number);
    }
    out.line("");
}

/// Writes `name` and `set`, or that an allocation failed.
fn tell_made(out: &Out, name: &str, set: Result<IxBitSet, AllocError>) {
    match set {
        Ok(set) => tell(out, name, &set),
        Err(_) => out.failure(Failure::Memory),
    }
}

/// Writes the results of the four set operations on `low` and `high` if their bounds are equal.
fn tell_operations(out: &Out, alloc: Global, low: &IxBitSet, high: &IxBitSet) {
    if low.size() == high.size() {
        tell_made(out, "union", low.union(alloc, high));
        tell_made(out, "intersection", low.intersection(alloc, high));
        tell_made(out, "difference", low.difference(alloc, high));
        let one = low.symmetric_difference(alloc, high);
        tell_made(out, "symmetric difference", one);
    }
}

/// Writes the results of the set operations on two sets, and then both sets. `Words` if `words` aren't two sets around `: `,
/// or `Memory`.
pub fn sets(out: &Out, alloc: Global, words: &str) -> Result<(), Failure> {
    let (low, high) = halves(words, ": ")?;
    let low = set_of(alloc, low)?;
    let high = set_of(alloc, high)?;
    tell_operations(out, alloc, &low, &high);
    tell(out, "one", &low);
    tell(out, "other", &high);
    Ok(())
}

/// Writes whether `one` and `other` are equal, unequal and identical.
fn tell_equal(out: &Out, one: &IxBitSet, other: &IxBitSet) {
    out.answer("equal ", one == other);
    out.answer(", unequal ", one != other);
    out.answer_line(", identical ", one.is_identical(other));
}

/// Compares two sets, and then a copy of the first with the first. `Words` if `words` aren't two sets around `: `, or
/// `Memory`.
pub fn equal(out: &Out, alloc: Global, words: &str) -> Result<(), Failure> {
    let (one, other) = halves(words, ": ")?;
    let one = set_of(alloc, one)?;
    tell_equal(out, &one, &set_of(alloc, other)?);
    tell_equal(out, &one.try_clone(alloc)?, &one);
    Ok(())
}

/// Writes the count of the full set with the bound `words`, and whether it contains the last number. `Words` if `words` is no
/// number, or `Memory`.
pub fn full(out: &Out, alloc: Global, words: &str) -> Result<(), Failure> {
    let size = number(words)?;
    let set = IxBitSet::full(alloc, size)?;
    out.number("", set.count());
    out.number(" of ", set.size());
    if size > 0 && size == set.size() {
        out.answer(", the last ", set.contains(size - 1));
    }
    out.line("");
    Ok(())
}

/// Writes the first member of `set`, and drops the iterator. Then writes whether a new one returns `None` again after its end.
fn tell_ends(out: &Out, set: &IxBitSet) {
    if let Some(first) = set.ones().next() {
        out.number("first ", first);
        out.part(", ");
    }
    let mut ones = set.ones();
    while let Some(_one) = ones.next() {}
    out.answer_line("ended ", ones.next().is_none());
}

/// Writes the first member and the end of a set. `Words` if `words` aren't a set, or `Memory`.
pub fn ends(out: &Out, alloc: Global, words: &str) -> Result<(), Failure> {
    tell_ends(out, &set_of(alloc, words)?);
    Ok(())
}
