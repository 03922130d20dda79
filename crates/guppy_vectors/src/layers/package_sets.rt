//! Calls on package sets.
use crate::shared::{Failure, Out, all_of, cut, direction_of, halves, insert};
use guppy_packages::{DependencyDirection, PackageGraph, PackageId, PackageSet};
use guppy_support::IxBitSet;
use std::alloc::Global;

/// Returns the set of the packages of `graph` whose numbers are in `words`. `Words` if a word is no number of a package, or
/// `Memory`.
fn set_of<'g>(
    alloc: Global,
    graph: &'g PackageGraph,
    words: &str,
) -> Result<PackageSet<'g>, Failure> {
    let mut members = IxBitSet::empty(alloc, graph.package_count())?;
    insert(&mut members, words)?;
    if members.size() != graph.package_count() {
        return Err(Failure::Words);
    }
    Ok(PackageSet::new(graph, members))
}

/// Writes the count of packages in `set` and whether it is empty. Then writes its first package, and drops the iterator. Then
/// writes all packages, and whether a new iterator returns `None` again after its end.
fn tell_packages(out: &Out, set: &PackageSet<'_>, direction: DependencyDirection) {
    out.number("", set.len());
    out.answer(" packages, empty ", set.is_empty());
    if let Some(first) = set.packages(direction).next() {
        out.text(", first ", first.id().repr());
    }
    out.part(":");
    let mut packages = set.packages(direction);
    while let Some(package) = packages.next() {
        out.text(" ", package.id().repr());
    }
    out.answer_line(", ended ", packages.next().is_none());
}

/// Writes `id` and whether `set` contains it, or the error.
fn tell_contains(out: &Out, set: &PackageSet<'_>, id: &PackageId) {
    out.text(id.repr(), " ");
    match set.contains(id) {
        Ok(answer) => out.answer_line("", answer),
        Err(error) => out.debug_line(error),
    }
}

/// Writes the packages of `set` in `direction`, and whether it contains each of `ids`.
fn tell_set(out: &Out, set: &PackageSet<'_>, direction: DependencyDirection, ids: &[PackageId]) {
    tell_packages(out, set, direction);
    for id in ids {
        tell_contains(out, set, id);
    }
}

/// Writes the packages of a set in a direction, and whether it contains each of some ids. `words` are the direction, the
/// numbers of the packages, and the ids after `: `. `Words` if these can't be read, or `Memory`.
pub fn package_set(
    out: &Out,
    alloc: Global,
    graph: &PackageGraph,
    words: &str,
) -> Result<(), Failure> {
    let (words, ids) = halves(words, ": ")?;
    let (direction, numbers) = cut(words);
    let ids = all_of::<PackageId>(alloc, ids)?;
    let set = set_of(alloc, graph, numbers)?;
    tell_set(out, &set, direction_of(direction), &ids);
    drop(set);
    Ok(())
}
