//! Calls that drop an iterator over a set after its first item, or read it past its end.
use crate::shared::Out;
use crate::surface::items::{tell_end, tell_ends, tell_first, tell_first_of};
use crate::surface::links::{tell_edge, tell_link, tell_package_link};
use crate::surface::told::{tell_error, tell_members};
use guppy_features::{ConditionalLink, DependencyDirection, Error, FeatureList, FeatureSet};
use std::alloc::Global;

/// Writes the package of `list` and its features, or the error.
fn tell_of_package(out: &Out, list: Result<FeatureList<'_>, Error<'_>>) {
    match list {
        Ok(list) => {
            out.text(list.package().id().repr(), ": ");
            out.shown(list.display_features());
            out.line("");
            drop(list);
        }
        Err(error) => tell_error(out, error),
    }
}

/// Writes the features of `set`, one line for each package, and then whether the iterator returns `None` again after its end.
pub fn by_package(out: &Out, alloc: Global, set: &FeatureSet<'_>, direction: DependencyDirection) {
    let mut lists = set.packages_with_features(alloc, direction);
    while let Some(list) = lists.next() {
        tell_of_package(out, list);
    }
    out.answer_line("ended ", lists.next().is_none());
    drop(lists);
}

/// Writes the first package link of `link`. Then writes whether a new iterator over them returns `None` again after its end.
fn tell_package_links(out: &Out, link: ConditionalLink<'_>) {
    if let Some(first) = link.package_links().next() {
        out.part("first");
        tell_package_link(out, first);
        out.line("");
    }
    let mut links = link.package_links();
    while let Some(_link) = links.next() {}
    out.answer_line("package links ", links.next().is_none());
}

/// Writes the first edge, the first conditional link with its package links, and the first list of `set`.
fn first_links(out: &Out, alloc: Global, set: &FeatureSet<'_>, direction: DependencyDirection) {
    if let Some((from, to, edge)) = set.links(direction).next() {
        tell_edge(out, from, to, edge);
    }
    if let Some(link) = set.conditional_links(direction).next() {
        tell_link(out, link);
        tell_package_links(out, link);
    }
    if let Some(list) = set.packages_with_features(alloc, direction).next() {
        tell_of_package(out, list);
    }
}

/// Writes the first item of each iterator over the features or roots of `set`.
fn first_features(out: &Out, alloc: Global, set: &FeatureSet<'_>, direction: DependencyDirection) {
    tell_first(out, set.feature_ids(direction));
    tell_first(out, set.features(direction));
    tell_first_of(out, set.root_ids(alloc, direction));
    tell_first_of(out, set.root_features(alloc, direction));
}

/// Writes the first item of each iterator over `set`, and drops the iterator. Then writes the members of `set`.
pub fn firsts(out: &Out, alloc: Global, set: &FeatureSet<'_>, direction: DependencyDirection) {
    first_features(out, alloc, set, direction);
    first_links(out, alloc, set, direction);
    tell_members(out, set);
}

/// Writes whether the iterator over edges returns `None` again after its end.
fn edge_ends(out: &Out, set: &FeatureSet<'_>, direction: DependencyDirection) {
    let mut links = set.links(direction);
    while let Some(_link) = links.next() {}
    out.answer_line("links ", links.next().is_none());
    drop(links);
}

/// Writes whether the iterator over conditional links returns `None` again after its end.
fn link_ends(out: &Out, set: &FeatureSet<'_>, direction: DependencyDirection) {
    let mut links = set.conditional_links(direction);
    while let Some(_link) = links.next() {}
    out.answer_line("conditional links ", links.next().is_none());
    drop(links);
}

/// Writes whether the iterators over features return `None` after their end.
fn feature_ends(out: &Out, set: &FeatureSet<'_>, direction: DependencyDirection) {
    tell_end(out, "ids ", ", left ", " ", set.feature_ids(direction));
    tell_end(out, "features ", ", left ", " ", set.features(direction));
}

/// Writes whether the iterators over roots return `None` after their end.
fn root_ends(out: &Out, alloc: Global, set: &FeatureSet<'_>, direction: DependencyDirection) {
    tell_ends(out, "root ids ", set.root_ids(alloc, direction));
    tell_ends(out, "roots ", set.root_features(alloc, direction));
}

/// Writes whether each iterator over `set` returns `None` after its end, and then the members of `set`.
pub fn ends(out: &Out, alloc: Global, set: &FeatureSet<'_>, direction: DependencyDirection) {
    feature_ends(out, set, direction);
    edge_ends(out, set, direction);
    link_ends(out, set, direction);
    root_ends(out, alloc, set, direction);
    tell_members(out, set);
}
