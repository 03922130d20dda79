//! Calls on feature lists.
ghost use Rattle.std.specs.Iterator.{IsFinite};

use crate::shared::{Failure, Out, all_of, cut, halves, label_of};
use feature_labels::{FeatureLabel, FeatureList};
use guppy_packages::{PackageGraph, PackageMetadata, Row};
use std::alloc::Global;

/// Returns the package with the id `id`, or `Words` if `graph` has none.
fn package_of<'g>(graph: &'g PackageGraph, id: &str) -> Result<PackageMetadata<'g>, Failure> {
    for ix in 0..graph.package_count() {
        let package = graph.package(ix);
        if package.id().repr() == id {
            return Ok(package);
        }
    }
    Err(Failure::Words)
}

/// Returns the list of `words`: a package id and labels. `Words` if `graph` lacks the package, or `Memory`.
fn list_of<'g>(
    alloc: Global,
    graph: &'g PackageGraph,
    words: &'g str,
) -> Result<FeatureList<'g>, Failure> {
    let (id, labels) = cut(words);
    let package = package_of(graph, id)?;
    let labels = all_of::<FeatureLabel<'g>>(alloc, labels)?;
    Ok(FeatureList::new(alloc, package, &labels)?)
}

/// Writes the package of `list`, its `Display` and `Debug` texts, its names by kind, and its ids.
fn tell_list(out: &Out, list: &FeatureList<'_>) {
    let package = list.package();
    out.number("package ", package.package_ix());
    out.text(" ", package.id().repr());
    out.line("");
    out.shown(list.display_features());
    out.line("");
    out.debug_line(list.display_features());
    out.debug_line(list);
    tell_names(out, "named ", list.named_features());
    tell_names(out, "optional ", list.optional_deps());
    out.number("ids ", list.iter().len());
    for id in list {
        out.id(id);
    }
    out.line("");
}

/// Writes `before`, the size hint of `names`, and the names.
fn tell_names<'a, I: Iterator<Item = &'a str>>(out: &Out, before: &str, names: I)
    requires can { I.can_next names }
    requires ends { IsFinite (I.remaining names) }
{
    out.part(before);
    out.debug(names.size_hint());
    for name in names {
        out.text(" ", name);
    }
    out.line("");
}

/// Writes whether a copy of `list` is equal to it, and the copy's count of labels; `Memory` is the only error.
fn tell_copy(out: &Out, alloc: Global, list: &FeatureList<'_>) -> Result<(), Failure> {
    let copy = list.try_clone(alloc)?;
    out.answer("copy ", copy == *list);
    out.number(", labels ", copy.into_labels().len());
    out.line("");
    Ok(())
}

/// Consumes `list` and writes each id, with the size hint after it.
fn tell_rest(out: &Out, list: FeatureList<'_>) {
    let mut ids = list.into_iter();
    out.number("left ", ids.len());
    out.part(" ");
    out.debug(ids.size_hint());
    while let Some(id) = ids.next() {
        out.id(id);
        out.part(" ");
        out.debug(ids.size_hint());
    }
    out.line("");
}

/// Writes all facts about the list of `words`. `Words` if `graph` lacks the package, or `Memory`.
pub fn list(out: &Out, alloc: Global, graph: &PackageGraph, words: &str) -> Result<(), Failure> {
    let list = list_of(alloc, graph, words)?;
    tell_list(out, &list);
    tell_copy(out, alloc, &list)?;
    tell_rest(out, list);
    Ok(())
}

/// Writes the first item of each iterator over `list` and over a copy of it, and drops the iterator. `Memory` is the only error.
fn tell_firsts(out: &Out, alloc: Global, list: &FeatureList<'_>) -> Result<(), Failure> {
    let copy = list.try_clone(alloc)?;
    out.part("first");
    if let Some(id) = list.iter().next() {
        out.id(id);
    }
    if let Some(id) = copy.into_iter().next() {
        out.id(id);
    }
    if let Some(name) = list.named_features().next() {
        out.text(" ", name);
    }
    if let Some(name) = list.optional_deps().next() {
        out.text(" ", name);
    }
    out.line("");
    Ok(())
}

/// Writes whether each iterator over `list` returns `None` again after its end.
fn tell_ends(out: &Out, list: &FeatureList<'_>) {
    let mut ids = list.iter();
    while let Some(_id) = ids.next() {}
    out.answer("ids ", ids.next().is_none());
    let mut names = list.named_features();
    while let Some(_name) = names.next() {}
    out.answer(", named ", names.next().is_none());
    let mut names = list.optional_deps();
    while let Some(_name) = names.next() {}
    out.answer(", optional ", names.next().is_none());
}

/// Consumes `list` and writes whether the iterator returns `None` again after its end.
fn tell_own_end(out: &Out, list: FeatureList<'_>) {
    let mut ids = list.into_iter();
    while let Some(_id) = ids.next() {}
    out.answer_line(", own ids ", ids.next().is_none());
}

/// Writes the first items and the ends of the iterators over the list of `words`. `Words` if `graph` lacks the package, or
/// `Memory`.
pub fn ends(out: &Out, alloc: Global, graph: &PackageGraph, words: &str) -> Result<(), Failure> {
    let list = list_of(alloc, graph, words)?;
    tell_firsts(out, alloc, &list)?;
    tell_ends(out, &list);
    tell_own_end(out, list);
    Ok(())
}

/// Returns whether `list` has `label`, by the method for its kind.
fn has(list: &FeatureList<'_>, label: FeatureLabel<'_>) -> bool {
    match label {
        FeatureLabel::Base => list.has_base(),
        FeatureLabel::Named(name) => list.has_named_feature(name),
        FeatureLabel::OptionalDependency(name) => list.has_optional_dependency(name),
    }
}

/// Writes whether `list` has each label of `asked`, by `contains` and by the method for its kind.
fn tell_held(out: &Out, list: &FeatureList<'_>, asked: &str) {
    for word in asked.split_whitespace() {
        let label = label_of(word);
        out.shown(label);
        out.answer(" ", list.contains(label));
        out.answer_line(" ", has(list, label));
    }
}

/// Writes whether a list has each label after `: `. `Words` without a `: ` or if `graph` lacks the package, or `Memory`.
pub fn held(out: &Out, alloc: Global, graph: &PackageGraph, words: &str) -> Result<(), Failure> {
    let (words, asked) = halves(words, ": ")?;
    let list = list_of(alloc, graph, words)?;
    tell_held(out, &list, asked);
    Ok(())
}

/// Returns a package row for each package of `graph`, from the last to the first; `Memory` is the only error.
fn turned_rows(alloc: Global, graph: &PackageGraph) -> Result<Vec<Row<'_>>, Failure> {
    let mut rows = Vec::new(alloc);
    for ix in (0..graph.package_count()).rev() {
        rows.push(Row::Package {
            id: graph.package(ix).id().repr(),
            in_workspace: true,
        })?;
    }
    Ok(rows)
}

/// Writes whether `list` is equal to the list of `words` over `graph`. `Words` if `graph` lacks the package, or `Memory`.
fn tell_equal(
    out: &Out,
    alloc: Global,
    list: &FeatureList<'_>,
    graph: &PackageGraph,
    words: &str,
) -> Result<(), Failure> {
    let other = list_of(alloc, graph, words)?;
    out.answer_line("", *list == other);
    Ok(())
}

/// Returns a graph with the packages of `graph` in reverse order. A fault of the rows, or `Memory`.
fn turned_graph(alloc: Global, graph: &PackageGraph) -> Result<PackageGraph, Failure> {
    let rows = turned_rows(alloc, graph)?;
    Ok(PackageGraph::from_rows(alloc, &rows)?)
}

/// Writes whether `list` is equal to the list of `words` over a graph with the packages of `graph` in reverse order. `Words`
/// if the package is missing, a fault of the rows, or `Memory`.
fn tell_turned(
    out: &Out,
    alloc: Global,
    list: &FeatureList<'_>,
    graph: &PackageGraph,
    words: &str,
) -> Result<(), Failure> {
    let turned = turned_graph(alloc, graph)?;
    let told = tell_equal(out, alloc, list, &turned, words);
    drop(turned);
    told
}

/// Writes whether two lists are equal, first over one graph, then with the second over the packages in reverse order. `Words`
/// without a `: ` or if `graph` lacks a package, or `Memory`.
pub fn equal(out: &Out, alloc: Global, graph: &PackageGraph, words: &str) -> Result<(), Failure> {
    let (words, other) = halves(words, ": ")?;
    let list = list_of(alloc, graph, words)?;
    tell_equal(out, alloc, &list, graph, other)?;
    tell_turned(out, alloc, &list, graph, other)
}
