//! The links of each package in the order of their names.
ghost use Rattle.std.specs.Prelude.{◌≡◌, ◌<◌, ◌≤◌, ℕ, filter, get_or, true, false, length, IfOk, OnOk};
ghost use Rattle.std.specs.Cmp.Lexicographic.{slice_cmp};
ghost use Rattle.std.specs.List.{range_with_len};
ghost use Rattle.std.specs.Ordering.{is_lt, nat_cmp};
ghost use Rattle.std.specs.Str.{bytes_eq};
ghost use Rattle.feature_links.specs.inner.LinkOrder.{AreByName, AreOrdered, IsPartSorted, link_name};

use guppy_packages::PackageGraph;
use std::alloc::{AllocError, Global};
use std::cmp::Ordering;
use std::ops::Range;

/// The numbers of the links of each package by name. At the places `direct_links()` of a package, `links` contains these links, by
/// name. Links of one name ascend.
#[derive(Drop)]
pub struct LinkGroups<'g> {
    pub(crate) graph: &'g PackageGraph,
    pub(crate) links: Vec<usize>,
    pub(crate) ghost by_name: { AreByName graph.now (length graph.now.packages) links.items },
}

/// Returns the name of link `ix`, or an empty name if there is no such link.
fn name_at(graph: &PackageGraph, ix: usize) -> &str
    ensures { result.now ≡ link_name graph.now ix }
{
    if ix < graph.link_count() {
        graph.link(ix).dep_name()
    } else {
        ""
    }
}

/// Returns the numbers of the links of `graph`, ascending.
pub(crate) fn all_links(alloc: Global, graph: &PackageGraph) -> Result<Vec<usize>, AllocError>
    ensures { IfOk result (λ links. links.items ≡ range_with_len 0 (length graph.now.links)) }
{
    let mut links = Vec::with_capacity(alloc, graph.link_count())?;
    for ix in 0..graph.link_count() {
        links.push(ix)?;
    }
    Ok(links)
}

/// Sorts the part `range` of `links` by name; links of one name keep their order.
pub(crate) fn sort_part(
    alloc: Global,
    graph: &PackageGraph,
    links: &mut [usize],
    range: Range<usize>,
) -> Result<(), AllocError>
    requires ascends { range.start ≤ range.end }
    requires within { range.end ≤ length links.old }
    ensures { OnOk result (IsPartSorted graph.now range.start range.end links.old links.new) }
{
    let (_, rest) = links.split_at_mut(range.start);
    let (part, _) = rest.split_at_mut(range.end - range.start);
    part.sort_by(
        alloc,
        |x: &usize, y: &usize| -> Ordering
            ensures { result ≡ slice_cmp nat_cmp (link_name graph.entry.now x.now) (link_name graph.entry.now y.now) }
        { name_at(graph, *x).cmp(name_at(graph, *y)) },
    )
}

/// Returns the first place from `start` on of a link with a name other than `name`, or the number of places.
fn end_place(graph: &PackageGraph, links: &[usize], start: usize, name: &str) -> usize
    requires { start ≤ length links.now }
    ensures from { start ≤ result }
    ensures within { result ≤ length links.now }
    ensures inside { (k : ℕ) (d : ℕ) → start ≤ k → k < result → bytes_eq name.now (link_name graph.now (get_or links.now k d)) ≡ true }
    ensures ended { (d : ℕ) → result < length links.now → bytes_eq name.now (link_name graph.now (get_or links.now result d)) ≡ false }
{
    for place in start..links.len() {
        if name != name_at(graph, links[place]) {
            return place;
        }
    }
    links.len()
}

/// Returns those of `links` that have the name `name`; the links are ordered by name.
pub(crate) fn links_with_name<'a>(
    graph: &PackageGraph,
    links: &'a [usize],
    name: &str,
) -> &'a [usize]
    requires { AreOrdered graph.now links.now }
    ensures { result.now ≡ filter (λ l. bytes_eq name.now (link_name graph.now l)) links.now }
{
    let first = links.partition_point(
        |link: &usize| -> bool
            ensures { result ≡ is_lt (slice_cmp nat_cmp (link_name graph.entry.now link.now) name.entry.now) }
        { name_at(graph, *link).cmp(name).is_lt() },
    );
    let end = end_place(graph, links, first, name);
    &links[first..end]
}
