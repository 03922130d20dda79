//! The links of each package under each name.
ghost use Rattle.std.specs.Prelude.{◌≡◌, IfOk};
ghost use Rattle.feature_links.specs.NamedLinks.{AreNamedLinks, numbers_under};

use crate::link_groups::{LinkGroups, all_links, links_with_name, sort_part};
use guppy_packages::PackageGraph;
use std::alloc::{AllocError, Global};

/// Returns the links of `graph`, grouped by the package that they leave and by name. `AllocError` is the only error.
pub fn named_links(alloc: Global, graph: &PackageGraph) -> Result<LinkGroups<'_>, AllocError>
    ensures { IfOk result (λ groups. AreNamedLinks graph.now groups) }
{
    let mut links = all_links(alloc, graph)?;
    for ix in 0..graph.package_count() {
        let range = graph.package(ix).direct_links();
        sort_part(alloc, graph, links.as_mut_slice(), range)?;
    }
    Ok(LinkGroups { graph, links })
}

/// Returns the numbers of the links that leave package `from` under `name`, ascending.
pub fn numbers_of<'a>(groups: &'a LinkGroups<'_>, from: usize, name: &str) -> &'a [usize]
    ensures { result.now ≡ numbers_under groups.now from name.now }
{
    let graph = groups.graph;
    graph.facts();
    if from >= graph.package_count() {
        return &[];
    }
    let range = graph.package(from).direct_links();
    links_with_name(graph, &groups.links[range.start..range.end], name)
}
