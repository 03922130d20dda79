//! Calls that write a built feature graph.
ghost use Rattle.std.specs.Prelude.{◌<◌, length};
ghost use Rattle.feature_core.specs.Built.{IsBuilt};

use crate::graphs::edge::{copied, tell_edge};
use crate::shared::{Failure, Out, label_of, package_graph_by_lines, parts, tell_warning};
use feature_core::laws::warning_equality;
use feature_core::{FeatureGraphData, FeatureGraphWarning};
use feature_labels::FeatureId;
use guppy_packages::{PackageGraph, PackageId};
use std::alloc::{AllocError, Global};

/// Writes the stamp, the counts of nodes and edges, and the first edge whose link is present for no kind. Returns no error.
pub fn figures(out: &Out, built: &FeatureGraphData) -> Result<(), Failure> {
    out.part("stamp ");
    out.shown(built.stamp());
    out.number(", nodes ", built.node_count());
    out.number(", edges ", built.edge_count());
    out.place(", absent ", built.first_absent_link());
    out.line("");
    Ok(())
}

/// Writes whether `built` is a build of `other`; `Memory` is the only error.
fn tell_built(
    out: &Out,
    alloc: Global,
    built: &FeatureGraphData,
    other: &PackageGraph,
) -> Result<(), Failure> {
    match built.is_built_from(alloc, other) {
        Ok(answer) => out.answer_line("", answer),
        Err(_) => return Err(Failure::Memory),
    }
    Ok(())
}

/// Writes whether `built` is a build of the graph of the row file at `path`, or returns the failure to read it.
pub fn built_from(
    rt: &HostRuntime,
    out: &Out,
    built: &FeatureGraphData,
    path: &str,
) -> Result<(), Failure> {
    let other = package_graph_by_lines(rt, path)?;
    let told = tell_built(out, rt.alloc(), built, &other);
    drop(other);
    told
}

/// Writes the node of the feature that `word` names, or `none`; `Memory` is the only error.
fn tell_node(
    out: &Out,
    alloc: Global,
    graph: &PackageGraph,
    built: &FeatureGraphData,
    word: &str,
) -> Result<(), Failure>
    requires { IsBuilt graph.now built.now }
{
    let (package, label) = parts(word);
    let package = PackageId::new(alloc, package)?;
    let id = FeatureId::new(&package, label_of(label));
    out.place("", built.node(graph, id));
    out.line("");
    Ok(())
}

/// Writes the node of each feature that `words` name, one a line; `Memory` is the only error.
pub fn nodes(
    out: &Out,
    alloc: Global,
    graph: &PackageGraph,
    built: &FeatureGraphData,
    words: &str,
) -> Result<(), Failure>
    requires { IsBuilt graph.now built.now }
{
    for word in words.split_whitespace() {
        tell_node(out, alloc, graph, built, word)?;
    }
    Ok(())
}

/// Writes the ids of the nodes on one line; if `defaults`, only of those on by default. Marks an id with `?` if looking it up
/// doesn't return its node.
fn tell_nodes(out: &Out, graph: &PackageGraph, built: &FeatureGraphData, defaults: bool)
    requires { IsBuilt graph.now built.now }
{
    out.part(if defaults { "defaults" } else { "nodes" });
    for ix in 0..built.node_count() {
        if !defaults || built.is_default(ix) {
            let id = built.id(graph, ix);
            out.id(id);
            out.part_if(built.node(graph, id) != Some(ix), "?");
        }
    }
    out.line("");
}

/// Writes the ends of edge `number`, with `?` if the digraph has other ends.
fn tell_ends(out: &Out, built: &FeatureGraphData, number: usize)
    requires { number < length built.now.edges }
{
    let (from, to, _) = built.edge(number);
    let ends = built.digraph().edge(number);
    out.number("", from);
    out.number("-", to);
    out.part_if(ends.from != from || ends.to != to, " ?");
    out.part(" ");
}

/// Writes edge `number` on a line, or its copy if `copies`, with `dev-only` if the digraph marks it so. `AllocError` if an
/// allocation fails for the copy.
fn tell_line(
    out: &Out,
    alloc: Global,
    built: &FeatureGraphData,
    number: usize,
    copies: bool,
) -> Result<(), AllocError>
    requires { number < length built.now.edges }
{
    let (_, _, edge) = built.edge(number);
    if copies {
        let edge = copied(alloc, edge)?;
        tell_ends(out, built, number);
        tell_edge(out, &edge);
    } else {
        tell_ends(out, built, number);
        tell_edge(out, edge);
    }
    out.part_if(!built.digraph().edge(number).non_dev, " dev-only");
    out.line("");
    Ok(())
}

/// Writes each weak link on a line: its index, its link and its gate.
fn tell_weak_links(out: &Out, built: &FeatureGraphData) {
    for (number, (link, gate)) in built.weak_links().iter().enumerate() {
        out.number("weak(", number);
        out.number(") link=", *link);
        out.number(" gate=", *gate);
        out.line("");
    }
}

/// Writes each warning on a line, with `again` if an earlier one is equal.
fn tell_warnings(out: &Out, warnings: &[FeatureGraphWarning]) {
    for (place, warning) in warnings.iter().enumerate() {
        tell_warning(out, warning);
        let mut is_again = false;
        for other in warnings.iter().take(place) {
            is_again = is_again || warning_equality(warning, other);
        }
        out.line(if is_again { " again" } else { "" });
    }
}

/// Writes the nodes, edges, weak links, warnings and defaults of `built`; if `copies`, copies of the edges. `Memory` is the
/// only error.
pub fn edges(
    out: &Out,
    alloc: Global,
    graph: &PackageGraph,
    built: &FeatureGraphData,
    copies: bool,
) -> Result<(), Failure>
    requires { IsBuilt graph.now built.now }
{
    tell_nodes(out, graph, built, false);
    for number in 0..built.edge_count() {
        tell_line(out, alloc, built, number, copies)?;
    }
    tell_weak_links(out, built);
    tell_warnings(out, built.warnings());
    tell_nodes(out, graph, built, true);
    Ok(())
}
