//! Calls on the layers below feature graphs.
mod digraph_calls;
mod ids;
mod lists;
mod long_list;
mod names;
mod package_sets;
mod packages;
mod rows;
mod sets;

use crate::shared::{Failure, Out, bytes_of, cut};
use guppy_packages::PackageGraph;
use row_files::{LineRows, Lines};
use std::alloc::Global;

/// Returns the package graph of `lines`. The first fault of the rows, or `Memory`.
fn graph_of_lines(alloc: Global, lines: &Lines<'_>) -> Result<PackageGraph, Failure> {
    let rows = LineRows::of(lines)?;
    Ok(PackageGraph::from_source(alloc, &rows)?)
}

/// Returns the package graph of a row file's bytes. `Words` if they aren't UTF-8, the first fault of the rows, or `Memory`.
fn graph_of(alloc: Global, bytes: &[u8]) -> Result<PackageGraph, Failure> {
    let Ok(text) = str::from_utf8(bytes) else {
        return Err(Failure::Words);
    };
    let lines = Lines::of(alloc, text)?;
    graph_of_lines(alloc, &lines)
}

/// Makes the call of `line`, a name and its words. `Words` if no call has this name, or the failure of the call.
fn make_call(out: &Out, alloc: Global, graph: &PackageGraph, line: &str) -> Result<(), Failure> {
    let (name, words) = cut(line);
    match name {
        "graph" => packages::graph(out, graph),
        "place" => packages::place(out, alloc, graph, words),
        "from-rows" => rows::from_rows(out, alloc),
        "package-set" => package_sets::package_set(out, alloc, graph, words),
        "list" => lists::list(out, alloc, graph, words),
        "list-ends" => lists::ends(out, alloc, graph, words),
        "held" => lists::held(out, alloc, graph, words),
        "equal-lists" => lists::equal(out, alloc, graph, words),
        "long-list" => long_list::long_list(out, alloc, graph, words),
        "item" => names::item(out, words),
        "package-ids" => names::package_ids(out, alloc, words),
        "always" => packages::always(out, alloc),
        "specs" => packages::specs(out, alloc, words),
        "covered" => ids::covered(out),
        "id" => ids::id(out, alloc, words),
        "compare" => ids::compare(out, alloc, words),
        "digraph" | "nodes" | "pairs" => digraph_calls::given(out, alloc, name, words),
        "large" => digraph_calls::large(out, alloc, words),
        "sets" => sets::sets(out, alloc, words),
        "equal-sets" => sets::equal(out, alloc, words),
        "full-set" => sets::full(out, alloc, words),
        "set-ends" => sets::ends(out, alloc, words),
        _ => Err(Failure::Words),
    }
}

/// Makes the calls of `script` on `graph`, one for each line, in order, or returns the failure of `graph`. Writes each line after
/// `< `, then the output of its call.
fn make_calls(out: &Out, alloc: Global, graph: &PackageGraph, script: &str) {
    for line in script.lines() {
        out.text("< ", line);
        out.line("");
        if let Err(failure) = make_call(out, alloc, graph, line) {
            out.failure(failure);
        }
    }
}

/// Makes the calls of `script` on the package graph of the row file at `path`, or returns the failure to read it.
pub fn answer(rt: &HostRuntime, out: &Out, path: &str, script: &str) -> Result<(), Failure> {
    let bytes = bytes_of(rt, path)?;
    let graph = graph_of(rt.alloc(), &bytes);
    drop(bytes);
    let graph = graph?;
    make_calls(out, rt.alloc(), &graph, script);
    drop(graph);
    Ok(())
}
