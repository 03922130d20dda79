//! Sections on the feature graph of a row file.
ghost use Rattle.feature_core.specs.Built.{IsBuilt};

use crate::shared::{Failure, Out, package_graph, word_at};
use crate::{graphs, platforms, surface};
use guppy_features::{FeatureGraphData, FeatureGraphExt};
use guppy_packages::PackageGraph;

/// The stamp under which the feature graph is built.
const STAMP: u64 = 7;

/// Makes the call of `line` on `built`, the feature graph of `graph`. `other` is the path of the part's second file. `Words` if no
/// call has this name, or the failure of the call.
fn make_call(
    rt: &HostRuntime,
    out: &Out,
    is_surface: bool,
    other: &str,
    graph: &PackageGraph,
    built: &FeatureGraphData,
    line: &str,
) -> Result<(), Failure>
    requires { IsBuilt graph.now built.now }
{
    if is_surface {
        surface::make_call(out, rt.alloc(), graph.feature_graph(built), line)
    } else {
        graphs::make_call(rt, out, graph, built, other, line)
    }
}

/// Makes the calls of `script`, one for each line, in order. Writes each line after `< `, then the output of its call.
fn make_calls(
    rt: &HostRuntime,
    out: &Out,
    is_surface: bool,
    other: &str,
    graph: &PackageGraph,
    built: &FeatureGraphData,
    script: &str,
)
    requires { IsBuilt graph.now built.now }
{
    for line in script.lines() {
        out.text("< ", line);
        out.line("");
        if let Err(failure) = make_call(rt, out, is_surface, other, graph, built, line) {
            out.failure(failure);
        }
    }
}

/// Makes the calls of `script` in the part `part` on `built`. `Words` if there is no such part, or the failure to read a file.
fn answer_on(
    rt: &HostRuntime,
    out: &Out,
    part: &str,
    files: &str,
    graph: &PackageGraph,
    built: &FeatureGraphData,
    script: &str,
) -> Result<(), Failure>
    requires { IsBuilt graph.now built.now }
{
    match part {
        "surface" => make_calls(rt, out, true, "", graph, built, script),
        "graphs" => make_calls(rt, out, false, word_at(files, 1), graph, built, script),
        "platforms" => {
            return platforms::answer(rt, out, files, graph.feature_graph(built), script);
        }
        _ => return Err(Failure::Words),
    }
    Ok(())
}

/// Builds the feature graph of `graph` and makes the calls of `script` on it, or returns the failure of a step.
fn answer_over(
    rt: &HostRuntime,
    out: &Out,
    part: &str,
    files: &str,
    graph: &PackageGraph,
    script: &str,
) -> Result<(), Failure> {
    match FeatureGraphData::build(rt.alloc(), graph, STAMP) {
        Ok(built) => {
            let answered = answer_on(rt, out, part, files, graph, &built, script);
            drop(built);
            answered
        }
        Err(_) => Err(Failure::Memory),
    }
}

/// Makes the calls of `script` in the part `part` with `files`, or returns the failure of a step.
pub fn answer(
    rt: &HostRuntime,
    out: &Out,
    part: &str,
    files: &str,
    script: &str,
) -> Result<(), Failure> {
    let rows = word_at(files, if part == "platforms" { 2 } else { 0 });
    match package_graph(rt, rows) {
        Ok(graph) => {
            let answered = answer_over(rt, out, part, files, &graph, script);
            drop(graph);
            answered
        }
        Err(failure) => Err(failure),
    }
}
