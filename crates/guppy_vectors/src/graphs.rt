//! Calls on built feature graphs, and walks over them.
ghost use Rattle.feature_core.specs.Built.{IsBuilt};

mod checks;
mod edge;
mod edges;
mod listed;
mod rules;
mod steps;
mod walks;
mod watched;

use crate::graphs::checks::{check, tell_why};
use crate::graphs::edges::{built_from, edges, figures, nodes};
use crate::graphs::walks::{reach, walk_from};
use crate::shared::{Failure, Out, cut};
use feature_core::FeatureGraphData;
use guppy_packages::PackageGraph;

/// Makes the call of `line` on `built`, the feature graph of `graph`. `other` is the path of the row file for `built-from`.
/// `Words` if no call has this name, or the failure of the call.
pub fn make_call(
    rt: &HostRuntime,
    out: &Out,
    graph: &PackageGraph,
    built: &FeatureGraphData,
    other: &str,
    line: &str,
) -> Result<(), Failure>
    requires { IsBuilt graph.now built.now }
{
    let alloc = rt.alloc();
    let (name, words) = cut(line);
    match name {
        "figures" => figures(out, built),
        "built-from" => built_from(rt, out, built, other),
        "edges" => edges(out, alloc, graph, built, false),
        "copies" => edges(out, alloc, graph, built, true),
        "nodes" => nodes(out, alloc, graph, built, words),
        "walk" => walk_from(out, alloc, built, words),
        "reach" => reach(out, alloc, built, words),
        "check" | "check-exact" | "check-walk" => check(out, alloc, built, name, words),
        "why" => tell_why(out, alloc, built, words),
        _ => Err(Failure::Words),
    }
}
