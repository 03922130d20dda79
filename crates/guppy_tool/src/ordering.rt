//! The output of `order` and `cycles`: all features in the graph's order, and the components that have a cycle.
ghost use Rattle.std.specs.Prelude.{◌≡◌, ◌++◌, IfOk, OnOk, map, replicate, length, true};
ghost use Rattle.std.specs.String.{string_bytes};
ghost use Rattle.feature_core.specs.Built.{Built, IsBuilt, digraph_of};
ghost use Rattle.feature_labels.specs.Names.{id_of};
ghost use Rattle.feature_graph.specs.Ordered.{AtOrder, ordered_names};
ghost use Rattle.feature_graph.specs.Tied.{cycle_names};
ghost use Rattle.feature_graph.specs.Views.{graph_of};
ghost use Rattle.guppy_tool.specs.Answers.{IsOutput, before_group, groups, listing};
ghost use Rattle.guppy_tool.specs.Run.{GivesAnswer};
ghost use Rattle.guppy_tool.specs.Words.CommandText.{all_cycles, ordered as ordered_command};

use crate::fault::Fault;
use crate::listing::push_line;
use digraph_orders::laws::order_lists_each;
use feature_core::graph_laws::{content_of_graph, edges_say, one_content};
use guppy_features::{FeatureGraph, FeatureGraphData, FeatureGraphExt, FeatureId, FeatureSet};
use guppy_packages::{DependencyDirection, PackageGraph};
use std::alloc::{AllocError, Global};

// Ghost code: two builds of one package graph have one digraph.
fn one_digraph(graph: &PackageGraph)
    ensures { (a b : Built) → IsBuilt graph.now a → IsBuilt graph.now b → digraph_of a ≡ digraph_of b }
{
    edges_say(graph);
    one_content(graph);
}

/// Returns a line for each feature of `set`, in the order of its graph; reversed if `direction` is `Reverse`.
fn lines_in_order(
    alloc: Global,
    set: &FeatureSet,
    direction: DependencyDirection,
) -> Result<Vec<u8>, AllocError>
    ensures { IfOk result (λ text. AtOrder set.now.graph (λ o. text.items ≡ listing (ordered_names direction set.now o))) }
{
    let mut text = String::new(alloc);
    for id in set.feature_ids(direction) {
        push_line(&mut text, id)?;
    }
    Ok(text.into_bytes())
}

/// Returns a line for each feature of the graph, in the graph's order; reversed if `direction` is `Reverse`.
pub fn ordered(
    alloc: Global,
    graph: &PackageGraph,
    built: &FeatureGraphData,
    direction: DependencyDirection,
) -> Result<Vec<u8>, Fault>
    requires { IsBuilt graph.now built.now }
    ensures { GivesAnswer (λ text. text.items) result (IsOutput (ordered_command direction) graph.now) }
{
    one_digraph(graph);
    content_of_graph(graph);
    order_lists_each();
    let Ok(set) = graph.feature_graph(built).resolve_all(alloc) else {
        return Err(Fault::Memory);
    };
    Ok(lines_in_order(alloc, &set, direction)?)
}

/// Appends a line for each id.
fn push_lines(text: &mut String, ids: &[FeatureId<'_>]) -> Result<(), AllocError>
    ensures { OnOk result (string_bytes text.new ≡ string_bytes text.old ++ listing (map id_of ids.now)) }
{
    for id in ids {
        push_line(text, *id)?;
    }
    Ok(())
}

/// Appends a line for each feature of a cycle, after an empty line unless `is_first` is true.
fn push_cycle(text: &mut String, is_first: bool, ids: &[FeatureId<'_>]) -> Result<(), AllocError>
    ensures { OnOk result (string_bytes text.new ≡ string_bytes text.old ++ (before_group is_first ++ listing (map id_of ids.now))) }
{
    if !is_first {
        text.push('\n')?;
    }
    push_lines(text, ids)
}

/// Returns the lines of the graph's cycles, with an empty line between two cycles.
fn lines_of_cycles(alloc: Global, graph: FeatureGraph<'_>) -> Result<Vec<u8>, AllocError>
    ensures { IfOk result (λ text. AtOrder (graph_of graph.entry) (λ o. text.items ≡ groups (cycle_names (graph_of graph.entry) o))) }
{
    let mut text = String::new(alloc);
    let mut is_first = true;
    for cycle in graph.cycles().all_cycles(alloc) {
        let Ok(ids) = cycle else {
            return Err(AllocError);
        };
        push_cycle(&mut text, is_first, &ids)?;
        is_first = false;
    }
    Ok(text.into_bytes())
}

/// Returns the lines of the components that have a cycle. The last component in the graph's order is first.
pub fn cycled(
    alloc: Global,
    graph: &PackageGraph,
    built: &FeatureGraphData,
) -> Result<Vec<u8>, Fault>
    requires { IsBuilt graph.now built.now }
    ensures { GivesAnswer (λ text. text.items) result (IsOutput all_cycles graph.now) }
{
    one_digraph(graph);
    Ok(lines_of_cycles(alloc, graph.feature_graph(built))?)
}
