//! From the bytes of a row file to the output of a command.
ghost use Rattle.feature_core.specs.Built.{IsBuilt};
ghost use Rattle.guppy_tool.specs.Faults.{Gives};
ghost use Rattle.guppy_tool.specs.RowFileRefusals.{tables_in};
ghost use Rattle.guppy_tool.specs.Words.{command_text};
ghost use Rattle.guppy_tool.specs.Answers.{IsOutput};
ghost use Rattle.guppy_tool.specs.Run.{GivesAnswer, IsAnswer};

use crate::building::explained;
use crate::fault::Fault;
use crate::ordering::{cycled, ordered};
use crate::package::{listed, warned};
use crate::resolving::{resolved, visited};
use crate::words::Command;
use guppy_features::FeatureGraphData;
use guppy_packages::{PackageGraph, PackageTables};
use row_files::tables_of;
use std::alloc::Global;
use std::mem::forget;

/// Returns the output of `command` over the feature graph `built` of `graph`, or the first refusal.
fn answer_built(
    alloc: Global,
    command: &Command,
    graph: &PackageGraph,
    built: &FeatureGraphData,
) -> Result<Vec<u8>, Fault>
    requires { IsBuilt graph.now built.now }
    ensures { GivesAnswer (λ text. text.items) result (IsOutput (command_text command.now) graph.now) }
{
    match command {
        Command::Resolve { direction, ids } => resolved(alloc, graph, built, *direction, ids),
        Command::Visit { direction, ids } => visited(alloc, graph, built, *direction, ids),
        Command::Order { direction } => ordered(alloc, graph, built, *direction),
        Command::Cycles => cycled(alloc, graph, built),
        Command::List { package_id } => listed(alloc, graph, built, package_id),
        Command::Warnings => warned(alloc, graph, built),
        Command::Build { kinds, ids, specs } => explained(alloc, graph, built, kinds, ids, specs),
    }
}

/// Builds the feature graph of `graph`, and returns the output of `command` over it or the first refusal. The built
/// data is not freed: the process frees all its memory at once when it ends.
fn answer_graph(alloc: Global, command: &Command, graph: &PackageGraph) -> Result<Vec<u8>, Fault>
    ensures { GivesAnswer (λ text. text.items) result (IsOutput (command_text command.now) graph.now) }
{
    match FeatureGraphData::build(alloc, graph, 0) {
        Ok(built) => {
            let text = answer_built(alloc, command, graph, &built);
            forget(built);
            text
        }
        Err(_) => Err(Fault::Memory),
    }
}

/// Returns the tables of a row file's bytes, or the first fault.
fn tables_of_bytes(alloc: Global, bytes: &[u8]) -> Result<PackageTables, Fault>
    ensures { Gives (λ tables. tables) result (tables_in bytes.now) }
{
    match tables_of(alloc, bytes) {
        Ok(tables) => Ok(tables),
        Err(error) => Err(Fault::from(error)),
    }
}

/// Returns the output of `command` over the row file `bytes`, or the first refusal. The package graph is not freed
/// before the process ends.
pub fn answer(alloc: Global, command: &Command, bytes: Vec<u8>) -> Result<Vec<u8>, Fault>
    ensures { GivesAnswer (λ text. text.items) result (IsAnswer (command_text command.now) bytes.items) }
{
    let tables = tables_of_bytes(alloc, &bytes)?;
    drop(bytes);
    let graph = PackageGraph::from_tables(alloc, tables)?;
    let text = answer_graph(alloc, command, &graph);
    forget(graph);
    text
}
