//! Examples of the library, one file each, over small texts of rows. The program runs them all and prints their results.
//! `uses ROWS TRIPLE CFG` also runs the last one, over a row file and the cfg text of a target.
//!
//! - `brings_in`: from rows to a graph; the features that a feature turns on, and those that turn it on.
//! - `workspace`: the features that the workspace selects by default and by names, and those that they turn on.
//! - `one_platform`: a visitor that follows the links of one platform.
//! - `one_test`: a visitor that counts, in each form of a visitor.
//! - `links_and_cycles`: the links between features, and their cycles.
//! - `difference`: the features that default features add, package by package.
//! - `counted`: a filter that counts its questions, below the filters over lists.
//! - `explained`: why features are on, and checks of a right and a wrong explanation.
//! - `linter`: which forbidden features a build for a platform turns on, and why.
//! - `for_target`: what is on for a target, by its cfg text.
#![tactic(auto)]

mod brings_in;
mod counted;
mod difference;
mod explained;
mod failure;
mod for_target;
mod links_and_cycles;
mod linter;
mod one_platform;
mod one_test;
mod out;
mod rows;
mod workspace;

use crate::failure::Failure;
use crate::for_target::Given;
use crate::out::Out;
use guppy_features::{FeatureGraph, FeatureGraphData, FeatureGraphExt, PackageGraph};
use row_files::graph_of;
use std::alloc::Global;
use std::env;
use std::process::ExitCode;

/// The name of an example.
#[derive(Clone, Copy)]
enum Example {
    BringsIn,
    Workspace,
    OnePlatform,
    OneTest,
    LinksAndCycles,
    Difference,
    Counted,
    Explained,
    Linter,
}

/// The examples, each with a text of rows.
const EXAMPLES: &[(Example, &str); 10] = &[
    (Example::BringsIn, rows::WEAK_ITEM),
    (Example::Workspace, rows::DEFAULTS),
    (Example::OnePlatform, rows::TWO_PLATFORMS),
    (Example::OneTest, rows::CYCLE_BY_TESTS),
    (Example::LinksAndCycles, rows::CYCLE_BY_TESTS),
    (Example::LinksAndCycles, rows::TWO_CYCLES),
    (Example::Difference, rows::DEFAULTS),
    (Example::Counted, rows::WEAK_ITEM),
    (Example::Explained, rows::WEAK_ITEM),
    (Example::Linter, rows::DEFAULTS),
];

/// Runs an example over a graph.
fn show_over(
    out: &Out,
    alloc: Global,
    example: Example,
    graph: FeatureGraph<'_>,
) -> Result<(), Failure> {
    match example {
        Example::BringsIn => brings_in::show(out, alloc, graph),
        Example::Workspace => workspace::show(out, alloc, graph),
        Example::OnePlatform => one_platform::show(out, alloc, graph),
        Example::OneTest => one_test::show(out, alloc, graph),
        Example::LinksAndCycles => links_and_cycles::show(out, alloc, graph),
        Example::Difference => difference::show(out, alloc, graph),
        Example::Counted => counted::show(out, alloc, graph),
        Example::Explained => explained::show(out, alloc, graph),
        Example::Linter => linter::show(out, alloc, graph),
    }
}

/// Builds the feature graph of `packages`, and runs an example over it.
fn show_built(
    out: &Out,
    alloc: Global,
    example: Example,
    packages: &PackageGraph,
) -> Result<(), Failure> {
    let built = FeatureGraphData::build(alloc, packages, 1)?;
    let shown = show_over(out, alloc, example, packages.feature_graph(&built));
    drop(built);
    shown
}

/// Makes the package graph of a text of rows, and runs an example over it. The bytes of a row file are read in the same way.
/// For rows of your own call `PackageGraph::from_rows` in place of `graph_of`.
fn show(out: &Out, alloc: Global, example: Example, text: &str) -> Result<(), Failure> {
    let packages = graph_of(alloc, text.as_bytes())?;
    let shown = show_built(out, alloc, example, &packages);
    drop(packages);
    shown
}

/// Runs all examples, in order.
fn show_all(out: &Out, alloc: Global) -> Result<(), Failure> {
    for (example, text) in EXAMPLES {
        show(out, alloc, *example, text)?;
    }
    Ok(())
}

/// Returns the files that the program's words name, if it has three words.
fn given(rt: &HostRuntime) -> Result<Option<Given>, Failure> {
    let Ok(mut words) = env::args(rt) else {
        return Err(Failure::Memory);
    };
    match (words.nth(1), words.next(), words.next()) {
        (Some(rows), Some(triple), Some(cfg)) => Ok(Some(Given { rows, triple, cfg })),
        _ => Ok(None),
    }
}

/// Runs all examples, and the one over files if there are any.
fn show_each(out: &Out, rt: &HostRuntime) -> Result<(), Failure> {
    show_all(out, rt.alloc())?;
    if let Some(given) = given(rt)? {
        for_target::show(out, rt, &given)?;
    }
    Ok(())
}

fn main(rt: HostRuntime) -> ExitCode {
    let out = Out::new(rt.stdout());
    let shown = show_each(&out, &rt);
    if shown.is_err() || out.has_failed() {
        ExitCode::FAILURE
    } else {
        ExitCode::SUCCESS
    }
}
