//! What is on for a target: its facts are read from a cfg text, and decide which platform specs hold.
use crate::failure::Failure;
use crate::out::Out;
use crate::workspace::selected;
use byte_devices::{FromReader, read_all};
use guppy_features::graph_platforms::{PlatformFault, held_specs, resolve_for};
use guppy_features::{
    DependencyKind, Explained, FeatureGraph, FeatureGraphData, FeatureGraphExt, PackageGraph,
};
use platform_specs::TargetCfg;
use row_files::graph_of;
use std::alloc::Global;
use std::fs::File;

/// The files of the example, and the triple of the target.
#[derive(Drop)]
pub struct Given {
    /// The path of a row file.
    pub rows: String,
    pub triple: String,
    /// The path of a cfg text: the output of `rustc --print cfg --target TRIPLE --crate-type proc-macro` without the line `proc_macro`.
    pub cfg: String,
}

/// Prints the specs of the graph that hold for `target`.
fn show_held(
    out: &Out,
    alloc: Global,
    graph: FeatureGraph<'_>,
    target: &TargetCfg,
) -> Result<(), Failure> {
    let held = held_specs(alloc, graph.package_graph(), target)?;
    for spec in &held {
        out.part("holds: ");
        out.line(*spec);
    }
    Ok(())
}

/// Prints how many of the `all` features are on for `target`, or returns the fault.
fn show_count(
    out: &Out,
    all: usize,
    target: &TargetCfg,
    explained: Result<Explained<'_>, PlatformFault<'_>>,
) -> Result<(), Failure> {
    match explained {
        Ok(explained) => {
            out.part("on for ");
            out.part(target.triple());
            out.part(": ");
            out.part(explained.set().len());
            out.part(" of ");
            out.part(all);
            out.line(" features");
            drop(explained);
            Ok(())
        }
        Err(fault) => Err(Failure::from(fault)),
    }
}

/// Prints the specs of the graph that hold for `target`, and how many features of the workspace's default build are on.
fn show_on(
    out: &Out,
    alloc: Global,
    graph: FeatureGraph<'_>,
    target: &TargetCfg,
) -> Result<(), Failure> {
    show_held(out, alloc, graph, target)?;
    let query = selected(alloc, graph, &[])?;
    let kinds = [DependencyKind::Normal, DependencyKind::Build];
    let explained = resolve_for(alloc, query, &kinds, target);
    show_count(out, graph.feature_count(), target, explained)
}

/// Prints the features that are on for `target` over `packages`.
fn show_over(
    out: &Out,
    alloc: Global,
    packages: &PackageGraph,
    target: &TargetCfg,
) -> Result<(), Failure> {
    let built = FeatureGraphData::build(alloc, packages, 1)?;
    let shown = show_on(out, alloc, packages.feature_graph(&built), target);
    drop(built);
    shown
}

/// Returns the bytes of the file of this path.
fn bytes_of(rt: &HostRuntime, path: &str) -> Result<Vec<u8>, Failure> {
    match File::open(rt, path) {
        Ok(file) => Ok(read_all(rt.alloc(), &mut FromReader::new(file))?),
        Err(_) => Err(Failure::Unread),
    }
}

/// Returns the target of `triple` and the bytes of a cfg text.
fn target_of(alloc: Global, triple: &str, bytes: &[u8]) -> Result<TargetCfg, Failure> {
    match str::from_utf8(bytes) {
        Ok(text) => Ok(TargetCfg::parse(alloc, triple, text)?),
        Err(_) => Err(Failure::Cfg),
    }
}

/// Returns the target of `given`.
fn target(rt: &HostRuntime, given: &Given) -> Result<TargetCfg, Failure> {
    let bytes = bytes_of(rt, given.cfg.as_str())?;
    target_of(rt.alloc(), given.triple.as_str(), &bytes)
}

/// Returns the package graph of `given`.
fn packages(rt: &HostRuntime, given: &Given) -> Result<PackageGraph, Failure> {
    let bytes = bytes_of(rt, given.rows.as_str())?;
    Ok(graph_of(rt.alloc(), &bytes)?)
}

/// Prints the features that are on for `target` over the rows of `given`.
fn show_for(out: &Out, rt: &HostRuntime, given: &Given, target: &TargetCfg) -> Result<(), Failure> {
    let packages = packages(rt, given)?;
    let shown = show_over(out, rt.alloc(), &packages, target);
    drop(packages);
    shown
}

/// Prints the features that are on for a target over the files of `given`.
pub fn show(out: &Out, rt: &HostRuntime, given: &Given) -> Result<(), Failure> {
    let target = target(rt, given)?;
    let shown = show_for(out, rt, given, &target);
    drop(target);
    shown
}
