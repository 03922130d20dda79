//! The links between features, and their cycles.
use crate::failure::Failure;
use crate::out::Out;
use guppy_features::{DependencyDirection, Error, FeatureGraph, FeatureId, FeatureSet};
use std::alloc::Global;

/// Prints the features of a cycle on a line, or returns the error.
fn show_cycle(out: &Out, cycle: Result<Vec<FeatureId<'_>>, Error<'_>>) -> Result<(), Failure> {
    let ids = cycle?;
    out.part("cycle:");
    for id in &ids {
        out.id(*id);
    }
    out.line("");
    Ok(())
}

/// Prints each conditional link of `set` with its ends, and whether it is only for development. An edge within a package, as
/// from a feature to its base, is no conditional link.
fn show_links(out: &Out, set: &FeatureSet<'_>) {
    for link in set.conditional_links(DependencyDirection::Forward) {
        let (from, to) = link.endpoints();
        out.part("link:");
        out.id(from.feature_id());
        out.id(to.feature_id());
        out.line(if link.dev_only() {
            " for development"
        } else {
            ""
        });
    }
}

/// Prints the cycles of the graph.
fn show_cycles(out: &Out, alloc: Global, graph: FeatureGraph<'_>) -> Result<(), Failure> {
    for cycle in graph.cycles().all_cycles(alloc) {
        show_cycle(out, cycle)?;
    }
    Ok(())
}

/// Prints the links of the graph, and then its cycles.
pub fn show(out: &Out, alloc: Global, graph: FeatureGraph<'_>) -> Result<(), Failure> {
    let all = graph.resolve_all(alloc)?;
    show_links(out, &all);
    drop(all);
    show_cycles(out, alloc, graph)
}
