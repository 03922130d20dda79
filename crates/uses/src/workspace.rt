//! The features that `cargo build` selects in the workspace, without and with `--features`, and those that they turn on.
ghost use Rattle.std.specs.Prelude.{◌≡◌, ◌↔◌, ℕ, IsTrue, IfOk, map};
ghost use Rattle.guppy_features.specs.digraphs.Bits.{has};
ghost use Rattle.guppy_features.specs.feature_graph.Views.{graph_of, tables_of_graph};
ghost use Rattle.uses.specs.Answers.{IsSelected, IsSelectedOrNeeded};

use crate::failure::Failure;
use crate::out::Out;
use guppy_features::{
    DependencyDirection, Error, FeatureGraph, FeatureQuery, FeatureSet, StandardFeatures,
    named_feature_filter,
};
use std::alloc::Global;

/// Returns the query that starts from the features of the workspace's packages that are on by default, and from their
/// named features in `names`.
pub fn selected<'g>(
    alloc: Global,
    graph: FeatureGraph<'g>,
    names: &[&'g str],
) -> Result<FeatureQuery<'g>, Error<'g>>
    ensures graph { IfOk result (λ query. query.graph ≡ graph_of graph.entry) }
    ensures direction { IfOk result (λ query. query.direction ≡ DependencyDirection.Forward) }
    ensures initials { IfOk result (λ query. (n : ℕ) → IsTrue (has query.initials n) ↔ IsSelected (tables_of_graph graph.entry) (map (λ name. name.now) names.now) n) }
{
    let mut filter = named_feature_filter(alloc, StandardFeatures::Default, names)?;
    graph.query_workspace(alloc, &mut filter)
}

/// Returns the features of that query and those that they turn on.
pub fn build<'g>(
    alloc: Global,
    graph: FeatureGraph<'g>,
    names: &[&'g str],
) -> Result<FeatureSet<'g>, Error<'g>>
    ensures { IfOk result (λ set. (n : ℕ) → IsTrue (has set.members n) ↔ IsSelectedOrNeeded (tables_of_graph graph.entry) (map (λ name. name.now) names.now) n) }
{
    let query = selected(alloc, graph, names)?;
    query.resolve(alloc)
}

/// Prints the selected features and those that they turn on, by default and with a name.
pub fn show(out: &Out, alloc: Global, graph: FeatureGraph<'_>) -> Result<(), Failure> {
    out.set("default build", build(alloc, graph, &[]))?;
    out.initials("selected with color", selected(alloc, graph, &["color"]))?;
    out.set("build with color", build(alloc, graph, &["color"]))
}
