//! The features that a feature turns on, and those that turn it on.
ghost use Rattle.std.specs.Prelude.{◌≡◌, ◌↔◌, ℕ, IsTrue, IfOk};
ghost use Rattle.guppy_features.specs.digraphs.Bits.{has};
ghost use Rattle.guppy_features.specs.feature_labels.Names.{id_of};
ghost use Rattle.guppy_features.specs.feature_graph.Views.{graph_of, tables_of_graph};
ghost use Rattle.uses.specs.Answers.{IsLedTo};

use crate::failure::Failure;
use crate::out::Out;
use guppy_features::{DependencyDirection, Error, FeatureGraph, FeatureId, FeatureSet, PackageId};
use std::alloc::Global;

/// Returns the features to which `id` leads over all edges, for every platform, with `id` itself.
pub fn brings_in<'g, 'a>(
    alloc: Global,
    graph: FeatureGraph<'g>,
    id: FeatureId<'a>,
) -> Result<FeatureSet<'g>, Error<'a>>
    ensures graph { IfOk result (λ set. set.graph ≡ graph_of graph.entry) }
    ensures exact { IfOk result (λ set. (n : ℕ) → IsTrue (has set.members n) ↔ IsLedTo (tables_of_graph graph.entry) DependencyDirection.Forward (id_of id.entry) n) }
{
    let query = graph.query_forward(alloc, &[id])?;
    query.resolve(alloc)
}

/// Returns the features that lead to `id` over all edges, with `id` itself.
pub fn brought_in_by<'g, 'a>(
    alloc: Global,
    graph: FeatureGraph<'g>,
    id: FeatureId<'a>,
) -> Result<FeatureSet<'g>, Error<'a>>
    ensures graph { IfOk result (λ set. set.graph ≡ graph_of graph.entry) }
    ensures exact { IfOk result (λ set. (n : ℕ) → IsTrue (has set.members n) ↔ IsLedTo (tables_of_graph graph.entry) DependencyDirection.Reverse (id_of id.entry) n) }
{
    let query = graph.query_reverse(alloc, &[id])?;
    query.resolve(alloc)
}

/// Prints the features that an item turns on.
fn show_forward(out: &Out, alloc: Global, graph: FeatureGraph<'_>) -> Result<(), Failure> {
    let main = PackageId::new(alloc, "main")?;
    let union = FeatureId::named(&main, "smallvec-union");
    let set = brings_in(alloc, graph, union);
    out.set("main/smallvec-union brings in", set)
}

/// Prints the features that lead to the base of a dependency.
fn show_reverse(out: &Out, alloc: Global, graph: FeatureGraph<'_>) -> Result<(), Failure> {
    let sv = PackageId::new(alloc, "sv")?;
    let set = brought_in_by(alloc, graph, FeatureId::base(&sv));
    out.set("sv/[base] is brought in by", set)
}

/// Prints both sets, for two features.
pub fn show(out: &Out, alloc: Global, graph: FeatureGraph<'_>) -> Result<(), Failure> {
    show_forward(out, alloc, graph)?;
    show_reverse(out, alloc, graph)
}
