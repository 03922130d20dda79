//! The ids of numbered steps and offers.
ghost use Rattle.std.specs.Prelude.{◌≡◌, Some, IsTrue, IfOk, All, map};
ghost use Rattle.std.specs.Option.{is_some};
ghost use Rattle.feature_labels.specs.Names.{id_of};
ghost use Rattle.feature_graph.specs.Explained.{AreTold, OffersAreTold};
ghost use Rattle.feature_graph.specs.Told.{ends_told, offer_name, offer_told, reason_name, reason_told, step_name, step_told};
ghost use Rattle.feature_graph.specs.Views.{graph_of};
ghost use Rattle.feature_graph.specs.inner.Listings.{AreOffered};

use crate::explain::reason::Reason;
use crate::graph::FeatureGraph;
use crate::link::ConditionalLink;
use feature_core::graph_laws::content_of_graph;
use feature_labels::{FeatureId, LinkDeclarations};
use std::alloc::{AllocError, Global};
use walk_engine::{Half, Step, StepReason};

/// Returns the features of an edge.
fn told_ends<'g>(graph: FeatureGraph<'g>, edge: usize) -> (FeatureId<'g>, FeatureId<'g>)
    requires { IsTrue (is_some (ends_told (graph_of graph) edge)) }
    ensures { ends_told (graph_of graph.entry) edge ≡ Some (id_of result.0, id_of result.1) }
{
    content_of_graph(graph.graph);
    let (from, to, _) = graph.built.edge(edge);
    (graph.id(from), graph.id(to))
}

/// Returns the features of an offer's edge, and the declarations that its link covers.
fn told_offer<'g>(
    graph: FeatureGraph<'g>,
    edge: usize,
    half: Half,
) -> (FeatureId<'g>, FeatureId<'g>, LinkDeclarations)
    requires { IsTrue (is_some (offer_told (graph_of graph) (edge, half))) }
    ensures { offer_told (graph_of graph.entry) (edge, half) ≡ Some (offer_name result) }
{
    let (from, to) = told_ends(graph, edge);
    let link = ConditionalLink::new(graph, edge, half);
    (from, to, link.declarations())
}

/// Returns a reason with ids in place of numbers.
fn told_reason<'g>(graph: FeatureGraph<'g>, reason: StepReason) -> Reason<'g>
    requires { IsTrue (is_some (reason_told (graph_of graph) reason)) }
    ensures { reason_told (graph_of graph.entry) reason ≡ Some (reason_name result) }
{
    match reason {
        StepReason::Initial => Reason::Initial,
        StepReason::Edge(edge) => {
            let (from, to) = told_ends(graph, edge);
            Reason::Edge { from, to }
        }
        StepReason::Offer(edge, half) => {
            let (from, to, declarations) = told_offer(graph, edge, half);
            Reason::Link {
                from,
                to,
                declarations,
            }
        }
    }
}

/// Returns a step with ids in place of numbers.
fn told_step<'g>(graph: FeatureGraph<'g>, step: Step) -> (FeatureId<'g>, Reason<'g>)
    requires { IsTrue (is_some (step_told (graph_of graph) step)) }
    ensures { step_told (graph_of graph.entry) step ≡ Some (step_name result) }
{
    (graph.id(step.node), told_reason(graph, step.reason))
}

/// Returns `steps` with ids in place of numbers.
pub(crate) fn told_steps<'g>(
    alloc: Global,
    graph: FeatureGraph<'g>,
    steps: &[Step],
) -> Result<Vec<(FeatureId<'g>, Reason<'g>)>, AllocError>
    requires { All (λ step. IsTrue (is_some (step_told (graph_of graph) step))) steps.now }
    ensures { IfOk result (λ told. AreTold (graph_of graph.entry) steps.now (map step_name told.items)) }
{
    let mut told = Vec::with_capacity(alloc, steps.len())?;
    for step in steps {
        told.push(told_step(graph, *step))?;
    }
    Ok(told)
}

/// Returns `offers` with ids in place of numbers.
pub(crate) fn told_offers<'g>(
    alloc: Global,
    graph: FeatureGraph<'g>,
    offers: &[(usize, Half)],
) -> Result<Vec<(FeatureId<'g>, FeatureId<'g>, LinkDeclarations)>, AllocError>
    requires { AreOffered (graph_of graph) offers.now }
    ensures { IfOk result (λ told. OffersAreTold (graph_of graph.entry) offers.now (map offer_name told.items)) }
{
    let mut told = Vec::with_capacity(alloc, offers.len())?;
    for (edge, half) in offers {
        told.push(told_offer(graph, *edge, *half))?;
    }
    Ok(told)
}
