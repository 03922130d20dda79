//! The numbers of steps and offers that are named by ids.
ghost use Rattle.std.specs.Prelude.{◌≡◌, ◌↔◌, ℕ, List, Some, IsTrue, IfOk, MatchOption, map};
ghost use Rattle.std.specs.Option.{option_map};
ghost use Rattle.walk_engine.specs.Walks.{has_half};
ghost use Rattle.walk_engine.specs.declared.walks.Ask.TheVariants as ask;
ghost use Rattle.walk_engine.specs.declared.walks.Half.{Half};
ghost use Rattle.walk_engine.specs.declared.walks.Step.{Step};
ghost use Rattle.walk_engine.specs.declared.walks.StepReason.{StepReason};
ghost use Rattle.guppy_packages.specs.declared.direction.DependencyDirection.{DependencyDirection};
ghost use Rattle.guppy_packages.specs.declared.direction.DependencyDirection.TheVariants.{Forward};
ghost use Rattle.feature_links.specs.Values.{edge_facts};
ghost use Rattle.feature_core.specs.Ways.{asked};
ghost use Rattle.feature_labels.specs.Names.{id_of};
ghost use Rattle.feature_graph.specs.Explained.{AreRefused};
ghost use Rattle.feature_graph.specs.Told.{ends_told, offer_name, reason_name, step_name};
ghost use Rattle.feature_graph.specs.Views.{graph_of};
ghost use Rattle.feature_graph.specs.inner.Numbered.{AreNumbered, IsNumberedOffer, IsNumberedReason, IsNumberedStep, IsOver};

use crate::explain::reason::Reason;
use crate::graph::FeatureGraph;
use feature_core::FeatureEdge;
use feature_core::graph_laws::{edges_say, link_names_offer};
use feature_labels::{FeatureId, LinkDeclarations};
use std::alloc::{AllocError, Global};
use walk_engine::{Half, Step, StepReason};

/// Returns the number of the edge from `from` to `to`, if any.
fn edge_number(graph: FeatureGraph<'_>, from: FeatureId<'_>, to: FeatureId<'_>) -> Option<usize>
    ensures { (e : ℕ) → (result ≡ Some e) ↔ (ends_told (graph_of graph.entry) e ≡ Some (id_of from.entry, id_of to.entry)) }
{
    edges_say(graph.graph);
    link_names_offer(graph.graph);
    let first = graph.node(from)?;
    let second = graph.node(to)?;
    graph.built.digraph().edge_between(first, second)
}

/// Returns true if the graph offers this half of the edge.
fn is_offered(edge: &FeatureEdge, half: Half) -> bool
    ensures { result ≡ has_half (asked Forward (edge_facts edge.now)) half }
{
    match edge {
        FeatureEdge::FeatureToBase | FeatureEdge::NamedFeature => false,
        FeatureEdge::DependenciesSection(_)
        | FeatureEdge::NamedFeatureDepColon(_)
        | FeatureEdge::NamedFeatureWithSlash(_) => is_full(half),
        FeatureEdge::NamedFeatureWithWeakSlash(weak) => match half {
            Half::Full => false,
            Half::Required => weak.required().get().is_some(),
            Half::Optional => true,
        },
    }
}

/// Returns true if `half` is the full link.
fn is_full(half: Half) -> bool
    ensures { result ≡ has_half ask.Full half }
{
    match half {
        Half::Full => true,
        Half::Required | Half::Optional => false,
    }
}

/// Returns true if the graph offers this half of the edge and it covers these declarations.
fn is_over(edge: &FeatureEdge, half: Half, declarations: LinkDeclarations) -> bool
    ensures { IsTrue result ↔ IsOver (edge_facts edge.now) declarations half }
{
    match edge.link(half) {
        Some(link) => is_offered(edge, half) && link.declarations() == declarations,
        None => false,
    }
}

/// Returns the half of the edge that is offered and covers these declarations, if any.
fn half_over(edge: &FeatureEdge, declarations: LinkDeclarations) -> Option<Half>
    ensures { MatchOption result ((h : Half) → ¬ IsOver (edge_facts edge.now) declarations h) (λ h. IsOver (edge_facts edge.now) declarations h) }
{
    if is_over(edge, Half::Full, declarations) {
        Some(Half::Full)
    } else if is_over(edge, Half::Required, declarations) {
        Some(Half::Required)
    } else if is_over(edge, Half::Optional, declarations) {
        Some(Half::Optional)
    } else {
        None
    }
}

/// Returns the offer from `from` to `to` that covers these declarations, if any.
fn offer_number(
    graph: FeatureGraph<'_>,
    from: FeatureId<'_>,
    to: FeatureId<'_>,
    declarations: LinkDeclarations,
) -> Option<(usize, Half)>
    ensures { (e : ℕ) (h : Half) → (result ≡ Some (e, h)) ↔ IsNumberedOffer (graph_of graph.entry) (id_of from.entry, id_of to.entry, declarations) e h }
{
    link_names_offer(graph.graph);
    let edge = edge_number(graph, from, to)?;
    let (_, _, said) = graph.built.edge(edge);
    let half = half_over(said, declarations)?;
    Some((edge, half))
}

/// Returns the numbered form of `reason`; `None` if the graph lacks its edge or offer.
fn reason_number(graph: FeatureGraph<'_>, reason: Reason<'_>) -> Option<StepReason>
    ensures { (r : StepReason) → (result ≡ Some r) ↔ IsNumberedReason (graph_of graph.entry) (reason_name reason.entry) r }
{
    match reason {
        Reason::Initial => Some(StepReason::Initial),
        Reason::Edge { from, to } => {
            let edge = edge_number(graph, from, to)?;
            Some(StepReason::Edge(edge))
        }
        Reason::Link {
            from,
            to,
            declarations,
        } => {
            let (edge, half) = offer_number(graph, from, to, declarations)?;
            Some(StepReason::Offer(edge, half))
        }
    }
}

/// Returns the numbered form of a step; `None` if the graph lacks its feature, edge or offer.
fn step_number(graph: FeatureGraph<'_>, id: FeatureId<'_>, reason: Reason<'_>) -> Option<Step>
    ensures { (step : Step) → (result ≡ Some step) ↔ IsNumberedStep (graph_of graph.entry) (id_of id.entry, reason_name reason.entry) step }
{
    link_names_offer(graph.graph);
    let node = graph.node(id)?;
    let reason = reason_number(graph, reason)?;
    Some(Step { node, reason })
}

/// Returns the numbered forms of the steps in `told`; `None` if the graph lacks a feature, edge or offer of one.
pub(crate) fn numbered_steps(
    alloc: Global,
    graph: FeatureGraph<'_>,
    told: &[(FeatureId<'_>, Reason<'_>)],
) -> Result<Option<Vec<Step>>, AllocError>
    ensures { IfOk result (λ found. (steps : List Step) → (option_map (λ v. v.items) found ≡ Some steps) ↔ AreNumbered (graph_of graph.entry) (map step_name told.now) steps) }
{
    let mut steps = Vec::with_capacity(alloc, told.len())?;
    for (id, reason) in told {
        match step_number(graph, *id, *reason) {
            Some(step) => steps.push(step)?,
            None => return Ok(None),
        }
    }
    Ok(Some(steps))
}

/// Returns the numbers of the offers in `told`; entries that the graph doesn't offer are skipped.
pub(crate) fn numbered_offers(
    alloc: Global,
    graph: FeatureGraph<'_>,
    told: &[(FeatureId<'_>, FeatureId<'_>, LinkDeclarations)],
) -> Result<Vec<(usize, Half)>, AllocError>
    ensures { IfOk result (λ offers. (direction : DependencyDirection) → AreRefused (graph_of graph.entry) direction (map offer_name told.now) offers.items) }
{
    let mut offers = Vec::with_capacity(alloc, told.len())?;
    for (from, to, declarations) in told {
        if let Some(offer) = offer_number(graph, *from, *to, *declarations) {
            offers.push(offer)?;
        }
    }
    Ok(offers)
}
