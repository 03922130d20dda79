//! Why a node of step `on` is on.
ghost use Rattle.std.specs.Prelude.{◌≡◌, ℕ, IfOk, length, map, option_map};
ghost use Rattle.std.specs.List.{AllZip};
ghost use Rattle.guppy_packages.specs.declared.direction.DependencyDirection.TheVariants.{Forward};
ghost use Rattle.digraphs.specs.Bits.{has};
ghost use Rattle.feature_core.specs.Built.{IsBuilt};
ghost use Rattle.feature_core.specs.Nodes.{node_packages};
ghost use Rattle.feature_core.specs.Offers.{content_of};
ghost use Rattle.walk_engine.specs.Explanations.{IsExplanation, nodes_of};
ghost use Rattle.walk_engine.specs.Laws.{every};
ghost use Rattle.walk_engine.specs.Walks.{is_in};
ghost use Rattle.walk_checks.specs.Places.{ArePlaces};
ghost use Rattle.plan_whys.specs.NodeWhys as spec;
ghost use Rattle.plan_whys.specs.StepViews.{spot_text, why_text};
ghost use Rattle.plan_whys.specs.inner.Nodes.{IsLeast, NodeAnswers, SpotAnswers};

use crate::explanations::{explanation_from, kept_steps, places_of};
use crate::spots::steps_of;
use crate::steps::{Spot, WhyStep};
use cargo_plans::PackageVisit;
use digraphs::IxBitSet;
use feature_core::FeatureGraphData;
use feature_core::graph_laws::content_of_graph;
use std::alloc::{AllocError, Global};
use walk_checks::StepPlaces;
use walk_engine::Step;

/// Returns the node of `at`, or `None` if there is no such package, or it lacks the label.
pub(crate) fn node_of(on: &PackageVisit, at: Spot<'_>) -> Option<usize>
    ensures { result ≡ spec.node_of on.now (spot_text at.entry) }
{
    let count = on.package_count();
    if at.package >= count {
        return None;
    }
    on.visited()
        .node(at.side.base(count) + at.package, at.label)
}

/// Returns why `node` is reached, or `None` if it isn't. `steps` is the explanation of the visit, from `initials`, and `places`
/// are those of `steps`.
fn why_node<'p>(
    alloc: Global,
    on: &'p PackageVisit,
    built: &FeatureGraphData,
    initials: &IxBitSet,
    steps: &[Step],
    places: &StepPlaces,
    node: usize,
) -> Result<Option<Vec<WhyStep<'p>>>, AllocError>
    requires built { IsBuilt on.now.visit.tables built.now }
    requires size { length initials.now ≡ length (node_packages on.now.visit.tables) }
    requires explanation { IsExplanation (content_of Forward built.now) (has initials.now) every steps.now }
    requires listed { (n : ℕ) → has on.now.visit.members n ≡ is_in (nodes_of steps.now) n }
    requires places { ArePlaces (content_of Forward built.now).nodes steps.now places.now }
    ensures { IfOk result (λ found. NodeAnswers on.now (has initials.now) node (option_map (λ whys. map why_text whys.items) found)) }
{
    content_of_graph(on.visited().packages());
    match kept_steps(alloc, built, initials, steps, places, node)? {
        None => Ok(None),
        Some(kept) => {
            let whys = steps_of(alloc, on, built, &kept)?;
            Ok(Some(whys))
        }
    }
}

/// Returns why `node` is reached, or `None` if it isn't. The visit is the least that has `initials`.
pub(crate) fn why_from<'p>(
    alloc: Global,
    on: &'p PackageVisit,
    initials: &IxBitSet,
    node: usize,
) -> Result<Option<Vec<WhyStep<'p>>>, AllocError>
    requires size { length initials.now ≡ length (node_packages on.now.visit.tables) }
    requires least { IsLeast on.now (has initials.now) }
    ensures { IfOk result (λ found. NodeAnswers on.now (has initials.now) node (option_map (λ whys. map why_text whys.items) found)) }
{
    let built = on.visited().built();
    let steps = explanation_from(alloc, built, initials)?;
    let places = places_of(alloc, built, &steps)?;
    why_node(alloc, on, built, initials, &steps, &places, node)
}

/// Returns why `at` is reached, or `None` if it isn't. `steps` is the explanation of the visit, from `initials`, and `places`
/// are those of `steps`.
fn why_spot<'p>(
    alloc: Global,
    on: &'p PackageVisit,
    built: &FeatureGraphData,
    initials: &IxBitSet,
    steps: &[Step],
    places: &StepPlaces,
    at: Spot<'_>,
) -> Result<Option<Vec<WhyStep<'p>>>, AllocError>
    requires built { IsBuilt on.now.visit.tables built.now }
    requires size { length initials.now ≡ length (node_packages on.now.visit.tables) }
    requires explanation { IsExplanation (content_of Forward built.now) (has initials.now) every steps.now }
    requires listed { (n : ℕ) → has on.now.visit.members n ≡ is_in (nodes_of steps.now) n }
    requires places { ArePlaces (content_of Forward built.now).nodes steps.now places.now }
    ensures { IfOk result (SpotAnswers on.now (has initials.now) at.entry) }
{
    match node_of(on, at) {
        None => Ok(None),
        Some(node) => {
            let found = why_node(alloc, on, built, initials, steps, places, node)?;
            Ok(found)
        }
    }
}

/// Returns why each of `spots` is reached, or `None` for one that isn't. `steps` is the explanation of the visit, from `initials`, and `places`
/// are those of `steps`.
fn why_spots<'p>(
    alloc: Global,
    on: &'p PackageVisit,
    built: &FeatureGraphData,
    initials: &IxBitSet,
    steps: &[Step],
    places: &StepPlaces,
    spots: &[Spot<'_>],
) -> Result<Vec<Option<Vec<WhyStep<'p>>>>, AllocError>
    requires built { IsBuilt on.now.visit.tables built.now }
    requires size { length initials.now ≡ length (node_packages on.now.visit.tables) }
    requires explanation { IsExplanation (content_of Forward built.now) (has initials.now) every steps.now }
    requires listed { (n : ℕ) → has on.now.visit.members n ≡ is_in (nodes_of steps.now) n }
    requires places { ArePlaces (content_of Forward built.now).nodes steps.now places.now }
    ensures { IfOk result (λ founds. AllZip (SpotAnswers on.now (has initials.now)) spots.now founds.items) }
{
    let mut founds = Vec::with_capacity(alloc, spots.len())?;
    for at in spots {
        let found = why_spot(alloc, on, built, initials, steps, places, *at)?;
        founds.push(found)?;
    }
    Ok(founds)
}

/// Returns why each of `spots` is reached, or `None` for one that isn't. The visit is the least that has `initials`.
pub(crate) fn each_from<'p>(
    alloc: Global,
    on: &'p PackageVisit,
    initials: &IxBitSet,
    spots: &[Spot<'_>],
) -> Result<Vec<Option<Vec<WhyStep<'p>>>>, AllocError>
    requires size { length initials.now ≡ length (node_packages on.now.visit.tables) }
    requires least { IsLeast on.now (has initials.now) }
    ensures { IfOk result (λ founds. AllZip (SpotAnswers on.now (has initials.now)) spots.now founds.items) }
{
    let built = on.visited().built();
    let steps = explanation_from(alloc, built, initials)?;
    let places = places_of(alloc, built, &steps)?;
    why_spots(alloc, on, built, initials, &steps, &places, spots)
}
