//! The explanation of a walk, and the part of it on which one node rests.
ghost use Rattle.std.specs.Prelude.{◌≡◌, ◌↔◌, ℕ, IfOk, IsFalse, IsTrue, MatchOption, length, true};
ghost use Rattle.guppy_packages.specs.declared.direction.DependencyDirection.TheVariants.{Forward};
ghost use Rattle.digraphs.specs.Bits.{has};
ghost use Rattle.feature_core.specs.Offers.{content_of};
ghost use Rattle.walk_checks.specs.Places.{ArePlaces};
ghost use Rattle.walk_checks.specs.Whys.{IsWhy};
ghost use Rattle.walk_engine.specs.Explanations.{IsExplanation, nodes_of};
ghost use Rattle.walk_engine.specs.Laws.{every};
ghost use Rattle.walk_engine.specs.Walks.{Least, is_in};

use digraphs::IxBitSet;
use feature_core::laws::{agrees_by_answer, walk_is_exact};
use feature_core::{FeatureGraphData, Packed};
use guppy_packages::DependencyDirection;
use std::alloc::{AllocError, Global};
use walk_checks::{EdgeTable, StepPlaces, why_by_places};
use walk_engine::{Half, Offerer, Step, walk_explained};

/// An offerer that accepts each offer.
#[derive(Drop)]
struct AllOffers;

impl Offerer for AllOffers {
    ghost can_offer = { λ _ _ _. Unit {0} };

    ghost gives = { λ _ _ _ answer _. answer ≡ true };

    fn offer(&mut self, _edge: usize, _half: Half) -> bool {
        true
    }
}

/// Returns an explanation of the nodes that are reached from `initials`, if every offer is accepted: a step for each of them.
pub(crate) fn explanation_from(
    alloc: Global,
    built: &FeatureGraphData,
    initials: &IxBitSet,
) -> Result<Vec<Step>, AllocError>
    requires { length initials.now ≡ length built.now.packages }
    ensures explanation { IfOk result (λ steps. IsExplanation (content_of Forward built.now) (has initials.now) every steps.items) }
    ensures listed { IfOk result (λ steps. (n : ℕ) → IsTrue (is_in (nodes_of steps.items) n) ↔ Least (content_of Forward built.now) (has initials.now) every n) }
{
    agrees_by_answer::<AllOffers>();
    walk_is_exact::<AllOffers>();
    let mut source = Packed::new(built, DependencyDirection::Forward);
    let (walk, steps, refused) = walk_explained(alloc, &mut source, initials, &mut AllOffers)?;
    drop(walk);
    drop(refused);
    Ok(steps)
}

/// Returns the places of `steps`, for `kept_steps` of any number of nodes.
pub(crate) fn places_of(
    alloc: Global,
    built: &FeatureGraphData,
    steps: &[Step],
) -> Result<StepPlaces, AllocError>
    ensures { IfOk result (ArePlaces (content_of Forward built.now).nodes steps.now) }
{
    let table = Packed::new(built, DependencyDirection::Forward);
    let places = StepPlaces::of(alloc, table.node_count(), steps)?;
    Ok(places)
}

/// Returns the steps on which `node` rests, or `None` if no step is that of `node`. `steps` must be an explanation from `initials`, and
/// `places` those of `steps`.
pub(crate) fn kept_steps(
    alloc: Global,
    built: &FeatureGraphData,
    initials: &IxBitSet,
    steps: &[Step],
    places: &StepPlaces,
    node: usize,
) -> Result<Option<Vec<Step>>, AllocError>
    requires size { length initials.now ≡ length built.now.packages }
    requires explanation { IsExplanation (content_of Forward built.now) (has initials.now) every steps.now }
    requires places { ArePlaces (content_of Forward built.now).nodes steps.now places.now }
    ensures { IfOk result (λ found. MatchOption found (IsFalse (is_in (nodes_of steps.now) node))
        (λ kept. IsWhy (content_of Forward built.now) (has initials.now) every steps.now node kept.items)) }
{
    let table = Packed::new(built, DependencyDirection::Forward);
    let found = why_by_places(alloc, &table, steps, places, node)?;
    Ok(found)
}
