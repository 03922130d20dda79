//! For each of several spots, the last step of its `why`.
ghost use Rattle.std.specs.Prelude.{◌≡◌, ℕ, IfOk, length, map};
ghost use Rattle.std.specs.List.{AllZip};
ghost use Rattle.guppy_packages.specs.declared.direction.DependencyDirection.TheVariants.{Forward};
ghost use Rattle.digraphs.specs.Bits.{has};
ghost use Rattle.cargo_plans.specs.Plans.{IsPlanOf};
ghost use Rattle.cargo_plans.specs.WordsView.{words_text};
ghost use Rattle.cargo_plans.specs.plan_rows.SettingsView.{settings_text};
ghost use Rattle.cargo_plans.specs.plan_steps.PlanViews.{plan_text};
ghost use Rattle.cargo_workspaces.specs.WorkspaceView.{workspace_text};
ghost use Rattle.feature_core.specs.Built.{IsBuilt};
ghost use Rattle.feature_core.specs.Nodes.{node_packages};
ghost use Rattle.feature_core.specs.Offers.{content_of};
ghost use Rattle.walk_checks.specs.Places.{ArePlaces};
ghost use Rattle.walk_engine.specs.Explanations.{IsExplanation, nodes_of};
ghost use Rattle.walk_engine.specs.Laws.{every};
ghost use Rattle.walk_engine.specs.Walks.{is_in};
ghost use Rattle.plan_whys.specs.LastSteps.{AreLastSteps, AreLastStepsBy};
ghost use Rattle.plan_whys.specs.StepViews.{last_text, spot_text};
ghost use Rattle.plan_whys.specs.Whys.{IsOnBy};
ghost use Rattle.plan_whys.specs.inner.Lasts.{IsStepAt, SpotLast, SpotStep};
ghost use Rattle.plan_whys.specs.inner.Nodes.{AreInside, IsLeast};

use crate::explanations::{explanation_from, places_of};
use crate::nodes::node_of;
use crate::spots::step_of;
use crate::steps::{Spot, WhyStep};
use crate::whys::initials_of;
use cargo_plans::{PackageVisit, Plan, PlanWords, Platform, Settings};
use cargo_workspaces::Workspace;
use digraphs::IxBitSet;
use feature_core::graph_laws::content_of_graph;
use feature_core::{FeatureGraphData, Packed};
use guppy_packages::DependencyDirection;
use plan_words::choose;
use std::alloc::{AllocError, Global};
use walk_checks::StepPlaces;
use walk_checks::laws::each_step_ends_a_why;
use walk_engine::Step;

/// Returns the step of `node`, or `None` if no step is that of `node`. `places` are those of `steps`.
fn step_at<'p>(
    on: &'p PackageVisit,
    built: &FeatureGraphData,
    steps: &[Step],
    places: &StepPlaces,
    node: usize,
) -> Option<WhyStep<'p>>
    requires inside { AreInside (length (node_packages on.now.visit.tables)) (content_of Forward built.now) steps.now }
    requires places { ArePlaces (content_of Forward built.now).nodes steps.now places.now }
    ensures { IsStepAt on.now (content_of Forward built.now) steps.now node (last_text result) }
{
    let table = Packed::new(built, DependencyDirection::Forward);
    match places.place(node) {
        None => None,
        Some(place) => {
            let step = steps[place];
            Some(step_of(on, &table, step))
        }
    }
}

/// Returns the step of the node of `at`, or `None` if there is none. `places` are those of `steps`.
fn step_at_spot<'p>(
    on: &'p PackageVisit,
    built: &FeatureGraphData,
    steps: &[Step],
    places: &StepPlaces,
    at: Spot<'_>,
) -> Option<WhyStep<'p>>
    requires inside { AreInside (length (node_packages on.now.visit.tables)) (content_of Forward built.now) steps.now }
    requires places { ArePlaces (content_of Forward built.now).nodes steps.now places.now }
    ensures { SpotStep on.now (content_of Forward built.now) steps.now at.entry result }
{
    match node_of(on, at) {
        None => None,
        Some(node) => step_at(on, built, steps, places, node),
    }
}

/// Returns, for each of `spots`, the last step of its `why`, or `None` if it isn't reached: the step in `steps` for its node. `places`
/// must be the places of `steps`.
fn steps_at_spots<'p>(
    alloc: Global,
    on: &'p PackageVisit,
    built: &FeatureGraphData,
    steps: &[Step],
    places: &StepPlaces,
    spots: &[Spot<'_>],
) -> Result<Vec<Option<WhyStep<'p>>>, AllocError>
    requires inside { AreInside (length (node_packages on.now.visit.tables)) (content_of Forward built.now) steps.now }
    requires places { ArePlaces (content_of Forward built.now).nodes steps.now places.now }
    ensures { IfOk result (λ lasts. AllZip (SpotStep on.now (content_of Forward built.now) steps.now) spots.now lasts.items) }
{
    let mut lasts = Vec::with_capacity(alloc, spots.len())?;
    for at in spots {
        lasts.push(step_at_spot(on, built, steps, places, *at))?;
    }
    Ok(lasts)
}

/// Returns, for each of `spots`, the last step of its `why`, or `None` if it isn't reached. `steps` must be the explanation of the visit
/// that starts at `initials`, and `places` the places of `steps`.
fn last_steps_of<'p>(
    alloc: Global,
    on: &'p PackageVisit,
    built: &FeatureGraphData,
    initials: &IxBitSet,
    steps: &[Step],
    places: &StepPlaces,
    spots: &[Spot<'_>],
) -> Result<Vec<Option<WhyStep<'p>>>, AllocError>
    requires built { IsBuilt on.now.visit.tables built.now }
    requires size { length initials.now ≡ length (node_packages on.now.visit.tables) }
    requires explanation { IsExplanation (content_of Forward built.now) (has initials.now) every steps.now }
    requires listed { (n : ℕ) → has on.now.visit.members n ≡ is_in (nodes_of steps.now) n }
    requires places { ArePlaces (content_of Forward built.now).nodes steps.now places.now }
    ensures { IfOk result (λ lasts. AllZip (SpotLast on.now (has initials.now)) spots.now lasts.items) }
{
    each_step_ends_a_why();
    content_of_graph(on.visited().packages());
    let lasts = steps_at_spots(alloc, on, built, steps, places, spots)?;
    Ok(lasts)
}

/// Returns, for each of `spots`, the last step of its `why`, or `None` if it isn't reached. `on` must be the visit that starts at
/// `initials`.
fn last_steps_from<'p>(
    alloc: Global,
    on: &'p PackageVisit,
    initials: &IxBitSet,
    spots: &[Spot<'_>],
) -> Result<Vec<Option<WhyStep<'p>>>, AllocError>
    requires size { length initials.now ≡ length (node_packages on.now.visit.tables) }
    requires least { IsLeast on.now (has initials.now) }
    ensures { IfOk result (λ lasts. AllZip (SpotLast on.now (has initials.now)) spots.now lasts.items) }
{
    let built = on.visited().built();
    let steps = explanation_from(alloc, built, initials)?;
    let places = places_of(alloc, built, &steps)?;
    last_steps_of(alloc, on, built, initials, &steps, &places, spots)
}

/// Returns, for each of `spots`, the last step of its `why_by_settings`, or `None` if it is off. One walk serves all spots.
fn last_steps_by_settings<'p, P: Platform>(
    alloc: Global,
    workspace: &Workspace<'_>,
    settings: &Settings<'_, '_, P>,
    plan: &'p Plan<'_>,
    spots: &[Spot<'_>],
) -> Result<Vec<Option<WhyStep<'p>>>, AllocError>
    requires count { length settings.now.commands.now ≡ length (workspace_text workspace.now).packages }
    requires on { IsOnBy (workspace_text workspace.now) (settings_text P.holds settings.now) (plan_text plan.now).on }
    ensures { IfOk result (λ lasts. AreLastSteps (workspace_text workspace.now) (settings_text P.holds settings.now) (plan_text plan.now).on
        (map spot_text spots.now) (map last_text lasts.items)) }
{
    let on = plan.on();
    let initials = initials_of(alloc, workspace, settings, on)?;
    let lasts = last_steps_from(alloc, on, &initials, spots)?;
    Ok(lasts)
}

/// Returns, for each of `spots`, the last step of its `why`, or `None` if it is off. The time and the memory are linear in the tables of
/// step `on` and in `spots`. An allocation's failure is the only error.
pub fn last_step_each<'p, P: Platform>(
    alloc: Global,
    workspace: &Workspace<'_>,
    words: &PlanWords<'_, '_, P>,
    plan: &'p Plan<'_>,
    spots: &[Spot<'_>],
) -> Result<Vec<Option<WhyStep<'p>>>, AllocError>
    requires { IsPlanOf (workspace_text workspace.now) (words_text P.holds words.now) (plan_text plan.now) }
    ensures { IfOk result (λ lasts. AreLastStepsBy (workspace_text workspace.now) (words_text P.holds words.now) (plan_text plan.now).on
        (map spot_text spots.now) (map last_text lasts.items)) }
{
    match choose(alloc, workspace, &words.selection) {
        Ok(chosen) => {
            let settings = Settings {
                split: words.selection.split,
                choice: words.choice,
                commands: &chosen.commands,
                host: words.host,
                targets: words.targets,
            };
            let lasts = last_steps_by_settings(alloc, workspace, &settings, plan, spots)?;
            Ok(lasts)
        }
        // Words that have a plan are never refused, so an allocation failed.
        Err(_) => Err(AllocError),
    }
}
