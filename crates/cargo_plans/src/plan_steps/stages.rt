//! The stages of a plan after the first two steps: the packages that start, and what is built.
ghost use Rattle.std.specs.Prelude.{◌≡◌, ◌+◌, ◌*◌, ◌≤◌, IfOk, IsTrue, length, map, nat_lt};
ghost use Rattle.std.specs.List.{list_all};
ghost use Rattle.cargo_workspaces.specs.WorkspaceView.{workspace_text};
ghost use Rattle.plan_rows.specs.SettingsView.{settings_text};
ghost use Rattle.plan_starts.specs.StartViews.{starts_text};
ghost use Rattle.plan_starts.specs.Starts as spec;
ghost use Rattle.plan_starts.specs.step_visits.Visits.{place_view};
ghost use Rattle.cargo_plans.specs.plan_steps.Plans.{AreBuilt, starts_by};
ghost use Rattle.cargo_plans.specs.plan_steps.inner.Stages.{Builds, plan_with};

use crate::plan_steps::built_step::built_step;
use crate::plan_steps::checks::check;
use crate::plan_steps::entries::target_count;
use crate::plan_steps::fault::StepFault;
use crate::plan_units::{
    FeatureLabel, PackageVisit, Starts, TargetRules, Unit, Visited, start_places, starts_of,
    units_of,
};
use cargo_workspaces::Workspace;
use plan_rows::{Ids, Platform, Settings};
use std::alloc::{AllocError, Global};

/// What is built.
#[derive(Drop)]
pub(crate) struct Built<'w> {
    /// The packages, with their features.
    pub(crate) units: Vec<Unit<'w>>,
    /// The visit of step `built`.
    pub(crate) visited: Visited,
    /// The places at which the step starts.
    pub(crate) starts: Vec<(usize, FeatureLabel<'static>)>,
}

/// Returns which of the `selected` packages start, and where: `kept` and `on` are the visits of the first two steps. An allocation's
/// failure is the only error.
fn started<P: Platform>(
    alloc: Global,
    workspace: &Workspace<'_>,
    settings: &Settings<'_, '_, P>,
    kept: &PackageVisit,
    on: &PackageVisit,
    selected: &[usize],
) -> Result<Starts, AllocError>
    requires { IsTrue (list_all (λ p. nat_lt p (length (workspace_text workspace.now).packages)) selected.now) }
    ensures { IfOk result (λ starts. starts_text starts ≡ starts_by (workspace_text workspace.now) (settings_text P.holds settings.now) selected.now kept.now on.now) }
{
    let rules = TargetRules {
        settings,
        packages: workspace.packages(),
        kept,
        on,
    };
    starts_of(alloc, &rules, selected)
}

/// What is built from the places `places` of `starts`: the packages, and the visit of the step. `on` is the visit of step `on`, and `ids`
/// has at least one id for each package in each place. An allocation's failure is the only error.
fn built_by<'w, P: Platform>(
    alloc: Global,
    ids: &Ids,
    workspace: &'w Workspace<'_>,
    settings: &Settings<'_, '_, P>,
    on: &PackageVisit,
    starts: &Starts,
    places: Vec<(usize, FeatureLabel<'static>)>,
) -> Result<Built<'w>, AllocError>
    requires room { length (workspace_text workspace.now).packages + length settings.now.targets.now * length (workspace_text workspace.now).packages ≤ ids.now }
    requires places { map place_view places.items ≡ spec.start_places (length (settings_text P.holds settings.now).targets) (starts_text starts.now) }
    ensures { IfOk result (λ built. AreBuilt (workspace_text workspace.now) (settings_text P.holds settings.now) on.now (starts_text starts.now) (plan_with on.now built)) }
{
    let _limit = ids.count();
    let targets = target_count(settings);
    let visited = built_step(alloc, ids, workspace, settings, on, starts, &places)?;
    let packages = workspace.packages();
    match units_of(alloc, settings.split, on, &visited, packages, targets) {
        Ok(units) => Ok(Built {
            units,
            visited,
            starts: places,
        }),
        Err(fault) => {
            drop(visited);
            Err(fault)
        }
    }
}

/// Returns what is built from `starts`: `on` is the visit of step `on`, and `ids` has at least one id for each package in each place. An
/// allocation's failure is the only error.
fn built_from<'w, P: Platform>(
    alloc: Global,
    ids: &Ids,
    workspace: &'w Workspace<'_>,
    settings: &Settings<'_, '_, P>,
    on: &PackageVisit,
    starts: &Starts,
) -> Result<Built<'w>, AllocError>
    requires { length (workspace_text workspace.now).packages + length settings.now.targets.now * length (workspace_text workspace.now).packages ≤ ids.now }
    ensures { IfOk result (λ built. AreBuilt (workspace_text workspace.now) (settings_text P.holds settings.now) on.now (starts_text starts.now) (plan_with on.now built)) }
{
    let places = start_places(alloc, target_count(settings), starts)?;
    built_by(alloc, ids, workspace, settings, on, starts, places)
}

/// Returns what is built from `starts`, or the first reason why nothing is.
fn checked_build<'w, P: Platform>(
    alloc: Global,
    ids: &Ids,
    workspace: &'w Workspace<'_>,
    settings: &Settings<'_, 'w, P>,
    on: &PackageVisit,
    starts: &Starts,
) -> Result<Built<'w>, StepFault<'w>>
    requires { length (workspace_text workspace.now).packages + length settings.now.targets.now * length (workspace_text workspace.now).packages ≤ ids.now }
    ensures { Builds (workspace_text workspace.now) (settings_text P.holds settings.now) on.now (starts_text starts.now) result }
{
    match check(workspace, settings, on, starts) {
        Some(fault) => Err(fault),
        None => match built_from(alloc, ids, workspace, settings, on, starts) {
            Ok(built) => Ok(built),
            Err(_) => Err(StepFault::Memory),
        },
    }
}

/// Returns what is built for the `selected` packages, or the first reason why nothing is: `kept` and `on` are the visits of the first two
/// steps, and `ids` has at least one id for each package in each place.
pub(crate) fn build_of<'w, P: Platform>(
    alloc: Global,
    ids: &Ids,
    workspace: &'w Workspace<'_>,
    settings: &Settings<'_, 'w, P>,
    kept: &PackageVisit,
    on: &PackageVisit,
    selected: &[usize],
) -> Result<Built<'w>, StepFault<'w>>
    requires selected { IsTrue (list_all (λ p. nat_lt p (length (workspace_text workspace.now).packages)) selected.now) }
    requires room { length (workspace_text workspace.now).packages + length settings.now.targets.now * length (workspace_text workspace.now).packages ≤ ids.now }
    ensures { Builds (workspace_text workspace.now) (settings_text P.holds settings.now) on.now (starts_by (workspace_text workspace.now) (settings_text P.holds settings.now) selected.now kept.now on.now) result }
{
    let starts = started(alloc, workspace, settings, kept, on, selected)?;
    checked_build(alloc, ids, workspace, settings, on, &starts)
}
