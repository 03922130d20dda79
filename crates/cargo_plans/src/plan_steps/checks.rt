//! The checks that a plan passes.
ghost use Rattle.std.specs.Prelude.{◌≡◌, IfOk, IsTrue, length, nat_lt, option_map};
ghost use Rattle.std.specs.List.{list_all};
ghost use Rattle.cargo_workspaces.specs.WorkspaceView.{workspace_text};
ghost use Rattle.plan_rows.specs.SettingsView.{settings_text};
ghost use Rattle.plan_starts.specs.StartViews.{starts_text};
ghost use Rattle.plan_starts.specs.UnfitWords.{unfit_text};
ghost use Rattle.cargo_plans.specs.plan_steps.Plans as spec;
ghost use Rattle.cargo_plans.specs.plan_steps.inner.Stages.{Checks};

use crate::plan_steps::fault::StepFault;
use crate::plan_units::{
    PackageVisit, Starts, UnfitWord, first_lacking, first_missing, first_unfit, first_without_tests,
};
use cargo_workspaces::Workspace;
use plan_rows::{Platform, Settings, Side};
use std::alloc::{AllocError, Global};

/// Returns the first of `selected` whose tests can't be built, if the build is that of `cargo test`. An allocation's failure is the only
/// error.
#[tactic(auto, unfolding(crate::specs::plan_steps::Plans::without_tests))]
pub(crate) fn without_tests<P: Platform>(
    alloc: Global,
    workspace: &Workspace<'_>,
    settings: &Settings<'_, '_, P>,
    selected: &[usize],
) -> Result<Option<usize>, AllocError>
    requires { IsTrue (list_all (λ p. nat_lt p (length (workspace_text workspace.now).packages)) selected.now) }
    ensures { IfOk result (λ found. found ≡ spec.without_tests (workspace_text workspace.now) (settings_text P.holds settings.now) selected.now) }
{
    if settings.choice.test {
        first_without_tests(alloc, workspace, selected)
    } else {
        Ok(None)
    }
}

/// Returns the first word for targets that chooses none of the `selected` packages.
#[tactic(auto, unfolding(crate::specs::plan_steps::Plans::without_targets))]
pub(crate) fn without_targets<'w, P: Platform>(
    workspace: &'w Workspace<'_>,
    settings: &Settings<'_, 'w, P>,
    selected: &[usize],
) -> Option<UnfitWord<'w>>
    ensures { option_map unfit_text result ≡ spec.without_targets (workspace_text workspace.now) (settings_text P.holds settings.now) selected.now }
{
    first_unfit(workspace.packages(), selected, &settings.choice)
}

/// Returns the first package that starts on a side where it isn't on, with that side. `on` is the visit of step `on`.
#[tactic(auto, unfolding(crate::specs::plan_steps::Plans::not_on))]
fn not_on<P: Platform>(
    workspace: &Workspace<'_>,
    settings: &Settings<'_, '_, P>,
    on: &PackageVisit,
    starts: &Starts,
) -> Option<(usize, Side)>
    ensures { result ≡ spec.not_on (workspace_text workspace.now) (settings_text P.holds settings.now) on.now (starts_text starts.now) }
{
    first_missing(settings.split, on, starts, workspace.packages())
}

/// Returns the first package that lacks an optional dependency which is asked for, with the dependency's name. `on` is the visit of
/// step `on`.
#[tactic(auto, unfolding(crate::specs::plan_steps::Plans::lacks))]
fn lacks<'w, P: Platform>(
    workspace: &'w Workspace<'_>,
    settings: &Settings<'_, 'w, P>,
    on: &PackageVisit,
) -> Option<(usize, &'w str)>
    ensures { option_map (λ found. (found.0, found.1.now)) result ≡ spec.lacks (workspace_text workspace.now) (settings_text P.holds settings.now) on.now }
{
    first_lacking(on, workspace.packages(), settings.commands)
}

/// Returns the first reason why nothing is built from `starts`: a target that is chosen by its name and lacks a feature, a package that
/// starts where it isn't on, or one that lacks a dependency. `on` is the visit of step `on`.
pub(crate) fn check<'w, P: Platform>(
    workspace: &'w Workspace<'_>,
    settings: &Settings<'_, 'w, P>,
    on: &PackageVisit,
    starts: &Starts,
) -> Option<StepFault<'w>>
    ensures { Checks (workspace_text workspace.now) (settings_text P.holds settings.now) on.now (starts_text starts.now) result }
{
    if let Some((package, target)) = starts.unmet() {
        return Some(StepFault::Unmet { package, target });
    }
    if let Some((package, side)) = not_on(workspace, settings, on, starts) {
        return Some(StepFault::NotOn { package, side });
    }
    match lacks(workspace, settings, on) {
        Some((package, dependency)) => Some(StepFault::Lacking {
            package,
            dependency,
        }),
        None => None,
    }
}
