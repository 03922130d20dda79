//! The plan of a workspace.
ghost use Rattle.std.specs.Prelude.{◌≡◌, ◌+◌, ◌*◌, ◌≤◌, None, IsTrue, length, nat_lt};
ghost use Rattle.std.specs.List.{list_all};
ghost use Rattle.cargo_workspaces.specs.WorkspaceView.{workspace_text};
ghost use Rattle.plan_rows.specs.Commands.{are_commands, command_texts};
ghost use Rattle.plan_rows.specs.SettingsView.{settings_text};
ghost use Rattle.cargo_plans.specs.plan_steps.PlanViews.{Plans};
ghost use Rattle.cargo_plans.specs.plan_steps.Plans as spec;
ghost use Rattle.cargo_plans.specs.plan_steps.inner.Stages.{Planned};

use crate::plan_steps::checks::{without_targets, without_tests};
use crate::plan_steps::entries::ids_of;
use crate::plan_steps::fault::StepFault;
use crate::plan_steps::on_step::on_step;
use crate::plan_steps::plan::Plan;
use crate::plan_steps::resolved_step::resolved_step;
use crate::plan_steps::stages::{Built, build_of};
use crate::plan_units::PackageVisit;
use cargo_workspaces::Workspace;
use plan_rows::{Ids, Platform, Settings};
use std::alloc::Global;

/// Returns the plan of what is built, or the fault. `on` is the visit of step `on`.
fn planned<'w>(
    on: PackageVisit,
    built: Result<Built<'w>, StepFault<'w>>,
) -> Result<Plan<'w>, StepFault<'w>>
    ensures { Planned on built.entry result }
{
    match built {
        Ok(built) => Ok(Plan {
            units: built.units,
            on,
            built: built.visited,
            starts: built.starts,
        }),
        Err(fault) => {
            drop(on);
            Err(fault)
        }
    }
}

/// Returns the plan of the `selected` packages, whose tests can be built and which have targets for each word: `kept` and `on` are the
/// visits of the first two steps, and `ids` has at least one id for each package in each place.
fn plan_of_visits<'w, P: Platform>(
    alloc: Global,
    ids: &Ids,
    workspace: &'w Workspace<'_>,
    settings: &Settings<'_, 'w, P>,
    selected: &[usize],
    kept: &PackageVisit,
    on: PackageVisit,
) -> Result<Plan<'w>, StepFault<'w>>
    requires tests { spec.without_tests (workspace_text workspace.now) (settings_text P.holds settings.now) selected.now ≡ None }
    requires targets { spec.without_targets (workspace_text workspace.now) (settings_text P.holds settings.now) selected.now ≡ None }
    requires selected { IsTrue (list_all (λ p. nat_lt p (length (workspace_text workspace.now).packages)) selected.now) }
    requires places { length (workspace_text workspace.now).packages + length settings.now.targets.now * length (workspace_text workspace.now).packages ≤ ids.now }
    requires resolved { spec.IsResolved (workspace_text workspace.now) (settings_text P.holds settings.now) kept.now }
    requires on { spec.IsOn (workspace_text workspace.now) (settings_text P.holds settings.now) kept.now on }
    ensures { Plans (workspace_text workspace.now) (settings_text P.holds settings.now) selected.now result }
{
    let built = build_of(alloc, ids, workspace, settings, kept, &on, selected);
    planned(on, built)
}

/// Returns the plan of the `selected` packages, whose tests can be built and which have targets for each word: `kept` is the visit of
/// step `resolved`, and `ids` has at least one id for each entry of each step.
fn plan_of_kept<'w, P: Platform>(
    alloc: Global,
    ids: &Ids,
    workspace: &'w Workspace<'_>,
    settings: &Settings<'_, 'w, P>,
    selected: &[usize],
    kept: &PackageVisit,
) -> Result<Plan<'w>, StepFault<'w>>
    requires tests { spec.without_tests (workspace_text workspace.now) (settings_text P.holds settings.now) selected.now ≡ None }
    requires targets { spec.without_targets (workspace_text workspace.now) (settings_text P.holds settings.now) selected.now ≡ None }
    requires selected { IsTrue (list_all (λ p. nat_lt p (length (workspace_text workspace.now).packages)) selected.now) }
    requires sides { 2 * length (workspace_text workspace.now).packages ≤ ids.now }
    requires places { length (workspace_text workspace.now).packages + length settings.now.targets.now * length (workspace_text workspace.now).packages ≤ ids.now }
    requires count { length settings.now.commands.now ≡ length (workspace_text workspace.now).packages }
    requires named { IsTrue (are_commands (command_texts settings.now.commands.now)) }
    requires resolved { spec.IsResolved (workspace_text workspace.now) (settings_text P.holds settings.now) kept.now }
    ensures { Plans (workspace_text workspace.now) (settings_text P.holds settings.now) selected.now result }
{
    match on_step(alloc, ids, workspace, settings, kept) {
        Ok(on) => plan_of_visits(alloc, ids, workspace, settings, selected, kept, on),
        Err(_) => Err(StepFault::Memory),
    }
}

/// Returns the plan of the `selected` packages, whose tests can be built and which have targets for each word: `ids` has at least one id
/// for each entry of each step.
fn plan_of_steps<'w, P: Platform>(
    alloc: Global,
    ids: &Ids,
    workspace: &'w Workspace<'_>,
    settings: &Settings<'_, 'w, P>,
    selected: &[usize],
) -> Result<Plan<'w>, StepFault<'w>>
    requires tests { spec.without_tests (workspace_text workspace.now) (settings_text P.holds settings.now) selected.now ≡ None }
    requires targets { spec.without_targets (workspace_text workspace.now) (settings_text P.holds settings.now) selected.now ≡ None }
    requires selected { IsTrue (list_all (λ p. nat_lt p (length (workspace_text workspace.now).packages)) selected.now) }
    requires sides { 2 * length (workspace_text workspace.now).packages ≤ ids.now }
    requires places { length (workspace_text workspace.now).packages + length settings.now.targets.now * length (workspace_text workspace.now).packages ≤ ids.now }
    requires count { length settings.now.commands.now ≡ length (workspace_text workspace.now).packages }
    requires named { IsTrue (are_commands (command_texts settings.now.commands.now)) }
    ensures { Plans (workspace_text workspace.now) (settings_text P.holds settings.now) selected.now result }
{
    match resolved_step(alloc, ids, workspace, settings) {
        Ok(kept) => {
            let plan = plan_of_kept(alloc, ids, workspace, settings, selected, &kept);
            drop(kept);
            plan
        }
        Err(_) => Err(StepFault::Memory),
    }
}

/// Returns the plan of the `selected` packages, whose tests can be built and which have targets for each word.
fn plan_with_targets<'w, P: Platform>(
    alloc: Global,
    workspace: &'w Workspace<'_>,
    settings: &Settings<'_, 'w, P>,
    selected: &[usize],
) -> Result<Plan<'w>, StepFault<'w>>
    requires tests { spec.without_tests (workspace_text workspace.now) (settings_text P.holds settings.now) selected.now ≡ None }
    requires targets { spec.without_targets (workspace_text workspace.now) (settings_text P.holds settings.now) selected.now ≡ None }
    requires selected { IsTrue (list_all (λ p. nat_lt p (length (workspace_text workspace.now).packages)) selected.now) }
    requires count { length settings.now.commands.now ≡ length (workspace_text workspace.now).packages }
    requires named { IsTrue (are_commands (command_texts settings.now.commands.now)) }
    ensures { Plans (workspace_text workspace.now) (settings_text P.holds settings.now) selected.now result }
{
    let ids = ids_of(alloc, workspace.package_count(), settings.targets.len())?;
    plan_of_steps(alloc, &ids, workspace, settings, selected)
}

/// Returns the plan of the `selected` packages, whose tests can be built.
fn plan_with_tests<'w, P: Platform>(
    alloc: Global,
    workspace: &'w Workspace<'_>,
    settings: &Settings<'_, 'w, P>,
    selected: &[usize],
) -> Result<Plan<'w>, StepFault<'w>>
    requires tests { spec.without_tests (workspace_text workspace.now) (settings_text P.holds settings.now) selected.now ≡ None }
    requires selected { IsTrue (list_all (λ p. nat_lt p (length (workspace_text workspace.now).packages)) selected.now) }
    requires count { length settings.now.commands.now ≡ length (workspace_text workspace.now).packages }
    requires named { IsTrue (are_commands (command_texts settings.now.commands.now)) }
    ensures { Plans (workspace_text workspace.now) (settings_text P.holds settings.now) selected.now result }
{
    match without_targets(workspace, settings, selected) {
        Some(word) => Err(StepFault::NoTarget(word)),
        None => plan_with_targets(alloc, workspace, settings, selected),
    }
}

/// Returns the plan of the `selected` packages of `workspace`, by their numbers: what is built by `settings`, which has a place for the
/// command feature of each package.
///
/// Returns `NoTests` for the first selected package whose tests can't be built; then `NoTarget` for the first word for targets that
/// chooses none; then `Unmet` for the first target that is chosen by its name and lacks a feature; then `NotOn` for the first package that
/// starts on a side where it isn't on; then `Lacking` for the first package that lacks a dependency; and `Memory` if an allocation fails.
pub fn plan_of<'w, P: Platform>(
    alloc: Global,
    workspace: &'w Workspace<'_>,
    settings: &Settings<'_, 'w, P>,
    selected: &[usize],
) -> Result<Plan<'w>, StepFault<'w>>
    requires selected { IsTrue (list_all (λ p. nat_lt p (length (workspace_text workspace.now).packages)) selected.now) }
    requires count { length settings.now.commands.now ≡ length (workspace_text workspace.now).packages }
    requires named { IsTrue (are_commands (command_texts settings.now.commands.now)) }
    ensures { Plans (workspace_text workspace.now) (settings_text P.holds settings.now) selected.now result }
{
    match without_tests(alloc, workspace, settings, selected)? {
        Some(package) => Err(StepFault::NoTests { package }),
        None => plan_with_tests(alloc, workspace, settings, selected),
    }
}
