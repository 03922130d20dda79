//! Step `on`: which features are on.
ghost use Rattle.std.specs.Prelude.{◌≡◌, ◌+◌, ◌*◌, ◌<◌, ◌≤◌, ◌^◌, ◌++◌, [], IfOk, OnOk, IsTrue, if◌then◌else◌, length, map};
ghost use Rattle.cargo_workspaces.specs.WorkspaceView.{workspace_text};
ghost use Rattle.plan_rows.specs.Commands.{are_commands, command_texts};
ghost use Rattle.plan_rows.specs.SettingsView.{settings_text};
ghost use Rattle.plan_starts.specs.Targets.{has_macro};
ghost use Rattle.cargo_plans.specs.plan_units.Commands.{command_places, on_starts};
ghost use Rattle.plan_starts.specs.step_visits.Visits.{place_view};
ghost use Rattle.cargo_plans.specs.plan_steps.Plans.{IsOn};
ghost use Rattle.cargo_plans.specs.plan_steps.inner.StepTables.{AreOnTables};

use crate::plan_units::{FeatureLabel, PackageGraph, PackageVisit, Visited, push_commands, visit};
use cargo_workspaces::Workspace;
use plan_rows::{Ids, Platform, Settings, rows_on};
use std::alloc::{AllocError, Global};

/// Returns the tables of the step: `kept` is the visit of step `resolved`.
fn tables<P: Platform>(
    alloc: Global,
    ids: &Ids,
    workspace: &Workspace<'_>,
    settings: &Settings<'_, '_, P>,
    kept: &PackageVisit,
) -> Result<PackageGraph, AllocError>
    requires room { 2 * length (workspace_text workspace.now).packages ≤ ids.now }
    requires commands { IsTrue (are_commands (command_texts settings.now.commands.now)) }
    ensures { IfOk result (λ tables. AreOnTables (workspace_text workspace.now) (settings_text P.holds settings.now) kept.now tables) }
{
    let rows = rows_on(alloc, ids, workspace, settings, kept)?;
    rows.package_graph(alloc)
}

/// Appends the command features of packages with a procedural macro on the host side, if sides are told apart.
fn push_host<'s, P: Platform>(
    places: &mut Vec<(usize, FeatureLabel<'s>)>,
    workspace: &Workspace<'_>,
    settings: &Settings<'_, '_, P>,
) -> Result<(), AllocError>
    requires { length (workspace_text workspace.now).packages + length settings.now.commands.now < 2 ^ 64 }
    ensures { OnOk result (map place_view places.new.items ≡ map place_view places.old.items
        ++ (if settings.now.split then command_places (has_macro (workspace_text workspace.now).packages) (length (workspace_text workspace.now).packages) (command_texts settings.now.commands.now) else [])) }
{
    if !settings.split {
        return Ok(());
    }
    let packages = workspace.packages();
    let first = workspace.package_count();
    push_commands(places, false, packages, settings.commands, first)
}

/// Returns the places at which step `on` starts: the command features, each by its entry and its label.
pub fn on_places<P: Platform>(
    alloc: Global,
    workspace: &Workspace<'_>,
    settings: &Settings<'_, '_, P>,
) -> Result<Vec<(usize, FeatureLabel<'static>)>, AllocError>
    requires { length (workspace_text workspace.now).packages + length settings.now.commands.now < 2 ^ 64 }
    ensures { IfOk result (λ places. map place_view places.items ≡ on_starts (workspace_text workspace.now) (settings_text P.holds settings.now)) }
{
    let packages = workspace.packages();
    let mut places = Vec::new(alloc);
    push_commands(&mut places, true, packages, settings.commands, 0)?;
    push_host(&mut places, workspace, settings)?;
    Ok(places)
}

/// Returns the visit of `tables`, which are those of the step.
fn visited<P: Platform>(
    alloc: Global,
    workspace: &Workspace<'_>,
    settings: &Settings<'_, '_, P>,
    kept: &PackageVisit,
    tables: PackageGraph,
) -> Result<Visited, AllocError>
    requires room { length (workspace_text workspace.now).packages + length settings.now.commands.now < 2 ^ 64 }
    requires tables { AreOnTables (workspace_text workspace.now) (settings_text P.holds settings.now) kept.now tables }
    ensures { IfOk result (λ v. IsOn (workspace_text workspace.now) (settings_text P.holds settings.now) kept.now (record { count = length (workspace_text workspace.now).packages; visit = v })) }
{
    let places = on_places(alloc, workspace, settings)?;
    visit(alloc, tables, &places)
}

/// Returns the visit of step `on`: `kept` is the visit of step `resolved`, and `ids` has at least two ids a package. An allocation's
/// failure is the only error.
pub(crate) fn on_step<P: Platform>(
    alloc: Global,
    ids: &Ids,
    workspace: &Workspace<'_>,
    settings: &Settings<'_, '_, P>,
    kept: &PackageVisit,
) -> Result<PackageVisit, AllocError>
    requires room { 2 * length (workspace_text workspace.now).packages ≤ ids.now }
    requires count { length settings.now.commands.now ≡ length (workspace_text workspace.now).packages }
    requires named { IsTrue (are_commands (command_texts settings.now.commands.now)) }
    ensures { IfOk result (λ on. IsOn (workspace_text workspace.now) (settings_text P.holds settings.now) kept.now on) }
{
    let _limit = ids.count();
    let tables = tables(alloc, ids, workspace, settings, kept)?;
    let visited = visited(alloc, workspace, settings, kept, tables)?;
    Ok(PackageVisit::new(visited, workspace.package_count()))
}
