//! Step `resolved`: what version resolving turns on.
ghost use Rattle.std.specs.Prelude.{◌≡◌, ◌+◌, ◌*◌, ◌<◌, ◌≤◌, ◌^◌, IfOk, IsTrue, length, map};
ghost use Rattle.cargo_workspaces.specs.WorkspaceView.{workspace_text};
ghost use Rattle.plan_rows.specs.Commands.{are_commands, command_texts};
ghost use Rattle.plan_rows.specs.Gates.{AreGated, AreGates};
ghost use Rattle.plan_rows.specs.SettingsView.{settings_text};
ghost use Rattle.cargo_plans.specs.plan_units.Commands.{resolved_starts};
ghost use Rattle.plan_starts.specs.step_visits.Visits.{place_view};
ghost use Rattle.cargo_plans.specs.plan_steps.Plans.{IsResolved};
ghost use Rattle.cargo_plans.specs.plan_steps.inner.StepTables.{AreResolvedTables};

use crate::plan_units::{FeatureLabel, PackageGraph, PackageVisit, Visited, push_commands, visit};
use cargo_workspaces::Workspace;
use plan_rows::{GatedFeatures, Gates, Ids, Platform, Settings, rows_resolved};
use std::alloc::{AllocError, Global};

/// Returns the tables of the step, whose features are `gated`.
fn tables_of_gated<P: Platform>(
    alloc: Global,
    ids: &Ids,
    workspace: &Workspace<'_>,
    settings: &Settings<'_, '_, P>,
    gated: &GatedFeatures<'_>,
) -> Result<PackageGraph, AllocError>
    requires room { 2 * length (workspace_text workspace.now).packages ≤ ids.now }
    requires commands { IsTrue (are_commands (command_texts settings.now.commands.now)) }
    requires gated { AreGated (workspace_text workspace.now).packages (command_texts settings.now.commands.now) gated.now }
    ensures { IfOk result (λ tables. AreResolvedTables (workspace_text workspace.now) (settings_text P.holds settings.now) tables) }
{
    let rows = rows_resolved(alloc, ids, workspace, settings, gated)?;
    rows.package_graph(alloc)
}

/// Returns the tables of the step, whose gates are `gates`.
fn tables_of_gates<P: Platform>(
    alloc: Global,
    ids: &Ids,
    workspace: &Workspace<'_>,
    settings: &Settings<'_, '_, P>,
    gates: &Gates,
) -> Result<PackageGraph, AllocError>
    requires room { 2 * length (workspace_text workspace.now).packages ≤ ids.now }
    requires commands { IsTrue (are_commands (command_texts settings.now.commands.now)) }
    requires gates { AreGates (workspace_text workspace.now).packages (command_texts settings.now.commands.now) gates.now }
    ensures { IfOk result (λ tables. AreResolvedTables (workspace_text workspace.now) (settings_text P.holds settings.now) tables) }
{
    let gated = GatedFeatures::new(alloc, gates, workspace, settings.commands)?;
    tables_of_gated(alloc, ids, workspace, settings, &gated)
}

/// Returns the tables of the step.
fn tables<P: Platform>(
    alloc: Global,
    ids: &Ids,
    workspace: &Workspace<'_>,
    settings: &Settings<'_, '_, P>,
) -> Result<PackageGraph, AllocError>
    requires room { 2 * length (workspace_text workspace.now).packages ≤ ids.now }
    requires commands { IsTrue (are_commands (command_texts settings.now.commands.now)) }
    ensures { IfOk result (λ tables. AreResolvedTables (workspace_text workspace.now) (settings_text P.holds settings.now) tables) }
{
    let gates = Gates::new(alloc, workspace, settings.commands)?;
    tables_of_gates(alloc, ids, workspace, settings, &gates)
}

/// Returns the places at which the step starts.
fn places<P: Platform>(
    alloc: Global,
    workspace: &Workspace<'_>,
    settings: &Settings<'_, '_, P>,
) -> Result<Vec<(usize, FeatureLabel<'static>)>, AllocError>
    requires { length (workspace_text workspace.now).packages + length settings.now.commands.now < 2 ^ 64 }
    ensures { IfOk result (λ places. map place_view places.items ≡ resolved_starts (workspace_text workspace.now) (settings_text P.holds settings.now)) }
{
    let packages = workspace.packages();
    let first = workspace.package_count();
    let mut places = Vec::new(alloc);
    push_commands(&mut places, true, packages, settings.commands, first)?;
    Ok(places)
}

/// Returns the visit of `tables`, which are those of the step.
fn visited<P: Platform>(
    alloc: Global,
    workspace: &Workspace<'_>,
    settings: &Settings<'_, '_, P>,
    tables: PackageGraph,
) -> Result<Visited, AllocError>
    requires room { length (workspace_text workspace.now).packages + length settings.now.commands.now < 2 ^ 64 }
    requires tables { AreResolvedTables (workspace_text workspace.now) (settings_text P.holds settings.now) tables }
    ensures { IfOk result (λ v. IsResolved (workspace_text workspace.now) (settings_text P.holds settings.now) (record { count = length (workspace_text workspace.now).packages; visit = v })) }
{
    let places = places(alloc, workspace, settings)?;
    visit(alloc, tables, &places)
}

/// Returns the visit of step `resolved`: `ids` has at least two ids a package. An allocation's failure is the only error.
pub(crate) fn resolved_step<P: Platform>(
    alloc: Global,
    ids: &Ids,
    workspace: &Workspace<'_>,
    settings: &Settings<'_, '_, P>,
) -> Result<PackageVisit, AllocError>
    requires room { 2 * length (workspace_text workspace.now).packages ≤ ids.now }
    requires count { length settings.now.commands.now ≡ length (workspace_text workspace.now).packages }
    requires named { IsTrue (are_commands (command_texts settings.now.commands.now)) }
    ensures { IfOk result (λ kept. IsResolved (workspace_text workspace.now) (settings_text P.holds settings.now) kept) }
{
    let _limit = ids.count();
    let tables = tables(alloc, ids, workspace, settings)?;
    let visited = visited(alloc, workspace, settings, tables)?;
    Ok(PackageVisit::new(visited, workspace.package_count()))
}
