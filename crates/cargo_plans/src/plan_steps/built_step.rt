//! Step `built`: what is built.
ghost use Rattle.std.specs.Prelude.{◌≡◌, ◌+◌, ◌*◌, ◌≤◌, IfOk, length, map};
ghost use Rattle.cargo_workspaces.specs.WorkspaceView.{workspace_text};
ghost use Rattle.plan_rows.specs.SettingsView.{settings_text};
ghost use Rattle.plan_starts.specs.Starts as spec;
ghost use Rattle.plan_starts.specs.StartViews.{starts_text};
ghost use Rattle.plan_starts.specs.step_visits.Visits.{place_view};
ghost use Rattle.cargo_plans.specs.plan_steps.Plans.{IsBuiltFrom};
ghost use Rattle.cargo_plans.specs.plan_steps.inner.StepTables.{AreBuiltTables};

use crate::plan_steps::entries::target_count;
use crate::plan_units::{
    FeatureLabel, PackageGraph, PackageVisit, Starts, Visited, dev_flags, visit,
};
use cargo_workspaces::Workspace;
use plan_rows::{Ids, Platform, Settings, rows_built};
use std::alloc::{AllocError, Global};

/// Returns the tables of the step: `with_dev` is, by the number of an entry, whether it starts with its dependencies for
/// development.
fn tables_of_flags<P: Platform>(
    alloc: Global,
    ids: &Ids,
    workspace: &Workspace<'_>,
    settings: &Settings<'_, '_, P>,
    on: &PackageVisit,
    starts: &Starts,
    with_dev: &[bool],
) -> Result<PackageGraph, AllocError>
    requires room { length (workspace_text workspace.now).packages + length settings.now.targets.now * length (workspace_text workspace.now).packages ≤ ids.now }
    requires flags { with_dev.now ≡ spec.dev_flags (length (settings_text P.holds settings.now).targets) (starts_text starts.now) }
    ensures { IfOk result (λ tables. AreBuiltTables (workspace_text workspace.now) (settings_text P.holds settings.now) on.now (starts_text starts.now) tables) }
{
    let rows = rows_built(alloc, ids, workspace, settings, on, with_dev)?;
    rows.package_graph(alloc)
}

/// Returns the tables of the step.
fn tables<P: Platform>(
    alloc: Global,
    ids: &Ids,
    workspace: &Workspace<'_>,
    settings: &Settings<'_, '_, P>,
    on: &PackageVisit,
    starts: &Starts,
) -> Result<PackageGraph, AllocError>
    requires room { length (workspace_text workspace.now).packages + length settings.now.targets.now * length (workspace_text workspace.now).packages ≤ ids.now }
    ensures { IfOk result (λ tables. AreBuiltTables (workspace_text workspace.now) (settings_text P.holds settings.now) on.now (starts_text starts.now) tables) }
{
    let with_dev = dev_flags(alloc, target_count(settings), starts)?;
    tables_of_flags(alloc, ids, workspace, settings, on, starts, &with_dev)
}

/// Returns the visit of `tables`, which are those of the step, from `places`, which are those of `starts`.
fn visited<P: Platform>(
    alloc: Global,
    workspace: &Workspace<'_>,
    settings: &Settings<'_, '_, P>,
    on: &PackageVisit,
    starts: &Starts,
    places: &[(usize, FeatureLabel<'static>)],
    tables: PackageGraph,
) -> Result<Visited, AllocError>
    requires tables { AreBuiltTables (workspace_text workspace.now) (settings_text P.holds settings.now) on.now (starts_text starts.now) tables }
    requires places { map place_view places.now ≡ spec.start_places (length (settings_text P.holds settings.now).targets) (starts_text starts.now) }
    ensures { IfOk result (λ built. IsBuiltFrom (workspace_text workspace.now) (settings_text P.holds settings.now) on.now (starts_text starts.now) built) }
{
    visit(alloc, tables, places)
}

/// Returns the visit of step `built` from `starts`, whose places are `places`: `on` is the visit of step `on`, and `ids` has at least
/// one id for each package in each place. An allocation's failure is the only error.
pub(crate) fn built_step<P: Platform>(
    alloc: Global,
    ids: &Ids,
    workspace: &Workspace<'_>,
    settings: &Settings<'_, '_, P>,
    on: &PackageVisit,
    starts: &Starts,
    places: &[(usize, FeatureLabel<'static>)],
) -> Result<Visited, AllocError>
    requires room { length (workspace_text workspace.now).packages + length settings.now.targets.now * length (workspace_text workspace.now).packages ≤ ids.now }
    requires places { map place_view places.now ≡ spec.start_places (length (settings_text P.holds settings.now).targets) (starts_text starts.now) }
    ensures { IfOk result (λ built. IsBuiltFrom (workspace_text workspace.now) (settings_text P.holds settings.now) on.now (starts_text starts.now) built) }
{
    let tables = tables(alloc, ids, workspace, settings, on, starts)?;
    visited(alloc, workspace, settings, on, starts, places, tables)
}
