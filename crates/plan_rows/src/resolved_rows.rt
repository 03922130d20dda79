//! The rows of step `resolved`: which optional dependencies version resolving turns on.
ghost use Rattle.std.specs.Prelude.{◌≡◌, ◌+◌, ◌*◌, ◌<◌, ◌≤◌, ◌^◌, ◌++◌, ◌∷◌, [], ℕ, false, IfOk, OnOk, IsTrue, length, map, option_map};
ghost use Rattle.std.specs.List.{list_all, AllByRecursion};
ghost use Rattle.guppy_packages.specs.Rows.{row_text};
ghost use Rattle.cargo_workspaces.specs.Views.{declaration_text, package_text, texts};
ghost use Rattle.cargo_workspaces.specs.WorkspaceView.{workspace_text};
ghost use Rattle.cargo_workspaces.specs.Workspaces.{IsPackage, is_within};
ghost use Rattle.plan_rows.specs.Commands.{are_commands, command_of, command_texts};
ghost use Rattle.plan_rows.specs.Gates.{AreGated, gated_text, item_texts};
ghost use Rattle.plan_rows.specs.SettingsView.{settings_text};
ghost use Rattle.plan_rows.specs.StepRowsView.{row_texts};
ghost use Rattle.plan_rows.specs.Steps as steps;
ghost use Rattle.plan_rows.specs.Tables.{dependency_row, each_from, entry_rows, feature_row, rows_from, rows_of};
ghost use Rattle.plan_rows.specs.inner.Starts.{start};

use crate::gated_features::{GatedFeature, GatedFeatures, Items};
use crate::ids::Ids;
use crate::pushing::{push_lead, push_package};
use crate::rules::has_command;
use crate::settings::{Platform, Settings};
use crate::step_rows::StepRows;
use cargo_workspaces::{Declaration, Feature, Kind, Package, Workspace};
use guppy_packages::Row;
use std::alloc::{AllocError, Global};

/// Returns the package that `declaration` leads to, unless it is for the development of a package that isn't `started`.
fn lead(started: bool, declaration: &Declaration<'_>) -> Option<usize>
    ensures lead { result ≡ steps.lead_by (steps.resolved_lead started) (declaration_text declaration.now) }
    ensures within { (count : ℕ) → IsTrue (is_within count declaration.now.leads_to) → IsTrue (is_within count result) }
{
    let to = declaration.leads_to?;
    if started || declaration.kind != Kind::Development {
        Some(to)
    } else {
        None
    }
}

/// Appends the rows of the dependencies of a package: `started` is whether the package is started.
fn push_resolved<'n>(
    rows: &mut Vec<Row<'n>>,
    ids: &'n Ids,
    declarations: &'n [Declaration<'_>],
    started: bool,
) -> Result<(), AllocError>
    requires { IsTrue (list_all (λ d. is_within ids.now d.leads_to) (map declaration_text declarations.now)) }
    ensures { OnOk result (map row_text rows.new.items ≡ map row_text rows.old.items ++ map dependency_row (steps.dependencies_by false (steps.resolved_lead started) (map declaration_text declarations.now))) }
{
    for declaration in declarations {
        push_lead(rows, ids, declaration, lead(started, declaration), false)?;
    }
    Ok(())
}

/// Returns the texts of `items`.
fn texts_of<'i>(items: &'i Items<'_>) -> &'i [&'i str]
    ensures { texts result.now ≡ item_texts items.now }
{
    match items {
        Items::Own(items) => items,
        Items::Gated(items) => items.as_slice(),
    }
}

/// Appends the row of a feature.
fn push_gated<'n>(rows: &mut Vec<Row<'n>>, feature: &'n GatedFeature<'_>) -> Result<(), AllocError>
    ensures { OnOk result (map row_text rows.new.items ≡ map row_text rows.old.items ++ feature_row (gated_text feature.now) ∷ []) }
{
    rows.push(Row::Feature {
        name: feature.name,
        items: texts_of(&feature.items),
    })?;
    Ok(())
}

/// Appends the rows of features.
fn push_all_gated<'n>(
    rows: &mut Vec<Row<'n>>,
    features: &'n [GatedFeature<'_>],
) -> Result<(), AllocError>
    ensures { OnOk result (map row_text rows.new.items ≡ map row_text rows.old.items ++ map feature_row (map gated_text features.now)) }
{
    for feature in features {
        push_gated(rows, feature)?;
    }
    Ok(())
}

/// Appends the rows of entry `number`, which has `features`, `command` and the dependencies of `package`.
fn push_entry<'n>(
    rows: &mut Vec<Row<'n>>,
    ids: &'n Ids,
    number: usize,
    package: &'n Package<'_>,
    features: &'n [GatedFeature<'_>],
    command: &'n [GatedFeature<'_>],
    started: bool,
) -> Result<(), AllocError>
    requires number { number < ids.now }
    requires within { IsTrue (list_all (λ d. is_within ids.now d.leads_to) (package_text «package».now).declarations) }
    ensures { OnOk result (map row_text rows.new.items ≡ map row_text rows.old.items ++ entry_rows number (record {
      features = map gated_text features.now ++ map gated_text command.now;
      dependencies = steps.dependencies_by false (steps.resolved_lead started) (package_text «package».now).declarations;
    })) }
{
    push_package(rows, ids, number)?;
    push_all_gated(rows, features)?;
    push_all_gated(rows, command)?;
    push_resolved(rows, ids, &package.declarations, started)
}

/// Appends the rows of the entries of all packages as dependencies of others.
fn push_others<'n>(
    rows: &mut Vec<Row<'n>>,
    ids: &'n Ids,
    packages: &'n [Package<'_>],
    gated: &'n GatedFeatures<'_>,
) -> Result<(), AllocError>
    requires packages { AllByRecursion (IsPackage (length packages.now)) (map package_text packages.now) }
    requires room { 2 * length packages.now ≤ ids.now }
    requires gated { map (λ p. map gated_text p.items) gated.now.packages.items ≡ map (λ p. map steps.gated_feature p.features) (map package_text packages.now) }
    ensures { OnOk result (map row_text rows.new.items ≡ map row_text rows.old.items ++ rows_from 0 (each_from steps.other_entry 0 (map package_text packages.now))) }
{
    for (ix, package) in packages.iter().enumerate() {
        push_entry(rows, ids, ix, package, &gated.packages[ix], &[], false)?;
    }
    Ok(())
}

/// Appends the rows of entry `number`, which is empty unless `started`. `command` is the package's command feature.
fn push_start<'n>(
    rows: &mut Vec<Row<'n>>,
    ids: &'n Ids,
    number: usize,
    package: &'n Package<'_>,
    features: &'n [GatedFeature<'_>],
    command: Option<&'n Vec<GatedFeature<'_>>>,
    started: bool,
) -> Result<(), AllocError>
    requires number { number < ids.now }
    requires within { IsTrue (list_all (λ d. is_within ids.now d.leads_to) (package_text «package».now).declarations) }
    ensures { OnOk result (map row_text rows.new.items ≡ map row_text rows.old.items ++ entry_rows number (start started (map gated_text features.now) (option_map (λ c. map gated_text c.now.items) command.entry) (package_text «package».now))) }
{
    match command {
        Some(command) if started => {
            push_entry(rows, ids, number, package, features, command, true)
        }
        _ => push_package(rows, ids, number),
    }
}

/// Appends the rows of the entries of all packages as started ones.
fn push_starts<'n>(
    rows: &mut Vec<Row<'n>>,
    ids: &'n Ids,
    packages: &'n [Package<'_>],
    commands: &[Option<Feature<'_>>],
    gated: &'n GatedFeatures<'_>,
) -> Result<(), AllocError>
    requires packages { AllByRecursion (IsPackage (length packages.now)) (map package_text packages.now) }
    requires room { 2 * length packages.now ≤ ids.now }
    requires limit { 2 * length packages.now < 2 ^ 64 }
    requires gated { AreGated (map package_text packages.now) (command_texts commands.now) gated.now }
    ensures { OnOk result (map row_text rows.new.items ≡ map row_text rows.old.items ++ rows_from (length packages.now) (each_from (λ p x. steps.started_entry (command_of (command_texts commands.now) p) x) 0 (map package_text packages.now))) }
{
    for (ix, package) in packages.iter().enumerate() {
        let number = packages.len() + ix;
        let command = gated.commands.get(ix);
        let started = has_command(commands, ix);
        push_start(
            rows,
            ids,
            number,
            package,
            &gated.packages[ix],
            command,
            started,
        )?;
    }
    Ok(())
}

/// Appends the rows of all entries.
fn push_both<'n>(
    rows: &mut Vec<Row<'n>>,
    ids: &'n Ids,
    packages: &'n [Package<'_>],
    commands: &[Option<Feature<'_>>],
    gated: &'n GatedFeatures<'_>,
) -> Result<(), AllocError>
    requires packages { AllByRecursion (IsPackage (length packages.now)) (map package_text packages.now) }
    requires room { 2 * length packages.now ≤ ids.now }
    requires limit { 2 * length packages.now < 2 ^ 64 }
    requires gated { AreGated (map package_text packages.now) (command_texts commands.now) gated.now }
    ensures { OnOk result (map row_text rows.new.items ≡ map row_text rows.old.items ++ rows_of (each_from steps.other_entry 0 (map package_text packages.now) ++ each_from (λ p x. steps.started_entry (command_of (command_texts commands.now) p) x) 0 (map package_text packages.now))) }
{
    push_others(rows, ids, packages, gated)?;
    push_starts(rows, ids, packages, commands, gated)
}

/// Returns the rows of step `resolved` for `workspace`: `ids` has at least two ids a package, and `gated` has the features of
/// `workspace` and of the commands of `settings`.
pub fn rows_resolved<'n, P: Platform>(
    alloc: Global,
    ids: &'n Ids,
    workspace: &'n Workspace<'_>,
    settings: &Settings<'_, '_, P>,
    gated: &'n GatedFeatures<'_>,
) -> Result<StepRows<'n>, AllocError>
    requires room { 2 * length (workspace_text workspace.now).packages ≤ ids.now }
    requires commands { IsTrue (are_commands (command_texts settings.now.commands.now)) }
    requires gated { AreGated (workspace_text workspace.now).packages (command_texts settings.now.commands.now) gated.now }
    ensures { IfOk result (λ rows. row_texts rows ≡ rows_of (steps.resolved_entries (workspace_text workspace.now) (settings_text P.holds settings.now))) }
{
    // (calls named facts() carry the invariant into the proof)
    workspace.facts();
    let _limit = ids.count();
    let packages = workspace.packages();
    let mut rows = Vec::new(alloc);
    push_both(&mut rows, ids, packages, settings.commands, gated)?;
    Ok(StepRows::new(rows))
}
