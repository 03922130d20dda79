//! The rows of step `on`: which features are on.
ghost use Rattle.std.specs.Prelude.{◌≡◌, ◌+◌, ◌*◌, ◌<◌, ◌≤◌, ◌^◌, ◌++◌, ◌∷◌, [], IfOk, OnOk, IsTrue, length, map};
ghost use Rattle.std.specs.List.{list_all, AllByRecursion};
ghost use Rattle.guppy_packages.specs.Rows.{row_text};
ghost use Rattle.cargo_workspaces.specs.Views.{declaration_text, package_text};
ghost use Rattle.cargo_workspaces.specs.WorkspaceView.{workspace_text};
ghost use Rattle.cargo_workspaces.specs.Workspaces.{IsPackage, is_within};
ghost use Rattle.plan_rows.specs.Commands.{are_commands, command_of, command_texts};
ghost use Rattle.plan_rows.specs.SettingsView.{settings_text};
ghost use Rattle.plan_rows.specs.StepRowsView.{row_texts};
ghost use Rattle.plan_rows.specs.Steps as steps;
ghost use Rattle.plan_rows.specs.declared.side.Side.TheVariants.{Target};
ghost use Rattle.plan_rows.specs.Tables.{each_from, entry_rows, feature_row, rows_from, rows_of};

use crate::ids::Ids;
use crate::pushing::{push_command, push_dependencies, push_features, push_package};
use crate::rules::{applies_on, flag_of, has_command, lands};
use crate::settings::{Kept, Platform, Settings};
use crate::side::Side;
use crate::step_rows::StepRows;
use cargo_workspaces::{Declaration, Feature, Kind, Package, Workspace};
use guppy_packages::Row;
use std::alloc::{AllocError, Global};

/// The rules by which declarations count in step `on`.
#[derive(Drop)]
struct Rules<'r, 'n, 'c, P, K> {
    settings: &'r Settings<'n, 'c, P>,
    kept: &'r K,
    /// A flag for each package: true if it is a procedural macro.
    macros: &'r [bool],
}

/// Returns whether `declaration` of package `ix` counts on `side`.
fn admitted<P: Platform, K: Kept>(
    rules: &Rules<'_, '_, '_, P, K>,
    side: Side,
    ix: usize,
    declaration: &Declaration<'_>,
) -> bool
    ensures { result ≡ steps.admitted (settings_text P.holds rules.now.settings.now) (K.kept rules.now.kept.now) ix side (declaration_text declaration.now) }
{
    let settings = rules.settings;
    (!declaration.optional || rules.kept.is_kept(ix, declaration.name))
        && (declaration.kind != Kind::Development
            || has_command(settings.commands, ix)
                && (settings.choice.needs_development() || !settings.split))
        && (!settings.split || applies_on(settings.host, settings.targets, side, declaration))
}

/// Returns the entry that `declaration` of package `ix` leads to, if it counts on `side` and leads to a package.
fn lead<P: Platform, K: Kept>(
    rules: &Rules<'_, '_, '_, P, K>,
    side: Side,
    ix: usize,
    declaration: &Declaration<'_>,
) -> Option<usize>
    requires within { IsTrue (is_within (length rules.now.macros.now) declaration.now.leads_to) }
    requires room { 2 * length rules.now.macros.now < 2 ^ 64 }
    ensures lead { result ≡ steps.lead_by (steps.on_lead rules.now.macros.now (settings_text P.holds rules.now.settings.now) (K.kept rules.now.kept.now) side ix) (declaration_text declaration.now) }
    ensures within { IsTrue (is_within (2 * length rules.now.macros.now) result) }
{
    let to = declaration.leads_to?;
    if !admitted(rules, side, ix, declaration) {
        return None;
    }
    let landing = lands(
        rules.settings.split,
        declaration,
        flag_of(rules.macros, to),
        side,
    );
    Some(landing.base(rules.macros.len()) + to)
}

/// Returns the entry that each of the declarations of package `ix` leads to, if it counts on `side` and leads to a package.
fn leads_of<P: Platform, K: Kept>(
    alloc: Global,
    rules: &Rules<'_, '_, '_, P, K>,
    side: Side,
    ix: usize,
    declarations: &[Declaration<'_>],
) -> Result<Vec<Option<usize>>, AllocError>
    requires within { IsTrue (list_all (λ d. is_within (length rules.now.macros.now) d.leads_to) (map declaration_text declarations.now)) }
    requires room { 2 * length rules.now.macros.now < 2 ^ 64 }
    ensures leads { IfOk result (λ leads. leads.items ≡ map (steps.lead_by (steps.on_lead rules.now.macros.now (settings_text P.holds rules.now.settings.now) (K.kept rules.now.kept.now) side ix)) (map declaration_text declarations.now)) }
    ensures within { IfOk result (λ leads. IsTrue (list_all (is_within (2 * length rules.now.macros.now)) leads.items)) }
{
    let mut leads = Vec::with_capacity(alloc, declarations.len())?;
    for declaration in declarations {
        leads.push(lead(rules, side, ix, declaration))?;
    }
    Ok(leads)
}

/// Appends the row of the command feature of package `ix`, if it has one.
pub(crate) fn push_command_of<'n>(
    rows: &mut Vec<Row<'n>>,
    commands: &'n [Option<Feature<'_>>],
    ix: usize,
) -> Result<(), AllocError>
    ensures { OnOk result (map row_text rows.new.items ≡ map row_text rows.old.items ++ map feature_row (steps.command_list (command_of (command_texts commands.now) ix))) }
{
    match commands.get(ix) {
        Some(command) => push_command(rows, command),
        None => Ok(()),
    }
}

/// Appends the rows of the entry of package `ix` on `side`.
fn push_entry<'n, P: Platform, K: Kept>(
    alloc: Global,
    rows: &mut Vec<Row<'n>>,
    ids: &'n Ids,
    rules: &Rules<'_, 'n, '_, P, K>,
    side: Side,
    ix: usize,
    package: &'n Package<'_>,
) -> Result<(), AllocError>
    requires within { IsTrue (list_all (λ d. is_within (length rules.now.macros.now) d.leads_to) (package_text «package».now).declarations) }
    requires room { 2 * length rules.now.macros.now ≤ ids.now }
    requires limit { 2 * length rules.now.macros.now < 2 ^ 64 }
    requires ix { ix < length rules.now.macros.now }
    ensures { OnOk result (map row_text rows.new.items ≡ map row_text rows.old.items ++ entry_rows (steps.side_base (length rules.now.macros.now) side + ix) (steps.on_entry rules.now.macros.now (settings_text P.holds rules.now.settings.now) (K.kept rules.now.kept.now) side ix (package_text «package».now))) }
{
    let leads = leads_of(alloc, rules, side, ix, &package.declarations)?;
    push_package(rows, ids, side.base(rules.macros.len()) + ix)?;
    push_features(rows, &package.features)?;
    push_command_of(rows, rules.settings.commands, ix)?;
    push_dependencies(rows, ids, &package.declarations, &leads, false)
}

/// Appends the rows of the entries of all packages on `side`.
fn push_side<'n, P: Platform, K: Kept>(
    alloc: Global,
    rows: &mut Vec<Row<'n>>,
    ids: &'n Ids,
    packages: &'n [Package<'_>],
    rules: &Rules<'_, 'n, '_, P, K>,
    side: Side,
) -> Result<(), AllocError>
    requires packages { AllByRecursion (IsPackage (length packages.now)) (map package_text packages.now) }
    requires macros { rules.now.macros.now ≡ steps.macros_of (map package_text packages.now) }
    requires room { 2 * length packages.now ≤ ids.now }
    requires limit { 2 * length packages.now < 2 ^ 64 }
    ensures { OnOk result (map row_text rows.new.items ≡ map row_text rows.old.items ++ rows_from (steps.side_base (length packages.now) side) (each_from (steps.on_entry (steps.macros_of (map package_text packages.now)) (settings_text P.holds rules.now.settings.now) (K.kept rules.now.kept.now) side) 0 (map package_text packages.now))) }
{
    for (ix, package) in packages.iter().enumerate() {
        push_entry(alloc, rows, ids, rules, side, ix, package)?;
    }
    Ok(())
}

/// Returns whether each package is a procedural macro.
pub(crate) fn macros_of(alloc: Global, packages: &[Package<'_>]) -> Result<Vec<bool>, AllocError>
    ensures { IfOk result (λ macros. macros.items ≡ steps.macros_of (map package_text packages.now)) }
{
    let mut macros = Vec::with_capacity(alloc, packages.len())?;
    for package in packages {
        macros.push(package.is_proc_macro())?;
    }
    Ok(macros)
}

/// Appends the rows of the entries of all packages on the host side, if sides are told apart.
fn push_host<'n, P: Platform, K: Kept>(
    alloc: Global,
    rows: &mut Vec<Row<'n>>,
    ids: &'n Ids,
    packages: &'n [Package<'_>],
    rules: &Rules<'_, 'n, '_, P, K>,
) -> Result<(), AllocError>
    requires packages { AllByRecursion (IsPackage (length packages.now)) (map package_text packages.now) }
    requires macros { rules.now.macros.now ≡ steps.macros_of (map package_text packages.now) }
    requires room { 2 * length packages.now ≤ ids.now }
    requires limit { 2 * length packages.now < 2 ^ 64 }
    ensures { OnOk result (map row_text rows.new.items ≡ map row_text rows.old.items ++ rows_from (length packages.now) (steps.host_entries (map package_text packages.now) (settings_text P.holds rules.now.settings.now) (K.kept rules.now.kept.now))) }
{
    if rules.settings.split {
        push_side(alloc, rows, ids, packages, rules, Side::Host)
    } else {
        Ok(())
    }
}

/// Appends the rows of the entries of all packages on the sides.
fn push_sides<'n, P: Platform, K: Kept>(
    alloc: Global,
    rows: &mut Vec<Row<'n>>,
    ids: &'n Ids,
    packages: &'n [Package<'_>],
    rules: &Rules<'_, 'n, '_, P, K>,
) -> Result<(), AllocError>
    requires packages { AllByRecursion (IsPackage (length packages.now)) (map package_text packages.now) }
    requires macros { rules.now.macros.now ≡ steps.macros_of (map package_text packages.now) }
    requires room { 2 * length packages.now ≤ ids.now }
    requires limit { 2 * length packages.now < 2 ^ 64 }
    ensures { OnOk result (map row_text rows.new.items ≡ map row_text rows.old.items ++ rows_of (steps.on_side (map package_text packages.now) (settings_text P.holds rules.now.settings.now) (K.kept rules.now.kept.now) Target ++ steps.host_entries (map package_text packages.now) (settings_text P.holds rules.now.settings.now) (K.kept rules.now.kept.now))) }
{
    push_side(alloc, rows, ids, packages, rules, Side::Target)?;
    push_host(alloc, rows, ids, packages, rules)
}

/// Returns the rows of step `on` for `workspace`: `ids` has at least two ids a package.
pub fn rows_on<'n, P: Platform, K: Kept>(
    alloc: Global,
    ids: &'n Ids,
    workspace: &'n Workspace<'_>,
    settings: &Settings<'n, '_, P>,
    kept: &K,
) -> Result<StepRows<'n>, AllocError>
    requires room { 2 * length (workspace_text workspace.now).packages ≤ ids.now }
    requires commands { IsTrue (are_commands (command_texts settings.now.commands.now)) }
    ensures { IfOk result (λ rows. row_texts rows ≡ rows_of (steps.on_entries (workspace_text workspace.now) (settings_text P.holds settings.now) (K.kept kept.now))) }
{
    // (calls named facts() carry the invariant into the proof)
    workspace.facts();
    let _limit = ids.count();
    let packages = workspace.packages();
    let macros = macros_of(alloc, packages)?;
    let rules = Rules {
        settings,
        kept,
        macros: &macros,
    };
    let mut rows = Vec::new(alloc);
    push_sides(alloc, &mut rows, ids, packages, &rules)?;
    Ok(StepRows::new(rows))
}
