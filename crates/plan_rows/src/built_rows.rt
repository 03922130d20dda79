//! The rows of step `built`: what is built.
ghost use Rattle.std.specs.Prelude.{◌≡◌, ◌+◌, ◌*◌, ◌<◌, ◌≤◌, ◌^◌, ◌++◌, true, IfOk, OnOk, IsTrue, length, map};
ghost use Rattle.std.specs.List.{list_all, AllByRecursion};
ghost use Rattle.guppy_packages.specs.Rows.{row_text};
ghost use Rattle.cargo_workspaces.specs.Views.{declaration_text, package_text};
ghost use Rattle.cargo_workspaces.specs.WorkspaceView.{workspace_text};
ghost use Rattle.cargo_workspaces.specs.Workspaces.{IsPackage, is_within, has_script};
ghost use Rattle.plan_rows.specs.SettingsView.{settings_text};
ghost use Rattle.plan_rows.specs.StepRowsView.{row_texts};
ghost use Rattle.plan_rows.specs.Steps as steps;
ghost use Rattle.plan_rows.specs.Tables.{entry_rows, flag_at, rows_from, rows_of};

use crate::ids::Ids;
use crate::on_rows::macros_of;
use crate::pushing::{push_dependencies, push_package};
use crate::rules::{admits, flag_of, host_side};
use crate::settings::{Platform, Settings, TurnedOn};
use crate::side::Side;
use crate::step_rows::StepRows;
use cargo_workspaces::{Declaration, Kind, Package, Workspace};
use guppy_packages::Row;
use std::alloc::{AllocError, Global};

/// The rules by which declarations are used in step `built`.
#[derive(Drop)]
struct BuildRules<'r, 'n, 'c, P, T> {
    settings: &'r Settings<'n, 'c, P>,
    turned_on: &'r T,
    /// A flag for each entry, by its number: true if it is started with its dependencies for development.
    with_dev: &'r [bool],
    /// A flag for each package: true if it is a procedural macro.
    macros: &'r [bool],
}

/// A place in which packages are built.
#[derive(Drop)]
struct Place<'r, P> {
    /// The number of the place's first entry.
    base: usize,
    side: Side,
    platform: &'r P,
}

/// Returns whether `declaration` of package `ix` is used in `place`: `script` is whether the package has a build script.
fn used<P: Platform, T: TurnedOn>(
    rules: &BuildRules<'_, '_, '_, P, T>,
    place: &Place<'_, P>,
    script: bool,
    ix: usize,
    declaration: &Declaration<'_>,
) -> bool
    requires { place.now.base + ix < 2 ^ 64 }
    ensures { result ≡ steps.used (settings_text P.holds rules.now.settings.now) (T.turned_on rules.now.turned_on.now place.now.side) (flag_at rules.now.with_dev.now) place.now.base (P.holds place.now.platform.now) script ix (declaration_text declaration.now) }
{
    let is_build = declaration.kind == Kind::Build;
    (declaration.kind != Kind::Development || flag_of(rules.with_dev, place.base + ix))
        && (!is_build || script)
        && (!declaration.optional || rules.turned_on.is_on(place.side, ix, declaration.name))
        && if is_build {
            admits(rules.settings.host, declaration.platform)
        } else {
            admits(place.platform, declaration.platform)
        }
}

/// Returns the number of the first entry of the place that `declaration` leads to: `is_macro` is whether it leads to a procedural
/// macro.
fn place_to(base: usize, declaration: &Declaration<'_>, is_macro: bool) -> usize
    ensures place { result ≡ steps.place_to base (declaration_text declaration.now) is_macro }
    ensures before { result ≤ base }
{
    if declaration.kind == Kind::Build || is_macro {
        0
    } else {
        base
    }
}

/// Returns the entry that `declaration` of package `ix` leads to, if it is used in `place` and leads to a package.
fn lead<P: Platform, T: TurnedOn>(
    rules: &BuildRules<'_, '_, '_, P, T>,
    place: &Place<'_, P>,
    script: bool,
    ix: usize,
    declaration: &Declaration<'_>,
) -> Option<usize>
    requires within { IsTrue (is_within (length rules.now.macros.now) declaration.now.leads_to) }
    requires ix { ix < length rules.now.macros.now }
    requires room { place.now.base + length rules.now.macros.now < 2 ^ 64 }
    ensures lead { result ≡ steps.lead_by (steps.built_lead rules.now.macros.now (settings_text P.holds rules.now.settings.now) (T.turned_on rules.now.turned_on.now place.now.side) (flag_at rules.now.with_dev.now) place.now.base (P.holds place.now.platform.now) script ix) (declaration_text declaration.now) }
    ensures within { IsTrue (is_within (place.now.base + length rules.now.macros.now) result) }
{
    let to = declaration.leads_to?;
    if !used(rules, place, script, ix, declaration) {
        return None;
    }
    Some(place_to(place.base, declaration, flag_of(rules.macros, to)) + to)
}

/// Returns the entry that each of the declarations of package `ix` leads to, if it is used in `place` and leads to a package.
fn leads_of<P: Platform, T: TurnedOn>(
    alloc: Global,
    rules: &BuildRules<'_, '_, '_, P, T>,
    place: &Place<'_, P>,
    script: bool,
    ix: usize,
    declarations: &[Declaration<'_>],
) -> Result<Vec<Option<usize>>, AllocError>
    requires within { IsTrue (list_all (λ d. is_within (length rules.now.macros.now) d.leads_to) (map declaration_text declarations.now)) }
    requires ix { ix < length rules.now.macros.now }
    requires room { place.now.base + length rules.now.macros.now < 2 ^ 64 }
    ensures leads { IfOk result (λ leads. leads.items ≡ map (steps.lead_by (steps.built_lead rules.now.macros.now (settings_text P.holds rules.now.settings.now) (T.turned_on rules.now.turned_on.now place.now.side) (flag_at rules.now.with_dev.now) place.now.base (P.holds place.now.platform.now) script ix)) (map declaration_text declarations.now)) }
    ensures within { IfOk result (λ leads. IsTrue (list_all (is_within (place.now.base + length rules.now.macros.now)) leads.items)) }
{
    let mut leads = Vec::with_capacity(alloc, declarations.len())?;
    for declaration in declarations {
        leads.push(lead(rules, place, script, ix, declaration))?;
    }
    Ok(leads)
}

/// Appends the rows of the entry of package `ix` in `place`.
fn push_entry<'n, P: Platform, T: TurnedOn>(
    alloc: Global,
    rows: &mut Vec<Row<'n>>,
    ids: &'n Ids,
    rules: &BuildRules<'_, '_, '_, P, T>,
    place: &Place<'_, P>,
    ix: usize,
    package: &'n Package<'_>,
) -> Result<(), AllocError>
    requires within { IsTrue (list_all (λ d. is_within (length rules.now.macros.now) d.leads_to) (package_text «package».now).declarations) }
    requires room { place.now.base + length rules.now.macros.now ≤ ids.now }
    requires limit { place.now.base + length rules.now.macros.now < 2 ^ 64 }
    requires ix { ix < length rules.now.macros.now }
    ensures { OnOk result (map row_text rows.new.items ≡ map row_text rows.old.items ++ entry_rows (place.now.base + ix) (steps.built_entry rules.now.macros.now (settings_text P.holds rules.now.settings.now) (T.turned_on rules.now.turned_on.now place.now.side) (flag_at rules.now.with_dev.now) place.now.base (P.holds place.now.platform.now) ix (package_text «package».now))) }
{
    let leads = leads_of(
        alloc,
        rules,
        place,
        package.has_script(),
        ix,
        &package.declarations,
    )?;
    push_package(rows, ids, place.base + ix)?;
    push_dependencies(rows, ids, &package.declarations, &leads, true)
}

/// Appends the rows of the entries of all packages in `place`.
fn push_place<'n, P: Platform, T: TurnedOn>(
    alloc: Global,
    rows: &mut Vec<Row<'n>>,
    ids: &'n Ids,
    packages: &'n [Package<'_>],
    rules: &BuildRules<'_, '_, '_, P, T>,
    place: &Place<'_, P>,
) -> Result<(), AllocError>
    requires packages { AllByRecursion (IsPackage (length packages.now)) (map package_text packages.now) }
    requires macros { rules.now.macros.now ≡ steps.macros_of (map package_text packages.now) }
    requires room { place.now.base + length packages.now ≤ ids.now }
    requires limit { place.now.base + length packages.now < 2 ^ 64 }
    ensures { OnOk result (map row_text rows.new.items ≡ map row_text rows.old.items ++ rows_from place.now.base (steps.built_place (map package_text packages.now) (settings_text P.holds rules.now.settings.now) (T.turned_on rules.now.turned_on.now place.now.side) (flag_at rules.now.with_dev.now) place.now.base (P.holds place.now.platform.now))) }
{
    for (ix, package) in packages.iter().enumerate() {
        push_entry(alloc, rows, ids, rules, place, ix, package)?;
    }
    Ok(())
}

/// Appends the rows of the entries of all packages on each of `targets`, the first of which begins at `base`.
fn push_targets<'n, P: Platform, T: TurnedOn>(
    alloc: Global,
    rows: &mut Vec<Row<'n>>,
    ids: &'n Ids,
    packages: &'n [Package<'_>],
    rules: &BuildRules<'_, '_, '_, P, T>,
    base: usize,
    targets: &[P],
) -> Result<(), AllocError>
    requires packages { AllByRecursion (IsPackage (length packages.now)) (map package_text packages.now) }
    requires macros { rules.now.macros.now ≡ steps.macros_of (map package_text packages.now) }
    requires room { base + length targets.now * length packages.now ≤ ids.now }
    requires limit { ids.now < 2 ^ 64 }
    ensures { OnOk result (map row_text rows.new.items ≡ map row_text rows.old.items ++ rows_from base (steps.built_from (map package_text packages.now) (settings_text P.holds rules.now.settings.now) (T.turned_on rules.now.turned_on.now) (flag_at rules.now.with_dev.now) base (map P.holds targets.now))) }
{
    let mut next = base;
    for platform in targets {
        let place = Place {
            base: next,
            side: Side::Target,
            platform,
        };
        push_place(alloc, rows, ids, packages, rules, &place)?;
        next += packages.len();
    }
    Ok(())
}

/// Appends the rows of the entries of all packages in all places.
fn push_places<'n, P: Platform, T: TurnedOn>(
    alloc: Global,
    rows: &mut Vec<Row<'n>>,
    ids: &'n Ids,
    packages: &'n [Package<'_>],
    rules: &BuildRules<'_, '_, '_, P, T>,
) -> Result<(), AllocError>
    requires packages { AllByRecursion (IsPackage (length packages.now)) (map package_text packages.now) }
    requires macros { rules.now.macros.now ≡ steps.macros_of (map package_text packages.now) }
    requires room { length packages.now + length rules.now.settings.now.targets.now * length packages.now ≤ ids.now }
    requires limit { ids.now < 2 ^ 64 }
    ensures { OnOk result (map row_text rows.new.items ≡ map row_text rows.old.items ++ rows_of (steps.built_place (map package_text packages.now) (settings_text P.holds rules.now.settings.now) (T.turned_on rules.now.turned_on.now (steps.side_of rules.now.settings.now.split true)) (flag_at rules.now.with_dev.now) 0 (P.holds rules.now.settings.now.host.now) ++ steps.built_from (map package_text packages.now) (settings_text P.holds rules.now.settings.now) (T.turned_on rules.now.turned_on.now) (flag_at rules.now.with_dev.now) (length packages.now) (map P.holds rules.now.settings.now.targets.now))) }
{
    let settings = rules.settings;
    let host = Place {
        base: 0,
        side: host_side(settings.split),
        platform: settings.host,
    };
    push_place(alloc, rows, ids, packages, rules, &host)?;
    push_targets(
        alloc,
        rows,
        ids,
        packages,
        rules,
        packages.len(),
        settings.targets,
    )
}

/// Returns the rows of step `built` for `workspace`: `ids` has at least one id for each package in each place. `with_dev` is, by
/// the number of an entry, whether it is started with its dependencies for development.
pub fn rows_built<'n, P: Platform, T: TurnedOn>(
    alloc: Global,
    ids: &'n Ids,
    workspace: &'n Workspace<'_>,
    settings: &Settings<'_, '_, P>,
    turned_on: &T,
    with_dev: &[bool],
) -> Result<StepRows<'n>, AllocError>
    requires { length (workspace_text workspace.now).packages + length settings.now.targets.now * length (workspace_text workspace.now).packages ≤ ids.now }
    ensures { IfOk result (λ rows. row_texts rows ≡ rows_of (steps.built_entries (workspace_text workspace.now) (settings_text P.holds settings.now) (T.turned_on turned_on.now) (flag_at with_dev.now))) }
{
    // (calls named facts() carry the invariant into the proof)
    workspace.facts();
    let _limit = ids.count();
    let packages = workspace.packages();
    let macros = macros_of(alloc, packages)?;
    let rules = BuildRules {
        settings,
        turned_on,
        with_dev,
        macros: &macros,
    };
    let mut rows = Vec::new(alloc);
    push_places(alloc, &mut rows, ids, packages, &rules)?;
    Ok(StepRows::new(rows))
}
