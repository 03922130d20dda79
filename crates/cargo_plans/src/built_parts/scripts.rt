//! The build scripts that packages lack.
ghost use Rattle.std.specs.Prelude.{◌≡◌, ◌<◌, ◌&&◌, ℕ, None, Some, IfOk, OnOk, if◌then◌else◌, length, map, nat_eq};
ghost use Rattle.std.specs.List.{list_any};
ghost use Rattle.std.specs.Option.{option_or};
ghost use Rattle.cargo_workspaces.specs.Views.{declaration_text, package_text};
ghost use Rattle.cargo_workspaces.specs.WorkspaceView.{workspace_text};
ghost use Rattle.feature_labels.specs.Names.LabelName.{optional};
ghost use Rattle.plan_rows.specs.Steps.{admits};
ghost use Rattle.cargo_plans.specs.built_parts.BuiltViews.{is_built_in, script_in, slot_at};
ghost use Rattle.cargo_plans.specs.built_parts.Scripts as spec;

use crate::built_parts::built_parts::BuiltParts;
use crate::plan_steps::Side;
use cargo_workspaces::{Declaration, Kind, Package, Workspace};
use feature_labels::FeatureLabel;
use plan_rows::Platform;
use plan_rows::rules::admits;
use std::alloc::{AllocError, Global};

/// For each package, the first one that is built, lacks a build script, and declares it for builds.
pub struct LackingScripts {
    /// By the number of the package that is declared. None past the end.
    pub(crate) first: Vec<Option<usize>>,
}

impl Drop for LackingScripts {
    // Written out, so that a crate above calls it. A derived drop is proved in each crate that drops a value, with those of all fields.
    fn drop(self) {
        let LackingScripts { first: _first } = self;
    }
}

/// Appends None until `first` has a slot for `number`.
fn reach(first: &mut Vec<Option<usize>>, number: usize) -> Result<(), AllocError>
    ensures room { OnOk result (number < length first.new.items) }
    ensures same { OnOk result ((q : ℕ) → slot_at first.new.items q ≡ slot_at first.old.items q) }
{
    while first.len() <= number {
        first.push(None)?;
    }
    Ok(())
}

/// Notes package `ix` for package `number`, unless there is one.
fn note(first: &mut Vec<Option<usize>>, number: usize, ix: usize) -> Result<(), AllocError>
    ensures { OnOk result ((q : ℕ) → slot_at first.new.items q ≡ option_or (slot_at first.old.items q) (if nat_eq number q then Some ix else None)) }
{
    reach(first, number)?;
    if first[number].is_none() {
        first[number] = Some(ix);
    }
    Ok(())
}

/// Returns whether `declaration` counts for a build script of package `ix`, which is built on `side`.
fn is_for_script<P: Platform>(
    parts: &BuiltParts<'_>,
    host: &P,
    side: Side,
    ix: usize,
    declaration: &Declaration<'_>,
) -> bool
    ensures { result ≡ spec.is_for_script (P.holds host.now) (λ name. is_built_in parts.now side ix (optional name)) (declaration_text declaration.now) }
{
    declaration.kind == Kind::Build
        && (!declaration.optional
            || parts.is_built(side, ix, FeatureLabel::OptionalDependency(declaration.name)))
        && admits(host, declaration.platform)
}

/// Notes package `ix` for the package to which `declaration` leads, if there is one and `counts`.
fn note_declared(
    first: &mut Vec<Option<usize>>,
    ix: usize,
    counts: bool,
    declaration: &Declaration<'_>,
) -> Result<(), AllocError>
    ensures { OnOk result ((q : ℕ) → slot_at first.new.items q ≡ option_or (slot_at first.old.items q) (if counts && spec.is_towards q (declaration_text declaration.now) then Some ix else None)) }
{
    match declaration.leads_to {
        Some(number) if counts => note(first, number, ix),
        _ => Ok(()),
    }
}

/// Notes package `ix`, which is built on `side`, for each package that one of `declarations` would lead its build script to.
fn note_declarations<P: Platform>(
    first: &mut Vec<Option<usize>>,
    parts: &BuiltParts<'_>,
    host: &P,
    side: Side,
    ix: usize,
    declarations: &[Declaration<'_>],
) -> Result<(), AllocError>
    ensures { OnOk result ((q : ℕ) → slot_at first.new.items q ≡ option_or (slot_at first.old.items q)
        (if list_any (spec.wants_by (P.holds host.now) (λ name. is_built_in parts.now side ix (optional name)) q) (map declaration_text declarations.now) then Some ix else None)) }
{
    for declaration in declarations {
        let counts = is_for_script(parts, host, side, ix, declaration);
        note_declared(first, ix, counts, declaration)?;
    }
    Ok(())
}

/// Notes package `ix` for each package that its build script would use on `side`.
fn note_side<P: Platform>(
    first: &mut Vec<Option<usize>>,
    parts: &BuiltParts<'_>,
    host: &P,
    side: Side,
    ix: usize,
    package: &Package<'_>,
) -> Result<(), AllocError>
    ensures { OnOk result ((q : ℕ) → slot_at first.new.items q ≡ option_or (slot_at first.old.items q)
        (if spec.wants_on (is_built_in parts.now) (P.holds host.now) q side ix (package_text «package».now) then Some ix else None)) }
{
    if parts.is_built(side, ix, FeatureLabel::Base) {
        note_declarations(first, parts, host, side, ix, &package.declarations)
    } else {
        Ok(())
    }
}

/// Notes package `ix` for each package for which it lacks a build script.
fn note_package<P: Platform>(
    first: &mut Vec<Option<usize>>,
    parts: &BuiltParts<'_>,
    host: &P,
    ix: usize,
    package: &Package<'_>,
) -> Result<(), AllocError>
    ensures { OnOk result ((q : ℕ) → slot_at first.new.items q ≡ option_or (slot_at first.old.items q)
        (if spec.lacks_script (is_built_in parts.now) (P.holds host.now) q ix (package_text «package».now) then Some ix else None)) }
{
    if package.has_script() {
        return Ok(());
    }
    note_side(first, parts, host, Side::Target, ix, package)?;
    note_side(first, parts, host, Side::Host, ix, package)
}

impl LackingScripts {
    /// Returns the build scripts that packages of `workspace` lack, whose built parts are `parts`. An allocation's failure is the only
    /// error.
    pub fn of_parts<P: Platform>(
        alloc: Global,
        workspace: &Workspace<'_>,
        host: &P,
        parts: &BuiltParts<'_>,
    ) -> Result<LackingScripts, AllocError>
        ensures { IfOk result (λ scripts. (q : ℕ) → script_in scripts q ≡ spec.lacking_script (is_built_in parts.now) (P.holds host.now) (workspace_text workspace.now).packages q) }
    {
        let mut first = Vec::new(alloc);
        for (ix, package) in workspace.packages().iter().enumerate() {
            note_package(&mut first, parts, host, ix, package)?;
        }
        Ok(LackingScripts { first })
    }

    /// Returns the first package that lacks a build script for package `number`.
    pub fn of_package(&self, number: usize) -> Option<usize>
        ensures { result ≡ script_in self.now number }
    {
        match self.first.get(number) {
            Some(found) => *found,
            None => None,
        }
    }
}
