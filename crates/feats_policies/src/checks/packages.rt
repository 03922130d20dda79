//! Packages that are built, and those that have one name.
ghost use Rattle.std.specs.Prelude.{◌≡◌, ◌++◌, ◌∷◌, [], IfOk, OnOk, filter, length, map, nat_lt, if◌then◌else◌};
ghost use Rattle.std.specs.Str.{bytes_eq};
ghost use Rattle.cargo_workspaces.specs.WorkspaceView.{workspace_text};
ghost use Rattle.cargo_workspaces.specs.Workspaces.{Text};
ghost use Rattle.plan_names.specs.Names.{of_package, whole};
ghost use Rattle.plan_names.specs.Views.{named_text};
ghost use Rattle.feats_policies.specs.checks.Found as spec;
ghost use Rattle.feats_policies.specs.checks.Views.{build_text};
ghost use Rattle.feats_policies.specs.checks.inner.Groups.{HasNames, builds_anywhere, named};

use crate::checks::build::Build;
use cargo_plans::Side;
use cargo_plans::built_parts::BuiltParts;
use cargo_workspaces::Workspace;
use plan_names::{Named, Part};
use std::alloc::{AllocError, Global};
use std::collections::BTreeMap;

/// Returns whether package `number` is built.
fn is_built(built: &BuiltParts<'_>, number: usize) -> bool
    ensures { result ≡ builds_anywhere built.now number }
{
    built.builds(Side::Target, number) || built.builds(Side::Host, number)
}

/// Returns those of the packages `numbers` that are in `built`.
fn among(alloc: Global, built: &BuiltParts<'_>, numbers: &[usize]) -> Result<Vec<usize>, AllocError>
    ensures { IfOk result (λ among. among.items ≡ filter (builds_anywhere built.now) numbers.now) }
{
    let mut among = Vec::new(alloc);
    for number in numbers {
        if is_built(built, *number) {
            among.push(*number)?;
        }
    }
    Ok(among)
}

/// Returns those of the packages `numbers` that are built.
pub(crate) fn built_among(
    alloc: Global,
    build: Build<'_, '_, '_, '_>,
    numbers: &[usize],
) -> Result<Vec<usize>, AllocError>
    ensures { IfOk result (λ among. among.items ≡ spec.built_among (build_text build.entry) numbers.now) }
{
    let built = BuiltParts::of_plan(alloc, build.split, build.plan)?;
    among(alloc, &built, numbers)
}

/// Returns the packages `numbers`, themselves.
pub(crate) fn wholes<'w>(alloc: Global, numbers: &[usize]) -> Result<Vec<Named<'w>>, AllocError>
    ensures { IfOk result (λ named. map named_text named.items ≡ map (λ p. of_package p whole) numbers.now) }
{
    let mut named = Vec::with_capacity(alloc, numbers.len())?;
    for number in numbers {
        named.push(Named {
            package: *number,
            part: Part::Package,
        })?;
    }
    Ok(named)
}

/// Returns the name of package `number`, or the empty text past the end.
fn name_at<'w>(workspace: &'w Workspace<'_>, number: usize) -> &'w str
    ensures { result.now ≡ spec.name_at (workspace_text workspace.now).packages number }
{
    match workspace.packages().get(number) {
        Some(package) => package.name,
        None => "",
    }
}

/// Appends `number` to the group of `name`.
fn add_name<'w>(
    names: &mut BTreeMap<&'w str, Vec<usize>>,
    name: &'w str,
    number: usize,
) -> Result<(), AllocError>
    ensures { OnOk result ((q : Text) → named names.new q ≡ named names.old q ++ (if bytes_eq q name.now then number ∷ [] else [])) }
{
    names.entry(name)?.or_default().push(number)?;
    Ok(())
}

/// Returns the packages `numbers`, by their names.
fn groups_of<'w>(
    alloc: Global,
    workspace: &'w Workspace<'_>,
    numbers: &[usize],
) -> Result<BTreeMap<&'w str, Vec<usize>>, AllocError>
    ensures { IfOk result (λ names. HasNames names (workspace_text workspace.now).packages numbers.now) }
{
    let mut names = BTreeMap::new(alloc);
    for number in numbers {
        add_name(&mut names, name_at(workspace, *number), *number)?;
    }
    Ok(names)
}

/// Returns whether the group of `name` has several packages.
fn has_several(names: &BTreeMap<&str, Vec<usize>>, name: &str) -> bool
    ensures { result ≡ nat_lt 1 (length (named names.now name.now)) }
{
    match names.get(name) {
        Some(numbers) => numbers.len() > 1,
        None => false,
    }
}

/// Returns those of the packages `numbers` whose names several of them have.
pub(crate) fn repeated(
    alloc: Global,
    workspace: &Workspace<'_>,
    numbers: &[usize],
) -> Result<Vec<usize>, AllocError>
    ensures { IfOk result (λ list. list.items ≡ spec.repeated (workspace_text workspace.now).packages numbers.now) }
{
    let names = groups_of(alloc, workspace, numbers)?;
    let mut list = Vec::new(alloc);
    for number in numbers {
        if has_several(&names, name_at(workspace, *number)) {
            list.push(*number)?;
        }
    }
    Ok(list)
}
