//! The text that shows a plan.
ghost use Rattle.std.specs.Prelude.{◌≡◌, ◌++◌, ◌∷◌, [], IfOk, OnOk, map, option_map, filter_map};
ghost use Rattle.cargo_workspaces.specs.Views.{texts};
ghost use Rattle.cargo_workspaces.specs.WorkspaceView.{workspace_text};
ghost use Rattle.feats_lines.specs.Views.{shown_text};
ghost use Rattle.cargo_plans.specs.plan_units.UnitViews.{unit_text};
ghost use Rattle.feats_files.specs.FileViews.{file_text};
ghost use Rattle.feats_answers.specs.PlanTexts as spec;

use cargo_plans::{Place, Unit};
use cargo_workspaces::Workspace;
use feats_files::PlatformFile;
use feats_lines::{Shown, lines_of, objects_of};
use feats_words::Format;
use std::alloc::{AllocError, Global};

/// Returns the triples of `files`.
pub(crate) fn triples_of<'f>(
    alloc: Global,
    files: &[PlatformFile<'f>],
) -> Result<Vec<&'f str>, AllocError>
    ensures { IfOk result (λ names. texts names.items ≡ map (λ f. f.triple) (map file_text files.now)) }
{
    let mut names = Vec::with_capacity(alloc, files.len())?;
    for file in files {
        names.push(file.triple)?;
    }
    Ok(names)
}

/// Returns the names of the target platforms of `files`: a single one is `target`, and several have their triples.
pub(crate) fn target_names<'f>(
    alloc: Global,
    files: &[PlatformFile<'f>],
) -> Result<Vec<&'f str>, AllocError>
    ensures { IfOk result (λ names. texts names.items ≡ spec.target_names (map file_text files.now)) }
{
    match files {
        [] | [_] => {
            let mut names = Vec::with_capacity(alloc, 1)?;
            names.push("target")?;
            Ok(names)
        }
        [_, _, ..] => triples_of(alloc, files),
    }
}

/// Returns the name of `place`.
fn place_name<'n>(names: &[&'n str], place: Place) -> &'n str
    ensures { result.now ≡ spec.place_name (texts names.now) place }
{
    match place {
        Place::Host => "host",
        Place::Target(number) => match names.get(number) {
            Some(name) => *name,
            None => "",
        },
    }
}

/// Returns what is shown of `unit`.
fn shown_of<'u, 'v, 'w>(
    names: &[&'u str],
    workspace: &'u Workspace<'v>,
    unit: &'u Unit<'w>,
) -> Option<Shown<'u, 'v, 'w>>
    ensures { option_map shown_text result ≡ spec.shown_of (texts names.now) (workspace_text workspace.now).packages (unit_text unit.now) }
{
    match workspace.packages().get(unit.package) {
        Some(package) => Some(Shown {
            place: place_name(names, unit.place),
            package,
            features: &unit.features,
        }),
        None => None,
    }
}

/// Returns what is shown of `units`.
fn all_shown<'u, 'v, 'w>(
    alloc: Global,
    names: &[&'u str],
    workspace: &'u Workspace<'v>,
    units: &'u [Unit<'w>],
) -> Result<Vec<Shown<'u, 'v, 'w>>, AllocError>
    ensures { IfOk result (λ shown. map shown_text shown.items ≡ spec.all_shown (texts names.now) (workspace_text workspace.now).packages (map unit_text units.now)) }
{
    let mut shown = Vec::with_capacity(alloc, units.len())?;
    for unit in units {
        if let Some(one) = shown_of(names, workspace, unit) {
            shown.push(one)?;
        }
    }
    Ok(shown)
}

/// Returns the text of `shown`, which are packages of `workspace`.
fn text_in(
    alloc: Global,
    format: Format,
    workspace: &Workspace<'_>,
    shown: &[Shown<'_, '_, '_>],
) -> Result<Vec<u8>, AllocError>
    ensures { IfOk result (λ text. text.items ≡ spec.text_in format (workspace_text workspace.now).packages (map shown_text shown.now)) }
{
    match format {
        Format::Text => Ok(lines_of(alloc, workspace, shown)?.into_bytes()),
        Format::Json => objects_of(alloc, shown),
    }
}

/// Returns the text of `units`, for the target platforms of `files`.
pub(crate) fn text_of_units(
    alloc: Global,
    format: Format,
    files: &[PlatformFile<'_>],
    workspace: &Workspace<'_>,
    units: &[Unit<'_>],
) -> Result<Vec<u8>, AllocError>
    ensures { IfOk result (λ text. text.items ≡ spec.text_of_units format (map file_text files.now) (workspace_text workspace.now).packages (map unit_text units.now)) }
{
    let names = target_names(alloc, files)?;
    let shown = all_shown(alloc, &names, workspace, units)?;
    text_in(alloc, format, workspace, &shown)
}
