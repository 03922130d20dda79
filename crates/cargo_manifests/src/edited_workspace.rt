//! The workspace after an edit.
ghost use Rattle.std.specs.Prelude.{◌≡◌, ◌++◌, IfOk, filter, if◌then◌else◌, map};
ghost use Rattle.cargo_workspaces.specs.Views.{declaration_text, package_text, texts};
ghost use Rattle.cargo_workspaces.specs.WorkspaceView.{workspace_text};
ghost use Rattle.cargo_manifests.specs.inherited.InheritanceView.{inheritance_text};
ghost use Rattle.cargo_manifests.specs.EditViews.{edit_text, place_text, without_text};
ghost use Rattle.cargo_manifests.specs.Edits as spec;

use crate::copies::{copy_of_declaration, declaration_with, package_with};
use crate::edits::{Edit, EditPlace, Without};
use crate::inherited::Inheritance;
use crate::sources::is_shared;
use cargo_workspaces::{Declaration, Package, Workspace};
use std::alloc::{AllocError, Global};

/// Returns those of `features` that aren't `name`.
fn others<'v>(alloc: Global, features: &[&'v str], name: &str) -> Result<Vec<&'v str>, AllocError>
    ensures { IfOk result (λ left. texts left.items ≡ filter (spec.is_other name.now) (texts features.now)) }
{
    let mut left = Vec::new(alloc);
    for feature in features {
        if name != *feature {
            left.push(*feature)?;
        }
    }
    Ok(left)
}

/// Returns what is left of `features`, which a declaration lists.
fn features_after<'v>(
    alloc: Global,
    without: Without<'_>,
    features: &[&'v str],
) -> Result<Vec<&'v str>, AllocError>
    ensures { IfOk result (λ left. texts left.items ≡ spec.features_after (without_text without.entry) (texts features.now)) }
{
    match without {
        Without::Defaults => Vec::from_slice(alloc, features),
        Without::Feature(name) => others(alloc, features, name),
    }
}

/// Returns whether a declaration still uses default features; `before` is whether it did so.
fn default_features_after(without: Without<'_>, before: bool) -> bool
    ensures { result ≡ spec.default_features_after (without_text without.entry) before }
{
    match without {
        Without::Defaults => false,
        Without::Feature(_) => before,
    }
}

/// Returns a copy of `declaration` without `without`.
fn edited_declaration<'v>(
    alloc: Global,
    without: Without<'_>,
    declaration: &Declaration<'v>,
) -> Result<Declaration<'v>, AllocError>
    ensures { IfOk result (λ edited. declaration_text edited ≡ spec.edited_declaration (without_text without.entry) (declaration_text declaration.now)) }
{
    let features = features_after(alloc, without, &declaration.features)?;
    let default_features = default_features_after(without, declaration.default_features);
    Ok(declaration_with(declaration, default_features, features))
}

/// Returns a copy of `declaration`, without `without` if `is_edited`.
fn declaration_after<'v>(
    alloc: Global,
    is_edited: bool,
    without: Without<'_>,
    declaration: &Declaration<'v>,
) -> Result<Declaration<'v>, AllocError>
    ensures { IfOk result (λ after. declaration_text after ≡ (if is_edited then spec.edited_declaration (without_text without.entry) (declaration_text declaration.now) else declaration_text declaration.now)) }
{
    if is_edited {
        edited_declaration(alloc, without, declaration)
    } else {
        copy_of_declaration(alloc, declaration)
    }
}

/// Returns whether the edit of `place` takes `without` out of declaration `number` of package `package`, which has the name `name`.
fn is_changed(
    inheritance: &Inheritance<'_>,
    place: EditPlace<'_>,
    without: Without<'_>,
    package: usize,
    number: usize,
    name: &str,
) -> bool
    ensures { result ≡ spec.is_changed_at (inheritance_text inheritance.now) (place_text place.entry) (without_text without.entry) «package» number name.now }
{
    match place {
        EditPlace::Declaration {
            package: edited,
            declaration,
        } => edited == package && declaration == number,
        EditPlace::TableEntry(entry) => {
            entry == name && is_shared(inheritance.own_entry(package, number), without)
        }
    }
}

/// Returns a copy of declaration `number` of package `package` after `edit`.
fn declaration_by<'v>(
    alloc: Global,
    inheritance: &Inheritance<'_>,
    edit: &Edit<'_>,
    package: usize,
    number: usize,
    declaration: &Declaration<'v>,
) -> Result<Declaration<'v>, AllocError>
    ensures { IfOk result (λ after. declaration_text after ≡ spec.declaration_after (inheritance_text inheritance.now) (edit_text edit.now) «package» number (declaration_text declaration.now)) }
{
    let changed = is_changed(
        inheritance,
        edit.place,
        edit.without,
        package,
        number,
        declaration.name,
    );
    declaration_after(alloc, changed, edit.without, declaration)
}

/// Returns copies of `declarations`, which are those of package `package`, after `edit`.
fn edited_declarations<'v>(
    alloc: Global,
    inheritance: &Inheritance<'_>,
    edit: &Edit<'_>,
    package: usize,
    declarations: &[Declaration<'v>],
) -> Result<Vec<Declaration<'v>>, AllocError>
    ensures { IfOk result (λ edited. map declaration_text edited.items ≡ spec.edited_declarations (inheritance_text inheritance.now) (edit_text edit.now) «package» (map declaration_text declarations.now)) }
{
    let mut edited = Vec::with_capacity(alloc, declarations.len())?;
    for (number, declaration) in declarations.iter().enumerate() {
        let after = declaration_by(alloc, inheritance, edit, package, number, declaration)?;
        edited.push(after)?;
    }
    Ok(edited)
}

/// Returns a copy of package `number` after `edit`.
fn edited_package<'v>(
    alloc: Global,
    inheritance: &Inheritance<'_>,
    edit: &Edit<'_>,
    number: usize,
    package: &Package<'v>,
) -> Result<Package<'v>, AllocError>
    ensures { IfOk result (λ edited. package_text edited ≡ spec.edited_package (inheritance_text inheritance.now) (edit_text edit.now) number (package_text «package».now)) }
{
    let declarations = edited_declarations(
        alloc,
        inheritance,
        edit,
        number,
        &package.declarations,
    )?;
    package_with(alloc, package, declarations)
}

/// Returns copies of `packages` after `edit`.
fn edited_packages<'v>(
    alloc: Global,
    inheritance: &Inheritance<'_>,
    edit: &Edit<'_>,
    packages: &[Package<'v>],
) -> Result<Vec<Package<'v>>, AllocError>
    ensures { IfOk result (λ edited. map package_text edited.items ≡ spec.edited_packages (inheritance_text inheritance.now) (edit_text edit.now) (map package_text packages.now)) }
{
    let mut edited = Vec::with_capacity(alloc, packages.len())?;
    for (number, package) in packages.iter().enumerate() {
        let after = edited_package(alloc, inheritance, edit, number, package)?;
        edited.push(after)?;
    }
    Ok(edited)
}

/// Returns the workspace of the document in which only those declarations are changed that `edit` changes, in all else a copy of
/// `workspace`. An allocation's failure is the only error.
pub fn edited<'v>(
    alloc: Global,
    workspace: &Workspace<'v>,
    inheritance: &Inheritance<'_>,
    edit: &Edit<'_>,
) -> Result<Workspace<'v>, AllocError>
    ensures { IfOk result (λ edited. workspace_text edited ≡ spec.edited_text (workspace_text workspace.now) (inheritance_text inheritance.now) (edit_text edit.now)) }
{
    // (calls named facts() carry the invariant into the proof)
    workspace.facts();
    let members = Vec::from_slice(alloc, workspace.members())?;
    let default_members = Vec::from_slice(alloc, workspace.default_members())?;
    let packages = edited_packages(alloc, inheritance, edit, workspace.packages())?;
    Ok(Workspace::new(packages, members, default_members, workspace.root()))
}
