//! The edits of declarations.
ghost use Rattle.std.specs.Prelude.{◌≡◌, ◌++◌, ◌∷◌, [], IfOk, OnOk, if◌then◌else◌, flat_map, map, option_map, slice_get};
ghost use Rattle.cargo_workspaces.specs.Views.{declaration_text, package_text, texts};
ghost use Rattle.cargo_workspaces.specs.WorkspaceView.{workspace_text};
ghost use Rattle.cargo_manifests.specs.inherited.InheritanceView.{inheritance_text};
ghost use Rattle.cargo_manifests.specs.EditViews.{edit_text, place_text, without_text};
ghost use Rattle.cargo_manifests.specs.Edits as spec;
ghost use Rattle.cargo_manifests.specs.inner.Seen.{HasTexts};

use crate::edits::{Edit, EditPlace, Without};
use crate::inherited::Inheritance;
use crate::same_edits::each_once;
use crate::sources::{is_own, is_shared};
use cargo_workspaces::{Declaration, Package, Workspace};
use std::alloc::{AllocError, Global};
use std::collections::BTreeSet;

/// Appends `text` to `listed`, unless `seen`, which has the texts of `listed`, has it.
fn push_once<'v>(
    seen: &mut BTreeSet<&'v str>,
    listed: &mut Vec<&'v str>,
    text: &'v str,
) -> Result<(), AllocError>
    requires { HasTexts seen.now (texts listed.now.items) }
    ensures seen { OnOk result (HasTexts seen.new (texts listed.new.items)) }
    ensures listed { OnOk result (texts listed.new.items ≡ spec.with_text (texts listed.old.items) text.now) }
{
    if seen.insert(text)? {
        listed.push(text)?;
    }
    Ok(())
}

/// Returns `features`, each once.
fn once<'v>(alloc: Global, features: &[&'v str]) -> Result<Vec<&'v str>, AllocError>
    ensures { IfOk result (λ listed. texts listed.items ≡ spec.once (texts features.now)) }
{
    let mut seen = BTreeSet::new(alloc);
    let mut listed = Vec::new(alloc);
    for feature in features {
        push_once(&mut seen, &mut listed, feature)?;
    }
    Ok(listed)
}

/// Appends the default features, if `flag`.
fn push_defaults(parts: &mut Vec<Without<'_>>, flag: bool) -> Result<(), AllocError>
    ensures { OnOk result (map without_text parts.new.items ≡ map without_text parts.old.items ++ (if flag then spec.defaults ∷ [] else [])) }
{
    if flag {
        parts.push(Without::Defaults)?;
    }
    Ok(())
}

/// Appends each of `features`.
fn push_features<'v>(parts: &mut Vec<Without<'v>>, features: &[&'v str]) -> Result<(), AllocError>
    ensures { OnOk result (map without_text parts.new.items ≡ map without_text parts.old.items ++ map spec.feature (texts features.now)) }
{
    for feature in features {
        parts.push(Without::Feature(*feature))?;
    }
    Ok(())
}

/// Returns what edits take out of `declaration`: its default features, if it uses them, and then each feature that it lists.
fn parts_of<'v>(
    alloc: Global,
    declaration: &Declaration<'v>,
) -> Result<Vec<Without<'v>>, AllocError>
    ensures { IfOk result (λ parts. map without_text parts.items ≡ spec.parts_of (declaration_text declaration.now)) }
{
    let features = once(alloc, &declaration.features)?;
    let mut parts = Vec::new(alloc);
    push_defaults(&mut parts, declaration.default_features)?;
    push_features(&mut parts, &features)?;
    Ok(parts)
}

/// Returns what to edit to take `without` out of declaration `number` of package `package`, which has the name `name`.
fn place_of<'v>(
    inheritance: &Inheritance<'_>,
    package: usize,
    number: usize,
    name: &'v str,
    without: Without<'_>,
) -> Option<EditPlace<'v>>
    ensures { option_map place_text result ≡ spec.place_of (inheritance_text inheritance.now) «package» number name.entry.now (without_text without.entry) }
{
    let own = inheritance.own_entry(package, number);
    if is_own(inheritance.shared_entry(name), own, without) {
        return Some(EditPlace::Declaration {
            package,
            declaration: number,
        });
    }
    if is_shared(own, without) {
        return Some(EditPlace::TableEntry(name));
    }
    None
}

/// Appends the edit that takes `without` out of `place`, if there is one.
fn push_edit<'v>(
    edits: &mut Vec<Edit<'v>>,
    place: Option<EditPlace<'v>>,
    without: Without<'v>,
) -> Result<(), AllocError>
    ensures { OnOk result (map edit_text edits.new.items ≡ map edit_text edits.old.items ++ spec.edit_if (option_map place_text place.entry) (without_text without.entry)) }
{
    if let Some(place) = place {
        edits.push(Edit { place, without })?;
    }
    Ok(())
}

/// Appends the edits of declaration `number` of package `package`, which has the name `name`, by which `parts` are taken out.
fn push_parts<'v>(
    edits: &mut Vec<Edit<'v>>,
    inheritance: &Inheritance<'_>,
    package: usize,
    number: usize,
    name: &'v str,
    parts: &[Without<'v>],
) -> Result<(), AllocError>
    ensures { OnOk result (map edit_text edits.new.items ≡ map edit_text edits.old.items ++ flat_map (spec.edit_of (inheritance_text inheritance.now) «package» number name.entry.now) (map without_text parts.now)) }
{
    for part in parts {
        let place = place_of(inheritance, package, number, name, *part);
        push_edit(edits, place, *part)?;
    }
    Ok(())
}

/// Appends the edits of `declaration`, which has number `number` in package `package`.
fn push_declaration<'v>(
    alloc: Global,
    edits: &mut Vec<Edit<'v>>,
    inheritance: &Inheritance<'_>,
    package: usize,
    number: usize,
    declaration: &Declaration<'v>,
) -> Result<(), AllocError>
    ensures { OnOk result (map edit_text edits.new.items ≡ map edit_text edits.old.items ++ flat_map (spec.edit_of (inheritance_text inheritance.now) «package» number (declaration_text declaration.now).name) (spec.parts_of (declaration_text declaration.now))) }
{
    let parts = parts_of(alloc, declaration)?;
    push_parts(
        edits,
        inheritance,
        package,
        number,
        declaration.name,
        &parts,
    )
}

/// Appends the edits of `declarations`, which are those of package `package`.
fn push_declarations<'v>(
    alloc: Global,
    edits: &mut Vec<Edit<'v>>,
    inheritance: &Inheritance<'_>,
    package: usize,
    declarations: &[Declaration<'v>],
) -> Result<(), AllocError>
    ensures { OnOk result (map edit_text edits.new.items ≡ map edit_text edits.old.items ++ spec.edits_from (inheritance_text inheritance.now) «package» 0 (map declaration_text declarations.now)) }
{
    for (number, declaration) in declarations.iter().enumerate() {
        push_declaration(alloc, edits, inheritance, package, number, declaration)?;
    }
    Ok(())
}

/// Returns package `package` of `packages`, if there is one.
fn package_at<'u, 'v>(packages: &'u [Package<'v>], package: usize) -> Option<&'u Package<'v>>
    ensures { option_map (λ p. package_text p.now) result ≡ slice_get (map package_text packages.now) «package» }
{
    packages.get(package)
}

/// Appends the edits of package `package` of `packages`, if there is one.
fn push_package<'v>(
    alloc: Global,
    edits: &mut Vec<Edit<'v>>,
    inheritance: &Inheritance<'_>,
    packages: &[Package<'v>],
    package: usize,
) -> Result<(), AllocError>
    ensures { OnOk result (map edit_text edits.new.items ≡ map edit_text edits.old.items ++ spec.edits_at (inheritance_text inheritance.now) (map package_text packages.now) «package») }
{
    match package_at(packages, package) {
        Some(described) => push_declarations(
            alloc,
            edits,
            inheritance,
            package,
            &described.declarations,
        ),
        None => Ok(()),
    }
}

/// Returns the edits of the declarations of the packages with the numbers `packages`, package by package. For each declaration these are
/// the edit without default features, if it uses them, and one without each feature that it lists. If `inheritance` says that the
/// declaration inherits such a part, the edit is that of the entry in `[workspace.dependencies]`, listed once; if both have the part,
/// there is none. An allocation's failure is the only error.
pub fn edits_of<'v>(
    alloc: Global,
    workspace: &Workspace<'v>,
    inheritance: &Inheritance<'_>,
    packages: &[usize],
) -> Result<Vec<Edit<'v>>, AllocError>
    ensures { IfOk result (λ edits. map edit_text edits.items ≡ spec.edits_of (workspace_text workspace.now) (inheritance_text inheritance.now) packages.now) }
{
    let mut edits = Vec::new(alloc);
    for package in packages {
        push_package(
            alloc,
            &mut edits,
            inheritance,
            workspace.packages(),
            *package,
        )?;
    }
    each_once(alloc, &edits)
}
