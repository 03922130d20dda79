//! Packages by their numbers.
ghost use Rattle.std.specs.Prelude.{◌≡◌, IfOk, map, option_map, zip};
ghost use Rattle.std.specs.List.Sorted.{IsStrictlySortedBy};
ghost use Rattle.cargo_workspaces.specs.Views.{declaration_text, package_text};
ghost use Rattle.cargo_workspaces.specs.Workspaces.{text_cmp};
ghost use Rattle.workspace_documents.specs.Views.{text_view, entries_view};
ghost use Rattle.workspace_documents.specs.Views as read;
ghost use Rattle.workspace_documents.specs.LeadViews.{lead_view, leads_view};
ghost use Rattle.feats_plans.specs.numbered_workspaces.Numbers as spec;

use cargo_workspaces::{Declaration, Package};
use std::alloc::{AllocError, Global};
use workspace_documents::{
    Declaration as ReadDeclaration, Leads, Package as ReadPackage, Packages, name_of,
};

/// Returns the number of the package `id`, which is its place in `ids`. Returns the number of `ids` if it isn't one of them.
fn number_of(ids: &[&str], id: &str) -> usize
    requires { IsStrictlySortedBy text_cmp (map text_view ids.now) }
    ensures { result ≡ spec.number_of (map text_view ids.now) id.now }
{
    match ids.binary_search(&id) {
        Ok(number) => number,
        Err(_) => ids.len(),
    }
}

/// Returns the number of the package `id` if there is an id.
pub(crate) fn number_if_any(ids: &[&str], id: Option<&str>) -> Option<usize>
    requires { IsStrictlySortedBy text_cmp (map text_view ids.now) }
    ensures { result ≡ option_map (spec.number_of (map text_view ids.now)) (lead_view id.entry) }
{
    match id {
        Some(id) => Some(number_of(ids, id)),
        None => None,
    }
}

/// Returns the numbers of the packages `named`, in their order. The only error is out of memory.
pub(crate) fn numbers_of(
    alloc: Global,
    ids: &[&str],
    named: &[&str],
) -> Result<Vec<usize>, AllocError>
    requires { IsStrictlySortedBy text_cmp (map text_view ids.now) }
    ensures { IfOk result (λ numbers. numbers.items ≡ map (spec.number_of (map text_view ids.now)) (map text_view named.now)) }
{
    let mut numbers = Vec::with_capacity(alloc, named.len())?;
    for id in named {
        numbers.push(number_of(ids, id))?;
    }
    Ok(numbers)
}

/// Returns `declaration` with the number of the package `lead` that it leads to.
fn numbered_declaration<'v>(
    ids: &[&str],
    declaration: ReadDeclaration<'v>,
    lead: Option<&str>,
) -> Declaration<'v>
    requires { IsStrictlySortedBy text_cmp (map text_view ids.now) }
    ensures { declaration_text result ≡ spec.numbered_declaration (map text_view ids.now) (read.declaration_view declaration.entry, lead_view lead.entry) }
{
    Declaration {
        name: name_of(&declaration),
        kind: declaration.kind,
        optional: declaration.is_optional,
        platform: declaration.platform,
        default_features: declaration.has_default_features,
        features: declaration.features,
        leads_to: number_if_any(ids, lead),
    }
}

/// Returns each of `declarations` with the number of the package that it leads to. The only error is out of memory.
fn numbered_declarations<'v>(
    alloc: Global,
    ids: &[&str],
    declarations: Vec<ReadDeclaration<'v>>,
    leads: &[Option<&str>],
) -> Result<Vec<Declaration<'v>>, AllocError>
    requires { IsStrictlySortedBy text_cmp (map text_view ids.now) }
    ensures { IfOk result (λ numbered. map declaration_text numbered.items ≡ map (spec.numbered_declaration (map text_view ids.now)) (zip (map read.declaration_view declarations.entry.items) (map lead_view leads.now))) }
{
    let mut numbered = Vec::with_capacity(alloc, declarations.len())?;
    for (declaration, lead) in declarations.into_iter().zip(leads) {
        numbered.push(numbered_declaration(ids, declaration, *lead))?;
    }
    Ok(numbered)
}

/// Returns `package` with its declarations numbered. The only error is out of memory.
fn numbered_package<'v>(
    alloc: Global,
    ids: &[&str],
    package: ReadPackage<'v>,
    leads: &[Option<&str>],
) -> Result<Package<'v>, AllocError>
    requires { IsStrictlySortedBy text_cmp (map text_view ids.now) }
    ensures { IfOk result (λ numbered. package_text numbered ≡ spec.numbered_package (map text_view ids.now) (read.package_view «package».entry) (map lead_view leads.now)) }
{
    Ok(Package {
        id: package.id,
        name: package.name,
        version: package.version,
        source: package.source,
        features: package.features,
        targets: package.targets,
        declarations: numbered_declarations(alloc, ids, package.declarations, leads)?,
    })
}

/// Returns `packages` with their declarations numbered; `leads` is where they lead. The only error is out of memory.
pub(crate) fn numbered_packages<'v>(
    alloc: Global,
    ids: &[&str],
    packages: Packages<'v>,
    leads: &[Leads<'_>],
) -> Result<Vec<Package<'v>>, AllocError>
    requires { IsStrictlySortedBy text_cmp (map text_view ids.now) }
    ensures { IfOk result (λ numbered. map package_text numbered.items ≡ spec.numbered_packages (map text_view ids.now) (entries_view read.package_view packages.entry.entries) (map leads_view leads.now)) }
{
    let mut numbered = Vec::with_capacity(alloc, packages.len())?;
    for ((_, package), leads) in packages.into_iter().zip(leads) {
        numbered.push(numbered_package(alloc, ids, package, &leads.targets)?)?;
    }
    Ok(numbered)
}

/// Returns the ids of `packages`, in their order. The only error is out of memory.
pub(crate) fn ids_of<'v>(alloc: Global, packages: &Packages<'v>) -> Result<Vec<&'v str>, AllocError>
    ensures { IfOk result (λ ids. map text_view ids.items ≡ spec.ids_of (entries_view read.package_view packages.now.entries)) }
{
    let mut ids = Vec::with_capacity(alloc, packages.len())?;
    for (id, _) in packages {
        ids.push(*id)?;
    }
    Ok(ids)
}
