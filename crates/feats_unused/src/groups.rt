//! The packages to which declarations lead, by names, the features that packages are asked for, and sets of texts.
ghost use Rattle.std.specs.Prelude.{◌≡◌, ◌++◌, ◌∷◌, [], ℕ, IfOk, OnOk, List, map, nat_eq, if◌then◌else◌};
ghost use Rattle.std.specs.Str.{bytes_eq};
ghost use Rattle.cargo_workspaces.specs.Views.{declaration_text, texts};
ghost use Rattle.cargo_workspaces.specs.Workspaces.{Text};
ghost use Rattle.feats_unused.specs.Requests.{lead_of};
ghost use Rattle.feats_unused.specs.Views.{request_text};
ghost use Rattle.feats_unused.specs.inner.Groups.{HasAsked, HasLeads, HasTexts, group_at, named};

use crate::requests::Request;
use cargo_workspaces::Declaration;
use std::alloc::{AllocError, Global};
use std::collections::{BTreeMap, BTreeSet};

/// Appends `number` to the group of `name`.
fn add_name<'w>(
    names: &mut BTreeMap<&'w str, Vec<usize>>,
    name: &'w str,
    number: usize,
) -> Result<(), AllocError>
    ensures { OnOk result ((q : Text) → named names.new q ≡ named names.old q ++ (if bytes_eq q name.now then number ∷ [] else [])) }
{
    names.entry(name)?.or_default().push(number)?;
    Ok(())
}

/// Appends the package to which `declaration` leads to the group of its name.
fn add_lead<'w>(
    names: &mut BTreeMap<&'w str, Vec<usize>>,
    declaration: &Declaration<'w>,
) -> Result<(), AllocError>
    ensures { OnOk result ((q : Text) → named names.new q ≡ named names.old q ++ lead_of q (declaration_text declaration.now)) }
{
    if let Some(to) = declaration.leads_to {
        add_name(names, declaration.name, to)?;
    }
    Ok(())
}

/// Returns the packages to which `declarations` lead, by their names.
pub(crate) fn leads_by_name<'w>(
    alloc: Global,
    declarations: &[Declaration<'w>],
) -> Result<BTreeMap<&'w str, Vec<usize>>, AllocError>
    ensures { IfOk result (λ names. HasLeads names (map declaration_text declarations.now)) }
{
    let mut names = BTreeMap::new(alloc);
    for declaration in declarations {
        add_lead(&mut names, declaration)?;
    }
    Ok(names)
}

/// Returns the packages to which declarations of the dependency `name` lead.
pub(crate) fn leads_of<'m>(names: &'m BTreeMap<&str, Vec<usize>>, name: &str) -> &'m [usize]
    ensures { result.now ≡ named names.now name.now }
{
    match names.get(name) {
        Some(leads) => leads.as_slice(),
        None => &[],
    }
}

/// Appends `row` to the group of `key`.
fn add<T: Copy + Drop>(
    groups: &mut BTreeMap<usize, Vec<T>>,
    key: usize,
    row: T,
) -> Result<(), AllocError>
    ensures { OnOk result ((q : ℕ) → group_at groups.new q ≡ group_at groups.old q ++ (if nat_eq q key then row ∷ [] else [])) }
{
    groups.entry(key)?.or_default().push(row)?;
    Ok(())
}

/// Returns the group of `key`; it is empty if nothing was added to it.
pub(crate) fn group_of<T: Drop>(groups: &BTreeMap<usize, Vec<T>>, key: usize) -> &[T]
    ensures { result.now ≡ group_at groups.now key }
{
    match groups.get(&key) {
        Some(group) => group.as_slice(),
        None => &[],
    }
}

/// Returns the features that packages are asked for, by their numbers.
pub(crate) fn asked_by_package<'w>(
    alloc: Global,
    requests: &[Request<'w>],
) -> Result<BTreeMap<usize, Vec<&'w str>>, AllocError>
    ensures { IfOk result (λ groups. HasAsked groups (map request_text requests.now)) }
{
    let mut groups = BTreeMap::new(alloc);
    for request in requests {
        add(&mut groups, request.to, request.feature)?;
    }
    Ok(groups)
}

/// Inserts `name` into `set`.
fn insert_one<'w>(set: &mut BTreeSet<&'w str>, name: &'w str) -> Result<(), AllocError>
    ensures { OnOk result ((names : List Text) → HasTexts set.old names → HasTexts set.new (names ++ name.entry.now ∷ [])) }
{
    let _is_new = set.insert(name)?;
    Ok(())
}

/// Returns the set of `names`.
pub(crate) fn set_of<'w>(alloc: Global, names: &[&'w str]) -> Result<BTreeSet<&'w str>, AllocError>
    ensures { IfOk result (λ set. HasTexts set (texts names.now)) }
{
    let mut set = BTreeSet::new(alloc);
    for &name in names {
        insert_one(&mut set, name)?;
    }
    Ok(set)
}
