//! The features of a package in several plans together.
ghost use Rattle.std.specs.Prelude.{◌≡◌, ◌++◌, ◌∷◌, [], List, IfOk, OnOk, map, flat_map, if◌then◌else◌};
ghost use Rattle.cargo_workspaces.specs.Workspaces.{Text};
ghost use Rattle.cargo_workspaces.specs.Views.{package_text, texts};
ghost use Rattle.feats_duplicates.specs.Views.{member_unit_text};
ghost use Rattle.feats_duplicates.specs.Features as spec;
ghost use Rattle.feats_duplicates.specs.inner.Sets.{HasTexts};

use crate::member_units::MemberUnit;
use cargo_workspaces::Package;
use std::alloc::{AllocError, Global};
use std::collections::BTreeSet;

/// Returns whether `package` is from the registry that a manifest names by default.
pub fn is_from_default_registry(package: &Package<'_>) -> bool
    ensures { result ≡ spec.is_from_default_registry (package_text «package».now) }
{
    match package.source {
        Some(source) => source == "registry+https://github.com/rust-lang/crates.io-index",
        None => false,
    }
}

/// Inserts `name` into `set`.
fn insert_one<'w>(set: &mut BTreeSet<&'w str>, name: &'w str) -> Result<(), AllocError>
    ensures { OnOk result ((names : List Text) → HasTexts set.old names → HasTexts set.new (names ++ name.entry.now ∷ [])) }
{
    let _is_new = set.insert(name)?;
    Ok(())
}

/// Inserts `features` into `set`.
fn insert_all<'w>(set: &mut BTreeSet<&'w str>, features: &[&'w str]) -> Result<(), AllocError>
    ensures { OnOk result ((names : List Text) → HasTexts set.old names → HasTexts set.new (names ++ texts features.now)) }
{
    for &feature in features {
        insert_one(set, feature)?;
    }
    Ok(())
}

/// Returns the features of all `rows`.
fn features_of<'w>(
    alloc: Global,
    rows: &[MemberUnit<'_, 'w>],
) -> Result<BTreeSet<&'w str>, AllocError>
    ensures { IfOk result (λ set. HasTexts set (flat_map (λ r. r.unit.features) (map member_unit_text rows.now))) }
{
    let mut set = BTreeSet::new(alloc);
    for row in rows {
        insert_all(&mut set, &row.unit.features)?;
    }
    Ok(set)
}

/// Appends `name`, if `flag`.
fn push_name<'v>(names: &mut Vec<&'v str>, name: &'v str, flag: bool) -> Result<(), AllocError>
    ensures { OnOk result (texts names.new.items ≡ texts names.old.items ++ (if flag then name.now ∷ [] else [])) }
{
    if flag {
        names.push(name)?;
    }
    Ok(())
}

/// Returns the names of the features of `package` that `set` has.
fn names_in<'v>(
    alloc: Global,
    package: &Package<'v>,
    set: &BTreeSet<&str>,
) -> Result<Vec<&'v str>, AllocError>
    ensures { (some : List Text) → HasTexts set.now some → IfOk result (λ names. texts names.items ≡ spec.names_among (package_text «package».now) some) }
{
    let mut names = Vec::new(alloc);
    for feature in &package.features {
        push_name(&mut names, feature.name, set.contains(feature.name))?;
    }
    Ok(names)
}

/// Returns the names of the features of `package` that one of `rows` has, in the order of their bytes. An allocation's failure is the
/// only error.
pub fn joined_features<'v>(
    alloc: Global,
    package: &Package<'v>,
    rows: &[MemberUnit<'_, '_>],
) -> Result<Vec<&'v str>, AllocError>
    ensures { IfOk result (λ names. texts names.items ≡ spec.joined_features (package_text «package».now) (map member_unit_text rows.now)) }
{
    let set = features_of(alloc, rows)?;
    names_in(alloc, package, &set)
}
