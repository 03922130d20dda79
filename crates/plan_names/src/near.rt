//! Names that are near to a word.
ghost use Rattle.std.specs.Prelude.{◌≡◌, OnOk, IsTrue, Bool, List, Some, map, slice_get};
ghost use Rattle.std.specs.List.{list_all};
ghost use Rattle.cargo_workspaces.specs.Views.{package_text};
ghost use Rattle.cargo_workspaces.specs.Workspaces.{PackageText};
ghost use Rattle.plan_names.specs.Names.{NamedText, dependency, of_package};
ghost use Rattle.plan_names.specs.Suggestions.{is_part};
ghost use Rattle.plan_names.specs.Views.{named_text};
ghost use Rattle.plan_names.specs.inner.Nears.{near_text};

use crate::named::{Named, Part};
use cargo_workspaces::{Declaration, Package};
use std::alloc::{AllocError, Global};
use strsim::levenshtein;

/// A part of a package whose name is near to a word.
#[derive(Clone, Copy)]
pub(crate) struct Near<'w> {
    pub(crate) name: &'w str,
    pub(crate) distance: usize,
    pub(crate) named: Named<'w>,
}

/// Returns the number of edits from `word` to `name`, if that is at most a third of the length of `word`, and one.
fn distance(alloc: Global, word: &str, name: &str) -> Result<Option<usize>, AllocError> {
    let limit = word.len() / 3 + 1;
    if word.len().abs_diff(name.len()) > limit {
        return Ok(None);
    }
    let edits = levenshtein(alloc, word, name)?;
    if edits <= limit {
        Ok(Some(edits))
    } else {
        Ok(None)
    }
}

/// Returns whether one of `near` has this name.
fn has_name(near: &[Near<'_>], name: &str) -> bool {
    for known in near {
        if known.name == name {
            return true;
        }
    }
    false
}

/// Appends `named`, which has the name `name`, if that is near to `word` and is new.
pub(crate) fn push_near<'w>(
    alloc: Global,
    near: &mut Vec<Near<'w>>,
    word: &str,
    name: &'w str,
    named: Named<'w>,
) -> Result<(), AllocError>
    ensures { (test : NamedText → Bool) → OnOk result (IsTrue (list_all test (map near_text near.old.items)) → IsTrue (test (named_text named.entry)) → IsTrue (list_all test (map near_text near.new.items))) }
{
    let Some(distance) = distance(alloc, word, name)? else {
        return Ok(());
    };
    if has_name(near, name) {
        return Ok(());
    }
    near.push(Near {
        name,
        distance,
        named,
    })?;
    Ok(())
}

/// Appends the features of `package`, which has the number `ix`, whose names are near to `word`.
fn push_features<'w>(
    alloc: Global,
    near: &mut Vec<Near<'w>>,
    ix: usize,
    package: &'w Package<'_>,
    word: &str,
) -> Result<(), AllocError>
    ensures { (packages : List PackageText) → slice_get packages ix ≡ Some (package_text «package».now) → OnOk result (IsTrue (list_all (is_part packages) (map near_text near.old.items)) → IsTrue (list_all (is_part packages) (map near_text near.new.items))) }
{
    for feature in &package.features {
        let named = Named {
            package: ix,
            part: Part::Feature(feature.name),
        };
        push_near(alloc, near, word, feature.name, named)?;
    }
    Ok(())
}

/// Appends what `declaration` of the package with the number `ix` declares, if that is optional and its name is near to `word`.
fn push_optional<'w>(
    alloc: Global,
    near: &mut Vec<Near<'w>>,
    ix: usize,
    declaration: &'w Declaration<'_>,
    word: &str,
) -> Result<(), AllocError>
    ensures { (test : NamedText → Bool) → OnOk result (IsTrue (list_all test (map near_text near.old.items)) → (IsTrue declaration.now.optional → IsTrue (test (of_package ix (dependency declaration.now.name.now)))) → IsTrue (list_all test (map near_text near.new.items))) }
{
    if declaration.optional {
        let named = Named {
            package: ix,
            part: Part::Dependency(declaration.name),
        };
        push_near(alloc, near, word, declaration.name, named)?;
    }
    Ok(())
}

/// Appends the optional dependencies of `package`, which has the number `ix`, whose names are near to `word`.
fn push_dependencies<'w>(
    alloc: Global,
    near: &mut Vec<Near<'w>>,
    ix: usize,
    package: &'w Package<'_>,
    word: &str,
) -> Result<(), AllocError>
    ensures { (packages : List PackageText) → slice_get packages ix ≡ Some (package_text «package».now) → OnOk result (IsTrue (list_all (is_part packages) (map near_text near.old.items)) → IsTrue (list_all (is_part packages) (map near_text near.new.items))) }
{
    for declaration in &package.declarations {
        push_optional(alloc, near, ix, declaration, word)?;
    }
    Ok(())
}

/// Appends the parts of `package`, which has the number `ix`, whose names are near to `name`: optional dependencies after `dep:`, else
/// features.
pub(crate) fn push_parts<'w>(
    alloc: Global,
    near: &mut Vec<Near<'w>>,
    ix: usize,
    package: &'w Package<'_>,
    name: &str,
) -> Result<(), AllocError>
    ensures { (packages : List PackageText) → slice_get packages ix ≡ Some (package_text «package».now) → OnOk result (IsTrue (list_all (is_part packages) (map near_text near.old.items)) → IsTrue (list_all (is_part packages) (map near_text near.new.items))) }
{
    match name.strip_prefix("dep:") {
        Some(word) => push_dependencies(alloc, near, ix, package, word),
        None => push_features(alloc, near, ix, package, name),
    }
}
