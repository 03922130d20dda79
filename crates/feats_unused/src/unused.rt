//! The features of a package that no other package uses.
ghost use Rattle.std.specs.Prelude.{◌≡◌, ◌++◌, ◌∷◌, [], IfOk, List, OnOk, if◌then◌else◌};
ghost use Rattle.cargo_workspaces.specs.Views.{package_text, texts};
ghost use Rattle.cargo_workspaces.specs.Workspaces.{Text};
ghost use Rattle.feats_unused.specs.Unused.{AreUnused};
ghost use Rattle.feats_unused.specs.inner.Marks.{AreUsed, HasSortedFeatures};

use crate::lookups::flag_at;
use crate::used::used_features;
use cargo_workspaces::Package;
use std::alloc::{AllocError, Global};

/// Appends `name`, unless `flag`.
fn push_unless<'w>(names: &mut Vec<&'w str>, name: &'w str, flag: bool) -> Result<(), AllocError>
    ensures { OnOk result (texts names.new.items ≡ texts names.old.items ++ (if flag then [] else name.now ∷ [])) }
{
    if !flag {
        names.push(name)?;
    }
    Ok(())
}

/// Returns the names of the features of `package` whose flags in `used` are false.
fn names_without<'w>(
    alloc: Global,
    package: &Package<'w>,
    used: &[bool],
) -> Result<Vec<&'w str>, AllocError>
    ensures { (asked : List Text) → AreUsed asked (package_text «package».now).features used.now → IfOk result (λ names. AreUnused asked (package_text «package».now).features (package_text «package».now).features (texts names.items)) }
{
    let mut names = Vec::new(alloc);
    for (number, feature) in package.features.iter().enumerate() {
        push_unless(&mut names, feature.name, flag_at(used, number))?;
    }
    Ok(names)
}

/// Returns the names of the features of `package` that aren't used, if other packages ask for `asked`.
pub(crate) fn unused_features<'w>(
    alloc: Global,
    package: &Package<'w>,
    asked: &[&str],
) -> Result<Vec<&'w str>, AllocError>
    requires { HasSortedFeatures (package_text «package».now) }
    ensures { IfOk result (λ names. AreUnused (texts asked.now) (package_text «package».now).features (package_text «package».now).features (texts names.items)) }
{
    let used = used_features(alloc, package, asked)?;
    names_without(alloc, package, &used)
}
