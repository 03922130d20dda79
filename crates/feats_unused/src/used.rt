//! The features of a package that other packages use.
ghost use Rattle.std.specs.Prelude.{◌≡◌, ◌<◌, ◌++◌, ◌∷◌, [], IfOk, IsTrue, OnOk, Contains, length, slice_get};
ghost use Rattle.std.specs.Option.{option_map_or};
ghost use Rattle.cargo_workspaces.specs.Views.{feature_text, package_text, texts};
ghost use Rattle.cargo_workspaces.specs.Workspaces.{Text};
ghost use Rattle.guppy_packages.specs.Items.{item_of};
ghost use Rattle.feats_unused.specs.Used.{own_feature, turned_on};
ghost use Rattle.feats_unused.specs.inner.Marks as spec;

use crate::lookups::{feature_number, flag_at, unmarked};
use cargo_workspaces::{Feature, Package};
use guppy_packages::NamedFeatureDep;
use std::alloc::{AllocError, Global};

/// Appends the feature that `item` turns on, if it is one of the same package.
fn push_own<'w>(names: &mut Vec<&'w str>, item: &'w str) -> Result<(), AllocError>
    ensures { OnOk result (texts names.new.items ≡ texts names.old.items ++ own_feature (item_of item.now)) }
{
    match NamedFeatureDep::from_cargo_string(item) {
        NamedFeatureDep::NamedFeature(feature) => {
            names.push(feature)?;
            Ok(())
        }
        NamedFeatureDep::OptionalDependency(_) | NamedFeatureDep::DependencyNamedFeature { .. } =>
            Ok(()),
    }
}

/// Returns the features of the same package that `feature` turns on.
fn names_in<'w>(alloc: Global, feature: &Feature<'w>) -> Result<Vec<&'w str>, AllocError>
    ensures { IfOk result (λ names. texts names.items ≡ turned_on (feature_text feature.now)) }
{
    let mut names = Vec::new(alloc);
    for item in &feature.items {
        push_own(&mut names, item)?;
    }
    Ok(names)
}

/// Returns the features of `package` that its feature `number` turns on.
fn names_at<'w>(
    alloc: Global,
    package: &Package<'w>,
    number: usize,
) -> Result<Vec<&'w str>, AllocError>
    ensures { IfOk result (λ names. texts names.items ≡ option_map_or turned_on (slice_get (package_text «package».now).features number) []) }
{
    match package.features.get(number) {
        Some(feature) => names_in(alloc, feature),
        None => Ok(Vec::new(alloc)),
    }
}

/// Marks feature `number`, and appends it to `waiting`, unless it is marked.
fn mark(used: &mut Vec<bool>, waiting: &mut Vec<usize>, number: usize) -> Result<(), AllocError>
    requires { number < length used.old.items }
    ensures marks { OnOk result (spec.Marks (λ k. k ≡ number) used.old.items used.new.items waiting.old.items waiting.new.items) }
    ensures marked { OnOk result (IsTrue (spec.flag used.new.items number)) }
{
    if flag_at(used, number) {
        return Ok(());
    }
    used[number] = true;
    waiting.push(number)?;
    Ok(())
}

/// Marks the feature `name` of `package`, and lets it wait, if it has it and it isn't marked.
fn mark_name(
    package: &Package<'_>,
    used: &mut Vec<bool>,
    waiting: &mut Vec<usize>,
    name: &str,
) -> Result<(), AllocError>
    requires sorted { spec.HasSortedFeatures (package_text «package».now) }
    requires size { length used.old.items ≡ length (package_text «package».now).features }
    ensures marks { OnOk result (spec.Marks (spec.HasName (package_text «package».now).features (name.now ∷ [])) used.old.items used.new.items waiting.old.items waiting.new.items) }
    ensures marked { OnOk result (spec.IsMarked (package_text «package».now).features used.new.items name.now) }
{
    match feature_number(package, name) {
        Some(number) => mark(used, waiting, number),
        None => Ok(()),
    }
}

/// Marks the features `names` of `package`, and lets those wait that weren't marked.
fn mark_names(
    package: &Package<'_>,
    used: &mut Vec<bool>,
    waiting: &mut Vec<usize>,
    names: &[&str],
) -> Result<(), AllocError>
    requires sorted { spec.HasSortedFeatures (package_text «package».now) }
    requires size { length used.old.items ≡ length (package_text «package».now).features }
    ensures marks { OnOk result (spec.Marks (spec.HasName (package_text «package».now).features (texts names.now)) used.old.items used.new.items waiting.old.items waiting.new.items) }
    ensures marked { OnOk result ((n : Text) → Contains (texts names.now) n → spec.IsMarked (package_text «package».now).features used.new.items n) }
{
    for name in names {
        mark_name(package, used, waiting, name)?;
    }
    Ok(())
}

/// Returns a flag for each feature of `package`: whether it is used, if other packages ask for `asked`.
pub(crate) fn used_features(
    alloc: Global,
    package: &Package<'_>,
    asked: &[&str],
) -> Result<Vec<bool>, AllocError>
    requires { spec.HasSortedFeatures (package_text «package».now) }
    ensures { IfOk result (λ used. spec.AreUsed (texts asked.now) (package_text «package».now).features used.items) }
{
    let mut used = unmarked(alloc, package.features.len())?;
    let mut waiting = Vec::new(alloc);
    mark_names(package, &mut used, &mut waiting, asked)?;
    while let Some(number) = waiting.pop() {
        let names = names_at(alloc, package, number)?;
        mark_names(package, &mut used, &mut waiting, &names)?;
    }
    Ok(used)
}
