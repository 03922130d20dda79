//! What one plan builds and another doesn't.
ghost use Rattle.std.specs.Prelude.{◌≡◌, ◌++◌, ◌∷◌, [], List, IfOk, OnOk, if◌then◌else◌, map};
ghost use Rattle.cargo_workspaces.specs.Views.{feature_text, package_text};
ghost use Rattle.cargo_plans.specs.plan_units.Units.{UnitText};
ghost use Rattle.cargo_plans.specs.plan_units.UnitViews.{unit_text};
ghost use Rattle.feats_slim.specs.edits.Losses as spec;
ghost use Rattle.feats_slim.specs.edits.LossViews.{losses_text, lost_feature_text};
ghost use Rattle.feats_slim.specs.edits.inner.Groups.{HasPlaces};

use crate::edits::loss::{Losses, LostFeature};
use crate::edits::places::{Places, is_built, is_on, places_by_package};
use cargo_plans::plan_units::Unit;
use cargo_workspaces::{Feature, Package};
use std::alloc::{AllocError, Global};

/// Returns whether `package` falls away.
fn is_lost(before: &Places<'_, '_>, after: &Places<'_, '_>, package: usize) -> bool
    ensures { (b a : List UnitText) → HasPlaces before.now b → HasPlaces after.now a → result ≡ spec.is_lost b a «package» }
{
    is_built(before, package) && !is_built(after, package)
}

/// Returns whether the feature `name` of `package` falls away.
fn is_feature_lost(
    before: &Places<'_, '_>,
    after: &Places<'_, '_>,
    package: usize,
    name: &str,
) -> bool
    ensures { (b a : List UnitText) → HasPlaces before.now b → HasPlaces after.now a → result ≡ spec.is_feature_lost b a «package» name.now }
{
    is_on(before, package, name) && !is_on(after, package, name)
}

/// Appends `package`, if `flag`.
fn push_package(lost: &mut Vec<usize>, package: usize, flag: bool) -> Result<(), AllocError>
    ensures { OnOk result (lost.new.items ≡ lost.old.items ++ (if flag then «package» ∷ [] else [])) }
{
    if flag {
        lost.push(package)?;
    }
    Ok(())
}

/// Returns those of `packages` that fall away.
fn lost_packages(
    alloc: Global,
    before: &Places<'_, '_>,
    after: &Places<'_, '_>,
    packages: &[Package<'_>],
) -> Result<Vec<usize>, AllocError>
    ensures { (b a : List UnitText) → HasPlaces before.now b → HasPlaces after.now a → IfOk result (λ lost. lost.items ≡ spec.lost_packages b a (map package_text packages.now)) }
{
    let mut lost = Vec::new(alloc);
    for (ix, _) in packages.iter().enumerate() {
        push_package(&mut lost, ix, is_lost(before, after, ix))?;
    }
    Ok(lost)
}

/// Appends the feature `name` of `package`, if `flag`.
fn push_feature<'w>(
    lost: &mut Vec<LostFeature<'w>>,
    package: usize,
    name: &'w str,
    flag: bool,
) -> Result<(), AllocError>
    ensures { OnOk result (map lost_feature_text lost.new.items ≡ map lost_feature_text lost.old.items ++ (if flag then record { number = «package»; name = name.now } ∷ [] else [])) }
{
    if flag {
        lost.push(LostFeature { package, name })?;
    }
    Ok(())
}

/// Appends those of `features`, which are those of `package`, that fall away.
fn push_features<'w>(
    lost: &mut Vec<LostFeature<'w>>,
    before: &Places<'_, '_>,
    after: &Places<'_, '_>,
    package: usize,
    features: &[Feature<'w>],
) -> Result<(), AllocError>
    ensures { (b a : List UnitText) → HasPlaces before.now b → HasPlaces after.now a → OnOk result (map lost_feature_text lost.new.items ≡ map lost_feature_text lost.old.items ++ spec.lost_among b a «package» (map feature_text features.now)) }
{
    for feature in features {
        let flag = is_feature_lost(before, after, package, feature.name);
        push_feature(lost, package, feature.name, flag)?;
    }
    Ok(())
}

/// Returns the features of `packages` that fall away.
fn lost_features<'w>(
    alloc: Global,
    before: &Places<'_, '_>,
    after: &Places<'_, '_>,
    packages: &[Package<'w>],
) -> Result<Vec<LostFeature<'w>>, AllocError>
    ensures { (b a : List UnitText) → HasPlaces before.now b → HasPlaces after.now a → IfOk result (λ lost. map lost_feature_text lost.items ≡ spec.lost_features b a (map package_text packages.now)) }
{
    let mut lost = Vec::new(alloc);
    for (ix, package) in packages.iter().enumerate() {
        push_features(&mut lost, before, after, ix, &package.features)?;
    }
    Ok(lost)
}

/// Returns what falls away from a plan with the units `before` to one with the units `after`. Both are plans of workspaces whose packages
/// have the numbers and features of `packages`. An allocation's failure is the only error.
pub fn losses_of<'w>(
    alloc: Global,
    packages: &[Package<'w>],
    before: &[Unit<'_>],
    after: &[Unit<'_>],
) -> Result<Losses<'w>, AllocError>
    ensures { IfOk result (λ lost. losses_text lost ≡ spec.losses_of (map package_text packages.now) (map unit_text before.now) (map unit_text after.now)) }
{
    let before = places_by_package(alloc, before)?;
    let after = places_by_package(alloc, after)?;
    let lost = lost_packages(alloc, &before, &after, packages)?;
    Ok(Losses {
        packages: lost,
        features: lost_features(alloc, &before, &after, packages)?,
    })
}
