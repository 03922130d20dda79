//! What a plan builds, by package.
ghost use Rattle.std.specs.Prelude.{◌≡◌, ◌++◌, ◌∷◌, [], ℕ, List, IfOk, OnOk, if◌then◌else◌, map, nat_eq};
ghost use Rattle.std.specs.List.{list_any};
ghost use Rattle.std.specs.Str.{bytes_eq};
ghost use Rattle.cargo_workspaces.specs.Views.{texts};
ghost use Rattle.cargo_plans.specs.plan_units.Units.{UnitText};
ghost use Rattle.cargo_plans.specs.plan_units.UnitViews.{unit_text};
ghost use Rattle.feats_slim.specs.edits.Losses as spec;
ghost use Rattle.feats_slim.specs.edits.inner.Groups.{HasPlaces, group_at, lists_text};

use crate::edits::groups::{add, group_of};
use cargo_plans::plan_units::Unit;
use std::alloc::{AllocError, Global};
use std::collections::BTreeMap;

/// The lists of features of each package in the places where a plan builds it.
pub(crate) type Places<'u, 'w> = BTreeMap<usize, Vec<&'u [&'w str]>>;

/// Adds the place of `unit` to those of its package.
fn push_place<'u, 'w>(groups: &mut Places<'u, 'w>, unit: &'u Unit<'w>) -> Result<(), AllocError>
    ensures { OnOk result ((q : ℕ) → lists_text (group_at groups.new q) ≡ lists_text (group_at groups.old q) ++ (if nat_eq q (unit_text unit.now).number then (unit_text unit.now).features ∷ [] else [])) }
{
    add(groups, unit.package, unit.features.as_slice())
}

/// Returns the places of each package that `units` build: the features there.
pub(crate) fn places_by_package<'u, 'w>(
    alloc: Global,
    units: &'u [Unit<'w>],
) -> Result<Places<'u, 'w>, AllocError>
    ensures { IfOk result (λ groups. HasPlaces groups (map unit_text units.now)) }
{
    let mut groups = BTreeMap::new(alloc);
    for unit in units {
        push_place(&mut groups, unit)?;
    }
    Ok(groups)
}

/// Returns whether `package` has a place in `groups`.
pub(crate) fn is_built(groups: &Places<'_, '_>, package: usize) -> bool
    ensures { (units : List UnitText) → HasPlaces groups.now units → result ≡ spec.is_built units «package» }
{
    !group_of(groups, package).is_empty()
}

/// Returns whether `name` is one of `features`.
fn is_listed(features: &[&str], name: &str) -> bool
    ensures { result ≡ list_any (bytes_eq name.now) (texts features.now) }
{
    for feature in features {
        if name == *feature {
            return true;
        }
    }
    false
}

/// Returns whether one of `places` has the feature `name`.
fn any_has(places: &[&[&str]], name: &str) -> bool
    ensures { result ≡ list_any (spec.has_name name.now) (lists_text places.now) }
{
    for features in places {
        if is_listed(features, name) {
            return true;
        }
    }
    false
}

/// Returns whether the feature `name` of `package` is on in a place in `groups`.
pub(crate) fn is_on(groups: &Places<'_, '_>, package: usize, name: &str) -> bool
    ensures { (units : List UnitText) → HasPlaces groups.now units → result ≡ spec.is_on units «package» name.now }
{
    any_has(group_of(groups, package), name)
}
