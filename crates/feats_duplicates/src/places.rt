//! Packages that are built in several places.
ghost use Rattle.std.specs.Prelude.{◌≡◌, ◌++◌, List, IfOk, OnOk, map};
ghost use Rattle.cargo_workspaces.specs.Views.{package_text};
ghost use Rattle.cargo_plans.specs.plan_units.Units.{UnitText};
ghost use Rattle.cargo_plans.specs.plan_units.UnitViews.{unit_text};
ghost use Rattle.feats_duplicates.specs.Places as spec;
ghost use Rattle.feats_duplicates.specs.Views.{placed_text, places_text};
ghost use Rattle.feats_duplicates.specs.inner.Rows.{HasPlaces};

use crate::differences::places_differ;
use crate::placed::{PlaceFeatures, places_by_package, places_in};
use cargo_plans::Unit;
use cargo_workspaces::Package;
use std::alloc::{AllocError, Global};
use std::collections::BTreeMap;

/// A package that is built in several places.
#[derive(Drop)]
pub struct Places<'u, 'w> {
    /// The number of the package.
    pub package: usize,
    /// Its places with its features there, in the order of the plan.
    pub places: Vec<PlaceFeatures<'u, 'w>>,
}

/// Returns whether `places` of a package are listed: its features differ there, or `all` is true and there are several.
fn are_listed(all: bool, places: &[PlaceFeatures<'_, '_>]) -> bool
    ensures { result ≡ spec.are_listed all (map placed_text places.now) }
{
    if all {
        places.len() > 1
    } else {
        places_differ(places)
    }
}

/// Appends package `package`, which is built in `places`, if these are listed.
fn push_if_listed<'u, 'w>(
    alloc: Global,
    list: &mut Vec<Places<'u, 'w>>,
    all: bool,
    package: usize,
    places: &[PlaceFeatures<'u, 'w>],
) -> Result<(), AllocError>
    ensures { OnOk result (map places_text list.new.items ≡ map places_text list.old.items ++ spec.places_if_listed all «package» (map placed_text places.now)) }
{
    if are_listed(all, places) {
        list.push(Places {
            package,
            places: Vec::from_slice(alloc, places)?,
        })?;
    }
    Ok(())
}

/// Appends package `package`, if its places in `groups` are listed.
fn push_package<'u, 'w>(
    alloc: Global,
    list: &mut Vec<Places<'u, 'w>>,
    groups: &BTreeMap<usize, Vec<PlaceFeatures<'u, 'w>>>,
    all: bool,
    package: usize,
) -> Result<(), AllocError>
    ensures { OnOk result ((units : List UnitText) → HasPlaces groups.now units → map places_text list.new.items ≡ map places_text list.old.items ++ spec.places_at all units «package») }
{
    push_if_listed(alloc, list, all, package, places_in(groups, package))
}

/// Returns those of `packages` that are built with different features in different places, by the units of a plan, in the order of
/// their numbers. With `all` they are those that are built in several places.
pub(crate) fn places_of<'u, 'w>(
    alloc: Global,
    packages: &[Package<'_>],
    all: bool,
    units: &'u [Unit<'w>],
) -> Result<Vec<Places<'u, 'w>>, AllocError>
    ensures { IfOk result (λ list. map places_text list.items ≡ spec.packages_in_places all (map package_text packages.now) (map unit_text units.now)) }
{
    let groups = places_by_package(alloc, units)?;
    let mut list = Vec::new(alloc);
    for (ix, _) in packages.iter().enumerate() {
        push_package(alloc, &mut list, &groups, all, ix)?;
    }
    Ok(list)
}
