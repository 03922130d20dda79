//! The places of packages, by their numbers.
ghost use Rattle.std.specs.Prelude.{◌≡◌, ◌++◌, List, IfOk, map};
ghost use Rattle.cargo_plans.specs.plan_units.Units.{UnitText};
ghost use Rattle.cargo_plans.specs.plan_units.UnitViews.{unit_text};
ghost use Rattle.feats_duplicates.specs.Built as spec;
ghost use Rattle.feats_duplicates.specs.Views.{placed_text};
ghost use Rattle.feats_duplicates.specs.inner.Rows.{HasPlaces};

use crate::groups::{add, group_of};
use cargo_plans::{Place, Unit};
use std::alloc::{AllocError, Global};
use std::collections::BTreeMap;

/// A place, and the features that a package has there.
#[derive(Clone, Copy)]
pub struct PlaceFeatures<'u, 'w> {
    pub place: Place,
    pub features: &'u [&'w str],
}

/// Returns the place and the features of `unit`.
fn placed<'u, 'w>(unit: &'u Unit<'w>) -> PlaceFeatures<'u, 'w>
    ensures { placed_text result ≡ spec.placed (unit_text unit.now) }
{
    PlaceFeatures {
        place: unit.place,
        features: &unit.features,
    }
}

/// Returns the places of each package that `units` build.
pub(crate) fn places_by_package<'u, 'w>(
    alloc: Global,
    units: &'u [Unit<'w>],
) -> Result<BTreeMap<usize, Vec<PlaceFeatures<'u, 'w>>>, AllocError>
    ensures { IfOk result (λ groups. HasPlaces groups (map unit_text units.now)) }
{
    let mut groups = BTreeMap::new(alloc);
    for unit in units {
        add(&mut groups, unit.package, placed(unit))?;
    }
    Ok(groups)
}

/// Returns the places of package `package`.
pub(crate) fn places_in<'g, 'u, 'w>(
    groups: &'g BTreeMap<usize, Vec<PlaceFeatures<'u, 'w>>>,
    package: usize,
) -> &'g [PlaceFeatures<'u, 'w>]
    ensures { (units : List UnitText) → HasPlaces groups.now units → map placed_text result.now ≡ spec.places_of units «package» }
{
    group_of(groups, package)
}
