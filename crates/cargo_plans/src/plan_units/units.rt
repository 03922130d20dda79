//! The packages that are built.
ghost use Rattle.std.specs.Prelude.{◌≡◌, ◌+◌, ◌*◌, ◌<◌, ◌^◌, ◌++◌, ◌∷◌, [], IfOk, OnOk, if◌then◌else◌, length, map};
ghost use Rattle.plan_starts.specs.feature_labels.Names.LabelName.{base};
ghost use Rattle.cargo_workspaces.specs.Views.{package_text, texts};
ghost use Rattle.plan_rows.specs.Steps as steps;
ghost use Rattle.plan_starts.specs.step_visits.Visits.{reaches};
ghost use Rattle.cargo_plans.specs.plan_units.Units as spec;
ghost use Rattle.cargo_plans.specs.plan_units.Units.{features_on, target_units, units_at};
ghost use Rattle.cargo_plans.specs.plan_units.UnitViews.{unit_text};

use crate::plan_units::unit::{Place, Unit};
use cargo_workspaces::Package;
use plan_rows::rules::host_side;
use plan_starts::{FeatureLabel, PackageVisit, Side, Visited};
use std::alloc::{AllocError, Global};

/// The visits of steps `on` and `built`.
#[derive(Clone, Copy)]
struct Visits<'r> {
    on: &'r PackageVisit,
    built: &'r Visited,
}

/// A place, the side whose features it has, and the number of its first entry.
#[derive(Clone, Copy)]
struct Spot {
    place: Place,
    side: Side,
    first: usize,
}

/// Appends `name`, if `flag`.
fn push_name<'w>(names: &mut Vec<&'w str>, name: &'w str, flag: bool) -> Result<(), AllocError>
    ensures { OnOk result (texts names.new.items ≡ texts names.old.items ++ (if flag then name.now ∷ [] else [])) }
{
    if flag {
        names.push(name)?;
    }
    Ok(())
}

/// Returns the names of the features of package `ix` that are on, on `side`.
#[tactic(auto, using(crate::proofs::Lists::filtered))]
fn features_of<'w>(
    alloc: Global,
    on: &PackageVisit,
    side: Side,
    ix: usize,
    package: &'w Package<'_>,
) -> Result<Vec<&'w str>, AllocError>
    ensures { IfOk result (λ names. texts names.items ≡ features_on on.now side ix (package_text «package».now)) }
{
    let mut names = Vec::new(alloc);
    for feature in &package.features {
        push_name(
            &mut names,
            feature.name,
            on.has_feature(side, ix, feature.name),
        )?;
    }
    Ok(names)
}

/// Appends package `ix`, if it is built for the place of `spot`.
fn push_unit<'w>(
    alloc: Global,
    units: &mut Vec<Unit<'w>>,
    visits: Visits<'_>,
    spot: Spot,
    ix: usize,
    package: &'w Package<'_>,
) -> Result<(), AllocError>
    requires { spot.first + ix < 2 ^ 64 }
    ensures { OnOk result (map unit_text units.new.items ≡ map unit_text units.old.items
        ++ (if reaches visits.entry.built.now (spot.first + ix) base then record { place = spot.place; number = ix; features = features_on visits.entry.on.now spot.side ix (package_text «package».now) } ∷ [] else [])) }
{
    if visits.built.reaches(spot.first + ix, FeatureLabel::Base) {
        let features = features_of(alloc, visits.on, spot.side, ix, package)?;
        units.push(Unit {
            place: spot.place,
            package: ix,
            features,
        })?;
    }
    Ok(())
}

/// Appends the packages that are built for the place of `spot`.
fn push_units<'w>(
    alloc: Global,
    units: &mut Vec<Unit<'w>>,
    visits: Visits<'_>,
    spot: Spot,
    packages: &'w [Package<'_>],
) -> Result<(), AllocError>
    requires { spot.first + length packages.now < 2 ^ 64 }
    ensures { OnOk result (map unit_text units.new.items ≡ map unit_text units.old.items
        ++ units_at visits.entry.on.now visits.entry.built.now spot.place spot.side spot.first (map package_text packages.now)) }
{
    for (ix, package) in packages.iter().enumerate() {
        push_unit(alloc, units, visits, spot, ix, package)?;
    }
    Ok(())
}

/// Appends the packages that are built for each of `count` target platforms; the entries of the first begin at `base`.
fn push_targets<'w>(
    alloc: Global,
    units: &mut Vec<Unit<'w>>,
    visits: Visits<'_>,
    base: usize,
    count: usize,
    packages: &'w [Package<'_>],
) -> Result<(), AllocError>
    requires { base + count * length packages.now < 2 ^ 64 }
    ensures { OnOk result (map unit_text units.new.items ≡ map unit_text units.old.items
        ++ target_units visits.entry.on.now visits.entry.built.now (map package_text packages.now) 0 base count) }
{
    let mut first = base;
    for number in 0..count {
        let spot = Spot {
            place: Place::Target(number),
            side: Side::Target,
            first,
        };
        push_units(alloc, units, visits, spot, packages)?;
        first += packages.len();
    }
    Ok(())
}

/// Returns the packages that are built, by the visits of steps `on` and `built`: for the host, then for each of `targets` platforms.
pub fn units_of<'w>(
    alloc: Global,
    split: bool,
    on: &PackageVisit,
    built: &Visited,
    packages: &'w [Package<'_>],
    targets: usize,
) -> Result<Vec<Unit<'w>>, AllocError>
    requires { length packages.now + targets * length packages.now < 2 ^ 64 }
    ensures { IfOk result (λ units. map unit_text units.items ≡ spec.units_of split on.now built.now (map package_text packages.now) targets) }
{
    let visits = Visits { on, built };
    let spot = Spot {
        place: Place::Host,
        side: host_side(split),
        first: 0,
    };
    let mut units = Vec::new(alloc);
    push_units(alloc, &mut units, visits, spot, packages)?;
    push_targets(alloc, &mut units, visits, packages.len(), targets, packages)?;
    Ok(units)
}
