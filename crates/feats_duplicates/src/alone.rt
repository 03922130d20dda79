//! Packages that get different features if each selected member is planned alone.
ghost use Rattle.std.specs.Prelude.{◌≡◌, ◌++◌, ◌∷◌, [], List, IfOk, OnOk, map, filter, flat_map};
ghost use Rattle.cargo_workspaces.specs.Views.{package_text, texts};
ghost use Rattle.feats_duplicates.specs.Alone as spec;
ghost use Rattle.feats_duplicates.specs.Alone.{MemberUnitText};
ghost use Rattle.feats_duplicates.specs.Views.{alone_text, member_plan_text, member_unit_text};
ghost use Rattle.feats_duplicates.specs.inner.Rows.{HasRows};

use crate::differences::rows_differ;
use crate::groups::{add, group_of};
use crate::member_plans::MemberPlan;
use crate::member_units::{MemberUnit, member_units};
use cargo_plans::Place;
use cargo_workspaces::Package;
use std::alloc::{AllocError, Global};
use std::collections::BTreeMap;

/// A package that is built for a place with different features in the plans of single members.
#[derive(Drop)]
pub struct Alone<'u, 'w> {
    /// The number of the package.
    pub package: usize,
    pub place: Place,
    /// The package for that place, in the plan of each member that builds it there.
    pub units: Vec<MemberUnit<'u, 'w>>,
}

/// Returns whether both places are the same.
fn same_place(place: Place, other: Place) -> bool
    ensures { result ≡ spec.same_place place other }
{
    match (place, other) {
        (Place::Host, Place::Host) => true,
        (Place::Target(number), Place::Target(another)) => number == another,
        _ => false,
    }
}

/// Returns the places of a build: the host, and the target platforms, which have these names.
fn all_places(alloc: Global, names: &[&str]) -> Result<Vec<Place>, AllocError>
    ensures { IfOk result (λ places. places.items ≡ spec.all_places (texts names.now)) }
{
    let mut places = Vec::new(alloc);
    places.push(Place::Host)?;
    for (number, _) in names.iter().enumerate() {
        places.push(Place::Target(number))?;
    }
    Ok(places)
}

/// Returns `rows` by their packages.
fn rows_by_package<'u, 'w>(
    alloc: Global,
    rows: &[MemberUnit<'u, 'w>],
) -> Result<BTreeMap<usize, Vec<MemberUnit<'u, 'w>>>, AllocError>
    ensures { IfOk result (λ groups. HasRows groups (map member_unit_text rows.now)) }
{
    let mut groups = BTreeMap::new(alloc);
    for row in rows {
        add(&mut groups, row.unit.package, *row)?;
    }
    Ok(groups)
}

/// Returns those of `rows` that are built for `place`.
fn rows_at<'u, 'w>(
    alloc: Global,
    rows: &[MemberUnit<'u, 'w>],
    place: Place,
) -> Result<Vec<MemberUnit<'u, 'w>>, AllocError>
    ensures { IfOk result (λ here. map member_unit_text here.items ≡ spec.rows_at place (map member_unit_text rows.now)) }
{
    let mut here = Vec::new(alloc);
    for row in rows {
        if same_place(place, row.unit.place) {
            here.push(*row)?;
        }
    }
    Ok(here)
}

/// Appends package `package` for `place`, where `here` builds it, if the features there differ.
fn push_if_different<'u, 'w>(
    list: &mut Vec<Alone<'u, 'w>>,
    package: usize,
    place: Place,
    here: Vec<MemberUnit<'u, 'w>>,
) -> Result<(), AllocError>
    ensures { OnOk result (map alone_text list.new.items ≡ map alone_text list.old.items ++ spec.alone_if_different «package» place (map member_unit_text here.entry.items)) }
{
    if rows_differ(&here) {
        list.push(Alone {
            package,
            place,
            units: here,
        })?;
    }
    Ok(())
}

/// Appends package `package`, which `rows` build, for each of `places` where their features differ.
fn push_places<'u, 'w>(
    alloc: Global,
    list: &mut Vec<Alone<'u, 'w>>,
    package: usize,
    places: &[Place],
    rows: &[MemberUnit<'u, 'w>],
) -> Result<(), AllocError>
    ensures { OnOk result (map alone_text list.new.items ≡ map alone_text list.old.items ++ flat_map (spec.alone_at «package» (map member_unit_text rows.now)) places.now) }
{
    for place in places {
        let here = rows_at(alloc, rows, *place)?;
        push_if_different(list, package, *place, here)?;
    }
    Ok(())
}

/// Appends package `package` for each of `places` where its rows in `groups` have different features.
fn push_package<'u, 'w>(
    alloc: Global,
    list: &mut Vec<Alone<'u, 'w>>,
    groups: &BTreeMap<usize, Vec<MemberUnit<'u, 'w>>>,
    places: &[Place],
    package: usize,
) -> Result<(), AllocError>
    ensures { OnOk result ((rows : List MemberUnitText) → HasRows groups.now rows → map alone_text list.new.items ≡ map alone_text list.old.items ++ spec.alone_in places.now rows «package») }
{
    push_places(alloc, list, package, places, group_of(groups, package))
}

/// Returns those of `packages` that `rows` build for one place with different features, in the order of their numbers and then of the
/// places. The target platforms have the names `names`.
fn alone_among<'u, 'w>(
    alloc: Global,
    packages: &[Package<'_>],
    names: &[&str],
    rows: &[MemberUnit<'u, 'w>],
) -> Result<Vec<Alone<'u, 'w>>, AllocError>
    ensures { IfOk result (λ list. map alone_text list.items ≡ spec.alone_among (map package_text packages.now) (texts names.now) (map member_unit_text rows.now)) }
{
    let places = all_places(alloc, names)?;
    let groups = rows_by_package(alloc, rows)?;
    let mut list = Vec::new(alloc);
    for (ix, _) in packages.iter().enumerate() {
        push_package(alloc, &mut list, &groups, &places, ix)?;
    }
    Ok(list)
}

/// Returns those of `packages` that get different features for one place in `plans`, in the order of their numbers and then of the
/// places. The target platforms have the names `names`.
pub(crate) fn alone_of<'u, 'w>(
    alloc: Global,
    packages: &[Package<'_>],
    names: &[&str],
    plans: &'u [MemberPlan<'w>],
) -> Result<Vec<Alone<'u, 'w>>, AllocError>
    ensures { IfOk result (λ list. map alone_text list.items ≡ spec.alone_of (map package_text packages.now) (texts names.now) (map member_plan_text plans.now)) }
{
    let rows = member_units(alloc, plans)?;
    alone_among(alloc, packages, names, &rows)
}
