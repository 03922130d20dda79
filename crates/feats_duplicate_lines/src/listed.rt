//! The lines about versions and places, and about members without a plan.
ghost use Rattle.std.specs.Prelude.{◌≡◌, ◌++◌, ◌∷◌, [], IfOk, OnOk, map, flat_map};
ghost use Rattle.cargo_workspaces.specs.Views.{package_text, texts};
ghost use Rattle.feats_duplicates.specs.Views.{member_plan_text, outcome_text, placed_text, places_text, version_text, versions_text};
ghost use Rattle.feats_duplicate_lines.specs.Shown as spec;
ghost use Rattle.feats_duplicate_lines.specs.Views.{dependents_text, shown_text};

use crate::place_names::place_name;
use crate::shown::{Dependent, Shown, package_at, push_shown};
use cargo_workspaces::Package;
use feats_duplicates::{MemberPlan, Outcome, PlaceFeatures, Places, Version, Versions};
use std::alloc::{AllocError, Global};

/// Appends the package with the number `number`, if there is one.
fn push_at<'u, 'v>(
    list: &mut Vec<Dependent<'u, 'v>>,
    packages: &'u [Package<'v>],
    number: usize,
) -> Result<(), AllocError>
    ensures { OnOk result (dependents_text list.new.items ≡ dependents_text list.old.items ++ spec.about (map package_text packages.now) (λ x. x ∷ []) number) }
{
    if let Some(package) = package_at(packages, number) {
        list.push(Dependent { package })?;
    }
    Ok(())
}

/// Returns the packages with the numbers `numbers`.
fn packages_at<'u, 'v>(
    alloc: Global,
    packages: &'u [Package<'v>],
    numbers: &[usize],
) -> Result<Vec<Dependent<'u, 'v>>, AllocError>
    ensures { IfOk result (λ list. dependents_text list.items ≡ spec.packages_at (map package_text packages.now) numbers.now) }
{
    let mut list = Vec::with_capacity(alloc, numbers.len())?;
    for number in numbers {
        push_at(&mut list, packages, *number)?;
    }
    Ok(list)
}

/// Appends the line of `package`, which is one of several with its name. The packages with the numbers `dependents` depend on it.
fn push_depended<'u, 'v, 'w>(
    alloc: Global,
    shown: &mut Vec<Shown<'u, 'v, 'w>>,
    packages: &'u [Package<'v>],
    package: &'u Package<'v>,
    dependents: &[usize],
) -> Result<(), AllocError>
    ensures { OnOk result (map shown_text shown.new.items ≡ map shown_text shown.old.items ++ spec.version (package_text «package».now) (spec.packages_at (map package_text packages.now) dependents.now) ∷ []) }
{
    let dependents = packages_at(alloc, packages, dependents)?;
    push_shown(
        shown,
        Shown::Version {
            package,
            dependents,
        },
    )
}

/// Appends the line of `version`, which is one of several packages with its name.
fn push_version<'u, 'v, 'w>(
    alloc: Global,
    shown: &mut Vec<Shown<'u, 'v, 'w>>,
    packages: &'u [Package<'v>],
    version: &Version,
) -> Result<(), AllocError>
    ensures { OnOk result (map shown_text shown.new.items ≡ map shown_text shown.old.items ++ spec.version_at (map package_text packages.now) (version_text version.now)) }
{
    match package_at(packages, version.package) {
        Some(package) => push_depended(alloc, shown, packages, package, &version.dependents),
        None => Ok(()),
    }
}

/// Appends the lines of `versions`, which are packages of one name.
fn push_named<'u, 'v, 'w>(
    alloc: Global,
    shown: &mut Vec<Shown<'u, 'v, 'w>>,
    packages: &'u [Package<'v>],
    versions: &[Version],
) -> Result<(), AllocError>
    ensures { OnOk result (map shown_text shown.new.items ≡ map shown_text shown.old.items ++ flat_map (spec.version_at (map package_text packages.now)) (map version_text versions.now)) }
{
    for version in versions {
        push_version(alloc, shown, packages, version)?;
    }
    Ok(())
}

/// Appends the lines of `versions`.
pub(crate) fn push_versions<'u, 'v, 'w>(
    alloc: Global,
    shown: &mut Vec<Shown<'u, 'v, 'w>>,
    packages: &'u [Package<'v>],
    versions: &[Versions<'_>],
) -> Result<(), AllocError>
    ensures { OnOk result (map shown_text shown.new.items ≡ map shown_text shown.old.items ++ flat_map (spec.versions_of (map package_text packages.now)) (map versions_text versions.now)) }
{
    for one in versions {
        push_named(alloc, shown, packages, &one.versions)?;
    }
    Ok(())
}

/// Appends the line of `package` in each of `places`.
fn push_each<'u, 'v, 'w>(
    shown: &mut Vec<Shown<'u, 'v, 'w>>,
    names: &[&'u str],
    package: &'u Package<'v>,
    places: &[PlaceFeatures<'u, 'w>],
) -> Result<(), AllocError>
    ensures { OnOk result (map shown_text shown.new.items ≡ map shown_text shown.old.items ++ map (spec.placed_as (texts names.now) (package_text «package».now)) (map placed_text places.now)) }
{
    for one in places {
        shown.push(Shown::InPlace {
            package,
            place: place_name(names, one.place),
            features: one.features,
        })?;
    }
    Ok(())
}

/// Appends the lines of package `number`, in each of `places`.
fn push_package<'u, 'v, 'w>(
    shown: &mut Vec<Shown<'u, 'v, 'w>>,
    names: &[&'u str],
    packages: &'u [Package<'v>],
    number: usize,
    places: &[PlaceFeatures<'u, 'w>],
) -> Result<(), AllocError>
    ensures { OnOk result (map shown_text shown.new.items ≡ map shown_text shown.old.items ++ spec.places_at (texts names.now) (map package_text packages.now) number (map placed_text places.now)) }
{
    match package_at(packages, number) {
        Some(package) => push_each(shown, names, package, places),
        None => Ok(()),
    }
}

/// Appends the lines of `places`.
pub(crate) fn push_places<'u, 'v, 'w>(
    shown: &mut Vec<Shown<'u, 'v, 'w>>,
    names: &[&'u str],
    packages: &'u [Package<'v>],
    places: &[Places<'u, 'w>],
) -> Result<(), AllocError>
    ensures { OnOk result (map shown_text shown.new.items ≡ map shown_text shown.old.items ++ flat_map (spec.places_of (texts names.now) (map package_text packages.now)) (map places_text places.now)) }
{
    for one in places {
        push_package(shown, names, packages, one.package, &one.places)?;
    }
    Ok(())
}

/// Appends the line of member `number`, which has no plan, with the message why.
fn push_refusal<'u, 'v, 'w>(
    shown: &mut Vec<Shown<'u, 'v, 'w>>,
    packages: &'u [Package<'v>],
    number: usize,
    message: &'u str,
) -> Result<(), AllocError>
    ensures { OnOk result (map shown_text shown.new.items ≡ map shown_text shown.old.items ++ spec.refused_at (map package_text packages.now) number message.now) }
{
    match package_at(packages, number) {
        Some(member) => push_shown(shown, Shown::NotPlanned { member, message }),
        None => Ok(()),
    }
}

/// Appends the line of member `number`, if `outcome` says that it has no plan.
fn push_outcome<'u, 'v, 'w>(
    shown: &mut Vec<Shown<'u, 'v, 'w>>,
    packages: &'u [Package<'v>],
    number: usize,
    outcome: &'u Outcome<'_>,
) -> Result<(), AllocError>
    ensures { OnOk result (map shown_text shown.new.items ≡ map shown_text shown.old.items ++ spec.refusal_at (map package_text packages.now) number (outcome_text outcome.now)) }
{
    match outcome {
        Outcome::Built(_) => Ok(()),
        Outcome::NotPlanned(message) => push_refusal(shown, packages, number, message.as_str()),
    }
}

/// Appends the lines of those of `plans` that aren't plans.
pub(crate) fn push_refusals<'u, 'v, 'w>(
    shown: &mut Vec<Shown<'u, 'v, 'w>>,
    packages: &'u [Package<'v>],
    plans: &'u [MemberPlan<'_>],
) -> Result<(), AllocError>
    ensures { OnOk result (map shown_text shown.new.items ≡ map shown_text shown.old.items ++ flat_map (spec.refusal_of (map package_text packages.now)) (map member_plan_text plans.now)) }
{
    for plan in plans {
        push_outcome(shown, packages, plan.member, &plan.outcome)?;
    }
    Ok(())
}
