//! What objects show of the packages that a plan builds.
ghost use Rattle.std.specs.Prelude.{◌≡◌, IfOk, map, string_bytes};
ghost use Rattle.cargo_workspaces.specs.Views.{package_text, texts};
ghost use Rattle.feats_tree.specs.trees.Titles.{at_text, detail_text, title_text};
ghost use Rattle.cargo_plans.specs.plan_units.UnitViews.{unit_text};
ghost use Rattle.feats_tree.specs.packages.Titles as spec;

use crate::trees::{At, Detail, Title};
use cargo_plans::plan_steps::{Place, Unit};
use cargo_workspaces::Package;
use std::alloc::{AllocError, Global};

/// Returns what objects show of package `ix` at `at`; empty texts, if there is no such package.
pub fn detail_at<'p>(packages: &'p [Package<'_>], ix: usize, at: At<'p>) -> Detail<'p>
    ensures { detail_text result ≡ spec.detail_at (map package_text packages.now) ix (at_text at.entry) }
{
    match packages.get(ix) {
        Some(package) => Detail {
            id: package.id,
            name: package.name,
            version: package.version,
            at,
        },
        None => Detail {
            id: "",
            name: "",
            version: "",
            at,
        },
    }
}

/// Returns the name of `place`. `names` are those of the target platforms.
fn place_name<'n>(names: &[&'n str], place: Place) -> &'n str
    ensures { result.now ≡ spec.place_name (texts names.now) place }
{
    match place {
        Place::Host => "host",
        Place::Target(number) => match names.get(number) {
            Some(name) => *name,
            None => "",
        },
    }
}

/// Returns what objects show of `unit`. `names` are those of the target platforms.
fn unit_detail<'p>(names: &[&'p str], packages: &'p [Package<'_>], unit: &Unit<'_>) -> Detail<'p>
    ensures { detail_text result ≡ spec.unit_detail (texts names.now) (map package_text packages.now) (unit_text unit.now) }
{
    detail_at(
        packages,
        unit.package,
        At::Place(place_name(names, unit.place)),
    )
}

/// Returns what objects show of each of `units`. `names` are those of the target platforms.
pub fn details_of<'p>(
    alloc: Global,
    names: &[&'p str],
    packages: &'p [Package<'_>],
    units: &[Unit<'_>],
) -> Result<Vec<Detail<'p>>, AllocError>
    ensures { IfOk result (λ details. map detail_text details.items ≡ map (spec.unit_detail (texts names.now) (map package_text packages.now)) (map unit_text units.now)) }
{
    let mut details = Vec::with_capacity(alloc, units.len())?;
    for unit in units {
        details.push(unit_detail(names, packages, unit))?;
    }
    Ok(details)
}

/// Returns `titles` with `details`.
pub fn titles_with<'t>(
    alloc: Global,
    titles: &'t [String],
    details: &[Detail<'t>],
) -> Result<Vec<Title<'t>>, AllocError>
    ensures { IfOk result (λ list. map title_text list.items ≡ spec.titles_with (map string_bytes titles.now) (map detail_text details.now)) }
{
    let mut list = Vec::with_capacity(alloc, titles.len())?;
    for (title, detail) in titles.iter().zip(details) {
        list.push(Title {
            title: title.as_str(),
            detail: *detail,
        })?;
    }
    Ok(list)
}
