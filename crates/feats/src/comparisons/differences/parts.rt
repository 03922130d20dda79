//! The parts of a build's plan.
ghost use Rattle.std.specs.Prelude.{◌≡◌, ◌++◌, IfOk, OnOk, map, option_map, slice_get};
ghost use Rattle.cargo_workspaces.specs.Views.{package_text, texts};
ghost use Rattle.feats_answers.specs.PlanTexts as names;
ghost use Rattle.feats.specs.comparisons.differences.Builds as spec;
ghost use Rattle.feats.specs.comparisons.differences.Views.{build_text};
ghost use Rattle.feats_diff.specs.changes.Ranks.{rank_of};
ghost use Rattle.feats_diff.specs.changes.Views.{part_text};
ghost use Rattle.cargo_plans.specs.plan_units.UnitViews.{unit_text};

use crate::comparisons::differences::builds::Build;
use cargo_plans::{Place, Unit};
use cargo_workspaces::Package;
use feats_diff::changes::{Part, Rank, rank_of};
use std::alloc::{AllocError, Global};

/// Returns the name of `place`, where the target platforms have the names `targets`.
fn place_name<'n>(targets: &[&'n str], place: Place) -> &'n str
    ensures { result.now ≡ names.place_name (texts targets.now) place }
{
    match place {
        Place::Host => "host",
        Place::Target(number) => match targets.get(number) {
            Some(name) => *name,
            None => "",
        },
    }
}

/// Returns the package that `unit` is.
fn package_of<'b, 'v>(build: &Build<'b, 'v, '_, '_, '_>, unit: &Unit<'_>) -> Option<&'b Package<'v>>
    ensures { option_map (λ p. package_text p.now) result ≡ slice_get (build_text build.now).workspace.packages (unit_text unit.now).number }
{
    build.workspace.packages().get(unit.package)
}

/// Returns unit `number` of the plan, which is `package`; `rank` is that of its version.
fn part_at<'b, 'v, 'w>(
    build: &Build<'b, 'v, 'w, '_, '_>,
    number: usize,
    unit: &'b Unit<'w>,
    package: &'b Package<'v>,
    rank: Rank,
) -> Part<'b, 'v, 'w>
    requires { rank ≡ rank_of (package_text «package».now).version }
    ensures { part_text result ≡ spec.part_at (build_text build.now).targets number (unit_text unit.now) (package_text «package».now) }
{
    Part {
        unit: number,
        place: place_name(build.targets, unit.place),
        package,
        features: unit.features.as_slice(),
        rank,
    }
}

/// Appends unit `number` of the plan.
fn push_part<'b, 'v, 'w>(
    alloc: Global,
    build: &Build<'b, 'v, 'w, '_, '_>,
    parts: &mut Vec<Part<'b, 'v, 'w>>,
    number: usize,
    unit: &'b Unit<'w>,
) -> Result<(), AllocError>
    ensures { OnOk result (map part_text parts.new.items ≡ map part_text parts.old.items ++ spec.part_of (build_text build.now).targets (build_text build.now).workspace.packages number (unit_text unit.now)) }
{
    match package_of(build, unit) {
        Some(package) => {
            let rank = rank_of(alloc, package.version)?;
            let part = part_at(build, number, unit, package, rank);
            parts.push(part)?;
            Ok(())
        }
        None => Ok(()),
    }
}

/// Returns the units of the plan of `build`.
pub(crate) fn parts_of<'b, 'v, 'w>(
    alloc: Global,
    build: &Build<'b, 'v, 'w, '_, '_>,
) -> Result<Vec<Part<'b, 'v, 'w>>, AllocError>
    ensures { IfOk result (λ parts. map part_text parts.items ≡ spec.parts_of (build_text build.now)) }
{
    let units = build.plan.units();
    let mut parts = Vec::with_capacity(alloc, units.len())?;
    for (number, unit) in units.iter().enumerate() {
        push_part(alloc, build, &mut parts, number, unit)?;
    }
    Ok(parts)
}
