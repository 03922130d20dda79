//! The platforms of a build, and what is built for each.
ghost use Rattle.std.specs.Prelude.{◌≡◌, IfOk, map, filter};
ghost use Rattle.std.specs.List.{list_any};
ghost use Rattle.std.specs.Str.{bytes_eq};
ghost use Rattle.cargo_workspaces.specs.Views.{texts};
ghost use Rattle.cargo_plans.specs.plan_units.UnitViews.{unit_text};
ghost use Rattle.feats_policies.specs.checks.Builds as spec;
ghost use Rattle.feats_policies.specs.checks.Views.{build_text};
ghost use Rattle.feats_policies.specs.checks.inner.Marks.{Marks};

use crate::checks::build::Build;
use crate::checks::marks::marked;
use cargo_plans::{Place, Side, Unit};
use std::alloc::{AllocError, Global};

/// Returns whether `triple` is one of `triples`.
fn is_among(triples: &[&str], triple: &str) -> bool
    ensures { result ≡ list_any (bytes_eq triple.now) (texts triples.now) }
{
    for known in triples {
        if triple == *known {
            return true;
        }
    }
    false
}

/// Returns whether `triple` is that of the host or of a target platform of `build`.
pub(crate) fn is_platform(build: Build<'_, '_, '_, '_>, triple: &str) -> bool
    ensures { result ≡ spec.is_platform (build_text build.entry) triple.now }
{
    triple == build.host || is_among(build.targets, triple)
}

/// Returns the triple of `place`.
fn triple_of<'b>(build: Build<'b, '_, '_, '_>, place: Place) -> &'b str
    ensures { result.now ≡ spec.triple_of (build_text build.entry) place }
{
    match place {
        Place::Host => build.host,
        Place::Target(number) => match build.targets.get(number) {
            Some(triple) => *triple,
            None => "",
        },
    }
}

/// Returns whether what is built for `place` has the features of `side`. `split` is true if the resolver tells sides apart.
fn has_side(split: bool, place: Place, side: Side) -> bool
    ensures { result ≡ spec.has_side split place side }
{
    match place {
        Place::Host if split => side.is_host(),
        Place::Host | Place::Target(_) => !side.is_host(),
    }
}

/// Returns whether `unit` is built for the platform `triple`, with the features of `side`.
fn is_built_for(build: Build<'_, '_, '_, '_>, triple: &str, side: Side, unit: &Unit<'_>) -> bool
    ensures { result ≡ spec.is_built_for (build_text build.entry) triple.now side (unit_text unit.now) }
{
    has_side(build.split, unit.place, side) && triple == triple_of(build, unit.place)
}

/// Returns the numbers of those of `units` that are built for the platform `triple`, with the features of `side`.
fn numbers_for(
    alloc: Global,
    build: Build<'_, '_, '_, '_>,
    triple: &str,
    side: Side,
    units: &[Unit<'_>],
) -> Result<Vec<usize>, AllocError>
    ensures { IfOk result (λ numbers. numbers.items ≡ map (λ u. u.number) (filter (spec.is_built_for (build_text build.entry) triple.now side) (map unit_text units.now))) }
{
    let mut numbers = Vec::new(alloc);
    for unit in units {
        if is_built_for(build, triple, side, unit) {
            numbers.push(unit.package)?;
        }
    }
    Ok(numbers)
}

/// Returns for each of `count` packages whether it is built for the platform `triple`, with the features of `side`.
pub(crate) fn built_for(
    alloc: Global,
    build: Build<'_, '_, '_, '_>,
    triple: &str,
    side: Side,
    count: usize,
) -> Result<Vec<bool>, AllocError>
    ensures { IfOk result (λ list. Marks count list.items (spec.built_for (build_text build.entry) triple.now side)) }
{
    let numbers = numbers_for(alloc, build, triple, side, build.plan.units())?;
    marked(alloc, count, &numbers)
}
