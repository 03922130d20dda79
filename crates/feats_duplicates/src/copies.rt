//! Copies of units.
ghost use Rattle.std.specs.Prelude.{◌≡◌, ◌++◌, IfOk, map};
ghost use Rattle.cargo_plans.specs.plan_units.UnitViews.{unit_text};

use cargo_plans::Unit;
use std::alloc::{AllocError, Global};

/// Returns a copy of `unit`.
fn copy_of<'w>(alloc: Global, unit: &Unit<'w>) -> Result<Unit<'w>, AllocError>
    ensures { IfOk result (λ copy. unit_text copy ≡ unit_text unit.now) }
{
    Ok(Unit {
        place: unit.place,
        package: unit.package,
        features: Vec::from_slice(alloc, &unit.features)?,
    })
}

/// Returns copies of `units`.
pub(crate) fn copies_of<'w>(alloc: Global, units: &[Unit<'w>]) -> Result<Vec<Unit<'w>>, AllocError>
    ensures { IfOk result (λ copies. map unit_text copies.items ≡ map unit_text units.now) }
{
    let mut copies = Vec::with_capacity(alloc, units.len())?;
    for unit in units {
        copies.push(copy_of(alloc, unit)?)?;
    }
    Ok(copies)
}
