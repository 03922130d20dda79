//! What the plans of single members build.
ghost use Rattle.std.specs.Prelude.{◌≡◌, ◌++◌, IfOk, OnOk, map, flat_map};
ghost use Rattle.cargo_plans.specs.plan_units.UnitViews.{unit_text};
ghost use Rattle.feats_duplicates.specs.Alone as spec;
ghost use Rattle.feats_duplicates.specs.Views.{member_plan_text, member_unit_text};

use crate::member_plans::MemberPlan;
use crate::outcomes::Outcome;
use cargo_plans::Unit;
use std::alloc::{AllocError, Global};

/// A package that is built for a place in the plan of one member alone.
#[derive(Clone, Copy)]
pub struct MemberUnit<'u, 'w> {
    /// The number of the member.
    pub member: usize,
    pub unit: &'u Unit<'w>,
}

/// Appends `units`, which are those of the plan of `member`.
fn push_units<'u, 'w>(
    rows: &mut Vec<MemberUnit<'u, 'w>>,
    member: usize,
    units: &'u [Unit<'w>],
) -> Result<(), AllocError>
    ensures { OnOk result (map member_unit_text rows.new.items ≡ map member_unit_text rows.old.items ++ map (spec.built_by member) (map unit_text units.now)) }
{
    for unit in units {
        rows.push(MemberUnit { member, unit })?;
    }
    Ok(())
}

/// Appends what `plan` builds.
fn push_plan<'u, 'w>(
    rows: &mut Vec<MemberUnit<'u, 'w>>,
    plan: &'u MemberPlan<'w>,
) -> Result<(), AllocError>
    ensures { OnOk result (map member_unit_text rows.new.items ≡ map member_unit_text rows.old.items ++ spec.units_of_plan (member_plan_text plan.now)) }
{
    match &plan.outcome {
        Outcome::Built(units) => push_units(rows, plan.member, units),
        Outcome::NotPlanned(_) => Ok(()),
    }
}

/// Returns what `plans` build, in their order.
pub(crate) fn member_units<'u, 'w>(
    alloc: Global,
    plans: &'u [MemberPlan<'w>],
) -> Result<Vec<MemberUnit<'u, 'w>>, AllocError>
    ensures { IfOk result (λ rows. map member_unit_text rows.items ≡ flat_map spec.units_of_plan (map member_plan_text plans.now)) }
{
    let mut rows = Vec::new(alloc);
    for plan in plans {
        push_plan(&mut rows, plan)?;
    }
    Ok(rows)
}
