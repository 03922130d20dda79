//! The spots at which parts are looked for.
ghost use Rattle.std.specs.Prelude.{◌≡◌, IfOk, map};
ghost use Rattle.std.specs.List.{list_any};
ghost use Rattle.cargo_plans.specs.built_parts.BuiltViews.{state_in};
ghost use Rattle.cargo_plans.specs.plan_steps.PlanViews.{plan_text};
ghost use Rattle.plan_whys.specs.StepViews.{spot_text};
ghost use Rattle.feats_why_not.specs.PartView.{part_text};
ghost use Rattle.feats_why_not.specs.inner.Lists as spec;

use crate::builds::Builds;
use crate::parts::{OffPart, spot_on};
use crate::standings::{Standing, standing_of};
use cargo_plans::Plan;
use plan_names::wider::widenings::sides_of;
use plan_rows::Side;
use plan_whys::Spot;
use std::alloc::{AllocError, Global};

/// Returns `part` on the side on which it is built; on the target side, if it isn't.
fn first_spot<'w>(builds: &Builds<'_>, part: OffPart<'w>) -> Spot<'w>
    ensures { spot_text result ≡ spec.first_spot (state_in builds.now.parts) (part_text part.entry) }
{
    match standing_of(&builds.parts, part) {
        Standing::BuiltOn(side) => spot_on(side, part),
        Standing::UnbuiltOn(_) | Standing::Off => spot_on(Side::Target, part),
    }
}

/// Returns the spot of each of `parts` on the side on which it is built, or on the target side.
pub(crate) fn first_spots<'w>(
    alloc: Global,
    builds: &Builds<'_>,
    parts: &[OffPart<'w>],
) -> Result<Vec<Spot<'w>>, AllocError>
    ensures { IfOk result (λ spots. map spot_text spots.items ≡ map (spec.first_spot (state_in builds.now.parts)) (map part_text parts.now)) }
{
    let mut spots = Vec::with_capacity(alloc, parts.len())?;
    for part in parts {
        spots.push(first_spot(builds, *part))?;
    }
    Ok(spots)
}

/// Returns whether `part` is on in `plan`, on either side.
fn is_on(plan: &Plan<'_>, part: OffPart<'_>) -> bool
    ensures { result ≡ spec.has_part (plan_text plan.now).on (part_text part.entry) }
{
    let sides = sides_of(plan, part.package, part.label);
    sides.target || sides.host
}

/// Returns whether one of `parts` is on in `plan`.
pub(crate) fn is_one_on(plan: &Plan<'_>, parts: &[OffPart<'_>]) -> bool
    ensures { result ≡ list_any (λ part. spec.has_part (plan_text plan.now).on (part_text part)) parts.now }
{
    parts.iter().any(|part| is_on(plan, *part))
}
