//! The parts that aren't built in a plan.
ghost use Rattle.std.specs.Prelude.{◌≡◌, IfOk, map};
ghost use Rattle.cargo_plans.specs.built_parts.BuiltViews.{is_built_in};
ghost use Rattle.plan_names.specs.Views.{named_text};
ghost use Rattle.cargo_plans.specs.plan_steps.PlanViews.{plan_text};
ghost use Rattle.feats_why_not.specs.PartView.{part_text};
ghost use Rattle.feats_answers.specs.WhyNotTexts as spec;

use crate::parts::{is_anywhere, label_of};
use cargo_plans::Plan;
use cargo_plans::built_parts::BuiltParts;
use feats_why_not::OffPart;
use plan_names::Named;
use std::alloc::{AllocError, Global};

/// Returns `named` as a label of its package.
fn off_part(named: Named<'_>) -> OffPart<'_>
    ensures { part_text result ≡ spec.off_part (named_text named.entry) }
{
    OffPart {
        package: named.package,
        label: label_of(named.part),
    }
}

/// Returns those of `named` that aren't built, in the plan whose built parts are `built`.
fn unbuilt_parts<'w>(
    alloc: Global,
    built: &BuiltParts<'_>,
    named: &[Named<'w>],
) -> Result<Vec<OffPart<'w>>, AllocError>
    ensures { IfOk result (λ parts. map part_text parts.items ≡ spec.parts_off (is_built_in built.now) (map named_text named.now)) }
{
    let mut parts = Vec::new(alloc);
    for one in named {
        if !is_anywhere(built, *one) {
            parts.push(off_part(*one))?;
        }
    }
    Ok(parts)
}

/// Returns those of `named` that aren't built in `plan`. `split` is whether its resolver tells the sides apart.
pub(crate) fn off_parts<'w>(
    alloc: Global,
    split: bool,
    plan: &Plan<'_>,
    named: &[Named<'w>],
) -> Result<Vec<OffPart<'w>>, AllocError>
    ensures { IfOk result (λ parts. map part_text parts.items ≡ spec.off_parts split (plan_text plan.now) (map named_text named.now)) }
{
    let built = BuiltParts::of_plan(alloc, split, plan)?;
    unbuilt_parts(alloc, &built, named)
}
