//! Steps with all reasons of their spots.
ghost use Rattle.std.specs.Prelude.{IfOk, map};
ghost use Rattle.cargo_plans.specs.plan_steps.PlanViews.{plan_text};
ghost use Rattle.plan_whys.specs.Reasons.{AreReasoned, IsReasoned};
ghost use Rattle.plan_whys.specs.StepViews.{reasoned_text, why_text};

use crate::direct_reasons::reasons;
use crate::steps::{ReasonedStep, WhyStep};
use cargo_plans::Plan;
use std::alloc::{AllocError, Global};

/// Returns `step`, with each reason why its spot is on in `plan`.
fn reasoned_step<'p>(
    alloc: Global,
    plan: &'p Plan<'_>,
    step: &WhyStep<'p>,
) -> Result<ReasonedStep<'p>, AllocError>
    ensures { IfOk result (λ reasoned. IsReasoned (plan_text plan.now).on (why_text step.now) (reasoned_text reasoned)) }
{
    Ok(ReasonedStep {
        step: *step,
        reasons: reasons(alloc, plan, step.at)?,
    })
}

/// Returns `steps`, each with the reasons that `reasons` returns for its spot. An allocation's failure is the only error.
pub fn reasoned_steps<'p>(
    alloc: Global,
    plan: &'p Plan<'_>,
    steps: &[WhyStep<'p>],
) -> Result<Vec<ReasonedStep<'p>>, AllocError>
    ensures { IfOk result (λ reasoned. AreReasoned (plan_text plan.now).on (map why_text steps.now) (map reasoned_text reasoned.items)) }
{
    let mut reasoned = Vec::with_capacity(alloc, steps.len())?;
    for step in steps {
        reasoned.push(reasoned_step(alloc, plan, step)?)?;
    }
    Ok(reasoned)
}
