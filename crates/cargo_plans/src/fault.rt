//! Why there is no plan.
ghost use Rattle.std.specs.Prelude.{◌≡◌};
ghost use Rattle.cargo_plans.specs.inner.Faults as spec;

use crate::plan_steps::StepFault;
use plan_words::WordFault;

/// The reason why there is no plan.
#[derive(Drop)]
pub enum PlanFault<'w> {
    /// The fault of the command line. It is never `WordFault::Memory`: `plan` returns `StepFault::Memory` if an allocation fails.
    Words(WordFault<'w>),
    /// The fault of a step of the plan, for a command line without a fault.
    Steps(StepFault<'w>),
}

/// Returns the fault of a plan whose command line has the fault `fault`.
pub(crate) fn of_words<'w>(fault: WordFault<'w>) -> PlanFault<'w>
    ensures { result ≡ spec.of_words fault.entry }
{
    match fault {
        WordFault::Memory => PlanFault::Steps(StepFault::Memory),
        refused => PlanFault::Words(refused),
    }
}
