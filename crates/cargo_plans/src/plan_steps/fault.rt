//! The faults of a plan.
ghost use Rattle.std.specs.Prelude.{◌≡◌};

use crate::plan_units::UnfitWord;
use plan_rows::Side;
use std::alloc::{AllocError, AllocFailed};

/// The reason why there is no plan.
#[derive(Drop)]
pub enum StepFault<'w> {
    /// Tests are built, package `package` is selected and is no member, and it declares dependencies for development.
    NoTests { package: usize },
    /// The word for targets chooses none of the selected packages.
    NoTarget(UnfitWord<'w>),
    /// Target `target` of package `package` is chosen by its name, and a feature that it requires isn't on. Both are numbers.
    Unmet { package: usize, target: usize },
    /// Package `package` starts on side `side`, and nothing of it is on there.
    NotOn { package: usize, side: Side },
    /// A feature of package `package` that is on asks for `dependency`, for which the document has no package.
    Lacking { package: usize, dependency: &'w str },
    /// An allocation fails, or a step has more packages and features than a `usize` counts.
    Memory,
}

impl From<AllocError> for StepFault<'_> {
    ghost use Rattle.cargo_plans.specs.declared.plan_steps.fault.StepFault.TheVariants.{Memory};

    ghost from_gives = { λ _ fault. fault ≡ Memory };

    fn from(_: AllocError) -> Self {
        StepFault::Memory
    }
}
