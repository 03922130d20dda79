//! Why a text is no policy.
ghost use Rattle.std.specs.Prelude.{◌≡◌};

use crate::problem::Problem;
use std::alloc::{AllocError, AllocFailed};

/// The reason why a text is no policy.
#[derive(Drop)]
pub enum PolicyFault {
    /// Line `line`, from 1, is malformed; it is the first such line.
    Malformed { line: usize, problem: Problem },
    /// An allocation fails.
    Memory,
}

impl From<AllocError> for PolicyFault {
    ghost use Rattle.feats_policies.specs.declared.fault.PolicyFault.TheVariants.{Memory};

    ghost from_gives = { λ _ fault. fault ≡ Memory };

    fn from(_: AllocError) -> Self {
        PolicyFault::Memory
    }
}

impl<T: Drop> From<AllocFailed<T>> for PolicyFault {
    ghost use Rattle.feats_policies.specs.declared.fault.PolicyFault.TheVariants.{Memory};

    ghost from_gives = { λ _ fault. fault ≡ Memory };

    fn from(_: AllocFailed<T>) -> Self {
        PolicyFault::Memory
    }
}
