//! Why a policy can't be checked.
ghost use Rattle.std.specs.Prelude.{◌≡◌};

use plan_names::Named;
use std::alloc::{AllocError, AllocFailed};

/// The reason why a policy can't be checked: the first rule that can't be.
#[derive(Drop)]
pub enum CheckFault<'w> {
    /// The word `word` in line `line` has several meanings.
    Several {
        line: usize,
        word: &'w str,
        candidates: Vec<Named<'w>>,
    },
    /// The triple in line `line` is neither that of the host nor that of a target platform.
    NoPlatform {
        line: usize,
        triple: &'w str,
    },
    /// An allocation fails.
    Memory,
}

impl From<AllocError> for CheckFault<'_> {
    ghost use Rattle.feats_policies.specs.declared.checks.fault.CheckFault.TheVariants.{Memory};

    ghost from_gives = { λ _ fault. fault ≡ Memory };

    fn from(_: AllocError) -> Self {
        CheckFault::Memory
    }
}

impl<T: Drop> From<AllocFailed<T>> for CheckFault<'_> {
    ghost use Rattle.feats_policies.specs.declared.checks.fault.CheckFault.TheVariants.{Memory};

    ghost from_gives = { λ _ fault. fault ≡ Memory };

    fn from(_: AllocFailed<T>) -> Self {
        CheckFault::Memory
    }
}
