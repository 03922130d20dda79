//! The faults of names.
ghost use Rattle.std.specs.Prelude.{◌≡◌};

use crate::named::Named;
use std::alloc::{AllocError, AllocFailed};

/// The reason why a word names nothing that is wanted.
#[derive(Drop)]
pub enum NameFault<'w> {
    /// Nothing fits the word.
    Unknown {
        word: &'w str,
    },
    /// Several things fit a word that must name one.
    Several {
        word: &'w str,
        candidates: Vec<Named<'w>>,
    },
    /// An allocation fails.
    Memory,
}

impl From<AllocError> for NameFault<'_> {
    ghost use Rattle.plan_names.specs.declared.fault.NameFault.TheVariants.{Memory};

    ghost from_gives = { λ _ fault. fault ≡ Memory };

    fn from(_: AllocError) -> Self {
        NameFault::Memory
    }
}

impl<T: Drop> From<AllocFailed<T>> for NameFault<'_> {
    ghost use Rattle.plan_names.specs.declared.fault.NameFault.TheVariants.{Memory};

    ghost from_gives = { λ _ fault. fault ≡ Memory };

    fn from(_: AllocFailed<T>) -> Self {
        NameFault::Memory
    }
}
