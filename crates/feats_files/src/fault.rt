//! Why there is no answer.
ghost use Rattle.std.specs.Prelude.{◌≡◌};

use std::alloc::{AllocError, AllocFailed};
use thiserror::Error;

/// Why there is no answer. Its `Display` is the line for standard error.
#[derive(Debug, Drop, Error)]
pub enum Fault {
    /// The words, a file or the document are refused.
    #[error("{message}")]
    Refused { message: String },
    /// As `Refused`, with a message of several lines. Its other control characters are escaped.
    #[error("{message}")]
    Listed { message: String },
    #[error("out of memory")]
    Memory,
    #[error("cannot write the answer")]
    CannotWrite,
}

impl From<AllocError> for Fault {
    ghost use Rattle.feats_files.specs.declared.fault.Fault.TheVariants.{Memory};

    ghost from_gives = { λ _ fault. fault ≡ Memory };

    fn from(_: AllocError) -> Fault {
        Fault::Memory
    }
}

impl<T: Drop> From<AllocFailed<T>> for Fault {
    ghost use Rattle.feats_files.specs.declared.fault.Fault.TheVariants.{Memory};

    ghost from_gives = { λ _ fault. fault ≡ Memory };

    fn from(_: AllocFailed<T>) -> Fault {
        Fault::Memory
    }
}
