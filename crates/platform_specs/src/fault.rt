//! The faults of platform specs and of cfg texts.
ghost use Rattle.std.specs.Prelude.{◌≡◌};

use std::alloc::{AllocError, AllocFailed};
use thiserror::Error;

/// The reason why a text is no platform spec.
#[derive(Debug, Drop, Error)]
pub enum SpecFault {
    /// The text isn't a platform spec. Some spec begins with the first `at` bytes of the text. If a character
    /// is next, no spec begins with this one too.
    #[error("malformed platform spec at byte {at}")]
    Malformed { at: usize },
    /// An allocation failed.
    #[error("out of memory")]
    Memory,
}

impl From<AllocError> for SpecFault {
    ghost use Rattle.platform_specs.specs.declared.fault.SpecFault.TheVariants.{Memory};

    ghost from_gives = { λ _ fault. fault ≡ Memory };

    fn from(_: AllocError) -> SpecFault {
        SpecFault::Memory
    }
}

/// The reason why a cfg text describes no target.
#[derive(Debug, Drop, Error)]
pub enum CfgFault {
    /// Line `line`, counted from 1, is neither empty nor a fact; it is the first such line.
    #[error("malformed cfg line {line}")]
    Malformed { line: usize },
    /// An allocation failed.
    #[error("out of memory")]
    Memory,
}

impl From<AllocError> for CfgFault {
    ghost use Rattle.platform_specs.specs.declared.fault.CfgFault.TheVariants.{Memory};

    ghost from_gives = { λ _ fault. fault ≡ Memory };

    fn from(_: AllocError) -> CfgFault {
        CfgFault::Memory
    }
}

impl<T: Drop> From<AllocFailed<T>> for CfgFault {
    ghost use Rattle.platform_specs.specs.declared.fault.CfgFault.TheVariants.{Memory};

    ghost from_gives = { λ _ fault. fault ≡ Memory };

    fn from(_: AllocFailed<T>) -> CfgFault {
        CfgFault::Memory
    }
}
