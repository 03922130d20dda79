//! The reasons why rows are rejected.
use std::alloc::{AllocError, AllocFailed};
use thiserror::Error;

/// The fault of a row.
#[derive(Clone, Copy, PartialEq, Eq, Debug, Error)]
pub enum RowFault {
    /// A Feature or Dep row before any Package row.
    #[error("no package")]
    NoPackage,
    /// A Package row whose id an earlier row has.
    #[error("duplicate package")]
    DuplicatePackage,
    /// A Feature row whose name an earlier row of its package has.
    #[error("duplicate feature")]
    DuplicateFeature,
    /// A Dep row whose target is the id of no package.
    #[error("unknown target")]
    UnknownTarget,
    /// A Dep row whose pair of packages already has a link of another name.
    #[error("other name")]
    OtherName,
    /// An allocation failed, or the rows are over a [limit](../../../docs/DIFFERENCES.md#limits).
    #[error("out of memory")]
    Memory,
}

/// A fault and the number of its row, counted from 0. `Memory` is reported for row 0.
#[derive(Clone, Copy, PartialEq, Eq, Debug)]
pub struct RowError {
    pub row: usize,
    pub fault: RowFault,
}

impl RowError {
    ghost use Rattle.std.specs.Prelude.{◌≡◌};
    ghost use Rattle.guppy_packages.specs.Graph.{error_row};

    /// Returns the error of `fault` in row `row`; the row is 0 if the fault is `Memory`.
    pub(crate) fn new(row: usize, fault: RowFault) -> RowError
        ensures fault { result.fault ≡ fault }
        ensures row { result.row ≡ error_row fault row }
    {
        match fault {
            RowFault::Memory => RowError { row: 0, fault },
            _ => RowError { row, fault },
        }
    }
}

impl From<AllocError> for RowFault {
    ghost use Rattle.std.specs.Prelude.{◌≡◌};
    ghost use Rattle.guppy_packages.specs.declared.row_error.RowFault.TheVariants.{Memory};

    ghost from_gives = { λ _ e. e ≡ Memory };

    fn from(_: AllocError) -> RowFault {
        RowFault::Memory
    }
}

impl<T: Drop> From<AllocFailed<T>> for RowFault {
    ghost use Rattle.std.specs.Prelude.{◌≡◌};
    ghost use Rattle.guppy_packages.specs.declared.row_error.RowFault.TheVariants.{Memory};

    ghost from_gives = { λ _ e. e ≡ Memory };

    fn from(_: AllocFailed<T>) -> RowFault {
        RowFault::Memory
    }
}

impl From<AllocError> for RowError {
    ghost use Rattle.std.specs.Prelude.{◌≡◌};
    ghost use Rattle.guppy_packages.specs.declared.row_error.RowFault.TheVariants.{Memory};

    ghost from_gives = { λ _ e. e ≡ record { row = 0; fault = Memory } };

    fn from(_: AllocError) -> RowError {
        RowError {
            row: 0,
            fault: RowFault::Memory,
        }
    }
}
