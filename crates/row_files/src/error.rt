//! Errors of reading a row file.
use guppy_packages::RowFault;
use std::alloc::{AllocError, AllocFailed};
use thiserror::Error;

/// Reasons why the bytes of a row file aren't a package graph. Lines are counted from 1.
#[derive(Clone, Copy, PartialEq, Eq, Debug, Error)]
pub enum RowFileError {
    /// The bytes aren't UTF-8.
    #[error("not UTF-8")]
    NotText,
    /// The fields of this line aren't those of a row.
    #[error("line {line}: malformed")]
    Malformed { line: usize },
    /// The row in this line has a fault.
    #[error("line {line}: {fault}")]
    Row { line: usize, fault: RowFault },
    /// An allocation failed, or the lines are over a [limit](../../../docs/DIFFERENCES.md#limits).
    #[error("out of memory")]
    Memory,
}

impl From<AllocError> for RowFileError {
    ghost use Rattle.std.specs.Prelude.{◌≡◌};
    ghost use Rattle.row_files.specs.declared.error.RowFileError.TheVariants.{Memory};

    ghost from_gives = { λ _ error. error ≡ Memory };

    fn from(_: AllocError) -> RowFileError {
        RowFileError::Memory
    }
}

impl<T: Drop> From<AllocFailed<T>> for RowFileError {
    ghost use Rattle.std.specs.Prelude.{◌≡◌};
    ghost use Rattle.row_files.specs.declared.error.RowFileError.TheVariants.{Memory};

    ghost from_gives = { λ _ error. error ≡ Memory };

    fn from(_: AllocFailed<T>) -> RowFileError {
        RowFileError::Memory
    }
}
