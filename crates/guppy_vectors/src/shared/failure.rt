//! The failure of a call.
use byte_devices::ReadError;
use guppy_packages::{RowError, RowFault};
use row_files::RowFileError;
use std::alloc::{AllocError, AllocFailed};

/// The reason why a call has no result.
#[derive(Clone, Copy)]
pub enum Failure {
    /// No call has this name, its words don't fit it, or a file can't be read or parsed.
    Words,
    /// The rows have a fault; this is the first.
    Row(RowError),
    /// An allocation failed.
    Memory,
}

impl From<AllocError> for Failure {
    fn from(_: AllocError) -> Failure {
        Failure::Memory
    }
}

impl<T: Drop> From<AllocFailed<T>> for Failure {
    fn from(_: AllocFailed<T>) -> Failure {
        Failure::Memory
    }
}

impl From<ReadError> for Failure {
    fn from(error: ReadError) -> Failure {
        match error {
            ReadError::Failed => Failure::Words,
            ReadError::Memory => Failure::Memory,
        }
    }
}

impl From<RowFileError> for Failure {
    fn from(error: RowFileError) -> Failure {
        match error {
            RowFileError::Memory => Failure::Memory,
            _ => Failure::Words,
        }
    }
}

impl From<RowError> for Failure {
    fn from(error: RowError) -> Failure {
        match error.fault {
            RowFault::Memory => Failure::Memory,
            _ => Failure::Row(error),
        }
    }
}
