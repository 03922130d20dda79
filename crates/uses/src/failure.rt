//! The error of an example.
use byte_devices::ReadError;
use guppy_features::Error;
use guppy_features::graph_platforms::PlatformFault;
use platform_specs::CfgFault;
use row_files::RowFileError;
use std::alloc::{AllocError, AllocFailed};

/// The error of an example. A user's program would say more.
#[derive(Clone, Copy)]
pub enum Failure {
    /// The text isn't a row file.
    Rows,
    /// The graph lacks a feature or a package.
    Unknown,
    /// A file can't be read.
    Unread,
    /// The text isn't a cfg text.
    Cfg,
    /// The graph has a malformed platform spec.
    Spec,
    /// An allocation failed.
    Memory,
}

impl From<ReadError> for Failure {
    fn from(error: ReadError) -> Failure {
        match error {
            ReadError::Failed => Failure::Unread,
            ReadError::Memory => Failure::Memory,
        }
    }
}

impl From<CfgFault> for Failure {
    fn from(fault: CfgFault) -> Failure {
        match fault {
            CfgFault::Malformed { .. } => Failure::Cfg,
            CfgFault::Memory => Failure::Memory,
        }
    }
}

impl<'g> From<PlatformFault<'g>> for Failure {
    fn from(fault: PlatformFault<'g>) -> Failure {
        match fault {
            PlatformFault::Malformed { .. } => Failure::Spec,
            PlatformFault::Memory => Failure::Memory,
        }
    }
}

impl From<RowFileError> for Failure {
    fn from(error: RowFileError) -> Failure {
        match error {
            RowFileError::Memory => Failure::Memory,
            _ => Failure::Rows,
        }
    }
}

impl<'a> From<Error<'a>> for Failure {
    fn from(error: Error<'a>) -> Failure {
        match error {
            Error::Memory => Failure::Memory,
            _ => Failure::Unknown,
        }
    }
}

impl From<AllocError> for Failure {
    fn from(_: AllocError) -> Failure {
        Failure::Memory
    }
}

impl<T: Drop> From<AllocFailed<T>> for Failure {
    fn from(_: AllocFailed<T>) -> Failure {
        Failure::Memory
    }
}
