//! The faults of the program.
ghost use Rattle.std.specs.Prelude.{◌≡◌};
ghost use Rattle.guppy_tool.specs.Faults.{refusal_of, read_refusal};
ghost use Rattle.guppy_tool.specs.RowFileRefusals.{file_refusal};

use byte_devices::ReadError;
use row_files::RowFileError;
use std::alloc::{AllocError, AllocFailed};
use thiserror::Error;

/// The reason why the program has no output. Its `Display` is the line for standard error.
#[derive(Debug, Drop, Error)]
pub enum Fault {
    #[error("usage: features FILE COMMAND ARGS")]
    Usage,
    #[error("bad id: {argument}")]
    BadId { argument: String },
    #[error("cannot read")]
    CannotRead,
    /// The bytes aren't a row file. An allocation that fails is `Memory` of the program, never of its file.
    #[error("{0}")]
    RowFile(RowFileError),
    #[error("unknown package: {id}")]
    UnknownPackage { id: String },
    #[error("unknown feature: {id}")]
    UnknownFeature { id: String },
    #[error("out of memory")]
    Memory,
    #[error("cannot write")]
    CannotWrite,
}

impl From<AllocError> for Fault {
    ghost use Rattle.guppy_tool.specs.declared.fault.Fault.TheVariants.{Memory};

    ghost from_gives = { λ _ fault. fault ≡ Memory };

    fn from(_: AllocError) -> Fault {
        Fault::Memory
    }
}

impl<T: Drop> From<AllocFailed<T>> for Fault {
    ghost use Rattle.guppy_tool.specs.declared.fault.Fault.TheVariants.{Memory};

    ghost from_gives = { λ _ fault. fault ≡ Memory };

    fn from(_: AllocFailed<T>) -> Fault {
        Fault::Memory
    }
}

impl From<RowFileError> for Fault {
    ghost from_gives = { λ error fault. refusal_of fault ≡ file_refusal error };

    fn from(error: RowFileError) -> Fault {
        match error {
            RowFileError::Memory => Fault::Memory,
            refused => Fault::RowFile(refused),
        }
    }
}

impl From<ReadError> for Fault {
    ghost from_gives = { λ error fault. refusal_of fault ≡ read_refusal error };

    fn from(error: ReadError) -> Fault {
        match error {
            ReadError::Failed => Fault::CannotRead,
            ReadError::Memory => Fault::Memory,
        }
    }
}

impl Fault {
    ghost use Rattle.guppy_tool.specs.Status.{exit_status};

    /// Returns the exit status: 2 for a fault of the command line, and 1 for every other.
    pub fn status(&self) -> u8
        ensures { result ≡ exit_status self.now }
    {
        match self {
            Fault::Usage | Fault::BadId { .. } => 2,
            _ => 1,
        }
    }
}
