//! Why the specs of a graph can't be evaluated.
ghost use Rattle.std.specs.Prelude.{◌≡◌};

use std::alloc::{AllocError, AllocFailed};
use thiserror::Error;

/// Why the specs of a graph can't be evaluated for a target.
#[derive(Debug, Drop, Error)]
pub enum PlatformFault<'g> {
    /// `spec`, which a declaration of the graph names, is no platform spec. A spec begins as `spec` does up to the byte `at`, and
    /// none goes on as it does there.
    #[error("malformed platform spec `{spec}` at byte {at}")]
    Malformed { spec: &'g str, at: usize },
    /// An allocation failed.
    #[error("out of memory")]
    Memory,
}

impl<'g> From<AllocError> for PlatformFault<'g> {
    ghost use Rattle.guppy_features.specs.declared.graph_platforms.fault.PlatformFault.TheVariants.{Memory};

    ghost from_gives = { λ _ fault. fault ≡ Memory };

    fn from(_: AllocError) -> PlatformFault<'g> {
        PlatformFault::Memory
    }
}

impl<'g, T: Drop> From<AllocFailed<T>> for PlatformFault<'g> {
    ghost use Rattle.guppy_features.specs.declared.graph_platforms.fault.PlatformFault.TheVariants.{Memory};

    ghost from_gives = { λ _ fault. fault ≡ Memory };

    fn from(_: AllocFailed<T>) -> PlatformFault<'g> {
        PlatformFault::Memory
    }
}
