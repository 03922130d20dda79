//! Why the specs of a workspace can't be evaluated.
ghost use Rattle.std.specs.Prelude.{◌≡◌};

use std::alloc::{AllocError, AllocFailed};

/// Why the specs of a workspace can't be evaluated on a platform.
#[derive(Drop)]
pub enum PlatformFault<'w> {
    /// `spec`, which a declaration of package `package` names, is no platform spec. A spec begins as `spec` does up to the byte `at`,
    /// and none goes on as it does there.
    Malformed {
        package: usize,
        spec: &'w str,
        at: usize,
    },
    /// An allocation failed.
    Memory,
}

impl From<AllocError> for PlatformFault<'_> {
    ghost use Rattle.plan_rows.specs.declared.platforms.fault.PlatformFault.TheVariants.{Memory};

    ghost from_gives = { λ _ fault. fault ≡ Memory };

    fn from(_: AllocError) -> Self {
        PlatformFault::Memory
    }
}

impl<T: Drop> From<AllocFailed<T>> for PlatformFault<'_> {
    ghost use Rattle.plan_rows.specs.declared.platforms.fault.PlatformFault.TheVariants.{Memory};

    ghost from_gives = { λ _ fault. fault ≡ Memory };

    fn from(_: AllocFailed<T>) -> Self {
        PlatformFault::Memory
    }
}
