//! Why bytes contain no manifests.
ghost use Rattle.std.specs.Prelude.{◌≡◌};

use std::alloc::{AllocError, AllocFailed};

/// Why bytes contain no manifests.
#[derive(Clone, Copy, PartialEq, Eq, Debug)]
pub enum ManifestsFault {
    /// A manifest isn't a TOML document.
    NotToml,
    /// An allocation failed.
    Memory,
}

impl From<AllocError> for ManifestsFault {
    ghost use Rattle.cargo_manifests.specs.declared.inherited.fault.ManifestsFault.TheVariants.{Memory};

    ghost from_gives = { λ _ fault. fault ≡ Memory };

    fn from(_: AllocError) -> ManifestsFault {
        ManifestsFault::Memory
    }
}

impl<T: Drop> From<AllocFailed<T>> for ManifestsFault {
    ghost use Rattle.cargo_manifests.specs.declared.inherited.fault.ManifestsFault.TheVariants.{Memory};

    ghost from_gives = { λ _ fault. fault ≡ Memory };

    fn from(_: AllocFailed<T>) -> ManifestsFault {
        ManifestsFault::Memory
    }
}
