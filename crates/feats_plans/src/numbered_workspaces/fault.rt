//! The faults of a document that has no workspace.
ghost use Rattle.std.specs.Prelude.{◌≡◌};

use cargo_json::DocumentFault;
use std::alloc::{AllocError, AllocFailed};
use thiserror::Error;

/// The reason why a document has no workspace. Its `Display` is one line.
#[derive(Debug, Drop, Error)]
pub enum WorkspaceFault<'v> {
    /// The document lacks what is read of it, or contradicts itself.
    #[error("{fault}")]
    Document {
        fault: DocumentFault,
    },
    /// The name of a feature begins with `[`, as no name of Cargo does.
    #[error("package {package:?}: feature {name:?} begins with \"[\"; rename it")]
    FeatureName {
        package: &'v str,
        name: &'v str,
    },
    /// Two declarations of a package lead to one package, by different names.
    #[error("package {package:?}: dependencies {first:?} and {second:?} are one package; give both one name")]
    TwoNames {
        package: &'v str,
        first: &'v str,
        second: &'v str,
    },
    #[error("out of memory")]
    Memory,
}

impl From<AllocError> for WorkspaceFault<'_> {
    ghost use Rattle.feats_plans.specs.declared.numbered_workspaces.fault.WorkspaceFault.TheVariants.{Memory};

    ghost from_gives = { λ _ fault. fault ≡ Memory };

    fn from(_: AllocError) -> Self {
        WorkspaceFault::Memory
    }
}

impl<T: Drop> From<AllocFailed<T>> for WorkspaceFault<'_> {
    ghost use Rattle.feats_plans.specs.declared.numbered_workspaces.fault.WorkspaceFault.TheVariants.{Memory};

    ghost from_gives = { λ _ fault. fault ≡ Memory };

    fn from(_: AllocFailed<T>) -> Self {
        WorkspaceFault::Memory
    }
}
