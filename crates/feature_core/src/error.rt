//! Errors of calls on a feature graph.
use feature_edges::{FeatureId, PackageId};
use std::alloc::{AllocError, AllocFailed};

/// The reason why a call on a feature graph failed. It borrows the ids that it names.
#[derive(Clone, Copy, PartialEq, Eq, Debug)]
pub enum Error<'a> {
    /// No package of the graph has this id.
    UnknownPackageId(&'a PackageId),
    /// No feature of the graph has this id.
    UnknownFeatureId(FeatureId<'a>),
    /// The link of the edge from `from` to `to` is present for no kind of dependency.
    FeatureGraphInternalError {
        from: FeatureId<'a>,
        to: FeatureId<'a>,
    },
    /// An allocation failed. Of [`build`](crate::FeatureGraphData::build) also: the graph is over a
    /// [limit](../../../docs/DIFFERENCES.md#limits).
    Memory,
}

impl<'a> From<AllocError> for Error<'a> {
    ghost use Rattle.std.specs.Prelude.{◌≡◌};
    ghost use Rattle.feature_core.specs.declared.error.Error.TheVariants.{Memory};

    ghost from_gives = { λ _ e. e ≡ Memory };

    fn from(_: AllocError) -> Error<'a> {
        Error::Memory
    }
}

impl<'a, T: Drop> From<AllocFailed<T>> for Error<'a> {
    ghost use Rattle.std.specs.Prelude.{◌≡◌};
    ghost use Rattle.feature_core.specs.declared.error.Error.TheVariants.{Memory};

    ghost from_gives = { λ _ e. e ≡ Memory };

    fn from(_: AllocFailed<T>) -> Error<'a> {
        Error::Memory
    }
}
