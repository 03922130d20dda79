//! The faults of a command line.
ghost use Rattle.std.specs.Prelude.{◌≡◌};

use std::alloc::{AllocError, AllocFailed};

/// The reason why a command line is refused.
#[derive(Drop)]
pub enum WordFault<'s> {
    /// No package fits the word.
    UnknownPackage(&'s str),
    /// Several packages fit the word: their numbers, ascending.
    AmbiguousPackage {
        word: &'s str,
        candidates: Vec<usize>,
    },
    /// The selection has no package: the workspace has no member, or no default member.
    NoPackages,
    /// Features are asked for, and no member is selected.
    NoMember,
    /// No selected member has the feature or the dependency that the word names.
    UnknownFeature(&'s str),
    /// Package `package` has no such feature.
    NoFeature {
        package: usize,
        feature: &'s str,
    },
    /// Package `package` declares no such dependency.
    NoDependency {
        package: usize,
        dependency: &'s str,
    },
    /// An allocation fails.
    Memory,
}

impl From<AllocError> for WordFault<'_> {
    ghost use Rattle.plan_words.specs.declared.fault.WordFault.TheVariants.{Memory};

    ghost from_gives = { λ _ fault. fault ≡ Memory };

    fn from(_: AllocError) -> Self {
        WordFault::Memory
    }
}

impl<T: Drop> From<AllocFailed<T>> for WordFault<'_> {
    ghost use Rattle.plan_words.specs.declared.fault.WordFault.TheVariants.{Memory};

    ghost from_gives = { λ _ fault. fault ≡ Memory };

    fn from(_: AllocFailed<T>) -> Self {
        WordFault::Memory
    }
}
