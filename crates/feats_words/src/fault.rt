//! The faults of the words.
ghost use Rattle.std.specs.Prelude.{◌≡◌};

use std::alloc::{AllocError, AllocFailed};

/// Why the words of a command can't be read.
#[derive(Clone, Copy, Debug)]
pub enum WordsFault<'a> {
    /// The word isn't `TRIPLE=CFGFILE`.
    Platform(&'a str),
    /// The word isn't a version of the resolver.
    Resolver(&'a str),
    /// The version of the resolver is given, and the manifest too.
    TwoResolvers,
    /// The word isn't a format.
    Format(&'a str),
    /// A format is given, and `dot` prints a graph alone.
    GraphFormat,
    /// A format is given, and `plan --summary` prints TOML alone.
    SummaryFormat,
    /// `--routes` and `--all` are both given.
    RoutesOfAll,
    /// `list` has neither the word of a package nor `--unused`.
    ListOfNothing,
    /// `list --unused` has the word of a package.
    UnusedOfOne,
    /// The question is about every choice, and `-p` selects packages, or `--exclude` leaves members out.
    PackagesOfEveryChoice,
    /// `--exclude` is given without `--workspace`, which it needs.
    ExcludeAlone,
    /// The word is neither `build` nor `test`.
    Command(&'a str),
    /// The word isn't a decimal number.
    Depth(&'a str),
    /// The word is neither `packages` nor `features`.
    Edges(&'a str),
    /// An allocation failed.
    Memory,
}

impl From<AllocError> for WordsFault<'_> {
    ghost use Rattle.feats_words.specs.declared.fault.WordsFault.TheVariants.{Memory};

    ghost from_gives = { λ _ fault. fault ≡ Memory };

    fn from(_: AllocError) -> Self {
        WordsFault::Memory
    }
}

impl<T: Drop> From<AllocFailed<T>> for WordsFault<'_> {
    ghost use Rattle.feats_words.specs.declared.fault.WordsFault.TheVariants.{Memory};

    ghost from_gives = { λ _ fault. fault ≡ Memory };

    fn from(_: AllocFailed<T>) -> Self {
        WordsFault::Memory
    }
}
