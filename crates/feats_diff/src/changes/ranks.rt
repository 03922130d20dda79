//! The ranks of versions.
ghost use Rattle.std.specs.Prelude.{◌≡◌, IfOk};
ghost use Rattle.feats_diff.specs.changes.Ranks as spec;

use semver::{Error, Version};
use std::alloc::{AllocError, Global};

/// The numbers of a version, by which versions are ordered. A text that isn't a version has zeros, and isn't a release.
#[derive(Clone, Copy)]
pub struct Rank {
    pub major: u64,
    pub minor: u64,
    pub patch: u64,
    /// False for a pre-release, which is before the release with its numbers.
    pub is_release: bool,
}

/// Returns the rank of `version`, which owns nothing.
fn rank_of_version(version: &Version) -> Rank
    ensures { result ≡ spec.rank_of_version version.now }
{
    Rank {
        major: version.major,
        minor: version.minor,
        patch: version.patch,
        is_release: version.pre.is_empty(),
    }
}

/// Returns the rank of the version with the text `version`. The only error is out of memory.
pub fn rank_of(alloc: Global, version: &str) -> Result<Rank, AllocError>
    ensures { IfOk result (λ rank. rank ≡ spec.rank_of version.now) }
{
    match Version::parse(alloc, version) {
        Ok(parsed) => Ok(rank_of_version(&parsed)),
        Err(error) if error == Error::from(AllocError) => Err(AllocError),
        Err(_) => Ok(Rank {
            major: 0,
            minor: 0,
            patch: 0,
            is_release: false,
        }),
    }
}
