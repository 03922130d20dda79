//! Tests whether a version requirement admits a version.
ghost use Rattle.std.specs.Prelude.{◌≡◌, Some, IfOk, option_map};
ghost use Rattle.std.specs.List.{list_all};
ghost use Rattle.semver.specs.Identifiers.{comparator_view, parts_of};
ghost use Rattle.semver.specs.Parse.{req_of, version_parts};
ghost use Rattle.semver.specs.EvalViews.{matches_view};
ghost use Rattle.workspace_documents.specs.Requirements.{plain_comparator, plain_version, numbers_in, admits_numbers, admits};

use semver::{Comparator, Error, Prerelease, Version, VersionReq};
use std::alloc::{AllocError, Global};

/// Returns whether `comparator`, without its pre-release, admits `version`.
fn admits_plainly(comparator: &Comparator, version: &Version) -> bool
    ensures { result ≡ matches_view (plain_comparator (comparator_view comparator.now)) (parts_of version.now) }
{
    let plain = Comparator {
        op: comparator.op,
        major: comparator.major,
        minor: comparator.minor,
        patch: comparator.patch,
        pre: Prerelease::empty(),
    };
    plain.matches(version)
}

/// Parses `text` as a version, without its pre-release and build metadata; None if it isn't a version. The only error is out of
/// memory.
fn numbers_of(alloc: Global, text: &str) -> Result<Option<Version>, AllocError>
    ensures { IfOk result (λ found. option_map parts_of found ≡ numbers_in (version_parts text.now)) }
{
    match Version::parse(alloc, text) {
        Ok(version) => Ok(Some(Version::new(version.major, version.minor, version.patch))),
        Err(error) if error == Error::from(AllocError) => Err(AllocError),
        Err(_) => Ok(None),
    }
}

/// Returns whether every comparator of `requirement`, without its pre-release, admits `version`.
fn admits_each(requirement: &VersionReq, version: &Version) -> bool
    ensures { result ≡ list_all (λ c. matches_view (plain_comparator (comparator_view c)) (parts_of version.now)) requirement.now.comparators.items }
{
    requirement
        .comparators
        .iter()
        .all(|comparator| admits_plainly(comparator, version))
}

/// Returns whether `requirement`, without pre-releases, admits `version`. A text that isn't a requirement admits nothing. The
/// only error is out of memory.
fn admits_version(alloc: Global, requirement: &str, version: &Version) -> Result<bool, AllocError>
    ensures { IfOk result (λ b. b ≡ admits_numbers (req_of requirement.now) (Some (parts_of version.now))) }
{
    match VersionReq::parse(alloc, requirement) {
        Ok(parsed) => Ok(admits_each(&parsed, version)),
        Err(error) if error == Error::from(AllocError) => Err(AllocError),
        Err(_) => Ok(false),
    }
}

/// Returns whether `requirement` admits `version`, both without their pre-releases. A text that isn't a requirement admits
/// nothing, and nothing admits a text that isn't a version. The only error is out of memory.
pub(crate) fn admits(alloc: Global, requirement: &str, version: &str) -> Result<bool, AllocError>
    ensures { IfOk result (λ b. b ≡ admits requirement.now version.now) }
{
    match numbers_of(alloc, version)? {
        Some(version) => admits_version(alloc, requirement, &version),
        None => Ok(false),
    }
}
