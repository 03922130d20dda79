//! The finding about a rule.
ghost use Rattle.std.specs.Prelude.{◌≡◌, IfOk, map, option_map};
ghost use Rattle.plan_whys.specs.StepViews.{spot_text};
ghost use Rattle.feats_policies.specs.Views.{kind_text};
ghost use Rattle.feats_policies.specs.checks.Found as spec;
ghost use Rattle.feats_policies.specs.checks.Views.{build_text};
ghost use Rattle.feats_policies.specs.checks.inner.Returned.{found_text};

use crate::RuleKind;
use crate::checks::build::Build;
use crate::checks::meaning::{Meaning, meaning_of};
use crate::checks::on_spots::{spots_on, spots_on_for};
use crate::checks::packages::{built_among, repeated, wholes};
use crate::checks::platforms::is_platform;
use plan_names::{Named, packages_matching};
use plan_whys::Spot;
use std::alloc::{AllocError, Global};

/// The finding about a rule.
#[derive(Drop)]
pub(crate) enum Found<'w> {
    Kept,
    /// It is broken, at these spots.
    Broken(Vec<Spot<'w>>),
    /// Its word has several meanings.
    Several {
        word: &'w str,
        candidates: Vec<Named<'w>>,
    },
    /// Its triple is that of no platform of the build.
    NoPlatform(&'w str),
}

/// Returns the finding about a `deny` whose parts are on at `spots`.
fn denied_at<'w>(spots: Vec<Spot<'w>>) -> Found<'w>
    ensures { found_text result ≡ spec.denied_at (map spot_text spots.entry.items) }
{
    if spots.is_empty() {
        Found::Kept
    } else {
        Found::Broken(spots)
    }
}

/// Returns the finding about a `require` whose parts are on at `spots`.
fn required_at<'w>(alloc: Global, spots: &[Spot<'w>]) -> Found<'w>
    ensures { found_text result ≡ spec.required_at (map spot_text spots.now) }
{
    if spots.is_empty() {
        Found::Broken(Vec::new(alloc))
    } else {
        Found::Kept
    }
}

/// Returns the finding about `deny` with this word.
fn denied<'b>(
    alloc: Global,
    build: Build<'b, '_, '_, '_>,
    word: &'b str,
) -> Result<Found<'b>, AllocError>
    ensures { IfOk result (λ found. found_text found ≡ spec.denied (build_text build.entry) word.now) }
{
    match meaning_of(alloc, build.workspace, build.selected, word)? {
        Meaning::Parts(parts) => Ok(denied_at(spots_on(alloc, build, &parts)?)),
        Meaning::Several { word, candidates } => Ok(Found::Several { word, candidates }),
    }
}

/// Returns the finding about `deny` with this word on a platform of `build`.
fn denied_for<'b>(
    alloc: Global,
    build: Build<'b, '_, '_, '_>,
    word: &'b str,
    triple: &str,
) -> Result<Found<'b>, AllocError>
    ensures { IfOk result (λ found. found_text found ≡ spec.denied_for (build_text build.entry) word.now triple.now) }
{
    match meaning_of(alloc, build.workspace, build.selected, word)? {
        Meaning::Parts(parts) => Ok(denied_at(spots_on_for(alloc, build, triple, &parts)?)),
        Meaning::Several { word, candidates } => Ok(Found::Several { word, candidates }),
    }
}

/// Returns the finding about `deny` with this word on the platform `triple`.
fn denied_on<'b>(
    alloc: Global,
    build: Build<'b, '_, '_, '_>,
    word: &'b str,
    triple: &'b str,
) -> Result<Found<'b>, AllocError>
    ensures { IfOk result (λ found. found_text found ≡ spec.denied_on (build_text build.entry) word.now triple.now) }
{
    if is_platform(build, triple) {
        denied_for(alloc, build, word, triple)
    } else {
        Ok(Found::NoPlatform(triple))
    }
}

/// Returns the finding about `deny` with this word, on the platform `on` if there is one.
fn denied_where<'b>(
    alloc: Global,
    build: Build<'b, '_, '_, '_>,
    word: &'b str,
    on: Option<&'b str>,
) -> Result<Found<'b>, AllocError>
    ensures { IfOk result (λ found. found_text found ≡ spec.denied_where (build_text build.entry) word.now (option_map (λ t. t.now) on.entry)) }
{
    match on {
        None => denied(alloc, build, word),
        Some(triple) => denied_on(alloc, build, word, triple),
    }
}

/// Returns the finding about `require` with this word.
fn required<'b>(
    alloc: Global,
    build: Build<'b, '_, '_, '_>,
    word: &'b str,
) -> Result<Found<'b>, AllocError>
    ensures { IfOk result (λ found. found_text found ≡ spec.required (build_text build.entry) word.now) }
{
    match meaning_of(alloc, build.workspace, build.selected, word)? {
        Meaning::Parts(parts) => {
            let spots = spots_on(alloc, build, &parts)?;
            Ok(required_at(alloc, &spots))
        }
        Meaning::Several { word, candidates } => Ok(Found::Several { word, candidates }),
    }
}

/// Returns the finding about packages that are denied, `numbers`.
fn denied_packages<'b>(
    alloc: Global,
    build: Build<'b, '_, '_, '_>,
    numbers: &[usize],
) -> Result<Found<'b>, AllocError>
    ensures { IfOk result (λ found. found_text found ≡ spec.denied_packages (build_text build.entry) numbers.now) }
{
    if numbers.is_empty() {
        Ok(Found::Kept)
    } else {
        let named = wholes(alloc, numbers)?;
        Ok(Found::Broken(spots_on(alloc, build, &named)?))
    }
}

/// Returns the finding about `deny-duplicates` with this word.
fn duplicates_denied<'b>(
    alloc: Global,
    build: Build<'b, '_, '_, '_>,
    word: &str,
) -> Result<Found<'b>, AllocError>
    ensures { IfOk result (λ found. found_text found ≡ spec.duplicates_denied (build_text build.entry) word.now) }
{
    let numbers = packages_matching(alloc, build.workspace, word)?;
    let among = built_among(alloc, build, &numbers)?;
    let repeated = repeated(alloc, build.workspace, &among)?;
    denied_packages(alloc, build, &repeated)
}

/// Returns the finding about a rule of this kind in `build`.
pub(crate) fn found_of<'b>(
    alloc: Global,
    build: Build<'b, '_, '_, '_>,
    kind: RuleKind<'b>,
) -> Result<Found<'b>, AllocError>
    ensures { IfOk result (λ found. found_text found ≡ spec.found_of (build_text build.entry) (kind_text kind.entry)) }
{
    match kind {
        RuleKind::Deny { feature, on } => denied_where(alloc, build, feature, on),
        RuleKind::Require { feature } => required(alloc, build, feature),
        RuleKind::DenyDuplicates { spec } => duplicates_denied(alloc, build, spec),
    }
}
