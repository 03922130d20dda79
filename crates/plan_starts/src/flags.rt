//! The entries that start, by number.
ghost use Rattle.std.specs.Prelude.{◌≡◌, ◌++◌, ◌∷◌, [], IfOk, OnOk, if◌then◌else◌, map};
ghost use Rattle.feature_labels.specs.Names.LabelName.{base};
ghost use Rattle.plan_starts.specs.step_visits.Visits.{place_view};
ghost use Rattle.plan_starts.specs.Starts as spec;
ghost use Rattle.plan_starts.specs.Starts.{times};
ghost use Rattle.plan_starts.specs.StartViews.{starts_text};

use crate::starts::Starts;
use crate::step_visits::FeatureLabel;
use std::alloc::{AllocError, Global};

/// Returns the flags of the host's entries, then those of each of `count` target platforms.
fn joined(
    alloc: Global,
    host: &[bool],
    target: &[bool],
    count: usize,
) -> Result<Vec<bool>, AllocError>
    ensures { IfOk result (λ flags. flags.items ≡ host.now ++ times count target.now) }
{
    let mut flags = Vec::from_slice(alloc, host)?;
    for number in 0..count {
        flags.extend_from_slice(target)?;
    }
    Ok(flags)
}

/// Returns whether each entry starts with its dependencies for development. `targets` is the number of target platforms.
pub fn dev_flags(alloc: Global, targets: usize, starts: &Starts) -> Result<Vec<bool>, AllocError>
    ensures { IfOk result (λ flags. flags.items ≡ spec.dev_flags targets (starts_text starts.now)) }
{
    joined(alloc, &starts.dev_macros, &starts.dev_others, targets)
}

/// Appends the base of entry `ix`, if it starts.
fn push_base(
    places: &mut Vec<(usize, FeatureLabel<'static>)>,
    ix: usize,
    flag: bool,
) -> Result<(), AllocError>
    ensures { OnOk result (map place_view places.new.items ≡ map place_view places.old.items ++ (if flag then (ix, base) ∷ [] else [])) }
{
    if flag {
        places.push((ix, FeatureLabel::Base))?;
    }
    Ok(())
}

/// Returns the bases of the entries that start.
fn bases_of(
    alloc: Global,
    flags: &[bool],
) -> Result<Vec<(usize, FeatureLabel<'static>)>, AllocError>
    ensures { IfOk result (λ places. map place_view places.items ≡ spec.bases_of flags.now) }
{
    let mut places = Vec::new(alloc);
    for (ix, flag) in flags.iter().enumerate() {
        push_base(&mut places, ix, *flag)?;
    }
    Ok(places)
}

/// Returns the places at which step `built` starts: the bases of the entries that start. `targets` is the number of target platforms.
pub fn start_places(
    alloc: Global,
    targets: usize,
    starts: &Starts,
) -> Result<Vec<(usize, FeatureLabel<'static>)>, AllocError>
    ensures { IfOk result (λ places. map place_view places.items ≡ spec.start_places targets (starts_text starts.now)) }
{
    let flags = joined(alloc, &starts.hosts, &starts.others, targets)?;
    bases_of(alloc, &flags)
}
