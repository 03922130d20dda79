//! The entries of the steps: how many there are, and their ids.
ghost use Rattle.std.specs.Prelude.{◌≡◌, ◌+◌, ◌*◌, ◌≤◌, IfOk, IfSome, length};
ghost use Rattle.plan_rows.specs.SettingsView.{settings_text};

use plan_rows::{Ids, Platform, Settings};
use std::alloc::{AllocError, Global};

/// Returns the largest number of entries that a step has, if there are `count` packages and `targets` target platforms; None if it
/// doesn't fit.
fn entry_limit(count: usize, targets: usize) -> Option<usize>
    ensures sides { IfSome result (λ limit. 2 * count ≤ limit) }
    ensures places { IfSome result (λ limit. count + targets * count ≤ limit) }
{
    let sides = count.checked_mul(2)?;
    let places = targets.checked_mul(count)?.checked_add(count)?;
    Some(if sides < places { places } else { sides })
}

/// Returns ids for the entries of each step. An error is returned if an allocation fails, or if the number of entries doesn't fit.
pub(crate) fn ids_of(alloc: Global, count: usize, targets: usize) -> Result<Ids, AllocError>
    ensures sides { IfOk result (λ ids. 2 * count ≤ ids) }
    ensures places { IfOk result (λ ids. count + targets * count ≤ ids) }
{
    match entry_limit(count, targets) {
        Some(limit) => Ids::new(alloc, limit),
        None => Err(AllocError),
    }
}

/// Returns the number of target platforms.
pub(crate) fn target_count<P: Platform>(settings: &Settings<'_, '_, P>) -> usize
    ensures text { result ≡ length (settings_text P.holds settings.now).targets }
    ensures own { result ≡ length settings.now.targets.now }
{
    settings.targets.len()
}
