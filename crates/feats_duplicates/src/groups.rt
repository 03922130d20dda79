//! Rows in groups, by the number of a package.
ghost use Rattle.std.specs.Prelude.{◌≡◌, ◌++◌, ◌∷◌, [], ℕ, OnOk, nat_eq, if◌then◌else◌};
ghost use Rattle.feats_duplicates.specs.inner.Groups.{group_at};

use std::alloc::AllocError;
use std::collections::BTreeMap;

/// Appends `row` to the group of `key`.
pub(crate) fn add<T: Copy + Drop>(
    groups: &mut BTreeMap<usize, Vec<T>>,
    key: usize,
    row: T,
) -> Result<(), AllocError>
    ensures { OnOk result ((q : ℕ) → group_at groups.new q ≡ group_at groups.old q ++ (if nat_eq q key then row ∷ [] else [])) }
{
    groups.entry(key)?.or_default().push(row)?;
    Ok(())
}

/// Returns the group of `key`; it is empty if nothing was added to it.
pub(crate) fn group_of<T: Drop>(groups: &BTreeMap<usize, Vec<T>>, key: usize) -> &[T]
    ensures { result.now ≡ group_at groups.now key }
{
    match groups.get(&key) {
        Some(group) => group.as_slice(),
        None => &[],
    }
}
