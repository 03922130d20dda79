//! What changes in packages that are in both plans.
ghost use Rattle.std.specs.Prelude.{◌≡◌, ◌++◌, ◌∷◌, [], List, IfOk, OnOk, filter, map, not};
ghost use Rattle.cargo_workspaces.specs.Views.{texts};
ghost use Rattle.cargo_workspaces.specs.Workspaces.{Text};
ghost use Rattle.feats_diff.specs.changes.Changes as spec;
ghost use Rattle.feats_diff.specs.changes.Changes.{keeps_features};
ghost use Rattle.feats_diff.specs.changes.Views.{change_text, pair_text, part_text};
ghost use Rattle.feats_diff.specs.changes.inner.Names.{HasNames, is_in};

use crate::changes::matches::Pair;
use crate::changes::parts::Part;
use std::alloc::{AllocError, Global};
use std::collections::BTreeSet;

/// A package that is in both plans, and its features that come, go and stay.
#[derive(Drop)]
pub struct Change<'u, 'v, 'w> {
    pub old: Part<'u, 'v, 'w>,
    pub new: Part<'u, 'v, 'w>,
    /// Those of the new part that the old one lacks.
    pub comes: Vec<&'w str>,
    /// Those of the old part that the new one lacks.
    pub goes: Vec<&'w str>,
    /// Those of the new part that the old one has.
    pub stays: Vec<&'w str>,
}

impl Change<'_, '_, '_> {
    /// Returns whether no feature comes or goes.
    pub fn keeps_features(&self) -> bool
        ensures { result ≡ keeps_features (change_text self.now) }
    {
        self.comes.is_empty() && self.goes.is_empty()
    }
}

/// Inserts `name` into `set`.
fn note<'w>(set: &mut BTreeSet<&'w str>, name: &'w str) -> Result<(), AllocError>
    ensures { OnOk result ((names : List Text) → HasNames set.old names → HasNames set.new (names ++ name.entry.now ∷ [])) }
{
    let _is_new = set.insert(name)?;
    Ok(())
}

/// Returns the set of `names`.
fn set_of<'w>(alloc: Global, names: &[&'w str]) -> Result<BTreeSet<&'w str>, AllocError>
    ensures { IfOk result (λ set. HasNames set (texts names.now)) }
{
    let mut set = BTreeSet::new(alloc);
    for name in names {
        note(&mut set, name)?;
    }
    Ok(set)
}

/// Returns whether `set` has `name`.
fn has(set: &BTreeSet<&str>, name: &str) -> bool
    ensures { result ≡ is_in set.now name.now }
{
    set.contains(name)
}

/// Returns those of `names` that `set` has.
fn shared<'w>(
    alloc: Global,
    names: &[&'w str],
    set: &BTreeSet<&str>,
) -> Result<Vec<&'w str>, AllocError>
    ensures { IfOk result (λ found. texts found.items ≡ filter (is_in set.now) (texts names.now)) }
{
    let mut found = Vec::new(alloc);
    for name in names {
        if has(set, name) {
            found.push(*name)?;
        }
    }
    Ok(found)
}

/// Returns those of `names` that `set` lacks.
fn missing<'w>(
    alloc: Global,
    names: &[&'w str],
    set: &BTreeSet<&str>,
) -> Result<Vec<&'w str>, AllocError>
    ensures { IfOk result (λ found. texts found.items ≡ filter (λ name. not (is_in set.now name)) (texts names.now)) }
{
    let mut found = Vec::new(alloc);
    for name in names {
        if !has(set, name) {
            found.push(*name)?;
        }
    }
    Ok(found)
}

/// Returns the features of `part` that `other` lacks.
fn missing_in<'w>(
    alloc: Global,
    other: &Part<'_, '_, '_>,
    part: &Part<'_, '_, 'w>,
) -> Result<Vec<&'w str>, AllocError>
    ensures { IfOk result (λ names. texts names.items ≡ spec.missing_in (part_text other.now) (part_text part.now)) }
{
    let set = set_of(alloc, other.features)?;
    missing(alloc, part.features, &set)
}

/// Returns the features of `part` that `other` has.
fn shared_with<'w>(
    alloc: Global,
    other: &Part<'_, '_, '_>,
    part: &Part<'_, '_, 'w>,
) -> Result<Vec<&'w str>, AllocError>
    ensures { IfOk result (λ names. texts names.items ≡ spec.shared_with (part_text other.now) (part_text part.now)) }
{
    let set = set_of(alloc, other.features)?;
    shared(alloc, part.features, &set)
}

/// Returns what changes between the parts of `pair`.
fn change_of<'u, 'v, 'w>(
    alloc: Global,
    pair: &Pair<'u, 'v, 'w>,
) -> Result<Change<'u, 'v, 'w>, AllocError>
    ensures { IfOk result (λ change. change_text change ≡ spec.change_of (pair_text pair.now)) }
{
    let comes = missing_in(alloc, &pair.old, &pair.new)?;
    let goes = missing_in(alloc, &pair.new, &pair.old)?;
    let stays = shared_with(alloc, &pair.old, &pair.new)?;
    Ok(Change {
        old: pair.old,
        new: pair.new,
        comes,
        goes,
        stays,
    })
}

/// Returns what changes between the parts of each of `pairs`.
pub(crate) fn changes_of<'u, 'v, 'w>(
    alloc: Global,
    pairs: &[Pair<'u, 'v, 'w>],
) -> Result<Vec<Change<'u, 'v, 'w>>, AllocError>
    ensures { IfOk result (λ changes. map change_text changes.items ≡ map spec.change_of (map pair_text pairs.now)) }
{
    let mut changes = Vec::with_capacity(alloc, pairs.len())?;
    for pair in pairs {
        changes.push(change_of(alloc, pair)?)?;
    }
    Ok(changes)
}
