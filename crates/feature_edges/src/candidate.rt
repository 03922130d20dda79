//! Candidates for edges as small keys, and the runs of keys of one pair.
ghost use Rattle.std.specs.Prelude.{◌≡◌, ◌≤◌, ◌↔◌, ◌⊎◌, ◌<◌, ◌++◌, All, Contains, nat_lt, IsTrue, IsPermutation, AllPairs, OnOk, Some, drop, length, slice_get, take};
ghost use Rattle.feature_edges.specs.declared.candidate.Key.{Key as KeyValue};
ghost use Rattle.feature_edges.specs.inner.Keys.{IsNoLater, IsPair, IsSplitRun};

use std::alloc::AllocError;

/// The kinds of candidates, by rank: of the candidates of a pair of nodes, the one of the first kind is the edge.
#[derive(Clone, Copy, PartialEq, Eq, PartialOrd, Ord)]
pub(crate) enum CandidateKind {
    /// From another node of a package to its base.
    FeatureToBase,

    /// For an item that names a feature of the same package.
    NamedFeature,

    /// For an item `dep:d`.
    DepColon,

    /// For an item `d/g`, or `d?/g`, to the feature `g` of a link's target. Its edge covers all declarations of the link.
    SlashFull,

    /// For an item `d/g`, to the optional dependency `d`, or to the feature `d` of the same package.
    SlashOptional,

    /// For an item `d?/g`, to the feature `g` of the target of a link with an optional declaration.
    SlashWeak,

    /// For a declaration, to a feature of the link's target that it requests.
    Section,
}

impl CandidateKind {
    /// Returns whether the edge of a candidate of this kind is weak.
    pub(crate) fn is_weak(self) -> bool
        ensures { IsTrue result ↔ (self ≡ CandidateKind.SlashWeak) }
    {
        matches!(self, CandidateKind::SlashWeak)
    }

    /// Returns whether the edge of a candidate of this kind is unconditional, so that there is nothing to it but its ends.
    pub(crate) fn is_unconditional(self) -> bool
        ensures { IsTrue result ↔ ((self ≡ CandidateKind.FeatureToBase) ⊎ (self ≡ CandidateKind.NamedFeature)) }
    {
        matches!(
            self,
            CandidateKind::FeatureToBase | CandidateKind::NamedFeature
        )
    }
}

/// A candidate for the edge of a pair of nodes.
///
/// Keys are ordered by the pair, then by `kind`. `source` is the number of the candidate's package link, and `place` the index of
/// its declaration there; both are 0 if the pair determines the candidate. The fields have 32 bits each or fewer, because a
/// node with 100,000 items has as many keys.
#[derive(Clone, Copy, PartialEq, Eq, PartialOrd, Ord)]
pub(crate) struct Key {
    pub(crate) from: u32,
    pub(crate) to: u32,
    pub(crate) kind: CandidateKind,
    pub(crate) source: u32,
    pub(crate) place: u32,
}

/// Sorts `keys` by pair, kind, source and place, in place.
pub(crate) fn sort_keys(keys: &mut Vec<Key>)
    ensures permutation { IsPermutation keys.old.items keys.new.items }
    ensures sorted { AllPairs IsNoLater keys.new.items }
{
    keys.sort_unstable();
}

/// Returns the place of the first of the sorted keys `keys` that starts at node `end` or after it, or the number of keys.
fn place_from(keys: &[Key], end: usize) -> usize
    requires { AllPairs IsNoLater keys.now }
    ensures within { result ≤ length keys.now }
    ensures front { (x : KeyValue) → Contains (take result keys.now) x → x.from < end }
    ensures back { (x : KeyValue) → Contains (drop result keys.now) x → end ≤ x.from }
{
    keys.partition_point(
        |key: &Key| -> bool
            ensures { result ≡ nat_lt key.now.from end }
        { (key.from as usize) < end },
    )
}

/// Sets `later` to the keys of the sorted list `keys` that start at node `end` or after it, and removes them from `keys`.
pub(crate) fn set_aside(
    keys: &mut Vec<Key>,
    later: &mut Vec<Key>,
    end: usize,
) -> Result<(), AllocError>
    requires { AllPairs IsNoLater keys.old.items }
    ensures whole { OnOk result (keys.old.items ≡ keys.new.items ++ later.new.items) }
    ensures ordered { OnOk result (AllPairs IsNoLater keys.new.items) }
    ensures later_ordered { OnOk result (AllPairs IsNoLater later.new.items) }
    ensures front { OnOk result ((x : KeyValue) → Contains keys.new.items x → x.from < end) }
    ensures back { OnOk result ((x : KeyValue) → Contains later.new.items x → end ≤ x.from) }
{
    let count = place_from(keys.as_slice(), end);
    later.clear();
    later.extend_from_slice(&keys[count..])?;
    keys.truncate(count);
    Ok(())
}

/// Returns whether two keys are of one pair.
fn is_pair(a: Key, b: Key) -> bool
    ensures { IsTrue result ↔ IsPair a b }
{
    a.from == b.from && a.to == b.to
}

/// Returns the number of keys at the front of `keys` that are of the pair of `key`.
fn run_length(keys: &[Key], key: Key) -> usize
    ensures within { result ≤ length keys.now }
    ensures same { All (IsPair key) (take result keys.now) }
    ensures end { (y : KeyValue) → slice_get keys.now result ≡ Some y → IsPair key y → ⊥ }
{
    for ix in 0..keys.len() {
        if !is_pair(key, keys[ix]) {
            return ix;
        }
    }
    keys.len()
}

/// Splits sorted keys, of which `key` is the first, after those of its pair.
pub(crate) fn split_run(keys: &[Key], key: Key) -> (&[Key], &[Key])
    requires ordered { AllPairs IsNoLater keys.now }
    requires first { slice_get keys.now 0 ≡ Some key }
    ensures { IsSplitRun keys.now key result.0.now result.1.now }
{
    let count = run_length(keys, key);
    keys.split_at(count)
}
