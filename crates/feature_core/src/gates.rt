//! The edges that wait for a gate, by their gates.
ghost use Rattle.std.specs.Prelude.{◌≡◌, ◌<◌, ◌≤◌, ◌++◌, ◌∷◌, [], IfOk, OnOk, AllPairs, IsPermutation, Some, drop, length, slice_get};
ghost use Rattle.std.specs.Option.{option_map_or};
ghost use Rattle.feature_edges.specs.Pairs.{IsBefore};
ghost use Rattle.feature_core.specs.Ways.{gate_at, gate_of};
ghost use Rattle.feature_core.specs.inner.Releases.{AreReleases, releases_from, released_by, Begins, IsUpTo};
ghost use Rattle.feature_edges.specs.feature_links.Facts.{EdgeFacts};
ghost use Rattle.feature_edges.specs.feature_links.Values.{edge_facts};

use feature_edges::{EdgeList, FeatureEdge};
use indexmap::IndexMap;
use std::alloc::{AllocError, Global};

/// Returns the gate of a weak edge's optional half; `None` for another edge.
pub(crate) fn gate_of(weak: &IndexMap<usize, usize>, edge: &FeatureEdge) -> Option<usize>
    ensures { result ≡ gate_of weak.now.entries (edge_facts edge.now) }
{
    match edge {
        FeatureEdge::NamedFeatureWithWeakSlash(halves) => {
            Some(gate_at(weak, halves.index().index()))
        }
        _ => None,
    }
}

/// Returns the gate of weak link `index`, or 0 if there is none.
fn gate_at(weak: &IndexMap<usize, usize>, index: usize) -> usize
    ensures { result ≡ gate_at weak.now.entries index }
{
    match weak.get_index(index) {
        Some((_, gate)) => *gate,
        None => 0,
    }
}

/// Returns the gate of edge `number` if it is weak. An unconditional edge isn't read.
fn edge_gate(weak: &IndexMap<usize, usize>, edges: &EdgeList, number: usize) -> Option<usize>
    requires { number < length edges.now }
    ensures { (f : EdgeFacts) → slice_get edges.now number ≡ Some f → result ≡ gate_of weak.now.entries f }
{
    if edges.is_unconditional(number) {
        return None;
    }
    gate_of(weak, edges.get(number))
}

/// Appends `number` with its gate, if `gate` is `Some`.
fn push_release(
    released: &mut Vec<(usize, usize)>,
    gate: Option<usize>,
    number: usize,
) -> Result<(), AllocError>
    ensures { OnOk result (released.new.items ≡ released.old.items ++ option_map_or (λ g. (g, number) ∷ []) gate []) }
{
    if let Some(gate) = gate {
        released.push((gate, number))?;
    }
    Ok(())
}

/// Returns the gate and the number of each weak edge, by number.
fn releases(
    alloc: Global,
    edges: &EdgeList,
    weak: &IndexMap<usize, usize>,
) -> Result<Vec<(usize, usize)>, AllocError>
    ensures { IfOk result (λ released. released.items ≡ releases_from weak.now.entries 0 edges.now) }
{
    let mut released = Vec::new(alloc);
    for number in 0..edges.len() {
        let gate = edge_gate(weak, edges, number);
        push_release(&mut released, gate, number)?;
    }
    Ok(released)
}

/// Returns the gate and the number of each weak edge, sorted by gate and then by number.
pub(crate) fn release_table(
    alloc: Global,
    edges: &EdgeList,
    weak: &IndexMap<usize, usize>,
) -> Result<Vec<(usize, usize)>, AllocError>
    ensures { IfOk result (λ released. AreReleases edges.now weak.now.entries released.items) }
{
    let mut released = releases(alloc, edges, weak)?;
    sort_releases(&mut released);
    Ok(released)
}

/// Sorts `released` by gate and then by number.
fn sort_releases(released: &mut Vec<(usize, usize)>)
    ensures permutation { IsPermutation released.old.items released.new.items }
    ensures sorted { AllPairs IsUpTo released.new.items }
{
    released.sort_unstable();
}

/// Returns the number of edge `place` among those that `gate` releases, by binary search.
pub(crate) fn released_at(released: &[(usize, usize)], gate: usize, place: usize) -> Option<usize>
    requires { AllPairs IsBefore released.now }
    ensures { result ≡ slice_get (released_by gate released.now) place }
{
    let first = first_release(released, gate);
    let (releaser, edge) = release_from(released, first, place)?;
    if releaser == gate { Some(edge) } else { None }
}

/// Returns the index of the first release whose gate is at least `gate`.
fn first_release(released: &[(usize, usize)], gate: usize) -> usize
    requires { AllPairs IsBefore released.now }
    ensures within { result ≤ length released.now }
    ensures begins { Begins gate result released.now }
{
    released.partition_point(|release| release.0 < gate)
}

/// Returns the release `place` places after `first`.
fn release_from(released: &[(usize, usize)], first: usize, place: usize) -> Option<(usize, usize)>
    requires { first ≤ length released.now }
    ensures { result ≡ slice_get (drop first released.now) place }
{
    released[first..].get(place).copied()
}
