//! The steps on which one node rests.

ghost use Rattle.std.specs.Prelude.{◌≡◌, ◌↔◌, ◌⊎◌, ℕ, Bool, List, IsTrue, IsFalse, IfNone, IfOk, IfSome, MatchOption, OnOk, Some, length, option_and_then};
ghost use Rattle.std.specs.BTreeSet.{contains};
ghost use Rattle.std.specs.Ordering.{nat_cmp};
ghost use Rattle.digraphs.specs.Bits.{has};
ghost use Rattle.walk_engine.specs.Walks.{Content, EndsAreNodes, is_in};
ghost use Rattle.walk_engine.specs.Explanations.{IsExplanation, nodes_of};
ghost use Rattle.walk_engine.specs.declared.walks.Half.{Half};
ghost use Rattle.walk_checks.specs.Places.{ArePlaces, place_of};
ghost use Rattle.walk_checks.specs.Whys.{Leans, IsWhy};
ghost use Rattle.walk_checks.specs.inner.Waiting.{AddsLeaned, TakesGreatest, WasRead};

use crate::places::StepPlaces;
use crate::table::{EdgeTable, has_gate};
use std::alloc::{AllocError, Global};
use std::collections::BTreeSet;
use walk_engine::{Step, StepReason};

/// Returns the nodes on which `reason` leans: the start of its edge, and the gate if its half waits for it.
fn leaned_nodes<T: EdgeTable>(table: &T, reason: StepReason) -> (Option<usize>, Option<usize>)
    ensures { (m : ℕ) → Leans (T.content table.now) reason m ↔ ((result.0 ≡ Some m) ⊎ (result.1 ≡ Some m)) }
{
    match reason {
        StepReason::Initial => (None, None),
        StepReason::Edge(number) => match table.edge(number) {
            None => (None, None),
            Some(edge) => (Some(edge.start), None),
        },
        StepReason::Offer(number, half) => match table.edge(number) {
            None => (None, None),
            Some(edge) => {
                if has_gate(edge.ask, half) {
                    (Some(edge.start), Some(edge.gate))
                } else {
                    (Some(edge.start), None)
                }
            }
        },
    }
}

/// Inserts the place of `node` into `waiting`, if there is a node and it has a place.
fn wait_for(
    places: &StepPlaces,
    waiting: &mut BTreeSet<usize>,
    node: Option<usize>,
) -> Result<(), AllocError>
    ensures { OnOk result ((p : ℕ) → IsTrue (contains nat_cmp waiting.new p)
        ↔ (IsTrue (contains nat_cmp waiting.old p) ⊎ (option_and_then (place_of places.now) node ≡ Some p))) }
{
    let Some(node) = node else {
        return Ok(());
    };
    let Some(place) = places.place(node) else {
        return Ok(());
    };
    let _is_new = waiting.insert(place)?;
    Ok(())
}

/// Inserts the places of the nodes on which `reason` leans into `waiting`.
fn wait_for_leaned<T: EdgeTable>(
    table: &T,
    places: &StepPlaces,
    waiting: &mut BTreeSet<usize>,
    reason: StepReason,
) -> Result<(), AllocError>
    ensures { OnOk result (AddsLeaned (T.content table.now) reason (place_of places.now)
        (contains nat_cmp waiting.old) (contains nat_cmp waiting.new)) }
{
    let (start, gate) = leaned_nodes(table, reason);
    wait_for(places, waiting, start)?;
    wait_for(places, waiting, gate)?;
    Ok(())
}

/// Removes the greatest place from `waiting` and returns it, or returns `None` if `waiting` is empty.
fn take_greatest(waiting: &mut BTreeSet<usize>) -> Option<usize>
    ensures greatest { IfSome result (TakesGreatest (contains nat_cmp waiting.old) (contains nat_cmp waiting.new)) }
    ensures none { IfNone result ((p : ℕ) → IsFalse (contains nat_cmp waiting.old p)) }
{
    waiting.pop_last()
}

/// Returns the steps on which `node` rests, the last first. There are none if `node` isn't listed.
///
/// A reason leans only on nodes of earlier steps. So the greatest place that waits is read next: no step that is
/// read later needs its node. Steps that nothing needs are never read.
fn needed_steps<T: EdgeTable>(
    alloc: Global,
    table: &T,
    steps: &[Step],
    places: &StepPlaces,
    node: usize,
) -> Result<Vec<Step>, AllocError>
    requires ends { EndsAreNodes (T.content table.now) }
    requires places { ArePlaces (T.content table.now).nodes steps.now places.now }
    ensures { IfOk result (λ kept. (initials : List Bool) (A : ℕ → Half → Bool)
        → length initials ≡ (T.content table.now).nodes
        → IsExplanation (T.content table.now) (has initials) A steps.now
        → WasRead (T.content table.now) steps.now node kept.items) }
{
    let mut waiting = BTreeSet::new(alloc);
    wait_for(places, &mut waiting, Some(node))?;
    let mut kept = Vec::new(alloc);
    for _round in 0..steps.len() {
        let Some(place) = take_greatest(&mut waiting) else {
            return Ok(kept);
        };
        let step = steps[place];
        kept.push(step)?;
        wait_for_leaned(table, places, &mut waiting, step.reason)?;
    }
    Ok(kept)
}

/// Returns the steps on which `node` rests, as `why` does. `places` are the places of `steps`, made once for
/// any number of nodes. If the result has k steps, the time is proportional to k log k, however long `steps` is.
/// Allocates the list, and a set of places no longer than it. `AllocError` is returned when an allocation fails.
pub fn why_by_places<T: EdgeTable>(
    alloc: Global,
    table: &T,
    steps: &[Step],
    places: &StepPlaces,
    node: usize,
) -> Result<Option<Vec<Step>>, AllocError>
    requires { ArePlaces (T.content table.now).nodes steps.now places.now }
    ensures { IfOk result (λ found. (initials : List Bool) (A : ℕ → Half → Bool)
        → length initials ≡ (T.content table.now).nodes
        → IsExplanation (T.content table.now) (has initials) A steps.now
        → MatchOption found (IsFalse (is_in (nodes_of steps.now) node))
        (λ kept. IsWhy (T.content table.now) (has initials) A steps.now node kept.items)) }
{
    if node >= table.node_count() {
        return Ok(None);
    }
    let mut kept = needed_steps(alloc, table, steps, places, node)?;
    if kept.is_empty() {
        return Ok(None);
    }
    kept.reverse();
    Ok(Some(kept))
}

/// Returns the steps on which `node` rests, in the order of `steps`, or `None` if `node` isn't listed. Its own
/// step is the last. With each step are those of the start, and of the gate, that its reason names, back to
/// initial nodes.
///
/// The result is an explanation for the same edges, initial nodes and offers. If `steps` aren't an explanation,
/// the result is unspecified. The time is linear in the nodes and the steps, plus that of `why_by_places`, which
/// answers for many nodes by places that are made once. Allocates a place per node, and the list. `AllocError` is
/// returned when an allocation fails.
pub fn why<T: EdgeTable>(
    alloc: Global,
    table: &T,
    steps: &[Step],
    node: usize,
) -> Result<Option<Vec<Step>>, AllocError>
    ensures { IfOk result (λ found. (initials : List Bool) (A : ℕ → Half → Bool)
        → length initials ≡ (T.content table.now).nodes
        → IsExplanation (T.content table.now) (has initials) A steps.now
        → MatchOption found (IsFalse (is_in (nodes_of steps.now) node))
        (λ kept. IsWhy (T.content table.now) (has initials) A steps.now node kept.items)) }
{
    let places = StepPlaces::of(alloc, table.node_count(), steps)?;
    let found = why_by_places(alloc, table, steps, &places, node)?;
    Ok(found)
}
