//! Whether an explanation is exact: it names no refused offer, and leaves nothing out.

ghost use Rattle.std.specs.Prelude.{◌≡◌, ◌<◌, ◌↔◌, ℕ, Some, IsTrue, IfOk, length, slice_get, not};
ghost use Rattle.digraphs.specs.Bits.{has};
ghost use Rattle.walk_engine.specs.Walks.{Content, Way, IsWay, EndsAreNodes, is_in};
ghost use Rattle.walk_engine.specs.Explanations.{nodes_of};
ghost use Rattle.walk_engine.specs.declared.walks.Half.{Half};
ghost use Rattle.walk_engine.specs.declared.walks.Step.{Step};
ghost use Rattle.walk_checks.specs.Exact.{IsExact};
ghost use Rattle.walk_checks.specs.inner.Tests.{has_mark, unmarked, is_open_by, leads_on, Keeps, NamesOnly, KeepsReason, IsComplete};

use crate::explained::explains;
use crate::refusals::Refusals;
use crate::table::{EdgeTable, TableEdge, holds, is_offered, is_unasked};
use digraphs::IxBitSet;
use std::alloc::{AllocError, Global};
use walk_engine::{Half, Step, StepReason};

/// Returns true if `reason` names no refused offer.
fn is_spared(refusals: &Refusals, reason: StepReason) -> bool
    ensures { IsTrue result ↔ KeepsReason (unmarked refusals.now) reason }
{
    match reason {
        StepReason::Initial => true,
        StepReason::Edge(_) => true,
        StepReason::Offer(edge, half) => !refusals.has(edge, half),
    }
}

/// Returns true if no step names a refused offer.
fn are_spared(refusals: &Refusals, steps: &[Step]) -> bool
    ensures { IsTrue result ↔ NamesOnly (unmarked refusals.now) steps.now }
{
    for step in steps {
        if !is_spared(refusals, step.reason) {
            return false;
        }
    }
    true
}

/// Returns true if each initial node is listed.
fn are_listed(initials: &IxBitSet, listed: &IxBitSet) -> bool
    ensures { IsTrue result ↔ ((n : ℕ) → IsTrue (has initials.now n) → IsTrue (has listed.now n)) }
{
    for node in initials.ones() {
        if !holds(listed, node) {
            return false;
        }
    }
    true
}

/// Returns true if `half` of the edge is offered once its start is listed, and isn't refused.
fn is_open(
    refusals: &Refusals,
    listed: &IxBitSet,
    number: usize,
    edge: TableEdge,
    half: Half,
) -> bool
    ensures { result ≡ is_open_by (unmarked refusals.now) (has listed.now) number edge half }
{
    is_offered(edge, half, listed) && !refusals.has(number, half)
}

/// Returns true if the edge must be followed once its start is listed: it is unconditional, or some half is
/// offered and isn't refused.
fn leads_on(refusals: &Refusals, listed: &IxBitSet, number: usize, edge: TableEdge) -> bool
    ensures { result ≡ leads_on (unmarked refusals.now) (has listed.now) number edge }
{
    is_unasked(edge.ask)
        || is_open(refusals, listed, number, edge, Half::Full)
        || is_open(refusals, listed, number, edge, Half::Required)
        || is_open(refusals, listed, number, edge, Half::Optional)
}

/// Returns true if the far end of edge `number` is listed, or the edge needn't be followed.
fn is_kept<T: EdgeTable>(table: &T, refusals: &Refusals, listed: &IxBitSet, number: usize) -> bool
    ensures { (w : Way) → IsWay (T.content table.now) number w
        → IsTrue result ↔ Keeps (unmarked refusals.now) (has listed.now) number w }
{
    match table.edge(number) {
        None => true,
        Some(edge) => holds(listed, edge.far) || !leads_on(refusals, listed, number, edge),
    }
}

/// Returns true if all edges that start at `node` are kept.
fn are_kept<T: EdgeTable>(table: &T, refusals: &Refusals, listed: &IxBitSet, node: usize) -> bool
    requires { node < (T.content table.now).nodes }
    ensures { IsTrue result ↔ ((e : ℕ) (w : Way) → IsWay (T.content table.now) e w → w.start ≡ node
        → Keeps (unmarked refusals.now) (has listed.now) e w) }
{
    for place in 0..table.edge_count() {
        match table.edge_from(node, place) {
            None => return true,
            Some(number) => {
                if !is_kept(table, refusals, listed, number) {
                    return false;
                }
            }
        }
    }
    true
}

/// Returns true if all edges that start at listed nodes are kept.
fn is_closed<T: EdgeTable>(
    table: &T,
    refusals: &Refusals,
    listed: &IxBitSet,
    steps: &[Step],
) -> bool
    requires size { length listed.now ≡ (T.content table.now).nodes }
    requires listed { (n : ℕ) → has listed.now n ≡ is_in (nodes_of steps.now) n }
    ensures { IsTrue result ↔ ((e : ℕ) (w : Way) → IsWay (T.content table.now) e w → IsTrue (has listed.now w.start)
        → Keeps (unmarked refusals.now) (has listed.now) e w) }
{
    for step in steps {
        if !are_kept(table, refusals, listed, step.node) {
            return false;
        }
    }
    true
}

/// Returns true if no step names a refused offer, and the listed nodes are closed for all other offers.
fn is_complete<T: EdgeTable>(
    table: &T,
    initials: &IxBitSet,
    refusals: &Refusals,
    listed: &IxBitSet,
    steps: &[Step],
) -> bool
    requires size { length listed.now ≡ (T.content table.now).nodes }
    requires listed { (n : ℕ) → has listed.now n ≡ is_in (nodes_of steps.now) n }
    ensures { IsTrue result ↔ IsComplete (unmarked refusals.now) (T.content table.now) (has initials.now)
        (has listed.now) steps.now }
{
    are_spared(refusals, steps)
        && are_listed(initials, listed)
        && is_closed(table, refusals, listed, steps)
}

/// Returns true if `steps` are an explanation that names no refused offer, and list a set that is closed for
/// all other offers. Closed means that the set has the initial nodes, and the far end of each unconditional
/// edge that starts in it. The far end of an offer that isn't refused is in the set if its start is, and its
/// gate too where it waits for one.
///
/// The steps aren't trusted. An entry of `refused` that is no offer refuses nothing. The time is linear in the
/// steps, the refused entries and the edges of the listed nodes. Allocates one bit per node and three bits per
/// edge. `AllocError` is returned when an allocation fails.
pub fn check_exact_steps<T: EdgeTable>(
    alloc: Global,
    table: &T,
    initials: &IxBitSet,
    steps: &[Step],
    refused: &[(usize, Half)],
) -> Result<bool, AllocError>
    requires { length initials.now ≡ (T.content table.now).nodes }
    ensures { IfOk result (λ exact. IsTrue exact
        ↔ IsExact (T.content table.now) (has initials.now) refused.now steps.now) }
{
    let mut listed = IxBitSet::empty(alloc, table.node_count())?;
    let refusals = Refusals::of(alloc, table.edge_count(), refused)?;
    Ok(
        explains(table, initials, steps, &mut listed)
            && is_complete(table, initials, &refusals, &listed, steps),
    )
}
