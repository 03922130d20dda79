//! Whether steps explain their nodes.

ghost use Rattle.std.specs.Prelude.{◌≡◌, ◌<◌, ◌↔◌, ℕ, List, IsTrue, IsFalse, IfOk, length, take};
ghost use Rattle.digraphs.specs.Bits.{has};
ghost use Rattle.walk_engine.specs.Walks.{Content, EndsAreNodes, is_in};
ghost use Rattle.walk_engine.specs.Explanations.{IsReason, IsExplanation, nodes_of};
ghost use Rattle.walk_engine.specs.Laws.{every};

use crate::table::{EdgeTable, holds, is_offered, is_unasked, leads_to};
use digraphs::IxBitSet;
use std::alloc::{AllocError, Global};
use walk_engine::{Step, StepReason};

/// Returns true if the reason of `step` holds, where `listed` are the nodes of the steps before it.
fn has_reason<T: EdgeTable>(table: &T, initials: &IxBitSet, listed: &IxBitSet, step: Step) -> bool
    ensures { (before : List ℕ) → ((n : ℕ) → has listed.now n ≡ is_in before n)
        → IsTrue result ↔ IsReason (T.content table.now) (has initials.now) every before step.node step.reason }
{
    match step.reason {
        StepReason::Initial => holds(initials, step.node),
        StepReason::Edge(number) => match table.edge(number) {
            None => false,
            Some(edge) => is_unasked(edge.ask) && leads_to(edge, listed, step.node),
        },
        StepReason::Offer(number, half) => match table.edge(number) {
            None => false,
            Some(edge) => leads_to(edge, listed, step.node) && is_offered(edge, half, listed),
        },
    }
}

/// Returns true if `step` is valid as the next one: its node isn't listed yet, and its reason holds.
fn is_next<T: EdgeTable>(table: &T, initials: &IxBitSet, listed: &IxBitSet, step: Step) -> bool
    requires ends { EndsAreNodes (T.content table.now) }
    requires initials { length initials.now ≡ (T.content table.now).nodes }
    requires listed { length listed.now ≡ (T.content table.now).nodes }
    ensures node { IsTrue result → step.node < length listed.now }
    ensures next { (before : List ℕ) → ((n : ℕ) → has listed.now n ≡ is_in before n)
        → IsTrue result ↔ (IsFalse (is_in before step.node)
        × IsReason (T.content table.now) (has initials.now) every before step.node step.reason) }
{
    step.node < listed.size()
        && !listed.contains(step.node)
        && has_reason(table, initials, listed, step)
}

/// Returns true if `steps` are an explanation. In that case their nodes are inserted into `listed`.
pub(crate) fn explains<T: EdgeTable>(
    table: &T,
    initials: &IxBitSet,
    steps: &[Step],
    listed: &mut IxBitSet,
) -> bool
    requires ends { EndsAreNodes (T.content table.now) }
    requires initials { length initials.now ≡ (T.content table.now).nodes }
    requires listed { length listed.old ≡ (T.content table.now).nodes }
    requires blank { (n : ℕ) → IsFalse (has listed.old n) }
    ensures size { length listed.new ≡ length listed.old }
    ensures explained { IsTrue result
        ↔ IsExplanation (T.content table.now) (has initials.now) every steps.now }
    ensures listed { IsTrue result → (n : ℕ) → has listed.new n ≡ is_in (nodes_of steps.now) n }
{
    for step in steps {
        if !is_next(table, initials, listed, *step) {
            return false;
        }
        listed.insert(step.node);
    }
    true
}

/// Returns true if `steps` are an explanation, by offers of any kind: no node is listed twice, and each has a
/// reason that holds by the steps before it.
///
/// The steps aren't trusted: the result is false for a number that is no node or no edge, or for a half that
/// the edge lacks. The time is linear in the steps. Allocates one bit per node. `AllocError` is returned when
/// an allocation fails.
pub fn check_steps<T: EdgeTable>(
    alloc: Global,
    table: &T,
    initials: &IxBitSet,
    steps: &[Step],
) -> Result<bool, AllocError>
    requires { length initials.now ≡ (T.content table.now).nodes }
    ensures { IfOk result (λ explained. IsTrue explained
        ↔ IsExplanation (T.content table.now) (has initials.now) every steps.now) }
{
    let mut listed = IxBitSet::empty(alloc, table.node_count())?;
    Ok(explains(table, initials, steps, &mut listed))
}
