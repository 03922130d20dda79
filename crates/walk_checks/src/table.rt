//! Edges that are looked up by number.

ghost use Rattle.std.specs.Prelude.{◌≡◌, ◌<◌, ◌&&◌, ◌||◌, ◌==◌, not, ℕ, length, slice_get};
ghost use Rattle.digraphs.specs.Bits.{has};
ghost use Rattle.walk_engine.specs.Walks.{Content, EndsAreNodes, has_half, has_gate, starting};
ghost use Rattle.walk_checks.specs.Tables.{Tells};
ghost use Rattle.walk_checks.specs.inner.Tests.{is_unasked, is_offered, leads_to};

use digraphs::IxBitSet;
use walk_engine::{Ask, Half};

/// An edge as one direction follows it.
#[derive(Clone, Copy, Debug, PartialEq, Eq)]
pub struct TableEdge {
    /// The node at which it starts.
    pub start: usize,
    /// The node to which it leads.
    pub far: usize,
    /// The offers that it needs before it is followed.
    pub ask: Ask,
    /// The node that its optional half waits for, if it is gated; otherwise any number.
    pub gate: usize,
}

/// A table of edges as one direction follows them, looked up by number. No call changes it.
pub trait EdgeTable {
    /// The number of nodes, and the ways by edge number.
    ghost content: { Self → Content };

    /// Returns the number of nodes.
    fn node_count(&self) -> usize
        ensures count { result ≡ (content self.now).nodes }
        ensures ends { EndsAreNodes (content self.now) };

    /// Returns the number of edges.
    fn edge_count(&self) -> usize
        ensures { result ≡ length (content self.now).ways };

    /// Returns the edge with this number, or `None` if there is none.
    fn edge(&self, number: usize) -> Option<TableEdge>
        ensures { Tells (slice_get (content self.now).ways number) result };

    /// Returns the number of the edge at `place`, from 0, among those that start at `start`, ascending. `None`
    /// is returned past the last.
    fn edge_from(&self, start: usize, place: usize) -> Option<usize>
        requires { start < (content self.now).nodes }
        ensures { result ≡ slice_get (starting (content self.now) start) place };
}

/// Returns true if `number` is in `set`; false for a number that isn't below its bound.
pub(crate) fn holds(set: &IxBitSet, number: usize) -> bool
    ensures { result ≡ has set.now number }
{
    number < set.size() && set.contains(number)
}

/// Returns true if the edge is unconditional.
pub(crate) fn is_unasked(ask: Ask) -> bool
    ensures { result ≡ is_unasked ask }
{
    match ask {
        Ask::Nobody => true,
        Ask::Full => false,
        Ask::Weak {
            required: _,
            gated: _,
        } => false,
    }
}

/// Returns true if `half` is offered for an edge with this `ask`.
fn has_half(ask: Ask, half: Half) -> bool
    ensures { result ≡ has_half ask half }
{
    match ask {
        Ask::Nobody => false,
        Ask::Full => match half {
            Half::Full => true,
            Half::Required => false,
            Half::Optional => false,
        },
        Ask::Weak { required, gated: _ } => match half {
            Half::Full => false,
            Half::Required => required,
            Half::Optional => true,
        },
    }
}

/// Returns true if `half` of an edge with this `ask` waits for the edge's gate.
pub(crate) fn has_gate(ask: Ask, half: Half) -> bool
    ensures { result ≡ has_gate ask half }
{
    match ask {
        Ask::Nobody => false,
        Ask::Full => false,
        Ask::Weak { required: _, gated } => match half {
            Half::Full => false,
            Half::Required => false,
            Half::Optional => gated,
        },
    }
}

/// Returns true if `edge` leads from a listed node to `node`.
pub(crate) fn leads_to(edge: TableEdge, listed: &IxBitSet, node: usize) -> bool
    ensures { result ≡ leads_to edge (has listed.now) node }
{
    edge.far == node && holds(listed, edge.start)
}

/// Returns true if the edge has `half`, and its gate is listed if `half` waits for it.
pub(crate) fn is_offered(edge: TableEdge, half: Half, listed: &IxBitSet) -> bool
    ensures { result ≡ is_offered edge half (has listed.now) }
{
    has_half(edge.ask, half) && (!has_gate(edge.ask, half) || holds(listed, edge.gate))
}
