//! The calls.

/// A call over a feature graph.
#[derive(Clone, Copy, PartialEq, Eq, Debug)]
pub enum Call {
    /// The packages, the edges and what was computed with them.
    Describe,
    /// A walk that asks for each offer.
    Resolve,
    /// The nodes that are reached over all edges.
    Reach,
    /// Some nodes in order.
    Order,
    /// The roots among some nodes.
    Roots,
    /// The edges between some nodes.
    Links,
    /// The components that have a cycle.
    Cycles,
    /// Whether steps are an exact explanation.
    Check,
}
