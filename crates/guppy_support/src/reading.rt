//! The two directions in which an order is read.

/// The direction in which an order is read. It also decides which end of an edge is its start.
#[derive(Clone, Copy, Debug, PartialEq, Eq)]
pub enum Reading {
    /// From the first node to the last; an edge starts at its source.
    Forward,
    /// From the last node to the first; an edge starts at its target.
    Backward,
}
