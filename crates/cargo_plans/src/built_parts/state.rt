//! The state of a part.

/// The state of a part of a package on a side.
#[derive(Clone, Copy, PartialEq, Eq, Debug)]
pub enum PartState {
    /// The part is off.
    Off,
    /// The part is on, and its package isn't built there.
    Unbuilt,
    /// The part is on, and its package is built there.
    Built,
}
