//! What is said of a widening.

/// What is said of a feature in a widened selection.
#[derive(Clone, Copy)]
pub enum Said<'t> {
    /// It is on, with the lines that explain it.
    On(&'t str),
    /// It is asked for and not built, with the message about that.
    Unbuilt(&'t str),
    Off,
    /// The selection has no plan, with the message why.
    NotPlanned(&'t str),
}
