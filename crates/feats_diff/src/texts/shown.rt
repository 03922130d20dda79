//! The differences of two plans, as the lines show them.
use feats_lines::Shown;

/// A feature that comes.
#[derive(Drop)]
pub struct Turned<'w> {
    pub name: &'w str,
    /// The last step of why it is on; empty if there is none.
    pub why: String,
}

/// What differs in one package.
#[derive(Drop)]
pub enum Difference<'u, 'v, 'w> {
    /// The package comes. `why` is the last step of why it is on; empty if there is none.
    Comes {
        new: Shown<'u, 'v, 'w>,
        why: String,
    },
    /// The package goes.
    Goes {
        old: Shown<'u, 'v, 'w>,
    },
    /// The package stays or changes its version, and features come and go.
    Changes {
        old: Shown<'u, 'v, 'w>,
        new: Shown<'u, 'v, 'w>,
        comes: Vec<Turned<'w>>,
        goes: Vec<&'w str>,
    },
}
