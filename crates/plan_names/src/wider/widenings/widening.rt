//! The ways in which a selection is widened.

/// A way in which a selection is widened.
#[derive(Clone, Copy)]
pub enum Widening {
    /// All features of the selected members.
    AllFeatures,
    /// All members of the workspace.
    AllMembers,
    /// Tests are built.
    Tests,
    /// A platform on which each platform spec of the workspace holds.
    EveryPlatform,
    /// All of these together.
    Together,
}

impl Widening {
    ghost use Rattle.std.specs.Prelude.{◌≡◌};
    ghost use Rattle.plan_names.specs.wider.widenings.Widenings.{widenings};

    /// Returns all widenings, in the order of an answer.
    pub fn all() -> [Widening; 5]
        ensures { result ≡ widenings }
    {
        [
            Widening::AllFeatures,
            Widening::AllMembers,
            Widening::Tests,
            Widening::EveryPlatform,
            Widening::Together,
        ]
    }
}
