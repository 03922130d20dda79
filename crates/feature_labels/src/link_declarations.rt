//! The declarations of a dependency that a link covers.
ghost use Rattle.std.specs.Prelude.{◌≡◌, ◌↔◌, ◌⊎◌, IsTrue};

/// The declarations of a dependency that a link covers: all, or one half.
#[derive(Clone, Copy, Debug, PartialEq, Eq, Hash)]
pub enum LinkDeclarations {
    /// The required and the optional declarations.
    Unsplit,

    /// The required declarations alone.
    Required,

    /// The optional declarations alone.
    Optional,
}

impl LinkDeclarations {
    /// Returns whether the required declarations are covered.
    pub fn includes_required(self) -> bool
        ensures { IsTrue result ↔ ((self ≡ LinkDeclarations.Unsplit) ⊎ (self ≡ LinkDeclarations.Required)) }
    {
        matches!(self, LinkDeclarations::Unsplit | LinkDeclarations::Required)
    }

    /// Returns whether the optional declarations are covered.
    pub fn includes_optional(self) -> bool
        ensures { IsTrue result ↔ ((self ≡ LinkDeclarations.Unsplit) ⊎ (self ≡ LinkDeclarations.Optional)) }
    {
        matches!(self, LinkDeclarations::Unsplit | LinkDeclarations::Optional)
    }
}
