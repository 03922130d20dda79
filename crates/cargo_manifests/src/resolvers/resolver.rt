//! The versions of Cargo's resolver.
ghost use Rattle.std.specs.Prelude.{◌≡◌};

/// A version of Cargo's resolver.
#[derive(Clone, Copy, PartialEq, Eq, Debug)]
pub enum Resolver {
    V1,
    V2,
    V3,
}

impl Resolver {
    ghost use Rattle.cargo_manifests.specs.resolvers.Resolvers as spec;

    /// Returns the resolver that `text` names: `1`, `2` or `3`.
    pub fn named(text: &str) -> Option<Resolver>
        ensures { result ≡ spec.resolver_named text.now }
    {
        match text {
            "1" => Some(Resolver::V1),
            "2" => Some(Resolver::V2),
            "3" => Some(Resolver::V3),
            _ => None,
        }
    }

    /// Returns the resolver of packages of this edition, if there is such an edition.
    pub fn of_edition(text: &str) -> Option<Resolver>
        ensures { result ≡ spec.resolver_of_edition text.now }
    {
        match text {
            "2015" | "2018" => Some(Resolver::V1),
            "2021" => Some(Resolver::V2),
            "2024" => Some(Resolver::V3),
            _ => None,
        }
    }

    /// Returns whether features of build dependencies and procedural macros are apart from those of the target.
    pub fn is_split(self) -> bool
        ensures { result ≡ spec.is_split self }
    {
        match self {
            Resolver::V1 => false,
            Resolver::V2 | Resolver::V3 => true,
        }
    }
}
