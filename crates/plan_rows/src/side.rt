//! The side of a build.

/// The side that features are for: target platforms, or the host, for which build scripts and procedural macros are built.
#[derive(Clone, Copy, PartialEq, Eq, Debug)]
pub enum Side {
    Target,
    Host,
}

impl Side {
    ghost use Rattle.std.specs.Prelude.{◌≡◌};
    ghost use Rattle.plan_rows.specs.Steps.{is_host, side_base};

    /// Returns whether this is the side of the host.
    pub fn is_host(self) -> bool
        ensures { result ≡ is_host self }
    {
        matches!(self, Side::Host)
    }

    /// Returns the number of the side's first entry in step `on`, if there are `count` packages.
    pub fn base(self, count: usize) -> usize
        ensures { result ≡ side_base count self }
    {
        match self {
            Side::Target => 0,
            Side::Host => count,
        }
    }
}
