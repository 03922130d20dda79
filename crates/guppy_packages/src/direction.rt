//! The two directions in which dependencies are followed.
ghost use Rattle.std.specs.Prelude.{◌≡◌};
ghost use Rattle.guppy_packages.specs.PackageSets.{reading_of};

use guppy_support::Reading;

/// The direction in which dependencies are followed.
#[derive(Clone, Copy, PartialEq, Eq, Debug)]
pub enum DependencyDirection {
    /// From a package to its dependencies.
    Forward,
    /// From a package to its dependents.
    Reverse,
}

impl DependencyDirection {
    /// Returns how the direction reads the order of packages. Dependents precede their dependencies there as far as cycles allow.
    pub fn reading(self) -> Reading
        ensures { result ≡ reading_of self }
    {
        match self {
            DependencyDirection::Forward => Reading::Forward,
            DependencyDirection::Reverse => Reading::Backward,
        }
    }
}
