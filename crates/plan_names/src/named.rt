//! What a word names.

/// A package, a feature of it, or an optional dependency of it.
#[derive(Clone, Copy)]
pub enum Part<'w> {
    /// The package itself.
    Package,
    /// The feature with this name.
    Feature(&'w str),
    /// The optional dependency with this name.
    Dependency(&'w str),
}

/// A part of a package.
#[derive(Clone, Copy)]
pub struct Named<'w> {
    /// The number of the package.
    pub package: usize,
    pub part: Part<'w>,
}
