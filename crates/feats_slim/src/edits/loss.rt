//! What falls away.

/// A feature of a package that falls away.
#[derive(Clone, Copy)]
pub struct LostFeature<'w> {
    /// The number of the package.
    pub package: usize,
    pub name: &'w str,
}

/// What falls away from one plan to another.
#[derive(Drop)]
pub struct Losses<'w> {
    /// The numbers of the packages that the first plan builds and the second builds nowhere, ascending.
    pub packages: Vec<usize>,
    /// The features that the first plan turns on and the second turns on nowhere, also those of packages that fall away: by the numbers of
    /// their packages, and then by their names.
    pub features: Vec<LostFeature<'w>>,
}
