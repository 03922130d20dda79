//! The packages that are built.

/// The place that a package is built for: the host, or the target platform with this number.
#[derive(Clone, Copy, PartialEq, Eq, Debug)]
pub enum Place {
    Host,
    Target(usize),
}

/// A package that is built for a place.
#[derive(Drop)]
pub struct Unit<'w> {
    pub place: Place,
    /// The number of the package.
    pub package: usize,
    /// The names of its features that are on there, in the order of their bytes.
    pub features: Vec<&'w str>,
}
