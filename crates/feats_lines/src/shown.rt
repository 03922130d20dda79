//! What is shown of a plan.
use cargo_workspaces::Package;

/// A package that is built, as it is shown.
#[derive(Clone, Copy)]
pub struct Shown<'u, 'v, 'w> {
    /// The name of its place.
    pub place: &'u str,
    pub package: &'u Package<'v>,
    /// The features with which it is built.
    pub features: &'u [&'w str],
}
