//! Edits with the numbers of packages and features that fall away by them.

use cargo_manifests::Edit;

/// An edit, and the numbers of packages and features that fall away by it.
#[derive(Clone, Copy)]
pub struct Slim<'v> {
    pub edit: Edit<'v>,
    /// The number of packages that are built nowhere any more.
    pub packages: usize,
    /// The number of features that are on nowhere any more.
    pub features: usize,
}
