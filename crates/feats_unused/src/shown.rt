//! What a line shows.
use cargo_workspaces::Package;

/// A line about a package of the workspace.
#[derive(Clone, Copy)]
pub enum Shown<'u, 'v> {
    /// A feature that no other package uses.
    Unused {
        package: &'u Package<'v>,
        feature: &'u str,
    },
    /// An item of a feature that turns nothing on.
    Dead {
        package: &'u Package<'v>,
        feature: &'u str,
        item: &'u str,
    },
}
