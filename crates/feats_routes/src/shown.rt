//! What routes are shown by.

use cargo_plans::Plan;
use cargo_workspaces::Package;
use feats_tree::trees::Title;
use feats_why::WhySettings;

/// What the texts of routes are made from: the settings of the words, the packages, the plan, and what is shown of each of its units.
#[derive(Drop)]
pub(crate) struct Shown<'u, 'v, 'w, P> {
    pub(crate) settings: WhySettings<'u, P>,
    pub(crate) packages: &'u [Package<'v>],
    pub(crate) plan: &'u Plan<'w>,
    pub(crate) titles: &'u [Title<'u>],
}
