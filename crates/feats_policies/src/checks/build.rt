//! The build that a policy is about.

use crate::checks::judged::Judged;
use cargo_plans::Plan;
use cargo_workspaces::Workspace;

/// The build that a policy is about.
#[derive(Clone, Copy)]
pub struct Build<'b, 'v, 'w, 'n> {
    pub workspace: &'b Workspace<'v>,
    /// The numbers of the selected packages. A feature's name alone is looked up in these, and only if none has it in others.
    pub selected: &'b [usize],
    pub plan: &'b Plan<'w>,
    /// True if the resolver tells the sides of a build apart.
    pub split: bool,
    /// The triple of the host.
    pub host: &'b str,
    /// The triples of the target platforms: without `--target`, that of the host alone.
    pub targets: &'b [&'n str],
    /// Which build it is. In the place of every choice all that is on counts, built or not.
    pub judged: Judged,
}
