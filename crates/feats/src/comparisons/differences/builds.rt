//! The builds that are compared.
use cargo_plans::{Plan, PlanWords};
use cargo_workspaces::Workspace;
use plan_rows::platforms::HeldSpecs;

/// A build of a workspace.
#[derive(Clone, Copy)]
pub struct Build<'b, 'v, 'w, 'n, 's> {
    /// The names of the places of the target platforms.
    pub targets: &'b [&'b str],
    pub workspace: &'b Workspace<'v>,
    /// What the command line says.
    pub words: &'b PlanWords<'w, 'n, HeldSpecs<'s>>,
    /// The plan for `words`.
    pub plan: &'b Plan<'w>,
}
