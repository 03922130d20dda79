//! What the plan of one member alone builds, or why there is none.
ghost use Rattle.std.specs.Prelude.{◌≡◌, IfOk, string_bytes};
ghost use Rattle.cargo_workspaces.specs.WorkspaceView.{workspace_text};
ghost use Rattle.cargo_plans.specs.WordsView.{words_text};
ghost use Rattle.feats_files.specs.plan_messages.Messages.{plan_message};
ghost use Rattle.feats_duplicates.specs.MemberPlans.{IsOutcome};
ghost use Rattle.feats_duplicates.specs.Views.{outcome_text};

use crate::copies::copies_of;
use cargo_plans::{PlanFault, PlanWords, StepFault, Unit, plan};
use cargo_workspaces::Workspace;
use feats_files::Fault;
use feats_files::plan_messages::plan_refused;
use plan_rows::Platform;
use std::alloc::{AllocError, Global};

/// What a selection builds, or why it has no plan.
#[derive(Drop)]
pub enum Outcome<'w> {
    /// The packages that are built, in the order of the plan.
    Built(Vec<Unit<'w>>),
    /// The selection has no plan, with the message why.
    NotPlanned(String),
}

/// Returns the message about `fault`, which a selection in `workspace` has.
fn message_of<'p>(
    alloc: Global,
    workspace: &'p Workspace<'_>,
    fault: PlanFault<'p>,
) -> Result<String, AllocError>
    ensures { IfOk result (λ message. string_bytes message ≡ plan_message (workspace_text workspace.now).packages fault.entry) }
{
    match plan_refused(alloc, workspace, fault) {
        Fault::Refused { message } | Fault::Listed { message } => Ok(message),
        Fault::Memory | Fault::CannotWrite => Err(AllocError),
    }
}

/// Returns what `words` build in `workspace`, or the message why they have no plan. An allocation's failure is the only error.
///
/// The units are copies. The plan is dropped, because it also has the visits of its steps.
pub(crate) fn outcome_of<'w, P: Platform>(
    alloc: Global,
    workspace: &'w Workspace<'_>,
    words: &PlanWords<'w, '_, P>,
) -> Result<Outcome<'w>, AllocError>
    ensures { IfOk result (λ outcome. IsOutcome (workspace_text workspace.now) (words_text P.holds words.now) (outcome_text outcome)) }
{
    match plan(alloc, workspace, words) {
        Ok(plan) => Ok(Outcome::Built(copies_of(alloc, plan.units())?)),
        Err(PlanFault::Steps(StepFault::Memory)) => Err(AllocError),
        Err(fault) => Ok(Outcome::NotPlanned(message_of(alloc, workspace, fault)?)),
    }
}
