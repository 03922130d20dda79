//! The messages of widened selections that have no plan.
ghost use Rattle.std.specs.Prelude.{◌≡◌, IfOk, string_bytes};
ghost use Rattle.cargo_workspaces.specs.WorkspaceView.{workspace_text};
ghost use Rattle.feats_files.specs.plan_messages.Messages.{plan_message};

use cargo_plans::PlanFault;
use cargo_workspaces::Workspace;
use feats_files::Fault;
use feats_files::plan_messages::plan_refused;
use std::alloc::{AllocError, Global};

/// Returns the message about `fault`, which a selection in `workspace` has.
pub(crate) fn message_of<'p>(
    alloc: Global,
    workspace: &'p Workspace<'_>,
    fault: PlanFault<'p>,
) -> Result<String, AllocError>
    ensures { IfOk result (λ message. string_bytes message ≡ plan_message (workspace_text workspace.now).packages fault.entry) }
{
    match plan_refused(alloc, workspace, fault) {
        Fault::Refused { message } | Fault::Listed { message } => Ok(message),
        Fault::Memory | Fault::CannotWrite => Err(AllocError),
    }
}
