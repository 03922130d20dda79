//! The workspace of a document.
ghost use Rattle.std.specs.Prelude.{◌≡◌, Ok, IfOk, IfErr, IsErrAnd};
ghost use Rattle.json.specs.Value.{value_view};
ghost use Rattle.cargo_workspaces.specs.WorkspaceView.{workspace_text};
ghost use Rattle.feats_plans.specs.numbered_workspaces.Faults as spec;
ghost use Rattle.feats_files.specs.Messages.{Says};
ghost use Rattle.feats_plans.specs.DocumentMessages.{document_message};

use crate::document_messages::document_refused;
use crate::numbered_workspaces::workspace_in;
use cargo_workspaces::Workspace;
use feats_files::Fault;
use json::Value;
use std::alloc::Global;

/// Returns the workspace that `document` describes.
pub(crate) fn workspace_of<'v>(alloc: Global, document: Value<'v>) -> Result<Workspace<'v>, Fault>
    ensures workspace { IfOk result (λ w. spec.workspace_in (value_view document.entry) ≡ Ok (workspace_text w)) }
    ensures fault { IfErr result (λ fault. Says fault (λ message. IsErrAnd (spec.workspace_in (value_view document.entry)) (λ reason. message ≡ document_message reason))) }
{
    match workspace_in(alloc, document) {
        Ok(workspace) => Ok(workspace),
        Err(fault) => Err(document_refused(alloc, &fault)),
    }
}
