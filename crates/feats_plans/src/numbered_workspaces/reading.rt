//! Reads the workspace of a document.
ghost use Rattle.json.specs.Value.{value_view};
ghost use Rattle.cargo_workspaces.specs.WorkspaceView.{workspace_text};
ghost use Rattle.workspace_documents.specs.LeadViews.{described_view};
ghost use Rattle.workspace_documents.specs.Rules.{IsDescribed};
ghost use Rattle.feats_plans.specs.numbered_workspaces.Numbers.{numbered};
ghost use Rattle.feats_plans.specs.numbered_workspaces.Faults as spec;
ghost use Rattle.feats_plans.specs.numbered_workspaces.Gives.{Gives};

use crate::numbered_workspaces::fault::WorkspaceFault;
use crate::numbered_workspaces::numbers::{ids_of, number_if_any, numbered_packages, numbers_of};
use crate::numbered_workspaces::rules::check_packages;
use cargo_json::DocumentFault;
use cargo_workspaces::Workspace;
use json::Value;
use std::alloc::Global;
use workspace_documents::{Described, described_in};

/// Returns the workspace of `described`, or the first fault of its packages.
fn numbered<'v>(
    alloc: Global,
    described: Described<'v>,
) -> Result<Workspace<'v>, WorkspaceFault<'v>>
    requires { IsDescribed (described_view described) }
    ensures { Gives workspace_text result (spec.checked (numbered (described_view described.entry))) }
{
    let Described { packages, links } = described;
    let ids = ids_of(alloc, &packages)?;
    let packages = numbered_packages(alloc, &ids, packages, &links.leads)?;
    check_packages(alloc, &packages)?;
    let members = numbers_of(alloc, &ids, &links.members)?;
    let default_members = numbers_of(alloc, &ids, &links.default_members)?;
    let root = number_if_any(&ids, links.root);
    Ok(Workspace::new(packages, members, default_members, root))
}

/// Reads the workspace that `document` describes, with its packages numbered in the order of their ids. Its texts are those of the
/// document.
///
/// Returns `Document` with the document's first fault; then `FeatureName` or `TwoNames` for the first package with such a fault;
/// and `Memory` if an allocation fails.
#[tactic(auto, unfolding(crate::specs::numbered_workspaces::Faults::workspace_in))]
pub fn workspace_in<'v>(
    alloc: Global,
    document: Value<'v>,
) -> Result<Workspace<'v>, WorkspaceFault<'v>>
    ensures { Gives workspace_text result (spec.workspace_in (value_view document.entry)) }
{
    match described_in(alloc, document) {
        Ok(described) => numbered(alloc, described),
        Err(DocumentFault::Memory) => Err(WorkspaceFault::Memory),
        Err(fault) => Err(WorkspaceFault::Document { fault }),
    }
}
