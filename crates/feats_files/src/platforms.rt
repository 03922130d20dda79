//! The platform specs that hold on the platforms of a plan.
ghost use Rattle.std.specs.Prelude.{◌≡◌, IfOk, IfErr, map};
ghost use Rattle.cargo_workspaces.specs.WorkspaceView.{workspace_text};
ghost use Rattle.plan_rows.specs.platforms.HeldSpecs.{AreHeld, holds_on};
ghost use Rattle.plan_rows.specs.platforms.Views.{declared_text};
ghost use Rattle.feats_files.specs.Messages.{IsRefused, Says};
ghost use Rattle.feats_files.specs.Platforms as spec;

use crate::fault::Fault;
use crate::message::refused;
use cargo_workspaces::Workspace;
use plan_rows::platforms::{DeclaredSpec, HeldSpecs, PlatformFault, held_specs};
use platform_specs::TargetCfg;
use std::alloc::Global;

/// Returns the id of package `ix`; no text, if there is no such package.
pub(crate) fn id_at<'w>(workspace: &'w Workspace<'_>, ix: usize) -> &'w str
    ensures { result.now ≡ spec.id_at (workspace_text workspace.now).packages ix }
{
    match workspace.packages().get(ix) {
        Some(package) => package.id,
        None => "",
    }
}

/// Returns the refusal of a workspace's platform specs.
fn specs_refused(alloc: Global, workspace: &Workspace<'_>, fault: PlatformFault<'_>) -> Fault
    ensures { IsRefused (spec.specs_message (workspace_text workspace.now).packages fault.entry) result }
{
    match fault {
        PlatformFault::Malformed { package, spec, .. } => refused(
            alloc,
            &[
                "package ",
                id_at(workspace, package),
                " names `",
                spec,
                "`, which is no platform spec: write a triple or `cfg(..)`",
            ],
        ),
        PlatformFault::Memory => Fault::Memory,
    }
}

/// Returns the specs that hold for `target`.
pub fn held_on<'w>(
    alloc: Global,
    workspace: &Workspace<'_>,
    specs: &[DeclaredSpec<'w>],
    target: &TargetCfg,
) -> Result<HeldSpecs<'w>, Fault>
    ensures held { IfOk result (λ held. AreHeld target.now (map declared_text specs.now) (holds_on held)) }
    ensures fault { IfErr result (λ fault. Says fault (spec.IsSpecRefusal (workspace_text workspace.now).packages (map declared_text specs.now))) }
{
    match held_specs(alloc, specs, target) {
        Ok(held) => Ok(held),
        Err(PlatformFault::Memory) => Err(Fault::Memory),
        Err(fault) => Err(specs_refused(alloc, workspace, fault)),
    }
}

/// Returns the specs that hold for each of `targets`.
pub fn held_on_each<'w>(
    alloc: Global,
    workspace: &Workspace<'_>,
    specs: &[DeclaredSpec<'w>],
    targets: &[TargetCfg],
) -> Result<Vec<HeldSpecs<'w>>, Fault>
    ensures held { IfOk result (λ held. spec.AreHeldOnEach targets.now (map declared_text specs.now) (map holds_on held.items)) }
    ensures fault { IfErr result (λ fault. Says fault (spec.IsSpecRefusal (workspace_text workspace.now).packages (map declared_text specs.now))) }
{
    let mut each = Vec::with_capacity(alloc, targets.len())?;
    for target in targets {
        each.push(held_on(alloc, workspace, specs, target)?)?;
    }
    Ok(each)
}
