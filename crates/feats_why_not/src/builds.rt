//! What plans build.
ghost use Rattle.std.specs.Prelude.{◌≡◌, ℕ, IfOk, map, option_map, string_bytes};
ghost use Rattle.cargo_plans.specs.built_parts.Built.{is_part_built, state_of};
ghost use Rattle.cargo_plans.specs.built_parts.BuiltViews.{script_in, state_in};
ghost use Rattle.cargo_plans.specs.built_parts.Scripts.{lacking_script};
ghost use Rattle.cargo_plans.specs.WordsView.{words_text};
ghost use Rattle.cargo_plans.specs.plan_steps.PlanViews.{plan_text};
ghost use Rattle.cargo_workspaces.specs.WorkspaceView.{workspace_text};
ghost use Rattle.plan_rows.specs.platforms.HeldSpecs.{holds_on};
ghost use Rattle.feats_why_not.specs.PartView.{part_text};
ghost use Rattle.feats_why_not.specs.StandingView.{standing_text};
ghost use Rattle.feats_why_not.specs.inner.Lists as spec;

use crate::parts::{OffPart, spot_on};
use crate::standings::{Standing, standing_of};
use cargo_plans::built_parts::{BuiltParts, LackingScripts};
use cargo_plans::{Plan, PlanWords};
use cargo_workspaces::Workspace;
use feats_why::{UnbuiltSpot, unbuilt_message};
use plan_rows::platforms::HeldSpecs;
use std::alloc::{AllocError, Global};

/// What a plan builds, and the build scripts that packages lack there.
#[derive(Drop)]
pub(crate) struct Builds<'p> {
    pub(crate) parts: BuiltParts<'p>,
    pub(crate) scripts: LackingScripts,
    /// True if the resolver tells the sides apart.
    pub(crate) split: bool,
}

/// Returns what `plan` builds, which is the plan of `words`.
pub(crate) fn builds_of<'p>(
    alloc: Global,
    workspace: &Workspace<'_>,
    words: &PlanWords<'_, '_, HeldSpecs<'_>>,
    plan: &'p Plan<'_>,
) -> Result<Builds<'p>, AllocError>
    ensures parts { IfOk result (λ builds. state_in builds.parts ≡ state_of (words_text holds_on words.now).selection.split (plan_text plan.entry.now)) }
    ensures split { IfOk result (λ builds. builds.split ≡ (words_text holds_on words.now).selection.split) }
    ensures scripts { IfOk result (λ builds. (q : ℕ) → script_in builds.scripts q
        ≡ lacking_script (is_part_built (words_text holds_on words.now).selection.split (plan_text plan.entry.now)) (words_text holds_on words.now).host (workspace_text workspace.now).packages q) }
{
    let split = words.selection.split;
    let parts = BuiltParts::of_plan(alloc, split, plan)?;
    let scripts = LackingScripts::of_parts(alloc, workspace, words.host, &parts)?;
    Ok(Builds {
        parts,
        scripts,
        split,
    })
}

/// Returns the message about `part`, which stands so, if it is on and isn't built. Package `lacking` lacks a build script for it.
fn message_by(
    alloc: Global,
    workspace: &Workspace<'_>,
    sides: bool,
    lacking: Option<usize>,
    part: OffPart<'_>,
    standing: Standing,
) -> Result<Option<String>, AllocError>
    ensures { IfOk result (λ message. option_map string_bytes message ≡ spec.message_by (workspace_text workspace.now).packages sides lacking (part_text part.entry) (standing_text standing)) }
{
    match standing {
        Standing::BuiltOn(_) | Standing::Off => Ok(None),
        Standing::UnbuiltOn(side) => {
            let spot = spot_on(side, part);
            let unbuilt = UnbuiltSpot { spot, lacking };
            Ok(Some(unbuilt_message(alloc, workspace, sides, unbuilt)?))
        }
    }
}

/// Returns the message about `part`, if it is on and isn't built.
fn message_about(
    alloc: Global,
    workspace: &Workspace<'_>,
    builds: &Builds<'_>,
    part: OffPart<'_>,
) -> Result<Option<String>, AllocError>
    ensures { IfOk result (λ message. option_map string_bytes message ≡ spec.message_about (workspace_text workspace.now).packages builds.now.split (script_in builds.now.scripts) (state_in builds.now.parts) (part_text part.entry)) }
{
    let standing = standing_of(&builds.parts, part);
    let lacking = builds.scripts.of_package(part.package);
    message_by(alloc, workspace, builds.split, lacking, part, standing)
}

/// Returns the message about each of `parts` that is on and isn't built.
pub(crate) fn messages_about(
    alloc: Global,
    workspace: &Workspace<'_>,
    builds: &Builds<'_>,
    parts: &[OffPart<'_>],
) -> Result<Vec<Option<String>>, AllocError>
    ensures { IfOk result (λ messages. spec.optional_texts messages.items
        ≡ map (spec.message_about (workspace_text workspace.now).packages builds.now.split (script_in builds.now.scripts) (state_in builds.now.parts)) (map part_text parts.now)) }
{
    let mut messages = Vec::with_capacity(alloc, parts.len())?;
    for part in parts {
        messages.push(message_about(alloc, workspace, builds, *part)?)?;
    }
    Ok(messages)
}
