//! The text about the edits by which a build is smaller.
ghost use Rattle.std.specs.Prelude.{◌≡◌, [], ◌∷◌, IfErr, IfOk, codes, map};
ghost use Rattle.cargo_workspaces.specs.WorkspaceView.{workspace_text};
ghost use Rattle.cargo_plans.specs.WordsView.{words_text};
ghost use Rattle.cargo_plans.specs.plan_steps.PlanViews.{plan_text};
ghost use Rattle.toml.specs.View.{view};
ghost use Rattle.cargo_manifests.specs.inherited.Manifests.{AreManifests, IsNoManifests};
ghost use Rattle.feats_files.specs.Messages.{Says};
ghost use Rattle.plan_rows.specs.platforms.HeldSpecs.{holds_on};
ghost use Rattle.feats_slim.specs.answers.Texts.{IsSlimText};
ghost use Rattle.feats_answers.specs.SlimTexts as spec;

use cargo_manifests::inherited::{ManifestsFault, manifests_in};
use cargo_plans::{Plan, PlanWords};
use cargo_workspaces::Workspace;
use feats_files::{Fault, refused};
use feats_slim::answers::slim_text as text_of_slims;
use feats_words::Format;
use plan_rows::platforms::HeldSpecs;
use std::alloc::{AllocError, Global};
use toml::Value;

/// Returns the manifests in `bytes`. They are refused if one of them isn't a TOML document.
fn manifests_of(alloc: Global, bytes: &[u8]) -> Result<Vec<Value>, Fault>
    ensures manifests { IfOk result (λ manifests. AreManifests bytes.now (map view manifests.items)) }
    ensures fault { IfErr result (λ fault. Says fault (spec.IsNoSlim bytes.now)) }
{
    match manifests_in(alloc, bytes) {
        Ok(manifests) => Ok(manifests),
        Err(ManifestsFault::NotToml) => Err(refused(
            alloc,
            &["a manifest of the members isn't a TOML document: end each with a NUL byte"],
        )),
        Err(ManifestsFault::Memory) => Err(Fault::Memory),
    }
}

/// Returns the text about the edits by which less is built than `plan`, by `manifests`.
fn text_by<'w>(
    alloc: Global,
    format: Format,
    manifests: &[Value],
    workspace: &'w Workspace<'_>,
    words: &PlanWords<'w, '_, HeldSpecs<'_>>,
    plan: &Plan<'_>,
) -> Result<Vec<u8>, AllocError>
    ensures { IfOk result (λ text. IsSlimText format (workspace_text workspace.now) (map view manifests.now) (words_text holds_on words.now) (plan_text plan.now).units text.items) }
{
    match text_of_slims(alloc, format, workspace, manifests, words, plan) {
        Ok(text) => Ok(text),
        // The words have a plan, so they aren't refused.
        Err(_) => Err(AllocError),
    }
}

/// Returns the text about the edits by which less is built than `plan`, by the manifests in `bytes`. They are refused if one of them isn't a
/// TOML document.
pub(crate) fn slim_text<'w>(
    alloc: Global,
    format: Format,
    bytes: &[u8],
    workspace: &'w Workspace<'_>,
    words: &PlanWords<'w, '_, HeldSpecs<'_>>,
    plan: &Plan<'_>,
) -> Result<Vec<u8>, Fault>
    ensures text { IfOk result (λ text. spec.IsSlimBy format bytes.now (workspace_text workspace.now) (words_text holds_on words.now) (plan_text plan.now).units text.items) }
    ensures fault { IfErr result (λ fault. Says fault (spec.IsNoSlim bytes.now)) }
{
    let manifests = manifests_of(alloc, bytes)?;
    Ok(text_by(alloc, format, &manifests, workspace, words, plan)?)
}
