//! The text about the edits by which a build is smaller.
ghost use Rattle.std.specs.Prelude.{◌≡◌, Err, IfErr, IfOk, map, string_bytes};
ghost use Rattle.cargo_workspaces.specs.Views.{package_text};
ghost use Rattle.cargo_workspaces.specs.WorkspaceView.{workspace_text};
ghost use Rattle.feats_slim.specs.edits.cargo_plans.WordsView.{words_text};
ghost use Rattle.feats_slim.specs.edits.SlimViews.{slim_text as text_of_slim};
ghost use Rattle.feats_slim.specs.edits.cargo_plans.plan_steps.PlanViews.{plan_text};
ghost use Rattle.plan_words.specs.Choices.{choose as chosen_by};
ghost use Rattle.plan_words.specs.Refusals.{IfNotMemory, refusal_of};
ghost use Rattle.plan_words.specs.Selections.{selection_text};
ghost use Rattle.toml.specs.View.{view};
ghost use Rattle.feats_slim.specs.answers.Texts as spec;
ghost use Rattle.feats_slim.specs.answers.Texts.{IsSlimText};

use crate::answers::objects::slim_objects;
use crate::answers::table::slim_lines;
use crate::edits::{Plan, PlanWords, Slim, WordFault, slims_of};
use cargo_manifests::inherited::inheritance_in;
use cargo_workspaces::{Package, Workspace};
use feats_words::Format;
use plan_rows::Platform;
use std::alloc::{AllocError, Global};
use toml::Value;

/// Returns the text of `slims`.
fn text_of<'u>(
    alloc: Global,
    format: Format,
    packages: &'u [Package<'_>],
    slims: &[Slim<'u>],
) -> Result<Vec<u8>, AllocError>
    ensures { IfOk result (λ text. text.items ≡ spec.text_by format (map package_text packages.now) (map text_of_slim slims.now)) }
{
    match format {
        Format::Text => Ok(slim_lines(alloc, packages, slims)?.into_bytes()),
        Format::Json => slim_objects(alloc, packages, slims),
    }
}

/// Returns the text about the single edits by which packages or features of `plan` fall away: of the selected members' declarations, and
/// of what they inherit by `manifests`. `plan` is that of `words` in `workspace`. The only errors are the refusal of the words, and `Memory`
/// if an allocation fails.
pub fn slim_text<'w, P: Platform>(
    alloc: Global,
    format: Format,
    workspace: &'w Workspace<'_>,
    manifests: &[Value],
    words: &PlanWords<'w, '_, P>,
    plan: &Plan<'_>,
) -> Result<Vec<u8>, WordFault<'w>>
    ensures text { IfOk result (λ text. IsSlimText format (workspace_text workspace.now) (map view manifests.now) (words_text P.holds words.now) (plan_text plan.now).units text.items) }
    ensures fault { IfErr result (λ fault. IfNotMemory (refusal_of fault) (chosen_by (workspace_text workspace.now) (selection_text words.now.selection) ≡ Err (refusal_of fault))) }
{
    let inheritance = inheritance_in(alloc, workspace, manifests)?;
    let slims = slims_of(alloc, workspace, &inheritance, words, plan)?;
    Ok(text_of(alloc, format, workspace.packages(), &slims)?)
}
