//! The answer to `plan --summary`.
ghost use Rattle.std.specs.Prelude.{◌≡◌, IfErr, IfOk};
ghost use Rattle.cargo_plans.specs.WordsView.{words_text};
ghost use Rattle.cargo_plans.specs.plan_steps.PlanViews.{plan_text};
ghost use Rattle.cargo_workspaces.specs.WorkspaceView.{workspace_text};
ghost use Rattle.feats_answers.specs.AnswerTexts.{IsPositive};
ghost use Rattle.feats_answers.specs.AnswerViews.{answer_text};
ghost use Rattle.feats_answers.specs.SummaryTexts.{IsNoSummary, IsSummaryOf, IsSummaryText, are_several};
ghost use Rattle.feats_files.specs.Messages.{Says};
ghost use Rattle.plan_rows.specs.platforms.HeldSpecs.{holds_on};
ghost use Rattle.plan_words.specs.Selections.{selection_text};

use crate::answer::{Answer, positive};
use cargo_plans::{Plan, PlanWords, Selection};
use cargo_workspaces::Workspace;
use feats_files::{Fault, document_of, refused};
use feats_summary::plan_summary;
use json::Scratch;
use plan_rows::platforms::HeldSpecs;
use std::alloc::{AllocError, Global};
use std::str;

/// Returns whether `words` are for several target platforms.
fn have_several(words: &PlanWords<'_, '_, HeldSpecs<'_>>) -> bool
    ensures { result ≡ are_several (words_text holds_on words.now).targets }
{
    words.targets.len() > 1
}

/// Returns the summary of `plan`, where the document with these bytes describes `workspace`.
fn summary_text<'w>(
    alloc: Global,
    document: &[u8],
    workspace: &'w Workspace<'_>,
    selection: &Selection<'w>,
    plan: &Plan<'w>,
) -> Result<Vec<u8>, AllocError>
    ensures { IfOk result (λ text. IsSummaryOf document.now (workspace_text workspace.now) (selection_text selection.now) (plan_text plan.now) text.items) }
{
    // The document describes a workspace, so it is text and JSON.
    let Ok(text) = str::from_utf8(document) else {
        return Err(AllocError);
    };
    let mut scratch = Scratch::new(alloc);
    let Ok(value) = document_of(alloc, text, &mut scratch) else {
        return Err(AllocError);
    };
    plan_summary(alloc, &value, workspace, selection, plan)
}

/// Returns the answer to `plan --summary`: the summary of `plan`, where `document` describes `workspace`. It is refused if there are several
/// target platforms.
pub(crate) fn summary_answer<'w>(
    alloc: Global,
    document: &[u8],
    workspace: &'w Workspace<'_>,
    words: &PlanWords<'w, '_, HeldSpecs<'_>>,
    plan: &Plan<'w>,
) -> Result<Answer, Fault>
    ensures answer { IfOk result (λ answer. IsPositive (IsSummaryText document.now (workspace_text workspace.now) (words_text holds_on words.now) (plan_text plan.now)) (answer_text answer)) }
    ensures fault { IfErr result (λ fault. Says fault (IsNoSummary (words_text holds_on words.now).targets)) }
{
    if have_several(words) {
        return Err(refused(
            alloc,
            &[
                "a summary has the packages of one target platform: name one --target, and ask for each platform on its own",
            ],
        ));
    }
    let text = summary_text(alloc, document, workspace, &words.selection, plan)?;
    Ok(positive(text))
}
