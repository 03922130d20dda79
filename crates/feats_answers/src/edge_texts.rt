//! Trees and graphs, of packages or of features.
ghost use Rattle.std.specs.Prelude.{IfOk, IfErr, map, option_map};
ghost use Rattle.cargo_plans.specs.WordsView.{words_text};
ghost use Rattle.cargo_workspaces.specs.WorkspaceView.{workspace_text};
ghost use Rattle.feats_files.specs.Messages.{Says};
ghost use Rattle.plan_rows.specs.platforms.HeldSpecs.{holds_on};
ghost use Rattle.cargo_plans.specs.plan_steps.PlanViews.{plan_text};
ghost use Rattle.feats_answers.specs.AnswerViews.{answer_text};
ghost use Rattle.feats_answers.specs.Asked.{asked_text};
ghost use Rattle.feats_answers.specs.EdgeTexts as spec;

use crate::answer::Answer;
use crate::asked::Asked;
use crate::feature_texts::{answer_to_feature_tree, feature_dot_answer};
use crate::tree_texts::{answer_to_tree, dot_answer};
use cargo_plans::{Plan, PlanWords};
use cargo_workspaces::Workspace;
use feats_files::Fault;
use feats_words::Edges;
use plan_rows::platforms::HeldSpecs;
use std::alloc::{AllocError, Global};

/// Returns the answer to `tree`: with `invert`, about what leads to the part that this word names.
pub(crate) fn answer_to_edge_tree<'w>(
    alloc: Global,
    asked: Asked<'_, '_, '_, '_>,
    workspace: &'w Workspace<'_>,
    words: &PlanWords<'w, '_, HeldSpecs<'_>>,
    plan: &Plan<'_>,
    invert: Option<&'w str>,
) -> Result<Answer, Fault>
    ensures answer { IfOk result (λ answer. spec.IsTreeBy (asked_text asked.entry).arguments.edges (asked_text asked.entry) (workspace_text workspace.now) (words_text holds_on words.now) (plan_text plan.now) (option_map (λ t. t.now) invert.entry) (answer_text answer)) }
    ensures fault { IfErr result (λ fault. Says fault (spec.IsNoTreeBy (asked_text asked.entry).arguments.edges (workspace_text workspace.now) (words_text holds_on words.now) (option_map (λ t. t.now) invert.entry))) }
{
    let format = asked.arguments.format;
    let depth = asked.arguments.depth;
    match asked.arguments.edges {
        Edges::Packages => answer_to_tree(
            alloc,
            format,
            asked.targets,
            workspace,
            plan,
            invert,
            depth,
        ),
        Edges::Features => {
            answer_to_feature_tree(alloc, format, workspace, words, plan, invert, depth)
        }
    }
}

/// Returns the answer to `dot`.
pub(crate) fn answer_to_edge_dot(
    alloc: Global,
    asked: Asked<'_, '_, '_, '_>,
    workspace: &Workspace<'_>,
    words: &PlanWords<'_, '_, HeldSpecs<'_>>,
    plan: &Plan<'_>,
) -> Result<Answer, AllocError>
    ensures { IfOk result (λ answer. spec.IsDotBy (asked_text asked.entry).arguments.edges (asked_text asked.entry).targets (workspace_text workspace.now) (words_text holds_on words.now) (plan_text plan.now) (answer_text answer)) }
{
    match asked.arguments.edges {
        Edges::Packages => dot_answer(alloc, asked.targets, workspace, plan),
        Edges::Features => feature_dot_answer(alloc, workspace, words, plan),
    }
}
