//! The routes by which selected members lead to a package.
ghost use Rattle.std.specs.Prelude.{IfOk, IfErr, map};
ghost use Rattle.cargo_plans.specs.WordsView.{words_text};
ghost use Rattle.cargo_plans.specs.plan_steps.PlanViews.{plan_text};
ghost use Rattle.cargo_workspaces.specs.WorkspaceView.{workspace_text};
ghost use Rattle.feats_answers.specs.AnswerViews.{answer_text};
ghost use Rattle.feats_answers.specs.NameMessages.{IsNameRefusal};
ghost use Rattle.feats_answers.specs.PlanTexts as names;
ghost use Rattle.feats_answers.specs.RouteTexts.{IsRoutesAnswer};
ghost use Rattle.feats_files.specs.FileViews.{file_text};
ghost use Rattle.feats_files.specs.Messages.{Says};
ghost use Rattle.feats_routes.specs.Routes.{IsRoutesText};
ghost use Rattle.plan_names.specs.Faults.{package_named as named_by};
ghost use Rattle.plan_rows.specs.platforms.HeldSpecs.{holds_on};

use crate::answer::Answer;
use crate::list_texts::number_of;
use crate::plan_texts::target_names;
use crate::tree_texts::answer_of_trees;
use cargo_plans::{Plan, PlanWords};
use cargo_workspaces::Workspace;
use feats_files::{Fault, PlatformFile};
use feats_routes::routes_text;
use feats_words::Format;
use plan_rows::platforms::HeldSpecs;
use std::alloc::{AllocError, Global};

/// Returns the routes to package `number`.
fn routes_of(
    alloc: Global,
    format: Format,
    files: &[PlatformFile<'_>],
    workspace: &Workspace<'_>,
    words: &PlanWords<'_, '_, HeldSpecs<'_>>,
    plan: &Plan<'_>,
    number: usize,
) -> Result<Vec<u8>, AllocError>
    ensures { IfOk result (λ text. IsRoutesText format (names.target_names (map file_text files.now)) (workspace_text workspace.now) (words_text holds_on words.now) (plan_text plan.now) number text.items) }
{
    let names = target_names(alloc, files)?;
    routes_text(alloc, format, &names, workspace, words, plan, number)
}

/// Returns the answer to `why` with `--routes`: the routes to the package that `word` names. It is negative if the package isn't built.
pub(crate) fn routes_answer(
    alloc: Global,
    format: Format,
    files: &[PlatformFile<'_>],
    workspace: &Workspace<'_>,
    words: &PlanWords<'_, '_, HeldSpecs<'_>>,
    plan: &Plan<'_>,
    word: &str,
) -> Result<Answer, Fault>
    ensures answer { IfOk result (λ answer. IsRoutesAnswer format (map file_text files.now) (workspace_text workspace.now) (words_text holds_on words.now) (plan_text plan.now) word.now (answer_text answer)) }
    ensures fault { IfErr result (λ fault. Says fault (IsNameRefusal (workspace_text workspace.now).packages (named_by (workspace_text workspace.now).packages word.now))) }
{
    let number = number_of(alloc, workspace, word)?;
    let routes = routes_of(alloc, format, files, workspace, words, plan, number)?;
    Ok(answer_of_trees(alloc, format, word, routes)?)
}
