//! The trees of what depends on what.
ghost use Rattle.std.specs.Prelude.{◌≡◌, IfOk, IfErr, map, option_map};
ghost use Rattle.cargo_workspaces.specs.WorkspaceView.{workspace_text};
ghost use Rattle.feats_files.specs.FileViews.{file_text};
ghost use Rattle.feats_files.specs.Messages.{Says};
ghost use Rattle.plan_names.specs.Faults.{package_named as named_by};
ghost use Rattle.cargo_plans.specs.plan_steps.PlanViews.{plan_text};
ghost use Rattle.feats_tree.specs.packages.Dots.{IsPackageDot};
ghost use Rattle.feats_tree.specs.packages.Trees.{IsInvertedTree, IsPackageTree};
ghost use Rattle.feats_answers.specs.AnswerTexts.{IsPositive, negative as negative_text};
ghost use Rattle.feats_answers.specs.AnswerViews.{answer_text};
ghost use Rattle.feats_answers.specs.Gathered.{no_line as no_line_of};
ghost use Rattle.feats_answers.specs.NameMessages.{IsNameRefusal};
ghost use Rattle.feats_answers.specs.PlanTexts as names;
ghost use Rattle.feats_answers.specs.TreeTexts as spec;

use crate::answer::{Answer, negative, positive};
use crate::gathered::no_line;
use crate::list_texts::number_of;
use crate::plan_texts::target_names;
use cargo_plans::Plan;
use cargo_workspaces::Workspace;
use feats_files::{Fault, PlatformFile};
use feats_tree::features::{inverted_package_tree, package_dot, package_tree};
use feats_words::Format;
use std::alloc::{AllocError, Global};

/// Returns the answer with the trees of what started packages depend on.
fn tree_answer(
    alloc: Global,
    format: Format,
    files: &[PlatformFile<'_>],
    workspace: &Workspace<'_>,
    plan: &Plan<'_>,
    depth: Option<usize>,
) -> Result<Answer, AllocError>
    ensures { IfOk result (λ answer. IsPositive (IsPackageTree format (names.target_names (map file_text files.now)) (workspace_text workspace.now).packages (plan_text plan.now) depth) (answer_text answer)) }
{
    let names = target_names(alloc, files)?;
    let text = package_tree(alloc, format, &names, workspace, plan, depth)?;
    Ok(positive(text))
}

/// Returns the trees of what depends on package `number`.
fn inverted_text(
    alloc: Global,
    format: Format,
    files: &[PlatformFile<'_>],
    workspace: &Workspace<'_>,
    plan: &Plan<'_>,
    number: usize,
    depth: Option<usize>,
) -> Result<Vec<u8>, AllocError>
    ensures { IfOk result (λ text. IsInvertedTree format (names.target_names (map file_text files.now)) (workspace_text workspace.now).packages (plan_text plan.now) number depth text.items) }
{
    let names = target_names(alloc, files)?;
    inverted_package_tree(alloc, format, &names, workspace, plan, number, depth)
}

/// Returns the answer that what `word` names isn't built.
fn unbuilt(alloc: Global, format: Format, word: &str) -> Result<Answer, AllocError>
    ensures { IfOk result (λ answer. answer_text answer ≡ negative_text (no_line_of format word.now spec.unbuilt_end)) }
{
    let title = String::from_str(alloc, word)?;
    Ok(negative(no_line(alloc, format, title, " isn't built\n")?))
}

/// Returns the answer with `trees`. If they are empty, it says that what `word` names isn't built.
pub(crate) fn answer_of_trees(
    alloc: Global,
    format: Format,
    word: &str,
    trees: Vec<u8>,
) -> Result<Answer, AllocError>
    ensures { IfOk result (λ answer. answer_text answer ≡ spec.inverted_answer format word.now trees.items) }
{
    match trees.as_slice() {
        [] => unbuilt(alloc, format, word),
        [_, ..] => Ok(positive(trees)),
    }
}

/// Returns the answer with the trees of what depends on the package that `word` names.
fn inverted_answer(
    alloc: Global,
    format: Format,
    files: &[PlatformFile<'_>],
    workspace: &Workspace<'_>,
    plan: &Plan<'_>,
    word: &str,
    depth: Option<usize>,
) -> Result<Answer, Fault>
    ensures answer { IfOk result (λ answer. spec.IsInvertedAnswer format (map file_text files.now) (workspace_text workspace.now) (plan_text plan.now) word.now depth (answer_text answer)) }
    ensures fault { IfErr result (λ fault. Says fault (IsNameRefusal (workspace_text workspace.now).packages (named_by (workspace_text workspace.now).packages word.now))) }
{
    let number = number_of(alloc, workspace, word)?;
    let trees = inverted_text(alloc, format, files, workspace, plan, number, depth)?;
    Ok(answer_of_trees(alloc, format, word, trees)?)
}

/// Returns the answer to `tree`: with `invert`, about what depends on the package that this word names.
pub(crate) fn answer_to_tree(
    alloc: Global,
    format: Format,
    files: &[PlatformFile<'_>],
    workspace: &Workspace<'_>,
    plan: &Plan<'_>,
    invert: Option<&str>,
    depth: Option<usize>,
) -> Result<Answer, Fault>
    ensures answer { IfOk result (λ answer. spec.IsTreeAnswer format (map file_text files.now) (workspace_text workspace.now) (plan_text plan.now) (option_map (λ t. t.now) invert.entry) depth (answer_text answer)) }
    ensures fault { IfErr result (λ fault. Says fault (spec.IsTreeRefusal (workspace_text workspace.now).packages (option_map (λ t. t.now) invert.entry))) }
{
    match invert {
        None => Ok(tree_answer(alloc, format, files, workspace, plan, depth)?),
        Some(word) => inverted_answer(alloc, format, files, workspace, plan, word, depth),
    }
}

/// Returns the answer with the graph of what `plan` builds.
pub(crate) fn dot_answer(
    alloc: Global,
    files: &[PlatformFile<'_>],
    workspace: &Workspace<'_>,
    plan: &Plan<'_>,
) -> Result<Answer, AllocError>
    ensures { IfOk result (λ answer. IsPositive (IsPackageDot (names.target_names (map file_text files.now)) (workspace_text workspace.now).packages (plan_text plan.now)) (answer_text answer)) }
{
    let names = target_names(alloc, files)?;
    let text = package_dot(alloc, &names, workspace, plan)?;
    Ok(positive(text))
}
