//! The trees and the graph of the features that are on.
ghost use Rattle.std.specs.Prelude.{◌≡◌, [], IfOk, IfErr, flat_map, map, option_map};
ghost use Rattle.cargo_plans.specs.WordsView.{words_text};
ghost use Rattle.cargo_workspaces.specs.WorkspaceView.{workspace_text};
ghost use Rattle.feats_files.specs.Messages.{Says};
ghost use Rattle.feats_tree.specs.features.Trees.{IsFeatureTree, IsInvertedFeatureTree};
ghost use Rattle.plan_names.specs.Views.{named_text};
ghost use Rattle.plan_rows.specs.platforms.HeldSpecs.{holds_on};
ghost use Rattle.cargo_plans.specs.plan_steps.PlanViews.{plan_text};
ghost use Rattle.feats_answers.specs.AnswerTexts.{IsPositive};
ghost use Rattle.feats_answers.specs.AnswerViews.{answer_text};
ghost use Rattle.feats_answers.specs.FeatureTexts as spec;
ghost use Rattle.feats_answers.specs.Parts.{IsPartRefusal};
ghost use Rattle.feats_answers.specs.WhyTexts.{spots_of_part};

use crate::answer::{Answer, negative, positive};
use crate::gathered::no_line;
use crate::parts::{parts_of, title_of};
use crate::why_texts::spots_of;
use cargo_plans::{Plan, PlanWords};
use cargo_workspaces::Workspace;
use feats_files::Fault;
use feats_tree::features::{feature_dot, feature_tree, inverted_feature_tree};
use feats_words::Format;
use plan_names::Named;
use plan_rows::platforms::HeldSpecs;
use std::alloc::{AllocError, Global};

/// Returns the answer with the trees of what the command line turns on.
fn tree_answer(
    alloc: Global,
    format: Format,
    workspace: &Workspace<'_>,
    words: &PlanWords<'_, '_, HeldSpecs<'_>>,
    plan: &Plan<'_>,
    depth: Option<usize>,
) -> Result<Answer, AllocError>
    ensures { IfOk result (λ answer. IsPositive (IsFeatureTree format (words_text holds_on words.now).selection.split (workspace_text workspace.now).packages (plan_text plan.now) depth) (answer_text answer)) }
{
    let sides = words.selection.split;
    let text = feature_tree(alloc, format, sides, workspace, plan, depth)?;
    Ok(positive(text))
}

/// Returns the trees of what turns on the parts `named`.
fn inverted_text(
    alloc: Global,
    format: Format,
    workspace: &Workspace<'_>,
    words: &PlanWords<'_, '_, HeldSpecs<'_>>,
    plan: &Plan<'_>,
    named: &[Named<'_>],
    depth: Option<usize>,
) -> Result<Vec<u8>, AllocError>
    ensures { IfOk result (λ text. IsInvertedFeatureTree format (words_text holds_on words.now).selection.split (workspace_text workspace.now).packages (plan_text plan.now) (flat_map spots_of_part (map named_text named.now)) depth text.items) }
{
    let sides = words.selection.split;
    let spots = spots_of(alloc, named)?;
    inverted_feature_tree(alloc, format, sides, workspace, plan, &spots, depth)
}

/// Returns the answer that `word`, which names the parts `named`, is off.
fn off_answer(
    alloc: Global,
    format: Format,
    workspace: &Workspace<'_>,
    word: &str,
    named: &[Named<'_>],
) -> Result<Answer, AllocError>
    ensures { IfOk result (λ answer. answer_text answer ≡ spec.answer_of_trees format (workspace_text workspace.now).packages word.now (map named_text named.now) []) }
{
    let title = title_of(alloc, workspace, word, named)?;
    let end = " is off in this build: ask why-not\n";
    Ok(negative(no_line(alloc, format, title, end)?))
}

/// Returns the answer with `trees` of the parts `named`. If they are empty, it says that `word`, which names them, is off.
fn answer_of_trees(
    alloc: Global,
    format: Format,
    workspace: &Workspace<'_>,
    word: &str,
    named: &[Named<'_>],
    trees: Vec<u8>,
) -> Result<Answer, AllocError>
    ensures { IfOk result (λ answer. answer_text answer ≡ spec.answer_of_trees format (workspace_text workspace.now).packages word.now (map named_text named.now) trees.items) }
{
    match trees.as_slice() {
        [] => off_answer(alloc, format, workspace, word, named),
        [_, ..] => Ok(positive(trees)),
    }
}

/// Returns the answer with the trees of what turns on the parts that `word` names.
fn inverted_answer<'w>(
    alloc: Global,
    format: Format,
    workspace: &'w Workspace<'_>,
    words: &PlanWords<'w, '_, HeldSpecs<'_>>,
    plan: &Plan<'_>,
    word: &'w str,
    depth: Option<usize>,
) -> Result<Answer, Fault>
    ensures answer { IfOk result (λ answer. spec.IsInvertedFeatureAnswer format (workspace_text workspace.now) (words_text holds_on words.now) (plan_text plan.now) word.now depth (answer_text answer)) }
    ensures fault { IfErr result (λ fault. Says fault (IsPartRefusal (workspace_text workspace.now) (words_text holds_on words.now) word.now)) }
{
    let named = parts_of(alloc, workspace, words, word)?;
    let trees = inverted_text(alloc, format, workspace, words, plan, &named, depth)?;
    Ok(answer_of_trees(alloc, format, workspace, word, &named, trees)?)
}

/// Returns the answer to `tree` about features: with `invert`, about what turns on the parts that this word names.
pub(crate) fn answer_to_feature_tree<'w>(
    alloc: Global,
    format: Format,
    workspace: &'w Workspace<'_>,
    words: &PlanWords<'w, '_, HeldSpecs<'_>>,
    plan: &Plan<'_>,
    invert: Option<&'w str>,
    depth: Option<usize>,
) -> Result<Answer, Fault>
    ensures answer { IfOk result (λ answer. spec.IsFeatureTreeAnswer format (workspace_text workspace.now) (words_text holds_on words.now) (plan_text plan.now) (option_map (λ t. t.now) invert.entry) depth (answer_text answer)) }
    ensures fault { IfErr result (λ fault. Says fault (spec.IsFeatureTreeRefusal (workspace_text workspace.now) (words_text holds_on words.now) (option_map (λ t. t.now) invert.entry))) }
{
    match invert {
        None => Ok(tree_answer(alloc, format, workspace, words, plan, depth)?),
        Some(word) => inverted_answer(alloc, format, workspace, words, plan, word, depth),
    }
}

/// Returns the answer with the graph of the features that are on in `plan`.
pub(crate) fn feature_dot_answer(
    alloc: Global,
    workspace: &Workspace<'_>,
    words: &PlanWords<'_, '_, HeldSpecs<'_>>,
    plan: &Plan<'_>,
) -> Result<Answer, AllocError>
    ensures { IfOk result (λ answer. spec.IsFeatureDotAnswer (workspace_text workspace.now) (words_text holds_on words.now) (plan_text plan.now) (answer_text answer)) }
{
    let text = feature_dot(alloc, words.selection.split, workspace, plan)?;
    Ok(positive(text))
}
