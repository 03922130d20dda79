//! The parts that a word of `why` names.
ghost use Rattle.std.specs.Prelude.{◌≡◌, ◌++◌, ◌∷◌, [], Ok, IfOk, IfErr, OnOk, filter, map};
ghost use Rattle.cargo_plans.specs.WordsView.{words_text};
ghost use Rattle.cargo_plans.specs.built_parts.Built.{is_part_built};
ghost use Rattle.cargo_plans.specs.built_parts.BuiltViews.{is_built_in};
ghost use Rattle.cargo_plans.specs.plan_steps.PlanViews.{plan_text};
ghost use Rattle.cargo_workspaces.specs.WorkspaceView.{workspace_text};
ghost use Rattle.plan_names.specs.Views.{named_text};
ghost use Rattle.plan_rows.specs.platforms.HeldSpecs.{holds_on};
ghost use Rattle.feats_files.specs.Messages.{Says};
ghost use Rattle.feats_answers.specs.NameMessages.{IsNameRefusal};
ghost use Rattle.feats_answers.specs.Parts.{is_anywhere};
ghost use Rattle.feats_answers.specs.WhyParts as spec;

use crate::name_messages::name_refused;
use crate::parts::is_anywhere;
use cargo_plans::built_parts::BuiltParts;
use cargo_plans::{Plan, PlanWords};
use cargo_workspaces::Workspace;
use feats_files::Fault;
use plan_names::{NameFault, Named, parts_matching};
use plan_rows::platforms::HeldSpecs;
use plan_words::choose;
use std::alloc::{AllocError, Global};

/// Returns those of `candidates` that are built.
fn built_among<'w>(
    alloc: Global,
    built: &BuiltParts<'_>,
    candidates: &[Named<'w>],
) -> Result<Vec<Named<'w>>, AllocError>
    ensures { IfOk result (λ named. map named_text named.items ≡ filter (is_anywhere (is_built_in built.now)) (map named_text candidates.now)) }
{
    let mut named = Vec::new(alloc);
    for candidate in candidates {
        if is_anywhere(built, *candidate) {
            named.push(*candidate)?;
        }
    }
    Ok(named)
}

/// Returns those of `candidates` that are built in `plan`.
fn those_built<'w>(
    alloc: Global,
    split: bool,
    plan: &Plan<'_>,
    candidates: &[Named<'w>],
) -> Result<Vec<Named<'w>>, AllocError>
    ensures { IfOk result (λ named. map named_text named.items ≡ filter (is_anywhere (is_part_built split (plan_text plan.now))) (map named_text candidates.now)) }
{
    let built = BuiltParts::of_plan(alloc, split, plan)?;
    built_among(alloc, &built, candidates)
}

/// Returns `named`, or the refusal of `word` with all `candidates` if `named` is empty.
fn those_or_several<'w>(
    alloc: Global,
    workspace: &Workspace<'_>,
    word: &'w str,
    candidates: Vec<Named<'w>>,
    named: Vec<Named<'w>>,
) -> Result<Vec<Named<'w>>, Fault>
    ensures parts { IfOk result (λ parts. spec.those_or_several word.now (map named_text candidates.entry.items) (map named_text named.entry.items) ≡ Ok (map named_text parts.items)) }
    ensures fault { IfErr result (λ fault. Says fault (IsNameRefusal (workspace_text workspace.now).packages (spec.those_or_several word.now (map named_text candidates.entry.items) (map named_text named.entry.items)))) }
{
    if named.is_empty() {
        let fault = NameFault::Several { word, candidates };
        return Err(name_refused(alloc, workspace, fault));
    }
    Ok(named)
}

/// Returns the parts that `word` names, read as the word of a rule. Parts of the packages `selected` go before others. If several candidates
/// fit, returns those that `plan` builds. If it builds none, the error has all candidates.
fn parts_among<'w>(
    alloc: Global,
    workspace: &'w Workspace<'_>,
    words: &PlanWords<'w, '_, HeldSpecs<'_>>,
    plan: &Plan<'_>,
    selected: &[usize],
    word: &'w str,
) -> Result<Vec<Named<'w>>, Fault>
    ensures parts { IfOk result (λ named. spec.why_parts (workspace_text workspace.now) (words_text holds_on words.now) (plan_text plan.now) selected.now word.now ≡ Ok (map named_text named.items)) }
    ensures fault { IfErr result (λ fault. Says fault (IsNameRefusal (workspace_text workspace.now).packages (spec.why_parts (workspace_text workspace.now) (words_text holds_on words.now) (plan_text plan.now) selected.now word.now))) }
{
    match parts_matching(alloc, workspace, selected, word) {
        Ok(named) => Ok(named),
        Err(NameFault::Several { word, candidates }) => {
            let named = those_built(alloc, words.selection.split, plan, &candidates)?;
            those_or_several(alloc, workspace, word, candidates, named)
        }
        Err(fault) => Err(name_refused(alloc, workspace, fault)),
    }
}

/// Returns the parts that `word` names in the build of `words`, read as the word of a rule. If several candidates fit, returns those that
/// `plan`, the plan of the build, builds. If it builds none, the error has all candidates.
pub(crate) fn why_parts_of<'w>(
    alloc: Global,
    workspace: &'w Workspace<'_>,
    words: &PlanWords<'w, '_, HeldSpecs<'_>>,
    plan: &Plan<'_>,
    word: &'w str,
) -> Result<Vec<Named<'w>>, Fault>
    ensures parts { IfOk result (λ named. spec.AreWhyParts (workspace_text workspace.now) (words_text holds_on words.now) (plan_text plan.now) word.now (map named_text named.items)) }
    ensures fault { IfErr result (λ fault. Says fault (spec.IsWhyRefusal (workspace_text workspace.now) (words_text holds_on words.now) (plan_text plan.now) word.now)) }
{
    match choose(alloc, workspace, &words.selection) {
        Ok(chosen) => parts_among(alloc, workspace, words, plan, &chosen.selected, word),
        Err(_) => Err(Fault::Memory),
    }
}
