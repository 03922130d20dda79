//! The answers to questions about a build.
ghost use Rattle.std.specs.Prelude.{◌≡◌, IfOk, IfErr, map};
ghost use Rattle.cargo_workspaces.specs.WorkspaceView.{workspace_text};
ghost use Rattle.cargo_plans.specs.Plans.{IsPlanOf};
ghost use Rattle.cargo_plans.specs.WordsView.{words_text};
ghost use Rattle.plan_names.specs.Faults.{package_named};
ghost use Rattle.plan_rows.specs.platforms.DeclaredSpecs.{declared_specs};
ghost use Rattle.plan_rows.specs.platforms.HeldSpecs.{holds_on};
ghost use Rattle.plan_rows.specs.platforms.Views.{declared_text};
ghost use Rattle.cargo_plans.specs.plan_steps.PlanViews.{plan_text};
ghost use Rattle.feats_files.specs.FileViews.{file_text};
ghost use Rattle.feats_files.specs.Messages.{Says};
ghost use Rattle.feats_answers.specs.AnswerViews.{answer_text};
ghost use Rattle.feats_answers.specs.Answers.{IsAnswerTo, IsNoAnswerTo, IsPositive};
ghost use Rattle.feats_answers.specs.Asked.{asked_text};
ghost use Rattle.feats_answers.specs.DuplicateTexts.{IsDuplicatesText};
ghost use Rattle.feats_answers.specs.ListTexts.{IsListText};
ghost use Rattle.feats_answers.specs.NameMessages.{IsNameRefusal};
ghost use Rattle.feats_answers.specs.Parts.{IsPartRefusal};
ghost use Rattle.feats_answers.specs.PlanTexts.{text_of_units};
ghost use Rattle.feats_answers.specs.ReportTexts.{IsReportText};
ghost use Rattle.feats_answers.specs.SlimTexts.{IsNoSlim, IsSlimBy};
ghost use Rattle.feats_answers.specs.SpecTexts.{IsSpecText, places};
ghost use Rattle.feats_answers.specs.UnusedTexts.{IsUnusedText};
ghost use Rattle.feats_answers.specs.WhyNotTexts.{IsWhyNotAnswer};
ghost use Rattle.feats_answers.specs.WhyParts.{IsWhyRefusal};
ghost use Rattle.feats_answers.specs.WhyTexts.{IsWhyAnswer};

use crate::answer::{Answer, positive};
use crate::asked::Asked;
use crate::duplicate_texts::{DuplicatesQuestion, duplicates_text};
use crate::edge_texts::{answer_to_edge_dot, answer_to_edge_tree};
use crate::gathered::gathered;
use crate::list_texts::list_text;
use crate::off_parts::off_parts;
use crate::parts::parts_of;
use crate::plan_texts::text_of_units;
use crate::policy_texts::{PolicyWord, check_answer};
use crate::report_texts::report_of;
use crate::route_texts::routes_answer;
use crate::slim_texts::slim_text;
use crate::spec_texts::spec_text;
use crate::summary_texts::summary_answer;
use crate::unused_texts::unused_text;
use crate::why_parts::why_parts_of;
use crate::why_texts::{WhyQuestion, why_answer_of};
use cargo_plans::{Plan, PlanWords};
use cargo_workspaces::Workspace;
use feats_files::{Fault, PlatformFile};
use feats_why_not::why_not_texts;
use feats_words::{Format, Question};
use plan_rows::platforms::{DeclaredSpec, HeldSpecs, every_spec};
use std::alloc::{AllocError, Global};

/// Returns the answer to `plan`.
fn plan_answer(
    alloc: Global,
    format: Format,
    files: &[PlatformFile<'_>],
    workspace: &Workspace<'_>,
    plan: &Plan<'_>,
) -> Result<Answer, AllocError>
    ensures { IfOk result (λ answer. IsPositive (λ text. text ≡ text_of_units format (map file_text files.now) (workspace_text workspace.now).packages (plan_text plan.now).units) (answer_text answer)) }
{
    let text = text_of_units(alloc, format, files, workspace, plan.units())?;
    Ok(positive(text))
}

/// Returns the answer to `specs`.
fn specs_answer<'n>(
    alloc: Global,
    format: Format,
    files: &[PlatformFile<'n>],
    specs: &[DeclaredSpec<'_>],
    words: &PlanWords<'_, 'n, HeldSpecs<'_>>,
) -> Result<Answer, AllocError>
    ensures { IfOk result (λ answer. IsPositive (IsSpecText format (map declared_text specs.now) (places (map file_text files.now) (words_text holds_on words.now).host (words_text holds_on words.now).targets)) (answer_text answer)) }
{
    let text = spec_text(alloc, format, specs, files, words.host, words.targets)?;
    Ok(positive(text))
}

/// Returns the answer to `list` with this word.
fn list_answer(
    alloc: Global,
    format: Format,
    workspace: &Workspace<'_>,
    split: bool,
    plan: &Plan<'_>,
    word: &str,
) -> Result<Answer, Fault>
    ensures answer { IfOk result (λ answer. IsPositive (IsListText format (workspace_text workspace.now) split (plan_text plan.now) word.now) (answer_text answer)) }
    ensures fault { IfErr result (λ fault. Says fault (IsNameRefusal (workspace_text workspace.now).packages (package_named (workspace_text workspace.now).packages word.now))) }
{
    match list_text(alloc, format, workspace, split, plan, word) {
        Ok(text) => Ok(positive(text)),
        Err(fault) => Err(fault),
    }
}

/// Returns the answer to `list --unused`.
fn unused_answer(
    alloc: Global,
    format: Format,
    workspace: &Workspace<'_>,
) -> Result<Answer, AllocError>
    ensures { IfOk result (λ answer. IsPositive (IsUnusedText format (workspace_text workspace.now)) (answer_text answer)) }
{
    let text = unused_text(alloc, format, workspace)?;
    Ok(positive(text))
}

/// Returns the answer to `duplicates`.
fn duplicates_answer<'w>(
    alloc: Global,
    asked: DuplicatesQuestion,
    files: &[PlatformFile<'_>],
    workspace: &'w Workspace<'_>,
    words: &PlanWords<'w, '_, HeldSpecs<'_>>,
    plan: &Plan<'w>,
) -> Result<Answer, AllocError>
    ensures { IfOk result (λ answer. IsPositive (IsDuplicatesText asked.format asked.alone asked.places (map file_text files.now) (workspace_text workspace.now) (words_text holds_on words.now) (plan_text plan.now)) (answer_text answer)) }
{
    let text = duplicates_text(alloc, asked, files, workspace, words, plan)?;
    Ok(positive(text))
}

/// Returns the answer to `why` with this word. With `all` it has every direct reason of each step.
fn why_answer<'w>(
    alloc: Global,
    format: Format,
    all: bool,
    workspace: &'w Workspace<'_>,
    words: &PlanWords<'w, '_, HeldSpecs<'_>>,
    plan: &Plan<'_>,
    word: &'w str,
) -> Result<Answer, Fault>
    requires plan { IsPlanOf (workspace_text workspace.now) (words_text holds_on words.now) (plan_text plan.now) }
    ensures answer { IfOk result (λ answer. IsWhyAnswer format all (workspace_text workspace.now) (words_text holds_on words.now) (plan_text plan.now) word.now (answer_text answer)) }
    ensures fault { IfErr result (λ fault. Says fault (IsWhyRefusal (workspace_text workspace.now) (words_text holds_on words.now) (plan_text plan.now) word.now)) }
{
    let named = why_parts_of(alloc, workspace, words, plan, word)?;
    let asked = WhyQuestion { format, word, all };
    Ok(why_answer_of(alloc, asked, workspace, words, plan, &named)?)
}

/// Returns the answer to `why-not` with this word. `specs` are the platform specs of the workspace.
fn why_not_answer<'w, 's>(
    alloc: Global,
    format: Format,
    workspace: &'w Workspace<'_>,
    specs: &[DeclaredSpec<'s>],
    words: &PlanWords<'w, '_, HeldSpecs<'s>>,
    plan: &Plan<'_>,
    word: &'w str,
) -> Result<Answer, Fault>
    requires plan { IsPlanOf (workspace_text workspace.now) (words_text holds_on words.now) (plan_text plan.now) }
    ensures answer { IfOk result (λ answer. IsWhyNotAnswer format (workspace_text workspace.now) (map declared_text specs.now) (words_text holds_on words.now) (plan_text plan.now) word.now (answer_text answer)) }
    ensures fault { IfErr result (λ fault. Says fault (IsPartRefusal (workspace_text workspace.now) (words_text holds_on words.now) word.now)) }
{
    let named = parts_of(alloc, workspace, words, word)?;
    let every = every_spec(alloc, specs)?;
    let off = off_parts(alloc, words.selection.split, plan, &named)?;
    let texts = why_not_texts(alloc, format, workspace, words, plan, &every, &off)?;
    let end = " is on in this build: ask why\n";
    Ok(gathered(alloc, format, workspace, word, &named, end, &texts)?)
}

/// Returns the answer to `report`.
fn report_answer<'n>(
    alloc: Global,
    files: &[PlatformFile<'n>],
    workspace: &Workspace<'_>,
    specs: &[DeclaredSpec<'_>],
    words: &PlanWords<'_, 'n, HeldSpecs<'_>>,
    plan: &Plan<'_>,
) -> Result<Answer, AllocError>
    requires plan { IsPlanOf (workspace_text workspace.now) (words_text holds_on words.now) (plan_text plan.now) }
    ensures { IfOk result (λ answer. IsPositive (IsReportText (map file_text files.now) (workspace_text workspace.now) (map declared_text specs.now) (words_text holds_on words.now) (plan_text plan.now)) (answer_text answer)) }
{
    let text = report_of(alloc, files, workspace, specs, words, plan)?;
    Ok(positive(text))
}

/// Returns the answer to `slim`, by the manifests in `bytes`.
fn slim_answer<'w>(
    alloc: Global,
    format: Format,
    bytes: &[u8],
    workspace: &'w Workspace<'_>,
    words: &PlanWords<'w, '_, HeldSpecs<'_>>,
    plan: &Plan<'_>,
) -> Result<Answer, Fault>
    ensures answer { IfOk result (λ answer. IsPositive (IsSlimBy format bytes.now (workspace_text workspace.now) (words_text holds_on words.now) (plan_text plan.now).units) (answer_text answer)) }
    ensures fault { IfErr result (λ fault. Says fault (IsNoSlim bytes.now)) }
{
    match slim_text(alloc, format, bytes, workspace, words, plan) {
        Ok(text) => Ok(positive(text)),
        Err(fault) => Err(fault),
    }
}

/// Returns the answer to the question of `asked` about `plan`, which is that of `words`; `specs` are the platform specs of the workspace.
/// Returns `Refused` if the word of the question names nothing or several things, if a policy can't be checked, or if a manifest isn't TOML,
/// and `Memory` if an allocation fails.
pub fn answer_to<'w, 'n, 's>(
    alloc: Global,
    asked: Asked<'_, 'w, '_, 'n>,
    workspace: &'w Workspace<'_>,
    specs: &[DeclaredSpec<'s>],
    words: &PlanWords<'w, 'n, HeldSpecs<'s>>,
    plan: &Plan<'w>,
) -> Result<Answer, Fault>
    requires specs { map declared_text specs.now ≡ declared_specs (workspace_text workspace.now).packages }
    requires plan { IsPlanOf (workspace_text workspace.now) (words_text holds_on words.now) (plan_text plan.now) }
    ensures answer { IfOk result (λ answer. IsAnswerTo (asked_text asked.entry) (workspace_text workspace.now) (words_text holds_on words.now) (plan_text plan.now) (answer_text answer)) }
    ensures fault { IfErr result (λ fault. Says fault (IsNoAnswerTo (asked_text asked.entry) (workspace_text workspace.now) (words_text holds_on words.now) (plan_text plan.now))) }
{
    let format = asked.arguments.format;
    let files = asked.targets;
    match asked.arguments.question {
        Question::Plan => Ok(plan_answer(alloc, format, files, workspace, plan)?),
        Question::Why { feature, all } => {
            why_answer(alloc, format, all, workspace, words, plan, feature)
        }
        Question::Summary => summary_answer(alloc, asked.document, workspace, words, plan),
        Question::Routes(word) => routes_answer(alloc, format, files, workspace, words, plan, word),
        Question::WhyNot(word) => {
            why_not_answer(alloc, format, workspace, specs, words, plan, word)
        }
        Question::Specs => Ok(specs_answer(alloc, format, files, specs, words)?),
        Question::List(word) => {
            let split = words.selection.split;
            list_answer(alloc, format, workspace, split, plan, word)
        }
        Question::Unused => Ok(unused_answer(alloc, format, workspace)?),
        Question::Duplicates { alone, places } => {
            let how = DuplicatesQuestion {
                format,
                alone,
                places,
            };
            Ok(duplicates_answer(alloc, how, files, workspace, words, plan)?)
        }
        Question::Tree { invert } => {
            answer_to_edge_tree(alloc, asked, workspace, words, plan, invert)
        }
        Question::Dot => Ok(answer_to_edge_dot(alloc, asked, workspace, words, plan)?),
        Question::Report => Ok(report_answer(alloc, files, workspace, specs, words, plan)?),
        Question::Check {
            policy: file,
            every_choice,
            strict: _,
        } => {
            let policy = PolicyWord { file, every_choice };
            check_answer(alloc, asked, policy, workspace, specs, words, plan)
        }
        Question::Slim { manifests: _file } => {
            let manifests = asked.member_manifests;
            slim_answer(alloc, format, manifests, workspace, words, plan)
        }
    }
}
