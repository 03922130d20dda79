//! The answer about a policy.
ghost use Rattle.std.specs.Prelude.{◌≡◌, IfOk, IfErr, map, option_map};
ghost use Rattle.cargo_plans.specs.Plans.{IsPlanOf};
ghost use Rattle.cargo_plans.specs.WordsView.{words_text};
ghost use Rattle.cargo_workspaces.specs.Views.{texts};
ghost use Rattle.cargo_workspaces.specs.WorkspaceView.{workspace_text};
ghost use Rattle.feats_files.specs.FileViews.{file_text};
ghost use Rattle.feats_files.specs.Messages.{Says};
ghost use Rattle.plan_rows.specs.platforms.HeldSpecs.{holds_on};
ghost use Rattle.plan_rows.specs.platforms.Views.{declared_text};
ghost use Rattle.cargo_plans.specs.plan_steps.PlanViews.{plan_text};
ghost use Rattle.feats_check.specs.checking.Answers.{IsPolicyAnswer, IsPolicyRefusal};
ghost use Rattle.feats_check.specs.checking.QuestionViews.{question_text};
ghost use Rattle.feats_answers.specs.AnswerViews.{answer_text};
ghost use Rattle.feats_answers.specs.Asked.{asked_text};
ghost use Rattle.feats_answers.specs.PolicyTexts as spec;

use crate::answer::Answer;
use crate::asked::Asked;
use crate::plan_texts::triples_of;
use cargo_plans::{Plan, PlanWords};
use cargo_workspaces::Workspace;
use feats_check::checking::{PolicyQuestion, policy_answer};
use feats_files::{Fault, PlatformFile};
use plan_rows::platforms::{DeclaredSpec, HeldSpecs, every_spec};
use std::alloc::{AllocError, Global};

/// The policy that `check` is about.
#[derive(Clone, Copy)]
pub(crate) struct PolicyWord<'a> {
    /// The path of its file.
    pub(crate) file: &'a str,
    /// True if the question is about every choice.
    pub(crate) every_choice: bool,
}

/// Returns the triples of `files`, or `host` alone if there are none.
fn target_triples<'t>(
    alloc: Global,
    host: &'t str,
    files: &[PlatformFile<'t>],
) -> Result<Vec<&'t str>, AllocError>
    ensures { IfOk result (λ triples. texts triples.items ≡ spec.target_triples host.now (map file_text files.now)) }
{
    match files {
        [] => {
            let mut triples = Vec::with_capacity(alloc, 1)?;
            triples.push(host)?;
            Ok(triples)
        }
        [_, ..] => triples_of(alloc, files),
    }
}

/// Returns a platform on which exactly `specs` hold, or `None` if `every_choice` is false.
fn every_if<'s>(
    alloc: Global,
    specs: &[DeclaredSpec<'s>],
    every_choice: bool,
) -> Result<Option<HeldSpecs<'s>>, AllocError>
    ensures { IfOk result (λ every. spec.IsEvery every_choice (map declared_text specs.now) (option_map holds_on every)) }
{
    if every_choice {
        Ok(Some(every_spec(alloc, specs)?))
    } else {
        Ok(None)
    }
}

/// Returns the question about the policy in `file`. `targets` are the triples of the target platforms.
fn question_of<'q, 'n, 's>(
    asked: Asked<'q, 'q, 'q, 'q>,
    file: &'q str,
    targets: &'q [&'n str],
    every: Option<&'n HeldSpecs<'s>>,
) -> PolicyQuestion<'q, 'q, 'n, 's>
    requires { texts targets.now ≡ spec.target_triples (asked_text asked).arguments.host.triple (asked_text asked).targets }
    ensures { question_text result ≡ spec.policy_question (asked_text asked.entry) file.now (option_map (λ held. holds_on held.now) every.entry) }
{
    let arguments = asked.arguments;
    PolicyQuestion {
        format: arguments.format,
        file,
        rules: asked.rules,
        host: arguments.host.triple,
        targets,
        every,
    }
}

/// Returns the answer to `question` about `plan`, which is the plan of `words`.
fn answer_to_question<'w, 'n, 's>(
    alloc: Global,
    question: PolicyQuestion<'_, '_, 'n, 's>,
    workspace: &'w Workspace<'_>,
    words: &PlanWords<'w, 'n, HeldSpecs<'s>>,
    plan: &Plan<'w>,
) -> Result<Answer, Fault>
    requires { IsPlanOf (workspace_text workspace.now) (words_text holds_on words.now) (plan_text plan.now) }
    ensures answer { IfOk result (λ answer. IsPolicyAnswer (workspace_text workspace.now) (words_text holds_on words.now) (plan_text plan.now) (question_text question.entry) (spec.printed (answer_text answer))) }
    ensures fault { IfErr result (λ fault. Says fault (IsPolicyRefusal (workspace_text workspace.now) (words_text holds_on words.now) (plan_text plan.now) (question_text question.entry))) }
{
    let printed = policy_answer(alloc, question, workspace, words, plan)?;
    Ok(Answer {
        text: printed.text,
        is_negative: printed.is_broken,
    })
}

/// Returns the answer about the policy in `file`. If `every` is given, it is for every choice, and each platform spec holds on `every`.
fn answer_by<'q, 'w, 's>(
    alloc: Global,
    asked: Asked<'q, 'q, 'q, 'q>,
    file: &'q str,
    every: Option<&'q HeldSpecs<'s>>,
    workspace: &'w Workspace<'_>,
    words: &PlanWords<'w, 'q, HeldSpecs<'s>>,
    plan: &Plan<'w>,
) -> Result<Answer, Fault>
    requires { IsPlanOf (workspace_text workspace.now) (words_text holds_on words.now) (plan_text plan.now) }
    ensures answer { IfOk result (λ answer. IsPolicyAnswer (workspace_text workspace.now) (words_text holds_on words.now) (plan_text plan.now)
        (spec.policy_question (asked_text asked.entry) file.now (option_map (λ held. holds_on held.now) every.entry)) (spec.printed (answer_text answer))) }
    ensures fault { IfErr result (λ fault. Says fault (IsPolicyRefusal (workspace_text workspace.now) (words_text holds_on words.now) (plan_text plan.now)
        (spec.policy_question (asked_text asked.entry) file.now (option_map (λ held. holds_on held.now) every.entry)))) }
{
    let arguments = asked.arguments;
    let targets = target_triples(alloc, arguments.host.triple, asked.targets)?;
    let question = question_of(asked, file, &targets, every);
    answer_to_question(alloc, question, workspace, words, plan)
}

/// Returns the answer to `check` with `policy`. `specs` are the platform specs of `workspace`, and `plan` is the plan of `words`.
pub(crate) fn check_answer<'w, 's>(
    alloc: Global,
    asked: Asked<'_, '_, '_, '_>,
    policy: PolicyWord<'_>,
    workspace: &'w Workspace<'_>,
    specs: &[DeclaredSpec<'s>],
    words: &PlanWords<'w, '_, HeldSpecs<'s>>,
    plan: &Plan<'w>,
) -> Result<Answer, Fault>
    requires { IsPlanOf (workspace_text workspace.now) (words_text holds_on words.now) (plan_text plan.now) }
    ensures answer { IfOk result (λ answer. spec.IsCheckAnswer (asked_text asked.entry) (workspace_text workspace.now) (map declared_text specs.now) (words_text holds_on words.now) (plan_text plan.now) policy.entry.file.now policy.entry.every_choice (answer_text answer)) }
    ensures fault { IfErr result (λ fault. Says fault (spec.IsCheckRefusal (asked_text asked.entry) (workspace_text workspace.now) (map declared_text specs.now) (words_text holds_on words.now) (plan_text plan.now) policy.entry.file.now policy.entry.every_choice)) }
{
    let every = every_if(alloc, specs, policy.every_choice)?;
    answer_by(
        alloc,
        asked,
        policy.file,
        every.as_ref(),
        workspace,
        words,
        plan,
    )
}
