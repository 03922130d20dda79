//! Answers to questions about policies.
ghost use Rattle.std.specs.Prelude.{IfOk, IfErr, Some};
ghost use Rattle.cargo_plans.specs.Plans.{IsPlanOf};
ghost use Rattle.cargo_plans.specs.WordsView.{words_text};
ghost use Rattle.cargo_workspaces.specs.WorkspaceView.{workspace_text};
ghost use Rattle.feats_files.specs.Messages.{Says};
ghost use Rattle.plan_rows.specs.platforms.HeldSpecs.{holds_on};
ghost use Rattle.cargo_plans.specs.plan_steps.PlanViews.{plan_text};
ghost use Rattle.feats_check.specs.checking.Answers as spec;
ghost use Rattle.feats_check.specs.checking.Broken.{IsPolicyText, IsRulesRefusal};
ghost use Rattle.feats_check.specs.checking.QuestionViews.{printed_text, question_text};
ghost use Rattle.feats_check.specs.checking.Scenes.{IsScene, scene_of};
ghost use Rattle.feats_check.specs.checking.inner.PlannedViews.{scene_by};
ghost use Rattle.feats_check.specs.checking.inner.WidePlans.{AreWidePlans, scenes_with};
ghost use Rattle.feats_policies.specs.declared.checks.judged.Judged.TheVariants.{InBuild};

use crate::checking::planned::{Planned, Wide, WidePlans, WideWords, wide_plans, wide_words};
use crate::checking::question::{PolicyQuestion, PolicyText};
use crate::checking::rules::printed_rules;
use cargo_plans::{Plan, PlanWords};
use cargo_workspaces::Workspace;
use feats_files::Fault;
use feats_policies::checks::Judged;
use plan_rows::platforms::HeldSpecs;
use plan_words::choose;
use std::alloc::Global;

/// Returns the answer for every choice, by the plans of the wider `words`.
fn printed_with(
    alloc: Global,
    asked: PolicyQuestion<'_, '_, '_, '_>,
    workspace: &Workspace<'_>,
    selected: &[usize],
    here: Planned<'_, '_, '_, '_, '_>,
    words: &WideWords<'_, '_, '_>,
    plans: &WidePlans<'_>,
) -> Result<PolicyText, Fault>
    requires here { IsScene (scene_by (workspace_text workspace.now) selected.now (question_text asked) here) }
    requires wide { AreWidePlans (workspace_text workspace.now) words.now plans.now }
    ensures text { IfOk result (λ printed. IsPolicyText (question_text asked.entry) (scenes_with (scene_by (workspace_text workspace.now) selected.now (question_text asked.entry) here.entry) (question_text asked.entry) words.now plans.now) (printed_text printed)) }
    ensures fault { IfErr result (λ fault. Says fault (IsRulesRefusal (question_text asked.entry) (scenes_with (scene_by (workspace_text workspace.now) selected.now (question_text asked.entry) here.entry) (question_text asked.entry) words.now plans.now))) }
{
    let all = Planned {
        words: &words.all,
        plan: &plans.all,
        judged: Judged::WithAll,
    };
    let widest = Planned {
        words: &words.widest,
        plan: &plans.widest,
        judged: Judged::ForEveryChoice,
    };
    let wide = Some(Wide { all, widest });
    printed_rules(alloc, asked, workspace, selected, here, wide)
}

/// Returns the answer for every choice. Each platform spec holds on the platform `every`. The function makes the plans of the wider words.
fn answer_widely<'w, 'n, 's>(
    alloc: Global,
    asked: PolicyQuestion<'_, '_, '_, '_>,
    workspace: &'w Workspace<'_>,
    selected: &[usize],
    here: Planned<'_, '_, 'w, 'n, 's>,
    every: &'n HeldSpecs<'s>,
) -> Result<PolicyText, Fault>
    requires { IsScene (scene_by (workspace_text workspace.now) selected.now (question_text asked) here) }
    ensures answer { IfOk result (λ printed. spec.IsAnswerWith (scene_by (workspace_text workspace.now) selected.now (question_text asked.entry) here.entry) (question_text asked.entry) (Some (holds_on every.now)) (printed_text printed)) }
    ensures fault { IfErr result (λ fault. Says fault (spec.IsRefusalWith (scene_by (workspace_text workspace.now) selected.now (question_text asked.entry) here.entry) (question_text asked.entry) (Some (holds_on every.now)))) }
{
    let words = wide_words(here.words, every);
    let plans = wide_plans(alloc, workspace, &words)?;
    let printed = printed_with(alloc, asked, workspace, selected, here, &words, &plans);
    drop(plans);
    printed
}

/// Returns the answer about the build that selects the packages `selected`. `plan` is its plan, that of `words`.
fn answer_about<'w, 'n, 's>(
    alloc: Global,
    asked: PolicyQuestion<'_, '_, 'n, 's>,
    workspace: &'w Workspace<'_>,
    selected: &[usize],
    words: &PlanWords<'w, 'n, HeldSpecs<'s>>,
    plan: &Plan<'w>,
) -> Result<PolicyText, Fault>
    requires { IsPlanOf (workspace_text workspace.now) (words_text holds_on words.now) (plan_text plan.now) }
    ensures answer { IfOk result (λ printed. spec.IsAnswerWith (scene_of (workspace_text workspace.now) selected.now (question_text asked.entry) (words_text holds_on words.now) (plan_text plan.now) InBuild) (question_text asked.entry) (question_text asked.entry).every (printed_text printed)) }
    ensures fault { IfErr result (λ fault. Says fault (spec.IsRefusalWith (scene_of (workspace_text workspace.now) selected.now (question_text asked.entry) (words_text holds_on words.now) (plan_text plan.now) InBuild) (question_text asked.entry) (question_text asked.entry).every)) }
{
    let here = Planned {
        words,
        plan,
        judged: Judged::InBuild,
    };
    match asked.every {
        Some(every) => answer_widely(alloc, asked, workspace, selected, here, every),
        None => printed_rules(alloc, asked, workspace, selected, here, None),
    }
}

/// Returns the broken rules of a policy in `plan`, which is that of `words`: each with what breaks it, and why that is on. For every choice
/// each `deny` is judged in the plan of the widest words instead, or if it is for one platform, in that of all members, features and tests for
/// the platforms of `words`. If nothing is broken then, the build keeps the other rules, and by the law `no_choice_breaks_a_deny` no choice of
/// members, features of members, tests and platforms breaks a `deny` for all platforms. Returns `Refused` if the wider words have no plan, or
/// else with the first rule that can't be checked; `Memory` if an allocation fails.
pub fn policy_answer<'w, 'n, 's>(
    alloc: Global,
    asked: PolicyQuestion<'_, '_, 'n, 's>,
    workspace: &'w Workspace<'_>,
    words: &PlanWords<'w, 'n, HeldSpecs<'s>>,
    plan: &Plan<'w>,
) -> Result<PolicyText, Fault>
    requires { IsPlanOf (workspace_text workspace.now) (words_text holds_on words.now) (plan_text plan.now) }
    ensures answer { IfOk result (λ printed. spec.IsPolicyAnswer (workspace_text workspace.now) (words_text holds_on words.now) (plan_text plan.now) (question_text asked.entry) (printed_text printed)) }
    ensures fault { IfErr result (λ fault. Says fault (spec.IsPolicyRefusal (workspace_text workspace.now) (words_text holds_on words.now) (plan_text plan.now) (question_text asked.entry))) }
{
    match choose(alloc, workspace, &words.selection) {
        Ok(chosen) => answer_about(alloc, asked, workspace, &chosen.selected, words, plan),
        Err(_) => Err(Fault::Memory),
    }
}
