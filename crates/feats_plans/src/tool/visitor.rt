//! The visitor that answers a question about a plan.
ghost use Rattle.std.specs.Prelude.{◌≡◌, IfOk, IfErr, map};
ghost use Rattle.cargo_plans.specs.Plans.{IsPlanOf};
ghost use Rattle.feats_answers.specs.AnswerViews.{answer_text};
ghost use Rattle.feats_files.specs.Messages.{Says};
ghost use Rattle.feats_plans.specs.PlannedView.{planned_text};
ghost use Rattle.feats_answers.specs.Answers.{IsAnswerTo, IsNoAnswerTo};
ghost use Rattle.feats_plans.specs.tool.AnsweredView.{answered_text};
ghost use Rattle.feats_plans.specs.tool.Answers.{AreRuleWarnings, AreWarnings, IsPlanAnswer, IsPlanRefusal, IsStrictly, asked_by, document_lines};
ghost use Rattle.feats_check.specs.checking.WarningViews.{string_texts};
ghost use Rattle.plan_rows.specs.platforms.DeclaredSpecs.{declared_specs};
ghost use Rattle.plan_rows.specs.platforms.Views.{declared_text};
ghost use Rattle.feats_policies.specs.Views.{rule_text};

use crate::tool::answered::Answered;
use crate::tool::exclusions::exclusion_lines;
use crate::tool::lost_dependencies::lost_lines;
use crate::{PlanVisitor, Planned};
use feats_answers::{Answer, Asked, answer_to};
use feats_check::checking::{PolicyWords, policy_warnings};
use feats_files::Fault;
use feats_policies::Rule;
use feats_words::Question;
use std::alloc::{AllocError, Global};

/// Returns the warnings about `rules`, those of the policy; none, if the arguments name no policy.
fn rule_warnings(
    alloc: Global,
    rules: &[Rule<'_>],
    planned: &Planned<'_, '_, '_, '_, '_>,
) -> Result<Vec<String>, Fault>
    ensures warnings { IfOk result (λ lines. AreRuleWarnings (planned_text planned.now).inputs.arguments.question (map rule_text rules.now) (planned_text planned.now) (string_texts lines.items)) }
    ensures fault { IfErr result (λ fault. Says fault (IsStrictly (planned_text planned.now).inputs.arguments.question (map rule_text rules.now) (planned_text planned.now))) }
{
    match planned.arguments.question {
        Question::Check {
            policy: file,
            every_choice,
            strict,
        } => {
            let policy = PolicyWords {
                file,
                every_choice,
                strict,
                rules,
            };
            policy_warnings(alloc, policy, planned.workspace, planned.words)
        }
        _ => Ok(Vec::new(alloc)),
    }
}

/// Returns the warnings about the document of the plan, and about the words of `--exclude`.
fn document_warnings(
    alloc: Global,
    planned: &Planned<'_, '_, '_, '_, '_>,
) -> Result<Vec<String>, AllocError>
    ensures { IfOk result (λ lines. string_texts lines.items ≡ document_lines (planned_text planned.now)) }
{
    let words = planned.words;
    let mut of_words = exclusion_lines(alloc, planned.workspace, &planned.arguments.exclude)?;
    let mut warnings = lost_lines(alloc, planned.workspace, words.host, words.targets)?;
    warnings.append(&mut of_words)?;
    Ok(warnings)
}

/// Returns the warnings of `document_warnings`, and then those about `rules`, which are those of the policy.
fn warnings_of(
    alloc: Global,
    rules: &[Rule<'_>],
    planned: &Planned<'_, '_, '_, '_, '_>,
) -> Result<Vec<String>, Fault>
    ensures warnings { IfOk result (λ lines. AreWarnings (map rule_text rules.now) (planned_text planned.now) (string_texts lines.items)) }
    ensures fault { IfErr result (λ fault. Says fault (IsStrictly (planned_text planned.now).inputs.arguments.question (map rule_text rules.now) (planned_text planned.now))) }
{
    let mut of_rules = rule_warnings(alloc, rules, planned)?;
    let mut warnings = document_warnings(alloc, planned)?;
    warnings.append(&mut of_rules)?;
    Ok(warnings)
}

/// Returns the answer to the question of the arguments about the plan. `document` has the bytes of the document, and `rules` are those of the
/// policy.
fn answer_of(
    alloc: Global,
    document: &[u8],
    rules: &[Rule<'_>],
    planned: &Planned<'_, '_, '_, '_, '_>,
) -> Result<Answer, Fault>
    requires specs { map declared_text planned.now.specs.now ≡ declared_specs (planned_text planned.now).workspace.packages }
    requires plan { IsPlanOf (planned_text planned.now).workspace (planned_text planned.now).words (planned_text planned.now).plan }
    ensures answer { IfOk result (λ answer. IsAnswerTo (asked_by (planned_text planned.now).inputs document.now (map rule_text rules.now)) (planned_text planned.now).workspace (planned_text planned.now).words (planned_text planned.now).plan (answer_text answer)) }
    ensures fault { IfErr result (λ fault. Says fault (IsNoAnswerTo (asked_by (planned_text planned.now).inputs document.now (map rule_text rules.now)) (planned_text planned.now).workspace (planned_text planned.now).words (planned_text planned.now).plan)) }
{
    let asked = Asked {
        arguments: planned.arguments,
        rules,
        targets: &planned.files.targets,
        document,
        member_manifests: &planned.files.member_manifests,
    };
    answer_to(
        alloc,
        asked,
        planned.workspace,
        planned.specs,
        planned.words,
        planned.plan,
    )
}

/// Returns the answer to the question of the arguments about the plan, and the warnings. `document` has the bytes of the document, and `rules`
/// are those of the policy.
fn planned_answer(
    alloc: Global,
    document: &[u8],
    rules: &[Rule<'_>],
    planned: &Planned<'_, '_, '_, '_, '_>,
) -> Result<Answered, Fault>
    requires specs { map declared_text planned.now.specs.now ≡ declared_specs (planned_text planned.now).workspace.packages }
    requires plan { IsPlanOf (planned_text planned.now).workspace (planned_text planned.now).words (planned_text planned.now).plan }
    ensures answer { IfOk result (λ answered. IsPlanAnswer document.now (map rule_text rules.now) (planned_text planned.now) (answered_text answered)) }
    ensures fault { IfErr result (λ fault. Says fault (IsPlanRefusal document.now (map rule_text rules.now) (planned_text planned.now))) }
{
    let warnings = warnings_of(alloc, rules, planned)?;
    let answer = answer_of(alloc, document, rules, planned)?;
    Ok(Answered { answer, warnings })
}

/// The visitor that answers the question of the arguments about a plan.
#[derive(Clone, Copy)]
pub(crate) struct AskedVisitor<'r, 'p> {
    /// The bytes of the document.
    pub(crate) document: &'r [u8],
    /// The rules of the policy.
    pub(crate) rules: &'r [Rule<'p>],
}

impl PlanVisitor for AskedVisitor<'_, '_> {
    type Output = Answered;

    ghost gives = { λ v p answered. IsPlanAnswer v.document.now (map rule_text v.rules.now) p (answered_text answered) };

    ghost refuses = { λ v p message. IsPlanRefusal v.document.now (map rule_text v.rules.now) p message };

    fn visit(
        &self,
        alloc: Global,
        planned: &Planned<'_, '_, '_, '_, '_>,
    ) -> Result<Answered, Fault> {
        planned_answer(alloc, self.document, self.rules, planned)
    }
}
