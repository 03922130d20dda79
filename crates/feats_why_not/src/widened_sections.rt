//! The sections about one widening and several parts.
ghost use Rattle.std.specs.Prelude.{◌≡◌, IfOk, map};
ghost use Rattle.std.specs.List.{AllZip};
ghost use Rattle.cargo_plans.specs.Plans.{IsPlanOf};
ghost use Rattle.cargo_plans.specs.Refusals.{IsRefusal};
ghost use Rattle.cargo_plans.specs.WordsView.{words_text};
ghost use Rattle.cargo_workspaces.specs.WorkspaceView.{workspace_text};
ghost use Rattle.feats_files.specs.plan_messages.Messages.{plan_message};
ghost use Rattle.plan_rows.specs.platforms.HeldSpecs.{holds_on};
ghost use Rattle.cargo_plans.specs.plan_steps.PlanViews.{plan_text};
ghost use Rattle.feats_why_not.specs.Answers.{not_planned};
ghost use Rattle.feats_why_not.specs.PartView.{part_text};
ghost use Rattle.feats_why_not.specs.Texts.{IsSection};
ghost use Rattle.feats_why_not.specs.inner.Lists as spec;
ghost use Rattle.feats_why_not.specs.inner.Lists.{answer_text, texts_of};

use crate::answer::{Answer, answers_by};
use crate::base::Base;
use crate::builds::{builds_of, messages_about};
use crate::messages::message_of;
use crate::parts::OffPart;
use crate::sections::section_of;
use crate::small_words::told_each;
use crate::spots::{first_spots, is_one_on};
use crate::told::{PartAnswer, Told, with_answers};
use cargo_plans::{Plan, PlanFault, PlanWords, plan};
use cargo_workspaces::Workspace;
use feats_files::plan_messages::is_memory;
use feats_words::Format;
use plan_names::wider::widenings::Widening;
use plan_rows::platforms::HeldSpecs;
use plan_whys::why_each;
use std::alloc::{AllocError, Global};

/// Returns the sections about `widening`, whose words are `words`, and the part of each of `tolds`.
fn told_sections(
    alloc: Global,
    form: Format,
    workspace: &Workspace<'_>,
    words: &PlanWords<'_, '_, HeldSpecs<'_>>,
    widening: Widening,
    tolds: &[Told<'_, '_, '_>],
) -> Result<Vec<Vec<u8>>, AllocError>
    ensures { IfOk result (λ sections. texts_of sections.items ≡ spec.told_sections form (workspace_text workspace.now).packages (words_text holds_on words.now) widening (map spec.told_value tolds.now)) }
{
    let mut sections = Vec::with_capacity(alloc, tolds.len())?;
    for told in tolds {
        sections.push(section_of(alloc, form, workspace, words, widening, *told)?)?;
    }
    Ok(sections)
}

/// Returns the sections about `widening`, whose words are `words`, and each of `parts`. Each part has the answer `answer`.
fn same_sections(
    alloc: Global,
    form: Format,
    workspace: &Workspace<'_>,
    words: &PlanWords<'_, '_, HeldSpecs<'_>>,
    widening: Widening,
    parts: &[OffPart<'_>],
    answer: Answer<'_, '_>,
) -> Result<Vec<Vec<u8>>, AllocError>
    ensures { IfOk result (λ sections. texts_of sections.items ≡ spec.same_sections form (workspace_text workspace.now).packages (words_text holds_on words.now) widening (answer_text answer.entry) (map part_text parts.now)) }
{
    let mut sections = Vec::with_capacity(alloc, parts.len())?;
    for part in parts {
        let about = PartAnswer {
            part: *part,
            answer,
        };
        let told = Told { about, typed: None };
        sections.push(section_of(alloc, form, workspace, words, widening, told)?)?;
    }
    Ok(sections)
}

/// Returns the sections about `widening` and each of `parts`, by a walk of `plan`, the plan of the words `words` of `widening`.
fn explained_sections(
    alloc: Global,
    form: Format,
    base: Base<'_, '_, '_, '_, '_, '_>,
    words: &PlanWords<'_, '_, HeldSpecs<'_>>,
    widening: Widening,
    parts: &[OffPart<'_>],
    plan: &Plan<'_>,
) -> Result<Vec<Vec<u8>>, AllocError>
    requires { IsPlanOf (workspace_text base.workspace.now) (words_text holds_on words.now) (plan_text plan.now) }
    ensures { IfOk result (λ sections. AllZip (IsSection form base.entry.alone (workspace_text base.entry.workspace.now) (words_text holds_on base.entry.words.now) (words_text holds_on words.now) widening) (map part_text parts.now) (texts_of sections.items)) }
{
    let workspace = base.workspace;
    let builds = builds_of(alloc, workspace, words, plan)?;
    let messages = messages_about(alloc, workspace, &builds, parts)?;
    let spots = first_spots(alloc, &builds, parts)?;
    let founds = why_each(alloc, workspace, words, plan, &spots)?;
    let answers = answers_by(alloc, &messages, &founds)?;
    let abouts = with_answers(alloc, parts, &answers)?;
    let tolds = told_each(alloc, base, words, &abouts)?;
    told_sections(alloc, form, workspace, words, widening, &tolds)
}

/// Returns the sections about `widening` and each of `parts`, by `plan`, the plan of the words `words` of `widening`. The plan is walked only
/// if one of the parts is on.
pub(crate) fn planned_sections(
    alloc: Global,
    form: Format,
    base: Base<'_, '_, '_, '_, '_, '_>,
    words: &PlanWords<'_, '_, HeldSpecs<'_>>,
    widening: Widening,
    parts: &[OffPart<'_>],
    plan: &Plan<'_>,
) -> Result<Vec<Vec<u8>>, AllocError>
    requires { IsPlanOf (workspace_text base.workspace.now) (words_text holds_on words.now) (plan_text plan.now) }
    ensures { IfOk result (λ sections. AllZip (IsSection form base.entry.alone (workspace_text base.entry.workspace.now) (words_text holds_on base.entry.words.now) (words_text holds_on words.now) widening) (map part_text parts.now) (texts_of sections.items)) }
{
    if is_one_on(plan, parts) {
        explained_sections(alloc, form, base, words, widening, parts, plan)
    } else {
        let answer = Answer::Off;
        same_sections(alloc, form, base.workspace, words, widening, parts, answer)
    }
}

/// Returns the sections about `widening`, whose words `words` have no plan, and each of `parts`. `fault` is the reason.
fn unplanned_sections<'p>(
    alloc: Global,
    form: Format,
    workspace: &'p Workspace<'_>,
    words: &PlanWords<'_, '_, HeldSpecs<'_>>,
    widening: Widening,
    parts: &[OffPart<'_>],
    fault: PlanFault<'p>,
) -> Result<Vec<Vec<u8>>, AllocError>
    ensures { IfOk result (λ sections. texts_of sections.items ≡ spec.same_sections form (workspace_text workspace.now).packages (words_text holds_on words.now) widening (not_planned (plan_message (workspace_text workspace.now).packages fault.entry)) (map part_text parts.now)) }
{
    let message = message_of(alloc, workspace, fault)?;
    let answer = Answer::NotPlanned(message.as_str());
    same_sections(alloc, form, workspace, words, widening, parts, answer)
}

/// Returns the sections about `widening`, whose words are `words`, and each of `parts`. It makes one plan, and one for each of the words
/// that are tried.
pub(crate) fn widened_sections(
    alloc: Global,
    form: Format,
    base: Base<'_, '_, '_, '_, '_, '_>,
    words: &PlanWords<'_, '_, HeldSpecs<'_>>,
    widening: Widening,
    parts: &[OffPart<'_>],
) -> Result<Vec<Vec<u8>>, AllocError>
    ensures { IfOk result (λ sections. AllZip (IsSection form base.entry.alone (workspace_text base.entry.workspace.now) (words_text holds_on base.entry.words.now) (words_text holds_on words.now) widening) (map part_text parts.now) (texts_of sections.items)) }
{
    match plan(alloc, base.workspace, words) {
        Ok(plan) => {
            let sections = planned_sections(alloc, form, base, words, widening, parts, &plan);
            drop(plan);
            sections
        }
        Err(fault) => {
            if is_memory(&fault) {
                return Err(AllocError);
            }
            unplanned_sections(alloc, form, base.workspace, words, widening, parts, fault)
        }
    }
}
