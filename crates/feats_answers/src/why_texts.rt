//! The text about why a feature is on.
ghost use Rattle.std.specs.Prelude.{◌≡◌, ◌++◌, List, IfOk, OnOk, flat_map, map};
ghost use Rattle.cargo_plans.specs.built_parts.BuiltViews.{state_in};
ghost use Rattle.cargo_plans.specs.declared.built_parts.state.PartState.TheVariants.{Built};
ghost use Rattle.cargo_workspaces.specs.Workspaces.{Text};
ghost use Rattle.cargo_workspaces.specs.WorkspaceView.{workspace_text};
ghost use Rattle.cargo_plans.specs.Plans.{IsPlanOf};
ghost use Rattle.cargo_plans.specs.WordsView.{words_text};
ghost use Rattle.plan_names.specs.Views.{named_text};
ghost use Rattle.plan_rows.specs.platforms.HeldSpecs.{holds_on};
ghost use Rattle.cargo_plans.specs.plan_steps.PlanViews.{plan_text};
ghost use Rattle.plan_whys.specs.StepViews.{found_text, reasoned_text as reasoned_view, spot_text, why_text};
ghost use Rattle.feats_answers.specs.AnswerViews.{answer_text, texts_of};
ghost use Rattle.feats_answers.specs.BuiltSpots.{spots_in};
ghost use Rattle.feats_answers.specs.Gathered.{AreShown};
ghost use Rattle.feats_answers.specs.WhyTexts as spec;

use crate::answer::Answer;
use crate::built_spots::{those_in, unbuilt_text_of};
use crate::gathered::gathered;
use crate::parts::spot_on;
use cargo_plans::built_parts::{BuiltParts, PartState};
use cargo_plans::{Plan, PlanWords, Side};
use cargo_workspaces::Workspace;
use feats_why::{reasoned_lines, reasoned_objects, settings_of, why_lines, why_objects};
use feats_words::Format;
use plan_names::Named;
use plan_rows::platforms::HeldSpecs;
use plan_whys::{ReasonedStep, Spot, WhyStep, reasoned_steps, why_each};
use std::alloc::{AllocError, Global};

/// Returns the text of `steps`.
fn steps_text(
    alloc: Global,
    format: Format,
    workspace: &Workspace<'_>,
    words: &PlanWords<'_, '_, HeldSpecs<'_>>,
    steps: &[WhyStep<'_>],
) -> Result<Vec<u8>, AllocError>
    ensures { IfOk result (λ text. text.items ≡ spec.steps_text format (workspace_text workspace.now).packages (words_text holds_on words.now) (map why_text steps.now)) }
{
    let settings = settings_of(words);
    match format {
        Format::Text => Ok(why_lines(alloc, workspace, &settings, steps)?.into_bytes()),
        Format::Json => why_objects(alloc, workspace, &settings, steps),
    }
}

/// Returns the text of `steps`, with every direct reason of each.
fn reasoned_text(
    alloc: Global,
    format: Format,
    workspace: &Workspace<'_>,
    words: &PlanWords<'_, '_, HeldSpecs<'_>>,
    steps: &[ReasonedStep<'_>],
) -> Result<Vec<u8>, AllocError>
    ensures { IfOk result (λ text. text.items ≡ spec.reasoned_text format (workspace_text workspace.now).packages (words_text holds_on words.now) (map reasoned_view steps.now)) }
{
    let settings = settings_of(words);
    match format {
        Format::Text => Ok(reasoned_lines(alloc, workspace, &settings, steps)?.into_bytes()),
        Format::Json => reasoned_objects(alloc, workspace, &settings, steps),
    }
}

/// Returns the text of `steps`, which explain why a spot is on in `plan`, with every direct reason of each.
fn text_with_reasons(
    alloc: Global,
    format: Format,
    workspace: &Workspace<'_>,
    words: &PlanWords<'_, '_, HeldSpecs<'_>>,
    plan: &Plan<'_>,
    steps: &[WhyStep<'_>],
) -> Result<Vec<u8>, AllocError>
    ensures { IfOk result (λ text. spec.IsReasonedText format (workspace_text workspace.now).packages (words_text holds_on words.now) (plan_text plan.now) (map why_text steps.now) text.items) }
{
    let reasoned = reasoned_steps(alloc, plan, steps)?;
    reasoned_text(alloc, format, workspace, words, &reasoned)
}

/// Returns the text of `steps`, which explain why a spot is on in `plan`. With `all` it has every direct reason of each step.
fn text_of(
    alloc: Global,
    format: Format,
    all: bool,
    workspace: &Workspace<'_>,
    words: &PlanWords<'_, '_, HeldSpecs<'_>>,
    plan: &Plan<'_>,
    steps: &[WhyStep<'_>],
) -> Result<Vec<u8>, AllocError>
    ensures { IfOk result (λ text. spec.IsStepsText format all (workspace_text workspace.now).packages (words_text holds_on words.now) (plan_text plan.now) (map why_text steps.now) text.items) }
{
    if all {
        text_with_reasons(alloc, format, workspace, words, plan, steps)
    } else {
        steps_text(alloc, format, workspace, words, steps)
    }
}

/// Returns the text of the steps `found`, or no text if there are none.
fn found_shown(
    alloc: Global,
    format: Format,
    all: bool,
    workspace: &Workspace<'_>,
    words: &PlanWords<'_, '_, HeldSpecs<'_>>,
    plan: &Plan<'_>,
    found: &Option<Vec<WhyStep<'_>>>,
) -> Result<Vec<Vec<u8>>, AllocError>
    ensures { IfOk result (λ shown. spec.IsFoundShown format all (workspace_text workspace.now).packages (words_text holds_on words.now) (plan_text plan.now) (found_text found.now) (texts_of shown.items)) }
{
    let mut shown = Vec::new(alloc);
    if let Some(steps) = found {
        shown.push(text_of(alloc, format, all, workspace, words, plan, steps)?)?;
    }
    Ok(shown)
}

/// Returns the texts of the steps in `founds`.
fn founds_shown(
    alloc: Global,
    format: Format,
    all: bool,
    workspace: &Workspace<'_>,
    words: &PlanWords<'_, '_, HeldSpecs<'_>>,
    plan: &Plan<'_>,
    founds: &[Option<Vec<WhyStep<'_>>>],
) -> Result<Vec<Vec<u8>>, AllocError>
    ensures { IfOk result (λ texts. AreShown (spec.IsFoundShown format all (workspace_text workspace.now).packages (words_text holds_on words.now) (plan_text plan.now)) (map found_text founds.now) (texts_of texts.items)) }
{
    let mut texts = Vec::new(alloc);
    for found in founds {
        let mut shown = found_shown(alloc, format, all, workspace, words, plan, found)?;
        texts.append(&mut shown)?;
    }
    Ok(texts)
}

/// Returns the spots of `named`: each on the target side, and then on the host side.
pub(crate) fn spots_of<'w>(alloc: Global, named: &[Named<'w>]) -> Result<Vec<Spot<'w>>, AllocError>
    ensures { IfOk result (λ spots. map spot_text spots.items ≡ flat_map spec.spots_of_part (map named_text named.now)) }
{
    let mut spots = Vec::new(alloc);
    for one in named {
        spots.push(spot_on(Side::Target, *one))?;
        spots.push(spot_on(Side::Host, *one))?;
    }
    Ok(spots)
}

/// Returns the texts of why each of `spots` is on in `plan`, spot by spot. With `all` they have every direct reason of each step.
fn spot_texts(
    alloc: Global,
    format: Format,
    all: bool,
    workspace: &Workspace<'_>,
    words: &PlanWords<'_, '_, HeldSpecs<'_>>,
    plan: &Plan<'_>,
    spots: &[Spot<'_>],
) -> Result<Vec<Vec<u8>>, AllocError>
    requires plan { IsPlanOf (workspace_text workspace.now) (words_text holds_on words.now) (plan_text plan.now) }
    ensures { IfOk result (λ texts. AreShown (spec.IsSpotShown format all (workspace_text workspace.now) (words_text holds_on words.now) (plan_text plan.now)) (map spot_text spots.now) (texts_of texts.items)) }
{
    let founds = why_each(alloc, workspace, words, plan, spots)?;
    founds_shown(alloc, format, all, workspace, words, plan, &founds)
}

/// What `why` is asked for.
#[derive(Clone, Copy)]
pub(crate) struct WhyQuestion<'a> {
    pub(crate) format: Format,
    pub(crate) word: &'a str,
    /// Whether every direct reason of each step is asked for.
    pub(crate) all: bool,
}

/// Returns the texts of why those of `spots` are on that are built in `plan`, whose parts are `parts`.
fn built_texts(
    alloc: Global,
    asked: WhyQuestion<'_>,
    workspace: &Workspace<'_>,
    words: &PlanWords<'_, '_, HeldSpecs<'_>>,
    plan: &Plan<'_>,
    parts: &BuiltParts<'_>,
    spots: &[Spot<'_>],
) -> Result<Vec<Vec<u8>>, AllocError>
    requires plan { IsPlanOf (workspace_text workspace.now) (words_text holds_on words.now) (plan_text plan.now) }
    ensures { IfOk result (λ texts. AreShown (spec.IsSpotShown asked.entry.format asked.entry.all (workspace_text workspace.now) (words_text holds_on words.now) (plan_text plan.now)) (spots_in (state_in parts.now) Built (map spot_text spots.now)) (texts_of texts.items)) }
{
    let built = those_in(alloc, parts, PartState::Built, spots)?;
    spot_texts(
        alloc,
        asked.format,
        asked.all,
        workspace,
        words,
        plan,
        &built,
    )
}

/// Appends `lines` to `texts`, unless it is empty.
fn push_unless_empty(texts: &mut Vec<Vec<u8>>, lines: Vec<u8>) -> Result<(), AllocError>
    ensures { OnOk result (texts_of texts.new.items ≡ texts_of texts.old.items ++ spec.unless_empty lines.items) }
{
    if !lines.is_empty() {
        texts.push(lines)?;
    }
    Ok(())
}

/// Returns the answer of `texts` to `asked`, whose word names the parts `named`. It is negative if `is_negative` is true.
fn answer_of(
    alloc: Global,
    asked: WhyQuestion<'_>,
    workspace: &Workspace<'_>,
    named: &[Named<'_>],
    texts: &[Vec<u8>],
    is_negative: bool,
) -> Result<Answer, AllocError>
    ensures { IfOk result (λ answer. answer_text answer ≡ record { content = (spec.gathered_why asked.entry.format (workspace_text workspace.now).packages asked.entry.word.now (map named_text named.now) (texts_of texts.now)).content; is_negative = is_negative }) }
{
    let end = " is off in this build: ask why-not\n";
    let answer = gathered(
        alloc,
        asked.format,
        workspace,
        asked.word,
        named,
        end,
        texts,
    )?;
    Ok(Answer {
        text: answer.text,
        is_negative,
    })
}

/// Returns the answer to `asked`, whose word names the parts `named`: why each that is built is on in `plan`, side by side, and then a
/// line for each that is on and not built.
pub(crate) fn why_answer_of(
    alloc: Global,
    asked: WhyQuestion<'_>,
    workspace: &Workspace<'_>,
    words: &PlanWords<'_, '_, HeldSpecs<'_>>,
    plan: &Plan<'_>,
    named: &[Named<'_>],
) -> Result<Answer, AllocError>
    requires plan { IsPlanOf (workspace_text workspace.now) (words_text holds_on words.now) (plan_text plan.now) }
    ensures { IfOk result (λ answer. spec.IsWhyAnswerOf asked.entry.format asked.entry.all (workspace_text workspace.now) (words_text holds_on words.now) (plan_text plan.now) asked.entry.word.now (map named_text named.now) (answer_text answer)) }
{
    let parts = BuiltParts::of_plan(alloc, words.selection.split, plan)?;
    let spots = spots_of(alloc, named)?;
    let mut texts = built_texts(alloc, asked, workspace, words, plan, &parts, &spots)?;
    let is_negative = texts.is_empty();
    let lines = unbuilt_text_of(alloc, asked.format, workspace, words, &parts, &spots)?;
    push_unless_empty(&mut texts, lines)?;
    answer_of(alloc, asked, workspace, named, &texts, is_negative)
}
