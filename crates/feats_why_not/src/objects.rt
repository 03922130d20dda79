//! Answers as JSON objects.
ghost use Rattle.std.specs.Prelude.{◌≡◌, ◌++◌, ◌∷◌, IfOk, OnOk, map, option_map};
ghost use Rattle.json.specs.Token.{begin_object};
ghost use Rattle.cargo_plans.specs.WordsView.{words_text};
ghost use Rattle.cargo_workspaces.specs.WorkspaceView.{workspace_text};
ghost use Rattle.feats_lines.specs.parts.Members.{Appends, object_line};
ghost use Rattle.plan_rows.specs.platforms.HeldSpecs.{holds_on};
ghost use Rattle.plan_whys.specs.StepViews.{why_text};
ghost use Rattle.feats_why.specs.Objects.{step_objects};
ghost use Rattle.feats_why_not.specs.Answers.{explained};
ghost use Rattle.feats_why.specs.Settings.{settings_of as settings_by};
ghost use Rattle.feats_why_not.specs.Objects as spec;
ghost use Rattle.feats_why_not.specs.PartView.{part_text};
ghost use Rattle.feats_why_not.specs.inner.Lists.{answer_text, typed_value};

use crate::answer::Answer;
use crate::labels::write_head;
use crate::told::Told;
use crate::typed_words::{TypedWords, typed_text};
use cargo_plans::PlanWords;
use cargo_workspaces::Workspace;
use feats_lines::parts::{begin_line, end_line, write_flag, write_member, write_optional};
use feats_why::{settings_of, write_steps};
use json::Writer;
use plan_names::wider::widenings::Widening;
use plan_rows::platforms::HeldSpecs;
use plan_whys::WhyStep;
use std::alloc::{AllocError, Global};

/// Writes the objects of `steps`.
fn write_objects(
    alloc: Global,
    writer: &mut Writer,
    workspace: &Workspace<'_>,
    words: &PlanWords<'_, '_, HeldSpecs<'_>>,
    steps: &[WhyStep<'_>],
) -> Result<(), AllocError>
    ensures { OnOk result (Appends writer.old writer.new (step_objects (workspace_text workspace.now).packages (settings_by (words_text holds_on words.now)) (map why_text steps.now))) }
{
    write_steps(alloc, writer, workspace, &settings_of(words), steps)
}

/// Writes that a part is on, with the steps that explain why.
fn write_steps_on(
    alloc: Global,
    writer: &mut Writer,
    workspace: &Workspace<'_>,
    words: &PlanWords<'_, '_, HeldSpecs<'_>>,
    steps: &[WhyStep<'_>],
) -> Result<(), AllocError>
    ensures { OnOk result (Appends writer.old writer.new (spec.on_tokens (workspace_text workspace.now).packages (words_text holds_on words.now) (map why_text steps.now))) }
{
    write_flag(writer, "on", true)?;
    writer.key("steps")?;
    writer.begin_array()?;
    write_objects(alloc, writer, workspace, words, steps)?;
    writer.end_array()
}

/// Writes the member with the words `typed`, or null if there are none.
fn write_typed(
    alloc: Global,
    writer: &mut Writer,
    typed: Option<TypedWords<'_>>,
) -> Result<(), AllocError>
    ensures { OnOk result (Appends writer.old writer.new (spec.words_tokens (option_map typed_value typed.entry))) }
{
    match typed {
        Some(typed) => {
            let words = typed_text(alloc, typed)?;
            write_member(writer, "words", words.as_str())
        }
        None => write_optional(writer, "words", None),
    }
}

/// Writes the answer that a part is on, with the steps that explain why, and the words to type, `typed`.
fn write_explained(
    alloc: Global,
    writer: &mut Writer,
    workspace: &Workspace<'_>,
    words: &PlanWords<'_, '_, HeldSpecs<'_>>,
    steps: &[WhyStep<'_>],
    typed: Option<TypedWords<'_>>,
) -> Result<(), AllocError>
    ensures { OnOk result (Appends writer.old writer.new (spec.answer_tokens (workspace_text workspace.now).packages (words_text holds_on words.now) (explained (map why_text steps.now)) (option_map typed_value typed.entry))) }
{
    write_steps_on(alloc, writer, workspace, words, steps)?;
    write_typed(alloc, writer, typed)
}

/// Writes the answer that a part is on and isn't built; `message` says so.
fn write_unbuilt(writer: &mut Writer, message: &str) -> Result<(), AllocError>
    ensures { OnOk result (Appends writer.old writer.new (spec.unbuilt_tokens message.now)) }
{
    write_flag(writer, "on", false)?;
    write_member(writer, "message", message)
}

/// Writes the answer that there is no plan; `message` says why.
fn write_refused(writer: &mut Writer, message: &str) -> Result<(), AllocError>
    ensures { OnOk result (Appends writer.old writer.new (spec.refused_tokens message.now)) }
{
    writer.key("on")?;
    writer.null()?;
    write_member(writer, "message", message)
}

/// Writes `answer`, which is about the plan of `words`; `typed` are the words to type.
fn write_answer(
    alloc: Global,
    writer: &mut Writer,
    workspace: &Workspace<'_>,
    words: &PlanWords<'_, '_, HeldSpecs<'_>>,
    answer: Answer<'_, '_>,
    typed: Option<TypedWords<'_>>,
) -> Result<(), AllocError>
    ensures { OnOk result (Appends writer.old writer.new (spec.answer_tokens (workspace_text workspace.now).packages (words_text holds_on words.now) (answer_text answer.entry) (option_map typed_value typed.entry))) }
{
    match answer {
        Answer::Explained(steps) => {
            write_explained(alloc, writer, workspace, words, steps, typed)
        }
        Answer::Unbuilt(message) => write_unbuilt(writer, message),
        Answer::Off => write_flag(writer, "on", false),
        Answer::NotPlanned(message) => write_refused(writer, message),
    }
}

/// Returns the line about `widening`, whose words are `words`, and the part of `told`.
pub(crate) fn object_of(
    alloc: Global,
    workspace: &Workspace<'_>,
    words: &PlanWords<'_, '_, HeldSpecs<'_>>,
    widening: Widening,
    told: Told<'_, '_, '_>,
) -> Result<Vec<u8>, AllocError>
    ensures { IfOk result (λ line. line.items ≡ object_line (begin_object ∷ (spec.head_tokens (workspace_text workspace.now).packages (part_text told.entry.about.part) widening
        ++ spec.answer_tokens (workspace_text workspace.now).packages (words_text holds_on words.now) (answer_text told.entry.about.answer) (option_map typed_value told.entry.typed)))) }
{
    let mut writer = begin_line(Vec::new(alloc))?;
    write_head(&mut writer, workspace, told.about.part, widening)?;
    let answer = told.about.answer;
    write_answer(alloc, &mut writer, workspace, words, answer, told.typed)?;
    end_line(writer)
}
