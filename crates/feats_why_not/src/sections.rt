//! Sections: each is the text about one widening and one part.
ghost use Rattle.std.specs.Prelude.{◌≡◌, ◌++◌, IfOk, map, option_map, string_bytes};
ghost use Rattle.cargo_plans.specs.WordsView.{words_text};
ghost use Rattle.cargo_workspaces.specs.WorkspaceView.{workspace_text};
ghost use Rattle.plan_rows.specs.platforms.HeldSpecs.{holds_on};
ghost use Rattle.plan_whys.specs.StepViews.{why_text};
ghost use Rattle.plan_names.specs.wider.texts.Lines.{on_by, widening_lines};
ghost use Rattle.plan_names.specs.wider.texts.SaidView.{said_text};
ghost use Rattle.feats_why.specs.Lines.{why_lines as lines_of};
ghost use Rattle.feats_why.specs.Settings.{settings_of as settings_by};
ghost use Rattle.feats_why_not.specs.Lines.{said_of};
ghost use Rattle.feats_why_not.specs.Typed.{typed_line};
ghost use Rattle.feats_why_not.specs.inner.Lists.{answer_text, told_section, told_value, typed_value};

use crate::answer::Answer;
use crate::objects::object_of;
use crate::told::Told;
use crate::typed_words::{TypedWords, typed_text};
use cargo_plans::PlanWords;
use cargo_workspaces::Workspace;
use feats_why::{settings_of, why_lines};
use feats_words::Format;
use plan_names::wider::texts::{Said, push_widening};
use plan_names::wider::widenings::Widening;
use plan_rows::platforms::HeldSpecs;
use plan_whys::WhyStep;
use shown_texts::escaped;
use std::alloc::{AllocError, Global};

/// Returns the lines about `widening`, which say `said`.
fn lines_by(alloc: Global, widening: Widening, said: Said<'_>) -> Result<Vec<u8>, AllocError>
    ensures { IfOk result (λ text. text.items ≡ widening_lines widening (said_text said.entry)) }
{
    let mut text = Vec::new(alloc);
    push_widening(&mut text, widening, said)?;
    Ok(text)
}

/// Returns `lines` and the line with the words `typed`. Control characters in names are escaped.
fn with_typed(
    alloc: Global,
    lines: String,
    typed: Option<TypedWords<'_>>,
) -> Result<String, AllocError>
    ensures { IfOk result (λ text. string_bytes text ≡ string_bytes lines ++ typed_line (option_map typed_value typed.entry)) }
{
    let mut text = lines;
    if let Some(typed) = typed {
        let words = typed_text(alloc, typed)?;
        let words = escaped(alloc, words.as_str())?;
        text.push_str("words: ")?;
        text.push_str(words.as_str())?;
        text.push_str("\n")?;
    }
    Ok(text)
}

/// Returns the lines about `widening` and a part that is on by `steps`; `typed` are the words to type.
fn explained_lines(
    alloc: Global,
    workspace: &Workspace<'_>,
    words: &PlanWords<'_, '_, HeldSpecs<'_>>,
    widening: Widening,
    steps: &[WhyStep<'_>],
    typed: Option<TypedWords<'_>>,
) -> Result<Vec<u8>, AllocError>
    ensures { IfOk result (λ text. text.items ≡ widening_lines widening (on_by (lines_of (workspace_text workspace.now).packages (settings_by (words_text holds_on words.now)) (map why_text steps.now) ++ typed_line (option_map typed_value typed.entry)))) }
{
    let steps = why_lines(alloc, workspace, &settings_of(words), steps)?;
    let lines = with_typed(alloc, steps, typed)?;
    lines_by(alloc, widening, Said::On(lines.as_str()))
}

/// Returns the lines about `widening` and a part for which its words `words` have the answer `answer`; `typed` are the words to type.
fn lines_of_answer(
    alloc: Global,
    workspace: &Workspace<'_>,
    words: &PlanWords<'_, '_, HeldSpecs<'_>>,
    widening: Widening,
    answer: Answer<'_, '_>,
    typed: Option<TypedWords<'_>>,
) -> Result<Vec<u8>, AllocError>
    ensures { IfOk result (λ text. text.items ≡ widening_lines widening (said_of (workspace_text workspace.now).packages (words_text holds_on words.now) (answer_text answer.entry) (option_map typed_value typed.entry))) }
{
    match answer {
        Answer::Explained(steps) => {
            explained_lines(alloc, workspace, words, widening, steps, typed)
        }
        Answer::Unbuilt(message) => lines_by(alloc, widening, Said::Unbuilt(message)),
        Answer::Off => lines_by(alloc, widening, Said::Off),
        Answer::NotPlanned(message) => lines_by(alloc, widening, Said::NotPlanned(message)),
    }
}

/// Returns the section about `widening`, whose words are `words`, and the part of `told`.
pub(crate) fn section_of(
    alloc: Global,
    form: Format,
    workspace: &Workspace<'_>,
    words: &PlanWords<'_, '_, HeldSpecs<'_>>,
    widening: Widening,
    told: Told<'_, '_, '_>,
) -> Result<Vec<u8>, AllocError>
    ensures { IfOk result (λ text. text.items ≡ told_section form (workspace_text workspace.now).packages (words_text holds_on words.now) widening (told_value told.entry)) }
{
    let answer = told.about.answer;
    match form {
        Format::Text => lines_of_answer(alloc, workspace, words, widening, answer, told.typed),
        Format::Json => object_of(alloc, workspace, words, widening, told),
    }
}
