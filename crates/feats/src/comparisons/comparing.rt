//! The comparison of two builds.
ghost use Rattle.std.specs.Prelude.{IfOk, IfErr};
ghost use Rattle.feats_answers.specs.AnswerViews.{answer_text};
ghost use Rattle.feats.specs.comparisons.Comparisons.{IsComparison, IsNoComparison, IsShown};
ghost use Rattle.feats.specs.comparisons.SideView.{side_text};
ghost use Rattle.feats_files.specs.Messages.{Says};

use crate::comparisons::differences::Answer;
use crate::comparisons::sides::Side;
use crate::comparisons::visitors::OldVisitor;
use feats_files::{Fault, shown_answer};
use feats_plans::visit_plan;
use std::alloc::Global;

/// Returns the answer to `diff` about the builds of `old` and `new`, in the form that `old` asks for. The answer is negative if they differ.
/// Returns the fault of `old`, and else that of `new`: its first file or document at fault, or that it has no plan.
pub fn compare(alloc: Global, old: Side<'_, '_, '_>, new: Side<'_, '_, '_>) -> Result<Answer, Fault>
    ensures answer { IfOk result (λ answer. IsComparison (side_text old.entry) (side_text new.entry) (answer_text answer)) }
    ensures fault { IfErr result (λ fault. Says fault (IsNoComparison (side_text old.entry) (side_text new.entry))) }
{
    let visitor = OldVisitor { new };
    visit_plan(alloc, old.arguments, old.files, old.document, &visitor)
}

/// Returns the answer of `compare` as it is written: each control character but the line feeds is escaped. Returns the faults of `compare`.
pub(crate) fn shown(
    alloc: Global,
    old: Side<'_, '_, '_>,
    new: Side<'_, '_, '_>,
) -> Result<Answer, Fault>
    ensures answer { IfOk result (λ answer. IsShown (side_text old.entry) (side_text new.entry) (answer_text answer)) }
    ensures fault { IfErr result (λ fault. Says fault (IsNoComparison (side_text old.entry) (side_text new.entry))) }
{
    let answer = compare(alloc, old, new)?;
    let text = shown_answer(alloc, old.arguments.format, &answer.text)?;
    Ok(Answer {
        text,
        is_negative: answer.is_negative,
    })
}
