//! The form of an answer to `diff`, which both sides must ask for. It is no summary.
ghost use Rattle.std.specs.Prelude.{◌≡◌, OnOk, OnErr, IfErr, true, false, ◌||◌};
ghost use Rattle.feats.specs.comparisons.Formats.{format_message, is_summary, summary_message};
ghost use Rattle.feats.specs.comparisons.differences.Forms as spec;
ghost use Rattle.feats_files.specs.Messages.{IsRefused};
ghost use Rattle.feats_words.specs.Views.{question_text};

use crate::comparisons::differences::form_of;
use feats_files::{Fault, refused};
use feats_words::{CommandArguments, Question};
use std::alloc::Global;

/// Returns `Ok` if `old` and `new` ask for the same form of the answer. If they don't, returns the message about it; `Memory` is the only
/// other error.
pub fn one_format(
    alloc: Global,
    old: &CommandArguments<'_>,
    new: &CommandArguments<'_>,
) -> Result<(), Fault>
    ensures one { OnOk result (spec.form_of (question_text old.now.question) old.now.format ≡ spec.form_of (question_text new.now.question) new.now.format) }
    ensures differ { OnErr result (spec.form_of (question_text old.now.question) old.now.format ≡ spec.form_of (question_text new.now.question) new.now.format → ⊥) }
    ensures fault { IfErr result (IsRefused format_message) }
{
    if form_of(old) == form_of(new) {
        return Ok(());
    }
    Err(refused(
        alloc,
        &[
            "the builds of `diff` have different formats: write `--format` or `--report` once, before the first `--`",
        ],
    ))
}

/// Returns whether `arguments` ask for a summary.
fn is_summary(arguments: &CommandArguments<'_>) -> bool
    ensures { result ≡ is_summary (question_text arguments.now.question) }
{
    matches!(arguments.question, Question::Summary)
}

/// Returns `Ok` if neither `old` nor `new` asks for a summary, which `diff` doesn't print. Otherwise returns the message about it; `Memory`
/// is the only other error.
pub fn no_summary(
    alloc: Global,
    old: &CommandArguments<'_>,
    new: &CommandArguments<'_>,
) -> Result<(), Fault>
    ensures none { OnOk result ((is_summary (question_text old.now.question) || is_summary (question_text new.now.question)) ≡ false) }
    ensures some { OnErr result ((is_summary (question_text old.now.question) || is_summary (question_text new.now.question)) ≡ true) }
    ensures fault { IfErr result (IsRefused summary_message) }
{
    if is_summary(old) || is_summary(new) {
        return Err(refused(alloc, &["`diff` prints no summary: leave --summary out"]));
    }
    Ok(())
}
