//! From the bytes of files to an answer.
ghost use Rattle.std.specs.Prelude.{IfOk, IfErr};
ghost use Rattle.feats_files.specs.Messages.{Says};
ghost use Rattle.feats_plans.specs.Inputs.{inputs_text};
ghost use Rattle.feats_plans.specs.tool.AnsweredView.{answered_text};
ghost use Rattle.feats_plans.specs.tool.Answers.{IsAnswer, IsNoAnswer, IsShown};

use crate::tool::answered::Answered;
use crate::tool::rules::rules_of;
use crate::tool::visitor::AskedVisitor;
use crate::{PlanFiles, visit_plan};
use feats_answers::Answer;
use feats_files::{Fault, shown_answer};
use feats_words::CommandArguments;
use std::alloc::Global;

/// Returns the answer for `arguments` and the warnings, by the bytes of `files` and of the document. The first file at fault is refused: the
/// policy, the manifest, the host's, those of the targets, and then the document, which may have no plan, or no answer to the question.
pub fn answer(
    alloc: Global,
    arguments: &CommandArguments<'_>,
    files: &PlanFiles<'_>,
    bytes: &[u8],
) -> Result<Answered, Fault>
    ensures answer { IfOk result (λ answered. IsAnswer (inputs_text arguments.now files.now) bytes.now (answered_text answered)) }
    ensures fault { IfErr result (λ fault. Says fault (IsNoAnswer (inputs_text arguments.now files.now) bytes.now)) }
{
    let rules = rules_of(alloc, arguments.question, &files.policy)?;
    let visitor = AskedVisitor {
        document: bytes,
        rules: &rules,
    };
    visit_plan(alloc, arguments, files, bytes, &visitor)
}

/// Returns the answer of `answer` as it is written, and the warnings: each control character but the line feeds is escaped.
pub(crate) fn shown(
    alloc: Global,
    arguments: &CommandArguments<'_>,
    files: &PlanFiles<'_>,
    bytes: &[u8],
) -> Result<Answered, Fault>
    ensures answer { IfOk result (λ answered. IsShown (inputs_text arguments.now files.now) bytes.now (answered_text answered)) }
    ensures fault { IfErr result (λ fault. Says fault (IsNoAnswer (inputs_text arguments.now files.now) bytes.now)) }
{
    let Answered { answer, warnings } = answer(alloc, arguments, files, bytes)?;
    let text = shown_answer(alloc, arguments.format, &answer.text)?;
    let answer = Answer {
        text,
        is_negative: answer.is_negative,
    };
    Ok(Answered { answer, warnings })
}
