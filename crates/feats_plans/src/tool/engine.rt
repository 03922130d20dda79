//! From the bytes of a reader to the answer in a writer.
ghost use Rattle.std.specs.Prelude.{◌≡◌, false, not, IfOk, OnOk, IfErr};
ghost use Rattle.std.specs.Io.KnownBytes.{IsAtEnd};
ghost use Rattle.feats_plans.specs.Inputs.{inputs_text};
ghost use Rattle.feats_plans.specs.tool.Run.{Ends, HasAnswer};
ghost use Rattle.feats_check.specs.checking.WarningViews.{string_texts};

use crate::PlanFiles;
use crate::tool::answered::{Answered, Outcome};
use crate::tool::answers::shown;
use byte_devices::{ByteInput, ByteOutput};
use feats_files::{Fault, bytes_of, write_answer};
use feats_words::CommandArguments;
use std::alloc::Global;

/// Reads the document from `reader` to its end, and writes the answer for `arguments` and `files` to `writer`. Control characters in it
/// are escaped, but for the line feeds at the ends of its lines. Returns whether the answer is negative, whether it was written (the first
/// write that fails ends the run), and the warnings.
///
/// Writes nothing before the whole answer is known. Returns the first fault: a failed read, a file at fault, or that there is no answer.
pub fn run<R: ByteInput, W: ByteOutput>(
    alloc: Global,
    arguments: &CommandArguments<'_>,
    files: &PlanFiles<'_>,
    reader: &mut R,
    writer: &mut W,
) -> Result<Outcome, Fault>
    requires reader_fresh { R.failed reader.old ≡ false }
    requires writer_fresh { W.failed writer.old ≡ false }
    // Nothing is left to read.
    ensures end { OnOk result (IsAtEnd (R.left reader.new)) }
    // There is an answer for all bytes of the reader. It was written, or a beginning of it. No control character but the line feed is in it.
    ensures ok { IfOk result (λ outcome. HasAnswer (inputs_text arguments.now files.now) outcome.ended (string_texts outcome.warnings.items) (R.left reader.old) (W.held writer.old) (W.held writer.new)) }
    // The reader hasn't failed, and the writer only if the answer isn't written.
    ensures fresh { IfOk result (λ outcome. (R.failed reader.new ≡ false) × (W.failed writer.new ≡ not outcome.ended.is_written)) }
    // On an error, the fault is the first one, and `writer` got nothing.
    ensures fault { IfErr result (λ fault. Ends (inputs_text arguments.now files.now) fault (R.left reader.old) (W.held writer.old) (W.held writer.new) (R.failed reader.new) (W.failed writer.new)) }
{
    let bytes = bytes_of(alloc, reader, arguments.metadata)?;
    let Answered { answer, warnings } = shown(alloc, arguments, files, &bytes)?;
    let ended = write_answer(writer, &answer.text, answer.is_negative);
    Ok(Outcome { ended, warnings })
}
