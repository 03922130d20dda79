//! From the bytes of a reader to the output in a writer.
ghost use Rattle.std.specs.Prelude.{◌≡◌, ◌⊎◌, ℕ, List, true, false, Ok, IfOk, OnOk, IfErr, OnErr, IfSome, ◌++◌, ◌<◌, ◌≤◌};
ghost use Rattle.std.specs.Io.KnownBytes.{Keeps, Appends, Consumes, IsAtEnd};
ghost use Rattle.guppy_tool.specs.Faults.{refusal_of};
ghost use Rattle.guppy_tool.specs.Words.{command_text};
ghost use Rattle.guppy_tool.specs.Run.{IsAnswer, Ends};

use crate::answer::answer;
use crate::fault::Fault;
use crate::words::Command;
use byte_devices::{ByteInput, ByteOutput, Failed, read_all, write_all};
use std::alloc::Global;

/// Reads all bytes of `reader`, and writes the output of `command` over them to `writer`.
///
/// A fault of the bytes is the first in this order: text that isn't UTF-8, malformed lines, rows, ids. Nothing is
/// written before the whole output is known. The first read or write that fails ends the run.
pub fn run<R: ByteInput, W: ByteOutput>(
    alloc: Global,
    command: &Command,
    reader: &mut R,
    writer: &mut W,
) -> Result<(), Fault>
    requires reader_fresh { R.failed reader.old ≡ false }
    requires writer_fresh { W.failed writer.old ≡ false }
    // Nothing is left to read.
    ensures end { OnOk result (IsAtEnd (R.left reader.new)) }
    // The text that was written is the answer for all bytes of the reader.
    ensures ok { OnOk result (IfSome (R.left reader.old) (λ bytes. (text : List ℕ) × IsAnswer (command_text command.now) bytes (Ok text) × Appends (W.held writer.old) (W.held writer.new) text)) }
    // Neither device has failed.
    ensures fresh { OnOk result ((R.failed reader.new ≡ false) × (W.failed writer.new ≡ false)) }
    // On an error, the fault is the first one for those bytes, and `writer` got nothing or a beginning of the text.
    ensures fault { IfErr result (λ fault. Ends (refusal_of fault) (R.left reader.old) (IsAnswer (command_text command.now)) (W.held writer.old) (W.held writer.new) (R.failed reader.new) (W.failed writer.new)) }
{
    let bytes = read_all(alloc, reader)?;
    let text = answer(alloc, command, bytes)?;
    match write_all(writer, &text) {
        Ok(()) => Ok(()),
        Err(Failed) => Err(Fault::CannotWrite),
    }
}
