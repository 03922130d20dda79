//! From the bytes of readers to the answer in a writer.
ghost use Rattle.std.specs.Prelude.{◌≡◌, false, not, IfOk, OnOk, OnErr, IfErr};
ghost use Rattle.std.specs.Io.KnownBytes.{IsAtEnd, Keeps};
ghost use Rattle.feats.specs.comparisons.Comparisons.{IsNoComparison};
ghost use Rattle.feats.specs.comparisons.Run.{Ends, HasComparison, IsWritten, read_side};
ghost use Rattle.feats.specs.comparisons.SideView.{inputs_of, side_text};
ghost use Rattle.feats_files.specs.Messages.{Says};

use crate::comparisons::comparing::shown;
use crate::comparisons::sides::{Side, SideInputs};
use byte_devices::{ByteInput, ByteOutput};
use feats_files::{Ended, Fault, bytes_of, write_answer};
use std::alloc::Global;

/// Writes the answer to `diff` about the builds of `old` and `new` to `writer`, as it is shown. Returns the faults of `compare`; then it
/// writes nothing.
fn write_comparison<W: ByteOutput>(
    alloc: Global,
    old: Side<'_, '_, '_>,
    new: Side<'_, '_, '_>,
    writer: &mut W,
) -> Result<Ended, Fault>
    requires { W.failed writer.old ≡ false }
    ensures ok { IfOk result (λ ended. IsWritten (side_text old.entry) (side_text new.entry) ended (W.held writer.old) (W.held writer.new)) }
    ensures mark { IfOk result (λ ended. W.failed writer.new ≡ not ended.is_written) }
    ensures fault { IfErr result (λ fault. Says fault (IsNoComparison (side_text old.entry) (side_text new.entry))) }
    ensures kept { OnErr result (Keeps (W.held writer.old) (W.held writer.new) × (W.failed writer.new ≡ false)) }
{
    let answer = shown(alloc, old, new)?;
    Ok(write_answer(writer, &answer.text, answer.is_negative))
}

/// Reads the document of `old` from `old_reader` and that of `new` from `new_reader`, each to its end, and writes the answer to `diff`
/// about their builds to `writer`, in the form that `old` asks for. Control characters in it are escaped, but for the line feeds at the
/// ends of its lines. Returns whether the builds differ, and whether the answer was written: the first write that fails ends the run.
///
/// Writes nothing before the whole answer is known. Returns the first fault: a failed read of `old` and then of `new`, and then the
/// faults of `compare`.
pub fn run<R: ByteInput, S: ByteInput, W: ByteOutput>(
    alloc: Global,
    old: SideInputs<'_, '_, '_>,
    new: SideInputs<'_, '_, '_>,
    old_reader: &mut R,
    new_reader: &mut S,
    writer: &mut W,
) -> Result<Ended, Fault>
    requires old_fresh { R.failed old_reader.old ≡ false }
    requires new_fresh { S.failed new_reader.old ≡ false }
    requires writer_fresh { W.failed writer.old ≡ false }
    // Nothing is left to read.
    ensures end { OnOk result (IsAtEnd (R.left old_reader.new) × IsAtEnd (S.left new_reader.new)) }
    // There is an answer for all bytes of the readers. It was written, or a beginning of it.
    ensures ok { IfOk result (λ ended. HasComparison (read_side (inputs_of old.entry) (R.left old_reader.old) (R.failed old_reader.new)) (read_side (inputs_of new.entry) (S.left new_reader.old) (S.failed new_reader.new)) ended (W.held writer.old) (W.held writer.new)) }
    // The readers haven't failed, and the writer only if the answer isn't written.
    ensures fresh { IfOk result (λ ended. (R.failed old_reader.new ≡ false) × (S.failed new_reader.new ≡ false) × (W.failed writer.new ≡ not ended.is_written)) }
    // On an error, the fault is the first one, and `writer` got nothing.
    ensures fault { IfErr result (λ fault. Ends (read_side (inputs_of old.entry) (R.left old_reader.old) (R.failed old_reader.new)) (read_side (inputs_of new.entry) (S.left new_reader.old) (S.failed new_reader.new)) fault (W.held writer.old) (W.held writer.new) (W.failed writer.new)) }
{
    let old_bytes = bytes_of(alloc, old_reader, old.arguments.metadata)?;
    let new_bytes = bytes_of(alloc, new_reader, new.arguments.metadata)?;
    write_comparison(
        alloc,
        old.with_document(&old_bytes),
        new.with_document(&new_bytes),
        writer,
    )
}

/// Does the same where both sides have the document of `reader`: a pipe can be read only once.
pub fn run_by_one_document<R: ByteInput, W: ByteOutput>(
    alloc: Global,
    old: SideInputs<'_, '_, '_>,
    new: SideInputs<'_, '_, '_>,
    reader: &mut R,
    writer: &mut W,
) -> Result<Ended, Fault>
    requires reader_fresh { R.failed reader.old ≡ false }
    requires writer_fresh { W.failed writer.old ≡ false }
    // Nothing is left to read.
    ensures end { OnOk result (IsAtEnd (R.left reader.new)) }
    // There is an answer for all bytes of the reader. It was written, or a beginning of it.
    ensures ok { IfOk result (λ ended. HasComparison (read_side (inputs_of old.entry) (R.left reader.old) (R.failed reader.new)) (read_side (inputs_of new.entry) (R.left reader.old) (R.failed reader.new)) ended (W.held writer.old) (W.held writer.new)) }
    // The reader hasn't failed, and the writer only if the answer isn't written.
    ensures fresh { IfOk result (λ ended. (R.failed reader.new ≡ false) × (W.failed writer.new ≡ not ended.is_written)) }
    // On an error, the fault is the first one, and `writer` got nothing.
    ensures fault { IfErr result (λ fault. Ends (read_side (inputs_of old.entry) (R.left reader.old) (R.failed reader.new)) (read_side (inputs_of new.entry) (R.left reader.old) (R.failed reader.new)) fault (W.held writer.old) (W.held writer.new) (W.failed writer.new)) }
{
    let bytes = bytes_of(alloc, reader, old.arguments.metadata)?;
    write_comparison(
        alloc,
        old.with_document(&bytes),
        new.with_document(&bytes),
        writer,
    )
}
