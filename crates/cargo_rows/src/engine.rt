//! Reads a document to its end and writes its rows.
ghost use Rattle.std.specs.Prelude.{◌≡◌, ℕ, List, false, map, OnOk, IfOk, IfErr, IfSome};
ghost use Rattle.std.specs.Io.KnownBytes.{Appends, IsAtEnd};
ghost use Rattle.cargo_rows.specs.Run.{AreRows, AreWarnings, Ends};
ghost use Rattle.cargo_rows.specs.Warnings.{warning_view};

use crate::metadata::{Rows, rows_of_bytes};
use crate::warnings::Warning;
use byte_devices::{ByteInput, ByteOutput, Failed, read_all, write_all};
use cargo_json::Fault;
use std::alloc::Global;

/// Reads `reader` to its end and writes the rows of that document to `writer`. Returns a warning for each declaration of a
/// workspace package that should lead to a package but doesn't.
///
/// Writes nothing before all rows are known. Returns `CannotRead` or `CannotWrite` at the first read or write that fails,
/// `NotText` or `NotJson` if the bytes are no JSON document, `Document` with its first fault, and `Memory` if an allocation
/// fails.
pub fn run<R: ByteInput, W: ByteOutput>(
    alloc: Global,
    reader: &mut R,
    writer: &mut W,
) -> Result<Vec<Warning>, Fault>
    requires reader_fresh { R.failed reader.old ≡ false }
    requires writer_fresh { W.failed writer.old ≡ false }
    // Nothing is left to read.
    ensures end { OnOk result (IsAtEnd (R.left reader.new)) }
    // The bytes are a document, and its rows were appended to the output.
    ensures rows { OnOk result (IfSome (R.left reader.old) (λ bytes. (text : List ℕ) × AreRows bytes text × Appends (W.held writer.old) (W.held writer.new) text)) }
    // The warnings are those of the same document.
    ensures warnings { IfOk result (λ warnings. IfSome (R.left reader.old) (λ bytes. AreWarnings bytes (map warning_view warnings.items))) }
    // Neither device has failed.
    ensures fresh { OnOk result ((R.failed reader.new ≡ false) × (W.failed writer.new ≡ false)) }
    // A fault is in the bytes or in a device; nothing was written unless a write failed.
    ensures fault { IfErr result (λ fault. Ends fault (R.left reader.old) (W.held writer.old) (W.held writer.new) (R.failed reader.new) (W.failed writer.new)) }
{
    let bytes = read_all(alloc, reader)?;
    let Rows { text, warnings } = rows_of_bytes(alloc, bytes)?;
    match write_all(writer, text.as_bytes()) {
        Ok(()) => Ok(warnings),
        Err(Failed) => Err(Fault::CannotWrite),
    }
}
