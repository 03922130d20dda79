//! Reading all bytes of a reader, and writing a whole text.
ghost use Rattle.std.specs.Prelude.{◌≡◌, ℕ, List, true, false, IfOk, OnOk, IfErr, OnErr, IfSome, ◌++◌};
ghost use Rattle.std.specs.Io.KnownBytes.{Appends, Consumes, IsAtEnd};
ghost use Rattle.byte_devices.specs.Devices.{is_failure};

use crate::interfaces::{ByteInput, ByteOutput, Failed};
use std::alloc::{AllocError, Global};

/// Reasons why not all bytes were read.
#[derive(Clone, Copy, PartialEq, Eq, Debug)]
pub enum ReadError {
    /// A read failed.
    Failed,
    /// An allocation failed.
    Memory,
}

impl From<AllocError> for ReadError {
    ghost use Rattle.byte_devices.specs.declared.whole.ReadError.TheVariants.{Memory};

    ghost from_gives = { λ _ error. error ≡ Memory };

    fn from(_: AllocError) -> ReadError {
        ReadError::Memory
    }
}

/// Reads all bytes that are left and returns them. Returns `Failed` at the first read that fails, and
/// `Memory` if an allocation fails. After an error some bytes may have been taken.
pub fn read_all<R: ByteInput>(alloc: Global, reader: &mut R) -> Result<Vec<u8>, ReadError>
    requires fresh { R.failed reader.old ≡ false }
    ensures bytes { IfOk result (λ v. IfSome (R.left reader.old) (λ xs. v.items ≡ xs)) }
    ensures end { OnOk result (IsAtEnd (R.left reader.new)) }
    ensures fresh { OnOk result (R.failed reader.new ≡ false) }
    ensures fault { IfErr result (λ error. R.failed reader.new ≡ is_failure error) }
    ensures taken { OnErr result ((front : List ℕ) × Consumes (R.left reader.old) (R.left reader.new) front) }
{
    let mut bytes = Vec::new(alloc);
    let mut chunk = [0u8; 8192];
    loop {
        let Ok(count) = reader.read(&mut chunk) else {
            return Err(ReadError::Failed);
        };
        if count == 0 {
            return Ok(bytes);
        }
        bytes.extend_from_slice(&chunk[..count])?;
    }
}

/// Writes the whole `text`. Returns `Failed` at the first write that fails; then only a beginning of
/// the text was written.
pub fn write_all<W: ByteOutput>(writer: &mut W, text: &[u8]) -> Result<(), Failed>
    requires fresh { W.failed writer.old ≡ false }
    ensures ok { OnOk result (Appends (W.held writer.old) (W.held writer.new) text.now) }
    ensures fresh { OnOk result (W.failed writer.new ≡ false) }
    ensures failed { OnErr result (W.failed writer.new ≡ true) }
    ensures beginning { OnErr result ((front rest : List ℕ) × (text.now ≡ front ++ rest) × Appends (W.held writer.old) (W.held writer.new) front) }
{
    let mut done = 0;
    while done < text.len() {
        let Ok(count) = writer.write(&text[done..]) else {
            return Err(Failed);
        };
        done += count;
    }
    Ok(())
}
