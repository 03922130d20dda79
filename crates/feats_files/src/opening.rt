//! Faults of the command line and of its files.
ghost use Rattle.std.specs.Prelude.{◌≡◌, ℕ, List, [], ◌∷◌, true, false, IfOk, OnOk, IfErr, OnErr, IfSome, codes};
ghost use Rattle.std.specs.Io.KnownBytes.{Consumes, IsAtEnd};
ghost use Rattle.feats_files.specs.Messages.{IsRefused, Says, joined};

use crate::fault::Fault;
use crate::message::refused;
use byte_devices::{ByteInput, ReadError, read_all};
use std::alloc::Global;

/// Returns the refusal of a command line without a command.
pub fn no_command(alloc: Global) -> Fault
    ensures { IsRefused (joined (codes "no command is given: `feats help` lists them" ∷ [])) result }
{
    refused(alloc, &["no command is given: `feats help` lists them"])
}

/// Returns the refusal of a command line that isn't UTF-8.
pub fn not_text(alloc: Global) -> Fault
    ensures { IsRefused (joined (codes "a word of the command line isn't UTF-8: rename the file" ∷ [])) result }
{
    refused(
        alloc,
        &["a word of the command line isn't UTF-8: rename the file"],
    )
}

/// Returns the refusal of a file that can't be opened.
pub fn unopened(alloc: Global, path: &str) -> Fault
    ensures { IsRefused (joined (codes "cannot open `" ∷ path.now ∷ codes "`: check the path and its permissions" ∷ [])) result }
{
    refused(
        alloc,
        &[
            "cannot open `",
            path,
            "`: check the path and its permissions",
        ],
    )
}

/// Returns all bytes that are left of the file at `path`. It is refused if a read fails; then some bytes may have been taken.
pub fn bytes_of<R: ByteInput>(alloc: Global, reader: &mut R, path: &str) -> Result<Vec<u8>, Fault>
    requires fresh { R.failed reader.old ≡ false }
    ensures bytes { IfOk result (λ v. IfSome (R.left reader.old) (λ xs. v.items ≡ xs)) }
    ensures end { OnOk result (IsAtEnd (R.left reader.new)) }
    ensures fresh { OnOk result (R.failed reader.new ≡ false) }
    ensures fault { IfErr result (λ fault. IsRefused (joined (codes "cannot read `" ∷ path.now ∷ codes "`" ∷ [])) fault) }
    ensures failed { IfErr result (λ fault. Says fault (λ _. R.failed reader.new ≡ true)) }
    ensures taken { OnErr result ((front : List ℕ) × Consumes (R.left reader.old) (R.left reader.new) front) }
{
    match read_all(alloc, reader) {
        Ok(bytes) => Ok(bytes),
        Err(ReadError::Failed) => Err(refused(alloc, &["cannot read `", path, "`"])),
        Err(ReadError::Memory) => Err(Fault::Memory),
    }
}
