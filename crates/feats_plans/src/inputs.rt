//! The files that arguments name, besides the document.
ghost use Rattle.std.specs.Prelude.{◌≡◌, ℕ, List, true, false, IfOk, OnOk, IfErr, OnErr, IfSome};
ghost use Rattle.std.specs.Io.KnownBytes.{Consumes, IsAtEnd};
ghost use Rattle.feats_files.specs.Messages.{IsRefused, Says};
ghost use Rattle.feats_plans.specs.Inputs.{unread_message};

use byte_devices::ByteInput;
use feats_files::{Fault, PlatformFile, bytes_of};
use feats_words::PlatformWord;
use std::alloc::Global;

/// The bytes of the files that arguments name, besides the document.
pub struct PlanFiles<'f> {
    /// The root manifest; empty if no manifest is named.
    pub manifest: Vec<u8>,
    pub host: PlatformFile<'f>,
    /// The target platforms, in the order of the arguments.
    pub targets: Vec<PlatformFile<'f>>,
    /// The policy; empty if no policy is named.
    pub policy: Vec<u8>,
    /// The manifests of the members, each ended by a NUL byte; empty if no such file is named.
    pub member_manifests: Vec<u8>,
}

impl Drop for PlanFiles<'_> {
    // Written out, so that a crate above calls it. A derived drop is proved in each crate that drops a value, with those of all fields.
    fn drop(self) {
        let PlanFiles {
            manifest: _manifest,
            host: _host,
            targets: _targets,
            policy: _policy,
            member_manifests: _member_manifests,
        } = self;
    }
}

/// Returns the platform of `word`, with all bytes that are left of its file.
pub fn platform_file<'f, R: ByteInput>(
    alloc: Global,
    word: PlatformWord<'f>,
    reader: &mut R,
) -> Result<PlatformFile<'f>, Fault>
    requires fresh { R.failed reader.old ≡ false }
    ensures triple { IfOk result (λ file. file.triple.now ≡ word.entry.triple.now) }
    ensures bytes { IfOk result (λ file. IfSome (R.left reader.old) (λ xs. file.bytes.items ≡ xs)) }
    ensures end { OnOk result (IsAtEnd (R.left reader.new)) }
    ensures fresh { OnOk result (R.failed reader.new ≡ false) }
    ensures fault { IfErr result (λ fault. IsRefused (unread_message word.entry.path.now) fault) }
    ensures failed { IfErr result (λ fault. Says fault (λ _. R.failed reader.new ≡ true)) }
    ensures taken { OnErr result ((front : List ℕ) × Consumes (R.left reader.old) (R.left reader.new) front) }
{
    let bytes = bytes_of(alloc, reader, word.path)?;
    Ok(PlatformFile {
        triple: word.triple,
        bytes,
    })
}
