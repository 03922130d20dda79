//! Writing an answer.
ghost use Rattle.std.specs.Prelude.{◌≡◌, false, not};
ghost use Rattle.feats_files.specs.Writing.{Writes};

use byte_devices::{ByteOutput, Failed, write_all};

/// How a run ended that has an answer.
#[derive(Clone, Copy, PartialEq, Eq, Debug)]
pub struct Ended {
    /// Whether the answer is negative.
    pub is_negative: bool,
    /// Whether the whole answer was written. If it wasn't, a write failed.
    pub is_written: bool,
}

/// Writes the answer `text` to `writer`. The first write that fails ends it; then a beginning of `text` was written.
pub fn write_answer<W: ByteOutput>(writer: &mut W, text: &[u8], is_negative: bool) -> Ended
    requires fresh { W.failed writer.old ≡ false }
    ensures negative { result.is_negative ≡ is_negative }
    ensures written { Writes result.is_written text.now (W.held writer.old) (W.held writer.new) }
    ensures mark { W.failed writer.new ≡ not result.is_written }
{
    match write_all(writer, text) {
        Ok(()) => Ended {
            is_negative,
            is_written: true,
        },
        Err(Failed) => Ended {
            is_negative,
            is_written: false,
        },
    }
}
