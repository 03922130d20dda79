//! Interfaces for reading and writing bytes.
ghost use Rattle.std.specs.Prelude.{ℕ, List, Bool, Option, None, IfOk, ◌<◌, length};
ghost use Rattle.std.specs.Io.{ReadsAtMost, WritesAtMost};
ghost use Rattle.std.specs.Io.KnownBytes.{ReadConsumes, WriteAppends};
ghost use Rattle.byte_devices.specs.Devices.{MarksFailure};

/// The error of a reader or a writer that failed.
#[derive(Clone, Copy, PartialEq, Eq, Debug)]
pub struct Failed;

/// A source of bytes. An implementation states which bytes are left, if they are known, and keeps a
/// mark that a failed read sets.
pub trait ByteInput {
    /// The bytes that are left, or `None` if they aren't known.
    ghost left: { Self → Option (List ℕ) } = { λ _. None };
    /// Whether a read has failed.
    ghost failed: { Self → Bool };

    /// Moves bytes from the front of the source to the front of `buf`, and returns their number. It
    /// is 0 only at the end or if `buf` is empty. `Failed` is returned if the read fails; then no
    /// byte is taken.
    fn read(&mut self, buf: &mut [u8]) -> Result<usize, Failed>
        ensures bound { ReadsAtMost result buf.new }
        ensures mark { MarksFailure (failed self.old) (failed self.new) result }
        ensures bytes { ReadConsumes (left self.old) (left self.new) result buf.new };
}

/// A sink for bytes. An implementation states which bytes it holds, if they are known, and keeps a
/// mark that a failed write sets.
pub trait ByteOutput {
    /// The bytes written so far, or `None` if they aren't known.
    ghost held: { Self → Option (List ℕ) } = { λ _. None };
    /// Whether a write has failed.
    ghost failed: { Self → Bool };

    /// Appends bytes from the front of `buf`, and returns their number: at least one, unless `buf` is
    /// empty. `Failed` is returned if the write fails; then no byte is appended.
    fn write(&mut self, buf: &[u8]) -> Result<usize, Failed>
        ensures bound { WritesAtMost result buf.now }
        ensures some { IfOk result (λ n. 0 < length buf.now → 0 < n) }
        ensures mark { MarksFailure (failed self.old) (failed self.new) result }
        ensures bytes { WriteAppends (held self.old) (held self.new) result buf.now };
}
