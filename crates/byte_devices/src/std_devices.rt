//! Devices over the readers and writers of std.
ghost use Rattle.std.specs.Prelude.{◌≡◌, false, IfOk, ◌<◌, length};
ghost use Rattle.std.specs.Io.{ReadsAtMost, WritesAtMost};
ghost use Rattle.std.specs.Io.KnownBytes.{ReadConsumes, WriteAppends};

use crate::interfaces::{ByteInput, ByteOutput, Failed};
use std::io::{ErrorKind, Read, Write};

/// The number of times that an interrupted call is made before it counts as failed.
const ATTEMPTS: usize = 1_000;

/// Reads once, and tries again while the read is interrupted. Returns `Failed` after `ATTEMPTS`
/// interruptions, or if the reader returns any other error.
fn read_once<R: Read>(reader: &mut R, buf: &mut [u8]) -> Result<usize, Failed>
    ensures bound { ReadsAtMost result buf.new }
    ensures bytes { ReadConsumes (R.remaining reader.old) (R.remaining reader.new) result buf.new }
{
    for _attempt in 0..ATTEMPTS {
        match reader.read(buf) {
            Ok(count) => return Ok(count),
            Err(error) if error.kind() == ErrorKind::Interrupted => {}
            Err(_) => return Err(Failed),
        }
    }
    Err(Failed)
}

/// A `ByteInput` over any reader of std.
#[derive(Drop)]
pub struct FromReader<R> {
    reader: R,
    has_failed: bool,
}

impl<R: Read> FromReader<R> {
    ghost use Rattle.byte_devices.specs.StdDevices.{reader_of, read_failed};

    /// Wraps `reader`. No read counts as failed yet.
    pub fn new(reader: R) -> Self
        ensures reader { reader_of result ≡ reader }
        ensures fresh { read_failed result ≡ false }
    {
        FromReader {
            reader,
            has_failed: false,
        }
    }
}

impl<R: Read> ByteInput for FromReader<R> {
    ghost use Rattle.byte_devices.specs.StdDevices.{reader_of, read_failed};

    ghost left = { λ s. R.remaining (reader_of s) };

    ghost failed = { λ s. read_failed s };

    fn read(&mut self, buf: &mut [u8]) -> Result<usize, Failed> {
        let read = read_once(&mut self.reader, buf);
        if read.is_err() {
            self.has_failed = true;
        }
        read
    }
}

/// A `ByteOutput` over any writer of std. It records whether a write failed because the pipe is closed at its other end.
#[derive(Drop)]
pub struct ToWriter<W> {
    writer: W,
    has_failed: bool,
    is_closed: bool,
}

impl<W: Write> ToWriter<W> {
    ghost use Rattle.byte_devices.specs.StdDevices.{write_closed, write_failed, writer_of};

    /// Wraps `writer`. No write counts as failed yet.
    pub fn new(writer: W) -> Self
        ensures writer { writer_of result ≡ writer }
        ensures fresh { write_failed result ≡ false }
        ensures open { write_closed result ≡ false }
    {
        ToWriter {
            writer,
            has_failed: false,
            is_closed: false,
        }
    }

    /// Returns whether a write has failed because the pipe is closed at its other end.
    pub fn is_closed(&self) -> bool
        ensures { result ≡ write_closed self.now }
    {
        self.is_closed
    }

    /// Writes once, and tries again while the write is interrupted. Returns `Failed` after `ATTEMPTS` interruptions, if the writer
    /// returns any other error, or if it takes no byte of a nonempty slice.
    fn write_once(&mut self, buf: &[u8]) -> Result<usize, Failed>
        ensures mark { write_failed self.new ≡ write_failed self.old }
        ensures bound { WritesAtMost result buf.now }
        ensures some { IfOk result (λ n. 0 < length buf.now → 0 < n) }
        ensures bytes { WriteAppends (W.contents (writer_of self.old)) (W.contents (writer_of self.new)) result buf.now }
    {
        for _attempt in 0..ATTEMPTS {
            match self.writer.write(buf) {
                Ok(count) if count > 0 || buf.is_empty() => return Ok(count),
                Err(error) if error.kind() == ErrorKind::Interrupted => {}
                Err(error) => {
                    self.is_closed = error.kind() == ErrorKind::BrokenPipe;
                    return Err(Failed);
                }
                _ => return Err(Failed),
            }
        }
        Err(Failed)
    }
}

impl<W: Write> ByteOutput for ToWriter<W> {
    ghost use Rattle.byte_devices.specs.StdDevices.{writer_of, write_failed};

    ghost held = { λ s. W.contents (writer_of s) };

    ghost failed = { λ s. write_failed s };

    fn write(&mut self, buf: &[u8]) -> Result<usize, Failed> {
        let written = self.write_once(buf);
        if written.is_err() {
            self.has_failed = true;
        }
        written
    }
}
