//! What `Watched` reads from and writes to: any `Read`, and any `Write`.
//!
//! By the traits of std each call may fail, with any error. Here a stream has a relation for what a call returns, and
//! code that takes any `Source` or `Sink` can show it of a result only by the call that gave it. A call that a signal
//! interrupts has no result: it is made again.

ghost use Rattle.std.specs.Prelude.{◌≡◌, ◌≢◌, ◌↔◌, ℕ, List, Option, Result, IfErr, IsTrue};
ghost use Rattle.std_io.specs.IoError.{error_kind};
ghost use Rattle.std.specs.Io.{ReadsAtMost, WritesAtMost};
ghost use Rattle.std.specs.Io.KnownBytes.{ReadConsumes, WriteAppends};
ghost use Rattle.std_io.specs.declared.io.error.Error.{Error};

use std::io;
use std::io::{Error, ErrorKind, Read, Write};

/// Where bytes come from: any `Read`.
pub trait Source {
    // The bytes that reads will give from here on, where they are known.
    ghost remaining: { Self → Option (List ℕ) };

    // A read: the source before, the answer, the buffer then, and the source after.
    ghost reads: { Self → Result ℕ Error → List ℕ → Self → Type 0 };

    /// Reads into the buffer, as `Read` does, and again where that is interrupted.
    fn read(&mut self, buf: &mut [u8]) -> io::Result<usize>
        ensures bound { ReadsAtMost result buf.new }
        ensures retried { IfErr result (λ error. error_kind error ≢ ErrorKind.Interrupted) }
        ensures bytes { ReadConsumes (remaining self.old) (remaining self.new) result buf.new }
        ensures called { reads self.old result buf.new self.new };
}

impl<R: Read> Source for R {
    ghost remaining = { R.remaining };

    ghost reads = { λ before result bytes after.
        ReadConsumes (R.remaining before) (R.remaining after) result bytes };

    fn read(&mut self, buf: &mut [u8]) -> io::Result<usize> {
        read_again(self, buf)
    }
}

/// Where bytes go: any `Write`.
pub trait Sink {
    // The bytes that it holds, where they are known.
    ghost contents: { Self → Option (List ℕ) };

    // A write: the sink before, the answer, the bytes that were offered, and the sink after.
    ghost writes: { Self → Result ℕ Error → List ℕ → Self → Type 0 };

    /// Writes some of the bytes, as `Write` does, and again where that is interrupted.
    fn write(&mut self, buf: &[u8]) -> io::Result<usize>
        ensures bound { WritesAtMost result buf.now }
        ensures retried { IfErr result (λ error. error_kind error ≢ ErrorKind.Interrupted) }
        ensures bytes { WriteAppends (contents self.old) (contents self.new) result buf.now }
        ensures called { writes self.old result buf.now self.new };
}

impl<W: Write> Sink for W {
    ghost contents = { W.contents };

    ghost writes = { λ before result bytes after.
        WriteAppends (W.contents before) (W.contents after) result bytes };

    fn write(&mut self, buf: &[u8]) -> io::Result<usize> {
        write_again(self, buf)
    }
}

// One read, and again where it is interrupted: at most 2^64 - 1 times, and then it has timed out.
fn read_again<R: Read>(reader: &mut R, buf: &mut [u8]) -> io::Result<usize>
    ensures bound { ReadsAtMost result buf.new }
    ensures bytes { ReadConsumes (R.remaining reader.old) (R.remaining reader.new) result buf.new }
    ensures retried { IfErr result (λ error. error_kind error ≢ ErrorKind.Interrupted) }
{
    for _ in 0..u64::MAX {
        match reader.read(buf) {
            Ok(taken) => return Ok(taken),
            Err(error) => {
                if !is_interrupted(&error) {
                    return Err(error);
                }
            }
        }
    }
    Err(ErrorKind::TimedOut.into())
}

// One write, and again as `read_again`.
fn write_again<W: Write>(writer: &mut W, buf: &[u8]) -> io::Result<usize>
    ensures bound { WritesAtMost result buf.now }
    ensures bytes { WriteAppends (W.contents writer.old) (W.contents writer.new) result buf.now }
    ensures retried { IfErr result (λ error. error_kind error ≢ ErrorKind.Interrupted) }
{
    for _ in 0..u64::MAX {
        match writer.write(buf) {
            Ok(taken) => return Ok(taken),
            Err(error) => {
                if !is_interrupted(&error) {
                    return Err(error);
                }
            }
        }
    }
    Err(ErrorKind::TimedOut.into())
}

fn is_interrupted(error: &Error) -> bool
    ensures { IsTrue result ↔ (error_kind error.now ≡ ErrorKind.Interrupted) }
{
    error.kind() == ErrorKind::Interrupted
}
