//! Readers and writers that remember whether a call on them has failed, and what programs that run on them have in
//! common.
#![tactic(auto)]

ghost use Rattle.std.specs.Prelude.{◌≡◌, ◌≢◌, ◌||◌, ◌↔◌, IfErr, IfOk, IsErrOf, IsOk, IsUtf8, OnErr, OnOk, is_err};
ghost use Rattle.std.specs.Prelude.{string_bytes};
ghost use Rattle.std.specs.Io.{ReadsAtMost, WritesAtMost};
ghost use Rattle.std_io.specs.IoError.{error_kind};
ghost use Rattle.std.specs.Io.KnownBytes.{Appends, ReadConsumes, WriteAppends};
ghost use Rattle.watched.specs.Calls.{Moves, ReadStops, ReadsToEnd, WriteFails};
ghost use Rattle.watched.specs.Reading.{IsRefused, IsNoInterruption, is_failed_read};
ghost use Rattle.watched.specs.Watched.{AppendsPart, IsUnmarked, ReadsAll, ReadsNoText, is_failed_write};

use std::alloc::{AllocError, Allocator};
use std::io;
use std::io::ErrorKind;
use std::marker::Model;
pub use streams::{Sink, Source};
use thiserror::Error;

pub mod program;
pub mod streams;

/// An end, a reader or a writer, with a mark that a call on it has failed. Only calls that read or
/// write set the mark, and nothing clears it.
#[derive(Drop)]
pub struct Watched<E> {
    inner: E,
    has_failed: bool,
}

impl<E> Model for Watched<E> {
    ghost use Rattle.watched.specs.Watched.{Watch, watch_code};

    ghost Value = { Watch E };

    ghost coded = { watch_code E.code };

    ghost view = { λ w. record { end = w.inner; marked = w.has_failed } };
}

impl<E> Watched<E> {
    /// The end, without a mark.
    pub fn new(end: E) -> Watched<E>
        ensures end { result.end ≡ end }
        ensures unmarked { IsUnmarked result }
    {
        Watched {
            inner: end,
            has_failed: false,
        }
    }

    /// Whether a call on the end has failed.
    pub fn failed(&self) -> bool
        ensures { result ≡ self.now.marked }
    {
        self.has_failed
    }

    /// The end itself.
    pub fn into_inner(self) -> E
        ensures { result ≡ self.end }
    {
        self.inner
    }
}

/// Why not all of an input was read, or not as a text.
#[derive(Clone, Copy, Debug, Error)]
pub enum ReadError {
    /// A read failed.
    #[error("read failed: {0}")]
    Failed(io::Error),
    /// All was read, and it is not a text.
    #[error("input is not UTF-8")]
    NotUtf8,
    /// A growth was refused.
    #[error("no memory")]
    Refused(AllocError),
}

impl From<AllocError> for ReadError {
    ghost from_gives = { λ _ error. IsRefused error };

    fn from(error: AllocError) -> ReadError {
        ReadError::Refused(error)
    }
}

// How many bytes a read asks for.
const CHUNK: usize = 64 * 1024;

impl<R: Source> Watched<R> {
    /// Reads into the buffer by one read of the reader, and returns its result. An error sets the mark, of whatever
    /// kind it is; it is never an interruption, since an interrupted read is made again.
    pub fn read(&mut self, buf: &mut [u8]) -> io::Result<usize>
        ensures bound { ReadsAtMost result buf.new }
        ensures retried { IfErr result (λ error. error_kind error ≢ ErrorKind.Interrupted) }
        ensures bytes { ReadConsumes (R.remaining self.old.end) (R.remaining self.new.end)
            result buf.new }
        ensures called { R.reads self.old.end result buf.new self.new.end }
        ensures mark { self.new.marked ≡ (self.old.marked || is_err result) }
    {
        let result = self.inner.read(buf);
        self.has_failed |= result.is_err();
        result
    }

    /// Reads all that the reader has left. The first read that fails ends it with that error, and a refused growth ends
    /// it with `Refused`; what was read until then is lost. `NotUtf8` never comes. A reader without an end is read
    /// until a growth is refused or a read fails.
    pub fn read_all<A: Allocator>(&mut self, alloc: A) -> Result<Vec<u8, A>, ReadError>
        ensures ok { IfOk result (λ bytes.
            ReadsAll (R.remaining self.old.end) (R.remaining self.new.end) bytes.items) }
        ensures not_utf8 { ¬ IsErrOf result ReadError.NotUtf8 }
        ensures reads { IfOk result (λ bytes.
            ReadsToEnd R.reads self.old.end bytes.items self.new.end) }
        ensures stops { IfErr result (λ error.
            ReadStops R.reads self.old.end error self.new.end) }
        ensures retried { IfErr result IsNoInterruption }
        ensures mark { self.new.marked ≡ (self.old.marked || is_failed_read result) }
    {
        let mut chunk = [0; CHUNK];
        let mut bytes = Vec::new(alloc);
        loop {
            match self.read(&mut chunk) {
                Ok(0) => return Ok(bytes),
                Ok(taken) => bytes.extend_from_slice(&chunk[..taken])?,
                Err(error) => return Err(ReadError::Failed(error)),
            }
        }
    }

    /// All that the reader has left, as one text, without a copy. It ends as `read_all` does, and with `NotUtf8` where
    /// all was read and is not a text; then too what was read is lost.
    pub fn read_text<A: Allocator>(&mut self, alloc: A) -> Result<String<A>, ReadError>
        ensures ok { IfOk result (λ text.
            ReadsAll (R.remaining self.old.end) (R.remaining self.new.end) (string_bytes text)) }
        ensures utf8 { IfOk result (λ text. IsUtf8 (string_bytes text)) }
        ensures not_utf8 { IsErrOf result ReadError.NotUtf8 →
            ReadsNoText (R.remaining self.old.end) (R.remaining self.new.end) }
        ensures reads { IfOk result (λ text.
            ReadsToEnd R.reads self.old.end (string_bytes text) self.new.end) }
        ensures stops { IfErr result (λ error.
            ReadStops R.reads self.old.end error self.new.end) }
        ensures retried { IfErr result IsNoInterruption }
        ensures mark { self.new.marked ≡ (self.old.marked || is_failed_read result) }
    {
        let bytes = self.read_all(alloc)?;
        text_of(bytes)
    }
}

// The bytes as a text, without a copy.
fn text_of<A: Allocator>(bytes: Vec<u8, A>) -> Result<String<A>, ReadError>
    ensures ok { IfOk result (λ text. string_bytes text ≡ bytes.items) }
    ensures succeeds { IsOk result ↔ IsUtf8 bytes.items }
    ensures fault { IfErr result (λ error. error ≡ ReadError.NotUtf8) }
{
    String::from_utf8(bytes).map_err(|_| ReadError::NotUtf8)
}

impl<W: Sink> Watched<W> {
    /// Writes some of the bytes by one write of the writer, and returns its result. An error sets the mark, of whatever
    /// kind it is, and so does a write of at least one byte that takes none: its result is `Ok(0)`, and yet it has
    /// failed. No error is an interruption, since an interrupted write is made again.
    pub fn write(&mut self, buf: &[u8]) -> io::Result<usize>
        ensures bound { WritesAtMost result buf.now }
        ensures retried { IfErr result (λ error. error_kind error ≢ ErrorKind.Interrupted) }
        ensures bytes { WriteAppends (W.contents self.old.end) (W.contents self.new.end)
            result buf.now }
        ensures called { W.writes self.old.end result buf.now self.new.end }
        ensures mark { self.new.marked ≡ (self.old.marked || is_failed_write result buf.now) }
    {
        let result = self.inner.write(buf);
        self.has_failed |= match result {
            Ok(taken) => taken == 0 && !buf.is_empty(),
            Err(_) => true,
        };
        result
    }

    /// Writes all of the bytes, in as many writes as the writer takes. The first that fails ends it with its
    /// error, and then the writer has a beginning of the bytes, and not all of them.
    /// A write that takes none gives `WriteZero`.
    pub fn write_all(&mut self, buf: &[u8]) -> io::Result<()>
        ensures retried { IfErr result (λ error. error_kind error ≢ ErrorKind.Interrupted) }
        ensures ok { OnOk result (
            Appends (W.contents self.old.end) (W.contents self.new.end) buf.now) }
        ensures cut_short { OnErr result (
            AppendsPart (W.contents self.old.end) (W.contents self.new.end) buf.now) }
        ensures writes { OnOk result (Moves W.writes self.old.end buf.now self.new.end) }
        ensures stops { IfErr result (λ error.
            WriteFails W.writes self.old.end buf.now error self.new.end) }
        ensures mark { self.new.marked ≡ (self.old.marked || is_err result) }
    {
        let mut rest = buf;
        while !rest.is_empty() {
            let taken = self.write(rest)?;
            if taken == 0 {
                return Err(ErrorKind::WriteZero.into());
            }
            rest = &rest[taken..];
        }
        Ok(())
    }
}
