//! Readers and writers with a bound on their bytes.

ghost use Rattle.std.specs.Io.{ReadsAtMost};
ghost use Rattle.std.specs.Io.KnownBytes.{ReadConsumes};
ghost use Rattle.std.specs.Prelude.{◌≡◌, [], None, IfOk};

use std::io;
use std::io::{ErrorKind, Read, Write};

/// A reader that fails where it would give more bytes than the bound, or a writer that fails where it is to take more,
/// and then takes none.
#[derive(Drop)]
pub struct Bounded<E> {
    inner: E,
    most: usize,
    left: usize,
    is_over: bool,
}

impl<E> Bounded<E> {
    /// A reader that gives, or a writer that takes, at most `most` bytes.
    pub fn new(inner: E, most: usize) -> Bounded<E> {
        Bounded {
            inner,
            most,
            left: most,
            is_over: false,
        }
    }

    /// How many bytes it gave or took.
    pub fn moved(&self) -> usize {
        self.most.saturating_sub(self.left)
    }

    /// Whether there were more bytes than it may give or take.
    pub fn is_over(&self) -> bool {
        self.is_over
    }
}

impl<R: Read> Bounded<R> {
    // A byte more would be one too many.
    fn look_further(&mut self) -> io::Result<usize>
        ensures { IfOk result (λ taken. taken ≡ 0) }
    {
        if self.inner.read(&mut [0])? == 0 {
            return Ok(0);
        }
        self.is_over = true;
        Err(ErrorKind::FileTooLarge.into())
    }
}

impl<R: Read> Read for Bounded<R> {
    // A read into no room asks for no byte, also where the bound was reached.
    fn read(&mut self, buf: &mut [u8]) -> io::Result<usize>
        ensures bound { ReadsAtMost result buf.new }
        ensures bytes { ReadConsumes None None result buf.new }
        ensures empty { buf.old ≡ [] → self.new ≡ self.old }
    {
        if buf.is_empty() {
            return Ok(0);
        }
        if self.left == 0 {
            return self.look_further();
        }
        let room = self.left.min(buf.len());
        let taken = self.inner.read(&mut buf[..room])?;
        self.left -= taken;
        Ok(taken)
    }
}

impl<W: Write> Write for Bounded<W> {
    fn write(&mut self, buf: &[u8]) -> io::Result<usize> {
        if buf.len() > self.left {
            self.is_over = true;
            return Err(ErrorKind::FileTooLarge.into());
        }
        let taken = self.inner.write(buf)?;
        self.left -= taken;
        Ok(taken)
    }

    fn flush(&mut self) -> io::Result<()> {
        self.inner.flush()
    }
}
