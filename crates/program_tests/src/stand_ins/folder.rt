//! A folder that knows which calls on it are to come, and may fail at one of them.

ghost use Rattle.std.specs.Prelude.{IsErr};

use std::cell::Cell;
use std::fs::{Metadata, OpenFile, OpenOptions, Permissions};
use std::io;
use std::io::{ErrorKind, Read, Seek, SeekFrom, Write};
use std::os::unix::fs::PermissionsExt;

/// What stands where a page is to be written.
#[derive(Clone, Copy)]
pub enum Stands {
    Nothing,
    File,
    Link,
    Folder,
}

/// A folder, on which these calls should come: `enter PATH`, `list PATH`, `look PATH`, `draw`, `create PATH`, `mode`,
/// `write BYTES` of all bytes at once, `keep FILE`, `rename PATH PATH`, `remove PATH` and `open PATH`.
#[derive(Drop)]
pub struct Folder {
    calls: &'static [&'static str],
    fails_at: Option<(usize, ErrorKind)>,
    then: &'static [&'static str],
    stands: Stands,
    file: Option<(&'static str, &'static [u8])>,
    names: &'static [u8],
    count: Cell<usize>,
    draws: Cell<u8>,
    fit: Cell<bool>,
}

impl Folder {
    /// None of the calls fails, and the folder holds nothing.
    pub fn new(calls: &'static [&'static str]) -> Folder {
        Folder {
            calls,
            fails_at: None,
            then: &[],
            stands: Stands::Nothing,
            file: None,
            names: b"",
            count: Cell::new(0),
            draws: Cell::new(0),
            fit: Cell::new(true),
        }
    }

    /// The same, but the call of this number, counted from 0, fails, and after it come these.
    pub fn failing(
        mut self,
        call: usize,
        kind: ErrorKind,
        then: &'static [&'static str],
    ) -> Folder {
        self.fails_at = Some((call, kind));
        self.then = then;
        self
    }

    /// The same, but this stands where each page is to be written.
    pub fn holding(mut self, stands: Stands) -> Folder {
        self.stands = stands;
        self
    }

    /// The same, but a file of this name with these bytes can be opened.
    pub fn with_file(mut self, name: &'static str, bytes: &'static [u8]) -> Folder {
        self.file = Some((name, bytes));
        self
    }

    /// The same, but it lists these names, each with a NUL after it.
    pub fn listing(mut self, names: &'static [u8]) -> Folder {
        self.names = names;
        self
    }

    /// Whether these calls came, and no others.
    pub fn is_done(&self) -> bool {
        let whole = match self.fails_at {
            Some((call, _)) => call.saturating_add(1).saturating_add(self.then.len()),
            None => self.calls.len(),
        };
        self.fit.get() && self.count.get() == whole
    }

    /// Whether no file was touched.
    pub fn is_untouched(&self) -> bool {
        self.count.get() <= 1
    }

    // The call that should come now, or nothing.
    fn next(&self) -> &'static str {
        let index = self.count.get();
        self.count.set(index.saturating_add(1));
        match self.fails_at {
            Some((call, _)) if index > call => self
                .then
                .get(index - call - 1)
                .copied()
                .unwrap_or(""),
            _ => self.calls.get(index).copied().unwrap_or(""),
        }
    }

    fn call(&self, verb: &str, path: &str, rest: &[u8]) -> io::Result<()> {
        let index = self.count.get();
        if !is_call(self.next(), verb, path, rest) {
            self.fit.set(false);
        }
        match self.fails_at {
            Some((call, kind)) if call == index => Err(io::Error::from(kind)),
            _ => Ok(()),
        }
    }

    pub fn enter(&self, path: &str) -> io::Result<()> {
        self.call("enter ", path, b"")
    }

    pub fn list(&self, path: &str) -> io::Result<&'static [u8]> {
        self.call("list ", path, b"")?;
        Ok(self.names)
    }

    /// What stands there itself, and not what a link leads to.
    pub fn look(&self, path: &str) -> io::Result<Metadata> {
        self.call("look ", path, b"")?;
        match self.stands {
            Stands::Nothing => Err(io::Error::from(ErrorKind::NotFound)),
            Stands::File => Ok(Metadata::of_file(7)),
            Stands::Link => Ok(Metadata::of_symlink(7)),
            Stands::Folder => Ok(Metadata::of_dir()),
        }
    }

    /// Bytes that differ each time.
    pub fn draw(&self, bytes: &mut [u8]) -> io::Result<()> {
        self.call("draw", "", b"")?;
        let draw = self.draws.get();
        self.draws.set(draw.wrapping_add(1));
        bytes.fill(draw);
        Ok(())
    }

    pub fn rename(&self, from: &str, to: &str) -> io::Result<()> {
        self.call("rename ", from, to.as_bytes())
    }

    pub fn remove_file(&self, path: &str) -> io::Result<()> {
        self.call("remove ", path, b"")
    }

    /// A file that is created, where nothing stands, or the one that can be opened, or the folder itself.
    pub fn open(&self, how: &OpenOptions, path: &str) -> io::Result<FolderFile<'_>> {
        how.check()?;
        if how.asks_create_new() {
            self.call("create ", path, b"")?;
            return Ok(FolderFile::new(self, false, b""));
        }
        if path == "." {
            self.call("open ", path, b"")?;
            return Ok(FolderFile::new(self, true, b""));
        }
        match self.file {
            Some((name, bytes)) if name == path => {
                self.call("open ", path, b"")?;
                Ok(FolderFile::new(self, false, bytes))
            }
            _ => Err(io::Error::from(ErrorKind::NotFound)),
        }
    }
}

// Whether a call is written so. Blanks stand between its parts, and no page begins with one.
fn is_call(told: &str, verb: &str, path: &str, rest: &[u8]) -> bool {
    let Some(told) = told.strip_prefix(verb) else {
        return false;
    };
    match told.strip_prefix(path) {
        Some(left) => left.trim_start().as_bytes() == rest,
        None => false,
    }
}

/// A file of a folder, or the folder as one.
#[derive(Drop)]
pub struct FolderFile<'a> {
    folder: &'a Folder,
    is_folder: bool,
    left: &'static [u8],
}

impl<'a> FolderFile<'a> {
    fn new(folder: &'a Folder, is_folder: bool, left: &'static [u8]) -> FolderFile<'a> {
        FolderFile {
            folder,
            is_folder,
            left,
        }
    }
}

pub fn unsupported<T>() -> io::Result<T>
    ensures { IsErr result }
{
    Err(io::Error::from(ErrorKind::Unsupported))
}

impl Read for FolderFile<'_> {
    fn read(&mut self, buf: &mut [u8]) -> io::Result<usize> {
        let mut left = self.left;
        let taken = left.read(buf)?;
        self.left = left;
        Ok(taken)
    }
}

impl Write for FolderFile<'_> {
    fn write(&mut self, buf: &[u8]) -> io::Result<usize> {
        self.folder.call("write ", "", buf)?;
        Ok(buf.len())
    }

    fn flush(&mut self) -> io::Result<()> {
        Ok(())
    }
}

impl Seek for FolderFile<'_> {
    fn seek(&mut self, _to: SeekFrom) -> io::Result<u64> {
        unsupported()
    }
}

impl OpenFile for FolderFile<'_> {
    fn metadata(&self) -> io::Result<Metadata> {
        if self.is_folder {
            Ok(Metadata::of_dir())
        } else {
            Ok(Metadata::of_file(0))
        }
    }

    fn set_len(&self, _size: u64) -> io::Result<()> {
        unsupported()
    }

    fn sync_all(&self) -> io::Result<()> {
        let kept = if self.is_folder { "folder" } else { "file" };
        self.folder.call("keep ", kept, b"")
    }

    fn sync_data(&self) -> io::Result<()> {
        unsupported()
    }

    fn set_permissions(&self, perm: Permissions) -> io::Result<()> {
        if perm.mode() != 0o644 {
            return unsupported();
        }
        self.folder.call("mode", "", b"")
    }
}
