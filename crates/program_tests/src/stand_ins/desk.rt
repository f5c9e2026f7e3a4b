//! A runtime for tests: known words and a known input, ends that answer by a script, and what should be printed.

ghost use Rattle.std.specs.Io.{WritesAtMost};
ghost use Rattle.std.specs.Prelude.{◌≡◌, ◌+◌, IfOk, string_len};

use crate::stand_ins::folder::{Folder, FolderFile, unsupported};
use crate::stand_ins::lines::Line;
use crate::stand_ins::runs::Ends;
use crate::stand_ins::scripts::{ScriptedReader, ScriptedWriter};
use std::alloc::{Allocator, Global};
use std::cell::Cell;
use std::env::FillError;
use std::fmt::{Display, Write as _};
use std::fs::{Metadata, OpenOptions};
use std::io;
use std::io::{BufRead, BufReader, ErrorKind, Lines, Write};
use std::random::RandomSource;
use std::rt::{Env, Files};

/// The byte after each word that cannot be read: no text holds it.
const GARBLE: u8 = 0xFF;

/// What a program is run on, and what it should print.
#[derive(Drop)]
pub struct Desk<'a> {
    global: Global,
    pub words: &'a str,
    garbles_words: bool,
    variable: Option<(&'a str, &'a [u8])>,
    input: ScriptedReader<'a>,
    output: Cell<ScriptedWriter<'a>>,
    said: Cell<Line<'a>>,
    folder: Option<&'a Folder>,
}

impl<'a> Desk<'a> {
    /// The words, which have bars between them, begin with the program's name. Standard input and standard output are
    /// these ends, and this line should be written on standard error.
    pub fn new(global: Global, words: &'a str, ends: Ends<'a>, line: &'a str) -> Desk<'a> {
        Desk {
            global,
            words,
            garbles_words: false,
            variable: None,
            input: ends.reader(),
            output: Cell::new(ends.writer()),
            said: Cell::new(Line::new(line)),
            folder: None,
        }
    }

    /// The same, with a folder.
    pub fn with_folder(mut self, folder: &'a Folder) -> Desk<'a> {
        self.folder = Some(folder);
        self
    }

    /// The same, but no word after the program's name is a text, so the words cannot be read.
    pub fn garbled(mut self) -> Desk<'a> {
        self.garbles_words = true;
        self
    }

    /// The same, with an environment whose variable COLUMNS has these bytes.
    pub fn on_terminal(self, columns: &'a [u8]) -> Desk<'a> {
        self.with_variable("COLUMNS", columns)
    }

    /// The same, with an environment that has this variable alone.
    pub fn with_variable(mut self, name: &'a str, bytes: &'a [u8]) -> Desk<'a> {
        self.variable = Some((name, bytes));
        self
    }

    /// Whether that many bytes of the page were written and nothing else, and the line where it should be.
    pub fn has_printed(&self, count: usize, says: bool) -> bool {
        let calls = self.output.get().calls;
        let said = self.said.get();
        calls.fit
            && calls.moved == count
            && if says {
                said.is_full()
            } else {
                said.is_untouched()
            }
    }
}

// Puts bytes at the front of room for one more than they are.
fn put_into(buf: &mut [u8], bytes: &[u8]) -> Result<usize, FillError>
    ensures bound { WritesAtMost result buf.new }
{
    if buf.len() <= bytes.len() {
        return Err(FillError::TooLong);
    }
    buf[..bytes.len()].copy_from_slice(bytes);
    Ok(bytes.len())
}

impl Env for Desk<'_> {
    fn set_current_dir(&self, path: &str) -> io::Result<()> {
        match self.folder {
            Some(folder) => folder.enter(path),
            None => unsupported(),
        }
    }

    fn arg(&self, i: usize, buf: &mut [u8]) -> Result<usize, FillError> {
        let Some(word) = self.words.split('|').nth(i) else {
            return Err(FillError::NotPresent);
        };
        let bytes = word.as_bytes();
        // Room for one byte more than the word has.
        if buf.len() <= bytes.len() {
            return Err(FillError::TooLong);
        }
        buf[..bytes.len()].copy_from_slice(bytes);
        if !self.garbles_words || i == 0 {
            return Ok(bytes.len());
        }
        buf[bytes.len()] = GARBLE;
        Ok(bytes.len() + 1)
    }

    fn var(&self, name: &str, buf: &mut [u8]) -> Result<usize, FillError> {
        match self.variable {
            Some((variable, bytes)) if name == variable => put_into(buf, bytes),
            _ => Err(FillError::NotPresent),
        }
    }

    fn var_at(&self, _i: usize, _buf: &mut [u8]) -> Result<usize, FillError> {
        Err(FillError::NotPresent)
    }
}

impl<'a> Input for Desk<'a> {
    type Reader = BufReader<ScriptedReader<'a>>;

    fn read_line<A: Allocator + Clone>(&self, _buf: &mut String<A>) -> io::Result<usize> {
        unsupported()
    }

    fn lines<A: Allocator>(&self, alloc: A) -> Lines<BufReader<ScriptedReader<'a>>, A> {
        self.reader().lines(alloc)
    }

    // Without a buffer of its own the reader passes each call on.
    fn reader(&self) -> BufReader<ScriptedReader<'a>> {
        BufReader::with_capacity(self.global, 0, self.input).unwrap()
    }
}

// There are no files except those of the folder.
impl<'a> Files for Desk<'a> {
    type File = FolderFile<'a>;

    type Dir = &'static [u8];

    fn open_file(&self, how: &OpenOptions, path: &str) -> io::Result<FolderFile<'a>> {
        let Some(folder) = self.folder else {
            return Err(io::Error::from(ErrorKind::NotFound));
        };
        folder.open(how, path)
    }

    fn open_dir(&self, path: &str) -> io::Result<&'static [u8]> {
        match self.folder {
            Some(folder) => folder.list(path),
            None => unsupported(),
        }
    }

    fn metadata(&self, _path: &str) -> io::Result<Metadata> {
        unsupported()
    }

    fn symlink_metadata(&self, path: &str) -> io::Result<Metadata> {
        match self.folder {
            Some(folder) => folder.look(path),
            None => unsupported(),
        }
    }

    fn copy(&self, _from: &str, _to: &str) -> io::Result<u64> {
        unsupported()
    }

    fn rename(&self, from: &str, to: &str) -> io::Result<()> {
        match self.folder {
            Some(folder) => folder.rename(from, to),
            None => unsupported(),
        }
    }

    fn remove_file(&self, path: &str) -> io::Result<()> {
        match self.folder {
            Some(folder) => folder.remove_file(path),
            None => unsupported(),
        }
    }

    fn create_dir(&self, _path: &str) -> io::Result<()> {
        unsupported()
    }

    fn remove_dir(&self, _path: &str) -> io::Result<()> {
        unsupported()
    }

    fn remove_dir_all<B: Allocator>(&self, _alloc: B, _path: &str) -> io::Result<()> {
        unsupported()
    }
}

impl RandomSource for Desk<'_> {
    fn fill_bytes(&self, buf: &mut [u8]) -> io::Result<()> {
        match self.folder {
            Some(folder) => folder.draw(buf),
            None => unsupported(),
        }
    }
}

impl Print for Desk<'_> {
    fn print<D: Display + Drop>(&self, _value: D) -> io::Result<()> {
        unsupported()
    }

    fn println<D: Display + Drop>(&self, _value: D) -> io::Result<()> {
        unsupported()
    }

    fn write_all(&self, _bytes: &[u8]) -> io::Result<()> {
        unsupported()
    }

    fn write_some(&self, bytes: &[u8]) -> io::Result<usize> {
        let mut output = self.output.get();
        let written = output.write(bytes);
        self.output.set(output);
        written
    }
}

impl Eprint for Desk<'_> {
    fn eprint<D: Display + Drop>(&self, _value: D) -> io::Result<()> {
        unsupported()
    }

    fn eprintln<D: Display + Drop>(&self, value: D) -> io::Result<()> {
        let mut said = self.said.get();
        let written = write!(said, "{value}");
        self.said.set(said);
        Ok(written?)
    }
}
