//! The ends of a run of an engine, how it ends, and whether its ends have seen the same.

use crate::stand_ins::scripts::{Script, ScriptedReader, ScriptedWriter};
use watched::Watched;

/// What a run reads and should write, and how its ends answer.
#[derive(Clone, Copy)]
pub struct Ends<'a> {
    pub input: &'a [u8],
    pub page: &'a [u8],
    reads: Script<'a>,
    writes: Script<'a>,
}

impl<'a> Ends<'a> {
    /// Each call moves all that there is room for.
    pub fn new(input: &'a [u8], page: &'a [u8]) -> Ends<'a> {
        Ends {
            input,
            page,
            reads: Script::WHOLE,
            writes: Script::WHOLE,
        }
    }

    /// The same, with a reader that answers by this script.
    pub fn reading(mut self, reads: Script<'a>) -> Ends<'a> {
        self.reads = reads;
        self
    }

    /// The same, with a writer that answers by this script.
    pub fn writing(mut self, writes: Script<'a>) -> Ends<'a> {
        self.writes = writes;
        self
    }

    pub fn reader(&self) -> ScriptedReader<'a> {
        ScriptedReader::new(self.input, self.reads)
    }

    pub fn writer(&self) -> ScriptedWriter<'a> {
        ScriptedWriter::new(self.page, self.writes)
    }

    /// Whether a run over this reader ends as its calls say, with the mark exactly where one failed.
    pub fn have_read(&self, ending: Ending, reader: Watched<ScriptedReader<'_>>) -> bool {
        let is_marked = reader.failed();
        let read = reader.into_inner().calls.read();
        match ending {
            Ending::ReadFailed => is_marked && matches!(read, Some(Err(_))),
            // A growth may be refused before the end.
            Ending::NoMemory => !is_marked,
            _ => !is_marked && read == Some(Ok(self.input.len())),
        }
    }

    /// Whether a run over this writer, which should be offered the page, ends as its calls say, and the mark stands
    /// exactly where one failed. No call comes where there is no page.
    pub fn have_written(&self, ending: Ending, writer: Watched<ScriptedWriter<'_>>) -> bool {
        let is_marked = writer.failed();
        let calls = writer.into_inner().calls;
        let written = calls.written(self.page.len());
        match ending {
            Ending::Done => !is_marked && written == Some(Ok(())),
            Ending::WriteFailed => is_marked && matches!(written, Some(Err(_))),
            _ => !is_marked && calls.count == 0,
        }
    }
}

/// How a run ends, as it says itself.
#[derive(Clone, Copy, PartialEq, Eq)]
pub enum Ending {
    Done,
    ReadFailed,
    WriteFailed,
    NoMemory,
    BadInput,
}
