//! What the program does, over any reader and any writer.

ghost use Rattle.std.specs.Prelude.{◌≡◌, ◌≢◌, ◌∷◌, ◌++◌, [], ℕ, List, IfOk, OnOk};
ghost use Rattle.std.specs.Io.KnownBytes.{Appends};
ghost use Rattle.replay.specs.Replay.{AreAnswers, IsAnswered, IsOneLine, Replays, Replies, is_passed_over};

use crate::fault::Bad;
use crate::lines::{Lines, has_newline};
use std::alloc::Global;
use std::io::{BufRead, Write};
use std::str;

/// What answers lines.
pub trait Answerer {
    /// Adds the answers to a line. It is never asked for those of an empty line, or of one that begins with `#`.
    fn add_answers(&mut self, line: &str, lines: &mut Lines) -> Result<(), Bad>;
}

/// Why a run stops before the end of its input.
#[derive(Clone, Copy)]
pub enum Stop {
    /// A read failed, or memory did not last for a line.
    Read,
    /// A write failed, or took nothing.
    Write,
    /// The reader gave 2^64 - 1 lines and has not come to its end.
    Endless,
}

/// Reads lines up to the end, and writes each with its answers. A line is kept until it is answered, and no longer.
///
/// After an error the lines before have been written with their answers, and perhaps a beginning of the next one and
/// its answers.
pub fn run<T: Answerer, R: BufRead, W: Write>(
    alloc: Global,
    answerer: &mut T,
    reader: &mut R,
    writer: &mut W,
) -> Result<(), Stop>
    ensures { OnOk result (Replays (R.remaining reader.old) (R.remaining reader.new)
        (W.contents writer.old) (W.contents writer.new)) }
{
    let mut line = Vec::new(alloc);
    for _ in 0..u64::MAX {
        line.clear();
        match reader.read_until(b'\n', &mut line) {
            Ok(_) => {}
            Err(_) => return Err(Stop::Read),
        }
        if has_newline(&line) {
            line.pop();
            reply(alloc, answerer, &line, writer)?;
        } else {
            return last_reply(alloc, answerer, &line, writer);
        }
    }
    Err(Stop::Endless)
}

// The input ended, perhaps within a line.
fn last_reply<T: Answerer, W: Write>(
    alloc: Global,
    answerer: &mut T,
    line: &[u8],
    writer: &mut W,
) -> Result<(), Stop>
    requires { IsOneLine line.now }
    ensures { OnOk result ((output : List ℕ) × Replies line.now output
        × Appends (W.contents writer.old) (W.contents writer.new) output) }
{
    if line.is_empty() {
        return Ok(());
    }
    reply(alloc, answerer, line, writer)
}

// Writes a line, a newline, and its answers.
fn reply<T: Answerer, W: Write>(
    alloc: Global,
    answerer: &mut T,
    line: &[u8],
    writer: &mut W,
) -> Result<(), Stop>
    ensures { OnOk result ((answers : List ℕ) × IsAnswered line.now answers
        × Appends (W.contents writer.old) (W.contents writer.new) (line.now ++ 10 ∷ answers)) }
{
    write(writer, line)?;
    write(writer, b"\n")?;
    write_answers(alloc, answerer, line, writer)
}

// Writes what stands below a line.
fn write_answers<T: Answerer, W: Write>(
    alloc: Global,
    answerer: &mut T,
    line: &[u8],
    writer: &mut W,
) -> Result<(), Stop>
    ensures { OnOk result ((answers : List ℕ) × IsAnswered line.now answers
        × Appends (W.contents writer.old) (W.contents writer.new) answers) }
{
    if is_passed_over(line) {
        return Ok(());
    }
    match answers(alloc, answerer, line) {
        Ok(lines) => write(writer, lines.as_str().as_bytes()),
        Err(bad) => write_bad(bad, writer),
    }
}

// An empty line and a remark have no answer.
fn is_passed_over(line: &[u8]) -> bool
    ensures { result ≡ is_passed_over line.now }
{
    line.is_empty() || line[0] == b'#'
}

// The answers to the request of a line.
fn answers<T: Answerer>(alloc: Global, answerer: &mut T, line: &[u8]) -> Result<Lines, Bad>
    ensures some { IfOk result (λ lines. lines ≢ []) }
{
    let mut lines = Lines::new(alloc);
    match str::from_utf8(line) {
        Ok(text) => answerer.add_answers(text, &mut lines)?,
        Err(_) => return Err(Bad::Words("the line is not UTF-8")),
    }
    if lines.as_str().is_empty() {
        return Err(Bad::Words("there is no answer"));
    }
    Ok(lines)
}

// Writes why a line has no answer.
fn write_bad<W: Write>(bad: Bad, writer: &mut W) -> Result<(), Stop>
    ensures { OnOk result ((answers : List ℕ) × AreAnswers answers × (answers ≢ [])
        × Appends (W.contents writer.old) (W.contents writer.new) answers) }
{
    write(writer, b"= BAD ")?;
    write(writer, reason(bad).as_bytes())?;
    write(writer, b"\n")
}

// Why there is no answer, in one line.
fn reason(bad: Bad) -> &'static str
    ensures { IsOneLine result.now }
{
    match bad {
        Bad::Words(why) if !has_newline(why.as_bytes()) => why,
        Bad::Words(_) => "for a reason of many lines",
        Bad::Memory => "no memory",
    }
}

fn write<W: Write>(writer: &mut W, bytes: &[u8]) -> Result<(), Stop>
    ensures { OnOk result (Appends (W.contents writer.old) (W.contents writer.new) bytes.now) }
{
    writer.write_all(bytes).map_err(|_| Stop::Write)
}
