//! A text cut into chunks: words, blanks, line breaks, paragraph breaks and code lines.

ghost use Rattle.std.specs.Prelude.{◌≡◌, ◌≢◌, ◌<◌, ◌≤◌, [], ◌∷◌, ◌++◌, length, take, IfNone, IfSome, IsTrue, IsUtf8};
ghost use Rattle.std.specs.Prelude.{List, MatchBool, MatchOption, codes, ℕ};
ghost use Rattle.std.specs.Char.{is_ascii_graphic};
ghost use Rattle.std.specs.Int.{is_in_range};
ghost use Rattle.std.specs.Iterator.{YieldsFirstBy, item_count};
ghost use Rattle.std.specs.List.{All, flat_map, list_all};
ghost use Rattle.bpaf_doc.specs.Splitter.Chunks.{Raw, Paragraph, Plain, Opening, Later, Spells, IsLine, IsLineEnd};
ghost use Rattle.bpaf_doc.specs.Splitter.Chunks.{IsPastNewline, IsWordEnd, chunk_ink, chunks_in, chunks_of};
ghost use Rattle.bpaf_doc.specs.Splitter.Chunks.{code_weight, columns, is_word_byte};
ghost use Rattle.bpaf_doc.specs.Splitter.Promises.{IsOneLine, StandInOrder};
ghost use Rattle.bpaf_doc.specs.Buffer.Parts.{ink};
ghost use Rattle.bpaf_doc.specs.Splitter.Steps.{IsRun, IsRunEnd, IsLettered, is_lettered, letters};
ghost use Rattle.bpaf_doc.specs.Splitter.View.{chunk_of};

use memchr::{memchr, memrchr};
use std::marker::Model;
use unicode_width::UnicodeWidthStr;

/// One piece of a text.
#[derive(Clone, Copy, Debug, PartialEq, Eq)]
pub enum Chunk<'a> {
    /// A slice of the text with its weight: the columns of a word or a blank, or the mark of a code line or of a line
    /// of a fence. A newline that stands for a blank is `" "`.
    Raw(&'a str, usize),
    /// An empty line: what follows is another paragraph.
    Paragraph,
    /// A newline and a blank after it: what follows begins a line of its own.
    LineBreak,
}

impl Chunk<'_> {
    /// The weight of a code line. A word of that many columns has the same weight.
    pub const CODE: usize = 1_000_000;

    /// The weight of a line of a fence. A word of that many columns has the same weight.
    pub const TICKED_CODE: usize = 1_000_001;
}

// How many bytes a run has at most. A word that short has fewer columns than the weight of a code line.
const LONGEST_RUN: usize = 300_000;

// How many bytes of a line are looked at together at most.
const MOST_COUNTED: usize = 255;

/// How the rest of a text is read.
#[derive(Clone, Copy, Debug, PartialEq, Eq)]
enum Form {
    /// Outside of a fence.
    Plain,
    /// From the opening line of a fence on.
    Opening,
    /// From a later line of a fence on.
    Later,
}

/// The chunks of a text, in order: an iterator that `split` makes.
#[derive(Debug, Drop)]
pub struct Splitter<'a> {
    rest: &'a str,
    form: Form,
}

impl<'a> Model for Splitter<'a> {
    ghost use Rattle.std.specs.Prelude.{List};
    ghost use Rattle.bpaf_doc.specs.Splitter.Chunks.{Chunk, chunks_in};
    ghost use Rattle.bpaf_doc.specs.Splitter.View.{form_of};

    ghost Value = { List Chunk };

    ghost view = { λ s. chunks_in (form_of s.form) s.rest.now };
}

/// The chunks of the text, in order. Cutting all of them takes time in proportion to the text's bytes, and no memory.
#[tactic(auto, using(crate::proofs::lemmas::Splitter::Facts::text_split))]
pub fn split(text: &str) -> Splitter<'_>
    ensures value { result ≡ chunks_of text.now }
    ensures spelled { Spells Plain result text.now }

    // No ink is lost, moved or added.
    ensures ink { flat_map chunk_ink result ≡ ink text.now }
    ensures one_line { All IsOneLine result }
    ensures in_order { StandInOrder text.now 0 result }
{
    Splitter {
        rest: text,
        form: Form::Plain,
    }
}

impl<'a> Iterator for Splitter<'a> {
    type Item = Chunk<'a>;

    ghost next_gives = { YieldsFirstBy chunk_of (λ left. left) };

    ghost remaining = { item_count (λ left. left) };

    // This and what it calls are inlined: a call passes a chunk through memory, which costs more than cutting it.
    #[tactic(auto, using(crate::proofs::lemmas::Splitter::FirstChunk::nothing_left))]
    #[inline(always)]
    fn next(&mut self) -> Option<Chunk<'a>> {
        if self.rest.is_empty() {
            return None;
        }
        let (chunk, left) = match self.form {
            Form::Plain => next_plain(self.rest),
            Form::Opening => next_opening(self.rest),
            Form::Later => next_later(self.rest),
        };
        *self = left;
        Some(chunk)
    }
}

// Runs: words of a line and the blanks between them, which can be shown together. Cut into chunks as a text of its own,
// a run gives the same chunks.
impl<'a> Splitter<'a> {
    /// Takes the rest of a line, or as much of it as a run may have. None where no word or blank of a line comes next,
    /// or a word that is too long.
    #[tactic(auto, using(crate::proofs::lemmas::Splitter::FirstChunk::plain_chunks))]
    #[inline(always)]
    pub(crate) fn take_line(&mut self) -> Option<&'a str>
        ensures run { IfSome result (λ run. IsRun run.now) }
        ensures chunks { IfSome result (λ run. self.old ≡ chunks_of run.now ++ self.new) }
        ensures none { IfNone result (self.new ≡ self.old) }
    {
        match self.form {
            Form::Plain => {
                let end = line_run_end(self.rest);
                if end == 0 {
                    return None;
                }
                let (run, after) = cut_run(self.rest, end);
                *self = after;
                Some(run)
            }
            Form::Opening | Form::Later => None,
        }
    }

    /// Takes a code line. None where something else comes next.
    #[inline(always)]
    pub(crate) fn take_code(&mut self) -> Option<&'a str>
        ensures chunks { IfSome result (λ line. self.old ≡ Raw line.now code_weight ∷ self.new) }
        ensures none { IfNone result (self.new ≡ self.old) }
    {
        match self.form {
            Form::Plain => {
                let (line, after) = cut_code(self.rest)?;
                *self = after;
                Some(line)
            }
            Form::Opening | Form::Later => None,
        }
    }

    /// Takes two blanks. Returns whether they came next.
    #[inline(always)]
    pub(crate) fn take_blanks(&mut self) -> bool
        ensures { MatchBool result (self.old ≡ Raw (codes " ") 1 ∷ Raw (codes " ") 1 ∷ self.new) (self.new ≡ self.old) }
    {
        match self.form {
            Form::Plain => match self.rest.strip_prefix("  ") {
                Some(rest) => {
                    *self = split(rest);
                    true
                }
                None => false,
            },
            Form::Opening | Form::Later => false,
        }
    }

    /// Takes as many words of a line as fit these columns and have only printable ASCII and Latin letters. Returns them
    /// with the columns that they take. None where none fits.
    #[tactic(auto, using(crate::proofs::lemmas::Splitter::FirstChunk::plain_chunks))]
    #[inline(always)]
    pub(crate) fn take_fitting(&mut self, columns: usize) -> Option<(&'a str, usize)>
        ensures line { IfSome result (λ run. IsLine run.0.now) }
        ensures text { IfSome result (λ run. IsUtf8 run.0.now) }
        ensures lettered { IfSome result (λ run. IsLettered run.0.now) }
        ensures taken { IfSome result (λ run. run.1 ≡ letters run.0.now) }
        ensures fits { IfSome result (λ run. run.1 ≤ columns) }
        ensures chunks { IfSome result (λ run. self.old ≡ chunks_of run.0.now ++ self.new) }
        ensures none { IfNone result (self.new ≡ self.old) }
    {
        match self.form {
            Form::Plain => {
                let (end, taken) = fitting_run_end(self.rest, columns);
                if end == 0 {
                    return None;
                }
                let (run, after) = cut_run(self.rest, end);
                *self = after;
                Some((run, taken))
            }
            Form::Opening | Form::Later => None,
        }
    }
}

// The code line that a text outside of a fence begins with, and the chunks after it. It looks at bytes, since
// `strip_prefix` is a call.
#[tactic(auto, using(crate::proofs::lemmas::Splitter::CodeLines::code_cut))]
#[inline(always)]
fn cut_code(text: &str) -> Option<(&str, Splitter<'_>)>
    ensures { IfSome result (λ cut. chunks_in Plain text.now ≡ Raw cut.0.now code_weight ∷ cut.1) }
{
    if !begins_code(text.as_bytes()) {
        return None;
    }
    let (_, code) = text.split_at(5);
    let (line, rest) = cut_line(code);
    Some((line, split(rest)))
}

// Whether the text begins with a newline and four blanks.
#[inline(always)]
fn begins_code(bytes: &[u8]) -> bool
    ensures { IsTrue result → take 5 bytes.now ≡ codes "\n    " }
{
    matches!(bytes, [b'\n', b' ', b' ', b' ', b' ', ..])
}

// The run of a text up to this place, and the chunks after it.
#[inline(always)]
fn cut_run(text: &str, end: usize) -> (&str, Splitter<'_>)
    requires { IsRunEnd text.now end }
    ensures run { result.0.now ≡ take end text.now }
    ensures text { IsUtf8 result.0.now }
    ensures chunks { chunks_of text.now ≡ chunks_of result.0.now ++ result.1 }
{
    let (run, rest) = text.split_at(end);
    (run, split(rest))
}

// The place up to which the text is a run: the end of its line, or of the last word that a run has room for. 0 where
// there is no run.
#[inline(always)]
fn line_run_end(text: &str) -> usize
    ensures run { 0 < result → IsRunEnd text.now result }
    ensures short { result ≤ 300_000 }
{
    match text.as_bytes() {
        [] | [b'\n', ..] => 0,
        bytes => first_line_end(bytes, LONGEST_RUN),
    }
}

// The place up to which these bytes are a run of at most `longest`, or 0.
fn first_line_end(bytes: &[u8], longest: usize) -> usize
    ensures run { 0 < result → IsRunEnd bytes.now result }
    ensures within { result ≤ length bytes.now }
    ensures short { result ≤ longest }
{
    let (window, _) = bytes.split_at(bytes.len().min(longest));
    if let Some(end) = memchr(b'\n', window) {
        return end;
    }
    if bytes.len() <= longest {
        return bytes.len();
    }
    memrchr(b' ', window).unwrap_or(0)
}

// The place up to which the text is a run of printable ASCII and Latin letters that has at most that many columns, and
// its columns. The place is 0 where there is no such run.
#[inline(always)]
fn fitting_run_end(text: &str, columns: usize) -> (usize, usize)
    ensures run { 0 < result.0 → IsRunEnd text.now result.0 }
    ensures lettered { IsLettered (take result.0 text.now) }
    ensures taken { result.1 ≡ letters (take result.0 text.now) }
    ensures fits { result.1 ≤ columns }
{
    let bytes = text.as_bytes();
    if begins_with_letters(bytes) {
        fitting_words_end(bytes, columns)
    } else {
        (0, 0)
    }
}

// Whether the first two bytes are of such characters, so that it is worthwhile to look at all that may fit.
#[inline(always)]
fn begins_with_letters(bytes: &[u8]) -> bool {
    bytes.len() > 1 && is_lettered(bytes[0]) && is_lettered(bytes[1])
}

// The words that would fit if each byte took a column are looked at together. Out of line, so that the caller's loop
// keeps its values in registers.
#[inline(never)]
fn fitting_words_end(bytes: &[u8], columns: usize) -> (usize, usize)
    ensures run { 0 < result.0 → IsRunEnd bytes.now result.0 }
    ensures lettered { IsLettered (take result.0 bytes.now) }
    ensures taken { result.1 ≡ letters (take result.0 bytes.now) }
    ensures fits { result.1 ≤ columns }
{
    let end = first_line_end(bytes, columns.saturating_add(1).min(MOST_COUNTED));
    let (words, _) = bytes.split_at(end);
    if are_lettered(words) {
        let taken = count_letters(words);
        if taken <= columns {
            return (end, taken);
        }
    }
    lettered_run_end(bytes, columns)
}

// Whether all bytes are of such characters. It does not stop at the first other byte, so that it looks at many at once.
fn are_lettered(bytes: &[u8]) -> bool
    ensures { result ≡ list_all is_lettered bytes.now }
{
    let mut lettered = true;
    for byte in bytes {
        lettered &= is_lettered(*byte);
    }
    lettered
}

// How many characters these bytes are. The counter is a byte, so that many are counted at once.
fn count_letters(bytes: &[u8]) -> usize
    requires { length bytes.now ≤ MOST_COUNTED }
    ensures { result ≡ letters bytes.now }
{
    let mut count: u8 = 0;
    for byte in bytes {
        count += begun(*byte);
    }
    usize::from(count)
}

// The end of such a run and its columns, byte by byte. Out of line: few texts have other characters.
#[tactic(auto, using(crate::proofs::lemmas::Splitter::Letters::lettered_ends))]
#[inline(never)]
fn lettered_run_end(bytes: &[u8], columns: usize) -> (usize, usize)
    ensures run { 0 < result.0 → IsRunEnd bytes.now result.0 }
    ensures lettered { IsLettered (take result.0 bytes.now) }
    ensures taken { result.1 ≡ letters (take result.0 bytes.now) }
    ensures fits { result.1 ≤ columns }
{
    let mut end = (0, 0);
    let mut at = 0;
    let mut taken = 0;
    'lettered: while at < bytes.len() && taken <= columns && is_lettered(bytes[at]) {
        if bytes[at] == b' ' {
            end = (at, taken);
        }
        taken += usize::from(begun(bytes[at]));
        at += 1;
    }
    if taken <= columns && is_line_end(&bytes[at..]) {
        (at, taken)
    } else {
        end
    }
}

// Printable ASCII, or one of the bytes of a Latin letter of two bytes.
#[inline(always)]
fn is_lettered(byte: u8) -> bool
    ensures { result ≡ is_lettered byte }
{
    (0x20..=0x7E).contains(&byte) || (0x80..=0xBF).contains(&byte) || (0xC3..=0xC8).contains(&byte)
}

// How many characters begin with this byte: one, or none where it is a later one of its character.
#[inline(always)]
fn begun(byte: u8) -> u8
    ensures { result ≡ letters (byte ∷ []) }
{
    if (0x80..=0xBF).contains(&byte) { 0 } else { 1 }
}

// Whether a newline or the end comes next.
fn is_line_end(rest: &[u8]) -> bool
    ensures { IsTrue result → IsLineEnd rest.now }
{
    matches!(rest, [] | [b'\n', ..])
}

// The first chunk of a text outside of a fence, and those after it.
#[tactic(auto, using(crate::proofs::lemmas::Splitter::FirstChunk::plain_first))]
#[inline(always)]
fn next_plain(text: &str) -> (Chunk<'_>, Splitter<'_>)
    requires { text.now ≢ [] }
    ensures { chunks_in Plain text.now ≡ chunk_of result.0 ∷ result.1 }
{
    if let Some(rest) = strip_byte(text, b'\n') {
        after_newline(rest)
    } else if let Some(rest) = strip_byte(text, b' ') {
        (Chunk::Raw(" ", 1), split(rest))
    } else {
        let (word, columns, rest) = cut_word(text);
        (Chunk::Raw(word, columns), split(rest))
    }
}

// The first chunk of a newline and this text, outside of a fence, and those after it.
#[inline(always)]
fn after_newline(text: &str) -> (Chunk<'_>, Splitter<'_>)
    ensures { chunks_in Plain (10 ∷ text.now) ≡ chunk_of result.0 ∷ result.1 }
{
    if let Some(rest) = strip_byte(text, b'\n') {
        (Chunk::Paragraph, after_paragraph(text, rest))
    } else if let Some(rest) = strip_byte(text, b' ') {
        if let Some(code) = text.strip_prefix("    ") {
            let (line, rest) = cut_line(code);
            (Chunk::Raw(line, Chunk::CODE), split(rest))
        } else {
            (Chunk::LineBreak, split(rest))
        }
    } else {
        (Chunk::Raw(" ", 1), split(text))
    }
}

// The text after this byte, if it begins with it. `strip_prefix` would decode a character first.
#[inline(always)]
fn strip_byte(text: &str, byte: u8) -> Option<&str>
    requires { byte < 128 }
    ensures { MatchOption result ((rest : List ℕ) → text.now ≢ byte ∷ rest) (λ rest. text.now ≡ byte ∷ rest.now) }
{
    let bytes = text.as_bytes();
    if bytes.is_empty() || bytes[0] != byte {
        return None;
    }
    let (_, rest) = text.split_at(1);
    Some(rest)
}

// What is left of two newlines and the text after their paragraph break. `line` is the second newline and the text.
#[tactic(auto, using(crate::proofs::lemmas::Splitter::FirstChunk::after_newlines))]
#[inline(always)]
fn after_paragraph<'a>(line: &'a str, text: &'a str) -> Splitter<'a>
    requires { line.now ≡ 10 ∷ text.now }
    ensures { chunks_in Plain (10 ∷ line.now) ≡ Paragraph ∷ result }
{
    if text.starts_with("```") {
        Splitter {
            rest: text,
            form: Form::Opening,
        }
    } else if text.starts_with("    ") {
        split(line)
    } else {
        split(text)
    }
}

// The opening line of a fence, which this text begins with, and the chunks after it.
#[tactic(auto, using(crate::proofs::lemmas::Splitter::FirstChunk::opening_first))]
#[inline(always)]
fn next_opening(text: &str) -> (Chunk<'_>, Splitter<'_>)
    requires { text.now ≢ [] }
    ensures { chunks_in Opening text.now ≡ chunk_of result.0 ∷ result.1 }
{
    let (line, rest) = cut_line(text);
    let left = Splitter {
        rest: past_newline(rest),
        form: Form::Later,
    };
    (Chunk::Raw(line, Chunk::TICKED_CODE), left)
}

// A later line of a fence, which this text begins with, and the chunks after it.
#[tactic(auto, using(crate::proofs::lemmas::Splitter::FirstChunk::later_lines))]
#[inline(always)]
fn next_later(text: &str) -> (Chunk<'_>, Splitter<'_>)
    requires { text.now ≢ [] }
    ensures { chunks_in Later text.now ≡ chunk_of result.0 ∷ result.1 }
{
    let (line, rest) = cut_line(text);
    let chunk = Chunk::Raw(line, Chunk::TICKED_CODE);
    if !line.starts_with("```") {
        let left = Splitter {
            rest: past_newline(rest),
            form: Form::Later,
        };
        (chunk, left)
    } else if rest.starts_with("\n\n") {
        (chunk, split(rest))
    } else {
        (chunk, split(past_newline(rest)))
    }
}

// The text up to its first newline, and the rest.
#[tactic(auto, using(crate::proofs::lemmas::Splitter::Cuts::line_cuts))]
#[inline(always)]
fn cut_line(text: &str) -> (&str, &str)
    ensures whole { text.now ≡ result.0.now ++ result.1.now }
    ensures line { IsLine result.0.now }
    ensures end { IsLineEnd result.1.now }
{
    match memchr(b'\n', text.as_bytes()) {
        Some(end) => text.split_at(end),
        None => (text, ""),
    }
}

// The text up to its first newline or blank, its columns, and the rest. Each printable ASCII character takes a column,
// so that most words are read once.
#[tactic(auto, using(crate::proofs::lemmas::Splitter::Printable::printable_words))]
#[inline(always)]
fn cut_word(text: &str) -> (&str, usize, &str)
    ensures whole { text.now ≡ result.0.now ++ result.2.now }
    ensures word { IsTrue (list_all is_word_byte result.0.now) }
    ensures columns { result.1 ≡ columns result.0.now }
    ensures end { IsWordEnd result.2.now }
{
    let printable = printable_len(text);
    let (word, rest) = text.split_at(printable);
    if is_word_end(rest) {
        return (word, printable, rest);
    }
    cut_any_word(text)
}

#[inline(always)]
fn cut_any_word(text: &str) -> (&str, usize, &str)
    ensures whole { text.now ≡ result.0.now ++ result.2.now }
    ensures word { IsTrue (list_all is_word_byte result.0.now) }
    ensures columns { result.1 ≡ columns result.0.now }
    ensures end { IsWordEnd result.2.now }
{
    let (word, rest) = split_word(text);
    (word, word.width(), rest)
}

// How many printable ASCII characters other than blanks the text begins with.
fn printable_len(text: &str) -> usize
    ensures len { result ≤ length text.now }
    ensures printable { IsTrue (list_all is_ascii_graphic (take result text.now)) }
{
    let bytes = text.as_bytes();
    let mut len = 0;
    'printable: while len < bytes.len() && bytes[len].is_ascii_graphic() {
        len += 1;
    }
    len
}

// Whether a newline, a blank or the end comes next.
fn is_word_end(rest: &str) -> bool
    ensures { IsTrue result → IsWordEnd rest.now }
{
    matches!(rest.as_bytes(), [] | [b'\n' | b' ', ..])
}

// The text up to its first newline or blank, and the rest.
#[inline(always)]
fn split_word(text: &str) -> (&str, &str)
    ensures whole { text.now ≡ result.0.now ++ result.1.now }
    ensures word { IsTrue (list_all is_word_byte result.0.now) }
    ensures end { IsWordEnd result.1.now }
{
    match text.find(['\n', ' ']) {
        Some(end) => text.split_at(end),
        None => (text, ""),
    }
}

// The rest after a line, without its leading newline.
fn past_newline(rest: &str) -> &str
    requires { IsLineEnd rest.now }
    ensures { IsPastNewline rest.now result.now }
{
    rest.strip_prefix('\n').unwrap_or(rest)
}
