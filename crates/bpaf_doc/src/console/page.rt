//! A console text while it is being written.
ghost use Rattle.std.specs.Prelude.{◌≡◌, ◌≤◌, ◌++◌, [], ◌∷◌, Bool, not, IfOk, IsTrue, OnOk, length, string_bytes};
ghost use Rattle.std.specs.Prelude.{replicate};
ghost use Rattle.std.specs.Str.{trim_end};
ghost use Rattle.std.specs.Int.{is_in_range};
ghost use Rattle.std.specs.List.{list_all};
ghost use Rattle.bpaf_doc.specs.Splitter.Chunks.{chunks_of, columns};
ghost use Rattle.bpaf_doc.specs.Console.Exact.{backquoted, finished, indented, on_new_line, placed, request_at_end};
ghost use Rattle.bpaf_doc.specs.Console.Exact.{request_at_start, request_met, has_no_room, with_blanks, wrapped};
ghost use Rattle.bpaf_doc.specs.Console.Exact.{lacks_newline, lacks_blank_line};
ghost use Rattle.bpaf_doc.specs.Console.Steps.Text.{hides};
ghost use Rattle.bpaf_doc.specs.Console.Steps.Page.{page_of, sheet_of, blank_sheet, on, text_put, opened, closed};
ghost use Rattle.bpaf_doc.specs.Console.Steps.Page.{raw_put, wraps, room_made};
ghost use Rattle.bpaf_doc.specs.Console.Steps.Page.{margin_pushed, margin_of};
ghost use Rattle.bpaf_doc.specs.Console.Steps.Page.{IsWithinLine, DropsBlanks, IsPastLine, code_put};
ghost use Rattle.bpaf_doc.specs.Console.Steps.Page.{columns_of, indent_of, request_of};

use super::tabs::MAX_TAB;
use crate::buffer::Block;
use crate::splitter::{Chunk, Splitter, split};
use std::alloc::{AllocError, Allocator};
use unicode_width::UnicodeWidthStr;

/// What has to stand before the next text.
#[derive(Clone, Copy, PartialEq, Eq)]
pub enum Asked {
    Nothing,
    NewLine,
    BlankLine,
}

/// The text so far, and what the next text depends on.
#[derive(Drop)]
pub struct Page<B: Allocator> {
    out: String<B>,
    // The columns of the last line.
    column: usize,
    width: usize,
    tab_stop: usize,
    // Each adds at most 30 to the one below it, so that all margins of a document fit a `usize`.
    margins: Vec<usize, B>,
    asked: Asked,
    // An item's body starts at the next text.
    at_body: bool,
}

impl<B: Allocator + Copy> Page<B> {
    /// An empty page with lines of at most `width` columns.
    pub fn new(alloc: B, width: usize, tab_stop: usize) -> Self
        ensures { sheet_of result ≡ blank_sheet width tab_stop }
    {
        Page {
            out: String::new(alloc),
            column: 0,
            width,
            tab_stop,
            margins: Vec::new(alloc),
            asked: Asked::Nothing,
            at_body: false,
        }
    }
}

impl<B: Allocator> Page<B> {
    /// Writes the chunks of a text, in brief up to the first paragraph break. Returns whether that break hides what
    /// follows.
    pub fn put_text(&mut self, text: &str, full: bool) -> Result<bool, AllocError>
        ensures page { OnOk result (sheet_of self.new ≡ text_put full (chunks_of text.now) (sheet_of self.old)) }
        ensures hides { IfOk result (λ hidden. hidden ≡ hides full (chunks_of text.now)) }
    {
        let mut chunks = split(text);
        while let Some(chunk) = chunks.next() {
            match chunk {
                Chunk::Raw(raw, weight) => {
                    self.put_raw(raw, weight)?;
                    self.put_run(&mut chunks)?;
                }
                Chunk::LineBreak => self.put_newline()?,
                Chunk::Paragraph => {
                    self.put_newline()?;
                    if !full {
                        return Ok(true);
                    }
                }
            }
        }
        Ok(false)
    }

    /// Processes the start of a block. For a Section4, `adjacent` says whether an empty Block pair follows its end.
    #[tactic(auto, unfolding(crate::specs::Console::Steps::Page::opened))]
    pub fn open(&mut self, block: Block, adjacent: bool) -> Result<(), AllocError>
        ensures page { OnOk result (sheet_of self.new ≡ opened block adjacent (sheet_of self.old)) }
    {
        self.asked = asked_by_start(self.asked, block);
        self.at_body = self.at_body || block == Block::ItemBody;
        self.push_margin(indent_of(block, self.tab_stop, adjacent))?;
        self.put_mark(block)?;
        Ok(())
    }

    /// Processes the end of a block.
    #[tactic(auto, unfolding(crate::specs::Console::Steps::Page::closed))]
    pub fn close(&mut self, block: Block) -> Result<(), AllocError>
        ensures page { OnOk result (sheet_of self.new ≡ closed block (sheet_of self.old)) }
    {
        let _ = self.margins.pop();
        self.asked = asked_by_end(self.asked, block);
        self.at_body = self.at_body && block != Block::ItemBody;
        self.put_mark(block)?;
        Ok(())
    }

    /// The whole text, with a last newline where one is still asked for.
    pub fn finish(self) -> Result<String<B>, AllocError>
        ensures text { IfOk result (λ text. string_bytes text ≡ finished (page_of self)) }
    {
        let Page { mut out, asked, .. } = self;
        if asked != Asked::Nothing {
            out.push('\n')?;
        }
        Ok(out)
    }

    // Writes as many of the next words as fit after the last one, all at once. Inlined, so that the remaining chunks
    // need not be in memory.
    #[tactic(auto, using(crate::proofs::lemmas::Console::Runs::run_hides))]
    #[inline(always)]
    fn put_run(&mut self, chunks: &mut Splitter<'_>) -> Result<(), AllocError>
        ensures page { OnOk result ((full : Bool)
            → text_put full chunks.new (sheet_of self.new) ≡ text_put full chunks.old (sheet_of self.old)) }
        ensures hides { (full : Bool) → hides full chunks.new ≡ hides full chunks.old }
        ensures left { length chunks.new ≤ length chunks.old }
    {
        if !self.is_within_line() {
            if self.drops_blanks() {
                self.pass_blanks(chunks);
            }
            return self.put_code(chunks);
        }
        if let Some((run, columns)) = chunks.take_fitting(self.width - self.column) {
            self.out.push_str(run)?;
            self.column += columns;
        }
        Ok(())
    }

    // Whether the next word stands where the last one ends: nothing has to come before it.
    fn is_within_line(&self) -> bool
        ensures { IsTrue result → IsWithinLine (sheet_of self.now) }
    {
        self.column < self.width
            && self.asked == Asked::Nothing
            && !self.at_body
            && !self.out.is_empty()
            && self.margin() <= self.column
    }

    // Whether two blanks that come next would leave nothing: the first would be on a new line, after a margin with no
    // room for more, and the second, which does not fit, would remove it and the margin again.
    fn drops_blanks(&self) -> bool
        ensures { IsTrue result → DropsBlanks (sheet_of self.now) }
    {
        self.column == 0
            && self.asked == Asked::Nothing
            && !self.at_body
            && self.width > 0
            && self.width < usize::MAX
            && self.width - 1 <= self.margin()
            && ends_bare(&self.out)
    }

    // Passes over blanks, two at a time, so that a margin is not written for each pair of many.
    #[inline(always)]
    fn pass_blanks(&self, chunks: &mut Splitter<'_>)
        requires { DropsBlanks (sheet_of self.now) }
        ensures page { (full : Bool)
            → text_put full chunks.new (sheet_of self.now) ≡ text_put full chunks.old (sheet_of self.now) }
        ensures hides { (full : Bool) → hides full chunks.new ≡ hides full chunks.old }
        ensures left { length chunks.new ≤ length chunks.old }
    {
        'blanks: while chunks.take_blanks() {}
    }

    // Writes the code lines that come next, if they follow a line on which no chunk fits.
    #[inline(always)]
    fn put_code(&mut self, chunks: &mut Splitter<'_>) -> Result<(), AllocError>
        ensures page { OnOk result ((full : Bool)
            → text_put full chunks.new (sheet_of self.new) ≡ text_put full chunks.old (sheet_of self.old)) }
        ensures hides { (full : Bool) → hides full chunks.new ≡ hides full chunks.old }
        ensures left { length chunks.new ≤ length chunks.old }
    {
        if !self.is_past_line() {
            return Ok(());
        }
        let margin = self.margin();
        'lines: while let Some(line) = chunks.take_code() {
            if line == " " {
                return self.put_raw(line, Chunk::CODE);
            }
            self.put_code_line(margin, line)?;
        }
        Ok(())
    }

    // Whether the last line is past the width, as it is after a code line, and nothing has to come before the next one.
    fn is_past_line(&self) -> bool
        ensures { IsTrue result → IsPastLine (sheet_of self.now) }
    {
        self.width < self.column
            && self.width < Chunk::CODE
            && self.asked == Asked::Nothing
            && !self.at_body
            && !self.out.is_empty()
    }

    // Writes a code line on a line of its own, from this margin on.
    #[inline(always)]
    fn put_code_line(&mut self, margin: usize, line: &str) -> Result<(), AllocError>
        ensures page { OnOk result (sheet_of self.new ≡ on (code_put margin line.now) (sheet_of self.old)) }
    {
        Page::wrap(self)?;
        self.put_blanks(margin)?;
        self.out.push_str(line)?;
        self.column = self.column.saturating_add(Chunk::CODE);
        Ok(())
    }

    // Writes a Raw chunk. A blank that does not fit its line is left out.
    #[tactic(auto, unfolding(crate::specs::Console::Steps::Page::raw_put))]
    fn put_raw(&mut self, raw: &str, weight: usize) -> Result<(), AllocError>
        ensures page { OnOk result (sheet_of self.new ≡ on (raw_put self.old.width (margin_of (sheet_of self.old)) raw.now weight) (sheet_of self.old)) }
    {
        if self.make_room(raw, weight)? && raw == " " {
            return Ok(());
        }
        self.place(raw, weight)
    }

    // Breaks the line where that is asked for or a Raw chunk does not fit. Returns whether it did not fit.
    fn make_room(&mut self, raw: &str, weight: usize) -> Result<bool, AllocError>
        ensures page { OnOk result (sheet_of self.new ≡ on (room_made self.old.width (columns_of raw.now weight)) (sheet_of self.old)) }
        ensures wraps { IfOk result (λ too_wide. too_wide ≡ wraps self.old.width (columns_of raw.now weight) (page_of self.old)) }
    {
        if self.out.is_empty() {
            return Ok(false);
        }
        self.put_asked()?;
        if self.has_room(raw, weight) {
            return Ok(false);
        }
        self.wrap()?;
        Ok(true)
    }

    // Whether a Raw chunk fits the line: by its weight, unless it is a code or fence line. After such a line nothing
    // fits, so that the columns of the next one are not counted.
    fn has_room(&self, raw: &str, weight: usize) -> bool
        ensures { result ≡ not (has_no_room self.now.width (columns_of raw.now weight) (page_of self.now)) }
    {
        if weight < Chunk::CODE {
            self.column.saturating_add(weight) <= self.width
        } else {
            self.column <= self.width && self.column.saturating_add(line_columns(raw)) <= self.width
        }
    }

    // Writes a Raw chunk to its line, from its margin on.
    fn place(&mut self, raw: &str, weight: usize) -> Result<(), AllocError>
        ensures page { OnOk result (sheet_of self.new ≡ on (placed (margin_of (sheet_of self.old)) raw.now weight) (sheet_of self.old)) }
    {
        self.put_padding()?;
        self.asked = Asked::Nothing;
        self.at_body = false;
        self.out.push_str(raw)?;
        self.column = self.column.saturating_add(weight);
        Ok(())
    }

    // Ends the line, and writes an empty one, where that is asked for.
    fn put_asked(&mut self) -> Result<(), AllocError>
        ensures page { OnOk result (sheet_of self.new ≡ on request_met (sheet_of self.old)) }
    {
        if self.lacks_newline() {
            self.put_newline()?;
        }
        if self.lacks_blank_line() {
            self.out.push('\n')?;
        }
        Ok(())
    }

    // A line break is asked for, and the text does not end in one.
    fn lacks_newline(&self) -> bool
        ensures { result ≡ lacks_newline (page_of self.now) }
    {
        self.asked != Asked::Nothing && !self.out.as_bytes().ends_with(b"\n")
    }

    // An empty line is asked for, and the text does not end in one.
    fn lacks_blank_line(&self) -> bool
        ensures { result ≡ lacks_blank_line (page_of self.now) }
    {
        self.asked == Asked::BlankLine && !self.out.as_bytes().ends_with(b"\n\n")
    }

    // Starts a new line in place of the White_Space at the end.
    fn wrap(&mut self) -> Result<(), AllocError>
        ensures page { OnOk result (sheet_of self.new ≡ on wrapped (sheet_of self.old)) }
    {
        trim_end(&mut self.out);
        self.put_newline()
    }

    // Blanks up to the margin; before an item's body, beyond the tab stop, at least two.
    fn put_padding(&mut self) -> Result<(), AllocError>
        ensures page { OnOk result (sheet_of self.new ≡ on (indented (margin_of (sheet_of self.old))) (sheet_of self.old)) }
    {
        let missing = self.margin().saturating_sub(self.column);
        self.put_blanks(missing)?;
        if self.at_body && self.column >= MAX_TAB + 4 {
            self.put_blanks(2usize.saturating_sub(missing))?;
        }
        Ok(())
    }

    fn put_blanks(&mut self, count: usize) -> Result<(), AllocError>
        ensures page { OnOk result (sheet_of self.new ≡ on (with_blanks count) (sheet_of self.old)) }
    {
        push_blanks(&mut self.out, count)?;
        self.column = self.column.saturating_add(count);
        Ok(())
    }

    fn put_newline(&mut self) -> Result<(), AllocError>
        ensures page { OnOk result (sheet_of self.new ≡ on on_new_line (sheet_of self.old)) }
    {
        self.out.push('\n')?;
        self.column = 0;
        Ok(())
    }

    // The backquote of a term reference.
    fn put_mark(&mut self, block: Block) -> Result<(), AllocError>
        ensures page { OnOk result (sheet_of self.new ≡ on (backquoted block) (sheet_of self.old)) }
    {
        if block == Block::TermRef {
            self.out.push('`')?;
            self.column = self.column.saturating_add(1);
        }
        Ok(())
    }

    // Pushes a margin of that many columns more than the innermost one.
    fn push_margin(&mut self, indent: Option<usize>) -> Result<(), AllocError>
        ensures { OnOk result (sheet_of self.new ≡ margin_pushed indent (sheet_of self.old)) }
    {
        if let Some(indent) = indent {
            let margin = self.margin().saturating_add(indent);
            self.margins.push(margin)?;
        }
        Ok(())
    }

    // The margin in force: the innermost one.
    fn margin(&self) -> usize
        ensures { result ≡ margin_of (sheet_of self.now) }
    {
        self.margins.last().copied().unwrap_or(0)
    }
}

// Whether only a newline stands after the last character that is not White_Space.
fn ends_bare<B: Allocator>(out: &String<B>) -> bool
    ensures { IsTrue result → string_bytes out.now ≡ trim_end (string_bytes out.now) ++ 10 ∷ [] }
{
    let text = out.as_str();
    let (_, end) = text.as_bytes().split_at(text.trim_end().len());
    matches!(end, [b'\n'])
}

// Removes the White_Space at the end of the text.
#[tactic(auto, using(crate::proofs::lemmas::Console::Ends::trimmed_end))]
fn trim_end<B: Allocator>(out: &mut String<B>)
    ensures bytes { string_bytes out.new ≡ trim_end (string_bytes out.old) }
{
    if let Some((last, _)) = out.as_bytes().split_last() {
        if last.is_ascii_graphic() {
            return;
        }
    }
    let kept = out.as_str().trim_end().len();
    out.truncate(kept);
}

#[tactic(auto, using(crate::proofs::lemmas::Console::Ends::pushed_blanks))]
fn push_blanks<B: Allocator>(out: &mut String<B>, count: usize) -> Result<(), AllocError>
    ensures bytes { OnOk result (string_bytes out.new ≡ string_bytes out.old ++ replicate count 32) }
{
    for _ in 0..count {
        out.push(' ')?;
    }
    Ok(())
}

// The columns of a line. Each printable ASCII character takes one, and most lines hold no other.
#[tactic(auto, using(crate::proofs::lemmas::Splitter::Printable::line_columns_are))]
fn line_columns(line: &str) -> usize
    ensures { result ≡ columns line.now }
{
    if is_printable(line.as_bytes()) {
        line.len()
    } else {
        line.width()
    }
}

// Whether all bytes are printable ASCII. It does not stop at the first other byte, so that it looks at many at once.
fn is_printable(bytes: &[u8]) -> bool
    ensures { result ≡ list_all (is_in_range 0x20 0x7E) bytes.now }
{
    let mut printable = true;
    for byte in bytes {
        printable &= (0x20..=0x7E).contains(byte);
    }
    printable
}

// What has to stand before the next text after the start of a block, given what was asked for before.
fn asked_by_start(asked: Asked, block: Block) -> Asked
    ensures { request_of result ≡ request_at_start block (request_of asked) }
{
    match block {
        Block::Header | Block::Section2 | Block::Section3 | Block::Section4 | Block::ItemTerm =>
            match asked {
                Asked::Nothing => Asked::NewLine,
                Asked::NewLine | Asked::BlankLine => asked,
            },
        _ => asked,
    }
}

fn asked_by_end(asked: Asked, block: Block) -> Asked
    ensures { request_of result ≡ request_at_end block (request_of asked) }
{
    match block {
        Block::Block => Asked::BlankLine,
        _ => asked,
    }
}

// How far the start of a block moves the margin; None where it pushes none.
fn indent_of(block: Block, tab_stop: usize, adjacent: bool) -> Option<usize>
    ensures { result ≡ indent_of block tab_stop adjacent }
{
    match block {
        Block::Header | Block::Section2 | Block::Block => Some(0),
        Block::Section3 => Some(2),
        Block::Section4 => Some(if adjacent { 4 } else { 2 }),
        Block::ItemTerm => Some(4),
        Block::ItemBody => Some(tab_stop.saturating_add(2)),
        Block::DefinitionList | Block::InlineBlock | Block::TermRef | Block::Meta | Block::Mono =>
            None,
    }
}
