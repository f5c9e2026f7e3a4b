//! Markdown: a text that grows by one fragment after another.
ghost use Rattle.std.specs.Prelude.{◌≡◌, ◌≤◌, ◌++◌, if◌then◌else◌, length, OnOk, IfOk, string_bytes};
ghost use Rattle.bpaf_doc.specs.Splitter.View.{chunk_of};
ghost use Rattle.bpaf_doc.specs.Markdown.Page.{IsMarkdownOf, is_term_end};
ghost use Rattle.bpaf_doc.specs.Markdown.Exact.{markdown_page};
ghost use Rattle.bpaf_doc.specs.Html.Steps.View.{fragment_of, fragments_in, IsTaken};
ghost use Rattle.bpaf_doc.specs.Markdown.Steps.{is_pending, is_empty};
ghost use Rattle.bpaf_doc.specs.Markdown.Steps.{blank_text, put, with_new_line, with_blank_line, with_item};
ghost use Rattle.bpaf_doc.specs.Markdown.Steps.{opening_marks, closing_marks, with_line, open_code, close_code};
ghost use Rattle.bpaf_doc.specs.Markdown.Steps.{with_words, with_raw, with_chunk, text_ended, header_started};
ghost use Rattle.bpaf_doc.specs.Markdown.Steps.{body_started, started, ended, marked_after};
ghost use Rattle.bpaf_doc.specs.Markdown.Steps.{marked_after_all};

use super::fragments::{Fragment, Fragments, Taken, fragments_of};
use super::{Language, Styles, push_spelled, when};
use crate::buffer::{Block, Doc, Style};
use crate::splitter::Chunk;
use std::alloc::{AllocError, Allocator};
use std::marker::Model;

// What is before the item that was begun last. Before the first item nothing is pending.
#[derive(Clone, Copy)]
enum Item {
    // Nothing yet: its dash waits for the next fragment.
    Pending,
    // The dash.
    Dashed,
    // Blanks in place of the dash, since its term is empty.
    Empty,
}

impl Item {
    fn is_pending(self) -> bool
        ensures { result ≡ is_pending self }
    {
        matches!(self, Item::Pending)
    }

    fn is_empty(self) -> bool
        ensures { result ≡ is_empty self }
    {
        matches!(self, Item::Empty)
    }
}

/// The text so far, and what the next marks depend on.
#[derive(Drop)]
struct Markdown<B: Allocator> {
    text: String<B>,
    // Whether a Header was started.
    headed: bool,
    // Whether the last mark of a definition list was a start.
    in_list: bool,
    item: Item,
    // How many Mono starts and ends came.
    mono_starts: usize,
    mono_ends: usize,
    // Whether a code block is open.
    in_code: bool,
}

impl<B: Allocator> Model for Markdown<B> {
    ghost use Rattle.std.specs.Prelude.{string_bytes};
    ghost use Rattle.bpaf_doc.specs.Markdown.Steps.{Marked};
    ghost use Rattle.bpaf_doc.specs.Markdown.Steps.{is_pending, is_empty};

    ghost Value = { Marked };

    ghost view = { λ m. record {
      bytes = string_bytes m.text;
      headed = m.headed;
      in_list = m.in_list;
      pending = is_pending m.item;
      empty_item = is_empty m.item;
      starts = m.mono_starts;
      ends = m.mono_ends;
      in_code = m.in_code;
    } };
}

fn is_term_end(fragment: Fragment<'_>) -> bool
    ensures { result ≡ is_term_end (fragment_of fragment.entry) }
{
    matches!(fragment, Fragment::End(Block::ItemTerm))
}

impl<B: Allocator> Markdown<B> {
    fn new(alloc: B) -> Self
        ensures { result ≡ blank_text }
    {
        Markdown {
            text: String::new(alloc),
            headed: false,
            in_list: false,
            item: Item::Dashed,
            mono_starts: 0,
            mono_ends: 0,
            in_code: false,
        }
    }

    // With memory reserved, that many bytes are not moved as the text grows.
    fn with_room(alloc: B, bytes: usize) -> Result<Self, AllocError>
        ensures { IfOk result (λ page. page ≡ blank_text) }
    {
        let mut page = Markdown::new(alloc);
        page.text.reserve(bytes)?;
        Ok(page)
    }

    fn into_text(self) -> String<B>
        ensures { string_bytes result ≡ self.bytes }
    {
        let Markdown { text, .. } = self;
        text
    }

    // Writes marks or a text as it stands.
    fn put(&mut self, text: &str) -> Result<(), AllocError>
        ensures { OnOk result (self.new ≡ put self.old text.now) }
    {
        self.text.push_str(text)
    }

    // Goes to the start of a line, unless the text is at one.
    fn new_line(&mut self) -> Result<(), AllocError>
        ensures { OnOk result (self.new ≡ with_new_line self.old) }
    {
        if !self.text.is_empty() && !self.text.as_bytes().ends_with(b"\n") {
            self.put("\n")?;
        }
        Ok(())
    }

    // Ends the line and leaves an empty one, unless the text ends in one.
    fn blank_line(&mut self) -> Result<(), AllocError>
        ensures { OnOk result (self.new ≡ with_blank_line self.old) }
    {
        if !self.text.is_empty() && !self.text.as_bytes().ends_with(b"\n\n") {
            self.put("\n\n")?;
        }
        Ok(())
    }

    // The dash of an item that was begun, or blanks in its place where its term is empty.
    fn item(&mut self, empty: bool) -> Result<(), AllocError>
        ensures { OnOk result (self.new ≡ with_item self.old empty) }
    {
        if self.item.is_pending() {
            self.put(if empty { "  " } else { "- " })?;
            self.item = if empty { Item::Empty } else { Item::Dashed };
        }
        Ok(())
    }

    fn open_text(&mut self, style: Style) -> Result<(), AllocError>
        ensures { OnOk result (self.new ≡ put self.old (opening_marks style)) }
    {
        let styles = Styles::from(style);
        self.put(when(styles.italic, "_"))?;
        self.put(when(styles.bold, "**"))?;
        self.put(when(styles.mono, "`"))
    }

    fn close_styles(&mut self, style: Style) -> Result<(), AllocError>
        ensures { OnOk result (self.new ≡ put self.old (closing_marks style)) }
    {
        let styles = Styles::from(style);
        self.put(when(styles.mono, "`"))?;
        self.put(when(styles.bold, "**"))?;
        self.put(when(styles.italic, "_"))
    }

    // A line of code, alone on its line.
    #[inline(always)]
    fn line(&mut self, text: &str) -> Result<(), AllocError>
        ensures { OnOk result (self.new ≡ with_line self.old text.now) }
    {
        self.put("  ")?;
        self.put(text)?;
        self.put("\n")
    }

    // A line of a code block, which is opened unless one is open.
    fn code_line(&mut self, text: &str) -> Result<(), AllocError>
        ensures { OnOk result (self.new ≡ with_line (open_code self.old) text.now) }
    {
        if !self.in_code {
            self.put("\n\n  ```text\n")?;
            self.in_code = true;
        }
        self.line(text)
    }

    // Writes the lines that come next in an open code block.
    #[tactic(auto, using(crate::proofs::lemmas::Markdown::Runs::code_line_more))]
    #[inline(always)]
    fn code_lines(&mut self, fragments: &mut Fragments<'_>) -> Result<(), AllocError>
        ensures page { OnOk result (marked_after_all self.new fragments.new ≡ marked_after_all self.old fragments.old) }
        ensures left { length fragments.new ≤ length fragments.old }
    {
        if !self.in_code || self.item.is_pending() {
            return Ok(());
        }
        'lines: while let Some(line) = fragments.take_code() {
            self.line(line)?;
        }
        Ok(())
    }

    // Words, outside of a code block.
    fn words(&mut self, text: &str) -> Result<(), AllocError>
        ensures { OnOk result (self.new ≡ with_words self.old text.now) }
    {
        if self.in_code {
            self.put("\n  ```\n")?;
            self.in_code = false;
        }
        if self.mono_starts > self.mono_ends {
            push_spelled(&mut self.text, text, Language::Markdown)
        } else {
            self.put(text)
        }
    }

    fn raw(&mut self, text: &str, weight: usize) -> Result<(), AllocError>
        ensures { OnOk result (self.new ≡ with_raw self.old text.now weight) }
    {
        if weight == Chunk::TICKED_CODE {
            self.new_line()?;
            self.line(text)
        } else if weight == Chunk::CODE {
            self.code_line(text)
        } else {
            self.words(text)
        }
    }

    fn chunk(&mut self, chunk: Chunk<'_>) -> Result<(), AllocError>
        ensures { OnOk result (self.new ≡ with_chunk self.old (chunk_of chunk.entry)) }
    {
        match chunk {
            Chunk::Raw(text, weight) => self.raw(text, weight),
            Chunk::Paragraph => self.put(if self.in_list { "\n\n  " } else { "\n\n" }),
            Chunk::LineBreak => self.put("\n"),
        }
    }

    // The end of a text ends its code block and its style.
    fn end_text(&mut self, style: Style) -> Result<(), AllocError>
        ensures { OnOk result (self.new ≡ text_ended self.old style) }
    {
        if self.in_code {
            self.put("  ```\n")?;
            self.in_code = false;
        }
        self.close_styles(style)
    }

    // The first header of a document is above the others.
    fn header(&mut self) -> Result<(), AllocError>
        ensures { OnOk result (self.new ≡ header_started self.old) }
    {
        self.blank_line()?;
        self.put(if self.headed { "## " } else { "# " })?;
        self.headed = true;
        Ok(())
    }

    // In a definition list a body follows the dash of its item.
    fn body(&mut self) -> Result<(), AllocError>
        ensures { OnOk result (self.new ≡ body_started self.old) }
    {
        if self.in_list {
            self.put(if self.item.is_empty() {
                " "
            } else {
                " &mdash; "
            })?;
        }
        self.new_line()?;
        self.put("  ")
    }

    fn start(&mut self, block: Block) -> Result<(), AllocError>
        ensures { OnOk result (self.new ≡ started self.old block) }
    {
        match block {
            Block::Header => self.header(),
            Block::Section3 => self.put("### "),
            Block::Section4 | Block::ItemTerm => {
                self.new_line()?;
                self.item = Item::Pending;
                Ok(())
            }
            Block::ItemBody => self.body(),
            Block::DefinitionList => {
                self.in_list = true;
                Ok(())
            }
            Block::Block => self.put("\n"),
            Block::Mono => {
                self.mono_starts = self.mono_starts.saturating_add(1);
                Ok(())
            }
            Block::Section2 | Block::InlineBlock | Block::TermRef | Block::Meta => Ok(()),
        }
    }

    fn end(&mut self, block: Block) -> Result<(), AllocError>
        ensures { OnOk result (self.new ≡ ended self.old block) }
    {
        match block {
            Block::Header | Block::Section2 | Block::Section3 | Block::Section4 | Block::Block => {
                self.put("\n")
            }
            Block::ItemBody => self.put(if self.in_list { "\n" } else { "" }),
            Block::DefinitionList => {
                self.in_list = false;
                self.put("\n")
            }
            Block::Mono => {
                self.mono_ends = self.mono_ends.saturating_add(1);
                Ok(())
            }
            Block::ItemTerm | Block::InlineBlock | Block::TermRef | Block::Meta => Ok(()),
        }
    }

    fn fragment(&mut self, fragment: Fragment<'_>) -> Result<(), AllocError>
        ensures { OnOk result (self.new ≡ marked_after self.old (fragment_of fragment.entry)) }
    {
        self.item(is_term_end(fragment))?;
        match fragment {
            Fragment::TextStart(style) => self.open_text(style),
            Fragment::Shown(_, chunk) => self.chunk(chunk),
            Fragment::TextEnd(style) => self.end_text(style),
            Fragment::Hidden => Ok(()),
            Fragment::Start(block) => self.start(block),
            Fragment::End(block) => self.end(block),
        }
    }

    #[tactic(auto, using(crate::proofs::lemmas::Markdown::Runs::run_marked))]
    fn take(&mut self, taken: Taken<'_>) -> Result<(), AllocError>
        requires { IsTaken taken }
        ensures { OnOk result (self.new ≡ marked_after_all self.old (fragments_in taken.entry)) }
    {
        match taken {
            Taken::Words(_, run) => {
                self.item(false)?;
                self.words(run)?;
                Ok(())
            }
            Taken::Code(_, line) => {
                self.item(false)?;
                self.code_line(line)
            }
            Taken::One(fragment) => self.fragment(fragment),
        }
    }
}

impl<A: Allocator> Doc<A> {
    /// The document as markdown, as a text in `alloc`: all of it if `full`, otherwise without what brief hides.
    ///
    /// For every list of parts the bytes are those of `markdown_page`, a function of the document by the rules of
    /// `docs/html.md` (clause `exact`). Clause `laws` says that the slices of the shown texts are in order. Around the
    /// slices of each text are the marks of its style, and among them the marks of headings and lists. Code lines are
    /// inside fences, each on a line of its own. Between two slices there are two newlines where they have a paragraph
    /// between them, and a newline where they have a line break.
    ///
    /// An `AllocError` says that an allocation failed.
    #[tactic(auto, using(crate::proofs::lemmas::Markdown::Exact::written_text))]
    pub fn render_markdown<B: Allocator>(
        &self,
        alloc: B,
        full: bool,
    ) -> Result<String<B>, AllocError>
        ensures laws { IfOk result (λ answer. IsMarkdownOf self.now full (string_bytes answer)) }
        ensures exact { IfOk result (λ answer. string_bytes answer ≡ markdown_page full self.now) }
    {
        // The marks can be counted, since there are at most as many as parts.
        let _count = self.len();
        let mut page = Markdown::with_room(alloc, if full { self.text_len() } else { 0 })?;
        let mut fragments = fragments_of(self, full);
        while let Some(taken) = fragments.next() {
            page.take(taken)?;
            page.code_lines(&mut fragments)?;
        }
        page.item(false)?;
        Ok(page.into_text())
    }
}
