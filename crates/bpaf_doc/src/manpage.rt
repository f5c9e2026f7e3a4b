//! A document as a page of roff.

ghost use Rattle.std.specs.Prelude.{◌≡◌, [], ◌∷◌, IfOk, OnOk, string_bytes};
ghost use Rattle.std.specs.Option.{option_copied};
ghost use Rattle.bpaf_roff.specs.Roff.{with_written, control_pieces, text_pieces};
ghost use Rattle.bpaf_doc.specs.Manpage.Page.{TakesDocument, IsPageOf};
ghost use Rattle.bpaf_doc.specs.Manpage.Exact.{roff_page};
ghost use Rattle.bpaf_doc.specs.Manpage.Events.{start_name, end_name, heading_name};
ghost use Rattle.bpaf_doc.specs.Manpage.Steps.{after_parts, draft_on};

use crate::buffer::{Block, Doc, Part, Parts, Style};
use bpaf_roff::escape::{Apostrophes, Escape};
use bpaf_roff::roff::{Font, RESTORE_FONT, Roff};
use bpaf_roff::writer::RoffWriter;
use std::alloc::{AllocError, Allocator};
use std::marker::Model;

/// Roman for plain text, bold for emphasized and literal text, italic for metavariables and invalid text.
impl From<Style> for Font {
    ghost use Rattle.std.specs.Prelude.{◌≡◌};
    ghost use Rattle.bpaf_doc.specs.Manpage.Events.{font_of};

    ghost from_gives = { λ style font. font ≡ font_of style };

    fn from(style: Style) -> Font {
        match style {
            Style::Text => Font::Roman,
            Style::Emphasis | Style::Literal => Font::Bold,
            Style::Metavar | Style::Invalid => Font::Italic,
        }
    }
}

impl<A: Allocator> Doc<A> {
    /// The roff of the page with this document after what the page holds, and the preamble for apostrophes before it.
    ///
    /// For every page and every list of parts the bytes are those of `roff_page`: the page rendered with its own pieces
    /// and then those that the rules of `docs/manpage.md` give (clause `exact`). Where the page keeps newlines and is
    /// at a line start, a reader of roff reads what comes after the page as the controls, headings and texts of the
    /// document (`read`). Headings are in ASCII capitals. The page is consumed, and the result takes its memory from
    /// the allocator of the page. An `AllocError` says that an allocation failed; then the page is dropped.
    pub fn render_roff<B: Allocator + Copy>(&self, page: Roff<B>) -> Result<String<B>, AllocError>
        ensures read { TakesDocument page → IfOk result (λ text. IsPageOf page self.now (string_bytes text)) }
        ensures exact { IfOk result (λ text. string_bytes text ≡ roff_page page self.now) }
    {
        let room = self.text_len().saturating_mul(2);
        let begun = page.begin(Apostrophes::Handle, room)?;
        let text = written(begun, page.strip_newlines, self.parts())?;
        Ok(text.into_string())
    }

    /// The same text as that of `render_roff`. The document is consumed too. An `AllocError` says that an allocation
    /// failed; then document and page are dropped.
    pub fn into_roff<B: Allocator + Copy>(self, page: Roff<B>) -> Result<String<B>, AllocError>
        ensures read { TakesDocument page → IfOk result (λ text. IsPageOf page self (string_bytes text)) }
        ensures exact { IfOk result (λ text. string_bytes text ≡ roff_page page self) }
    {
        self.render_roff(page)
    }
}

// The page with the parts written to it.
fn written<A: Allocator + Copy>(
    page: RoffWriter<A>,
    strip_newlines: bool,
    parts: Parts<'_>,
) -> Result<RoffWriter<A>, AllocError>
    ensures { IfOk result (λ new. new ≡ (after_parts (draft_on page strip_newlines) parts.entry).page) }
{
    let mut writer = Writer::new(page, strip_newlines);
    for part in parts {
        writer.part(part)?;
    }
    Ok(writer.page)
}

// A page to which a document is being written.
#[derive(Drop)]
struct Writer<A: Allocator> {
    page: RoffWriter<A>,
    // Whether plain text gets a blank for each newline.
    strip_newlines: bool,
    // The captured texts since the last end of a section.
    heading: String<A>,
    // Whether a text goes into the heading.
    captures: bool,
}

impl<A: Allocator> Model for Writer<A> {
    ghost use Rattle.std.specs.Prelude.{string_bytes};
    ghost use Rattle.bpaf_doc.specs.Manpage.Steps.{Draft};

    ghost Value = { Draft };

    ghost view = { λ w. record {
      page = w.page;
      strips = w.strip_newlines;
      heading = string_bytes w.heading;
      captures = w.captures;
    } };
}

impl<A: Allocator + Copy> Writer<A> {
    fn new(page: RoffWriter<A>, strip_newlines: bool) -> Writer<A>
        ensures { result ≡ draft_on page strip_newlines }
    {
        let heading = String::new(*page.allocator());
        Writer {
            page,
            strip_newlines,
            heading,
            captures: false,
        }
    }
}

impl<A: Allocator> Writer<A> {
    ghost use Rattle.bpaf_doc.specs.Manpage.Steps.{after_text, after_start, after_section, after_block};
    ghost use Rattle.bpaf_doc.specs.Manpage.Steps.{after_part};
    ghost use Rattle.bpaf_doc.specs.Buffer.View.{part_of};

    fn part(&mut self, part: Part<'_>) -> Result<(), AllocError>
        ensures { OnOk result (self.new ≡ after_part self.old (part_of part.entry)) }
    {
        match part {
            Part::Text(text, style) => self.text(text, style),
            Part::Start(block) => self.start(block),
            Part::End(block) => match heading_control(block) {
                Some(name) => self.end_section(name),
                None => self.end_block(block),
            },
        }
    }

    fn text(&mut self, text: &str, style: Style) -> Result<(), AllocError>
        ensures { OnOk result (self.new ≡ after_text self.old text.now style) }
    {
        if self.captures {
            return self.heading.push_str(text);
        }
        if style == Style::Emphasis {
            write_control(&mut self.page, "SS")?;
        }
        write_text(&mut self.page, self.strip_newlines, Font::from(style), text)
    }

    fn start(&mut self, block: Block) -> Result<(), AllocError>
        ensures { OnOk result (self.new ≡ after_start self.old block) }
    {
        if let Some(name) = start_control(block) {
            write_control(&mut self.page, name)?;
        }
        if block == Block::ItemTerm {
            self.strip_newlines = true;
        }
        if heading_control(block).is_some() {
            self.captures = true;
        }
        Ok(())
    }

    // Writes the heading, in capitals.
    fn end_section(&mut self, name: &str) -> Result<(), AllocError>
        ensures { OnOk result (self.new ≡ after_section self.old name.now) }
    {
        self.heading.make_ascii_uppercase();
        write_heading(&mut self.page, name, &self.heading)?;
        self.heading.clear();
        self.captures = false;
        Ok(())
    }

    // The end of a block that is not a section.
    fn end_block(&mut self, block: Block) -> Result<(), AllocError>
        ensures { OnOk result (self.new ≡ after_block self.old block) }
    {
        if block == Block::ItemTerm {
            self.page.put(Escape::UnescapedAtNewline, "")?;
        }
        if let Some(name) = end_control(block) {
            write_control(&mut self.page, name)?;
        }
        if block == Block::ItemTerm || block == Block::ItemBody {
            self.strip_newlines = false;
        }
        Ok(())
    }
}

fn start_control(block: Block) -> Option<&'static str>
    ensures { option_copied result ≡ start_name block }
{
    match block {
        Block::ItemTerm => Some("TP"),
        Block::Block => Some("PP"),
        Block::Meta => Some("nf"),
        _ => None,
    }
}

// The control that the end of a block writes, unless the block is a section.
fn end_control(block: Block) -> Option<&'static str>
    ensures { option_copied result ≡ end_name block }
{
    match block {
        Block::ItemBody => Some("PP"),
        Block::Meta => Some("fi"),
        _ => None,
    }
}

// The control that the end of a section writes, with the heading as its argument.
fn heading_control(block: Block) -> Option<&'static str>
    ensures { option_copied result ≡ heading_name block }
{
    match block {
        Block::Header => Some("SH"),
        Block::Section2 | Block::Section3 | Block::Section4 => Some("SS"),
        _ => None,
    }
}

fn write_control<A: Allocator>(page: &mut RoffWriter<A>, name: &str) -> Result<(), AllocError>
    ensures { OnOk result (page.new ≡ with_written page.old (control_pieces name.now [])) }
{
    page.put(Escape::UnescapedAtNewline, ".")?;
    page.put(Escape::Unescaped, name)?;
    page.put(Escape::UnescapedAtNewline, "")
}

fn write_heading<A: Allocator>(
    page: &mut RoffWriter<A>,
    name: &str,
    heading: &str,
) -> Result<(), AllocError>
    ensures { OnOk result (page.new ≡ with_written page.old (control_pieces name.now (heading.now ∷ []))) }
{
    let word = if heading.is_empty() { "\"\"" } else { heading };
    page.put(Escape::UnescapedAtNewline, ".")?;
    page.put(Escape::Unescaped, name)?;
    page.put(Escape::Unescaped, " ")?;
    page.put(Escape::Spaces, word)?;
    page.put(Escape::UnescapedAtNewline, "")
}

fn write_text<A: Allocator>(
    page: &mut RoffWriter<A>,
    strip_newlines: bool,
    font: Font,
    text: &str,
) -> Result<(), AllocError>
    ensures { OnOk result (page.new ≡ with_written page.old (text_pieces strip_newlines ((font, text.now) ∷ []))) }
{
    let label = if strip_newlines {
        Escape::SpecialNoNewline
    } else {
        Escape::Special
    };
    page.put(Escape::Unescaped, font.escape())?;
    page.put(label, text)?;
    page.put(Escape::Unescaped, RESTORE_FONT)
}
