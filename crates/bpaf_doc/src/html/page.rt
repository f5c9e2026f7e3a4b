//! HTML: a page that grows by one fragment after another.
ghost use Rattle.std.specs.Prelude.{◌≡◌, ◌++◌, [], if◌then◌else◌, true, false, OnOk, IfOk, string_bytes, filter};
ghost use Rattle.bpaf_doc.specs.Buffer.Parts.{IsWellNested};
ghost use Rattle.bpaf_doc.specs.Splitter.View.{chunk_of};
ghost use Rattle.bpaf_doc.specs.Html.Page.{IsHtmlPageOf, IsHtmlTextPageOf, is_definition_list};
ghost use Rattle.bpaf_doc.specs.Html.Steps.View.{fragment_of, fragments_in, IsTaken};
ghost use Rattle.bpaf_doc.specs.Html.Exact.{html_page};
ghost use Rattle.bpaf_doc.specs.Html.Steps.Page.{blank_page, with_text, with_break, with_words, with_heading};
ghost use Rattle.bpaf_doc.specs.Html.Steps.Page.{is_header, start_tag, end_tag, opening_tags, closing_tags, started};
ghost use Rattle.bpaf_doc.specs.Html.Steps.Page.{ended, chunk_page, page_after, page_after_all};

use super::fragments::{Fragment, Taken, fragments_of};
use super::{Language, Styles, push_spelled, when};
use crate::buffer::{Block, Doc, Style};
use crate::splitter::Chunk;
use std::alloc::{AllocError, Allocator};
use std::marker::Model;

const BREAK: &str = "<br>\n";

const STYLE_SHEET: &str = "
<style>
div.bpaf-doc {
    padding: 14px;
    background-color:var(--code-block-background-color);
    font-family: \"Source Code Pro\", monospace;
    margin-bottom: 0.75em;
}
div.bpaf-doc dt { margin-left: 1em; }
div.bpaf-doc dd { margin-left: 3em; }
div.bpaf-doc dl { margin-top: 0; padding-left: 1em; }
div.bpaf-doc  { padding-left: 1em; }
</style>";

/// The page so far, and what the next tags depend on.
#[derive(Drop)]
struct Page<B: Allocator> {
    text: String<B>,
    // Whether the text is empty or ends in a break.
    fresh: bool,
    // Whether the innermost open block is a definition list, and whether each block around it is one.
    in_list: bool,
    outer: Vec<bool, B>,
}

impl<B: Allocator> Model for Page<B> {
    ghost use Rattle.std.specs.Prelude.{reverse, string_bytes};
    ghost use Rattle.bpaf_doc.specs.Html.Steps.Page.{Written};

    ghost Value = { Written };

    ghost view = { λ page. record {
      bytes = string_bytes page.text;
      fresh = page.fresh;
      in_list = page.in_list;
      outer = reverse page.outer.items;
    } };
}

fn start_tag(block: Block, in_list: bool) -> &'static str
    ensures { result.now ≡ start_tag block in_list }
{
    match block {
        Block::Header => "# ",
        Block::Section2 => "<div>\n",
        Block::Section3 | Block::Section4 => "<div style='padding-left: 0.5em'>",
        Block::ItemTerm => "<dt>",
        Block::ItemBody => { if in_list { "<dd>" } else { "<li>" } }
        Block::DefinitionList => "<dl>",
        Block::Block => "<p>",
        Block::InlineBlock | Block::TermRef | Block::Meta | Block::Mono => "",
    }
}

fn end_tag(block: Block, in_list: bool) -> &'static str
    ensures { result.now ≡ end_tag block in_list }
{
    match block {
        Block::Section2 | Block::Section3 | Block::Section4 => "</div>",
        Block::ItemTerm => "</dt>\n",
        Block::ItemBody => { if in_list { "</dd>\n" } else { "</li>\n" } }
        Block::DefinitionList => "</dl>\n",
        Block::Block => "</p>",
        Block::Header | Block::InlineBlock | Block::TermRef | Block::Meta | Block::Mono => "",
    }
}

fn is_header(block: Block) -> bool
    ensures { result ≡ is_header block }
{
    matches!(block, Block::Header)
}

fn is_list(block: Block) -> bool
    ensures { result ≡ is_definition_list block }
{
    matches!(block, Block::DefinitionList)
}

impl<B: Allocator + Copy> Page<B> {
    fn new(alloc: B) -> Self
        ensures { result ≡ blank_page }
    {
        Page {
            text: String::new(alloc),
            fresh: true,
            in_list: false,
            outer: Vec::new(alloc),
        }
    }
}

impl<B: Allocator> Page<B> {
    fn into_text(self) -> String<B>
        ensures { string_bytes result ≡ self.bytes }
    {
        let Page {
            text,
            fresh: _,
            in_list: _,
            outer: _,
        } = self;
        text
    }

    // Writes tags or a text as it stands.
    fn put(&mut self, text: &str) -> Result<(), AllocError>
        ensures { OnOk result (self.new ≡ with_text self.old text.now) }
    {
        self.text.push_str(text)?;
        self.fresh = self.fresh && text.is_empty();
        Ok(())
    }

    fn put_break(&mut self) -> Result<(), AllocError>
        ensures { OnOk result (self.new ≡ with_break self.old) }
    {
        self.text.push_str(BREAK)?;
        self.fresh = true;
        Ok(())
    }

    // Writes a text with its angles as entities. Inlined, like `take`, since a call for each chunk costs as much as a
    // short one.
    #[inline(always)]
    fn put_words(&mut self, text: &str) -> Result<(), AllocError>
        ensures { OnOk result (self.new ≡ with_words self.old text.now) }
    {
        push_spelled(&mut self.text, text, Language::Html)?;
        self.fresh = self.fresh && text.is_empty();
        Ok(())
    }

    // A break before and after a heading, unless there is one.
    fn head(&mut self, block: Block) -> Result<(), AllocError>
        ensures { OnOk result (self.new ≡ with_heading self.old block) }
    {
        if is_header(block) && !self.fresh {
            self.put_break()?;
        }
        Ok(())
    }

    fn open_text(&mut self, style: Style) -> Result<(), AllocError>
        ensures { OnOk result (self.new ≡ with_text self.old (opening_tags style)) }
    {
        let styles = Styles::from(style);
        self.put(when(styles.mono, "<tt>"))?;
        self.put(when(styles.bold, "<b>"))?;
        self.put(when(styles.italic, "<i>"))
    }

    fn close_text(&mut self, style: Style) -> Result<(), AllocError>
        ensures { OnOk result (self.new ≡ with_text self.old (closing_tags style)) }
    {
        let styles = Styles::from(style);
        self.put(when(styles.italic, "</i>"))?;
        self.put(when(styles.bold, "</b>"))?;
        self.put(when(styles.mono, "</tt>"))
    }

    // The start of a block: its tag, and what it means for the blocks in it.
    fn start(&mut self, block: Block) -> Result<(), AllocError>
        ensures { OnOk result (self.new ≡ started self.old block) }
    {
        self.head(block)?;
        self.put(start_tag(block, self.in_list))?;
        self.outer.push(self.in_list)?;
        self.in_list = is_list(block);
        Ok(())
    }

    // The end of a block: its tag, and the state from before its start.
    fn end(&mut self, block: Block) -> Result<(), AllocError>
        ensures { OnOk result (self.new ≡ ended self.old block) }
    {
        self.in_list = self.outer.pop().unwrap_or(false);
        self.head(block)?;
        self.put(end_tag(block, self.in_list))
    }

    fn chunk(&mut self, chunk: Chunk<'_>) -> Result<(), AllocError>
        ensures { OnOk result (self.new ≡ chunk_page self.old (chunk_of chunk.entry)) }
    {
        match chunk {
            Chunk::Raw(text, _) => self.put_words(text),
            Chunk::Paragraph | Chunk::LineBreak => self.put_break(),
        }
    }

    fn fragment(&mut self, fragment: Fragment<'_>) -> Result<(), AllocError>
        ensures { OnOk result (self.new ≡ page_after self.old (fragment_of fragment.entry)) }
    {
        match fragment {
            Fragment::TextStart(style) => self.open_text(style),
            Fragment::Shown(_, chunk) => self.chunk(chunk),
            Fragment::TextEnd(style) => self.close_text(style),
            Fragment::Hidden => Ok(()),
            Fragment::Start(block) => self.start(block),
            Fragment::End(block) => self.end(block),
        }
    }

    #[tactic(auto, using(crate::proofs::lemmas::Html::Runs::run_page))]
    #[inline(always)]
    fn take(&mut self, taken: Taken<'_>) -> Result<(), AllocError>
        requires { IsTaken taken }
        ensures { OnOk result (self.new ≡ page_after_all self.old (fragments_in taken.entry)) }
    {
        match taken {
            Taken::Words(_, run) => {
                self.put_words(run)?;
                Ok(())
            }
            Taken::Code(_, line) => self.put_words(line),
            Taken::One(fragment) => self.fragment(fragment),
        }
    }
}

impl<A: Allocator> Doc<A> {
    /// The document as HTML, as a text in `alloc`: all of it if `full`, otherwise without what brief hides. With
    /// `include_css` the style sheet follows it.
    ///
    /// For every list of parts the bytes are those of `html_page`, a function of the document by the rules of
    /// `docs/html.md` (clause `exact`). Without tags and newlines, what comes before the style sheet is the slices of
    /// the shown texts, with `<` and `>` as entities, and `# ` at each start of a header (`text`). For a well-nested
    /// document it is well-nested HTML (`html`): each shown text has the tags of its style and each block its own, and
    /// there is a `<br>` between two inked slices that have a paragraph, a line break or a mark of a header between
    /// them.
    ///
    /// An `AllocError` says that an allocation failed, for the text or for the list of open blocks.
    pub fn render_html<B: Allocator + Copy>(
        &self,
        alloc: B,
        full: bool,
        include_css: bool,
    ) -> Result<String<B>, AllocError>
        ensures html { IfOk result (λ answer. IsWellNested self.now
            → IsHtmlPageOf self.now full include_css (string_bytes answer)) }
        ensures text { IfOk result (λ answer. IsHtmlTextPageOf self.now full include_css (string_bytes answer)) }
        ensures exact { IfOk result (λ answer. string_bytes answer ≡ html_page full include_css self.now) }
    {
        let mut page = Page::new(alloc);
        for taken in fragments_of(self, full) {
            page.take(taken)?;
        }
        let mut text = page.into_text();
        text.push_str(when(include_css, STYLE_SHEET))?;
        Ok(text)
    }

    /// `render_html` in full and without the style sheet, for a page that has its own.
    pub fn full_html<B: Allocator + Copy>(&self, alloc: B) -> Result<String<B>, AllocError>
        ensures html { IfOk result (λ answer. IsWellNested self.now
            → IsHtmlPageOf self.now true false (string_bytes answer)) }
        ensures text { IfOk result (λ answer. IsHtmlTextPageOf self.now true false (string_bytes answer)) }
        ensures exact { IfOk result (λ answer. string_bytes answer ≡ html_page true false self.now) }
    {
        self.render_html(alloc, true, false)
    }

    /// `render_html` in full and followed by the style sheet, for a page that has none.
    pub fn styled_html<B: Allocator + Copy>(&self, alloc: B) -> Result<String<B>, AllocError>
        ensures html { IfOk result (λ answer. IsWellNested self.now
            → IsHtmlPageOf self.now true true (string_bytes answer)) }
        ensures text { IfOk result (λ answer. IsHtmlTextPageOf self.now true true (string_bytes answer)) }
        ensures exact { IfOk result (λ answer. string_bytes answer ≡ html_page true true self.now) }
    {
        self.render_html(alloc, true, true)
    }
}
