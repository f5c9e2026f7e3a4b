//! A document as text on a console, its lines broken where they would pass a width.
ghost use Rattle.std.specs.Prelude.{◌≡◌, ◌+◌, ◌^◌, ◌<◌, IfOk, length, string_bytes};
ghost use Rattle.bpaf_doc.specs.Console.Exact.{console_page};
ghost use Rattle.bpaf_doc.specs.Console.Layout.{IsLayout};
ghost use Rattle.bpaf_doc.specs.Buffer.Parts.{ink, HasUtf8Texts};
ghost use Rattle.bpaf_doc.specs.Shown.{console_ink};
ghost use Rattle.bpaf_doc.specs.Console.Steps.Text.{hidden_from_start, hidden_from_end};
ghost use Rattle.bpaf_doc.specs.Console.Steps.Text.{console_text};

use crate::buffer::{Block, Doc, Part};
use std::alloc::{AllocError, Allocator};
use std::fmt;

mod page;
mod pairs;
mod tabs;

use page::Page;
use pairs::Pairs;
use tabs::tab_stop;

/// The columns of a line where no width is given.
pub const MAX_WIDTH: usize = 100;

impl<A: Allocator> Doc<A> {
    /// The document as a text in `alloc`, in full or in brief, with lines that break before a chunk that would pass
    /// `max_width` columns.
    ///
    /// Each character of the shown chunks that is not White_Space is in the result once and in order, with one
    /// backquote for each mark of a term reference. Lines break where a mark or a break chunk asks for it, after a line
    /// of code, and otherwise only where a chunk would pass the width. They are indented by the margin in force, which
    /// the end of each block lowers, also of one whose start pushed none. `docs/console.md` says each rule, and
    /// `console_page` each byte.
    ///
    /// An `AllocError` says that an allocation failed.
    pub fn render_console<B: Allocator + Copy>(
        &self,
        alloc: B,
        full: bool,
        max_width: usize,
    ) -> Result<String<B>, AllocError>
        ensures exact { IfOk result (λ text. string_bytes text ≡ console_page full max_width self.now) }
        ensures ink { IfOk result (λ text. ink (string_bytes text) ≡ console_ink full self.now) }
        ensures layout { IfOk result (λ text. IsLayout self.now full max_width (string_bytes text)) }
    {
        self.lay_out(alloc, full, max_width)
    }

    /// `render_console` at `MAX_WIDTH` columns.
    pub fn monochrome<B: Allocator + Copy>(
        &self,
        alloc: B,
        full: bool,
    ) -> Result<String<B>, AllocError>
        ensures exact { IfOk result (λ text. string_bytes text ≡ console_page full 100 self.now) }
        ensures ink { IfOk result (λ text. ink (string_bytes text) ≡ console_ink full self.now) }
        ensures layout { IfOk result (λ text. IsLayout self.now full 100 (string_bytes text)) }
    {
        self.render_console(alloc, full, MAX_WIDTH)
    }

    // The text, part by part as it is written: it is `console_page`, and the clauses above are theorems about that.
    #[tactic(auto, using(crate::proofs::lemmas::Console::Pages::page_left))]
    fn lay_out<B: Allocator + Copy>(
        &self,
        alloc: B,
        full: bool,
        width: usize,
    ) -> Result<String<B>, AllocError>
        ensures text { IfOk result (λ text. string_bytes text ≡ console_text full width self.now) }
        ensures utf8 { HasUtf8Texts self.now }
        ensures few { length self.now < 2 ^ 59 }
    {
        self.bound_parts();
        let mut page = Page::new(alloc, width, tab_stop(self.parts()));
        let mut pairs = Pairs::new();
        let mut hidden = 0;
        for (index, part) in self.parts().enumerate() {
            match part {
                Part::Text(text, _) => {
                    if hidden == 0 && page.put_text(text, full)? {
                        hidden = 1;
                    }
                }
                Part::Start(block) => {
                    let adjacent = pairs.is_before_pair(self, index, block);
                    if !pairs.skips(index, block) {
                        page.open(block, adjacent)?;
                    }
                    hidden = hidden_from_start(hidden, block);
                }
                Part::End(block) => {
                    if !pairs.skips(index, block) {
                        page.close(block)?;
                    }
                    hidden = hidden_from_end(hidden, block);
                }
            }
        }
        page.finish()
    }
}

// The page takes a `&` to the document's own allocator, so that no second handle is needed.
impl<A: Allocator> fmt::Display for Doc<A> {
    /// The full text at `MAX_WIDTH` columns, made in the document's own allocator. A failed allocation is a
    /// `fmt::Error`.
    fn fmt<W: fmt::Write>(&self, f: &mut fmt::Formatter<W>) -> fmt::Result {
        let text = self.monochrome(self.allocator(), true)?;
        f.write_str(text.as_str())
    }
}

// The count of inline blocks that have to end before texts are shown again, after the start of a block.
fn hidden_from_start(hidden: usize, block: Block) -> usize
    requires { hidden + 1 < 2 ^ 64 }
    ensures { result ≡ hidden_from_start hidden block }
{
    if hidden > 0 && block == Block::InlineBlock {
        hidden + 1
    } else {
        hidden
    }
}

fn hidden_from_end(hidden: usize, block: Block) -> usize
    ensures { result ≡ hidden_from_end hidden block }
{
    if block == Block::InlineBlock {
        hidden.saturating_sub(1)
    } else {
        hidden
    }
}
