//! The pieces of a document that HTML and markdown show, one after another: the same for both, in full and in brief.
ghost use Rattle.std.specs.Prelude.{◌≡◌, ◌∷◌, [], IfNone, IfSome, MatchOption};
ghost use Rattle.bpaf_doc.specs.Html.Fragments.{Shown, shown_fragments};
ghost use Rattle.bpaf_doc.specs.Splitter.Chunks.{Raw, code_weight, is_paragraph};
ghost use Rattle.bpaf_doc.specs.Splitter.View.{chunk_of};
ghost use Rattle.bpaf_doc.specs.Html.Steps.View.{fragment_of};
ghost use Rattle.bpaf_doc.specs.Shown.{is_inline};

use crate::buffer::{Block, Doc, Part, Parts, Style};
use crate::splitter::{Chunk, Splitter, split};
use std::alloc::Allocator;
use std::marker::Model;

/// The start of a shown text, a chunk of it, its end, a hidden text, or a mark.
#[derive(Clone, Copy)]
pub(super) enum Fragment<'a> {
    TextStart(Style),
    Shown(Style, Chunk<'a>),
    TextEnd(Style),
    Hidden,
    Start(Block),
    End(Block),
}

/// What is returned at once: a run of a shown text, which stands for its chunks, a code line, or another fragment.
#[derive(Clone, Copy)]
pub(super) enum Taken<'a> {
    Words(Style, &'a str),
    Code(Style, &'a str),
    One(Fragment<'a>),
}

/// The remaining fragments.
#[derive(Drop)]
pub(super) struct Fragments<'a> {
    full: bool,
    parts: Parts<'a>,
    // Whether a shown text was begun and not ended, its style, and its remaining chunks.
    in_text: bool,
    style: Style,
    chunks: Splitter<'a>,
    // How many ends of inline blocks hiding lasts, less the starts between: 0 where texts are shown.
    depth: usize,
}

impl<'a> Model for Fragments<'a> {
    ghost use Rattle.std.specs.Prelude.{◌≡◌, ◌+◌, ◌<◌, ◌^◌, ◌++◌, List, length, true, if◌then◌else◌};
    ghost use Rattle.bpaf_doc.specs.Html.Fragments.{Fragment};
    ghost use Rattle.bpaf_doc.specs.Html.Steps.View.{walk, text_rest, depth_after_text};

    ghost Value = { List Fragment };

    ghost view = { λ f. if f.in_text
        then text_rest f.full f.style f.chunks ++ walk f.full (depth_after_text f.full f.chunks) f.parts
        else walk f.full f.depth f.parts };

    ghost invariant = { λ f. (length f.parts + f.depth < 2 ^ 64)
        × (f.in_text ≡ true → (f.depth ≡ 0) × (length f.parts + 1 < 2 ^ 64)) };
}

/// The fragments of a document: all of its texts in full, fewer in brief.
#[tactic(auto, using(crate::proofs::lemmas::Html::Fragments::Walking::walked))]
pub(super) fn fragments_of<A: Allocator>(doc: &Doc<A>, full: bool) -> Fragments<'_>
    ensures { result ≡ shown_fragments full doc.now }
{
    // A depth is at most the number of parts, and so it fits.
    let _count = doc.len();
    Fragments {
        full,
        parts: doc.parts(),
        in_text: false,
        style: Style::Text,
        chunks: split(""),
        depth: 0,
    }
}

fn is_inline(block: Block) -> bool
    ensures { result ≡ is_inline block }
{
    matches!(block, Block::InlineBlock)
}

fn is_paragraph(chunk: Chunk<'_>) -> bool
    ensures { result ≡ is_paragraph (chunk_of chunk.entry) }
{
    matches!(chunk, Chunk::Paragraph)
}

impl<'a> Fragments<'a> {
    /// Takes a code line of a shown text. None where another fragment comes next.
    #[inline(always)]
    pub(super) fn take_code(&mut self) -> Option<&'a str>
        ensures code { IfSome result (λ line. (style : Style)
            × (self.old ≡ Shown style (Raw line.now code_weight) ∷ self.new)) }
        ensures none { IfNone result (self.new ≡ self.old) }
    {
        if self.in_text {
            self.chunks.take_code()
        } else {
            None
        }
    }

    // The next fragment, never a run.
    #[inline(always)]
    fn next_fragment(&mut self) -> Option<Fragment<'a>>
        ensures steps { MatchOption result ((self.old ≡ []) × (self.new ≡ []))
            (λ x. self.old ≡ fragment_of x ∷ self.new) }
    {
        if self.in_text {
            return match self.chunks.next() {
                Some(chunk) => {
                    if !self.full && is_paragraph(chunk) {
                        self.depth = 1;
                        self.in_text = false;
                        Some(Fragment::TextEnd(self.style))
                    } else {
                        Some(Fragment::Shown(self.style, chunk))
                    }
                }
                None => {
                    self.in_text = false;
                    Some(Fragment::TextEnd(self.style))
                }
            };
        }
        match self.parts.next()? {
            Part::Text(text, style) => {
                if self.depth > 0 {
                    return Some(Fragment::Hidden);
                }
                self.in_text = true;
                self.style = style;
                self.chunks = split(text);
                Some(Fragment::TextStart(style))
            }
            Part::Start(block) => {
                if self.depth > 0 && is_inline(block) {
                    self.depth += 1;
                }
                Some(Fragment::Start(block))
            }
            Part::End(block) => {
                if self.depth > 0 && is_inline(block) {
                    self.depth -= 1;
                }
                Some(Fragment::End(block))
            }
        }
    }
}

impl<'a> Iterator for Fragments<'a> {
    ghost use Rattle.std.specs.Iterator.{item_count};
    ghost use Rattle.bpaf_doc.specs.Html.Steps.View.{YieldsTaken};

    type Item = Taken<'a>;

    ghost next_gives = { YieldsTaken };

    ghost remaining = { item_count (λ left. left) };

    // Inlined, since a call passes a fragment through memory, which costs more than the fragment.
    #[inline(always)]
    fn next(&mut self) -> Option<Taken<'a>> {
        if self.in_text {
            if let Some(run) = self.chunks.take_line() {
                return Some(Taken::Words(self.style, run));
            }
            if let Some(line) = self.chunks.take_code() {
                return Some(Taken::Code(self.style, line));
            }
        }
        let fragment = self.next_fragment()?;
        Some(Taken::One(fragment))
    }
}
