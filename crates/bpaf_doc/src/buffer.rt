//! Documents of styled text and block marks.

ghost use Rattle.std.specs.Prelude.{◌≡◌, ◌+◌, ◌^◌, ◌<◌, ◌≤◌, ◌==◌, [], ◌∷◌, ◌++◌, All, Bool, true, false, drop, map};
ghost use Rattle.std.specs.Prelude.{length, IfOk, IfSome, MatchOption, OnOk, OnErr, encode_utf8, slice_get};
ghost use Rattle.std.specs.Prelude.{string_bytes, vec_len, vec_capacity};
ghost use Rattle.std.specs.List.{list_any};
ghost use Rattle.std.specs.Option.{option_map};
ghost use Rattle.bpaf_doc.specs.Buffer.Steps.Ends.{CanMove, end_before, is_text_of, moved, part_with, with_last_end};
ghost use Rattle.bpaf_doc.specs.Buffer.Steps.Ends.{with_text_end};
ghost use Rattle.bpaf_doc.specs.Buffer.Growth.{Grows, IsCheckpointOf, RollsBack, WasAt};
ghost use Rattle.bpaf_doc.specs.Buffer.View.{IsMark, mark_parts, part_of};
ghost use Rattle.bpaf_doc.specs.Buffer.Parts.{HasUtf8Texts, IsWellNested, document_bytes};
ghost use Rattle.bpaf_doc.specs.Buffer.FirstLine.{IsSplitLine, first_line_of, leading_texts};
ghost use Rattle.bpaf_doc.specs.Buffer.Writes.{doc_writes, document_of, em_doc_writes, is_newline, pair_write};
ghost use Rattle.bpaf_doc.specs.Buffer.Writes.{path_writes, title_writes, titled, with_text, with_writes};

use std::alloc::{AllocError, Allocator, Global};
use std::marker::Model;

/// How a text is shown.
#[derive(Clone, Copy, Debug, PartialEq, Eq, PartialOrd, Ord)]
pub enum Style {
    Text,
    Emphasis,
    Literal,
    Metavar,
    Invalid,
}

/// What the marks of a start and an end enclose.
#[derive(Clone, Copy, Debug, PartialEq, Eq, PartialOrd, Ord)]
pub enum Block {
    Header,
    Section2,
    Section3,
    Section4,
    ItemTerm,
    ItemBody,
    DefinitionList,
    Block,
    InlineBlock,
    TermRef,
    Meta,
    Mono,
}

/// A text by its length in bytes, or a mark. `Doc::token` takes a mark.
#[derive(Clone, Copy, Debug)]
pub enum Token {
    Text { bytes: usize, style: Style },
    BlockStart(Block),
    BlockEnd(Block),
}

/// One part of a document, as `parts` gives it.
#[derive(Clone, Copy, Debug, PartialEq, Eq)]
pub enum Part<'a> {
    Text(&'a str, Style),
    Start(Block),
    End(Block),
}

/// What a part is, without its text.
#[derive(Clone, Copy)]
enum Kind {
    Text(Style),
    Start(Block),
    End(Block),
}

impl Kind {
    fn is_text_of(self, style: Style) -> bool
        ensures { result ≡ is_text_of self style }
    {
        match self {
            Kind::Text(other) => other == style,
            Kind::Start(_) | Kind::End(_) => false,
        }
    }

    fn part(self, text: &str) -> Part<'_>
        ensures { part_of result ≡ part_with self text.now }
    {
        match self {
            Kind::Text(style) => Part::Text(text, style),
            Kind::Start(block) => Part::Start(block),
            Kind::End(block) => Part::End(block),
        }
    }
}

/// A part's kind, and where its text ends in the payload. A mark ends where the part before it does.
#[derive(Clone, Copy)]
struct PartEnd {
    kind: Kind,
    end: usize,
}

/// A point up to which a document was written.
#[derive(Clone, Copy, Debug)]
pub struct Checkpoint {
    parts: usize,
    bytes: usize,
}

impl Model for Checkpoint {
    ghost use Rattle.bpaf_doc.specs.Buffer.Growth.{Reached};

    ghost Value = { Reached };

    ghost view = { λ at. record { parts = at.parts; bytes = at.bytes } };

    ghost inverse = { λ at. record { parts = at.parts; bytes = at.bytes } };
}

/// A document: styled texts, and marks that start and end blocks. A call whose allocation fails returns `AllocError`,
/// and leaves every document as it was.
#[derive(Drop)]
pub struct Doc<A: Allocator = Global> {
    payload: String<A>,
    ends: Vec<PartEnd, A>,
}

impl<A: Allocator> Model for Doc<A> {
    ghost use Rattle.std.specs.Prelude.{List, string_bytes};
    ghost use Rattle.bpaf_doc.specs.Buffer.Steps.Ends.{parts_from, AreEnds};
    ghost use Rattle.bpaf_doc.specs.Buffer.Parts.{Part};

    ghost Value = { List Part };

    ghost view = { λ doc. parts_from 0 doc.ends.items (string_bytes doc.payload) };

    ghost invariant = { λ doc. AreEnds 0 doc.ends.items (string_bytes doc.payload) };
}

impl<A: Allocator + Copy> Doc<A> {
    /// A document without parts. It takes no memory.
    pub fn new(alloc: A) -> Doc<A>
        ensures { result ≡ [] }
    {
        Doc {
            payload: String::new(alloc),
            ends: Vec::new(alloc),
        }
    }

    /// A document of one plain text.
    pub fn from_text(alloc: A, text: &str) -> Result<Doc<A>, AllocError>
        ensures { IfOk result (λ doc. doc ≡ with_text [] text.now Style.Text) }
    {
        let mut doc = Doc::new(alloc);
        doc.text(text)?;
        Ok(doc)
    }

    /// A document of one plain text, which it takes over without copying. Where an allocation fails, the text is
    /// dropped.
    pub fn from_string(text: String<A>) -> Result<Doc<A>, AllocError>
        ensures { IfOk result (λ doc. doc ≡ with_text [] (string_bytes text) Style.Text) }
    {
        let mut ends = Vec::new(*text.allocator());
        ends.push(PartEnd {
            kind: Kind::Text(Style::Text),
            end: text.len(),
        })?;
        Ok(Doc {
            payload: text,
            ends,
        })
    }

    /// A document of these texts with their styles, written in order.
    pub fn from_pairs(alloc: A, pairs: &[(&str, Style)]) -> Result<Doc<A>, AllocError>
        ensures ok { IfOk result (λ doc. doc ≡ document_of (map pair_write pairs.now)) }
        ensures nested { IfOk result IsWellNested }
    {
        let mut doc = Doc::new(alloc);
        for (text, style) in pairs {
            doc.write_str(text, *style)?;
        }
        Ok(doc)
    }

    /// A document with equal parts, over the same allocator.
    pub fn clone(&self) -> Result<Doc<A>, AllocError>
        ensures { IfOk result (λ doc. doc ≡ self.now) }
    {
        let alloc = *self.payload.allocator();
        Ok(Doc {
            payload: String::from_str(alloc, self.payload.as_str())?,
            ends: Vec::from_slice(alloc, self.ends.as_slice())?,
        })
    }

    /// The first line of the document: its texts up to the first newline or mark. `None` where there are no parts.
    #[tactic(auto, using(crate::proofs::lemmas::Buffer::Nesting::nested_front))]
    pub fn first_line(&self) -> Result<Option<Doc<A>>, AllocError>
        ensures line { IfOk result (λ line. line ≡ first_line_of self.now) }
        ensures nested { IfOk result (λ line. IfSome line IsWellNested) }
    {
        if self.is_empty() {
            return Ok(None);
        }
        Ok(Some(self.leading_texts()?))
    }

    fn leading_texts(&self) -> Result<Doc<A>, AllocError>
        ensures { IfOk result (λ line. line ≡ leading_texts self.now) }
    {
        let mut line = Doc::new(*self.payload.allocator());
        for part in self.parts() {
            let Part::Text(text, style) = part else {
                break;
            };
            match split_line(text) {
                None => line.push_whole(text, style)?,
                Some((front, _)) => {
                    line.push_whole(front, style)?;
                    break;
                }
            }
        }
        Ok(line)
    }
}

impl<A: Allocator> Doc<A> {
    /// Writes a text. It joins the last part if that is a text of the same style, and otherwise is a part of its own,
    /// even if it is empty.
    #[tactic(auto, using(crate::proofs::lemmas::Buffer::Nesting::text_pushed))]
    pub fn write_str(&mut self, text: &str, style: Style) -> Result<(), AllocError>
        ensures ok { OnOk result (self.new ≡ with_text self.old text.now style) }
        ensures err { OnErr result (self.new ≡ self.old) }
        ensures nested { IsWellNested self.old → IsWellNested self.new }
    {
        self.ends.reserve(1)?;
        self.payload.push_str(text)?;
        push_text(&mut self.ends, style, self.payload.len());
        Ok(())
    }

    /// Writes a character as `write_str` writes a text.
    #[tactic(auto, using(crate::proofs::lemmas::Buffer::Nesting::text_pushed))]
    pub fn write_char(&mut self, character: char, style: Style) -> Result<(), AllocError>
        ensures ok { OnOk result (self.new ≡ with_text self.old (encode_utf8 character) style) }
        ensures err { OnErr result (self.new ≡ self.old) }
        ensures nested { IsWellNested self.old → IsWellNested self.new }
    {
        self.ends.reserve(1)?;
        self.payload.push(character)?;
        push_text(&mut self.ends, style, self.payload.len());
        Ok(())
    }

    /// Writes a plain text.
    pub fn text(&mut self, text: &str) -> Result<(), AllocError>
        ensures ok { OnOk result (self.new ≡ with_text self.old text.now Style.Text) }
        ensures err { OnErr result (self.new ≡ self.old) }
        ensures nested { IsWellNested self.old → IsWellNested self.new }
    {
        self.write_str(text, Style::Text)
    }

    /// Writes a text that a user types exactly as it is.
    pub fn literal(&mut self, text: &str) -> Result<(), AllocError>
        ensures ok { OnOk result (self.new ≡ with_text self.old text.now Style.Literal) }
        ensures err { OnErr result (self.new ≡ self.old) }
        ensures nested { IsWellNested self.old → IsWellNested self.new }
    {
        self.write_str(text, Style::Literal)
    }

    /// Writes a text with emphasis.
    pub fn emphasis(&mut self, text: &str) -> Result<(), AllocError>
        ensures ok { OnOk result (self.new ≡ with_text self.old text.now Style.Emphasis) }
        ensures err { OnErr result (self.new ≡ self.old) }
        ensures nested { IsWellNested self.old → IsWellNested self.new }
    {
        self.write_str(text, Style::Emphasis)
    }

    /// Writes a text that a user typed wrongly.
    pub fn invalid(&mut self, text: &str) -> Result<(), AllocError>
        ensures ok { OnOk result (self.new ≡ with_text self.old text.now Style.Invalid) }
        ensures err { OnErr result (self.new ≡ self.old) }
        ensures nested { IsWellNested self.old → IsWellNested self.new }
    {
        self.write_str(text, Style::Invalid)
    }

    /// Adds the mark. The token must not be a text.
    pub fn token(&mut self, token: Token) -> Result<(), AllocError>
        requires { IsMark token }
        ensures ok { OnOk result (self.new ≡ self.old ++ mark_parts token) }
        ensures err { OnErr result (self.new ≡ self.old) }
    {
        match token {
            Token::Text { bytes: _, style: _ } => unreachable!(),
            Token::BlockStart(block) => self.push_empty(Kind::Start(block)),
            Token::BlockEnd(block) => self.push_empty(Kind::End(block)),
        }
    }

    /// Adds the parts of another document as they are, in an inline block.
    #[tactic(auto, using(crate::proofs::lemmas::Buffer::Nesting::nested_parts))]
    pub fn doc<B: Allocator>(&mut self, other: &Doc<B>) -> Result<(), AllocError>
        ensures ok { OnOk result (self.new ≡ with_writes self.old (doc_writes other.now)) }
        ensures err { OnErr result (self.new ≡ self.old) }
        ensures nested { IsWellNested self.old → IsWellNested other.now → IsWellNested self.new }
    {
        let before = self.checkpoint();
        let written = self.write_doc(other);
        self.settle(before, written)
    }

    fn write_doc<B: Allocator>(&mut self, other: &Doc<B>) -> Result<(), AllocError>
        ensures ok { OnOk result (self.new ≡ with_writes self.old (doc_writes other.now)) }
        ensures err { OnErr result (Grows self.old self.new) }
    {
        self.push_empty(Kind::Start(Block::InlineBlock))?;
        self.push_parts(other.parts())?;
        self.push_empty(Kind::End(Block::InlineBlock))
    }

    /// Adds another document in an inline block, with its first part as a title if that is a plain text. The title is
    /// that text up to its first newline, in emphasis; the rest of the text and the other parts follow in a section.
    /// Without a newline the whole text is the title, and the other parts follow as they are. A document that does not
    /// begin with a plain text is added as it is.
    #[tactic(auto, using(crate::proofs::lemmas::Buffer::Nesting::nested_parts))]
    pub fn em_doc<B: Allocator>(&mut self, other: &Doc<B>) -> Result<(), AllocError>
        ensures ok { OnOk result (self.new ≡ with_writes self.old (em_doc_writes other.now)) }
        ensures err { OnErr result (self.new ≡ self.old) }
        ensures nested { IsWellNested self.old → IsWellNested other.now → IsWellNested self.new }
    {
        let before = self.checkpoint();
        let written = self.write_em_doc(other);
        self.settle(before, written)
    }

    fn write_em_doc<B: Allocator>(&mut self, other: &Doc<B>) -> Result<(), AllocError>
        ensures ok { OnOk result (self.new ≡ with_writes self.old (em_doc_writes other.now)) }
        ensures err { OnErr result (Grows self.old self.new) }
    {
        self.push_empty(Kind::Start(Block::InlineBlock))?;
        self.write_titled(other)?;
        self.push_empty(Kind::End(Block::InlineBlock))
    }

    fn write_titled<B: Allocator>(&mut self, other: &Doc<B>) -> Result<(), AllocError>
        ensures ok { OnOk result (self.new ≡ with_writes self.old (titled other.now)) }
        ensures err { OnErr result (Grows self.old self.new) }
    {
        let mut others = other.parts();
        match others.next() {
            Some(Part::Text(text, Style::Text)) => self.write_title(text, others),
            _ => self.push_parts(other.parts()),
        }
    }

    fn write_title(&mut self, text: &str, others: Parts<'_>) -> Result<(), AllocError>
        ensures ok { OnOk result (self.new ≡ with_writes self.old (title_writes text.now others.entry)) }
        ensures err { OnErr result (Grows self.old self.new) }
    {
        match split_line(text) {
            None => {
                self.emphasis(text)?;
                self.push_parts(others)
            }
            Some((title, rest)) => {
                self.emphasis(title)?;
                self.push_empty(Kind::Start(Block::Section3))?;
                self.text(rest)?;
                self.push_parts(others)?;
                self.push_empty(Kind::End(Block::Section3))
            }
        }
    }

    /// Writes each name literally, with a blank after it.
    #[tactic(auto, using(crate::proofs::lemmas::Buffer::Nesting::nested_parts))]
    pub fn write_path<B: Allocator>(&mut self, path: &[String<B>]) -> Result<(), AllocError>
        ensures ok { OnOk result (self.new ≡ with_writes self.old (path_writes (map string_bytes path.now))) }
        ensures err { OnErr result (self.new ≡ self.old) }
        ensures nested { IsWellNested self.old → IsWellNested self.new }
    {
        let before = self.checkpoint();
        let written = self.write_names(path);
        self.settle(before, written)
    }

    fn write_names<B: Allocator>(&mut self, path: &[String<B>]) -> Result<(), AllocError>
        ensures ok { OnOk result (self.new ≡ with_writes self.old (path_writes (map string_bytes path.now))) }
        ensures err { OnErr result (Grows self.old self.new) }
    {
        for name in path {
            self.literal(name.as_str())?;
            self.text(" ")?;
        }
        Ok(())
    }

    /// Reserves memory for that many more parts and that many more bytes of text, for a caller who knows what comes.
    /// The document stays as it is, even after `AllocError`.
    pub fn reserve(&mut self, parts: usize, bytes: usize) -> Result<(), AllocError>
        ensures { self.new ≡ self.old }
    {
        self.ends.reserve(parts)?;
        self.payload.reserve(bytes)
    }

    /// How far the document is written. `roll_back` can undo what is written after it.
    pub fn checkpoint(&self) -> Checkpoint
        ensures { IsCheckpointOf self.now result }
    {
        Checkpoint {
            parts: self.len(),
            bytes: self.joined_texts().len(),
        }
    }

    fn joined_texts(&self) -> &str
        ensures joined { result.now ≡ document_bytes self.now }
        ensures utf8 { HasUtf8Texts self.now }
    {
        self.payload.as_str()
    }

    /// Undoes what was written since the document was at that checkpoint.
    pub fn roll_back(&mut self, to: Checkpoint)
        requires { WasAt to self.old }
        ensures { RollsBack to self.old self.new }
    {
        self.payload.truncate(to.bytes);
        self.ends.truncate(to.parts);
        move_last_end(&mut self.ends, to.bytes);
    }

    /// Returns `written`, and if that is an error, undoes what was written since the document was at that checkpoint.
    /// So what is written in several steps is written whole or not at all.
    pub fn settle(
        &mut self,
        before: Checkpoint,
        written: Result<(), AllocError>,
    ) -> Result<(), AllocError>
        requires { OnErr written (WasAt before self.old) }
        ensures same { result ≡ written }
        ensures ok { OnOk written (self.new ≡ self.old) }
        ensures err { OnErr written (RollsBack before self.old self.new) }
    {
        if written.is_err() {
            self.roll_back(before);
        }
        written
    }

    // Adds a part without bytes.
    fn push_empty(&mut self, kind: Kind) -> Result<(), AllocError>
        ensures ok { OnOk result (self.new ≡ self.old ++ part_with kind [] ∷ []) }
        ensures err { OnErr result (self.new ≡ self.old) }
    {
        let end = self.payload.len();
        self.ends.push(PartEnd { kind, end })?;
        Ok(())
    }

    // Adds a text that joins no part.
    fn push_whole(&mut self, text: &str, style: Style) -> Result<(), AllocError>
        ensures ok { OnOk result (self.new ≡ self.old ++ part_with (Kind.Text style) text.now ∷ []) }
        ensures err { OnErr result (self.new ≡ self.old) }
    {
        self.ends.reserve(1)?;
        self.payload.push_str(text)?;
        self.ends.push_reserved(PartEnd {
            kind: Kind::Text(style),
            end: self.payload.len(),
        });
        Ok(())
    }

    // Adds parts as they are: a text joins no part.
    fn push_parts(&mut self, parts: Parts<'_>) -> Result<(), AllocError>
        ensures ok { OnOk result (self.new ≡ self.old ++ parts.entry) }
        ensures err { OnErr result (self.new ≡ self.old) }
    {
        self.ends.reserve(parts.ends.len())?;
        let start = self.payload.len();
        self.payload.push_str(parts.text)?;
        push_moved(&mut self.ends, parts.ends, parts.start, start);
        Ok(())
    }
}

impl<A: Allocator> Doc<A> {
    /// Whether there are no parts.
    #[tactic(auto, using(crate::proofs::lemmas::Buffer::Ends::part_count))]
    pub fn is_empty(&self) -> bool
        ensures { result ≡ (length self.now == 0) }
    {
        self.ends.is_empty()
    }

    /// The number of parts.
    #[tactic(auto, using(crate::proofs::lemmas::Buffer::Ends::part_count))]
    pub fn len(&self) -> usize
        ensures { result ≡ length self.now }
    {
        self.ends.len()
    }

    /// How many bytes the texts have together.
    pub fn text_len(&self) -> usize
        ensures { result ≡ length (document_bytes self.now) }
    {
        let texts = self.joined_texts();
        texts.len()
    }

    // States a bound on the parts: each takes 16 bytes, and all of them less than 2^63.
    #[tactic(auto, using(crate::proofs::lemmas::Buffer::Ends::part_count))]
    pub(crate) fn bound_parts(&self)
        ensures { length self.now < 2 ^ 59 }
    {
        let few = self.ends.as_slice().len() < 1 << 59;
        prove!(few);
    }

    // The allocator that its memory comes from.
    pub(crate) fn allocator(&self) -> &A {
        self.payload.allocator()
    }

    /// The parts, in order.
    pub fn parts(&self) -> Parts<'_>
        ensures parts { result ≡ self.now }
        ensures utf8 { HasUtf8Texts self.now }
        ensures bound { length self.now < 2 ^ 59 }
    {
        self.bound_parts();
        Parts {
            text: self.payload.as_str(),
            start: 0,
            ends: self.ends.as_slice(),
        }
    }

    /// The part at that place, counted from 0; `None` from `len` on. It does not walk over the parts before.
    #[tactic(auto, using(crate::proofs::lemmas::Buffer::Ends::next_slice))]
    pub fn part_at(&self, index: usize) -> Option<Part<'_>>
        ensures { option_map part_of result ≡ slice_get self.now index }
    {
        if index < self.len() {
            self.parts_after(index).next()
        } else {
            None
        }
    }

    // The parts without the first `count`.
    fn parts_after(&self, count: usize) -> Parts<'_>
        requires { count ≤ length self.now }
        ensures { result ≡ drop count self.now }
    {
        let start = start_of(self.ends.as_slice(), count);
        let (_, text) = self.payload.as_str().split_at(start);
        let (_, ends) = self.ends.as_slice().split_at(count);
        Parts { text, start, ends }
    }
}

// A text up to its first newline, and the text after that.
fn split_line(text: &str) -> Option<(&str, &str)>
    ensures { MatchOption result (list_any is_newline text.now ≡ false)
        (λ lines. IsSplitLine text.now lines.0.now lines.1.now) }
{
    text.split_once('\n')
}

// Where the part at that place starts.
#[tactic(auto, using(crate::proofs::lemmas::Buffer::Ends::read_end))]
fn start_of(ends: &[PartEnd], index: usize) -> usize
    requires { index ≤ length ends.now }
    ensures { result ≡ end_before 0 ends.now index }
{
    if index == 0 { 0 } else { ends[index - 1].end }
}

// Adds a text that ends here; if the last part is a text of the same style, moves its end here instead.
#[tactic(auto, using(crate::proofs::lemmas::Buffer::Ends::text_ends))]
fn push_text<A: Allocator>(ends: &mut Vec<PartEnd, A>, style: Style, end: usize)
    requires { vec_len ends.old < vec_capacity ends.old }
    ensures { ends.new.items ≡ with_text_end ends.old.items style end }
{
    if let Some(last) = ends.pop() {
        if !last.kind.is_text_of(style) {
            ends.push_reserved(last);
        }
    }
    ends.push_reserved(PartEnd {
        kind: Kind::Text(style),
        end,
    });
}

// Moves the end of the last part here, if there is one.
#[tactic(auto, using(crate::proofs::lemmas::Buffer::Ends::popped_end))]
fn move_last_end<A: Allocator>(ends: &mut Vec<PartEnd, A>, end: usize)
    ensures { ends.new.items ≡ with_last_end ends.old.items end }
{
    if let Some(last) = ends.pop() {
        ends.push_reserved(PartEnd {
            kind: last.kind,
            end,
        });
    }
}

// Adds parts whose texts begin at `from` in their payload, and at `to` in this one.
fn push_moved<A: Allocator>(ends: &mut Vec<PartEnd, A>, more: &[PartEnd], from: usize, to: usize)
    requires room { vec_len ends.old + length more.now ≤ vec_capacity ends.old }
    requires fits { All (CanMove from to) more.now }
    ensures { ends.new.items ≡ ends.old.items ++ map (moved from to) more.now }
{
    for part in more {
        ends.push_reserved(PartEnd {
            kind: part.kind,
            end: part.end - from + to,
        });
    }
}

/// The remaining parts of a document, in order.
#[derive(Drop)]
pub struct Parts<'a> {
    text: &'a str,
    start: usize,
    ends: &'a [PartEnd],
}

impl<'a> Model for Parts<'a> {
    ghost use Rattle.std.specs.Prelude.{List};
    ghost use Rattle.bpaf_doc.specs.Buffer.Steps.Ends.{parts_from, AreEnds};
    ghost use Rattle.bpaf_doc.specs.Buffer.Parts.{Part};

    ghost Value = { List Part };

    ghost view = { λ parts. parts_from parts.start parts.ends.now parts.text.now };

    ghost invariant = { λ parts. AreEnds parts.start parts.ends.now parts.text.now };
}

impl<'a> Iterator for Parts<'a> {
    ghost use Rattle.std.specs.Iterator.{YieldsFirstBy, item_count};
    ghost use Rattle.bpaf_doc.specs.Buffer.View.{part_of};

    type Item = Part<'a>;

    ghost next_gives = { YieldsFirstBy part_of (λ left. left) };

    ghost remaining = { item_count (λ left. left) };

    #[tactic(auto, using(crate::proofs::lemmas::Buffer::Ends::parts_cut))]
    fn next(&mut self) -> Option<Part<'a>> {
        let (first, others) = self.ends.split_first()?;
        let (text, rest) = self.text.split_at(first.end - self.start);
        self.text = rest;
        self.start = first.end;
        self.ends = others;
        Some(first.kind.part(text))
    }
}

mod compare;
