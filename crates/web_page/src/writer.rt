//! A page that is written element by element.

ghost use Rattle.std.specs.Prelude.{◌≡◌, ◌==◌, ◌++◌, ◌∷◌, [], ◌&&◌, true, false, not, Option, Some, None};
ghost use Rattle.std.specs.Prelude.{IfOk, OnErr, OnOk, codes, length, string_bytes};
ghost use Rattle.std.specs.List.{list_any, list_all};
ghost use Rattle.web_page.specs.Exact.{end_text, page_front, start_text};
ghost use Rattle.web_page.specs.Reader.{with_element, with_start};
ghost use Rattle.web_page.specs.Tree.{is_tag, none};
ghost use Rattle.web_page.specs.Models.{ReadsAs, ReadsInBody, fits_attributes, is_id, is_ink, may_hold};
ghost use Rattle.web_page.specs.Models.{is_language, is_language_byte};
ghost use Rattle.web_page.specs.Calls.{FailsJustBy, FailsOnlyBy, are_written, attribute, child_fault, end_fault};
ghost use Rattle.web_page.specs.Calls.{has_end_sign, id_fault, is_link, is_written, link_fault, new_page, page_fault};
ghost use Rattle.web_page.specs.Calls.{finish_fault, text_fault, whole_page, with_end, with_text};
ghost use Rattle.web_page.specs.Steps.Bytes.{is_written_byte};
ghost use Rattle.web_page.specs.Steps.Open.{attributes_of, after_child, after_text, checked, ends, inked, may_give};
ghost use Rattle.web_page.specs.Steps.Open.{opened};

use crate::elements::{Child, Element, Tag};
use crate::errors::PageError;
use crate::models::{self, has_ink, is_ink};
use crate::output::{Key, Piece, write, write_end, write_start};
use std::alloc::{AllocError, Allocator, Global};
use std::marker::Model;

// What is kept of an open element: the node that is last in it, whether it has ink, and whether it is in a link or is
// one.
#[derive(Clone, Copy)]
struct Open {
    tag: Tag,
    before: Option<Child>,
    has_ink: bool,
    in_link: bool,
}

/// A page whose body is open.
#[derive(Drop)]
pub struct Page<A: Allocator = Global> {
    text: String<A>,
    // Where in it the content of the body begins.
    content_at: usize,
    innermost: Open,
    outer: Vec<Open, A>,
}

impl<A: Allocator> Model for Page<A> {
    ghost use Rattle.std.specs.Prelude.{reverse, string_bytes};
    ghost use Rattle.web_page.specs.Reader.{Draft};
    ghost use Rattle.web_page.specs.Steps.Open.{IsOngoing, draft_of};
    ghost use Rattle.web_page.specs.Steps.Stored.{draft_code};

    ghost Value = { Draft };

    ghost coded = { draft_code };

    ghost view = { λ p. draft_of (string_bytes p.text) };

    ghost invariant = { λ p. IsOngoing (string_bytes p.text) p.content_at p.innermost (reverse p.outer.items) };
}

// From the end of the start tag of html to the title.
const HEAD: &str =
    "\"><head><meta charset=\"utf-8\"><meta name=\"viewport\" content=\"width=device-width\"><title>";

// A character that every reader gives back.
fn is_written(character: char) -> bool
    ensures { result ≡ is_written character }
{
    let code = u32::from(character);
    let is_noncharacter = (0xFDD0..=0xFDEF).contains(&code) || code % 0x1_0000 >= 0xFFFE;
    let is_control = code < 32 || (127..=159).contains(&code);
    !is_noncharacter && (code == 9 || code == 10 || !is_control)
}

// A byte that is such a character alone. By `|` and without branches, so that many bytes are compared at once.
fn is_written_byte(byte: u8) -> bool
    ensures { result ≡ is_written_byte byte }
{
    (byte == b'\t') | (byte == b'\n') | ((b' '..=b'~').contains(&byte))
}

// Whether all bytes are such characters. It looks at each, whatever came before, so that many are compared at once.
fn are_written_bytes(bytes: &[u8]) -> bool
    ensures { result ≡ list_all is_written_byte bytes.now }
{
    let mut written = true;
    for byte in bytes {
        written &= is_written_byte(*byte);
    }
    written
}

// Most texts have only such bytes, and then no character is decoded.
#[tactic(auto, using(crate::proofs::Texts::written_bytes))]
fn are_written(text: &str) -> bool
    ensures { result ≡ are_written text.now }
{
    if are_written_bytes(text.as_bytes()) {
        return true;
    }
    text.chars().all(|character| is_written(character))
}

fn is_language_byte(byte: u8) -> bool
    ensures { result ≡ is_language_byte byte }
{
    matches!(byte, b'a'..=b'z' | b'A'..=b'Z' | b'0'..=b'9' | b'-')
}

fn are_language_bytes(text: &str) -> bool
    ensures { result ≡ list_all is_language_byte text.now }
{
    text.as_bytes().iter().all(|byte| is_language_byte(*byte))
}

fn is_language(text: &str) -> bool
    ensures { result ≡ is_language text.now }
{
    !text.is_empty() && are_language_bytes(text)
}

fn are_ink(text: &str) -> bool
    ensures { result ≡ list_all is_ink text.now }
{
    text.as_bytes().iter().all(|byte| is_ink(*byte))
}

fn is_id(text: &str) -> bool
    ensures { result ≡ is_id text.now }
{
    !text.is_empty() && are_ink(text)
}

// Whether a style has the beginning of an end tag in it.
fn has_end_sign(style: &str) -> bool
    ensures { result ≡ has_end_sign style.now }
{
    let mut rest = style.as_bytes();
    while let [first, second, ..] = rest {
        if *first == b'<' && *second == b'/' {
            return true;
        }
        rest = &rest[1..];
    }
    false
}

// Whether a page may have this language, title and style.
fn check_page(language: &str, title: &str, style: &str) -> Result<(), PageError>
    ensures { result ≡ checked (page_fault language.now title.now style.now) }
{
    if !is_language(language) {
        Err(PageError::Language)
    } else if !has_ink(title) {
        Err(PageError::Title)
    } else if has_end_sign(style) {
        Err(PageError::Style)
    } else if !are_written(title) || !are_written(style) {
        Err(PageError::Character)
    } else {
        Ok(())
    }
}

// Whether a child may stand next in an open element.
fn may_stand(here: Open, child: Child) -> bool
    ensures { result ≡ (may_hold here.tag here.before child && not (here.in_link && is_link child)) }
{
    models::may_hold(here.tag, here.before, child) && !(here.in_link && is_link(child))
}

fn is_link(child: Child) -> bool
    ensures { result ≡ is_link child }
{
    match child {
        Child::Words => false,
        Child::Inner(tag) => is_anchor(tag),
    }
}

fn is_anchor(tag: Tag) -> bool
    ensures { result ≡ is_tag Tag.A tag }
{
    tag.kind() == Tag::A.kind()
}

// An element that was just started in this one.
fn opened(here: Open, tag: Tag) -> Open
    ensures { result ≡ opened here tag }
{
    Open {
        tag,
        before: None,
        has_ink: false,
        in_link: is_anchor(tag) || here.in_link,
    }
}

// The same element after a child with ink or without it.
fn after_child(here: Open, tag: Tag, has_ink: bool) -> Open
    ensures { result ≡ after_child here tag has_ink }
{
    Open {
        before: Some(Child::Inner(tag)),
        has_ink: here.has_ink || has_ink,
        ..here
    }
}

// The same element after a text.
fn after_text(here: Open, text: &str) -> Open
    ensures { result ≡ after_text here text.now }
{
    if text.is_empty() {
        return here;
    }
    Open {
        before: Some(Child::Words),
        has_ink: here.has_ink || has_ink(text),
        ..here
    }
}

// Whether an element may have this id.
fn takes_id(element: Element, id: &str) -> bool
    ensures { result ≡ fits_attributes (Tag.Of element) (attribute (codes "id") id.now) }
{
    match element {
        Element::Section => is_id(id),
        Element::Heading(_) => is_id(id),
        Element::Dt => is_id(id),
        _ => false,
    }
}

fn is_empty(outer: &[Open]) -> bool
    ensures { result ≡ (length outer.now == 0) }
{
    outer.is_empty()
}

// Whether the innermost element may end after what is last in it.
fn may_end(here: Open) -> bool
    ensures { result ≡ ends here }
{
    models::may_end(here.tag, here.before)
}

// Whether it has ink, where it has to.
fn is_inked(here: Open) -> bool
    ensures { result ≡ inked here }
{
    !models::wants_ink(here.tag) || here.has_ink
}

// A body that is empty.
fn body() -> Open
    ensures { result ≡ record { tag = Tag.Body; before = None; has_ink = false; in_link = false } }
{
    Open {
        tag: Tag::Body,
        before: None,
        has_ink: false,
        in_link: false,
    }
}

// What stands before the content of the body.
fn front<'x, A: Allocator>(
    alloc: A,
    language: &'x str,
    title: &'x str,
    style: &'x str,
) -> Result<String<A>, AllocError>
    ensures { IfOk result (λ text. string_bytes text ≡ page_front language.now title.now style.now) }
{
    let mut text = String::new(alloc);
    write(
        &mut text,
        &[
            Piece::Plain("<!DOCTYPE html><html lang=\""),
            Piece::Value(language),
            Piece::Plain(HEAD),
            Piece::Text(title),
            Piece::Plain("</title><style>"),
            Piece::Plain(style),
            Piece::Plain("</style></head><body>"),
        ],
    )?;
    Ok(text)
}

impl<A: Allocator> Page<A> {
    /// A page with this language, title and style, whose body is open and empty. The style is written as it is.
    ///
    /// `Language`, `Title` and `Style` come where these are not permitted, `Character` where the title or
    /// the style has a character that is not permitted, and `Refused` where an allocation failed.
    pub fn new(alloc: A, language: &str, title: &str, style: &str) -> Result<Page<A>, PageError>
    where
        A: Copy,
        ensures ok { IfOk result (λ page. page ≡ new_page language.now title.now style.now) }
        ensures fails { FailsOnlyBy (page_fault language.now title.now style.now) result }
    {
        check_page(language, title, style)?;
        let text = front(alloc, language, title, style)?;
        let content_at = text.len();
        Ok(Page {
            text,
            content_at,
            innermost: body(),
            outer: Vec::new(alloc),
        })
    }

    // Starts an element, which may stand anywhere in the body as far as its attribute goes.
    fn start_tag(&mut self, tag: Tag, key: Key, value: &str) -> Result<(), PageError>
        requires { may_give tag key value.now ≡ true }
        ensures ok { OnOk result (self.new ≡ with_start self.old tag (attributes_of key value.now)) }
        ensures err { OnErr result (self.new ≡ self.old) }
        ensures fails { FailsOnlyBy (child_fault self.old (Child.Inner tag)) result }
    {
        if !may_stand(self.innermost, Child::Inner(tag)) {
            return Err(PageError::Misplaced);
        }
        self.outer.reserve(1)?;
        write_start(&mut self.text, tag, key, value)?;
        self.outer.push_reserved(self.innermost);
        self.innermost = opened(self.innermost, tag);
        Ok(())
    }

    /// Starts an element without an attribute.
    ///
    /// `Misplaced` comes where the innermost open element does not take it there, and `Refused` where an allocation
    /// failed. After an error the page is as before.
    pub fn start(&mut self, element: Element) -> Result<(), PageError>
        ensures ok { OnOk result (self.new ≡ with_start self.old (Tag.Of element) []) }
        ensures err { OnErr result (self.new ≡ self.old) }
        ensures fails { FailsOnlyBy (child_fault self.old (Child.Inner (Tag.Of element))) result }
    {
        self.start_tag(Tag::Of(element), Key::Nothing, "")
    }

    /// Starts a section, a heading or a term with an id.
    ///
    /// `Id` comes where the element takes no id, or the id is empty or has white space, `Character` where it has a
    /// character that is not permitted; the other errors are those of `start`. After an error the page is as before.
    pub fn start_with_id(&mut self, element: Element, id: &str) -> Result<(), PageError>
        ensures ok { OnOk result (self.new ≡ with_start self.old (Tag.Of element) (attribute (codes "id") id.now)) }
        ensures err { OnErr result (self.new ≡ self.old) }
        ensures fails { FailsOnlyBy (id_fault self.old element id.now) result }
    {
        if !takes_id(element, id) {
            return Err(PageError::Id);
        }
        if !are_written(id) {
            return Err(PageError::Character);
        }
        self.start_tag(Tag::Of(element), Key::Id, id)
    }

    /// Starts a link to this target.
    ///
    /// `Character` comes where the target has a character that is not permitted; the other errors are those of `start`:
    /// a link may not stand in a link, at any depth. After an error the page is as before.
    pub fn start_link(&mut self, target: &str) -> Result<(), PageError>
        ensures ok { OnOk result (self.new ≡ with_start self.old Tag.A (attribute (codes "href") target.now)) }
        ensures err { OnErr result (self.new ≡ self.old) }
        ensures fails { FailsOnlyBy (link_fault self.old target.now) result }
    {
        if !are_written(target) {
            return Err(PageError::Character);
        }
        self.start_tag(Tag::A, Key::Target, target)
    }

    /// Starts a link to the element of this id on the page: its target is `#` and the id.
    ///
    /// `Character` comes where the id has a character that is not permitted; the other errors are those of `start`, as
    /// for `start_link`. After an error the page is as before.
    #[tactic(auto, using(crate::proofs::Texts::written_after_hash))]
    pub fn start_link_to_id(&mut self, id: &str) -> Result<(), PageError>
        ensures ok { OnOk result (self.new
            ≡ with_start self.old Tag.A (attribute (codes "href") (codes "#" ++ id.now))) }
        ensures err { OnErr result (self.new ≡ self.old) }
        ensures fails { FailsOnlyBy (link_fault self.old (codes "#" ++ id.now)) result }
    {
        if !are_written(id) {
            return Err(PageError::Character);
        }
        self.start_tag(Tag::A, Key::Place, id)
    }

    /// Adds a text to the innermost open element. It joins a text before it. An empty one adds nothing, and may stand
    /// where a text may.
    ///
    /// `Character` comes where the text has a character that is not permitted, `Misplaced` where the innermost open
    /// element takes no text there, and `Refused` where an allocation failed. After an error the page is as before.
    pub fn text(&mut self, text: &str) -> Result<(), PageError>
        ensures ok { OnOk result (self.new ≡ with_text self.old text.now) }
        ensures err { OnErr result (self.new ≡ self.old) }
        ensures fails { FailsOnlyBy (text_fault self.old text.now) result }
    {
        if !are_written(text) {
            return Err(PageError::Character);
        }
        if !may_stand(self.innermost, Child::Words) {
            return Err(PageError::Misplaced);
        }
        write(&mut self.text, &[Piece::Text(text)])?;
        self.innermost = after_text(self.innermost, text);
        Ok(())
    }

    /// Adds a line break, with the errors of `start`. After an error the page is as before.
    pub fn line_break(&mut self) -> Result<(), PageError>
        ensures ok { OnOk result (self.new ≡ with_element self.old Tag.Br [] none) }
        ensures err { OnErr result (self.new ≡ self.old) }
        ensures fails { FailsOnlyBy (child_fault self.old (Child.Inner Tag.Br)) result }
    {
        if !may_stand(self.innermost, Child::Inner(Tag::Br)) {
            return Err(PageError::Misplaced);
        }
        write(&mut self.text, &[Piece::Plain("<br>")])?;
        self.innermost = after_child(self.innermost, Tag::Br, false);
        Ok(())
    }

    /// Ends the innermost open element.
    ///
    /// `Misplaced` comes where no element of the body is open, or a list of definitions would end after a term or
    /// empty, `NoInk` where a heading, a paragraph or a list has no text except white space, and `Refused` where an
    /// allocation failed. After an error the page is as before.
    pub fn end(&mut self) -> Result<(), PageError>
        ensures ok { OnOk result (self.new ≡ with_end self.old) }
        ensures err { OnErr result (self.new ≡ self.old) }
        ensures fails { FailsOnlyBy (end_fault self.old) result }
    {
        if is_empty(&self.outer) || !may_end(self.innermost) {
            return Err(PageError::Misplaced);
        }
        if !is_inked(self.innermost) {
            return Err(PageError::NoInk);
        }
        write_end(&mut self.text, self.innermost.tag)?;
        // `is_empty` said that there is one.
        let outer = self.outer.pop().unwrap();
        self.innermost = after_child(outer, self.innermost.tag, self.innermost.has_ink);
        Ok(())
    }

    /// The text of the page. A reader of HTML reads it, whole, as the tree that was said, in which each element holds
    /// what its model has.
    ///
    /// `Misplaced` comes where an element of the body is open, or the body has no main element, and `Refused` where an
    /// allocation failed. After an error the page is gone.
    pub fn finish(self) -> Result<String<A>, PageError>
        ensures reads { IfOk result (λ text. ReadsAs (string_bytes text) (whole_page self)) }
        ensures fails { FailsOnlyBy (finish_fault self) result }
    {
        if !is_empty(&self.outer) || !may_end(self.innermost) {
            return Err(PageError::Misplaced);
        }
        let mut text = self.text;
        write(&mut text, &[Piece::Plain("</body></html>")])?;
        Ok(text)
    }

    /// The text of the content of the body alone, to be put into another page. After the front of any page, whatever
    /// its language and its head are, and before the end of that page a reader of HTML reads it as what was said.
    ///
    /// `Misplaced` comes where an element of the body is open, or the body has no main element. The page is then
    /// gone. No memory is taken.
    pub fn finish_body(self) -> Result<String<A>, PageError>
        ensures reads { IfOk result (λ text. ReadsInBody (string_bytes text) self.nodes) }
        ensures fails { FailsJustBy (finish_fault self) result }
    {
        if !is_empty(&self.outer) || !may_end(self.innermost) {
            return Err(PageError::Misplaced);
        }
        let mut text = self.text;
        text.replace_range(..self.content_at, "")?;
        Ok(text)
    }
}
