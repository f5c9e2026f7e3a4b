//! Each growth refused in turn: a call is made over an arena with room for nothing, then for a little more each
//! time, until it succeeds. Each refusal leaves what was lent as it was, and the answer at the end is that of
//! ample memory.
use crate::arenas::{BYTES, STEP, leave, roomy};
use crate::doc::pages::{Page, text_of};
use bpaf_doc::buffer::{Block, Doc, Style, Token};
use bumpalo::Bump;
use std::alloc::{AllocError, Allocator, Global};
use std::fmt::Write;
use std::process::Abort;

#[derive(Clone, Copy)]
enum Call {
    Joined,
    Apart,
    Character,
    Plain,
    Literal,
    Emphasis,
    Invalid,
    Mark,
    Nested,
    Title,
    Line,
    Path,
    Room,
    Text,
    Owned,
    Pairs,
    Copy,
    FirstLine,
    Page(Page),
}

const CALLS: &[(Call, &str)] = &[
    (Call::Joined, "joined"),
    (Call::Apart, "apart"),
    (Call::Character, "a character"),
    (Call::Plain, "plain"),
    (Call::Literal, "literal"),
    (Call::Emphasis, "emphasis"),
    (Call::Invalid, "invalid"),
    (Call::Mark, "a mark"),
    (Call::Nested, "nested"),
    (Call::Title, "a title"),
    (Call::Line, "a line"),
    (Call::Path, "a path"),
    (Call::Room, "room"),
    (Call::Text, "a text"),
    (Call::Owned, "an owned text"),
    (Call::Pairs, "pairs"),
    (Call::Copy, "a copy"),
    (Call::FirstLine, "the first line"),
    (Call::Page(Page::Console), "console"),
    (Call::Page(Page::Monochrome), "monochrome"),
    (Call::Page(Page::BriefHtml), "HTML in brief"),
    (Call::Page(Page::FullHtml), "HTML in full"),
    (Call::Page(Page::StyledHtml), "HTML with styles"),
    (Call::Page(Page::Markdown), "Markdown"),
    (Call::Page(Page::Roff), "a roff"),
    (Call::Page(Page::OwnedRoff), "a roff of its own"),
];

// What the calls are lent. The long text is longer than what a list of ends takes as it grows: so there is a room in
// which the list grows and the payload is refused.
#[derive(Drop)]
struct Lent {
    long: String,
    title: Doc,
    line: Doc,
    path: Vec<String>,
}

fn make_lent(rt: &impl Abort, out: Global) -> Lent {
    let long = "a".repeat(out, 600).expect(rt, "a text");
    Lent {
        title: titled(rt, out, "title", &long),
        line: titled(rt, out, "line\n", &long),
        path: make_path(rt, out, &long),
        long,
    }
}

fn titled(rt: &impl Abort, out: Global, title: &str, text: &str) -> Doc {
    let pairs = &[(title, Style::Text), (text, Style::Literal)];
    Doc::from_pairs(out, pairs).expect(rt, "a document")
}

fn make_path(rt: &impl Abort, out: Global, name: &str) -> Vec<String> {
    let program = String::from_str(out, "program").expect(rt, "a name");
    let name = String::from_str(out, name).expect(rt, "a name");
    let mut path = Vec::new(out);
    path.push(program).expect(rt, "a path");
    path.push(name).expect(rt, "a path");
    path
}

fn is_as_lent(given: &Lent, copy: &Lent) -> bool {
    given.long == copy.long
        && given.title == copy.title
        && given.line == copy.line
        && given.path == copy.path
}

const STARTS: &[Block] = &[
    Block::Section2,
    Block::Section3,
    Block::Section4,
    Block::DefinitionList,
    Block::ItemTerm,
    Block::ItemBody,
];

// Sixteen parts, so that one more makes the list of their ends grow. The last one is a literal text.
fn begun<A: Allocator + Copy>(rt: &impl Abort, alloc: A, first: &str) -> Doc<A> {
    let mut doc = Doc::from_text(alloc, first).expect(rt, "a document");
    for &block in STARTS {
        doc.token(Token::BlockStart(block)).expect(rt, "a mark");
        doc.emphasis("one two").expect(rt, "a text");
    }
    doc.token(Token::BlockEnd(Block::ItemTerm))
        .expect(rt, "a mark");
    doc.token(Token::BlockEnd(Block::Section2))
        .expect(rt, "a mark");
    doc.literal("three").expect(rt, "a text");
    doc
}

// A write changes the document, and a maker puts another one in its place.
fn apply<A: Allocator + Copy>(
    alloc: A,
    doc: &mut Doc<A>,
    call: Call,
    lent: &Lent,
) -> Result<(), AllocError> {
    match call {
        Call::Joined => doc.write_str(&lent.long, Style::Literal),
        Call::Apart => doc.write_str(&lent.long, Style::Metavar),
        Call::Character => doc.write_char('é', Style::Text),
        Call::Plain => doc.text(&lent.long),
        Call::Literal => doc.literal(&lent.long),
        Call::Emphasis => doc.emphasis(&lent.long),
        Call::Invalid => doc.invalid(&lent.long),
        Call::Mark => doc.token(Token::BlockEnd(Block::Section2)),
        Call::Nested => doc.doc(&lent.title),
        Call::Title => doc.em_doc(&lent.title),
        Call::Line => doc.em_doc(&lent.line),
        Call::Path => doc.write_path(lent.path.as_slice()),
        Call::Room => doc.reserve(8, lent.long.len()),
        _ => {
            *doc = made(alloc, doc, call, &lent.long)?;
            Ok(())
        }
    }
}

fn made<A: Allocator + Copy>(
    alloc: A,
    doc: &Doc<A>,
    call: Call,
    long: &str,
) -> Result<Doc<A>, AllocError> {
    match call {
        Call::Text => Doc::from_text(alloc, long),
        Call::Owned => Doc::from_string(String::from_str(alloc, long)?),
        Call::Pairs => Doc::from_pairs(alloc, &[("one", Style::Text), (long, Style::Literal)]),
        Call::FirstLine => doc.first_line()?.ok_or(AllocError),
        Call::Page(form) => Doc::from_string(text_of(alloc, doc, form)?),
        _ => doc.clone(),
    }
}

// Whether a call over an arena with that many free bytes is refused. None where it leaves something else than it
// should.
fn is_refused(
    rt: &impl Abort,
    arena: &Bump,
    room: usize,
    call: Call,
    lent: &Lent,
    [before, after]: [&Doc; 2],
) -> Option<bool> {
    let mut doc = begun(rt, arena, &lent.long);
    leave(rt, arena, room);
    let is_refused = apply(arena, &mut doc, call, lent).is_err();
    let wanted = if is_refused { before } else { after };
    let is_right = doc.parts().eq(wanted.parts());
    drop(doc);
    is_right.then_some(is_refused)
}

// Whether a call is refused in no room, and done in more, and leaves what it should.
fn is_done_with_more(
    rt: &impl Abort,
    out: Global,
    call: Call,
    [given, copy]: [&Lent; 2],
    wanted: [&Doc; 2],
) -> bool {
    for step in 0..BYTES / STEP {
        let arena = roomy(rt, out);
        let is_refused = is_refused(rt, &arena, step * STEP, call, given, wanted);
        drop(arena);
        if is_refused != Some(true) || !is_as_lent(given, copy) {
            return is_refused == Some(false) && step > 0 && is_as_lent(given, copy);
        }
    }
    false
}

fn takes_room(rt: &impl Abort, out: Global, call: Call, lent: [&Lent; 2]) -> bool {
    let before = begun(rt, out, &lent[0].long);
    let mut after = begun(rt, out, &lent[0].long);
    apply(out, &mut after, call, lent[0]).expect(rt, "ample memory");
    let takes_room = is_done_with_more(rt, out, call, lent, [&before, &after]);
    drop(after);
    drop(before);
    takes_room
}

#[test]
fn a_refused_call_changes_nothing(rt: HostRuntime) {
    let given = make_lent(&rt, rt.alloc());
    let copy = make_lent(&rt, rt.alloc());
    for &(call, name) in CALLS {
        assert!(rt;
            takes_room(&rt, rt.alloc(), call, [&given, &copy]),
            "{name}"
        );
    }
    drop(copy);
    drop(given);
}

// Whether a document is shown with that many bytes left beside it. None where it shows something else than its text, or
// than nothing where that is refused.
fn is_shown(rt: &impl Abort, out: Global, arena: &Bump, room: usize, text: &str) -> Option<bool> {
    let doc = Doc::from_text(arena, text).expect(rt, "a document");
    leave(rt, arena, room);
    let mut shown = String::new(out);
    let is_shown = write!(shown, "{doc}").is_ok();
    drop(doc);
    let is_right = shown.as_str() == if is_shown { text } else { "" };
    drop(shown);
    is_right.then_some(is_shown)
}

fn is_shown_with_more(rt: &impl Abort, out: Global, text: &str) -> bool {
    for step in 0..BYTES / STEP {
        let arena = roomy(rt, out);
        let is_shown = is_shown(rt, out, &arena, step * STEP, text);
        drop(arena);
        if is_shown != Some(false) {
            return is_shown == Some(true) && step > 0;
        }
    }
    false
}

// The text is made in the document's own memory, and nothing is written where that is refused.
#[test]
fn a_refused_growth_is_an_error_of_display(rt: HostRuntime) {
    let long = "a".repeat(rt.alloc(), 600).expect(&rt, "a text");
    assert!(rt; is_shown_with_more(&rt, rt.alloc(), &long));
    drop(long);
}

fn write_three(doc: &mut Doc<&Bump>, long: &str) -> Result<(), AllocError> {
    doc.literal(long)?;
    doc.text("b")?;
    doc.literal("c")
}

// Whether three texts of 600 bytes have room in an arena that has no more than a document asked for.
fn has_room(rt: &impl Abort, arena: &Bump, long: &str) -> bool {
    let mut doc = Doc::new(arena);
    doc.reserve(3, 600).expect(rt, "what is asked for");
    leave(rt, arena, 0);
    let is_full = Doc::from_text(arena, "a").is_err();
    write_three(&mut doc, long).expect(rt, "its parts");
    let (length, bytes) = (doc.len(), doc.text_len());
    drop(doc);
    is_full && length == 3 && bytes == 600
}

#[test]
fn memory_that_was_asked_for_is_there(rt: HostRuntime) {
    let long = "a".repeat(rt.alloc(), 598).expect(&rt, "a text");
    let arena = roomy(&rt, rt.alloc());
    assert!(rt; has_room(&rt, &arena, &long));
    drop(arena);
    drop(long);
}
