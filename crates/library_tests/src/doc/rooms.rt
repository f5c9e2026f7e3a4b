//! What a page asks for ahead of its text is little, and so is what a document asks for the parts of another: an arena
//! has room for no more than a small multiple of what is written. The bytes of a document times its parts are more than
//! an arena has, and so are its parts times its parts.
use crate::arenas::{leave, little, roomy};
use crate::doc::pages::{Page, text_of};
use bpaf_doc::buffer::Doc;
use bpaf_roff::escape::Apostrophes;
use bpaf_roff::roff::Roff;
use bumpalo::Bump;
use std::alloc::{AllocError, Allocator, Global};
use std::process::Abort;

#[derive(Clone, Copy)]
enum Form {
    Page(Page),
    Rendered,
}

const FORMS: &[(Form, &str)] = &[
    (Form::Page(Page::Console), "console"),
    (Form::Page(Page::Brief), "console in brief"),
    (Form::Page(Page::FullHtml), "HTML"),
    (Form::Page(Page::BriefHtml), "HTML in brief"),
    (Form::Page(Page::Markdown), "markdown"),
    (Form::Page(Page::BriefMarkdown), "markdown in brief"),
    (Form::Page(Page::Roff), "a roff"),
    (Form::Rendered, "a roff of pieces"),
];

// How many bytes a part takes beside its text.
const PART: usize = 16;

// How a document is put into another.
#[derive(Clone, Copy)]
enum Put {
    Inline,
    Titled,
}

const PUTS: &[(Put, &str)] = &[(Put::Inline, "inline"), (Put::Titled, "with a title")];

// A text that in brief hides the two hundred after it.
fn many_texts<A: Allocator + Copy>(rt: &impl Abort, alloc: A) -> Doc<A> {
    let mut doc = Doc::from_text(alloc, "zero\n\n").expect(rt, "a document");
    for _ in 0..100usize {
        doc.emphasis("one two").expect(rt, "a text");
        doc.literal("three").expect(rt, "a text");
    }
    doc
}

fn many_pieces<A: Allocator + Copy>(rt: &impl Abort, alloc: A) -> Roff<A> {
    let mut page = Roff::new(alloc);
    for _ in 0..100usize {
        page.append_control("PP", &["one two", "three"])
            .expect(rt, "pieces");
    }
    page
}

fn made<A: Allocator + Copy>(
    alloc: A,
    doc: &Doc<A>,
    pieces: &Roff<A>,
    form: Form,
) -> Result<String<A>, AllocError> {
    match form {
        Form::Page(page) => text_of(alloc, doc, page),
        Form::Rendered => pieces.render(Apostrophes::DontHandle),
    }
}

// How many bytes a page has.
fn length(rt: &impl Abort, out: Global, form: Form) -> usize {
    let doc = many_texts(rt, out);
    let pieces = many_pieces(rt, out);
    let page = made(out, &doc, &pieces, form).expect(rt, "a page");
    drop(pieces);
    drop(doc);
    let length = page.len();
    drop(page);
    length
}

fn is_made_in(rt: &impl Abort, arena: &Bump, room: usize, form: Form) -> bool {
    let doc = many_texts(rt, arena);
    let pieces = many_pieces(rt, arena);
    leave(rt, arena, room);
    let is_made = made(arena, &doc, &pieces, form).is_ok();
    drop(pieces);
    drop(doc);
    is_made
}

fn takes_little(rt: &impl Abort, out: Global, form: Form) -> bool {
    let room = little(length(rt, out, form));
    let arena = roomy(rt, out);
    let takes_little = is_made_in(rt, &arena, room, form);
    drop(arena);
    takes_little
}

#[test]
fn pages_take_little_more_than_they_write(rt: HostRuntime) {
    for &(form, name) in FORMS {
        assert!(rt; takes_little(&rt, rt.alloc(), form), "{name}");
    }
}

fn is_put<A: Allocator>(doc: &mut Doc<A>, other: &Doc<Global>, put: Put) -> bool {
    match put {
        Put::Inline => doc.doc(other).is_ok(),
        Put::Titled => doc.em_doc(other).is_ok(),
    }
}

// How many bytes a document has into which another was put.
fn length_with(rt: &impl Abort, out: Global, other: &Doc<Global>, put: Put) -> usize {
    let mut doc = Doc::new(out);
    assert!(rt; is_put(&mut doc, other, put));
    let length = doc
        .len()
        .saturating_mul(PART)
        .saturating_add(doc.text_len());
    drop(doc);
    length
}

fn puts_little(rt: &impl Abort, out: Global, put: Put) -> bool {
    let other = many_texts(rt, out);
    let room = little(length_with(rt, out, &other, put));
    let arena = roomy(rt, out);
    leave(rt, &arena, room);
    let mut doc = Doc::new(&arena);
    let is_put = is_put(&mut doc, &other, put);
    drop(doc);
    drop(arena);
    drop(other);
    is_put
}

#[test]
fn a_document_in_another_takes_little_more_than_it_has(rt: HostRuntime) {
    for &(put, name) in PUTS {
        assert!(rt; puts_little(&rt, rt.alloc(), put), "{name}");
    }
}
