//! Answers to requests on texts and their pieces: chunks, roff, escaping and labelled texts.

use crate::calls::find;
use crate::fault::Bad;
use crate::request::Request;
use crate::words::Words;
use bpaf_doc::splitter::{Chunk, split};
use bpaf_roff::escape::bytes::escape;
use bpaf_roff::escape::{Apostrophes, Escape};
use bpaf_roff::monoid::FreeMonoid;
use bpaf_roff::roff::{Font, Roff};
use std::alloc::AllocError;
use std::str;

/// Prints the chunks of a text.
pub fn answer_chunks(request: &mut Request<'_>, words: &mut Words) {
    words.push(" [");
    for chunk in split(request.text()) {
        write_chunk(words, chunk);
    }
    words.push(" ]");
}

fn write_chunk(words: &mut Words, chunk: Chunk<'_>) {
    match chunk {
        Chunk::Raw(text, weight) => {
            words.number(" r", weight);
            words.text("", text);
        }
        Chunk::Paragraph => words.push(" p"),
        Chunk::LineBreak => words.push(" b"),
    }
}

/// Prints the sum of some pages, rendered.
pub fn answer_roff_calls(request: &mut Request<'_>, words: &mut Words) {
    let apostrophes = read_apostrophes(request);
    let mut sum = read_page(request);
    for _ in 0..request.len() {
        if request.has("+") {
            let done = sum.add_assign(&read_page(request));
            request.keep(done);
        }
    }
    words.page(sum.render(apostrophes));
}

fn read_apostrophes(request: &mut Request<'_>) -> Apostrophes {
    match request.word() {
        "h" => Apostrophes::Handle,
        "d" => Apostrophes::DontHandle,
        _ => {
            request.fail(Bad::Words("h or d was expected"));
            Apostrophes::Handle
        }
    }
}

// Takes calls on a page, up to a plus or the end.
fn read_page(request: &mut Request<'_>) -> Roff {
    let mut page = Roff::new(request.alloc);
    for _ in 0..request.len() {
        match request.peek() {
            None | Some("+") => break,
            Some(_) => append_call(&mut page, request),
        }
    }
    page
}

// A call on a page.
#[derive(Clone, Copy)]
enum PageCall {
    Control,
    Control0,
    Linebreak,
    Escape,
    Plaintext,
    Text,
    Strip,
}

static PAGE_CALLS: [(&str, PageCall); 7] = [
    ("control", PageCall::Control),
    ("control0", PageCall::Control0),
    ("break", PageCall::Linebreak),
    ("esc", PageCall::Escape),
    ("plain", PageCall::Plaintext),
    ("text", PageCall::Text),
    ("strip", PageCall::Strip),
];

// Takes a call with its arguments, and makes it.
fn append_call(page: &mut Roff, request: &mut Request<'_>) {
    match find(&PAGE_CALLS, request.word()) {
        Some(PageCall::Strip) => {
            page.strip_newlines(request.flag());
        }
        Some(call) => {
            let done = append(page, request, call);
            request.keep(done);
        }
        None => request.fail(Bad::Words("no such call on a page")),
    }
}

fn append(page: &mut Roff, request: &mut Request<'_>, call: PageCall) -> Result<(), AllocError> {
    match call {
        PageCall::Control => page.append_control(request.text(), &request.texts()),
        PageCall::Control0 => page.append_control0(request.text()),
        PageCall::Escape => page.append_escape(request.text()),
        PageCall::Plaintext => page.append_plaintext(request.text()),
        PageCall::Text => page.append_text(&read_fonts(request)),
        _ => page.append_linebreak(),
    }
}

// Takes texts with fonts, in parentheses.
fn read_fonts(request: &mut Request<'_>) -> Vec<(Font, &'static str)> {
    request.expect("(");
    let mut texts = Vec::new(request.alloc);
    for _ in 0..request.len() {
        if request.has(")") {
            return texts;
        }
        if texts.push(read_font(request)).is_err() {
            request.fail(Bad::Memory);
        }
    }
    request.fail(Bad::ENDS_EARLY);
    texts
}

fn read_font(request: &mut Request<'_>) -> (Font, &'static str) {
    let (label, text) = request.labelled();
    let font = match label {
        'R' => Font::Roman,
        'B' => Font::Bold,
        'I' => Font::Italic,
        _ => {
            request.fail(Bad::Words("no such font"));
            Font::Roman
        }
    };
    (font, text)
}

/// Prints a text and pieces after it, escaped.
pub fn answer_escape(request: &mut Request<'_>, words: &mut Words) {
    let apostrophes = read_apostrophes(request);
    let mut bytes = Vec::new(request.alloc);
    let begun = bytes.extend_from_slice(request.text().as_bytes());
    request.keep(begun);
    let items = read_escapes(request);
    let done = escape(
        items.iter().map(|(how, text)| (how, *text)),
        &mut bytes,
        apostrophes,
    );
    request.keep(done);
    match str::from_utf8(&bytes) {
        Ok(text) => words.text(" ", text),
        Err(_) => words.fail(Bad::Words("the escaped text is not UTF-8")),
    }
}

// Takes all that is left, as texts with ways to escape them.
fn read_escapes(request: &mut Request<'_>) -> Vec<(Escape, &'static str)> {
    let mut texts = Vec::new(request.alloc);
    for _ in 0..request.len() {
        if texts.push(read_escape(request)).is_err() {
            request.fail(Bad::Memory);
        }
    }
    texts
}

fn read_escape(request: &mut Request<'_>) -> (Escape, &'static str) {
    let (label, text) = request.labelled();
    let how = match label {
        'N' => Escape::UnescapedAtNewline,
        'S' => Escape::Spaces,
        'X' => Escape::Special,
        'Y' => Escape::SpecialNoNewline,
        'U' => Escape::Unescaped,
        _ => {
            request.fail(Bad::Words("no such way to escape"));
            Escape::Unescaped
        }
    };
    (how, text)
}

/// Prints the sum of lists and pieces, in order.
pub fn answer_monoid(request: &mut Request<'_>, words: &mut Words) {
    let mut sum = read_first_list(request);
    for _ in 0..request.len() {
        if request.has("(") {
            let done = sum.add_assign(&read_list(request));
            request.keep(done);
        } else if request.peek().is_some() {
            append_piece(&mut sum, request);
        }
    }
    write_pieces(words, &sum);
}

fn write_pieces(words: &mut Words, sum: &FreeMonoid<char>) {
    words.push(" [");
    words.bit(sum.squash);
    for (label, text) in sum.iter() {
        words.push(" ");
        words.label(*label);
        words.text("", text);
    }
    words.push(" ]");
}

// Takes a piece. A text of one character goes in as one.
fn append_piece(sum: &mut FreeMonoid<char>, request: &mut Request<'_>) {
    let (label, text) = request.labelled();
    let mut characters = text.chars();
    let done = match (characters.next(), characters.next()) {
        (Some(character), None) => sum.append_char(label, character),
        _ => sum.append_str(label, text),
    };
    request.keep(done);
}

// Takes a list, or none where no bracket opens one.
fn read_first_list(request: &mut Request<'_>) -> FreeMonoid<char> {
    if request.has("(") {
        return read_list(request);
    }
    FreeMonoid::new(request.alloc)
}

// Takes a list, after its opening bracket.
fn read_list(request: &mut Request<'_>) -> FreeMonoid<char> {
    let mut list = FreeMonoid::new(request.alloc);
    list.squash = request.flag();
    for _ in 0..request.len() {
        if request.has(")") {
            return list;
        }
        let (label, text) = request.labelled();
        let done = list.append_str(label, text);
        request.keep(done);
    }
    request.fail(Bad::ENDS_EARLY);
    list
}
