//! Answers to requests on documents.

use crate::calls::Call;
use crate::fault::Bad;
use crate::lines::Lines;
use crate::request::Request;
use crate::words::Words;
use bpaf_doc::buffer::Doc;
use bpaf_roff::escape::APOSTROPHE_PREABMLE;
use bpaf_roff::roff::Roff;

/// The form of a text that is made of a document. The first field says whether it is in full or in brief.
#[derive(Clone, Copy)]
pub enum Form {
    /// with the width
    Console(bool, usize),
    /// at the width of a usage line
    Monochrome(bool),
    /// with or without the style sheet
    Html(bool, bool),
    Markdown(bool),
}

/// Prints a document as a text.
pub fn write_form(words: &mut Words, document: &Doc, form: Form) {
    let alloc = words.alloc;
    words.page(match form {
        Form::Console(full, width) => document.render_console(alloc, full, width),
        Form::Monochrome(full) => document.monochrome(alloc, full),
        Form::Html(full, styles) => document.render_html(alloc, full, styles),
        Form::Markdown(full) => document.render_markdown(alloc, full),
    });
}

/// Answers a request on a form of a document.
pub fn answer_form(request: &mut Request<'_>, call: Call, words: &mut Words) {
    let full = read_extent(request);
    let form = match call {
        Call::Console => Form::Console(full, read_width(request)),
        Call::Html => Form::Html(full, request.flag()),
        _ => Form::Markdown(full),
    };
    write_form(words, &request.document(), form);
}

/// Answers a request on a document alone.
pub fn answer_document(request: &mut Request<'_>, call: Call, words: &mut Words) {
    let document = request.document();
    match call {
        Call::Parts => words.document(&document),
        Call::FirstLine => write_first_line(words, &document),
        _ => words.bit(document.is_empty()),
    }
}

/// Prints the manual page after a title line.
pub fn answer_roff(request: &mut Request<'_>, words: &mut Words) {
    let mut page = Roff::new(request.alloc);
    let done = page.append_control("TH", &request.texts());
    request.keep(done);
    words.page(request.document().render_roff(page));
}

/// Takes a word that says whether a page is in full or in brief.
pub fn read_extent(request: &mut Request<'_>) -> bool {
    let word = request.word();
    if word != "full" && word != "brief" {
        request.fail(Bad::Words("full or brief was expected"));
    }
    word == "full"
}

/// Takes a width.
pub fn read_width(request: &mut Request<'_>) -> usize {
    let word = request.word();
    match width_of(word) {
        Some(width) => width,
        None => {
            request.fail(Bad::NO_WIDTH);
            0
        }
    }
}

fn width_of(word: &str) -> Option<usize> {
    if word == "max" {
        return Some(usize::MAX);
    }
    word.parse().ok()
}

/// Adds all answers to one document: console pages at the widths, and what needs no width. A word that is not a width
/// is reported only where the rest of the line is right.
pub fn add_document_answers(request: &mut Request<'_>, words: &mut Words, lines: &mut Lines) {
    let widths = request.word();
    let document = request.document();
    if request.end().is_ok() {
        for width in widths.split(',') {
            add_console_pages(words, &document, width, lines);
        }
        add_pages(words, &document, lines);
    }
}

// Adds a page in full and one in brief.
fn add_console_pages(words: &mut Words, document: &Doc, width: &str, lines: &mut Lines) {
    let Some(columns) = width_of(width) else {
        return words.fail(Bad::NO_WIDTH);
    };
    for (kind, full) in [("cf", true), ("cb", false)] {
        write_form(words, document, Form::Console(full, columns));
        add_with_width(words, kind, width, lines);
    }
}

// Ends an answer whose key has the width as it stands in the request.
fn add_with_width(words: &mut Words, kind: &str, width: &str, lines: &mut Lines) {
    match format!(in words.alloc; "{kind}{width}") {
        Ok(key) => words.end(key.as_str(), lines),
        Err(_) => words.fail(Bad::Memory),
    }
}

fn add_pages(words: &mut Words, document: &Doc, lines: &mut Lines) {
    let forms = [
        ("hf", Form::Html(true, false)),
        ("hb", Form::Html(false, false)),
        ("mf", Form::Markdown(true)),
        ("mb", Form::Markdown(false)),
    ];
    for (key, form) in forms {
        write_form(words, document, form);
        words.end(key, lines);
    }
    let page = document.render_roff(Roff::new(words.alloc));
    words.page_without_heads(&[APOSTROPHE_PREABMLE], page);
    words.end("rf", lines);
    write_first_line(words, document);
    words.end("fl", lines);
}

fn write_first_line(words: &mut Words, document: &Doc) {
    match document.first_line() {
        Ok(line) => words.optional_document(line.as_ref()),
        Err(_) => words.fail(Bad::Memory),
    }
}
