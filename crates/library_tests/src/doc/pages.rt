//! Pages of documents that no stored run of `replay` shows: those of calls that it does not have, and those that are
//! too long for one.
use bpaf_doc::buffer::Doc;
use bpaf_roff::roff::Roff;
use std::alloc::{AllocError, Allocator, Global};
use std::process::Abort;

/// What is made of a document as a text.
#[derive(Clone, Copy)]
pub enum Page {
    Display,
    Console,
    Monochrome,
    Brief,
    Html,
    FullHtml,
    StyledHtml,
    BriefHtml,
    Markdown,
    BriefMarkdown,
    Roff,
    OwnedRoff,
}

/// The page of a document.
pub fn text_of<A: Allocator + Copy>(
    alloc: A,
    doc: &Doc<A>,
    page: Page,
) -> Result<String<A>, AllocError> {
    match page {
        Page::Display => format!(in alloc; "{doc}"),
        Page::Console => doc.render_console(alloc, true, 2),
        Page::Monochrome => doc.monochrome(alloc, true),
        Page::Brief => doc.monochrome(alloc, false),
        Page::Html => doc.render_html(alloc, true, false),
        Page::FullHtml => doc.full_html(alloc),
        Page::StyledHtml => doc.styled_html(alloc),
        Page::BriefHtml => doc.render_html(alloc, false, true),
        Page::Markdown => doc.render_markdown(alloc, true),
        Page::BriefMarkdown => doc.render_markdown(alloc, false),
        Page::Roff => doc.render_roff(Roff::new(alloc)),
        Page::OwnedRoff => doc.clone()?.into_roff(Roff::new(alloc)),
    }
}

// How many columns a word `W` has, a text, a form, and the page, in which `…` stands for anything.
type Row = (usize, &'static str, Page, &'static str);

const ROWS: &[Row] = &[
    // Display is the full text at 100 columns.
    (49, "W W b c\n\nd", Page::Display, "W W\nb c\nd"),
    (49, "W W b c\n\nd", Page::Brief, "W W\nb c\n"),
    // A word of 1,000,000 columns, which has the weight of a code line, stays whole.
    (1_000_000, "W b", Page::Monochrome, "W\nb"),
    (
        1_000_000,
        "W b",
        Page::Markdown,
        "\n\n  ```text\n  W\n\n  ```\n b",
    ),
    (1_000_000, "W b", Page::Html, "W b"),
    // Alone it closes its fence.
    (
        1_000_000,
        "W",
        Page::Markdown,
        "\n\n  ```text\n  W\n  ```\n",
    ),
    // HTML is made in full by name.
    (0, "a\n\n<b>", Page::FullHtml, "a<br>\n&lt;b&gt;"),
    (
        0,
        "a\n\n<b>",
        Page::StyledHtml,
        "a<br>\n&lt;b&gt;\n<style>\n…\n</style>",
    ),
];

// The text with a word of that many columns in place of each `W`.
fn widened(rt: &impl Abort, out: Global, text: &str, columns: usize) -> String {
    let word = "a".repeat(out, columns).expect(rt, "a word");
    let text = text.replace(out, 'W', &word).expect(rt, "a text");
    drop(word);
    text
}

fn made(rt: &impl Abort, out: Global, text: &str, form: Page) -> String {
    let doc = Doc::from_text(out, text).expect(rt, "a document");
    let page = text_of(out, &doc, form).expect(rt, "a page");
    drop(doc);
    page
}

fn fits(page: &str, want: &str) -> bool {
    match want.split_once('…') {
        Some((front, back)) => page.starts_with(front) && page.ends_with(back),
        None => page == want,
    }
}

fn is_made(rt: &impl Abort, out: Global, &(columns, text, form, want): &Row) -> bool {
    let text = widened(rt, out, text, columns);
    let page = made(rt, out, &text, form);
    drop(text);
    let want = widened(rt, out, want, columns);
    let is_that = fits(&page, &want);
    drop(want);
    drop(page);
    is_that
}

#[test]
fn pages_are_those_of_their_texts(rt: HostRuntime) {
    for row in ROWS {
        assert!(rt; is_made(&rt, rt.alloc(), row), "{}", row.3);
    }
}
