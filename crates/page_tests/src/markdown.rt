//! Pages in markdown: two whole ones, what stands for texts, which texts are refused, and each growth refused in turn.
use crate::refusals::{BYTES, STEP, roomy, taken};
use crate::said::{Said, parts};
use crate::{markdown_tide, markdown_tide_save};
use markdown_page::{PageFault, markdown_page};
use page_model::{Block, Entry, Inline, Line, Part, Rank, Target};
use std::alloc::{AllocError, Global};
use std::process::Abort;

fn is_written(rt: &impl Abort, out: Global, title: &str, said: &[Said], want: &str) -> bool {
    let parts = parts(out, said).expect(rt, "parts");
    let page = markdown_page(out, title, parts.as_slice()).expect(rt, "a page");
    let is_that = page.as_str() == want;
    drop(page);
    drop(parts);
    is_that
}

#[test]
fn pages_in_markdown_are_written_so(rt: HostRuntime) {
    assert!(rt;
        is_written(
            &rt,
            rt.alloc(),
            "tide",
            markdown_tide::SAID,
            markdown_tide::WRITTEN
        )
    );
    assert!(rt;
        is_written(
            &rt,
            rt.alloc(),
            "tide save",
            markdown_tide_save::SAID,
            markdown_tide_save::WRITTEN
        )
    );
}

// Pieces, each with what is written for a paragraph of it alone.
const ROWS: &[(Inline<'static>, &str)] = &[
    (Inline::Words("# a"), "\\# a"),
    (Inline::Words("-"), "\\-"),
    (Inline::Words("1. a"), "1\\. a"),
    (Inline::Words("1.5"), "1\\.5"),
    (Inline::Words("12"), "12"),
    (Inline::Words("a_b _c"), "a_b \\_c"),
    (Inline::Words("*`[]<{\\"), "\\*\\`\\[\\]\\<&#123;\\\\"),
    (Inline::Words("a & b &c &"), "a & b \\&c \\&"),
    (Inline::Words("a! b!"), "a! b\\!"),
    (Inline::Words(" a\tb\n"), "&#32;a b&#32;"),
    (Inline::Words("\u{a0}é\u{fffd}"), "\u{a0}é\u{fffd}"),
    (Inline::Words(""), "&#32;"),
    (Inline::Value("*"), "\\*"),
    (Inline::Literal("*"), "`*`"),
    (Inline::Literal("`"), "`` ` ``"),
    (Inline::Literal("``"), "` `` `"),
    (Inline::Literal("a`b"), "``a`b``"),
    (Inline::Literal("` `` ```"), "```` ` `` ``` ````"),
    (Inline::Literal("a`b``c````"), "``` a`b``c```` ```"),
    (Inline::Literal("``` `"), "`` ``` ` ``"),
    (Inline::Literal(" a"), "`  a `"),
    (Inline::Literal(" \n"), "`  `"),
    (Inline::Literal(""), "&#32;"),
    (Inline::Link("https://a.b/?c&d"), "<https://a.b/?c&amp;d>"),
    (Inline::Link("http://a b"), "http://a b"),
    (
        Inline::Link("https://a.b/{{c}}"),
        "https://a.b/&#123;&#123;c}}",
    ),
    (Inline::Page("a b_é"), "[a b\\_é](a%20b_%C3%A9.md)"),
];

fn one_line(alloc: Global, piece: Inline<'static>) -> Result<Vec<Line<'static>>, AllocError> {
    let line = vec![in alloc; piece]?;
    let mut lines = Vec::new(alloc);
    lines.push(line)?;
    Ok(lines)
}

fn one_paragraph(alloc: Global, piece: Inline<'static>) -> Result<String, PageFault> {
    let lines = one_line(alloc, piece)?;
    let parts = [Part::Block(Block::Paragraph(lines))];
    markdown_page(alloc, "t", &parts)
}

#[test]
fn pieces_are_written_so(rt: HostRuntime) {
    for (piece, written) in ROWS {
        let page = one_paragraph(rt.alloc(), *piece).expect(&rt, "a page");
        let text = page.as_str();
        let want = format!(in rt.alloc(); "# t\n\n{written}\n").expect(&rt, "a text");
        assert!(rt; text == want.as_str(), "{text}");
    }
}

// An entry with this term, which leads there.
fn leading(
    alloc: Global,
    target: Target<'static>,
    term: Inline<'static>,
) -> Result<Part<'static>, AllocError> {
    let mut entries = Vec::new(alloc);
    entries.push(Entry {
        word: "",
        target: Some(target),
        terms: one_line(alloc, term)?,
        body: Vec::new(alloc),
    })?;
    Ok(Part::Entries(entries))
}

fn one_entry(
    alloc: Global,
    target: Target<'static>,
    term: Inline<'static>,
) -> Result<String, PageFault> {
    let parts = [leading(alloc, target, term)?];
    markdown_page(alloc, "t", &parts)
}

// Where an entry leads, each with what is written for the entry.
const LED: &[(Target<'static>, &str)] = &[
    (Target::Page("t-a"), "[`a`](t-a.md)"),
    (Target::Page("t a"), "[`a`](t%20a.md)"),
    (Target::Heading("t a"), "[`a`](#t-a)"),
    (Target::Heading("T A-b_c"), "[`a`](#t-a-b_c)"),
    (Target::Heading(" t\ta\n"), "[`a`](#-t-a-)"),
    (Target::Heading("t.a (b)!"), "[`a`](#ta-b)"),
    (Target::Heading("t 1\u{b2}"), "[`a`](#t-1%C2%B2)"),
    (
        Target::Heading("\u{c9}T\u{c9} e\u{301}"),
        "[`a`](#%C3%A9t%C3%A9-e%CC%81)",
    ),
    (
        Target::Heading("\u{39f}\u{394}\u{39f}\u{3a3}"),
        "[`a`](#%CE%BF%CE%B4%CE%BF%CF%82)",
    ),
    (Target::Heading("\u{24b6}\u{203f}\u{200d}a"), "[`a`](#a)"),
    (Target::Heading(""), "[`a`](#)"),
];

#[test]
fn entries_lead_there(rt: HostRuntime) {
    for (target, written) in LED {
        let page = one_entry(rt.alloc(), *target, Inline::Literal("a")).expect(&rt, "a page");
        let text = page.as_str();
        let want = format!(in rt.alloc(); "# t\n\n- {written}\n").expect(&rt, "a text");
        assert!(rt; text == want.as_str(), "{text}");
    }
}

#[test]
fn a_term_that_may_define_a_link_leads_nowhere(rt: HostRuntime) {
    let page = one_entry(rt.alloc(), Target::Heading("t a"), Inline::Literal("]:"));
    let page = page.expect(&rt, "a page");
    assert!(rt; page.as_str() == "# t\n\n- `]:`\n");
}

fn fault_of(alloc: Global, title: &str, part: Part<'static>) -> Option<PageFault> {
    let parts = [part];
    markdown_page(alloc, title, &parts).err()
}

#[test]
fn other_texts_are_refused(rt: HostRuntime) {
    let alloc = rt.alloc();
    let fault = Some(PageFault::Character);
    assert!(rt; fault_of(alloc, "a\u{7}", Part::Heading(Rank::Section, "b")) == fault);
    assert!(rt; fault_of(alloc, "a", Part::Heading(Rank::Subsection, "\u{fdd0}")) == fault);
    let code = vec![in alloc; "\u{fffe}"].expect(&rt, "code");
    assert!(rt; fault_of(alloc, "a", Part::Block(Block::Code(code))) == fault);
    for target in [Target::Page("\u{9b}"), Target::Heading("\u{9b}")] {
        let entry = leading(alloc, target, Inline::Words("b")).expect(&rt, "an entry");
        assert!(rt; fault_of(alloc, "a", entry) == fault);
    }
    assert!(rt; one_paragraph(alloc, Inline::Words("\u{7f}")).err() == fault);
}

// Whether a page is whole in that much room. None where it is another, or has another fault.
fn is_whole(
    rt: &impl Abort,
    out: Global,
    parts: &[Part<'_>],
    want: &str,
    room: usize,
) -> Option<bool> {
    let arena = roomy(rt, out);
    let _rest = taken(rt, &arena, room);
    match markdown_page(&arena, "tide save", parts) {
        Ok(page) => (page.as_str() == want).then_some(true),
        Err(fault) => (fault == PageFault::Refused(AllocError)).then_some(false),
    }
}

// Whether it is made in some room, and not before with less of it.
fn is_made_with_more(rt: &impl Abort, out: Global, parts: &[Part<'_>], want: &str) -> bool {
    for step in 0..BYTES / STEP {
        let made = is_whole(rt, out, parts, want, step.saturating_mul(STEP));
        if made != Some(false) {
            return step > 0 && made == Some(true);
        }
    }
    false
}

#[test]
fn a_refused_page_in_markdown_is_made_with_more(rt: HostRuntime) {
    let parts = parts(rt.alloc(), markdown_tide_save::SAID).expect(&rt, "parts");
    assert!(rt;
        is_made_with_more(
            &rt,
            rt.alloc(),
            parts.as_slice(),
            markdown_tide_save::WRITTEN
        )
    );
}

#[test]
fn a_refused_span_with_runs_is_made_with_more(rt: HostRuntime) {
    let lines = one_line(rt.alloc(), Inline::Literal("` ``")).expect(&rt, "a line");
    let parts = [Part::Block(Block::Paragraph(lines))];
    let want = "# tide save\n\n``` ` `` ```\n";
    assert!(rt; is_made_with_more(&rt, rt.alloc(), &parts, want));
}
