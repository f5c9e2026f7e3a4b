//! Whole pages, each with what is written for it; and lines of a paragraph, and items of a usage.
use crate::said::{Said, Shown, parts};
use crate::{tide, tide_save};
use man_page::{TitleLine, manual_page};
use page_model::Inline;
use std::alloc::Global;
use std::process::Abort;

pub fn title(name: &'static str) -> TitleLine<'static> {
    TitleLine {
        name,
        section: "1",
        date: "2026-11-28",
        vendor: "tide 2.1",
        title: "User Commands",
    }
}

fn is_written(rt: &impl Abort, out: Global, name: &'static str, said: &[Said], want: &str) -> bool {
    let parts = parts(out, said).expect(rt, "parts");
    let page = manual_page(out, &title(name), parts.as_slice()).expect(rt, "a page");
    let is_that = page.as_str() == want;
    drop(page);
    drop(parts);
    is_that
}

#[test]
fn manual_pages_are_written_so(rt: HostRuntime) {
    assert!(rt; is_written(&rt, rt.alloc(), "tide", tide::SAID, tide::WRITTEN));
    assert!(rt;
        is_written(
            &rt,
            rt.alloc(),
            "tide-save",
            tide_save::SAID,
            tide_save::WRITTEN
        )
    );
}

// Literals at the front of a word and within one, and items of a usage that would end a sentence.
const WORDS: &[Said] = &[
    Said::Usage(
        "a",
        &[
            &[
                Inline::Words("["),
                Inline::Value("FILE"),
                Inline::Words("...]"),
            ],
            &[Inline::Value("FILE...")],
            &[Inline::Literal("a?"), Inline::Words("')\"")],
            &[Inline::Words("a!\u{201d}")],
            &[Inline::Words("."), Inline::Page("a")],
            &[Inline::Words("a.b]")],
        ],
    ),
    Said::Block(Shown::Paragraph(&[
        &[Inline::Literal("--all"), Inline::Literal("-b")],
        &[
            Inline::Words("a ("),
            Inline::Literal("--all"),
            Inline::Words("), "),
            Inline::Literal("b"),
        ],
        &[Inline::Value("A"), Inline::Literal("b")],
        &[Inline::Value("A\t"), Inline::Literal("b")],
        &[Inline::Words(""), Inline::Literal("\u{e9}")],
        &[Inline::Literal("-1"), Inline::Link("\n"), Inline::Page("b")],
        &[Inline::Page("a"), Inline::Page("b")],
    ])),
];

const WORDS_WRITTEN: &str = r#".TH words 1 2026-11-28 "tide 2.1" "User Commands"
.SY a
[\fIFILE\fP...]\&
\fIFILE...\fP\&
\fBa?\fP\(aq)\(dq\&
a!”\&
\&.\fBa\fP(1)
a.b]
.YS
.PP
\fB\%\-\-all\fP\fB\-b\fP
.br
a (\fB\-\-all\fP), \fB\%b\fP
.br
\fIA\fP\fBb\fP
.br
\fIA \fP\fB\%b\fP
.br
\fB\%é\fP
.br
\fB\-1\fP \fB\%b\fP(1)
.br
\fB\%a\fP(1)\fBb\fP(1)
"#;

#[test]
fn words_and_items_are_written_so(rt: HostRuntime) {
    assert!(rt; is_written(&rt, rt.alloc(), "words", WORDS, WORDS_WRITTEN));
}
