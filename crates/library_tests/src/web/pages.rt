//! Rows: what the body's content is written as, and which fault a call has.
use crate::web::steps::Step::{End, LineBreak, Start, StartLink, StartLinkToId, StartWithId, Text};
use crate::web::steps::{END, FRONT, Step, apply, new};
use std::alloc::Global;
use std::process::Abort;
use std::test::Fail;
use web_page::Element::{
    Code, Dd, Dl, Dt, Em, Footer, Header, Heading, Li, Main, Nav, P, Pre, Section, Ul,
};
use web_page::{Level, Page, PageError};

const ROWS: [(&[Step], &str); 12] = [
    (&[Start(Main), End], "<main></main>"),
    (
        &[
            Start(Main),
            Start(P),
            Text("a & b < c > \"d\""),
            Text(""),
            Text("\ne"),
            End,
            End,
        ],
        "<main><p>a &amp; b &lt; c &gt; \"d\"\ne</p></main>",
    ),
    (
        &[
            Start(Header),
            Start(Heading(Level::One)),
            Text("T"),
            End,
            End,
            Start(Main),
            End,
        ],
        "<header><h1>T</h1></header><main></main>",
    ),
    (
        &[
            Start(Nav),
            Start(Ul),
            Start(Li),
            StartLink("#a?b=\"&<"),
            Text("é"),
            End,
            Start(Ul),
            Start(Li),
            Start(Code),
            Text("c"),
            End,
            End,
            End,
            End,
            End,
            End,
            Start(Main),
            End,
        ],
        "<nav><ul><li><a href=\"#a?b=&quot;&amp;&lt;\">é</a><ul><li><code>c</code></li></ul></li></ul></nav><main></main>",
    ),
    (
        &[
            Start(Main),
            StartWithId(Section, "a:b"),
            Start(Pre),
            Text("\n x"),
            End,
            End,
            End,
        ],
        "<main><section id=\"a:b\"><pre>\n\n x</pre></section></main>",
    ),
    (
        &[
            Start(Main),
            Start(Dl),
            StartWithId(Dt, "t"),
            Text("t"),
            End,
            Start(Dd),
            End,
            Start(Dt),
            End,
            Start(Dd),
            Start(P),
            Text("p"),
            End,
            End,
            End,
            End,
        ],
        "<main><dl><dt id=\"t\">t</dt><dd></dd><dt></dt><dd><p>p</p></dd></dl></main>",
    ),
    (
        &[
            Start(Main),
            Start(P),
            Start(Em),
            Text("a"),
            LineBreak,
            Text("b"),
            End,
            End,
            End,
        ],
        "<main><p><em>a<br>b</em></p></main>",
    ),
    (
        &[
            Start(Main),
            Start(P),
            StartLinkToId("a:b&\"é"),
            Text("c"),
            End,
            End,
            End,
        ],
        "<main><p><a href=\"#a:b&amp;&quot;é\">c</a></p></main>",
    ),
    (
        &[
            Start(Main),
            End,
            Start(Footer),
            Start(Heading(Level::Two)),
            Text("f"),
            End,
            Start(Pre),
            Text("p"),
            End,
            Start(Dl),
            Start(Dt),
            Text("t"),
            End,
            Start(Dd),
            End,
            End,
            End,
        ],
        "<main></main><footer><h2>f</h2><pre>\np</pre><dl><dt>t</dt><dd></dd></dl></footer>",
    ),
    (
        &[
            Start(Header),
            StartWithId(Heading(Level::One), "a"),
            Text("A"),
            End,
            Start(Ul),
            Start(Li),
            Text("l"),
            End,
            End,
            End,
            Start(Nav),
            Start(Heading(Level::Two)),
            Text("N"),
            End,
            End,
            Start(Main),
            StartWithId(Heading(Level::Six), "b:::c"),
            Text("B"),
            End,
            End,
        ],
        "<header><h1 id=\"a\">A</h1><ul><li>l</li></ul></header><nav><h2>N</h2></nav><main><h6 id=\"b:::c\">B</h6></main>",
    ),
    (
        &[
            Start(Main),
            Start(Ul),
            Start(Li),
            Text(" a & "),
            Start(Em),
            Text("b"),
            End,
            LineBreak,
            Text("c"),
            Start(Ul),
            Start(Li),
            Text("d"),
            End,
            End,
            End,
            End,
            End,
        ],
        "<main><ul><li> a &amp; <em>b</em><br>c<ul><li>d</li></ul></li></ul></main>",
    ),
    (
        &[
            Start(Main),
            Start(Ul),
            Start(Li),
            End,
            Start(Li),
            Text("\n"),
            Start(Ul),
            Start(Li),
            StartLink("a"),
            Text("b"),
            End,
            Text(" "),
            End,
            End,
            End,
            End,
            End,
        ],
        "<main><ul><li></li><li>\n<ul><li><a href=\"a\">b</a> </li></ul></li></ul></main>",
    ),
];

// Calls, and one after them that has the fault.
const FAULTS: [(&[Step], Step, PageError); 28] = [
    (&[], Text("a"), PageError::Misplaced),
    (&[Start(Header), End], Start(Header), PageError::Misplaced),
    (&[Start(Main), Start(P)], Start(P), PageError::Misplaced),
    (&[Start(Main)], Start(Li), PageError::Misplaced),
    (&[Start(Main), Start(Dl)], Start(Dd), PageError::Misplaced),
    (
        &[Start(Main), Start(Dl), Start(Dt), Text("a"), End],
        End,
        PageError::Misplaced,
    ),
    (
        &[Start(Main), Start(Dl), Start(Dt), End, Start(Dd), Text(" ")],
        Start(P),
        PageError::Misplaced,
    ),
    (&[], Start(Footer), PageError::Misplaced),
    (&[Start(Header), End], Start(Footer), PageError::Misplaced),
    (
        &[Start(Main), End, Start(Footer), End],
        Start(Footer),
        PageError::Misplaced,
    ),
    (
        &[Start(Main), End, Start(Footer)],
        Start(Section),
        PageError::Misplaced,
    ),
    (
        &[Start(Main), Start(Ul), Start(Li)],
        Start(P),
        PageError::Misplaced,
    ),
    (
        &[
            Start(Main),
            Start(Ul),
            Start(Li),
            Start(Ul),
            Start(Li),
            Text("a"),
            End,
            End,
        ],
        Text(" "),
        PageError::Misplaced,
    ),
    (
        &[Start(Main), Start(P), StartLink(""), Start(Em)],
        StartLink(""),
        PageError::Misplaced,
    ),
    (&[Start(Main), End], End, PageError::Misplaced),
    (
        &[Start(Main), Start(P), Text(" \t\n")],
        End,
        PageError::NoInk,
    ),
    (
        &[Start(Main), Start(Ul), Start(Li), End],
        End,
        PageError::NoInk,
    ),
    (&[Start(Main), Start(P)], Text("a\r"), PageError::Character),
    (
        &[Start(Main), Start(P)],
        StartLink("\u{fffe}"),
        PageError::Character,
    ),
    (
        &[Start(Main), Start(P)],
        StartLinkToId("a\u{7f}"),
        PageError::Character,
    ),
    (&[Start(Main)], StartLinkToId("a"), PageError::Misplaced),
    (
        &[Start(Main)],
        StartWithId(Section, "\u{85}"),
        PageError::Character,
    ),
    (&[Start(Main)], StartWithId(Section, "a b"), PageError::Id),
    (&[Start(Main)], StartWithId(P, "a"), PageError::Id),
    (
        &[Start(Main)],
        StartWithId(Heading(Level::Two), ""),
        PageError::Id,
    ),
    (
        &[Start(Main)],
        StartWithId(Heading(Level::Two), "a\tb"),
        PageError::Id,
    ),
    (
        &[Start(Main)],
        StartWithId(Heading(Level::Two), "\u{1}"),
        PageError::Character,
    ),
    (
        &[Start(Main), End, Start(Footer)],
        StartWithId(Ul, "a"),
        PageError::Id,
    ),
];

fn begun(alloc: Global, steps: &[Step]) -> Result<Page, PageError> {
    let mut page = new(alloc)?;
    for step in steps {
        apply(&mut page, *step)?;
    }
    Ok(page)
}

#[test]
fn pages_are_written_so(rt: HostRuntime) -> Result<(), Fail> {
    for (steps, body) in ROWS {
        let page = begun(rt.alloc(), steps)?;
        let expected = format!(in rt.alloc(); "{FRONT}{body}{END}")?;
        assert_eq!(rt; page.finish()?.as_str(), expected.as_str());
    }
    Ok(())
}

#[test]
fn a_body_alone_is_written_so(rt: HostRuntime) -> Result<(), Fail> {
    for (steps, body) in ROWS {
        assert_eq!(rt; begun(rt.alloc(), steps)?.finish_body()?.as_str(), body);
    }
    Ok(())
}

#[test]
fn each_fault_is_said(rt: HostRuntime) -> Result<(), Fail> {
    for (steps, call, fault) in FAULTS {
        let mut page = begun(rt.alloc(), steps)?;
        assert!(rt; apply(&mut page, call) == Err(fault), "{call:?}");
    }
    Ok(())
}

#[test]
fn a_page_needs_its_head_and_a_main(rt: HostRuntime) -> Result<(), Fail> {
    for (language, title, style, fault) in [
        ("", "T", "", PageError::Language),
        ("e n", "T", "", PageError::Language),
        ("en", " \n", "", PageError::Title),
        ("en", "T", "a</b", PageError::Style),
        ("en", "T", "\u{7}", PageError::Character),
        ("en", "\u{fdd0}", "", PageError::Character),
    ] {
        let made = Page::new(rt.alloc(), language, title, style);
        assert!(rt; made.err() == Some(fault), "{title}");
    }
    let mut page = new(rt.alloc())?;
    page.start(Main)?;
    assert!(rt; page.finish().err() == Some(PageError::Misplaced));
    assert!(rt; new(rt.alloc())?.finish().err() == Some(PageError::Misplaced));
    assert!(rt; new(rt.alloc())?.finish_body().err() == Some(PageError::Misplaced));
    let open = begun(rt.alloc(), &[Start(Main), End, Start(Footer)])?;
    assert!(rt; open.finish_body().err() == Some(PageError::Misplaced));
    Ok(())
}
