//! Pages of any size come through, whatever the ends answer.
use crate::clidoc::pages::Form;
use crate::engines::{AMPLE, AMPLE_FOR_LARGE, Asked, is_shown};
use crate::frames::{Frame, shows, word_comes_through};
use crate::stand_ins::scripts::{Draws, LARGE, SIZES, front};
use helpdoc_engine::words::{self, Choice};
use std::alloc::{AllocError, Global};

// Each form of a text. Only on its manual page something stands around a word.
const FULL_TEXT: Frame = (Asked::Helpdoc(Choice::Text(words::Form::Full)), "@", "@");

const BRIEF_TEXT: Frame = (Asked::Helpdoc(Choice::Text(words::Form::Brief)), "@", "@");

const HTML_TEXT: Frame = (Asked::Helpdoc(Choice::Text(words::Form::Html)), "@", "@");

const MARKDOWN_TEXT: Frame = (
    Asked::Helpdoc(Choice::Text(words::Form::Markdown)),
    "@",
    "@",
);

const MAN_TEXT: Frame = (
    Asked::Helpdoc(Choice::Text(words::Form::Man)),
    "@",
    ".ie \\n(.g .ds Aq \\(aq\n.el .ds Aq '\n.TH helpdoc 1 - - \"\"\n\\fR@\\fP",
);

const TEXTS: &[Frame] = &[FULL_TEXT, BRIEF_TEXT, HTML_TEXT, MARKDOWN_TEXT, MAN_TEXT];

// Around a usage.
const USAGE: Frame = (
    Asked::Clidoc(Form::Usage),
    "name = \"app\"\nusage = \"@\"\n",
    "@\n",
);

// Around the short text of a description.
const FULL: Frame = (
    Asked::Clidoc(Form::Full),
    "name = \"app\"\nabout = \"@\"\n",
    "@\n\nUsage: app\n",
);

const BRIEF: Frame = (
    Asked::Clidoc(Form::Brief),
    "name = \"app\"\nabout = \"@\"\n",
    "@\n\nUsage: app\n",
);

const MARKDOWN: Frame = (
    Asked::Clidoc(Form::Markdown),
    "name = \"app\"\nabout = \"@\"\n",
    "# app\n\n@\n\n```\napp\n```\n",
);

const MAN: Frame = (
    Asked::Clidoc(Form::Man),
    "name = \"app\"\nabout = \"@\"\n",
    ".TH app 1 \"\" \"\" \"\"\n.SH NAME\napp \\- @\n.SH SYNOPSIS\n.SY app\n.YS\n",
);

const HTML: Frame = (
    Asked::Clidoc(Form::Fragment),
    "name = \"app\"\nabout = \"@\"\n",
    "<header><h1>app</h1><p>@</p></header><main><section id=\"app\"><h3>Usage</h3><pre>\n<code><strong>app</strong></code></pre></section></main>",
);

// Around a help text whose lines stand below one another.
const FULL_HELP: Frame = (
    Asked::Clidoc(Form::Full),
    "name = \"app\"\n[[option]]\nlong = \"verbose-as-can\"\nhelp = \"\"\"a@\"\"\"\n",
    "Usage: app [--verbose-as-can]\n\nOptions:\n        --verbose-as-can  a@\n",
);

const BRIEF_HELP: Frame = (
    Asked::Clidoc(Form::Brief),
    "name = \"app\"\n[[option]]\nlong = \"verbose-as-can\"\nhelp = \"\"\"a@\"\"\"\n",
    "Usage: app [--verbose-as-can]\n\nOptions:\n        --verbose-as-can  a@\n",
);

const FRAMES: &[Frame] = &[USAGE, FULL, BRIEF, MARKDOWN, MAN, HTML];

// Whether the page of each form comes through drawn ends, with words of these sizes alternately.
fn each_form_comes_through(global: Global, draws: &mut Draws, sizes: [usize; 2]) -> bool {
    let mut size = sizes[0];
    for frame in FRAMES {
        let comes_through = word_comes_through(global, AMPLE, draws, frame, size);
        if !comes_through.unwrap_or(false) {
            return false;
        }
        size = if size == sizes[0] { sizes[1] } else { sizes[0] };
    }
    true
}

// Whether the page of a text comes through drawn ends, with a word of each size.
fn each_size_comes_through(global: Global, draws: &mut Draws, frame: &Frame) -> bool {
    for &size in &SIZES {
        let comes_through = word_comes_through(global, AMPLE_FOR_LARGE, draws, frame, size);
        if !comes_through.unwrap_or(false) {
            return false;
        }
    }
    true
}

#[test]
fn pages_come_through_any_ends(rt: HostRuntime) {
    let mut draws = Draws::new(3);
    for frame in TEXTS {
        assert!(rt;
            each_size_comes_through(rt.alloc(), &mut draws, frame),
            "{}",
            frame.2
        );
    }
    let mut draws = Draws::new(4);
    for &size in &SIZES[..7] {
        assert!(rt;
            each_form_comes_through(rt.alloc(), &mut draws, [size, size]),
            "{size}"
        );
    }
    // Each form with one of the two largest sizes.
    assert!(rt; each_form_comes_through(rt.alloc(), &mut draws, [SIZES[7], SIZES[8]]));
}

// Whether a large page comes through that shows this piece many times, on an input that has it as it is written there.
fn shows_pieces(
    global: Global,
    frame: &Frame,
    piece: &str,
    shown: &str,
) -> Result<bool, AllocError> {
    let count = LARGE / shown.len().max(1) + 64;
    let given = piece.repeat(global, count)?;
    let shown = shown.repeat(global, count)?;
    shows(global, frame, &given, &shown)
}

// Letters, as words of any size have them.
const LETTERS: &str = "abcdefghijk";

// A frame, a piece of an input, and how a page shows it.
const PIECES: &[(&Frame, &str, &str)] = &[
    (&FULL_TEXT, LETTERS, LETTERS),
    (&BRIEF_TEXT, LETTERS, LETTERS),
    (&HTML_TEXT, LETTERS, LETTERS),
    (&MARKDOWN_TEXT, LETTERS, LETTERS),
    (&MAN_TEXT, LETTERS, LETTERS),
    (&FULL_HELP, "\n a", "\n                          a"),
    (&BRIEF_HELP, "\n a", "\n                          a"),
    (&MARKDOWN, "*", "\\*"),
    (&MAN, "'", "\\(aq"),
    (&HTML, "&", "&amp;"),
];

/// Pushes a word between these two.
pub fn push_between(
    text: &mut String,
    [before, after]: [&str; 2],
    word: &str,
) -> Result<(), AllocError> {
    text.push_str(before)?;
    text.push_str(word)?;
    text.push_str(after)
}

// A text with many words of their own, each of which fills a line, between these two.
fn words_between(
    global: Global,
    head: &str,
    around: [&str; 2],
    back: &str,
) -> Result<String, AllocError> {
    let word = "X".repeat(global, 1500)?;
    let mut text = String::from_str(global, head)?;
    for size in 100..1500usize {
        push_between(&mut text, around, front(&word, size))?;
    }
    text.push_str(back)?;
    Ok(text)
}

// Whether a large page comes through whose description is large too.
fn shows_words(global: Global) -> Result<bool, AllocError> {
    let positional = ["[[positional]]\nvalue = '", "'\n"];
    let head = "name = 'app'\n[[option]]\nshort = 'v'\nrequired = true\n";
    let input = words_between(global, head, positional, "")?;
    let page = words_between(global, "app -v", ["\n    ", ""], "\n")?;
    let (input, page) = (input.as_bytes(), page.as_bytes());
    Ok(
        input.len() > LARGE
            && page.len() > LARGE
            && is_shown(global, Asked::Clidoc(Form::Usage), input, page),
    )
}

#[test]
fn large_pages_come_through(rt: HostRuntime) {
    for &(frame, piece, shown) in PIECES {
        let shows = shows_pieces(rt.alloc(), frame, piece, shown);
        assert!(rt; shows.unwrap_or(false), "{shown}");
    }
    // A long description is read to its end.
    assert!(rt; shows_words(rt.alloc()).unwrap_or(false));
}
