//! Rows: what stands for a text, and which texts no page may have.
use man_page::{PageFault, TitleLine, manual_page};
use page_model::permitted::{refused_in_chapter, refused_in_forms, refused_in_parts};
use page_model::{Block, Chapter, Form, Inline, Line, Part, Rank};
use std::alloc::{AllocError, Global};
use std::process::Abort;
use std::test::Fail;

/// Where the text of a row stands.
#[derive(Clone, Copy, Debug)]
enum Place {
    /// A line of a paragraph.
    Text,
    /// A line of code.
    Code,
    /// What a usage begins with, and an item of it.
    Name,
    Item,
    Heading,
    /// The last word of the title line.
    Title,
}

// A place, a text, and what is written for it.
type Row = (Place, &'static str, &'static str);

const ROWS: &[Row] = &[
    (Place::Text, ".a.", "\\&.a."),
    (Place::Text, "'a'", "\\&\\(aqa\\(aq"),
    (Place::Text, "\\fB", "\\efB"),
    (Place::Text, "-", "\\-"),
    (Place::Text, "^a", "\\&\\(haa"),
    (Place::Text, "~/a", "\\&\\(ti/a"),
    (Place::Text, "\"`^~", "\\&\\(dq\\(ga\\(ha\\(ti"),
    (Place::Text, " a ", "\\& a \\&"),
    (Place::Text, "", "\\&"),
    (Place::Text, "a\tb\nc", "a b c"),
    (Place::Text, "\n.", "\\& ."),
    (Place::Text, "5% é\u{a0}\u{fffd}", "5% é\u{a0}\u{fffd}"),
    (Place::Code, "", ""),
    (Place::Code, "  a - ", "  a \\- \\&"),
    (Place::Code, ".a", "\\&.a"),
    (Place::Code, "'a", "\\&\\(aqa"),
    (Place::Code, "\t'\nb", "\t\\(aq b"),
    (Place::Name, "a-b", "a\\-b"),
    (Place::Name, "a b", "\"a b\""),
    (Place::Name, "a\t\"", "\"a \\(dq\""),
    (Place::Name, "", "\"\""),
    (Place::Item, "a b\tc\nd", "a\\~b\\~c\\~d"),
    (Place::Item, "...", "\\&...\\&"),
    (Place::Item, "", "\\&"),
    (Place::Heading, "A b-'", "A b\\-\\(aq"),
    (Place::Heading, "A  b", "A\\~\\~b"),
    (Place::Heading, " A", "\\~A"),
    (Place::Heading, "", "\\&"),
    (Place::Title, "a-b", "a-b"),
    (Place::Title, "5%", "5\\N'37'"),
    (Place::Title, "T  t\n", "\"T  t \""),
    (Place::Title, "'\"\\", "\\(aq\\(dq\\e"),
    (Place::Title, "", "\"\""),
];

// Texts that no page may have, and places for them.
const REFUSED: &[(Place, &str)] = &[
    (Place::Text, "a\u{7}"),
    (Place::Text, "\u{9b}"),
    (Place::Code, "\u{fffe}"),
    (Place::Name, "\u{7f}"),
    (Place::Item, "\u{1ffff}"),
    (Place::Heading, "\u{fdd0}"),
    (Place::Title, "\u{7}"),
    (Place::Title, "a\u{9b}"),
    (Place::Title, "\u{fffe}"),
];

// What stands before and after a text.
fn around(place: Place) -> (&'static str, &'static str) {
    match place {
        Place::Text => (".TH a 1 b c d\n.PP\n", "\n"),
        Place::Code => (".TH a 1 b c d\n.PP\n.RS 4\n.EX\n", "\n.EE\n.RE\n"),
        Place::Name => (".TH a 1 b c d\n.SY ", "\n.YS\n"),
        Place::Item => (".TH a 1 b c d\n.SY e\n", "\n.YS\n"),
        Place::Heading => (".TH a 1 b c d\n.SH ", "\n"),
        Place::Title => (".TH a 1 b c ", "\n"),
    }
}

fn lines(alloc: Global, text: &'static str) -> Result<Vec<Line<'static>>, AllocError> {
    let line = vec![in alloc; Inline::Words(text)]?;
    let mut lines = Vec::new(alloc);
    lines.push(line)?;
    Ok(lines)
}

fn usage(
    alloc: Global,
    name: &'static str,
    items: Vec<Line<'static>>,
) -> Result<Part<'static>, AllocError> {
    let mut forms = Vec::new(alloc);
    forms.push(Form { name, items })?;
    Ok(Part::Usage(forms))
}

fn part(alloc: Global, place: Place, text: &'static str) -> Result<Part<'static>, AllocError> {
    match place {
        Place::Text => Ok(Part::Block(Block::Paragraph(lines(alloc, text)?))),
        Place::Code => Ok(Part::Block(Block::Code(vec![in alloc; text]?))),
        Place::Name => usage(alloc, text, Vec::new(alloc)),
        Place::Item => usage(alloc, "e", lines(alloc, text)?),
        Place::Heading | Place::Title => Ok(Part::Heading(Rank::Section, text)),
    }
}

fn parts(
    alloc: Global,
    place: Place,
    text: &'static str,
) -> Result<Vec<Part<'static>>, AllocError> {
    let mut parts = Vec::new(alloc);
    if !matches!(place, Place::Title) {
        parts.push(part(alloc, place, text)?)?;
    }
    Ok(parts)
}

// A page with a text in its place.
fn page(alloc: Global, place: Place, text: &'static str) -> Result<String, PageFault> {
    let title = TitleLine {
        name: "a",
        section: "1",
        date: "b",
        vendor: "c",
        title: if matches!(place, Place::Title) {
            text
        } else {
            "d"
        },
    };
    let parts = parts(alloc, place, text)?;
    manual_page(alloc, &title, parts.as_slice())
}

fn is_written(rt: &impl Abort, out: Global, &(place, text, want): &Row) -> bool {
    let page = page(out, place, text).expect(rt, "a page");
    let (before, after) = around(place);
    let written = page.as_str().strip_prefix(before);
    let is_that = written.and_then(|rest| rest.strip_suffix(after)) == Some(want);
    drop(page);
    is_that
}

#[test]
fn texts_are_written_so(rt: HostRuntime) {
    for row in ROWS {
        assert!(rt; is_written(&rt, rt.alloc(), row), "{:?} {:?}", row.0, row.1);
    }
}

#[test]
fn controls_and_noncharacters_are_refused(rt: HostRuntime) {
    for &(place, text) in REFUSED {
        let fault = page(rt.alloc(), place, text).err();
        assert!(rt; fault == Some(PageFault::Character), "{place:?} {text:?}");
    }
}

#[test]
fn the_first_text_that_is_refused_is_told(rt: HostRuntime) {
    for &(place, text) in REFUSED {
        let parts = parts(rt.alloc(), place, text).expect(&rt, "parts");
        let told = refused_in_parts(parts.as_slice());
        let want = if matches!(place, Place::Title) {
            None
        } else {
            Some(text)
        };
        assert!(rt; told == want, "{place:?} {text:?}");
    }
}

#[test]
fn a_usage_tells_its_first_refused_text(rt: HostRuntime) {
    let items = lines(rt.alloc(), "\u{9b}").expect(&rt, "lines");
    let forms = vec![in rt.alloc(); Form { name: "a", items }].expect(&rt, "forms");
    assert!(rt; refused_in_forms(forms.as_slice()) == Some("\u{9b}"));
    assert!(rt; refused_in_forms(&[] as &[Form]).is_none());
}

// A level called by these names, with a heading, and one below it that is called so.
fn chapter<'t>(
    alloc: Global,
    names: (&'t str, &'t str),
    heading: &'t str,
    below: &'t str,
) -> Result<Chapter<'t>, AllocError> {
    let lower = Chapter {
        title: "c",
        name: below,
        about: Vec::new(alloc),
        parts: Vec::new(alloc),
        below: Vec::new(alloc),
    };
    Ok(Chapter {
        title: names.0,
        name: names.1,
        about: Vec::new(alloc),
        parts: vec![in alloc; Part::Heading(Rank::Section, heading)]?,
        below: vec![in alloc; lower]?,
    })
}

#[test]
fn a_level_tells_its_first_refused_text(rt: HostRuntime) {
    for (names, heading, below, want) in [
        (("\u{1}", "\u{2}"), "\u{3}", "\u{4}", Some("\u{1}")),
        (("a", "\u{2}"), "\u{3}", "\u{4}", Some("\u{2}")),
        (("a", "b"), "\u{3}", "\u{4}", Some("\u{3}")),
        (("a", "b"), "c", "\u{4}", Some("\u{4}")),
        (("a", "b"), "c", "d", None),
    ] {
        let chapter = chapter(rt.alloc(), names, heading, below).expect(&rt, "a level");
        let told = refused_in_chapter(&chapter);
        assert!(rt; told == want, "{want:?}");
        drop(chapter);
    }
}

#[test]
fn faults_have_words(rt: HostRuntime) -> Result<(), Fail> {
    let character = format!(in rt.alloc(); "{}", PageFault::Character)?;
    let refused = format!(in rt.alloc(); "{}", PageFault::Refused(AllocError))?;
    assert_eq!(rt;
        character.as_str(),
        "a control character or a noncharacter in a text"
    );
    assert_eq!(rt; refused.as_str(), "no memory");
    Ok(())
}
