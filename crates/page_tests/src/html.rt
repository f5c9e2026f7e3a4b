//! The page of a command line in HTML, whole and as a fragment, and each growth refused in turn.
use crate::html_written::{GREET, TIDE};
use crate::levels::{ABOUT, FOOTER, help_option, list_command, push_options, save_level};
use crate::refusals::{BYTES, STEP, roomy, taken};
use bumpalo::Bump;
use command_pages::{Extent, PageError, TitleGiven, application, html_page_of};
use description::{Command, Description, Group, Level, Opt, Positional};
use std::alloc::{AllocError, Global};
use std::process::Abort;

fn store_level<'p>(alloc: Global) -> Result<Level<'p>, AllocError> {
    let mut level: Level<'p> = Level::new(alloc).about("Makes and drops stores.");
    let make = Command::new("make", Level::new(alloc)).help("Make an empty store");
    level.command(make)?;
    Ok(level)
}

fn tide_level<'p>(alloc: Global) -> Result<Level<'p>, AllocError> {
    let mut level: Level<'p> = Level::new(alloc).about(ABOUT).footer(FOOTER);
    push_options(&mut level)?;
    level.command(Command::new("save", save_level(alloc)?).help("Save folders"))?;
    level.command(list_command(alloc)?)?;
    level.command(Command::new("store", store_level(alloc)?).help("Work with stores"))?;
    Ok(level)
}

// The description that `tide.toml` gives, with a command that is hidden.
fn tide<'p>(alloc: Global) -> Result<Description<'p>, AllocError> {
    let mut level: Level<'p> = tide_level(alloc)?;
    level.command(Command::new("debug", store_level(alloc)?).hidden())?;
    let mut tide: Description<'p> = Description::new(alloc, "tide", level)
        .date("2026-11-28")
        .vendor("tide 2.1");
    tide.help_option(help_option())?;
    Ok(tide)
}

fn greet(alloc: Global) -> Result<Description<'static>, AllocError> {
    let mut level = Level::new(alloc).about("Greets people.");
    level.option(Opt::flag('l', "loud").help("In capital letters"))?;
    level.positional(Positional::new("NAME").repeated().help("Whom to greet"))?;
    Ok(Description::new(alloc, "greet", level).date("May 2026"))
}

// What is made of a description, with a date in the place of its own.
#[derive(Clone, Copy)]
struct Row(Extent, Option<&'static str>, &'static str);

// A blank date counts as no date.
const WHOLE: Row = Row(Extent::Page, Some(" "), GREET);

fn page_in<'p, 'a: 'p>(
    arena: &'p Bump,
    app: &'p Description<'a>,
    extent: Extent,
    date: Option<&str>,
) -> Result<String<&'p Bump>, PageError> {
    let level = application(arena, app)?;
    let given = TitleGiven { date, vendor: None };
    html_page_of(arena, arena, app, extent, given, level)
}

// Whether a page is whole in that much room. None where it is another, or has another fault.
fn is_whole(
    rt: &impl Abort,
    out: Global,
    app: &Description<'_>,
    row: Row,
    room: usize,
) -> Option<bool> {
    let arena = roomy(rt, out);
    let _rest = taken(rt, &arena, room);
    match page_in(&arena, app, row.0, row.1) {
        Ok(page) => (page.as_str() == row.2).then_some(true),
        Err(fault) => (fault == PageError::Refused(AllocError)).then_some(false),
    }
}

#[test]
fn the_page_of_tide_is_written_so(rt: HostRuntime) {
    let app = tide(rt.alloc()).expect(&rt, "a description");
    let arena = Bump::new(rt.alloc());
    let page = page_in(&arena, &app, Extent::Fragment, None).ok();
    let page = page.expect(&rt, "a page");
    let text = page.as_str();
    assert!(rt; text == TIDE, "{text}");
}

#[test]
fn the_page_of_greet_is_written_so(rt: HostRuntime) {
    let app = greet(rt.alloc()).expect(&rt, "a description");
    assert!(rt; is_whole(&rt, rt.alloc(), &app, WHOLE, BYTES) == Some(true));
}

#[test]
fn a_refused_page_in_html_is_made_with_more(rt: HostRuntime) {
    let app = greet(rt.alloc()).expect(&rt, "a description");
    for step in 0..BYTES / STEP {
        match is_whole(&rt, rt.alloc(), &app, WHOLE, step.saturating_mul(STEP)) {
            Some(false) => {}
            Some(true) => {
                assert!(rt; step > 0);
                return;
            }
            None => panic!(rt; "another page or fault at {step}"),
        }
    }
    panic!(rt; "never made")
}

#[test]
fn a_text_that_no_page_has_is_refused(rt: HostRuntime) {
    let level = Level::new(rt.alloc()).about("a\u{7}");
    let app = Description::new(rt.alloc(), "app", level);
    let arena = Bump::new(rt.alloc());
    let fault = page_in(&arena, &app, Extent::Page, None).err();
    assert!(rt; fault == Some(PageError::Character));
}

// A language with a long tag, and many entries of one word, each in a list of its own.
fn crowded(alloc: Global) -> Result<Description<'static>, AllocError> {
    let mut level = Level::new(alloc);
    for _ in 0..120usize {
        let mut group = Group::new(alloc, "Names");
        group.positional(Positional::new("NAME").help("One"))?;
        level.group(group)?;
    }
    let tag = "de-Latn-DE-1996-x-a-tag-that-is-longer-than-most-others-are";
    Ok(Description::new(alloc, "app", level).language(tag))
}

#[test]
fn as_many_entries_of_a_word_as_there_are_have_ids(rt: HostRuntime) {
    let app = crowded(rt.alloc()).expect(&rt, "a description");
    let arena = Bump::new(rt.alloc());
    let page = page_in(&arena, &app, Extent::Page, None).ok();
    let page = page.expect(&rt, "a page");
    for part in [
        " lang=\"de-Latn-DE-1996-x-a-tag-",
        " id=\"app::NAME\"",
        " id=\"app::NAME::100\"",
        " id=\"app::NAME::120\"",
    ] {
        assert!(rt; page.as_str().split_once(part).is_some(), "{part}");
    }
}

#[test]
fn faults_of_pages_in_html_have_words(rt: HostRuntime) -> Result<(), AllocError> {
    let language = format!(in rt.alloc(); "{}", PageError::Language)?;
    let title = format!(in rt.alloc(); "{}", PageError::Title)?;
    assert_eq!(rt; language.as_str(), "the language is no language tag");
    assert_eq!(rt; title.as_str(), "the title is empty");
    Ok(())
}
