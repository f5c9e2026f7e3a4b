//! A level with all levels below it, as a tree: which levels there are, what one says, and each growth refused in turn.
use crate::refusals::{BYTES, STEP, roomy, taken};
use crate::subjects::{TITLES, tide, tide_in};
use bumpalo::Bump;
use description::{Command, FixedWords, Level, Opt, Topic};
use description_pages::LevelSubject;
use description_pages::chapters::chapter;
use markdown_page::{PageFault, markdown_page};
use page_model::Chapter;
use std::alloc::{AllocError, Global};
use std::process::Abort;

fn words_in(store: &Bump) -> Result<&FixedWords<'_>, AllocError> {
    let Ok(words) = store.try_alloc(FixedWords::english()) else {
        return Err(AllocError);
    };
    Ok(words)
}

// ---- which levels there are

// Puts those below one, the first of them last.
fn push_below<'t, 'p>(
    rest: &mut Vec<&'t Chapter<'p, &'p Bump>>,
    above: &'t Chapter<'p, &'p Bump>,
) -> Result<(), AllocError> {
    for lower in above.below.iter().rev() {
        rest.push(lower)?;
    }
    Ok(())
}

// Whether these are the titles of a chapter and of those below it, and each ends with the name.
fn have_titles<'t, 'p>(alloc: Global, top: &'t Chapter<'p, &'p Bump>) -> Result<bool, AllocError> {
    let mut rest: Vec<&'t Chapter<'p, &'p Bump>> = Vec::new(alloc);
    rest.push(top)?;
    for title in TITLES {
        let Some(next) = rest.pop() else {
            return Ok(false);
        };
        if next.title != *title || !title.ends_with(next.name) {
            return Ok(false);
        }
        push_below(&mut rest, next)?;
    }
    Ok(rest.is_empty())
}

fn is_tree<'p>(alloc: Global, arena: &'p Bump) -> Result<bool, AllocError> {
    let made = chapter(arena, words_in(arena)?, tide(alloc, arena)?)?;
    have_titles(alloc, &made)
}

#[test]
fn each_level_has_its_chapter(rt: HostRuntime) {
    let arena = Bump::new(rt.alloc());
    assert!(rt; is_tree(rt.alloc(), &arena) == Ok(true));
}

// ---- what one says

// What follows `about`, in markdown.
const PARTS: &str = "\
# p c

```
p c [-n] COMMAND ...
```

In turn.

## Options

- `-n` — Not so

## Commands

- [`d`](#p-c-d) — Does more

## See also

`p(5)`
";

fn one_level<'p>(alloc: Global) -> Result<Level<'p>, AllocError> {
    let mut level: Level<'p> = Level::new(alloc).about("Does one.").header("In turn.");
    level.option(Opt::short('n').help("Not so"))?;
    level.command(Command::new("d", Level::new(alloc)).help("Does more"))?;
    level.topic(Topic::new("See also:", "`p(5)`"))?;
    Ok(level)
}

// Whether a chapter says what it is about, has one below it, and these parts.
fn says_so(alloc: Global, made: &Chapter<'_, &Bump>) -> Result<bool, PageFault> {
    let page = markdown_page(alloc, made.title, made.parts.as_slice())?;
    let is_that = page.as_str() == PARTS;
    Ok(is_that && made.about.len() == 1 && made.below.len() == 1 && made.name == "c")
}

fn one_in<'p>(alloc: Global, store: &'p Bump) -> Result<LevelSubject<'p, 'p, Global>, AllocError> {
    tide_in(store, one_level(alloc)?, &["p", "c"])
}

fn is_said<'p>(alloc: Global, store: &'p Bump, arena: &'p Bump) -> Result<bool, PageFault> {
    let made = chapter(arena, words_in(store)?, one_in(alloc, store)?)?;
    says_so(alloc, &made)
}

#[test]
fn a_chapter_says_so(rt: HostRuntime) {
    let arena = Bump::new(rt.alloc());
    assert!(rt; is_said(rt.alloc(), &arena, &arena) == Ok(true));
}

#[test]
fn a_refused_chapter_is_made_with_more(rt: HostRuntime) {
    for step in 0..BYTES / STEP {
        let store = Bump::new(rt.alloc());
        let arena = roomy(&rt, rt.alloc());
        let _rest = taken(&rt, &arena, step.saturating_mul(STEP));
        match is_said(rt.alloc(), &store, &arena) {
            Ok(is_so) => {
                assert!(rt; step > 0 && is_so);
                return;
            }
            Err(fault) => assert!(rt; fault == PageFault::Refused(AllocError)),
        }
    }
    panic!(rt; "never made")
}
