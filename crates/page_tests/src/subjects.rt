//! Which words lead to a level, and the names of all levels below one; and each growth refused in turn.
use crate::refusals::{BYTES, STEP, roomy, taken};
use bumpalo::Bump;
use description::{Command, Group, Level};
use description_pages::levels::LevelSubject;
use description_pages::subjects::{all_after, all_from, enter, page_name, title};
use std::alloc::{AllocError, Global};
use std::process::Abort;

// A word, and the title of the page that it leads to from the top.
const ENTERED: &[(&str, Option<&str>)] = &[
    ("list", Some("tide list")),
    ("l", Some("tide list")),
    ("ä", Some("tide save")),
    ("ls", Some("tide list")),
    ("dir", Some("tide list")),
    ("store", Some("tide store")),
    // of two commands, that of a group
    ("depot", Some("tide store")),
    // a hidden one, by its name and by its other name
    ("debug", Some("tide debug")),
    ("dbg", Some("tide debug")),
    // none of this level
    ("check", None),
    ("tide", None),
    ("li", None),
    ("", None),
];

/// All levels that are not hidden, in order.
pub const TITLES: &[&str] = &[
    "tide",
    "tide store",
    "tide store check",
    "tide store check all",
    "tide list",
    "tide save",
];

// Those below the first of them.
const BELOW: &[&str] = &["tide store check", "tide store check all"];

fn plain<'p>(alloc: Global, name: &'static str) -> Command<'p> {
    Command::new(name, Level::new(alloc))
}

// A command with one below it.
fn nested<'p>(
    alloc: Global,
    name: &'static str,
    below: Command<'p>,
) -> Result<Command<'p>, AllocError> {
    let mut level: Level<'p> = Level::new(alloc);
    level.command(below)?;
    Ok(Command::new(name, level))
}

fn store_group<'p>(alloc: Global) -> Result<Group<'p>, AllocError> {
    let mut level: Level<'p> = Level::new(alloc);
    level.command(nested(alloc, "fsck", plain(alloc, "deep"))?.hidden())?;
    level.command(nested(alloc, "check", plain(alloc, "all"))?)?;
    let mut store: Command<'p> = Command::new("store", level);
    store.alias("depot")?;
    let mut group: Group<'p> = Group::new(alloc, "Stores:");
    group.command(store)?;
    Ok(group)
}

fn top<'p>(alloc: Global) -> Result<Level<'p>, AllocError> {
    let mut level: Level<'p> = Level::new(alloc);
    let mut list = plain(alloc, "list").short('l');
    list.alias("ls")?;
    list.alias("dir")?;
    level.command(list)?;
    let mut debug = nested(alloc, "debug", plain(alloc, "trace"))?.hidden();
    debug.alias("dbg")?;
    level.command(debug)?;
    let mut save = plain(alloc, "save").short('ä');
    save.alias("depot")?;
    level.command(save)?;
    level.group(store_group(alloc)?)?;
    Ok(level)
}

/// A level under these names, in an arena.
pub fn tide_in<'p>(
    store: &'p Bump,
    level: Level<'p>,
    names: &[&'p str],
) -> Result<LevelSubject<'p, 'p, Global>, AllocError> {
    let Ok(level) = store.try_alloc(level) else {
        return Err(AllocError);
    };
    Ok(LevelSubject {
        names: store.try_alloc_slice_copy(names)?,
        help: None,
        help_options: &[],
        level,
    })
}

/// The level whose titles are `TITLES`.
pub fn tide<'p>(
    alloc: Global,
    store: &'p Bump,
) -> Result<LevelSubject<'p, 'p, Global>, AllocError> {
    tide_in(store, top(alloc)?, &["tide"])
}

// Whether these are the titles of the levels.
fn have_titles<'p>(
    arena: &'p Bump,
    found: &[LevelSubject<'p, 'p, Global>],
    titles: &[&str],
) -> Result<bool, AllocError> {
    for (subject, wanted) in found.iter().zip(titles) {
        if title(arena, subject.names)? != *wanted {
            return Ok(false);
        }
    }
    Ok(found.len() == titles.len())
}

// The title of what a word leads to.
fn entered<'p>(
    arena: &'p Bump,
    subject: LevelSubject<'p, 'p, Global>,
    word: &str,
) -> Result<Option<&'p str>, AllocError> {
    match enter(arena, subject, word)? {
        None => Ok(None),
        Some(found) => Ok(Some(title(arena, found.names)?)),
    }
}

fn are_entered<'p>(
    arena: &'p Bump,
    subject: LevelSubject<'p, 'p, Global>,
) -> Result<bool, AllocError> {
    for (word, wanted) in ENTERED {
        if entered(arena, subject, *word)? != *wanted {
            return Ok(false);
        }
    }
    Ok(true)
}

// Whether all levels are found, those below the store, and the name of a page.
fn are_found<'p>(
    arena: &'p Bump,
    subject: LevelSubject<'p, 'p, Global>,
) -> Result<bool, AllocError> {
    let all = all_from(arena, subject)?;
    let Some(store) = enter(arena, subject, "store")? else {
        return Ok(false);
    };
    let below = all_after(arena, store)?;
    Ok(
        have_titles(arena, all.as_slice(), TITLES)?
            && have_titles(arena, below.as_slice(), BELOW)?
            && page_name(arena, store.names)? == "tide-store",
    )
}

#[test]
fn words_lead_to_levels(rt: HostRuntime) {
    let arena = Bump::new(rt.alloc());
    let subject = tide(rt.alloc(), &arena).expect(&rt, "a level");
    let is_so = are_entered(&arena, subject).expect(&rt, "levels");
    assert!(rt; is_so);
}

#[test]
fn all_levels_are_found(rt: HostRuntime) {
    let arena = Bump::new(rt.alloc());
    let subject = tide(rt.alloc(), &arena).expect(&rt, "a level");
    let is_so = are_found(&arena, subject).expect(&rt, "levels");
    assert!(rt; is_so);
}

// The same in that much room.
fn found_in<'p>(alloc: Global, store: &'p Bump, arena: &'p Bump) -> Result<bool, AllocError> {
    are_found(arena, tide(alloc, store)?)
}

#[test]
fn refused_levels_are_found_with_more(rt: HostRuntime) {
    for step in 0..BYTES / STEP {
        let store = Bump::new(rt.alloc());
        let arena = roomy(&rt, rt.alloc());
        let _rest = taken(&rt, &arena, step.saturating_mul(STEP));
        if let Ok(is_so) = found_in(rt.alloc(), &store, &arena) {
            assert!(rt; step > 0 && is_so);
            return;
        }
    }
    panic!(rt; "never found")
}
