//! Levels of a command line, from their records to their pages in each medium, and each growth refused in turn.
use crate::console::WRITTEN as CONSOLE_TIDE_SAVE;
use crate::manual::title;
use crate::refusals::{BYTES, STEP, roomy, taken};
use crate::{markdown_tide, markdown_tide_save, tide, tide_save};
use bumpalo::Bump;
use console_page::{console_page, console_usage};
use description::{Choice, Command, FixedWords, Level, Opt, Positional, Topic};
use description_pages::{Depth, Detail, LevelSubject, consoles, manuals, markdowns};
use man_page::{PageFault, manual_page};
use markdown_page::markdown_page;
use std::alloc::{AllocError, Global};
use std::process::Abort;

pub const ABOUT: &str = "\
Keeps snapshots of folders.

A snapshot holds each file once, however often it was saved. How it works
is told at <https://tide.example/store>.";

pub const FOOTER: &str = "A store can be read by every version from 1.4 on.";

const ABOUT_SAVE: &str = "\
Saves folders as a new snapshot.

What is left out:

- what `--exclude` names;
- sockets, devices, and whatever else holds no bytes of its own, even where a
  folder of them is named.";

const EXCLUDE: &str = "\
Leave out what this pattern names.

In a pattern `*` stands for any characters but `/`, as in

    *.o
    cache/*/tmp";

const EXAMPLES: &str = "\
Save two folders, without objects:

    $ tide save -x '*.o' src doc
    saved 1,204 files

Each night at three, by `crontab(5)`:

    0 3 * * * tide save --fast /home";

const STATUSES: &str = "\
- `0`: all was saved.
- `1`: some files could not be read.";

// ---- the records of a program

/// The options of the program.
pub fn push_options<'p>(level: &mut Level<'p>) -> Result<(), AllocError> {
    level.option(
        Opt::flag('s', "store")
            .value("FOLDER")
            .default("~/.tide")
            .env("TIDE_STORE")
            .help("Where snapshots are kept"),
    )?;
    level.option(Opt::flag('v', "verbose").help("Say more").repeated())?;
    level.option(
        Opt::syntax("--color[=WHEN]")
            .default("auto")
            .values("never, auto, always")
            .help("Colour what is printed"),
    )
}

pub fn list_command<'p>(alloc: Global) -> Result<Command<'p>, AllocError> {
    let mut list: Command<'p> = Command::new("list", Level::new(alloc))
        .short('l')
        .help("List snapshots, the newest first");
    list.alias("ls")?;
    Ok(list)
}

fn plain_command<'p>(alloc: Global, name: &'static str, help: &'p str) -> Command<'p> {
    Command::new(name, Level::new(alloc)).help(help)
}

fn push_commands<'p>(alloc: Global, level: &mut Level<'p>) -> Result<(), AllocError> {
    level.command(plain_command(alloc, "save", "Save folders"))?;
    level.command(list_command(alloc)?)?;
    level.command(plain_command(alloc, "store", "Work with stores"))
}

fn tide_level<'p>(alloc: Global) -> Result<Level<'p>, AllocError> {
    let mut level: Level<'p> = Level::new(alloc).about(ABOUT).footer(FOOTER);
    push_options(&mut level)?;
    push_commands(alloc, &mut level)?;
    Ok(level)
}

fn speeds<'p>(alloc: Global) -> Result<Choice<'p>, AllocError> {
    let mut choice: Choice<'p> = Choice::new(alloc);
    choice.option(Opt::long("fast").help("Read only files whose time or size has changed"))?;
    choice.option(Opt::long("thorough").help("Read each file"))?;
    Ok(choice)
}

fn push_save_options<'p>(alloc: Global, level: &mut Level<'p>) -> Result<(), AllocError> {
    level.option(
        Opt::flag('x', "exclude")
            .value("PATTERN")
            .repeated()
            .help(EXCLUDE),
    )?;
    level.option(
        Opt::short('n')
            .value("COUNT")
            .help("Keep so many snapshots, and drop older ones"),
    )?;
    level.choice(speeds(alloc)?)
}

pub fn save_level<'p>(alloc: Global) -> Result<Level<'p>, AllocError> {
    let mut level: Level<'p> = Level::new(alloc).about(ABOUT_SAVE);
    push_save_options(alloc, &mut level)?;
    level.positional(Positional::new("FOLDER").repeated().help("What to save"))?;
    level.topic(Topic::new("Examples", EXAMPLES))?;
    level.topic(Topic::new("Exit status", STATUSES))?;
    Ok(level)
}

fn top_level<'p>(alloc: Global) -> Result<Level<'p>, AllocError> {
    let mut level: Level<'p> = Level::new(alloc).about("Does `it`.");
    level.command(plain_command(alloc, "c", "Does one"))?;
    level.command(Command::new("d", Level::new(alloc)))?;
    Ok(level)
}

fn one_level<'p>(alloc: Global) -> Result<Level<'p>, AllocError> {
    let mut level: Level<'p> = Level::new(alloc).about("Does one.").header("In turn.");
    level.option(Opt::short('n').help("Not so"))?;
    level.topic(Topic::new("See also:", "`p(5)`"))?;
    Ok(level)
}

fn more_level<'p>(alloc: Global) -> Result<Level<'p>, AllocError> {
    let mut level: Level<'p> = one_level(alloc)?;
    level.command(plain_command(alloc, "e", "Does more"))?;
    Ok(level)
}

fn lists_level<'p>(alloc: Global) -> Level<'p> {
    Level::new(alloc).about("- a").header("- b")
}

pub fn help_option() -> Opt<'static> {
    Opt::flag('h', "help").help("Print this page")
}

// ---- subjects

/// A level by its names, and by what the level above says of it.
#[derive(Clone, Copy)]
struct Called {
    names: &'static [&'static str],
    help: Option<&'static str>,
}

const TIDE: Called = Called {
    names: &["tide"],
    help: None,
};

const TIDE_SAVE: Called = Called {
    names: &["tide", "save"],
    help: Some("Save folders"),
};

const TOP: Called = Called {
    names: &["p"],
    help: None,
};

const ONE: Called = Called {
    names: &["p", "c"],
    help: Some("Does one"),
};

const MORE: Called = Called {
    names: &["p", "c", "e"],
    help: Some("Does more"),
};

const LISTS: Called = Called {
    names: &["p", "d"],
    help: None,
};

/// Levels in an arena.
type Subjects<'p> = Vec<LevelSubject<'p, 'p, Global>, &'p Bump>;

fn push_level<'p>(
    store: &'p Bump,
    subjects: &mut Subjects<'p>,
    called: Called,
    level: Level<'p>,
    help_options: &[Opt<'p>],
) -> Result<(), AllocError> {
    let Ok(level) = store.try_alloc(level) else {
        return Err(AllocError);
    };
    subjects.push(LevelSubject {
        names: called.names,
        help: called.help,
        help_options: store.try_alloc_slice_copy(help_options)?,
        level,
    })?;
    Ok(())
}

/// Which levels a page has.
#[derive(Clone, Copy)]
enum Levels {
    Tide,
    TideSave,
    One,
    Deep,
    DeepBelow,
    /// A level with a text in place of its usage.
    Stated,
}

fn subjects_in<'p>(
    alloc: Global,
    store: &'p Bump,
    levels: Levels,
) -> Result<Subjects<'p>, AllocError> {
    let mut subjects: Subjects<'p> = Vec::new(store);
    let help = [help_option()];
    match levels {
        Levels::Tide => push_level(store, &mut subjects, TIDE, tide_level(alloc)?, &help)?,
        Levels::TideSave => push_level(store, &mut subjects, TIDE_SAVE, save_level(alloc)?, &help)?,
        Levels::One => push_level(store, &mut subjects, ONE, one_level(alloc)?, &[])?,
        Levels::Stated => {
            let level = Level::new(alloc).usage("c FILE\nc [-n | -m]");
            push_level(store, &mut subjects, ONE, level, &[])?;
        }
        Levels::Deep => {
            push_level(store, &mut subjects, TOP, top_level(alloc)?, &[])?;
            push_level(store, &mut subjects, ONE, one_level(alloc)?, &[])?;
            push_level(store, &mut subjects, LISTS, lists_level(alloc), &[])?;
        }
        Levels::DeepBelow => {
            push_level(store, &mut subjects, ONE, more_level(alloc)?, &[])?;
            push_level(store, &mut subjects, MORE, Level::new(alloc), &[])?;
        }
    }
    Ok(subjects)
}

fn words_in(store: &Bump) -> Result<&FixedWords<'_>, AllocError> {
    let Ok(words) = store.try_alloc(FixedWords::english()) else {
        return Err(AllocError);
    };
    Ok(words)
}

// ---- pages

/// A page in a medium, or a usage alone.
#[derive(Clone, Copy)]
enum Medium {
    Manual(&'static str),
    Markdown(&'static str),
    Console(Detail),
    Usage,
}

/// What is made, and what is written for it.
#[derive(Clone, Copy)]
struct Wanted(Levels, Medium, &'static str);

fn manual_of<'p>(
    arena: &'p Bump,
    words: &'p FixedWords<'p>,
    name: &'static str,
    subjects: &[LevelSubject<'p, 'p, Global>],
) -> Result<String<&'p Bump>, PageFault> {
    let Some((first, below)) = subjects.split_first() else {
        return Ok(String::new(arena));
    };
    let mut parts = manuals::manual(arena, words, *first)?;
    for subject in below {
        manuals::push_manual_below(arena, words, &mut parts, *subject)?;
    }
    manual_page(arena, &title(name), parts.as_slice())
}

fn markdown_of<'p>(
    arena: &'p Bump,
    words: &'p FixedWords<'p>,
    title: &'static str,
    subjects: &[LevelSubject<'p, 'p, Global>],
) -> Result<String<&'p Bump>, PageFault> {
    let Some((first, below)) = subjects.split_first() else {
        return Ok(String::new(arena));
    };
    let depth = if below.is_empty() {
        Depth::Alone
    } else {
        Depth::Deep
    };
    let mut parts = markdowns::markdown(arena, words, depth, *first)?;
    for subject in below {
        markdowns::push_markdown_below(arena, words, &mut parts, *subject)?;
    }
    markdown_page(arena, title, parts.as_slice())
}

fn console_of<'p>(
    arena: &'p Bump,
    words: &'p FixedWords<'p>,
    detail: Detail,
    subjects: &[LevelSubject<'p, 'p, Global>],
) -> Result<String<&'p Bump>, PageFault> {
    let Some(subject) = subjects.first() else {
        return Ok(String::new(arena));
    };
    let parts = consoles::console(arena, words, detail, *subject)?;
    console_page(arena, 80, words.usage, parts.as_slice())
}

fn usage_of<'p>(
    arena: &'p Bump,
    words: &'p FixedWords<'p>,
    subjects: &[LevelSubject<'p, 'p, Global>],
) -> Result<String<&'p Bump>, PageFault> {
    let Some(subject) = subjects.first() else {
        return Ok(String::new(arena));
    };
    let forms = consoles::usage(arena, words, *subject)?;
    console_usage(arena, 80, forms.as_slice())
}

// The page of the first level, with the others after it.
fn page_of<'p>(
    arena: &'p Bump,
    words: &'p FixedWords<'p>,
    medium: Medium,
    subjects: &[LevelSubject<'p, 'p, Global>],
) -> Result<String<&'p Bump>, PageFault> {
    match medium {
        Medium::Manual(name) => manual_of(arena, words, name, subjects),
        Medium::Markdown(title) => markdown_of(arena, words, title, subjects),
        Medium::Console(detail) => console_of(arena, words, detail, subjects),
        Medium::Usage => usage_of(arena, words, subjects),
    }
}

// Whether a page is written so. Its records lie in a store, and all that is made of them in an arena.
fn is_written<'p>(
    alloc: Global,
    store: &'p Bump,
    arena: &'p Bump,
    wanted: Wanted,
) -> Result<bool, PageFault> {
    let subjects = subjects_in(alloc, store, wanted.0)?;
    let page = page_of(arena, words_in(store)?, wanted.1, subjects.as_slice())?;
    let is_that = page.as_str() == wanted.2;
    drop(page);
    Ok(is_that)
}

const TIDE_USAGE: &str = "tide [-s FOLDER] [-v]... [--color[=WHEN]] COMMAND ...\n";

const WHOLE: &[Wanted] = &[
    Wanted(Levels::Tide, Medium::Manual("tide"), tide::WRITTEN),
    Wanted(
        Levels::Tide,
        Medium::Markdown("tide"),
        markdown_tide::WRITTEN,
    ),
    Wanted(Levels::Tide, Medium::Usage, TIDE_USAGE),
    Wanted(
        Levels::TideSave,
        Medium::Manual("tide-save"),
        tide_save::WRITTEN,
    ),
    Wanted(
        Levels::TideSave,
        Medium::Markdown("tide save"),
        markdown_tide_save::WRITTEN,
    ),
    Wanted(
        Levels::TideSave,
        Medium::Console(Detail::Full),
        CONSOLE_TIDE_SAVE,
    ),
];

#[test]
fn levels_are_written_so(rt: HostRuntime) {
    for wanted in WHOLE {
        let arena = Bump::new(rt.alloc());
        assert!(rt; is_written(rt.alloc(), &arena, &arena, *wanted) == Ok(true));
    }
}

// ---- what NAME says

/// What the level above says of a level, what it says of itself, and of its manual page NAME and DESCRIPTION.
#[derive(Clone, Copy)]
struct Row(
    Option<&'static str>,
    &'static str,
    &'static str,
    &'static str,
);

const ROWS: &[Row] = &[
    Row(Some("Does one."), "Does one.", "p\\-c \\- Does one", ""),
    Row(Some("Does\n one."), "Does\none", "p\\-c \\- Does one", ""),
    Row(
        Some("Does `it`."),
        "Does `it`.",
        "p\\-c \\- Does \\fB\\%it\\fP",
        "",
    ),
    Row(Some("."), "It.", "p\\-c", ".SH DESCRIPTION\nIt.\n"),
    Row(None, "It, and so on...", "p\\-c \\- It, and so on...", ""),
    Row(None, "It ..", "p\\-c \\- It ..", ""),
    Row(Some(" \n"), "It.", "p\\-c \\- It", ""),
    Row(
        Some("    code"),
        "- a\n\nIt.",
        "p\\-c \\- It",
        ".SH DESCRIPTION\n.IP \\(bu 2\na\n.PP\nIt.\n",
    ),
    Row(None, "It.", "p\\-c \\- It", ""),
    Row(
        Some("It"),
        "It.\n\nAll.",
        "p\\-c \\- It",
        ".SH DESCRIPTION\nIt.\n.PP\nAll.\n",
    ),
    Row(None, "- a", "p\\-c", ".SH DESCRIPTION\n.IP \\(bu 2\na\n"),
];

const ROW_START: &str = ".TH p-c 1 2026-11-28 \"tide 2.1\" \"User Commands\"\n.SH NAME\n";

const ROW_USAGE: &str = ".SH SYNOPSIS\n.SY \"p c\"\n.YS\n";

const ROW_END: &str = ".SH SEE ALSO\n\\fB\\%p\\fP(1)\n";

// Whether the manual page of a level that says this, and nothing else, is written so.
fn is_row_written<'p>(
    alloc: Global,
    arena: &'p Bump,
    row: Row,
    want: &str,
) -> Result<bool, PageFault> {
    let called = Called {
        names: &["p", "c"],
        help: row.0,
    };
    let mut subjects: Subjects<'p> = Vec::new(arena);
    push_level(
        arena,
        &mut subjects,
        called,
        Level::new(alloc).about(row.1),
        &[],
    )?;
    let page = manual_of(arena, words_in(arena)?, "p-c", subjects.as_slice())?;
    let is_that = page.as_str() == want;
    drop(page);
    Ok(is_that)
}

#[test]
fn summaries_are_written_so(rt: HostRuntime) {
    for row in ROWS {
        let Row(_, about, name, described) = *row;
        let want = format!(in rt.alloc();
            "{ROW_START}{name}\n{ROW_USAGE}{described}{ROW_END}"
        ).expect(&rt, "a text");
        let arena = Bump::new(rt.alloc());
        assert!(rt;
            is_row_written(rt.alloc(), &arena, *row, want.as_str()) == Ok(true),
            "{about}"
        );
    }
}

// ---- levels after another

const DEEP: &str = r#".TH p 1 2026-11-28 "tide 2.1" "User Commands"
.SH NAME
p \- Does \fB\%it\fP
.SH SYNOPSIS
.SY p
\fICOMMAND\fP\~...\&
.YS
.SH COMMANDS
.TP
\fBc\fP
Does one
.TP
\fBd\fP
.SH SEE ALSO
\fB\%p\-c\fP(1), \fB\%p\-d\fP(1)
.SH p c
.SS SYNOPSIS
.SY "p c"
[\fB\-n\fP]
.YS
.SS DESCRIPTION
Does one.
.PP
In turn.
.SS OPTIONS
.TP
\fB\-n\fP
Not so
.SS SEE ALSO
\fB\%p(5)\fP
.SH p d
.SS SYNOPSIS
.SY "p d"
.YS
.SS DESCRIPTION
.IP \(bu 2
a
.IP \(bu 2
b
"#;

const DEEP_MARKDOWN: &str = "\
# p

Does `it`.

```
p COMMAND ...
```

## Commands

- [`c`](#p-c) — Does one

- [`d`](#p-d)

# p c

Does one.

```
p c [-n]
```

In turn.

### Options

- `-n` — Not so

### See also

`p(5)`

# p d

- a

```
p d
```

- b
";

// The page above is named, and that of the command, which stands here, is not.
const DEEP_BELOW: &str = "\
# p c

Does one.

```
p c [-n] COMMAND ...
```

In turn.

## Options

- `-n` — Not so

## Commands

- [`e`](#p-c-e) — Does more

## See also

`p(5)`

[p](p.md)

# p c e

```
p c e
```
";

const BRIEF: &str = "\
Does one.

Usage: p c [-n]

In turn.

Options:
    -n  Not so

See also:
    p(5)
";

const WITH_MORE: &[Wanted] = &[
    Wanted(Levels::Deep, Medium::Manual("p"), DEEP),
    Wanted(Levels::Deep, Medium::Markdown("p"), DEEP_MARKDOWN),
    Wanted(Levels::DeepBelow, Medium::Markdown("p c"), DEEP_BELOW),
    Wanted(Levels::One, Medium::Console(Detail::Brief), BRIEF),
    Wanted(Levels::One, Medium::Usage, "p c [-n]\n"),
    Wanted(Levels::Stated, Medium::Usage, "c FILE\nc [-n | -m]\n"),
];

// Whether a page is whole in that much room. None where it is another, or has another fault.
fn is_whole(rt: &impl Abort, out: Global, wanted: Wanted, room: usize) -> Option<bool> {
    let store = Bump::new(out);
    let arena = roomy(rt, out);
    let _rest = taken(rt, &arena, room);
    match is_written(out, &store, &arena, wanted) {
        Ok(is_that) => is_that.then_some(true),
        Err(fault) => (fault == PageFault::Refused(AllocError)).then_some(false),
    }
}

// Whether it is made in some room, and not before with less of it.
fn is_made_with_more(rt: &impl Abort, out: Global, wanted: Wanted) -> bool {
    for step in 0..BYTES / STEP {
        let made = is_whole(rt, out, wanted, step.saturating_mul(STEP));
        if made != Some(false) {
            return step > 0 && made == Some(true);
        }
    }
    false
}

#[test]
fn refused_levels_are_made_with_more(rt: HostRuntime) {
    for wanted in WITH_MORE {
        assert!(rt; is_made_with_more(&rt, rt.alloc(), *wanted));
    }
}
