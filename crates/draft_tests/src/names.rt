//! The names of a help text, those of a level, and which of them only one side has.
use bumpalo::Bump;
use description::{Level, Opt};
use help_differences::{
    HelpText, Kind, Name, Side, difference_text, differences, has_no_name, names_of_help,
    names_of_level,
};
use std::alloc::{AllocError, Allocator, Global};
use std::process::Abort;

const HELP: [&str; 22] = [
    "usage: prog [-h] [--foo FOO]",
    "            [--far]",
    "",
    "Commands:",
    "  go (g)   start",
    "  end (halt, stop)  it",
    "  put      store [a] [aliases: add,  -x, store ]",
    "  get      fetch [aliases: take,",
    "           have]",
    "  see      show",
    "           it",
    "           [aliases: look] or [aliases: a b, gaze]",
    "",
    "options:",
    "  -h, --help  -x is none",
    "  --[no-]edit",
    "  -amin N -anewer FILE",
    "              help",
    "",
    "It is:",
    "--format=gnu -b20",
    "--far=/a",
];

const NAMES: [(Kind, &str); 21] = [
    (Kind::Option, "-h"),
    (Kind::Option, "--foo"),
    (Kind::Option, "--far"),
    (Kind::Command, "go"),
    (Kind::Command, "g"),
    (Kind::Command, "end"),
    (Kind::Command, "halt"),
    (Kind::Command, "stop"),
    (Kind::Command, "put"),
    (Kind::Command, "add"),
    (Kind::Command, "store"),
    (Kind::Command, "get"),
    (Kind::Command, "see"),
    (Kind::Command, "look"),
    (Kind::Command, "gaze"),
    (Kind::Option, "-h"),
    (Kind::Option, "--help"),
    (Kind::Option, "--edit"),
    (Kind::Option, "--no-edit"),
    (Kind::Option, "-amin"),
    (Kind::Option, "-anewer"),
];

fn are_names(found: &[Name<'_>], wanted: &[(Kind, &str)]) -> bool {
    if found.len() != wanted.len() {
        return false;
    }
    for (name, row) in found.iter().zip(wanted) {
        if name.kind != row.0 || name.text != row.1 {
            return false;
        }
    }
    true
}

#[test]
fn names_of_help_are_read(rt: HostRuntime) {
    let arena = Bump::new(rt.alloc());
    assert!(rt; are_read(&arena).expect(&rt, "names"));
}

const DESCRIBED: [(Kind, &str); 4] = [
    (Kind::Command, "g"),
    (Kind::Option, "--help"),
    (Kind::Option, "-h"),
    (Kind::Option, "-y"),
];

const ALONE: [(Kind, &str, Side); 18] = [
    (Kind::Option, "--edit", Side::Help),
    (Kind::Option, "--far", Side::Help),
    (Kind::Option, "--foo", Side::Help),
    (Kind::Option, "--no-edit", Side::Help),
    (Kind::Option, "-amin", Side::Help),
    (Kind::Option, "-anewer", Side::Help),
    (Kind::Option, "-y", Side::Description),
    (Kind::Command, "add", Side::Help),
    (Kind::Command, "end", Side::Help),
    (Kind::Command, "gaze", Side::Help),
    (Kind::Command, "get", Side::Help),
    (Kind::Command, "go", Side::Help),
    (Kind::Command, "halt", Side::Help),
    (Kind::Command, "look", Side::Help),
    (Kind::Command, "put", Side::Help),
    (Kind::Command, "see", Side::Help),
    (Kind::Command, "stop", Side::Help),
    (Kind::Command, "store", Side::Help),
];

fn names_from<A: Allocator>(
    alloc: A,
    rows: &[(Kind, &'static str)],
) -> Result<Vec<Name<'static>, A>, AllocError> {
    let mut names = Vec::new(alloc);
    for (kind, text) in rows {
        names.push(Name { kind: *kind, text })?;
    }
    Ok(names)
}

// Whether the differences of both lists are those.
fn are_alone<A: Allocator + Copy>(alloc: A) -> Result<bool, AllocError> {
    let described = names_from(alloc, &DESCRIBED)?;
    let help = names_from(alloc, &NAMES)?;
    let found = differences(alloc, &described, &help)?;
    if found.len() != ALONE.len() {
        return Ok(false);
    }
    for (one, row) in found.iter().zip(&ALONE) {
        if one.name.kind != row.0 || one.name.text != row.1 || one.stands != row.2 {
            return Ok(false);
        }
    }
    Ok(true)
}

#[test]
fn names_that_stand_alone_are_found(rt: HostRuntime) {
    assert!(rt; are_alone(rt.alloc()).expect(&rt, "differences"));
}

// Whether the names of a help text are read in this arena.
fn are_read(arena: &Bump) -> Result<bool, AllocError> {
    Ok(are_names(&names_of_help(arena, &HELP)?, &NAMES))
}

const LEVEL: [(Kind, &str); 5] = [
    (Kind::Option, "-h"),
    (Kind::Option, "--help"),
    (Kind::Option, "--edit"),
    (Kind::Option, "--no-edit"),
    (Kind::Option, "--far"),
];

fn level(rt: &impl Abort, out: Global) -> Level<'static> {
    let mut level = Level::new(out);
    level
        .option(Opt::syntax("--[no-]edit"))
        .expect(rt, "an option");
    level.option(Opt::long("far")).expect(rt, "an option");
    level
        .option(Opt::long("secret").hidden())
        .expect(rt, "an option");
    level
}

// Whether the names of a level are made in this arena.
fn are_described(rt: &impl Abort, out: Global, arena: &Bump) -> Result<bool, AllocError> {
    let level = level(rt, out);
    let help = [Opt::flag('h', "help")];
    Ok(are_names(&names_of_level(arena, &level, &help)?, &LEVEL))
}

const PRINTED: HelpText<'static> = HelpText {
    printed: "Usage: app [--far]\n\nOptions:\n  \u{1b}[1m-h\u{1b}[0m\n      --near  Help\n\nCommands:\n  go  Help\n",
    help_name: "help.txt",
    description_name: "app.toml",
};

const LINES: &str = "option --edit: in app.toml, not in help.txt
option --help: in app.toml, not in help.txt
option --near: in help.txt, not in app.toml
option --no-edit: in app.toml, not in help.txt
command go: in help.txt, not in app.toml
";

// Whether the lines of the differences between a help text and a level are made in this arena.
fn are_lines(rt: &impl Abort, out: Global, arena: &Bump) -> Result<bool, AllocError> {
    let level = level(rt, out);
    let help = [Opt::flag('h', "help")];
    let text = difference_text(arena, arena, PRINTED, &help, &level)?;
    Ok(text.as_str() == LINES)
}

// Help texts that have all names of the level.
const ALIKE: [&str; 2] = [
    "Options:\n  -h, --help\n  --far\n  --edit, --no-edit  Help\n",
    "Options:\n  -h, --help\n  --far\n  --[no-]edit  Help\n",
];

// Whether the level and a help text have the same names.
fn is_alike(
    rt: &impl Abort,
    out: Global,
    arena: &Bump,
    printed: &'static str,
) -> Result<bool, AllocError> {
    let level = level(rt, out);
    let help = [Opt::flag('h', "help")];
    let text = HelpText {
        printed,
        help_name: "help.txt",
        description_name: "app.toml",
    };
    Ok(
        difference_text(arena, arena, text, &help, &level)?
            .as_str()
            .is_empty(),
    )
}

#[test]
fn both_forms_of_a_negation_are_alike(rt: HostRuntime) {
    let arena = Bump::new(rt.alloc());
    for printed in ALIKE {
        assert!(rt; is_alike(&rt, rt.alloc(), &arena, printed).expect(&rt, "lines"));
    }
}

#[test]
fn lines_say_where_a_name_stands(rt: HostRuntime) {
    let arena = Bump::new(rt.alloc());
    assert!(rt; are_lines(&rt, rt.alloc(), &arena).expect(&rt, "lines"));
}

// Whether a help text without a name and one with some give different answers in this arena.
fn are_told_apart(arena: &Bump) -> Result<bool, AllocError> {
    let has_none = has_no_name(arena, "Error: \u{1b}[1mno\u{1b}[0m terminal\n")?;
    Ok(has_none && !has_no_name(arena, PRINTED.printed)?)
}

#[derive(Clone, Copy)]
enum Call {
    Help,
    Level,
    Differences,
    Lines,
    NoName,
}

// How many bytes an arena has: more than any call here takes.
const BYTES: usize = 8192;

// Whether it is there in that much room. None where a growth is refused.
fn is_made_in(rt: &impl Abort, out: Global, call: Call, room: usize) -> Option<bool> {
    let arena = Bump::try_with_capacity(out, BYTES).expect(rt, "an arena");
    arena.set_allocation_limit(Some(0));
    let taken = arena.chunk_capacity().saturating_sub(room);
    let _rest: Vec<u8, &Bump> = Vec::with_capacity(&arena, taken).expect(
        rt,
        "the rest of an arena",
    );
    match call {
        Call::Help => are_read(&arena).ok(),
        Call::Level => are_described(rt, out, &arena).ok(),
        Call::Differences => are_alone(&arena).ok(),
        Call::Lines => are_lines(rt, out, &arena).ok(),
        Call::NoName => are_told_apart(&arena).ok(),
    }
}

// Whether it is there in some room, and not before with less of it.
fn is_made_with_more(rt: &impl Abort, out: Global, call: Call) -> bool {
    for room in 0..BYTES {
        if let Some(is_that) = is_made_in(rt, out, call, room) {
            return is_that && room > 0;
        }
    }
    false
}

#[test]
fn names_are_made_with_more_room(rt: HostRuntime) {
    for call in [
        Call::Help,
        Call::Level,
        Call::Differences,
        Call::Lines,
        Call::NoName,
    ] {
        assert!(rt; is_made_with_more(&rt, rt.alloc(), call));
    }
}
