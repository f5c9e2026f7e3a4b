//! Each growth refused in turn. Each refusal leaves what was lent as it was, and the answer at the end is that of ample
//! memory.
use crate::forms::Form;
use crate::reading::{Row, is_read_with_more};
use description::{Choice, Command, Description, Group, Level, Opt, Positional, Topic};
use linked_list_allocator::LocalHeap;
use std::alloc::{AllocError, Global};
use std::process::Abort;

const TABLES: &[Row<'static>] = &[
    // A description with a table of each kind.
    (
        "name = 'app'\ndate = 2026-11-23\n[[help_option]]\nshort = 'h'\n[[option]]\nlong = 'output'\nvalue = 'FILE'\nenv = 'OUT'\n[[option]]\nsyntax = '-s, --[no-]save[=(A|B)]'\nenv = 'SAVE'\n[[choice]]\n[[choice.option]]\nshort = 'a'\n[[choice.option]]\nshort = 'b'\n[[group]]\ntitle = 'More'\n[[group.option]]\nshort = 'm'\nvalue = 'M'\nvalues = ['a', 'b']\nrepeated = true\n[[positional]]\nvalue = 'INPUT'\ndefault = 7\n[[command]]\nname = 'run'\naliases = ['go']\n[[command.option]]\nshort = 'n'\n[[command.topic]]\ntitle = 'Files'\ntext = 'None'\n",
        Form::Read,
        "read",
    ),
    // No description.
    (
        "name = 'app'\n[[command]]\nname = 'run'\n[[command.option]]\nshort = 'n'\n[[command.option]]\nlong = 'x y'\n",
        Form::Read,
        "command 1 (run), option 2 (--x y): long holds a blank",
    ),
    // None, since a fixed word is not a title.
    (
        "name = 'app'\n[words]\nnotes = 'Remarks '\n",
        Form::Read,
        "words: notes ends with a blank",
    ),
    // None, since a name of a syntax stands twice.
    (
        "name = 'app'\n[[option]]\nsyntax = '-o, --[no-]x'\n[[option]]\nlong = 'x'\n",
        Form::Read,
        "option 2 (--x): --x is an option already",
    ),
    // None either, since a key is not known, and the known one is near.
    (
        "name = 'app'\n[[option]]\nlnog = 'x'\n",
        Form::Read,
        "option 1: no key lnog is known here; is it long?\noption 1: short, long or syntax is missing",
    ),
    // None either, since tables of each kind have faults, which are all reported.
    (
        "section = 10\n[words]\nusage = 1\n[[help_option]]\n[[choice]]\n[[group]]\n[[group.option]]\n[[positional]]\n[[command]]\nname = 'x'\nshort = 'y'\n[[command.topic]]\n[[command]]\nname = 'x'\naliases = ['y']\n",
        Form::Read,
        "name is missing\nsection is no number from 0 to 9\ncommand 2 (x): x is a command already\ncommand 2 (x): y is a name of a command already\nwords: usage is no text\nhelp_option 1: short, long or syntax is missing\nchoice 1: option is missing\ngroup 1: title is missing\ngroup 1, option 1: short, long or syntax is missing\npositional 1: value is missing\ncommand 1 (x), topic 1: title is missing\ncommand 1 (x), topic 1: text is missing",
    ),
];

#[test]
fn a_refused_table_is_read_with_more(rt: HostRuntime) {
    for row in TABLES {
        assert!(rt; is_read_with_more(&rt, rt.alloc(), row), "{}", row.2);
    }
}

/// What is put into a level, a group, or the one list of a choice, a description or a command.
#[derive(Clone, Copy)]
enum Part {
    Option,
    Choice,
    Group,
    Positional,
    Command,
    Topic,
    OptionOfGroup,
    ChoiceOfGroup,
    PositionalOfGroup,
    CommandOfGroup,
    OptionOfChoice,
    HelpOption,
    OtherName,
}

// What parts are put into.
#[derive(Drop)]
struct Lent<'a> {
    level: Level<'a, &'a LocalHeap>,
    group: Group<'a, &'a LocalHeap>,
    choice: Choice<'a, &'a LocalHeap>,
    app: Description<'a, &'a LocalHeap>,
    command: Command<'a, &'a LocalHeap>,
}

fn make_lent<'a>(heap: &'a LocalHeap) -> Lent<'a> {
    Lent {
        level: Level::new(heap),
        group: Group::new(heap, "T"),
        choice: Choice::new(heap),
        app: Description::new(heap, "app", Level::new(heap)),
        command: Command::new("x", Level::new(heap)),
    }
}

fn put<'a>(heap: &'a LocalHeap, lent: &mut Lent<'a>, part: Part) -> Result<(), AllocError> {
    match part {
        Part::Option => lent.level.option(Opt::short('a')),
        Part::Choice => lent.level.choice(Choice::new(heap)),
        Part::Group => lent.level.group(Group::new(heap, "T")),
        Part::Positional => lent.level.positional(Positional::new("P")),
        Part::Command => lent.level.command(Command::new("x", Level::new(heap))),
        Part::Topic => lent.level.topic(Topic::new("T", "t")),
        Part::OptionOfGroup => lent.group.option(Opt::short('a')),
        Part::ChoiceOfGroup => lent.group.choice(Choice::new(heap)),
        Part::PositionalOfGroup => lent.group.positional(Positional::new("P")),
        Part::CommandOfGroup => lent.group.command(Command::new("x", Level::new(heap))),
        Part::OptionOfChoice => lent.choice.option(Opt::short('a')),
        Part::HelpOption => lent.app.help_option(Opt::short('h')),
        Part::OtherName => lent.command.alias("y"),
    }
}

fn shown(rt: &impl Abort, out: Global, lent: &Lent<'_>) -> String {
    let text = format!(in out;
        "{:?} {:?} {:?} {:?} {:?}",
        lent.level, lent.group, lent.choice, lent.app, lent.command
    );
    text.expect(rt, "a text")
}

// Whether two texts are the same.
fn are_same(one: String, other: String) -> bool {
    let are_same = one.as_str() == other.as_str();
    drop(other);
    drop(one);
    are_same
}

// Whether the part stands there afterwards. None where it does not, and what was lent is not as it was.
fn is_put(rt: &impl Abort, out: Global, heap: &LocalHeap, part: Part) -> Option<bool> {
    let mut lent = make_lent(heap);
    let before = shown(rt, out, &lent);
    let is_put = put(heap, &mut lent, part).is_ok();
    let after = shown(rt, out, &lent);
    drop(lent);
    (are_same(before, after) != is_put).then_some(is_put)
}

fn put_on(rt: &impl Abort, out: Global, budget: usize, part: Part) -> Option<bool> {
    let heap = LocalHeap::new(out, budget).expect(rt, "a heap");
    let is_put = is_put(rt, out, &heap, part);
    drop(heap);
    is_put
}

// How many bytes are ample for a part.
const AMPLE: usize = 65536;

fn takes_room(rt: &impl Abort, out: Global, part: Part) -> bool {
    put_on(rt, out, 0, part) == Some(false) && put_on(rt, out, AMPLE, part) == Some(true)
}

const PARTS: &[(Part, &str)] = &[
    (Part::Option, "option"),
    (Part::Choice, "choice"),
    (Part::Group, "group"),
    (Part::Positional, "positional value"),
    (Part::Command, "command"),
    (Part::Topic, "topic"),
    (Part::OptionOfGroup, "option of a group"),
    (Part::ChoiceOfGroup, "choice of a group"),
    (Part::PositionalOfGroup, "positional value of a group"),
    (Part::CommandOfGroup, "command of a group"),
    (Part::OptionOfChoice, "option of a choice"),
    (Part::HelpOption, "help option"),
    (Part::OtherName, "other name"),
];

#[test]
fn a_refused_part_leaves_what_it_is_put_into(rt: HostRuntime) {
    for &(part, name) in PARTS {
        assert!(rt; takes_room(&rt, rt.alloc(), part), "{name}");
    }
}
