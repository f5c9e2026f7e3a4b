//! What the front of a line says: each row is a line, and what is read of it.
use bumpalo::Bump;
use help_fronts::{
    CommandFront, OptionFront, UsageOption, command_front, option_front, usage_options,
};
use std::alloc::{AllocError, Allocator, Global};
use std::process::Abort;

// A line; its names with a blank between two, its value and whether that is optional, the gap, and the help.
const OPTIONS: [(&str, &str, &str, bool, &str, &str); 34] = [
    (
        "  -t,  --tries=NUMBER   set it",
        "-t --tries",
        "NUMBER",
        false,
        "   ",
        "set it",
    ),
    (
        "--data-binary <data> HTTP POST data",
        "--data-binary",
        "data",
        false,
        " ",
        "HTTP POST data",
    ),
    (
        "--help, -h (*)  show it",
        "--help -h",
        "",
        false,
        " ",
        "(*)  show it",
    ),
    (
        "-f FILE ..., --file N[bcw] ...  read",
        "-f --file",
        "N[bcw]",
        false,
        "  ",
        "read",
    ),
    (
        "-j[N], --jobs[=N]  so many",
        "-j --jobs",
        "N",
        true,
        "  ",
        "so many",
    ),
    (
        "  -o, --output=FILE   write it",
        "-o --output",
        "FILE",
        false,
        "   ",
        "write it",
    ),
    (
        "-f FILE, --file FILE  x",
        "-f --file",
        "FILE",
        false,
        "  ",
        "x",
    ),
    (
        "--verbose, -v         more",
        "--verbose -v",
        "",
        false,
        "         ",
        "more",
    ),
    (
        "--alt-svc <file name> Use it",
        "--alt-svc",
        "file name",
        false,
        " ",
        "Use it",
    ),
    (
        "-c cmd : program text",
        "-c",
        "cmd",
        false,
        " : ",
        "program text",
    ),
    (
        "-E     : ignore names",
        "-E",
        "",
        false,
        "     : ",
        "ignore names",
    ),
    (
        "--pycs always|never:",
        "--pycs",
        "always|never",
        false,
        "",
        "",
    ),
    (
        "-0 ... -9           preset",
        "-0 -9",
        "",
        false,
        "           ",
        "preset",
    ),
    (
        "--color[=WHEN]\tcolours",
        "--color",
        "WHEN",
        true,
        "\t",
        "colours",
    ),
    (
        "-j [N], --jobs[=N]   jobs",
        "-j --jobs",
        "N",
        true,
        "   ",
        "jobs",
    ),
    ("--level {go,stop}", "--level", "go,stop", false, "", ""),
    ("-Wl,<options>  x", "-Wl", "options", false, "  ", "x"),
    ("-std=<standard>  x", "-std", "standard", false, "  ", "x"),
    ("--bytes=[-]NUM  x", "--bytes", "[-]NUM", false, "  ", "x"),
    (
        "-v, --verbose...  more",
        "-v --verbose",
        "",
        false,
        "  ",
        "more",
    ),
    (
        "--config string   a file",
        "--config",
        "string",
        false,
        "   ",
        "a file",
    ),
    ("--keys k [k ...]  some", "--keys", "k", false, "  ", "some"),
    ("--set A B  two", "--set", "A", false, "  ", "two"),
    (
        "-h --help     this",
        "-h --help",
        "",
        false,
        "     ",
        "this",
    ),
    ("-i|--install  x", "-i --install", "", false, "  ", "x"),
    ("-v | --version  x", "-v --version", "", false, "  ", "x"),
    ("-a,--all  x", "-a --all", "", false, "  ", "x"),
    (
        "-q, --[no-]quiet  x",
        "-q --[no-]quiet",
        "",
        false,
        "  ",
        "x",
    ),
    ("-#, --bar  x", "-# --bar", "", false, "  ", "x"),
    ("-:, --next  x", "-: --next", "", false, "  ", "x"),
    (
        "-mount -noleaf -xdev",
        "-mount",
        "",
        false,
        " ",
        "-noleaf -xdev",
    ),
    (
        "--name PATTERN -newer FILE",
        "--name",
        "PATTERN",
        false,
        " ",
        "-newer FILE",
    ),
    ("--foo: does foo", "--foo", "", false, " ", "does foo"),
    (
        "-é, --größe=MASS  é",
        "-é --größe",
        "MASS",
        false,
        "  ",
        "é",
    ),
];

const NO_OPTIONS: [&str; 11] = [
    "", " ", "text", "-", "--", "---", "- item", "-- text", "->", "-'s", "a -b",
];

fn is_option(rt: &impl Abort, out: Global, row: (&str, &str, &str, bool, &str, &str)) -> bool {
    let (line, names, value, is_optional, gap, help) = row;
    match option_front(out, line).expect(rt, "an option") {
        None => false,
        Some(front) => {
            front.names.iter().copied().eq(names.split(' '))
                && front.value.unwrap_or("") == value
                && front.is_optional == is_optional
                && front.gap == gap
                && front.help == help
        }
    }
}

#[test]
fn options_are_read(rt: HostRuntime) {
    for row in OPTIONS {
        assert!(rt; is_option(&rt, rt.alloc(), row));
    }
}

#[test]
fn other_lines_have_no_options(rt: HostRuntime) {
    for line in NO_OPTIONS {
        assert!(rt;
            option_front(rt.alloc(), line)
                .expect(&rt, "no option")
                .is_none()
        );
    }
}

// A line; the name of the command, its other names with a blank after each, and the help.
const COMMANDS: [(&str, &str, &str, &str); 18] = [
    (
        "    clone    Clone a repository",
        "clone",
        "",
        "Clone a repository",
    ),
    ("  build, b   Compile it", "build", "b ", "Compile it"),
    ("  go (g)     run", "go", "g ", "run"),
    ("  run (default)  it", "run", "", "it"),
    (
        "    send (put)          Send a file",
        "send",
        "put ",
        "Send a file",
    ),
    (
        "  stop (halt,end, x-2)    Stop it",
        "stop",
        "halt end x-2 ",
        "Stop it",
    ),
    ("  stop (halt, end)", "stop", "halt end ", ""),
    ("  stop (halt, End)  it", "stop", "", "it"),
    ("  stop (halt,  end)  it", "stop", "", "it"),
    ("  stop (halt, end,)  it", "stop", "", "it"),
    ("  stop (to halt)  it", "stop", "", "it"),
    ("  stop (halt) NAME  it", "stop", "", "it"),
    ("  stop (deprecated)  it", "stop", "", "it"),
    ("list - list packages", "list", "", "list packages"),
    ("auth:  Log in", "auth", "", "Log in"),
    (
        "list-units [PATTERN...]   List units",
        "list-units",
        "",
        "List units",
    ),
    ("run NAME\tRun it", "run", "", "Run it"),
    ("stop", "stop", "", ""),
];

const NO_COMMANDS: [&str; 6] = [
    "",
    "-v  more",
    "two words",
    "<file>  x",
    "...  more",
    "add one  x",
];

fn is_command(rt: &impl Abort, out: Global, row: (&str, &str, &str, &str)) -> bool {
    let (line, name, aliases, help) = row;
    match command_front(out, line).expect(rt, "a command") {
        None => false,
        Some(front) => front.name == name
            && are_after(&front.aliases, aliases)
            && front.help == help,
    }
}

// Whether a text is some words with a blank after each.
fn are_after(words: &[&str], text: &str) -> bool {
    let mut rest = text;
    for word in words {
        match rest.split_once(' ') {
            Some((front, after)) if front == *word => rest = after,
            _ => return false,
        }
    }
    rest.is_empty()
}

#[test]
fn commands_are_read(rt: HostRuntime) {
    for row in COMMANDS {
        assert!(rt; is_command(&rt, rt.alloc(), row));
    }
}

#[test]
fn other_lines_have_no_commands(rt: HostRuntime) {
    for line in NO_COMMANDS {
        assert!(rt;
            command_front(rt.alloc(), line)
                .expect(&rt, "no command")
                .is_none()
        );
    }
}

// A line of a usage, and each option in it: its name, the byte before its value, and that value.
const USAGES: [(&str, &[(&str, u8, &str)]); 9] = [
    (
        "usage: ssh [-46Aa] [-B bind_interface] [-D [address:]port]",
        &[
            ("-46Aa", b' ', ""),
            ("-B", b' ', "bind_interface"),
            ("-D", b' ', "[address:]port"),
        ],
    ),
    (
        "git [-v | --version] [-C <path>] [-c <name>=<value>] [--exec-path[=<path>]] [--git-dir=<path>]",
        &[
            ("-v", b' ', ""),
            ("--version", b' ', ""),
            ("-C", b' ', "<path>"),
            ("-c", b' ', "<name>=<value>"),
            ("--exec-path", b'[', "[=<path>]"),
            ("--git-dir", b'=', "<path>"),
        ],
    ),
    (
        "prog [-h] [--foo FOO] file [file ...]",
        &[("-h", b' ', ""), ("--foo", b' ', "FOO")],
    ),
    (
        "[-p|--paginate|-P] '-x' {-a,-b}",
        &[
            ("-p", b' ', ""),
            ("--paginate", b' ', ""),
            ("-P", b' ', ""),
            ("-x", b' ', ""),
            ("-a", b' ', ""),
            ("-b", b' ', ""),
        ],
    ),
    ("prog a-b --", &[]),
    // a word in small letters is a value only where brackets or `|` end it
    (
        "a -o FILE -x file [-c cmd | -m mod] [-n one two] [--as=k|--by=<b>] -I<dir>",
        &[
            ("-o", b' ', "FILE"),
            ("-x", b' ', ""),
            ("-c", b' ', "cmd"),
            ("-m", b' ', "mod"),
            ("-n", b' ', ""),
            ("--as", b'=', "k"),
            ("--by", b'=', "<b>"),
            ("-I", b'<', "<dir>"),
        ],
    ),
    // an option is no value, also in brackets, and neither is what follows two blanks
    (
        "a [-b [-c]] -d  FILE [-e -f] -g",
        &[
            ("-b", b' ', ""),
            ("-c", b' ', ""),
            ("-d", b' ', ""),
            ("-e", b' ', ""),
            ("-f", b' ', ""),
            ("-g", b' ', ""),
        ],
    ),
    // an option of the program that runs a module
    (
        "usage: /bin/python3 -m pip [-m N] -m",
        &[("-m", b' ', "N"), ("-m", b' ', "")],
    ),
    // more bytes than a value may have, the last two of one character
    (
        "-a XXXXXXXXXXXXXXXXXXXXXXXXXXXXXXXXXXXXXXXXXXXXXXXXXXXXXXXXXXXXXXXXXXXXXXXXXXXXXXXXXXXXXXXXXXXXXXXXXXXXXXXXXXXXXXXXXXXXXXXXXXXXXXXXXXXXXXXXXXXXXXXXXXXXXXXXXXXXXXXXXXXXXXXXXXXXXXXXXXXXXXXXXXXXXXXXXXXXXXXXÄ -b",
        &[("-a", b' ', ""), ("-b", b' ', "")],
    ),
];

fn are_used(found: &[UsageOption<'_>], wanted: &[(&str, u8, &str)]) -> bool {
    if found.len() != wanted.len() {
        return false;
    }
    for (option, row) in found.iter().zip(wanted) {
        if option.name != row.0 || option.joint != row.1 || option.value != row.2 {
            return false;
        }
    }
    true
}

fn is_usage(rt: &impl Abort, out: Global, row: (&str, &[(&str, u8, &str)])) -> bool {
    let (line, options) = row;
    are_used(&usage_options(out, line).expect(rt, "options"), options)
}

#[test]
fn options_of_usages_are_read(rt: HostRuntime) {
    for row in USAGES {
        assert!(rt; is_usage(&rt, rt.alloc(), row));
    }
}

// How many bytes an arena has: more than any call here takes.
const BYTES: usize = 4096;

#[derive(Clone, Copy)]
enum Call {
    Option,
    Command,
    Listed,
    Usage,
}

impl Call {
    // Whether what is made is what is wanted.
    fn is_made<A: Allocator + Copy>(self, alloc: A) -> Result<bool, AllocError> {
        match self {
            Call::Option => Ok(has_option(option_front(alloc, "-a, -b, -c, -d, -e, -f X  help")?)),
            Call::Command => Ok(has_command(command_front(alloc, "a, b, c, d, e, f  help")?)),
            Call::Listed => Ok(has_command(command_front(alloc, "a (b, c, d, e, f)  help")?)),
            Call::Usage => Ok(usage_options(alloc, "[-a] [-b] [-c] [-d] [-e] [-f]")?.len() == 6),
        }
    }
}

fn has_option<A: Allocator>(front: Option<OptionFront<'_, A>>) -> bool {
    match front {
        None => false,
        Some(front) => front.names.len() == 6 && front.value == Some("X"),
    }
}

fn has_command<A: Allocator>(front: Option<CommandFront<'_, A>>) -> bool {
    match front {
        None => false,
        Some(front) => front.name == "a" && front.aliases.len() == 5,
    }
}

// Whether it is there in that much room. None where a growth is refused.
fn is_made_in(rt: &impl Abort, out: Global, call: Call, room: usize) -> Option<bool> {
    let arena = Bump::try_with_capacity(out, BYTES).expect(rt, "an arena");
    arena.set_allocation_limit(Some(0));
    let taken = arena.chunk_capacity().saturating_sub(room);
    let _rest: Vec<u8, &Bump> = Vec::with_capacity(&arena, taken).expect(
        rt,
        "the rest of an arena",
    );
    call.is_made(&arena).ok()
}

// Whether it is there in some room, and not before with less of it.
fn is_made_with_more(rt: &impl Abort, out: Global, call: Call) -> bool {
    for room in 0..BYTES {
        if let Some(is_that) = is_made_in(rt, out, call, room) {
            return is_that && room > 0;
        }
    }
    false
}

#[test]
fn fronts_are_made_with_more_room(rt: HostRuntime) {
    assert!(rt; is_made_with_more(&rt, rt.alloc(), Call::Option));
    assert!(rt; is_made_with_more(&rt, rt.alloc(), Call::Command));
    assert!(rt; is_made_with_more(&rt, rt.alloc(), Call::Listed));
    assert!(rt; is_made_with_more(&rt, rt.alloc(), Call::Usage));
}
