//! Help texts: what is drafted of them, and how their names are compared with those of a description.
use crate::programs::{answers, ends_with, refuses_until_ample};
use crate::stand_ins::desk::Desk;
use crate::stand_ins::folder::Folder;
use crate::stand_ins::runs::Ends;
use crate::stand_ins::scripts::Script;
use std::alloc::Global;

/// What a program prints for help.
const PRINTED: &[u8] =
    b"Usage: app [OPTION]... FILE\nPrints files.\n\nOptions:\n  -n, --number=NUM  print so many\n      --old         as before\n";

/// A description of it that does not agree.
const DESCRIPTION: &[u8] = b"name = 'app'
[[option]]
short = 'n'
long = 'number'
value = 'NUM'
[[option]]
long = 'new'
[[option]]
long = 'secret'
hidden = true
[[command]]
name = 'go'
[[command.option]]
long = 'old'
[[command.option]]
long = 'number'
[[command.option]]
short = 'n'
";

// Words, the file that they name, its bytes, standard input, the status, the lines, and the one on standard error.
type Comparison = (
    &'static str,
    &'static str,
    &'static [u8],
    &'static [u8],
    u8,
    &'static [u8],
    &'static str,
);

const NO_NAMES: &str =
    "clidoc: no options or commands were found in HELP; if the program prints its help on standard error, add 2>&1";

const COMPARISONS: &[Comparison] = &[
    (
        "clidoc|against|-|my.toml",
        "my.toml",
        DESCRIPTION,
        PRINTED,
        1,
        b"option --new: in my.toml, not in standard input
option --old: in standard input, not in my.toml
command go: in my.toml, not in standard input
",
        "",
    ),
    (
        "clidoc|against|my.txt",
        "my.txt",
        PRINTED,
        DESCRIPTION,
        1,
        b"option --new: in standard input, not in my.txt
option --old: in my.txt, not in standard input
command go: in standard input, not in my.txt
",
        "",
    ),
    (
        "clidoc|against|--command=go|my.txt|-",
        "my.txt",
        PRINTED,
        DESCRIPTION,
        0,
        b"",
        "",
    ),
    // No name on either side, and none in the help text alone.
    (
        "clidoc|against|my.txt",
        "my.txt",
        b"\x1b[1mNothing\x1b[0m to be said.",
        b"name = 'app'\n[[option]]\nlong = 'secret'\nhidden = true\n",
        0,
        b"",
        "",
    ),
    (
        "clidoc|against|my.txt",
        "my.txt",
        b"Error: no terminal\n",
        DESCRIPTION,
        1,
        b"option --new: in standard input, not in my.txt
option --number: in standard input, not in my.txt
option -n: in standard input, not in my.txt
command go: in standard input, not in my.txt
",
        NO_NAMES,
    ),
    (
        "clidoc|against|-|my.toml|--command=go",
        "my.toml",
        DESCRIPTION,
        b"",
        1,
        b"option --number: in my.toml, not in standard input
option --old: in my.toml, not in standard input
option -n: in my.toml, not in standard input
",
        NO_NAMES,
    ),
];

fn is_compared(global: Global, row: &Comparison) -> bool {
    let &(words, name, bytes, input, status, lines, line) = row;
    let calls: &[&str] = match name {
        "my.txt" => &["open my.txt"],
        _ => &["open my.toml"],
    };
    let folder = Folder::new(calls).with_file(name, bytes);
    let desk = Desk::new(global, words, Ends::new(input, lines), line).with_folder(&folder);
    ends_with(global, &desk, status, lines.len(), !line.is_empty())
}

#[test]
fn names_of_a_help_text_are_compared(rt: HostRuntime) {
    for row in COMPARISONS {
        assert!(rt; is_compared(rt.alloc(), row), "{}", row.0);
    }
}

// The same, where something is reported to be wrong.
const WRONG: &[(&str, &[u8], &[u8], &str)] = &[
    (
        "clidoc|against|my.txt",
        b"--a\xff",
        DESCRIPTION,
        "my.txt:1:4: the text is not UTF-8",
    ),
    (
        "clidoc|against|my.txt",
        PRINTED,
        b"{\"name\": \"app\"",
        "-:1:1: { is not closed",
    ),
    (
        "clidoc|against|my.txt",
        PRINTED,
        b"name = 1",
        "-:1:1: name is no text",
    ),
    (
        "clidoc|against|my.txt",
        DESCRIPTION,
        b"name = 1",
        "-:1:1: name is no text
clidoc: HELP looks like a description; HELP comes first: against HELP FILE",
    ),
    (
        "clidoc|against|my.txt",
        b"name='app'",
        b"name = 1",
        "-:1:1: name is no text
clidoc: HELP looks like a description; HELP comes first: against HELP FILE",
    ),
    (
        "clidoc|against|my.txt",
        PRINTED,
        b"",
        "-: the input is empty",
    ),
    (
        "clidoc|against|my.txt|--command=to",
        PRINTED,
        DESCRIPTION,
        "clidoc: no command to in app; its command is go",
    ),
];

fn is_wrong(global: Global, row: &(&str, &'static [u8], &[u8], &str)) -> bool {
    let &(words, bytes, input, line) = row;
    let folder = Folder::new(&["open my.txt"]).with_file("my.txt", bytes);
    let desk = Desk::new(global, words, Ends::new(input, b""), line).with_folder(&folder);
    ends_with(global, &desk, 1, 0, true)
}

#[test]
fn a_comparison_says_which_text_is_at_fault(rt: HostRuntime) {
    for row in WRONG {
        assert!(rt; is_wrong(rt.alloc(), row), "{}", row.3);
    }
}

/// The draft of `PRINTED`.
const DRAFT: &[u8] = b"name = \"app\"
about = \"Prints files.\"
usage = \"app [OPTION]... FILE\"

# Options:

[[option]]
short = \"n\"
long = \"number\"
value = \"NUM\"
help = \"print so many\"

[[option]]
long = \"old\"
help = \"as before\"
";

// Words, standard input, the status, what is written, and the line.
type Drafting = (&'static str, &'static [u8], u8, &'static [u8], &'static str);

const DRAFTS: &[Drafting] = &[
    ("clidoc|draft", PRINTED, 0, DRAFT, ""),
    (
        "clidoc|draft|--name|my|-",
        b"\x1b[1m  -v\x1b[0m  Talk more\n",
        0,
        b"name = \"my\"\n\n[[option]]\nshort = \"v\"\nhelp = \"Talk more\"\n",
        "",
    ),
    (
        "clidoc|draft",
        b"  -v  Talk more\n",
        1,
        b"",
        "-: no usage line names the program; give the name with --name NAME",
    ),
    (
        "clidoc|draft|--name|-x",
        PRINTED,
        1,
        b"",
        "clidoc: -x may not be the name of a program",
    ),
    (
        "clidoc|draft",
        b"Usage: app\n\xff",
        1,
        b"",
        "-:2:1: the text is not UTF-8",
    ),
];

#[test]
fn a_help_text_is_drafted(rt: HostRuntime) {
    for &(words, input, status, page, line) in DRAFTS {
        assert!(rt;
            answers(rt.alloc(), words, input, status, (page, line)),
            "{words}"
        );
    }
}

#[test]
fn a_refused_growth_makes_no_draft(rt: HostRuntime) {
    let ends = Ends::new(PRINTED, DRAFT);
    assert!(rt; refuses_until_ample(rt.alloc(), "clidoc|draft", ends, "clidoc: no memory"));
}

#[test]
fn a_failed_end_makes_no_draft(rt: HostRuntime) {
    let reading = Ends::new(PRINTED, b"").reading(Script::failing(0));
    let desk = Desk::new(rt.alloc(), "clidoc|draft", reading, "clidoc: read failed");
    assert!(rt; ends_with(rt.alloc(), &desk, 1, 0, true));
    let writing = Ends::new(PRINTED, DRAFT).writing(Script::failing(0));
    let desk = Desk::new(rt.alloc(), "clidoc|draft", writing, "clidoc: write failed");
    assert!(rt; ends_with(rt.alloc(), &desk, 1, 0, true));
}
