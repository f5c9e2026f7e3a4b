//! Whole runs of the programs: the status, and what stands on the streams.
use crate::clidoc::json::IN_JSON;
use crate::clidoc::pages::{HELP, INPUT};
use crate::helpdoc::pages::{self, PAGE, SAMPLE};
use crate::programs::{answers, ends_with, refuses_until_ample};
use crate::stand_ins::desk::Desk;
use crate::stand_ins::runs::Ends;
use crate::stand_ins::scripts::Script;
use std::alloc::Global;

// Wrong words with bars between them, and on the next line what says so. An empty line follows each row.
const WRONG: &str = "clidoc
clidoc FORM [--command NAME]... [--deep] [--width COLUMNS] [--fragment] [--date DATE]
       [--vendor TEXT] [FILE]
clidoc complete SHELL [FILE]
clidoc json [FILE]
clidoc all --into FOLDER [--date DATE] [--vendor TEXT] [FILE]
clidoc check [--strict] [FILE]
clidoc draft [--name NAME] [FILE]
clidoc against HELP [--command NAME]... [FILE]

clidoc|--width=3
clidoc: no form; forms are usage, full, brief, man, markdown, html, complete, json, check, all, draft and against

clidoc|--|full
clidoc: no form; forms are usage, full, brief, man, markdown, html, complete, json, check, all, draft and against

clidoc|
clidoc: no form ''; forms are usage, full, brief, man, markdown, html, complete, json, check, all, draft and against

clidoc|\u{1b}[2J
clidoc: no form \"\\u{1b}[2J\"; forms are usage, full, brief, man, markdown, html, complete, json, check, all, draft and against

clidoc|Full
clidoc: no form Full; is it full?

clidoc|against
clidoc: against needs what a program prints for help: against HELP [FILE]

clidoc|against|-
clidoc: HELP and FILE are both standard input

clidoc|draft|--command=add
clidoc: --command is no option of draft; it goes with usage, full, brief, man, markdown, html and against

clidoc|full|--name=a
clidoc: --name is no option of full; it goes with draft

clidoc|check|--name=a
clidoc: --name is no option of check; it goes with draft

clidoc|draft|--name=a|--name=b
clidoc: --name stands twice

clidoc|against|help.txt|--width=3
clidoc: --width is no option of against; it goes with usage, full and brief

clidoc|xml
clidoc: no form xml; forms are usage, full, brief, man, markdown, html, complete, json, check, all, draft and against

clidoc|a.toml|full
clidoc: no form a.toml; the form comes first: clidoc full a.toml

clidoc|a b.toml|--|man
clidoc: no form \"a b.toml\"; the form comes first: clidoc man \"a b.toml\"

clidoc|--command|full|a.toml
clidoc: no form a.toml; forms are usage, full, brief, man, markdown, html, complete, json, check, all, draft and against

clidoc|a.toml|b.toml
clidoc: no form a.toml; forms are usage, full, brief, man, markdown, html, complete, json, check, all, draft and against

clidoc|help
clidoc: no form help; is it --help?

clidoc|md|a.toml
clidoc: no form md; is it markdown?

clidoc|completion|a.toml
clidoc: no form completion; is it complete?

clidoc|full|a|b
clidoc: one word too many: b; if a is a command, write --command a

clidoc|full|a|--|b
clidoc: one word too many: b; if a is a command, write --command a

clidoc|full|--|a|b
clidoc: one word too many: b; if a is a command, write --command a

clidoc|man|remote add|a.toml
clidoc: one word too many: a.toml; if \"remote add\" is a command, write --command \"remote add\"

clidoc|html|a.toml|b
clidoc: one word too many: b

clidoc|usage|a/b|c
clidoc: one word too many: c

clidoc|brief|-|a
clidoc: one word too many: a

clidoc|check|a|b
clidoc: one word too many: b

clidoc|complete
clidoc: complete needs a shell; shells are bash, zsh and fish

clidoc|completion|bash|a.toml
clidoc: no form completion; is it complete?

clidoc|complete|a.toml
clidoc: no shell a.toml; shells are bash, zsh and fish

clidoc|complete|fish|a|b
clidoc: one word too many: b

clidoc|complete|--command=a|zsh
clidoc: --command is no option of complete; it goes with usage, full, brief, man, markdown, html and against

clidoc|json|--width=3
clidoc: --width is no option of json; it goes with usage, full and brief

clidoc|json|a.toml|b.toml
clidoc: one word too many: b.toml

clidoc|page
clidoc: no form page; forms are usage, full, brief, man, markdown, html, complete, json, check, all, draft and against

clidoc|--wdth|3|full
clidoc: no option --wdth; is it --width?

clidoc|full|--widht=80
clidoc: no option --widht=80; is it --width?

clidoc|full|-x
clidoc: no option -x; options are --command, --deep, --width, --fragment, --strict, --into, --date, --vendor, --name, --help and --version

clidoc|full|--width|0
clidoc: --width is a number of columns from 1 on, and not 0

clidoc|full|--width=+80
clidoc: --width is a number of columns from 1 on, and not +80

clidoc|--width=1|full|--width=2
clidoc: --width stands twice

clidoc|full|--command
clidoc: --command needs a value

clidoc|man|--width=3|--command=x
clidoc: --width is no option of man; it goes with usage, full and brief

clidoc|check|--command=x
clidoc: --command is no option of check; it goes with usage, full, brief, man, markdown, html and against

clidoc|html|--width=3
clidoc: --width is no option of html; it goes with usage, full and brief

clidoc|man|--fragment
clidoc: --fragment is no option of man; it goes with html

clidoc|--fragment|markdown|--deep
clidoc: --fragment is no option of markdown; it goes with html

clidoc|full|--fragment
clidoc: --fragment is no option of full; it goes with html

clidoc|check|--fragment
clidoc: --fragment is no option of check; it goes with html

clidoc|all|--into=a|--fragment
clidoc: --fragment is no option of all; it goes with html

clidoc|html|--fragment|--fragment
clidoc: --fragment stands twice

clidoc|html|--fragment=x
clidoc: no option --fragment=x; is it --fragment?

clidoc|full|--strict
clidoc: --strict is no option of full; it goes with check

clidoc|--strict|brief
clidoc: --strict is no option of brief; it goes with check

clidoc|man|--strict|--deep
clidoc: --strict is no option of man; it goes with check

clidoc|markdown|--strict
clidoc: --strict is no option of markdown; it goes with check

clidoc|html|--strict|--fragment
clidoc: --strict is no option of html; it goes with check

clidoc|all|--into=a|--strict
clidoc: --strict is no option of all; it goes with check

clidoc|page|--strict
clidoc: no form page; forms are usage, full, brief, man, markdown, html, complete, json, check, all, draft and against

clidoc|check|--strict|--strict
clidoc: --strict stands twice

clidoc|check|--strict=x
clidoc: no option --strict=x; is it --strict?

clidoc|html|--vendor=a|--vendor=b
clidoc: --vendor stands twice

clidoc|check|--width|3
clidoc: --width is no option of check; it goes with usage, full and brief

clidoc|full|--help
clidoc: other words stand beside --help

clidoc|--version|full
clidoc: other words stand beside --version

clidoc|-V|-h
clidoc: other words stand beside -V

clidoc|man|--deep|--deep
clidoc: --deep stands twice

clidoc|man|--deep=x
clidoc: no option --deep=x; is it --deep?

clidoc|full|--deep
clidoc: --deep is no option of full; it goes with man and markdown

clidoc|html|--deep|--date=x
clidoc: --deep is no option of html; it goes with man and markdown

clidoc|man|--date
clidoc: --date needs a value

clidoc|--vendor=a|man|--vendor|b
clidoc: --vendor stands twice

clidoc|markdown|--date=x
clidoc: --date is no option of markdown; it goes with man, html and all

clidoc|usage|--vendor=x
clidoc: --vendor is no option of usage; it goes with man, html and all

clidoc|check|--date|x
clidoc: --date is no option of check; it goes with man, html and all

clidoc|all
clidoc: all needs a folder: --into FOLDER

clidoc|--into=a|all|--into|b
clidoc: --into stands twice

clidoc|all|--into=a|--width=3
clidoc: --width is no option of all; it goes with usage, full and brief

clidoc|check|--into=a
clidoc: --into is no option of check; it goes with all

clidoc|--into=a|full
clidoc: --into is no option of full; it goes with all

clidoc|all|--into=a|--deep
clidoc: --deep is no option of all; it goes with man and markdown

clidoc|all|--into=a|--date|x|--date|y
clidoc: --date stands twice";

// Whether a run on wrong words says what is wrong.
fn is_wrong(global: Global, row: &str) -> bool {
    match row.split_once('\n') {
        Some((words, line)) => answers(global, words, INPUT, 2, (b"", line)),
        None => false,
    }
}

#[test]
fn wrong_words_have_a_status(rt: HostRuntime) {
    for row in WRONG.split("\n\n") {
        assert!(rt; is_wrong(rt.alloc(), row), "{row}");
    }
}

// A description with commands, whose lines end with carriage returns too.
const NESTED: &[u8] =
    b"name = 'app'\r\nabout = \"\"\"\r\nOne\r\n\r\nTwo\"\"\"\r\n[[command]]\r\nname = 'remote'\r\nshort = 'r'\r\n[[command.command]]\r\nname = 'add'\r\nabout = 'Adds one'\r\n";

// Words, on the next lines the page, and then a line of signs. After an empty page stands what is reported.
const RIGHT: &str = "clidoc|--width=100|full|-
One

Two

Usage: app COMMAND ...

Commands:
    remote, r

====

----
clidoc|brief
One

Usage: app COMMAND ...

Commands:
    remote, r

====

----
clidoc|usage|--width|12
app COMMAND
    ...

====

----
clidoc|usage|--width|18446744073709551615
app COMMAND ...

====

----
clidoc|usage|--command|remote
app remote COMMAND ...

====

----
clidoc|--command=r|--command|add|full
Adds one

Usage: app remote add

====

----
clidoc|json|-
{
  \"name\": \"app\",
  \"about\": \"One\\n\\nTwo\",
  \"command\": [
    {
      \"name\": \"remote\",
      \"short\": \"r\",
      \"command\": [
        {
          \"name\": \"add\",
          \"about\": \"Adds one\"
        }
      ]
    }
  ]
}

====

----
clidoc|man|--command=r|--command=add
.TH app-remote-add 1 \"\" \"\" \"\"
.SH NAME
app\\-remote\\-add \\- Adds one
.SH SYNOPSIS
.SY \"app remote add\"
.YS
.SH SEE ALSO
\\fB\\%app\\-remote\\fP(1)

====

----
clidoc|man|--deep
.TH app 1 \"\" \"\" \"\"
.SH NAME
app \\- One
.SH SYNOPSIS
.SY app
\\fICOMMAND\\fP\\~...\\&
.YS
.SH DESCRIPTION
One
.PP
Two
.SH COMMANDS
.TP
\\fBremote\\fP, \\fBr\\fP
.SH SEE ALSO
\\fB\\%app\\-remote\\fP(1)
.SH app remote
.SS SYNOPSIS
.SY \"app remote\"
\\fICOMMAND\\fP\\~...\\&
.YS
.SS COMMANDS
.TP
\\fBadd\\fP
.SH app remote add
.SS SYNOPSIS
.SY \"app remote add\"
.YS
.SS DESCRIPTION
Adds one

====

----
clidoc|--date|2026-11-28|--vendor=Tide works|man|--command=r|--command=add
.TH app-remote-add 1 2026-11-28 \"Tide works\" \"\"
.SH NAME
app\\-remote\\-add \\- Adds one
.SH SYNOPSIS
.SY \"app remote add\"
.YS
.SH SEE ALSO
\\fB\\%app\\-remote\\fP(1)

====

----
clidoc|markdown
# app

One

Two

```
app COMMAND ...
```

## Commands

- [`remote`](app-remote.md), `r`

## See also

[app-remote](app-remote.md)

====

----
clidoc|html|--fragment|--command=r
<header><h1>app remote</h1></header><nav><h2>Contents</h2><ul><li><a href=\"#app:remote\">remote</a><ul><li><a href=\"#app:remote:::Commands\">Commands</a></li><li><a href=\"#app:remote:add\">add</a></li></ul></li></ul></nav><main><section id=\"app:remote\"><h2>app remote</h2><h3>Usage</h3><pre>
<code><strong>app remote</strong></code> <code><var>COMMAND</var> ...</code></pre><h3 id=\"app:remote:::Commands\">Commands</h3><dl><dt><a href=\"#app:remote:add\"><code>add</code></a></dt><dd></dd></dl></section><section id=\"app:remote:add\"><h2>app remote add</h2><p>Adds one</p><h3>Usage</h3><pre>
<code><strong>app remote add</strong></code></pre></section></main>
====

----
clidoc|--vendor|Tide works|html|--fragment|--command=r|--command=add|--date=2026-11-28
<header><h1>app remote add</h1><p>Adds one</p></header><main><section id=\"app:remote:add\"><h3>Usage</h3><pre>
<code><strong>app remote add</strong></code></pre></section></main><footer><p>Tide works, 2026-11-28</p></footer>
====

----
clidoc|check|--strict

====
-:6:1: warning: neither help nor about says what the command does
----
clidoc|check|--strict|-

====
-:6:1: warning: neither help nor about says what the command does
----
clidoc|--help
Makes pages of the description of a command line.

Usage: clidoc FORM [--command NAME]... [--deep] [--width COLUMNS] [--fragment] [--date DATE]
              [--vendor TEXT] [FILE]
       clidoc complete SHELL [FILE]
       clidoc json [FILE]
       clidoc all --into FOLDER [--date DATE] [--vendor TEXT] [FILE]
       clidoc check [--strict] [FILE]
       clidoc draft [--name NAME] [FILE]
       clidoc against HELP [--command NAME]... [FILE]

The description is read from FILE, or else from standard input, in TOML or JSON, and the page is
written to standard output. The program that is described may be written in any language.

Arguments:
    FORM                 What is made of the description.

                         - usage: the usage alone.
                         - full: the help page.
                         - brief: the help page, with the first block of each text.
                         - man: a manual page.
                         - markdown: a page in markdown.
                         - html: an HTML page with all commands below.
                         - complete: a script that completes the words of the program in SHELL,
                           which is bash, zsh or fish.
                         - json: the description itself in JSON, without what is a default.
                         - check: no page, but the faults of the description, and warnings.
                         - all: the manual page and the page in markdown of each level, and the HTML
                           page, as files of --into.
                         - draft: a first description, of a help text in FILE.
                         - against: no page, but the names of options and commands that only the
                           description or HELP, a help text, has.

                         [possible values: usage, full, brief, man, markdown, html, complete, json,
                         check, all, draft, against]

    FILE                 The description, or for draft the help text; - is standard input

Options:
        --command=NAME   Show this command, by any of its names.

                         It is given once for each level down. It goes with usage, full, brief, man,
                         markdown, html and against.

        --deep           Show the levels below, too, one after another.

                         It goes with man and markdown.

        --width=COLUMNS  Write lines of at most this many columns.

                         The variable COLUMNS counts if it is a number from 20 on. It goes with
                         usage, full and brief.

                         [env: COLUMNS] [default: 100]

        --fragment       Write only what is inside <body>, to be put into another page.

                         It goes with html.

        --strict         Fail if there is a warning.

                         It goes with check.

        --into=FOLDER    Write all pages into this folder, which must exist.

                         It goes with all.

        --date=DATE      Put this date on manual and HTML pages, in place of that of the
                         description.

                         It goes with man, html and all.

        --vendor=TEXT    Put this vendor on manual and HTML pages, in place of that of the
                         description.

                         It goes with man, html and all.

        --name=NAME      The program's name in a draft, in place of that in its usage.

                         It goes with draft.

    -h, --help           Print this page
    -V, --version        Print the version

Environment:
    - CLIDOC_INPUT_MIB: how many MiB are read at most, 16 by default.
    - CLIDOC_OUTPUT_MIB: how many MiB are written at most, 256 by default.

Examples:
    On the terminal, of the description in greet.toml:

        clidoc usage greet.toml
        clidoc full --width=80 greet.toml
        clidoc brief greet.toml

    The manual page of a command, and one page in markdown of all levels:

        clidoc man --command=add --date=2026-11-28 depot.toml
        clidoc markdown --deep depot.toml

    A web page, and only what is inside its <body>:

        clidoc html greet.toml > greet.html
        clidoc html --fragment greet.toml

    Completions for bash, in a file that ~/.bashrc reads:

        clidoc complete bash greet.toml > greet.bash

    Faults and warnings, and all pages at once:

        clidoc check --strict greet.toml
        clidoc all --into=pages greet.toml

    A first description of a program that has none, and whether program and description still agree:

        greet --help | clidoc draft > greet.toml
        greet --help | clidoc against - greet.toml

Notes:
    The status is 0 if all is done, 2 if the words are wrong, and 1 if anything else is, as a line
    on standard error says, or if against found a difference.

    The description of a program that greets people:

        name = \"greet\"
        about = \"Greets people.\"
        [[option]]
        short = \"l\"
        long = \"loud\"
        help = \"In capital letters\"
        [[positional]]
        value = \"NAME\"
        help = \"Whom to greet\"

====

----
clidoc|--version
clidoc 1.0.0

====

----
clidoc|-V
clidoc 1.0.0

====

----
clidoc|usage|--command=r|--command=push

====
clidoc: no command push in app remote; its command is add
----
clidoc|usage|--command=r|--command=add|--command=x

====
clidoc: no command x in app remote add; it has no commands
----
clidoc|usage|--command=remote add

====
clidoc: no command \"remote add\" in app; write --command once for each level
----
clidoc|usage|--command| r  add 

====
clidoc: no command \" r  add \" in app; write --command once for each level
----
clidoc|usage|--command=remote push

====
clidoc: no command \"remote push\" in app; its command is remote
----
clidoc|usage|--command=remote 

====
clidoc: no command \"remote \" in app; is it remote?
----
clidoc|man|--command=remtoe

====
clidoc: no command remtoe in app; is it remote?
----
clidoc|man|--command=

====
clidoc: no command '' in app; its command is remote
----
clidoc|--command|add|man

====
clidoc: no command add in app; its command is remote
----
clidoc|markdown|--command|add

====
clidoc: no command add in app; its command is remote
----
clidoc|man|--date=a\u{7}

====
clidoc: no page: --date \"a\\u{7}\" holds a control character or a noncharacter
----
clidoc|html|--command|add

====
clidoc: no command add in app; its command is remote
----
clidoc|html|--vendor=a\u{7}

====
clidoc: no page: --vendor \"a\\u{7}\" holds a control character or a noncharacter
----
clidoc|full|nowhere.toml

====
clidoc: can't open nowhere.toml: no such file
----
clidoc|check|--|-\u{7}

====
clidoc: can't open \"-\\u{7}\": no such file
----
clidoc|check|a\u{9b}b

====
clidoc: can't open \"a\\u{9b}b\": no such file";

// Whether a run on words writes the page, or says the line and fails.
fn is_right(global: Global, row: &str) -> bool {
    let Some((words, answer)) = row.split_once('\n') else {
        return false;
    };
    match answer.split_once("\n====\n") {
        Some((page, line)) => {
            let status = u8::from(!line.is_empty());
            answers(global, words, NESTED, status, (page.as_bytes(), line))
        }
        None => false,
    }
}

#[test]
fn does_what_is_chosen(rt: HostRuntime) {
    for row in RIGHT.split("\n----\n") {
        assert!(rt; is_right(rt.alloc(), row), "{row}");
    }
}

// What COLUMNS says, words, and the page.
type Terminal = (&'static [u8], &'static str, &'static [u8]);

const WIDE: &[u8] = b"app [--abcdefgh] [-v]\n";

const NARROW: &[u8] = b"app [--abcdefgh]\n    [-v]\n";

const TERMINALS: &[Terminal] = &[
    (b"20", "clidoc|usage", NARROW),
    (b"0020", "clidoc|usage", NARROW),
    (b"21", "clidoc|usage", WIDE),
    (b"18446744073709551615", "clidoc|usage", WIDE),
    (b"20", "clidoc|usage|--width=100", WIDE),
    (b"200", "clidoc|--width|20|usage", NARROW),
    (b"19", "clidoc|usage", WIDE),
    (b"0", "clidoc|usage", WIDE),
    (b"", "clidoc|usage", WIDE),
    (b"+20", "clidoc|usage", WIDE),
    (b"-20", "clidoc|usage", WIDE),
    (b" 20", "clidoc|usage", WIDE),
    (b"20x", "clidoc|usage", WIDE),
    (b"20\xff", "clidoc|usage", WIDE),
    (b"18446744073709551636", "clidoc|usage", WIDE),
];

// Whether a run where the environment says these columns writes the page.
fn fits(global: Global, &(columns, words, page): &Terminal) -> bool {
    let input = b"name = 'app'\n[[option]]\nlong = 'abcdefgh'\n[[option]]\nshort = 'v'\n";
    let desk = Desk::new(global, words, Ends::new(input, page), "").on_terminal(columns);
    ends_with(global, &desk, 0, page.len(), false)
}

// Whether it says how it is used on a terminal of 40 columns.
fn usage_fits(global: Global) -> bool {
    let desk = Desk::new(global, "clidoc", Ends::new(b"", b""), NARROW_USAGE).on_terminal(b"40");
    ends_with(global, &desk, 2, 0, true)
}

const NARROW_USAGE: &str = "clidoc FORM [--command NAME]... [--deep]
       [--width COLUMNS] [--fragment]
       [--date DATE] [--vendor TEXT]
       [FILE]
clidoc complete SHELL [FILE]
clidoc json [FILE]
clidoc all --into FOLDER [--date DATE]
       [--vendor TEXT] [FILE]
clidoc check [--strict] [FILE]
clidoc draft [--name NAME] [FILE]
clidoc against HELP [--command NAME]...
       [FILE]";

#[test]
fn the_environment_says_the_columns(rt: HostRuntime) {
    for row in TERMINALS {
        assert!(rt; fits(rt.alloc(), row), "{} {:?}", row.1, row.0);
    }
    assert!(rt; usage_fits(rt.alloc()));
}

// Words and an input, the status, what is written, and the line on standard error.
type Row = (&'static str, &'static [u8], u8, &'static [u8], &'static str);

const ROWS: &[Row] = &[
    (
        "helpdoc|text|full",
        b"\xff",
        1,
        b"",
        "helpdoc: input is not UTF-8",
    ),
    (
        "helpdoc|text|full",
        b"hello \xff",
        1,
        b"",
        "helpdoc: input is not UTF-8",
    ),
    (
        "helpdoc|text|full",
        b"\xe2\x82",
        1,
        b"",
        "helpdoc: input is not UTF-8",
    ),
    ("helpdoc|text|full", b"", 0, b"", ""),
    ("helpdoc|sample|full", b"\xff", 0, SAMPLE, ""),
    ("helpdoc|text|brief", b"", 0, b"", ""),
    ("helpdoc|text|html", b"", 0, b"", ""),
    ("helpdoc|text|markdown", b"", 0, b"", ""),
    (
        "helpdoc|text|man",
        b"",
        0,
        b".ie \\n(.g .ds Aq \\(aq\n.el .ds Aq '\n.TH helpdoc 1 - - \"\"\n\\fR\\fP",
        "",
    ),
    ("helpdoc|text|brief", b"shown\n\nmore", 0, b"shown\n", ""),
    (
        "clidoc|full",
        b"name = 'app\xff'\n",
        1,
        b"",
        "-:1:12: the text is not UTF-8",
    ),
];

// As `WRONG`, of the other program.
const WRONG_OF_HELPDOC: &str = "helpdoc
helpdoc: expected text or sample, then full, brief, html, markdown or man

helpdoc|text
helpdoc: expected text or sample, then full, brief, html, markdown or man

helpdoc|sample
helpdoc: expected text or sample, then full, brief, html, markdown or man

helpdoc|full
helpdoc: expected text or sample, then full, brief, html, markdown or man

helpdoc|sample|Full
helpdoc: expected text or sample, then full, brief, html, markdown or man

helpdoc|samples|full
helpdoc: expected text or sample, then full, brief, html, markdown or man

helpdoc|text |full
helpdoc: expected text or sample, then full, brief, html, markdown or man

helpdoc|text| full
helpdoc: expected text or sample, then full, brief, html, markdown or man

helpdoc|sample|full|full
helpdoc: expected text or sample, then full, brief, html, markdown or man";

#[test]
fn answers_a_status(rt: HostRuntime) {
    for &(words, input, status, page, line) in ROWS {
        assert!(rt;
            answers(rt.alloc(), words, input, status, (page, line)),
            "{words} {line}"
        );
    }
    for row in WRONG_OF_HELPDOC.split("\n\n") {
        assert!(rt; is_wrong(rt.alloc(), row), "{row}");
    }
}

const NEVER: Script<'static> = Script::BYTES;

const FIRST: Script<'static> = Script::FIRST_FAILS;

const FOURTH: Script<'static> = Script::FOURTH_FAILS;

// Words and an input, what the reader and the writer do, the status, how much of the page is written, and the line.
type Faulty = (
    &'static str,
    &'static [u8],
    Script<'static>,
    Script<'static>,
    u8,
    usize,
    &'static str,
);

const FAULTY: &[Faulty] = &[
    (
        "helpdoc|text",
        b"\xff",
        FIRST,
        FIRST,
        2,
        0,
        "helpdoc: expected text or sample, then full, brief, html, markdown or man",
    ),
    (
        "helpdoc|text|full",
        pages::INPUT,
        FIRST,
        NEVER,
        1,
        0,
        "helpdoc: read failed",
    ),
    (
        "helpdoc|text|full",
        pages::INPUT,
        FOURTH,
        NEVER,
        1,
        0,
        "helpdoc: read failed",
    ),
    (
        "helpdoc|text|full",
        b"\xff\xff\xff",
        FOURTH,
        FIRST,
        1,
        0,
        "helpdoc: read failed",
    ),
    (
        "helpdoc|text|full",
        b"\xff",
        NEVER,
        FIRST,
        1,
        0,
        "helpdoc: input is not UTF-8",
    ),
    (
        "helpdoc|text|full",
        pages::INPUT,
        NEVER,
        FIRST,
        1,
        0,
        "helpdoc: write failed",
    ),
    (
        "helpdoc|text|full",
        pages::INPUT,
        NEVER,
        FOURTH,
        1,
        3,
        "helpdoc: write failed",
    ),
    (
        "helpdoc|sample|full",
        pages::INPUT,
        FIRST,
        NEVER,
        0,
        SAMPLE.len(),
        "",
    ),
    (
        "helpdoc|sample|full",
        pages::INPUT,
        FIRST,
        FOURTH,
        1,
        3,
        "helpdoc: write failed",
    ),
    (
        "clidoc",
        b"\xff",
        FIRST,
        FIRST,
        2,
        0,
        "clidoc FORM [--command NAME]... [--deep] [--width COLUMNS] [--fragment] [--date DATE]\n       [--vendor TEXT] [FILE]\nclidoc complete SHELL [FILE]\nclidoc json [FILE]\nclidoc all --into FOLDER [--date DATE] [--vendor TEXT] [FILE]\nclidoc check [--strict] [FILE]\nclidoc draft [--name NAME] [FILE]\nclidoc against HELP [--command NAME]... [FILE]",
    ),
    (
        "clidoc|full",
        INPUT,
        FIRST,
        NEVER,
        1,
        0,
        "clidoc: read failed",
    ),
    (
        "clidoc|full",
        INPUT,
        FOURTH,
        NEVER,
        1,
        0,
        "clidoc: read failed",
    ),
    (
        "clidoc|full",
        b"= \xff",
        FOURTH,
        FIRST,
        1,
        0,
        "clidoc: read failed",
    ),
    (
        "clidoc|full",
        b"= \xff",
        NEVER,
        FIRST,
        1,
        0,
        "-:1:3: the text is not UTF-8",
    ),
    (
        "clidoc|full",
        b"lnog = 1\nlnog = 1\n",
        NEVER,
        FIRST,
        1,
        0,
        "-:2:1: duplicate key",
    ),
    (
        "clidoc|full",
        b"",
        NEVER,
        FIRST,
        1,
        0,
        "-: the input is empty",
    ),
    (
        "clidoc|usage|--command=x",
        INPUT,
        NEVER,
        FIRST,
        1,
        0,
        "clidoc: no command x in app; it has no commands",
    ),
    (
        "clidoc|man|--vendor=\u{1}",
        INPUT,
        NEVER,
        FIRST,
        1,
        0,
        "clidoc: no page: --vendor \"\\u{1}\" holds a control character or a noncharacter",
    ),
    (
        "clidoc|full",
        INPUT,
        NEVER,
        FIRST,
        1,
        0,
        "clidoc: write failed",
    ),
    (
        "clidoc|full",
        INPUT,
        NEVER,
        FOURTH,
        1,
        3,
        "clidoc: write failed",
    ),
];

// The page of these words.
fn page_of(words: &str) -> &'static [u8] {
    match words {
        "helpdoc|text|full" => PAGE,
        "helpdoc|sample|full" => SAMPLE,
        _ => HELP,
    }
}

fn tells(global: Global, row: &Faulty) -> bool {
    let &(words, input, reads, writes, status, count, line) = row;
    let ends = Ends::new(input, page_of(words));
    let desk = Desk::new(global, words, ends.reading(reads).writing(writes), line);
    ends_with(global, &desk, status, count, status > 0)
}

// Where the words cannot be read, nothing else is looked at.
fn tells_garbled_words<'a>(global: Global, words: &'a str, status: u8, line: &'a str) -> bool {
    let ends = Ends::new(INPUT, HELP).reading(FIRST).writing(FIRST);
    let desk = Desk::new(global, words, ends, line).garbled();
    ends_with(global, &desk, status, 0, true)
}

// Of several faults the first is reported: words, then reads, then the text, its TOML, its description, its page, then
// writes.
#[test]
fn tells_the_first_fault(rt: HostRuntime) {
    for row in FAULTY {
        assert!(rt; tells(rt.alloc(), row), "{} {} {}", row.0, row.6, row.5);
    }
    assert!(rt; tells_garbled_words(rt.alloc(), "helpdoc|text|full", 1, "helpdoc: no memory"));
    let line = "clidoc: word 1 is not UTF-8";
    assert!(rt; tells_garbled_words(rt.alloc(), "clidoc|full", 2, line));
}

#[test]
fn a_refused_growth_is_said(rt: HostRuntime) {
    let ends = Ends::new(pages::INPUT, PAGE);
    let line = "helpdoc: no memory";
    assert!(rt; refuses_until_ample(rt.alloc(), "helpdoc|text|full", ends, line));
    let ends = Ends::new(pages::INPUT, SAMPLE);
    assert!(rt; refuses_until_ample(rt.alloc(), "helpdoc|sample|full", ends, line));
    let ends = Ends::new(INPUT, HELP);
    assert!(rt; refuses_until_ample(rt.alloc(), "clidoc|full", ends, "clidoc: no memory"));
    let ends = Ends::new(INPUT, b"");
    assert!(rt; refuses_until_ample(rt.alloc(), "clidoc|check", ends, "clidoc: no memory"));
    let ends = Ends::new(IN_JSON, HELP);
    assert!(rt; refuses_until_ample(rt.alloc(), "clidoc|full", ends, "clidoc: no memory"));
}
