//! What the program says of itself.

/// The line of its version, which `./release` reads here. It is greater than that of the Rust crate bpaf, which it had
/// before.
pub const VERSION: &str = "clidoc 1.0.0\n";

/// Its description: the text of `examples/clidoc.toml`.
pub const DESCRIPTION: &str = r#"# The program that makes the pages. Its footer has an example.
name = "clidoc"
about = "Makes pages of the description of a command line."
header = """
The description is read from FILE, or else from standard input, in TOML or JSON, and the page is written to standard output.
The program that is described may be written in any language."""
usage = """
clidoc FORM [--command NAME]... [--deep] [--width COLUMNS] [--fragment] [--date DATE] [--vendor TEXT] [FILE]
clidoc complete SHELL [FILE]
clidoc json [FILE]
clidoc all --into FOLDER [--date DATE] [--vendor TEXT] [FILE]
clidoc check [--strict] [FILE]
clidoc draft [--name NAME] [FILE]
clidoc against HELP [--command NAME]... [FILE]"""
footer = """
The status is 0 if all is done, 2 if the words are wrong, and 1 if anything else is, as a line on standard error says, or if `against` found a difference.

The description of a program that greets people:

    name = "greet"
    about = "Greets people."
    [[option]]
    short = "l"
    long = "loud"
    help = "In capital letters"
    [[positional]]
    value = "NAME"
    help = "Whom to greet\""""

[[help_option]]
short = "h"
long = "help"
help = "Print this page"

[[help_option]]
short = "V"
long = "version"
help = "Print the version"

[[option]]
long = "command"
value = "NAME"
hint = "none"
help = """
Show this command, by any of its names.

It is given once for each level down. It goes with `usage`, `full`, `brief`, `man`, `markdown`, `html` and `against`."""
repeated = true

[[option]]
long = "deep"
help = """
Show the levels below, too, one after another.

It goes with `man` and `markdown`."""

[[option]]
long = "width"
value = "COLUMNS"
hint = "none"
help = """
Write lines of at most this many columns.

The variable `COLUMNS` counts if it is a number from 20 on. It goes with `usage`, `full` and `brief`."""
env = "COLUMNS"
default = 100

[[option]]
long = "fragment"
help = """
Write only what is inside `<body>`, to be put into another page.

It goes with `html`."""

[[option]]
long = "strict"
help = """
Fail if there is a warning.

It goes with `check`."""

[[option]]
long = "into"
value = "FOLDER"
hint = "folder"
help = """
Write all pages into this folder, which must exist.

It goes with `all`."""

[[option]]
long = "date"
value = "DATE"
hint = "none"
help = """
Put this date on manual and HTML pages, in place of that of the description.

It goes with `man`, `html` and `all`."""

[[option]]
long = "vendor"
value = "TEXT"
hint = "none"
help = """
Put this vendor on manual and HTML pages, in place of that of the description.

It goes with `man`, `html` and `all`."""

[[option]]
long = "name"
value = "NAME"
hint = "none"
help = """
The program's name in a draft, in place of that in its usage.

It goes with `draft`."""

[[positional]]
value = "FORM"
values = ["usage", "full", "brief", "man", "markdown", "html", "complete", "json", "check", "all", "draft", "against"]
help = """
What is made of the description.

- `usage`: the usage alone.
- `full`: the help page.
- `brief`: the help page, with the first block of each text.
- `man`: a manual page.
- `markdown`: a page in markdown.
- `html`: an HTML page with all commands below.
- `complete`: a script that completes the words of the program in SHELL, which is `bash`, `zsh` or `fish`.
- `json`: the description itself in JSON, without what is a default.
- `check`: no page, but the faults of the description, and warnings.
- `all`: the manual page and the page in markdown of each level, and the HTML page, as files of `--into`.
- `draft`: a first description, of a help text in FILE.
- `against`: no page, but the names of options and commands that only the description or HELP, a help text, has."""

[[positional]]
value = "FILE"
help = "The description, or for `draft` the help text; `-` is standard input"
required = false

[[topic]]
title = "Environment"
text = """
- `CLIDOC_INPUT_MIB`: how many MiB are read at most, 16 by default.
- `CLIDOC_OUTPUT_MIB`: how many MiB are written at most, 256 by default."""

[[topic]]
title = "Examples"
text = """
On the terminal, of the description in `greet.toml`:

    clidoc usage greet.toml
    clidoc full --width=80 greet.toml
    clidoc brief greet.toml

The manual page of a command, and one page in markdown of all levels:

    clidoc man --command=add --date=2026-11-28 depot.toml
    clidoc markdown --deep depot.toml

A web page, and only what is inside its `<body>`:

    clidoc html greet.toml > greet.html
    clidoc html --fragment greet.toml

Completions for bash, in a file that `~/.bashrc` reads:

    clidoc complete bash greet.toml > greet.bash

Faults and warnings, and all pages at once:

    clidoc check --strict greet.toml
    clidoc all --into=pages greet.toml

A first description of a program that has none, and whether program and description still agree:

    greet --help | clidoc draft > greet.toml
    greet --help | clidoc against - greet.toml"""
"#;
