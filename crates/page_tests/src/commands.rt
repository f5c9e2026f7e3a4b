//! The pages of a command line that describes itself, and each growth refused in turn.
use crate::refusals::{BYTES, STEP, roomy, taken};
use bumpalo::Bump;
use command_pages::{
    ConsoleForm, Depth, PageFault, TitleGiven, application, console_page_of, manual_page_of,
    markdown_page_of,
};
use description::{Command, Description, Level, Opt};
use std::alloc::{AllocError, Global};
use std::process::Abort;

// Which page of the command line.
#[derive(Clone, Copy)]
enum Asked {
    Console(ConsoleForm),
    Manual,
    Markdown,
}

// The pages, of which the last two are deep. A vendor is given for the title line.
const PAGES: &[(Asked, &str)] = &[
    (
        Asked::Console(ConsoleForm::Usage),
        r#"greet [-l] [COMMAND ...]
"#,
    ),
    (
        Asked::Console(ConsoleForm::Full),
        r#"Greets people.

Usage: greet [-l] [COMMAND ...]

Options:
    -l, --loud  In capital letters.

                And with a stop.

    -h, --help  Print this page

Commands:
    bye         Say goodbye
"#,
    ),
    (
        Asked::Console(ConsoleForm::Brief),
        r#"Greets people.

Usage: greet [-l] [COMMAND ...]

Options:
    -l, --loud  In capital letters.
    -h, --help  Print this page

Commands:
    bye         Say goodbye
"#,
    ),
    (
        Asked::Manual,
        r#".TH greet 1 "May 2026" Greeters ""
.SH NAME
greet \- Greets people
.SH SYNOPSIS
.SY greet
[\fB\-l\fP]
[\fICOMMAND\fP\~...]\&
.YS
.SH OPTIONS
.TP
\fB\-l\fP, \fB\-\-loud\fP
In capital letters.
.IP
And with a stop.
.TP
\fB\-h\fP, \fB\-\-help\fP
Print this page
.SH COMMANDS
.TP
\fBbye\fP
Say goodbye
.SH SEE ALSO
\fB\%greet\-bye\fP(1)
.SH greet bye
.SS SYNOPSIS
.SY "greet bye"
.YS
.SS DESCRIPTION
Says goodbye.
.SS OPTIONS
.TP
\fB\-h\fP, \fB\-\-help\fP
"#,
    ),
    (
        Asked::Markdown,
        r#"# greet

Greets people.

```
greet [-l] [COMMAND ...]
```

## Options

- `-l`, `--loud` — In capital letters.

  And with a stop.

- `-h`, `--help` — Print this page

## Commands

- [`bye`](#greet-bye) — Say goodbye

# greet bye

Says goodbye.

```
greet bye
```

### Options

- `-h`, `--help`
"#,
    ),
];

fn greet(alloc: Global, name: &'static str) -> Result<Description<'static>, AllocError> {
    let loud = Opt::flag('l', "loud").help("In capital letters.\n\nAnd with a stop.");
    let mut level = Level::new(alloc)
        .about("Greets people.")
        .commands_optional();
    level.option(loud)?;
    let bye = Level::new(alloc).about("Says goodbye.");
    level.command(Command::new("bye", bye).help("Say goodbye"))?;
    let mut greet = Description::new(alloc, name, level).date("May 2026");
    greet.help_option(Opt::flag('h', "help").help("Print this page"))?;
    Ok(greet)
}

fn page_in<'p, 'a: 'p>(
    arena: &'p Bump,
    app: &'p Description<'a>,
    asked: Asked,
) -> Result<String<&'p Bump>, PageFault> {
    let level = application(arena, app)?;
    let given = TitleGiven {
        date: None,
        vendor: Some("Greeters"),
    };
    match asked {
        Asked::Console(form) => console_page_of(arena, arena, form, 80, &app.words, level),
        Asked::Manual => manual_page_of(arena, arena, app, Depth::Deep, given, level),
        Asked::Markdown => markdown_page_of(arena, arena, &app.words, Depth::Deep, level),
    }
}

// Whether a page is whole in that much room. None where it is another, or has another fault.
fn is_whole(
    rt: &impl Abort,
    out: Global,
    app: &Description<'_>,
    wanted: (Asked, &str),
    room: usize,
) -> Option<bool> {
    let arena = roomy(rt, out);
    let _rest = taken(rt, &arena, room);
    match page_in(&arena, app, wanted.0) {
        Ok(page) => (page.as_str() == wanted.1).then_some(true),
        Err(fault) => (fault == PageFault::Refused(AllocError)).then_some(false),
    }
}

#[test]
fn pages_of_a_command_line_are_written_so(rt: HostRuntime) {
    let app = greet(rt.alloc(), "greet").expect(&rt, "a description");
    for wanted in PAGES {
        assert!(rt; is_whole(&rt, rt.alloc(), &app, *wanted, BYTES) == Some(true));
    }
}

// Whether a page is made with more room, after some refusals.
fn is_made_with_more(
    rt: &impl Abort,
    out: Global,
    app: &Description<'_>,
    wanted: (Asked, &str),
) -> bool {
    for step in 0..BYTES / STEP {
        let made = is_whole(rt, out, app, wanted, step.saturating_mul(STEP));
        if made != Some(false) {
            return step > 0 && made == Some(true);
        }
    }
    false
}

#[test]
fn refused_pages_of_a_command_line_are_made_with_more(rt: HostRuntime) {
    let app = greet(rt.alloc(), "greet").expect(&rt, "a description");
    for wanted in PAGES {
        assert!(rt; is_made_with_more(&rt, rt.alloc(), &app, *wanted));
    }
}

#[test]
fn a_page_with_a_control_character_is_refused(rt: HostRuntime) {
    let app = greet(rt.alloc(), "gr\u{1b}eet").expect(&rt, "a description");
    for (asked, _) in PAGES {
        let arena = roomy(&rt, rt.alloc());
        assert!(rt; page_in(&arena, &app, *asked).err() == Some(PageFault::Character));
    }
}
