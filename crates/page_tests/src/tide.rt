//! The manual page of a program with commands.
use crate::said::{Item, Said, Shown};
use page_model::Inline::{Link, Literal, Page, Value, Words};

pub const SAID: &[Said] = &[
    Said::Section("NAME"),
    Said::Block(Shown::Paragraph(&[&[Words("tide - Keeps snapshots of folders")]])),
    Said::Section("SYNOPSIS"),
    Said::Usage(
        "tide",
        &[
            &[
                Words("["),
                Literal("-s"),
                Words(" "),
                Value("FOLDER"),
                Words("]"),
            ],
            &[Words("["), Literal("-v"), Words("]...")],
            &[
                Words("["),
                Literal("--color"),
                Words("[="),
                Value("WHEN"),
                Words("]]"),
            ],
            &[Value("COMMAND"), Words(" ...")],
        ],
    ),
    Said::Section("DESCRIPTION"),
    Said::Block(Shown::Paragraph(&[&[Words("Keeps snapshots of folders.")]])),
    Said::Block(Shown::Paragraph(&[&[
        Words(
            "A snapshot holds each file once, however often it was saved. How it works is told at ",
        ),
        Link("https://tide.example/store"),
        Words("."),
    ]])),
    Said::Section("OPTIONS"),
    Said::Entries(&[
        Item(
            &[
                &[Literal("-s")],
                &[Literal("--store"), Words("="), Value("FOLDER")],
            ],
            &[Shown::Paragraph(&[&[Words(
                "Where snapshots are kept [env: TIDE_STORE] [default: ~/.tide]",
            )]])],
        ),
        Item(
            &[&[Literal("-v")], &[Literal("--verbose")]],
            &[Shown::Paragraph(&[&[Words("Say more")]])],
        ),
        Item(
            &[&[Literal("--color"), Words("[="), Value("WHEN"), Words("]")]],
            &[Shown::Paragraph(&[&[Words(
                "Colour what is printed [default: auto] [possible values: never, auto, always]",
            )]])],
        ),
        Item(
            &[&[Literal("-h")], &[Literal("--help")]],
            &[Shown::Paragraph(&[&[Words("Print this page")]])],
        ),
    ]),
    Said::Section("COMMANDS"),
    Said::Entries(&[
        Item(
            &[&[Literal("save")]],
            &[Shown::Paragraph(&[&[Words("Save folders")]])],
        ),
        Item(
            &[&[Literal("list")], &[Literal("l")]],
            &[Shown::Paragraph(&[&[Words("List snapshots, the newest first [aliases: ls]")]])],
        ),
        Item(
            &[&[Literal("store")]],
            &[Shown::Paragraph(&[&[Words("Work with stores")]])],
        ),
    ]),
    Said::Section("NOTES"),
    Said::Block(Shown::Paragraph(&[&[Words("A store can be read by every version from 1.4 on.")]])),
    Said::Section("SEE ALSO"),
    Said::Block(Shown::Paragraph(&[&[
        Page("tide-save"),
        Words(", "),
        Page("tide-list"),
        Words(", "),
        Page("tide-store"),
    ]])),
];

pub const WRITTEN: &str = r#".TH tide 1 2026-11-28 "tide 2.1" "User Commands"
.SH NAME
tide \- Keeps snapshots of folders
.SH SYNOPSIS
.SY tide
[\fB\-s\fP\~\fIFOLDER\fP]
[\fB\-v\fP]...\&
[\fB\-\-color\fP[=\fIWHEN\fP]]
\fICOMMAND\fP\~...\&
.YS
.SH DESCRIPTION
Keeps snapshots of folders.
.PP
A snapshot holds each file once, however often it was saved. How it works is told at https://tide.example/store.
.SH OPTIONS
.TP
\fB\-s\fP, \fB\-\-store\fP=\fIFOLDER\fP
Where snapshots are kept [env: TIDE_STORE] [default: \(ti/.tide]
.TP
\fB\-v\fP, \fB\-\-verbose\fP
Say more
.TP
\fB\-\-color\fP[=\fIWHEN\fP]
Colour what is printed [default: auto] [possible values: never, auto, always]
.TP
\fB\-h\fP, \fB\-\-help\fP
Print this page
.SH COMMANDS
.TP
\fBsave\fP
Save folders
.TP
\fBlist\fP, \fBl\fP
List snapshots, the newest first [aliases: ls]
.TP
\fBstore\fP
Work with stores
.SH NOTES
A store can be read by every version from 1.4 on.
.SH SEE ALSO
\fB\%tide\-save\fP(1), \fB\%tide\-list\fP(1), \fB\%tide\-store\fP(1)
"#;
