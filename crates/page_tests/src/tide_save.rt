//! The manual page of a command, with a list and code in it.
use crate::said::{Item, Said, Shown};
use page_model::Inline::{Literal, Page, Value, Words};

pub const SAID: &[Said] = &[
    Said::Section("NAME"),
    Said::Block(Shown::Paragraph(&[&[Words("tide-save - Save folders")]])),
    Said::Section("SYNOPSIS"),
    Said::Usage(
        "tide save",
        &[
            &[
                Words("["),
                Literal("-x"),
                Words(" "),
                Value("PATTERN"),
                Words("]..."),
            ],
            &[
                Words("["),
                Literal("-n"),
                Words(" "),
                Value("COUNT"),
                Words("]"),
            ],
            &[
                Words("["),
                Literal("--fast"),
                Words(" | "),
                Literal("--thorough"),
                Words("]"),
            ],
            &[Value("FOLDER"), Words("...")],
        ],
    ),
    Said::Section("DESCRIPTION"),
    Said::Block(Shown::Paragraph(&[&[Words("Saves folders as a new snapshot.")]])),
    Said::Block(Shown::Paragraph(&[&[Words("What is left out:")]])),
    Said::Block(Shown::List(&[
        &[Words("what "), Literal("--exclude"), Words(" names;")],
        &[Words(
            "sockets, devices, and whatever else holds no bytes of its own, even where a folder of them is named.",
        )],
    ])),
    Said::Section("ARGUMENTS"),
    Said::Entries(&[Item(
        &[&[Value("FOLDER")]],
        &[Shown::Paragraph(&[&[Words("What to save")]])],
    )]),
    Said::Section("OPTIONS"),
    Said::Entries(&[
        Item(
            &[
                &[Literal("-x")],
                &[Literal("--exclude"), Words("="), Value("PATTERN")],
            ],
            &[
                Shown::Paragraph(&[&[Words("Leave out what this pattern names.")]]),
                Shown::Paragraph(&[&[
                    Words("In a pattern "),
                    Literal("*"),
                    Words(" stands for any characters but "),
                    Literal("/"),
                    Words(", as in"),
                ]]),
                Shown::Code(&["*.o", "cache/*/tmp"]),
            ],
        ),
        Item(
            &[&[Literal("-n"), Words(" "), Value("COUNT")]],
            &[Shown::Paragraph(&[&[Words("Keep so many snapshots, and drop older ones")]])],
        ),
        Item(
            &[&[Literal("--fast")]],
            &[Shown::Paragraph(&[&[Words("Read only files whose time or size has changed")]])],
        ),
        Item(
            &[&[Literal("--thorough")]],
            &[Shown::Paragraph(&[&[Words("Read each file")]])],
        ),
        Item(
            &[&[Literal("-h")], &[Literal("--help")]],
            &[Shown::Paragraph(&[&[Words("Print this page")]])],
        ),
    ]),
    Said::Section("EXAMPLES"),
    Said::Block(Shown::Paragraph(&[&[Words("Save two folders, without objects:")]])),
    Said::Block(Shown::Code(&["$ tide save -x '*.o' src doc", "saved 1,204 files"])),
    Said::Block(Shown::Paragraph(&[&[
        Words("Each night at three, by "),
        Literal("crontab(5)"),
        Words(":"),
    ]])),
    Said::Block(Shown::Code(&["0 3 * * * tide save --fast /home"])),
    Said::Section("EXIT STATUS"),
    Said::Block(Shown::List(&[
        &[Literal("0"), Words(": all was saved.")],
        &[Literal("1"), Words(": some files could not be read.")],
    ])),
    Said::Section("SEE ALSO"),
    Said::Block(Shown::Paragraph(&[&[Page("tide")]])),
];

pub const WRITTEN: &str = r#".TH tide-save 1 2026-11-28 "tide 2.1" "User Commands"
.SH NAME
tide\-save \- Save folders
.SH SYNOPSIS
.SY "tide save"
[\fB\-x\fP\~\fIPATTERN\fP]...\&
[\fB\-n\fP\~\fICOUNT\fP]
[\fB\-\-fast\fP\~|\~\fB\-\-thorough\fP]
\fIFOLDER\fP...\&
.YS
.SH DESCRIPTION
Saves folders as a new snapshot.
.PP
What is left out:
.IP \(bu 2
what \fB\%\-\-exclude\fP names;
.IP \(bu 2
sockets, devices, and whatever else holds no bytes of its own, even where a folder of them is named.
.SH ARGUMENTS
.TP
\fIFOLDER\fP
What to save
.SH OPTIONS
.TP
\fB\-x\fP, \fB\-\-exclude\fP=\fIPATTERN\fP
Leave out what this pattern names.
.IP
In a pattern \fB*\fP stands for any characters but \fB/\fP, as in
.RS
.PP
.RS 4
.EX
*.o
cache/*/tmp
.EE
.RE
.RE
.TP
\fB\-n\fP \fICOUNT\fP
Keep so many snapshots, and drop older ones
.TP
\fB\-\-fast\fP
Read only files whose time or size has changed
.TP
\fB\-\-thorough\fP
Read each file
.TP
\fB\-h\fP, \fB\-\-help\fP
Print this page
.SH EXAMPLES
Save two folders, without objects:
.PP
.RS 4
.EX
$ tide save \-x \(aq*.o\(aq src doc
saved 1,204 files
.EE
.RE
.PP
Each night at three, by \fB\%crontab(5)\fP:
.PP
.RS 4
.EX
0 3 * * * tide save \-\-fast /home
.EE
.RE
.SH EXIT STATUS
.IP \(bu 2
\fB0\fP: all was saved.
.IP \(bu 2
\fB1\fP: some files could not be read.
.SH SEE ALSO
\fB\%tide\fP(1)
"#;
