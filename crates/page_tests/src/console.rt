//! A whole page on a console, and a usage at two widths.
use crate::said::{Item, Lines, Said, Shown, forms, parts};
use console_page::{PageFault, console_page, console_usage};
use page_model::Inline::{Literal, Value, Words};
use page_model::{Block, Form, Line, Part};
use std::alloc::{AllocError, Global};
use std::process::Abort;

const SAID: &[Said] = &[
    Said::Block(Shown::Paragraph(&[&[Words("Saves folders as a new snapshot.")]])),
    Said::Block(Shown::Paragraph(&[&[Words("What is left out:")]])),
    Said::Block(Shown::List(&[
        &[Words("what "), Literal("--exclude"), Words(" names;")],
        &[Words(
            "sockets, devices, and whatever else holds no bytes of its own, even where a folder of them is named.",
        )],
    ])),
    Said::Usage(
        "tide save",
        &[
            &[
                Words("["),
                Literal("-x"),
                Words(" "),
                Value("PATTERN"),
                Words("]..."),
            ],
            &[
                Words("["),
                Literal("-n"),
                Words(" "),
                Value("COUNT"),
                Words("]"),
            ],
            &[
                Words("["),
                Literal("--fast"),
                Words(" | "),
                Literal("--thorough"),
                Words("]"),
            ],
            &[Value("FOLDER"), Words("...")],
        ],
    ),
    Said::Section("Arguments"),
    Said::Entries(&[Item(
        &[&[Value("FOLDER")]],
        &[Shown::Paragraph(&[&[Words("What to save")]])],
    )]),
    Said::Section("Options"),
    Said::Entries(&[
        Item(
            &[
                &[Literal("-x")],
                &[Literal("--exclude"), Words("="), Value("PATTERN")],
            ],
            &[
                Shown::Paragraph(&[&[Words("Leave out what this pattern names.")]]),
                Shown::Paragraph(&[&[
                    Words("In a pattern "),
                    Literal("*"),
                    Words(" stands for any characters but "),
                    Literal("/"),
                    Words(", as in"),
                ]]),
                Shown::Code(&["*.o", "cache/*/tmp"]),
            ],
        ),
        Item(
            &[&[Literal("-n"), Words(" "), Value("COUNT")]],
            &[Shown::Paragraph(&[&[Words("Keep so many snapshots, and drop older ones")]])],
        ),
        Item(
            &[&[Literal("--fast")]],
            &[Shown::Paragraph(&[&[Words("Read only files whose time or size has changed")]])],
        ),
        Item(
            &[&[Literal("--thorough")]],
            &[Shown::Paragraph(&[&[Words("Read each file")]])],
        ),
        Item(
            &[&[Literal("-h")], &[Literal("--help")]],
            &[Shown::Paragraph(&[&[Words("Print this page")]])],
        ),
    ]),
    Said::Section("Examples"),
    Said::Block(Shown::Paragraph(&[&[Words("Save two folders, without objects:")]])),
    Said::Block(Shown::Code(&["$ tide save -x '*.o' src doc", "saved 1,204 files"])),
    Said::Block(Shown::Paragraph(&[&[
        Words("Each night at three, by "),
        Literal("crontab(5)"),
        Words(":"),
    ]])),
    Said::Block(Shown::Code(&["0 3 * * * tide save --fast /home"])),
    Said::Section("Exit status"),
    Said::Block(Shown::List(&[
        &[Literal("0"), Words(": all was saved.")],
        &[Literal("1"), Words(": some files could not be read.")],
    ])),
];

/// The items of a usage.
pub const USED: Lines = &[
    &[
        Words("["),
        Literal("-s"),
        Words(" "),
        Value("FOLDER"),
        Words("]"),
    ],
    &[Words("["), Literal("-v"), Words("]...")],
    &[
        Words("["),
        Literal("--color"),
        Words("[="),
        Value("WHEN"),
        Words("]]"),
    ],
    &[Value("COMMAND"), Words(" ...")],
];

pub const WRITTEN: &str = r#"Saves folders as a new snapshot.

What is left out:

- what --exclude names;
- sockets, devices, and whatever else holds no bytes of its own, even where a
  folder of them is named.

Usage: tide save [-x PATTERN]... [-n COUNT] [--fast | --thorough] FOLDER...

Arguments:
    FOLDER                 What to save

Options:
    -x, --exclude=PATTERN  Leave out what this pattern names.

                           In a pattern * stands for any characters but /, as in

                               *.o
                               cache/*/tmp

    -n COUNT               Keep so many snapshots, and drop older ones
        --fast             Read only files whose time or size has changed
        --thorough         Read each file
    -h, --help             Print this page

Examples:
    Save two folders, without objects:

        $ tide save -x '*.o' src doc
        saved 1,204 files

    Each night at three, by crontab(5):

        0 3 * * * tide save --fast /home

Exit status:
    - 0: all was saved.
    - 1: some files could not be read.
"#;

/// A little of each.
pub const FEW: &[Said] = &[
    Said::Block(Shown::Paragraph(&[&[Words("aa"), Literal(" bb")], &[Words("c")]])),
    Said::Usage("t", &[&[Words("["), Literal("-a"), Words("]")]]),
    Said::Section("O"),
    Said::Entries(&[Item(
        &[&[Literal("-a")]],
        &[
            Shown::Paragraph(&[&[Words("p")]]),
            Shown::List(&[&[Words("i j")]]),
            Shown::Code(&["\tc", "", "d"]),
        ],
    )]),
];

pub const FEW_WRITTEN: &str = "aa bb
c

Usage: t
    [-a]

O:
    -a  p

        - i
          j

            \tc

            d
";

/// The usage where each item is wider than what is left after the name.
pub const USED_NARROWLY: &str =
    "tide [-s\n    FOLDER]\n    [-v]...\n    [--color[=WHEN]]\n    COMMAND\n    ...\n";

fn is_page(rt: &impl Abort, out: Global, said: &[Said], width: usize, want: &str) -> bool {
    let made = parts(out, said).expect(rt, "parts");
    let page = console_page(out, width, "Usage", made.as_slice()).expect(rt, "a page");
    page.as_str() == want
}

fn is_usage(rt: &impl Abort, out: Global, width: usize, want: &str) -> bool {
    let forms = forms(out, "tide", USED).expect(rt, "forms");
    let usage = console_usage(out, width, forms.as_slice()).expect(rt, "a usage");
    usage.as_str() == want
}

#[test]
fn pages_on_a_console_are_written_so(rt: HostRuntime) {
    assert!(rt; is_page(&rt, rt.alloc(), SAID, 80, WRITTEN));
    assert!(rt; is_page(&rt, rt.alloc(), FEW, 12, FEW_WRITTEN));
    assert!(rt; is_page(&rt, rt.alloc(), &[], 80, ""));
}

#[test]
fn usages_are_written_so(rt: HostRuntime) {
    let wide = "tide [-s FOLDER] [-v]... [--color[=WHEN]] COMMAND ...\n";
    assert!(rt; is_usage(&rt, rt.alloc(), 100, wide));
    let narrow = "tide [-s FOLDER] [-v]...\n     [--color[=WHEN]] COMMAND ...\n";
    assert!(rt; is_usage(&rt, rt.alloc(), 40, narrow));
    assert!(rt; is_usage(&rt, rt.alloc(), 12, USED_NARROWLY));
}

fn code(alloc: Global, text: &'static str) -> Result<Vec<Part<'static>>, AllocError> {
    Ok(vec![in alloc; Part::Block(Block::Code(vec![in alloc; text]?))]?)
}

fn form(alloc: Global, name: &'static str) -> Result<Vec<Form<'static>>, AllocError> {
    Ok(vec![in alloc;
        Form {
            name,
            items: Vec::<Line<'static>>::new(alloc)
        },
    ]?)
}

#[test]
fn a_control_character_is_refused(rt: HostRuntime) {
    let out = rt.alloc();
    for text in ["\u{1b}[1m", "\r", "\u{9b}", "\u{fdd0}", "\u{10ffff}"] {
        let parts = code(out, text).expect(&rt, "parts");
        assert!(rt; console_page(out, 80, "Usage", parts.as_slice()) == Err(PageFault::Character));
        assert!(rt; console_page(out, 80, text, &[] as &[Part]) == Err(PageFault::Character));
        let forms = form(out, text).expect(&rt, "forms");
        assert!(rt; console_usage(out, 80, forms.as_slice()) == Err(PageFault::Character));
    }
}
