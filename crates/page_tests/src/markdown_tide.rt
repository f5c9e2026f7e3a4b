//! The page in markdown of a program with commands.
use crate::said::{Item, Leading, Said, Shown};
use page_model::Inline::{Link, Literal, Page, Value, Words};

pub const SAID: &[Said] = &[
    Said::Block(Shown::Paragraph(&[&[Words("Keeps snapshots of folders.")]])),
    Said::Block(Shown::Paragraph(&[&[
        Words(
            "A snapshot holds each file once, however often it was saved. How it works is told at ",
        ),
        Link("https://tide.example/store"),
        Words("."),
    ]])),
    Said::Usage(
        "tide",
        &[
            &[
                Words("["),
                Literal("-s"),
                Words(" "),
                Value("FOLDER"),
                Words("]"),
            ],
            &[Words("["), Literal("-v"), Words("]...")],
            &[
                Words("["),
                Literal("--color"),
                Words("[="),
                Value("WHEN"),
                Words("]]"),
            ],
            &[Value("COMMAND"), Words(" ...")],
        ],
    ),
    Said::Section("Options"),
    Said::Entries(&[
        Item(
            &[
                &[Literal("-s")],
                &[Literal("--store"), Words("="), Value("FOLDER")],
            ],
            &[Shown::Paragraph(&[&[Words(
                "Where snapshots are kept [env: TIDE_STORE] [default: ~/.tide]",
            )]])],
        ),
        Item(
            &[&[Literal("-v")], &[Literal("--verbose")]],
            &[Shown::Paragraph(&[&[Words("Say more")]])],
        ),
        Item(
            &[&[Literal("--color"), Words("[="), Value("WHEN"), Words("]")]],
            &[Shown::Paragraph(&[&[Words(
                "Colour what is printed [default: auto] [possible values: never, auto, always]",
            )]])],
        ),
        Item(
            &[&[Literal("-h")], &[Literal("--help")]],
            &[Shown::Paragraph(&[&[Words("Print this page")]])],
        ),
    ]),
    Said::Section("Commands"),
    Said::LeadingEntries(&[
        Leading(
            "tide-save",
            Item(
                &[&[Literal("save")]],
                &[Shown::Paragraph(&[&[Words("Save folders")]])],
            ),
        ),
        Leading(
            "tide-list",
            Item(
                &[&[Literal("list")], &[Literal("l")]],
                &[Shown::Paragraph(&[&[Words("List snapshots, the newest first [aliases: ls]")]])],
            ),
        ),
        Leading(
            "tide-store",
            Item(
                &[&[Literal("store")]],
                &[Shown::Paragraph(&[&[Words("Work with stores")]])],
            ),
        ),
    ]),
    Said::Section("Notes"),
    Said::Block(Shown::Paragraph(&[&[Words("A store can be read by every version from 1.4 on.")]])),
    Said::Section("See also"),
    Said::Block(Shown::Paragraph(&[&[
        Page("tide-save"),
        Words(", "),
        Page("tide-list"),
        Words(", "),
        Page("tide-store"),
    ]])),
];

pub const WRITTEN: &str = r##"# tide

Keeps snapshots of folders.

A snapshot holds each file once, however often it was saved. How it works is told at <https://tide.example/store>.

```
tide [-s FOLDER] [-v]... [--color[=WHEN]] COMMAND ...
```

## Options

- `-s`, `--store=FOLDER` — Where snapshots are kept \[env: TIDE_STORE\] \[default: ~/.tide\]

- `-v`, `--verbose` — Say more

- `--color[=WHEN]` — Colour what is printed \[default: auto\] \[possible values: never, auto, always\]

- `-h`, `--help` — Print this page

## Commands

- [`save`](tide-save.md) — Save folders

- [`list`](tide-list.md), `l` — List snapshots, the newest first \[aliases: ls\]

- [`store`](tide-store.md) — Work with stores

## Notes

A store can be read by every version from 1.4 on.

## See also

[tide-save](tide-save.md), [tide-list](tide-list.md), [tide-store](tide-store.md)
"##;
