//! The page in markdown of a command, with code and a list in it.
use crate::said::{Item, Said, Shown};
use page_model::Inline::{Literal, Page, Value, Words};

pub const SAID: &[Said] = &[
    Said::Block(Shown::Paragraph(&[&[Words("Saves folders as a new snapshot.")]])),
    Said::Block(Shown::Paragraph(&[&[Words("What is left out:")]])),
    Said::Block(Shown::List(&[
        &[Words("what "), Literal("--exclude"), Words(" names;")],
        &[Words(
            "sockets, devices, and whatever else holds no bytes of its own, even where a folder of them is named.",
        )],
    ])),
    Said::Usage(
        "tide save",
        &[
            &[
                Words("["),
                Literal("-x"),
                Words(" "),
                Value("PATTERN"),
                Words("]..."),
            ],
            &[
                Words("["),
                Literal("-n"),
                Words(" "),
                Value("COUNT"),
                Words("]"),
            ],
            &[
                Words("["),
                Literal("--fast"),
                Words(" | "),
                Literal("--thorough"),
                Words("]"),
            ],
            &[Value("FOLDER"), Words("...")],
        ],
    ),
    Said::Section("Arguments"),
    Said::Entries(&[Item(
        &[&[Value("FOLDER")]],
        &[Shown::Paragraph(&[&[Words("What to save")]])],
    )]),
    Said::Section("Options"),
    Said::Entries(&[
        Item(
            &[
                &[Literal("-x")],
                &[Literal("--exclude"), Words("="), Value("PATTERN")],
            ],
            &[
                Shown::Paragraph(&[&[Words("Leave out what this pattern names.")]]),
                Shown::Paragraph(&[&[
                    Words("In a pattern "),
                    Literal("*"),
                    Words(" stands for any characters but "),
                    Literal("/"),
                    Words(", as in"),
                ]]),
                Shown::Code(&["*.o", "cache/*/tmp"]),
            ],
        ),
        Item(
            &[&[Literal("-n"), Words(" "), Value("COUNT")]],
            &[Shown::Paragraph(&[&[Words("Keep so many snapshots, and drop older ones")]])],
        ),
        Item(
            &[&[Literal("--fast")]],
            &[Shown::Paragraph(&[&[Words("Read only files whose time or size has changed")]])],
        ),
        Item(
            &[&[Literal("--thorough")]],
            &[Shown::Paragraph(&[&[Words("Read each file")]])],
        ),
        Item(
            &[&[Literal("-h")], &[Literal("--help")]],
            &[Shown::Paragraph(&[&[Words("Print this page")]])],
        ),
    ]),
    Said::Section("Examples"),
    Said::Block(Shown::Paragraph(&[&[Words("Save two folders, without objects:")]])),
    Said::Block(Shown::Code(&["$ tide save -x '*.o' src doc", "saved 1,204 files"])),
    Said::Block(Shown::Paragraph(&[&[
        Words("Each night at three, by "),
        Literal("crontab(5)"),
        Words(":"),
    ]])),
    Said::Block(Shown::Code(&["0 3 * * * tide save --fast /home"])),
    Said::Section("Exit status"),
    Said::Block(Shown::List(&[
        &[Literal("0"), Words(": all was saved.")],
        &[Literal("1"), Words(": some files could not be read.")],
    ])),
    Said::Section("See also"),
    Said::Block(Shown::Paragraph(&[&[Page("tide")]])),
];

pub const WRITTEN: &str = r##"# tide save

Saves folders as a new snapshot.

What is left out:

- what `--exclude` names;
- sockets, devices, and whatever else holds no bytes of its own, even where a folder of them is named.

```
tide save [-x PATTERN]... [-n COUNT] [--fast | --thorough] FOLDER...
```

## Arguments

- `FOLDER` — What to save

## Options

- `-x`, `--exclude=PATTERN` — Leave out what this pattern names.

  In a pattern `*` stands for any characters but `/`, as in

  ```
  *.o
  cache/*/tmp
  ```

- `-n COUNT` — Keep so many snapshots, and drop older ones

- `--fast` — Read only files whose time or size has changed

- `--thorough` — Read each file

- `-h`, `--help` — Print this page

## Examples

Save two folders, without objects:

```
$ tide save -x '*.o' src doc
saved 1,204 files
```

Each night at three, by `crontab(5)`:

```
0 3 * * * tide save --fast /home
```

## Exit status

- `0`: all was saved.
- `1`: some files could not be read.

## See also

[tide](tide.md)
"##;
