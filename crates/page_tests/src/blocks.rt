//! Texts of a description, as blocks of a page: rows, and each growth refused in turn.
use crate::refusals::{BYTES, STEP, roomy, taken};
use crate::said::{Lines, Shown};
use bumpalo::Bump;
use description_texts::{blocks, first_paragraph, is_empty};
use page_model::{Block, Inline, Line};
use std::alloc::{AllocError, Global};
use std::process::Abort;

// A text, and its blocks.
type Row = (&'static str, &'static [Shown]);

const ROWS: &[Row] = &[
    ("", &[]),
    (" \n\t\n```\n```\n", &[]),
    (
        "Saves  folders\nto a `store`.\n\nOne `a` and\n two",
        &[
            Shown::Paragraph(&[&[
                Inline::Words("Saves folders to a "),
                Inline::Literal("store"),
                Inline::Words("."),
            ]]),
            Shown::Paragraph(&[
                &[
                    Inline::Words("One "),
                    Inline::Literal("a"),
                    Inline::Words(" and"),
                ],
                &[Inline::Words("two")],
            ]),
        ],
    ),
    (
        "```sh\n\ttide \n\n```\n    $ tide\n\n      -n\n",
        &[
            Shown::Code(&[" tide ", ""]),
            Shown::Code(&["$ tide", "", "  -n"]),
        ],
    ),
    (
        "- a\n   <http://b>c\n\n - ` d\te `\nf\n\n- `",
        &[Shown::List(&[
            &[
                Inline::Words("a "),
                Inline::Link("http://b"),
                Inline::Words("c"),
            ],
            &[Inline::Literal("d e"), Inline::Words(" f")],
            &[Inline::Words("`")],
        ])],
    ),
    (
        "é` ä `ö ` ` ``a`` <http://é>",
        &[Shown::Paragraph(&[&[
            Inline::Words("é"),
            Inline::Literal(" ä "),
            Inline::Words("ö ` ` ``a`` <http://é>"),
        ]])],
    ),
];

fn is_piece(piece: &Inline<'_>, want: &Inline<'_>) -> bool {
    match (piece, want) {
        (Inline::Words(text), Inline::Words(want))
        | (Inline::Literal(text), Inline::Literal(want))
        | (Inline::Link(text), Inline::Link(want)) => text == want,
        _ => false,
    }
}

fn is_line(line: &[Inline<'_>], want: &[Inline<'_>]) -> bool {
    line.len() == want.len()
        && line
            .iter()
            .zip(want)
            .all(|(piece, want)| is_piece(piece, want))
}

fn are_lines(lines: &[Line<'_, &Bump>], want: Lines) -> bool {
    lines.len() == want.len()
        && lines
            .iter()
            .zip(want)
            .all(|(line, want)| is_line(line.as_slice(), want))
}

fn is_item(item: &[Line<'_, &Bump>], want: &[Inline<'_>]) -> bool {
    match item {
        [line] => is_line(line.as_slice(), want),
        _ => false,
    }
}

fn is_block(block: &Block<'_, &Bump>, want: &Shown) -> bool {
    match (block, want) {
        (Block::Paragraph(lines), Shown::Paragraph(want)) => are_lines(lines.as_slice(), want),
        (Block::Code(lines), Shown::Code(want)) => lines.as_slice() == *want,
        (Block::List(items), Shown::List(want)) => {
            items.len() == want.len()
                && items
                    .as_slice()
                    .iter()
                    .zip(*want)
                    .all(|(item, want)| is_item(item.as_slice(), want))
        }
        _ => false,
    }
}

fn are_blocks(found: &[Block<'_, &Bump>], want: &[Shown]) -> bool {
    found.len() == want.len()
        && found
            .iter()
            .zip(want)
            .all(|(block, want)| is_block(block, want))
}

fn first_of(want: &[Shown]) -> Option<Lines> {
    want.iter().find_map(|shown| match shown {
        Shown::Paragraph(lines) => Some(*lines),
        Shown::Code(_) | Shown::List(_) => None,
    })
}

fn is_first(found: &[Block<'_, &Bump>], want: &[Shown]) -> bool {
    match (first_paragraph(found), first_of(want)) {
        (Some(lines), Some(want)) => are_lines(lines.as_slice(), want),
        (found, want) => found.is_none() && want.is_none(),
    }
}

fn is_read(rt: &impl Abort, out: Global, &(text, want): &Row) -> bool {
    let arena = Bump::new(out);
    let found = blocks(&arena, text).expect(rt, "blocks");
    are_blocks(found.as_slice(), want)
        && is_first(found.as_slice(), want)
        && is_empty(text) == want.is_empty()
}

#[test]
fn texts_are_cut_into_blocks(rt: HostRuntime) {
    for row in ROWS {
        assert!(rt; is_read(&rt, rt.alloc(), row), "{:?}", row.0);
    }
}

// Whether the blocks of a text are made in that much room. None where they differ.
fn is_made(rt: &impl Abort, out: Global, &(text, want): &Row, room: usize) -> Option<bool> {
    let arena = roomy(rt, out);
    let _rest = taken(rt, &arena, room);
    match blocks(&arena, text) {
        Ok(found) => are_blocks(found.as_slice(), want).then_some(true),
        Err(AllocError) => Some(false),
    }
}

// How many rooms are too small for the blocks of a text.
fn refusals(rt: &impl Abort, out: Global, row: &Row) -> Option<usize> {
    for step in 0..BYTES / STEP {
        if is_made(rt, out, row, step.saturating_mul(STEP))? {
            return Some(step);
        }
    }
    None
}

#[test]
fn refused_blocks_are_made_with_more(rt: HostRuntime) {
    for row in ROWS {
        let refused = refusals(&rt, rt.alloc(), row);
        assert!(rt;
            refused.is_some_and(|step| step > 0),
            "{:?} {refused:?}",
            row.0
        );
    }
}
