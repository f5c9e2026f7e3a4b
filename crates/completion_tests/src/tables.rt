//! The tables of rows with ample memory, each with what it shows: texts that scripts have, and texts that they lack.
use crate::reading::{Row, is_left_out, is_written};
use crate::rows;

type Table = (&'static str, &'static [Row<'static>]);

const TABLES: &[Table] = &[
    ("options have their names and values", rows::OPTIONS),
    (
        "a syntax tells names and how a value is given",
        rows::SYNTAXES,
    ),
    ("what takes the place of another is told", rows::CHOICES),
    ("positional values stand in order", rows::PLACES),
    ("commands have their levels", rows::COMMANDS),
    ("helps are first paragraphs", rows::HELPS),
    ("texts stand in quotes", rows::QUOTES),
    (
        "what a script defines is named after its program",
        rows::NAMES,
    ),
];

#[test]
fn scripts_are_written(rt: HostRuntime) {
    for &(name, rows) in TABLES {
        for row in rows {
            assert!(rt; is_written(&rt, rt.alloc(), row), "{name}: {}", row.0);
        }
    }
}

const LEFT_OUT: &[Table] = &[
    ("what is hidden stands nowhere", rows::HIDDEN),
    ("no word of the data is evaluated", rows::EVALUATION),
];

#[test]
fn scripts_hold_nothing_else(rt: HostRuntime) {
    for &(name, rows) in LEFT_OUT {
        for row in rows {
            assert!(rt; is_left_out(&rt, rt.alloc(), row), "{name}: {}", row.2);
        }
    }
}
