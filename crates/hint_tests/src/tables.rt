//! The tables of rows with ample memory, each with what it shows.
use crate::reading::{Row, is_said};
use crate::rows;

type Table = (&'static str, &'static [Row<'static>]);

const TEXTS: &[Table] = &[
    ("what is not said is told", rows::NOTHING_SAID),
    ("a summary is one short sentence", rows::SUMMARIES),
    ("links without https are told", rows::LINKS),
    ("literals that are no option are told", rows::LITERALS),
    ("a usage names options of its level", rows::USAGES),
    ("an option of a usage is short", rows::WIDTHS),
];

const NAMES: &[Table] = &[
    ("options of one name have one help", rows::HELPS),
    ("names of help options are told", rows::HELP_NAMES),
    ("marks that pages set are told", rows::MARKS),
    ("a default is one of the values", rows::DEFAULTS),
    ("files may have the names of pages", rows::FILES),
    ("what is shown is short and seen", rows::SHOWN),
    ("hints have their ways, in order", rows::WAYS),
];

#[test]
fn hints_of_texts_are_found(rt: HostRuntime) {
    for &(name, rows) in TEXTS {
        for row in rows {
            assert!(rt; is_said(&rt, rt.alloc(), row), "{name}: {}", row.0);
        }
    }
}

#[test]
fn hints_of_names_are_found(rt: HostRuntime) {
    for &(name, rows) in NAMES {
        for row in rows {
            assert!(rt; is_said(&rt, rt.alloc(), row), "{name}: {}", row.0);
        }
    }
}
