//! The tables of rows with ample memory, each with what it shows. A table of faults is one text.
use crate::forms::Form;
use crate::reading::{Row, says, told};
use crate::{faults, keys, syntaxes};
use std::alloc::Global;
use std::process::Abort;

type Table = (&'static str, &'static [Row<'static>]);

fn check(rt: &impl Abort, out: Global, name: &str, rows: &[Row<'_>]) {
    for row in rows {
        assert!(rt; says(rt, out, row), "{name}: {}", row.2);
    }
}

const KEYS: &[Table] = &[
    ("texts of a level are read", keys::LEVEL_ROWS),
    ("options are read", keys::OPTION_ROWS),
    ("values are read", keys::VALUE_ROWS),
    ("commands are read", keys::COMMAND_ROWS),
    ("fixed words are read", keys::WORDS_ROWS),
];

#[test]
fn keys_are_read(rt: HostRuntime) {
    for &(name, rows) in KEYS {
        check(&rt, rt.alloc(), name, rows);
    }
}

// The rows of a table of faults follow one head, with an empty line between them. A row is a text, and after `=> ` its
// fault, or `read`.
type Faults = (&'static str, &'static str, &'static str);

const NAME: &str = "name = 'a'\n";

fn is_told(rt: &impl Abort, out: Global, head: &str, row: &str) -> bool {
    let (text, want) = row.split_once("=> ").expect(rt, "what is told");
    let whole = format!(in out; "{head}{text}").expect(rt, "a text");
    let told = told(rt, out, &(whole.as_str(), Form::Read, want));
    drop(whole);
    let is_that = told.as_str().trim_end() == want;
    drop(told);
    is_that
}

fn check_faults(rt: &impl Abort, out: Global, name: &str, head: &str, rows: &str) {
    for row in rows.trim().split("\n\n") {
        assert!(rt; is_told(rt, out, head, row), "{name}: {row}");
    }
}

// There are two tables, since the check of one function can hold no more text.
const FAULTS_OF_TEXTS: &[Faults] = &[
    ("texts hold lines alone", "", faults::TEXTS),
    ("words stand on one line", "", faults::LINES),
    ("topics say what they lack", "", faults::TOPICS),
    ("sections of the manual", NAME, faults::SECTIONS),
    ("names say why they are none", "", faults::NAMES),
    ("words of commands are taken once", "", faults::TAKEN),
    ("names of a syntax are taken once", NAME, syntaxes::TAKEN),
    ("what is no syntax is told", NAME, syntaxes::FAULTS),
    ("fixed words are titles", NAME, faults::WORDS),
];

const FAULTS_OF_KEYS: &[Faults] = &[
    ("keys that are near are named", NAME, faults::KEYS),
    ("what is said stands where it may", NAME, faults::SAID),
    ("what is meant is said", NAME, faults::MEANT),
    ("each fault is told", "", faults::SEVERAL),
];

#[test]
fn faults_of_texts_are_told(rt: HostRuntime) {
    for &(name, head, rows) in FAULTS_OF_TEXTS {
        check_faults(&rt, rt.alloc(), name, head, rows);
    }
}

#[test]
fn faults_of_keys_are_told(rt: HostRuntime) {
    for &(name, head, rows) in FAULTS_OF_KEYS {
        check_faults(&rt, rt.alloc(), name, head, rows);
    }
}
