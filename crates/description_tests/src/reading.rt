//! Descriptions that are read from TOML, with ample memory or with each growth refused in turn: budgets rise from
//! nothing, and each refuses the first growth that does not fit, until the call succeeds. Tables, names and what is
//! shown stand in other memory.
use crate::forms::{Form, made};
use description_toml::{DescriptionError, Faults, description_from_table};
use lasting_names::Names;
use linked_list_allocator::LocalHeap;
use std::alloc::{Allocator, Global};
use std::process::Abort;
use toml::Table;

/// A text, and what is shown of what it describes, or the fault of the text.
pub type Row<'a> = (&'a str, Form, &'a str);

fn table(rt: &impl Abort, out: Global, text: &str) -> Table {
    toml::table_from_str(out, text).ok().expect(rt, "a table")
}

// What is reported, one fault per line.
fn lines<A: Allocator>(rt: &impl Abort, out: Global, faults: &Faults<'_, A>) -> String {
    format!(in out; "{faults}").expect(rt, "a text")
}

// What is shown of the description that a table gives, or its fault. None where a growth of reading is refused.
fn said<A: Allocator + Copy>(
    rt: &impl Abort,
    out: Global,
    alloc: A,
    table: &Table,
    &(_, form, _): &Row<'_>,
) -> Option<String> {
    let mut names = Names::new(out);
    match description_from_table(alloc, &mut names, table) {
        Ok(app) => {
            let text = made(out, &app, form).expect(rt, "a text");
            drop(app);
            Some(text)
        }
        Err(DescriptionError::Content(faults)) => Some(lines(rt, out, &faults)),
        Err(DescriptionError::Memory(_)) => None,
    }
}

/// What is shown of the description that a text gives, or its fault.
pub fn told(rt: &impl Abort, out: Global, row: &Row<'_>) -> String {
    let table = table(rt, out, row.0);
    let told = said(rt, out, out, &table, row).expect(rt, "a text");
    drop(table);
    told
}

/// Whether this is shown of the description that a text gives, or is its fault.
pub fn says(rt: &impl Abort, out: Global, row: &Row<'_>) -> bool {
    let told = told(rt, out, row);
    let is_that = told.as_str() == row.2;
    drop(told);
    is_that
}

// What comes of a table on that much memory. None where a growth is refused.
fn told_on(
    rt: &impl Abort,
    out: Global,
    budget: usize,
    table: &Table,
    row: &Row<'_>,
) -> Option<String> {
    let heap = LocalHeap::new(out, budget).expect(rt, "a heap");
    let told = said(rt, out, &heap, table, row);
    drop(heap);
    told
}

// Whether the right thing comes of it. None where a growth is refused.
fn is_told_on(
    rt: &impl Abort,
    out: Global,
    budget: usize,
    table: &Table,
    row: &Row<'_>,
) -> Option<bool> {
    match told_on(rt, out, budget, table, row) {
        Some(text) => {
            let is_that = text.as_str() == row.2;
            drop(text);
            Some(is_that)
        }
        None => None,
    }
}

// Whether some budget is refused, and with the first that is not, the right thing comes of it.
fn is_told_with_more(rt: &impl Abort, out: Global, table: &Table, row: &Row<'_>) -> bool {
    for budget in 0..4096usize {
        if let Some(is_that) = is_told_on(rt, out, budget * 16, table, row) {
            return is_that && budget > 0;
        }
    }
    false
}

/// Whether the reading of a row's text takes memory, and with the first budget that is not refused, the right thing
/// comes of it.
pub fn is_read_with_more(rt: &impl Abort, out: Global, row: &Row<'_>) -> bool {
    let table = table(rt, out, row.0);
    let is_read = is_told_with_more(rt, out, &table, row);
    drop(table);
    is_read
}
