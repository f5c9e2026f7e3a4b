//! Entries: terms, and what is said of them in a common column.

ghost use Rattle.std.specs.Prelude.{◌≡◌, ◌≤◌, ◌++◌, ◌-◌, false, flat_map, map, max, IfOk, OnOk, string_bytes};
ghost use Rattle.bpaf_doc.specs.Splitter.Chunks.{columns};
ghost use Rattle.page_model.specs.View.{entry_of, line_of};
ghost use Rattle.console_page.specs.Entries.{entries_text, entry_text, first_line, further_term, gap, has_several};
ghost use Rattle.console_page.specs.Lines.{blanks};
ghost use Rattle.console_page.specs.Entries.{hung, is_beside, narrow, term_text, terms_front, terms_text, widest_of};

use crate::blocks::push_blocks;
use crate::lines::{columns_of, parting, push_blanks, push_prefixed};
use crate::texts::push_line;
use page_model::{Block, Entry, Line};
use std::alloc::{AllocError, Allocator};

fn push_further_terms<A: Allocator, B: Allocator>(
    out: &mut String<A>,
    terms: &[Line<'_, B>],
) -> Result<(), AllocError>
    ensures { OnOk result (string_bytes out.new ≡ string_bytes out.old
        ++ flat_map further_term (map (λ term. line_of term.items) terms.now)) }
{
    for term in terms {
        out.push_str(", ")?;
        push_line(out, term.as_slice())?;
    }
    Ok(())
}

fn push_terms<A: Allocator, B: Allocator>(
    out: &mut String<A>,
    terms: &[Line<'_, B>],
) -> Result<(), AllocError>
    ensures { OnOk result (string_bytes out.new
        ≡ string_bytes out.old ++ terms_text (map (λ term. line_of term.items) terms.now)) }
{
    let Some((first, rest)) = terms.split_first() else {
        return Ok(());
    };
    push_line(out, first.as_slice())?;
    push_further_terms(out, rest)
}

fn terms_front(terms: &str) -> &'static str
    ensures { result.now ≡ terms_front terms.now }
{
    match terms.as_bytes() {
        [b'-', b'-', ..] => "    ",
        _ => "",
    }
}

fn push_term_text<A: Allocator + Copy, B: Allocator>(
    out: &mut String<A>,
    alloc: A,
    entry: &Entry<'_, B>,
) -> Result<(), AllocError>
    ensures { OnOk result (string_bytes out.new ≡ string_bytes out.old ++ term_text (entry_of entry.now)) }
{
    let mut terms = String::new(alloc);
    push_terms(&mut terms, entry.terms.as_slice())?;
    out.push_str(terms_front(terms.as_str()))?;
    out.push_str(terms.as_str())
}

fn narrow(columns: usize) -> usize
    ensures value { result ≡ narrow columns }
    ensures bound { result ≤ 24 }
{
    if columns <= 24 { columns } else { 0 }
}

fn narrow_columns<A: Allocator + Copy, B: Allocator>(
    alloc: A,
    entry: &Entry<'_, B>,
) -> Result<usize, AllocError>
    ensures value { IfOk result (λ found. found ≡ narrow (columns (term_text (entry_of entry.now)))) }
    ensures bound { IfOk result (λ found. found ≤ 24) }
{
    let mut term = String::new(alloc);
    push_term_text(&mut term, alloc, entry)?;
    Ok(narrow(columns_of(term.as_str())))
}

/// The columns of the widest term of up to 24 columns, of these entries and of those before.
pub fn widest_of<A: Allocator + Copy, B: Allocator>(
    alloc: A,
    before: usize,
    entries: &[Entry<'_, B>],
) -> Result<usize, AllocError>
    requires { before ≤ 24 }
    ensures value { IfOk result (λ widest. widest ≡ widest_of before (map entry_of entries.now)) }
    ensures bound { IfOk result (λ widest. widest ≤ 24) }
{
    let mut widest = before;
    for entry in entries {
        widest = widest.max(narrow_columns(alloc, entry)?);
    }
    Ok(widest)
}

fn first_line(text: &str) -> &str
    ensures { result.now ≡ first_line text.now }
{
    match text.split_once('\n') {
        Some((line, _)) => line,
        None => text,
    }
}

fn is_beside(width: usize, column: usize, term: &str, help: &str) -> bool
    ensures { result ≡ is_beside width column term.now help.now }
{
    let first = first_line(help);
    let taken = columns_of(term);
    !first.is_empty()
        && (column.saturating_sub(taken) >= 2
            || columns_of(first) <= width.saturating_sub(taken).saturating_sub(2))
}

fn push_gap<A: Allocator>(term: &mut String<A>, column: usize) -> Result<(), AllocError>
    ensures { OnOk result (string_bytes term.new
        ≡ string_bytes term.old ++ gap column (string_bytes term.old)) }
{
    let taken = columns_of(term.as_str());
    push_blanks(term, column.saturating_sub(taken).max(2))
}

// A term, and what is said beside it or below it, after the margin of the column.
fn push_hung<A: Allocator>(
    out: &mut String<A>,
    width: usize,
    column: usize,
    margin: &str,
    mut term: String<A>,
    help: &str,
) -> Result<(), AllocError>
    requires { margin.now ≡ blanks column }
    ensures { OnOk result (string_bytes out.new
        ≡ string_bytes out.old ++ hung width column (string_bytes term) help.now) }
{
    if is_beside(width, column, term.as_str(), help) {
        push_gap(&mut term, column)?;
        return push_prefixed(out, help, term.as_str(), margin);
    }
    out.push_str(term.as_str())?;
    out.push_str("\n")?;
    push_prefixed(out, help, margin, margin)
}

fn push_entry<A: Allocator + Copy, B: Allocator>(
    out: &mut String<A>,
    alloc: A,
    width: usize,
    column: usize,
    margin: &str,
    entry: &Entry<'_, B>,
) -> Result<(), AllocError>
    requires { margin.now ≡ blanks column }
    ensures { OnOk result (string_bytes out.new
        ≡ string_bytes out.old ++ entry_text width column (entry_of entry.now)) }
{
    let mut term = String::from_str(alloc, "    ")?;
    push_term_text(&mut term, alloc, entry)?;
    let mut help = String::new(alloc);
    push_blocks(
        &mut help,
        alloc,
        entry.body.as_slice(),
        width.saturating_sub(column),
    )?;
    push_hung(out, width, column, margin, term, help.as_str())
}

fn has_several<B: Allocator>(blocks: &[Block<'_, B>]) -> bool
    ensures { result ≡ has_several blocks.now }
{
    blocks.len() > 1
}

// Writes entries, with what is said of them after the margin of this column.
fn push_all<A: Allocator + Copy, B: Allocator>(
    out: &mut String<A>,
    alloc: A,
    width: usize,
    column: usize,
    margin: &str,
    entries: &[Entry<'_, B>],
) -> Result<(), AllocError>
    requires { margin.now ≡ blanks column }
    ensures { OnOk result (string_bytes out.new
        ≡ string_bytes out.old ++ entries_text width column false (map entry_of entries.now)) }
{
    let mut is_parted = false;
    for entry in entries {
        out.push_str(parting(is_parted))?;
        push_entry(out, alloc, width, column, margin, entry)?;
        is_parted = has_several(entry.body.as_slice());
    }
    Ok(())
}

/// Writes entries, with what is said of them in this column.
pub fn push_entries<A: Allocator + Copy, B: Allocator>(
    out: &mut String<A>,
    alloc: A,
    width: usize,
    column: usize,
    entries: &[Entry<'_, B>],
) -> Result<(), AllocError>
    ensures { OnOk result (string_bytes out.new
        ≡ string_bytes out.old ++ entries_text width column false (map entry_of entries.now)) }
{
    let mut margin = String::new(alloc);
    push_blanks(&mut margin, column)?;
    push_all(out, alloc, width, column, margin.as_str(), entries)
}
