//! Entries inside values.
ghost use Rattle.std.specs.Prelude.{◌≡◌, ◌≤◌, ℕ, length, IfOk, IfSome};
ghost use Rattle.toml.specs.Parse as spec;
ghost use Rattle.keyed.specs.Steps.{EndsArray, EndsTable, IsRead, StandsInside};

use crate::entries::Entry;
use crate::step::Step;
use crate::values::{after_element, after_value, key_equals};
use std::alloc::Global;
use toml_parser::text::{first, skip, skip_blank};
use toml_parser::{ErrorKind, Key, ParseError};

/// How many steps of the path the parts of a key take: all where the key brings the path. None where the key leads
/// elsewhere.
pub fn taken_by_key(key: &Key, path: &[Step<'_>]) -> Option<usize>
    ensures { IfSome result (λ taken. taken ≤ length path.now) }
{
    let mut at = 0usize;
    for part in key.path.iter() {
        if at == path.len() {
            return Some(at);
        }
        if !is_key(path[at], part.as_str()) {
            return None;
        }
        at += 1;
    }
    if at == path.len() {
        return Some(at);
    }
    if is_key(path[at], key.last.as_str()) {
        Some(at + 1)
    } else {
        None
    }
}

/// Whether the step is to this key.
pub fn is_key(step: Step<'_>, name: &str) -> bool {
    match step {
        Step::Key(key) => key == name,
        Step::Index(_) => false,
    }
}

/// The entry inside the value that brings the path, which is not empty.
#[cycle(entry_in_value)]
pub fn entry_in_value<'s>(
    alloc: Global,
    s: &'s str,
    path: &[Step<'_>],
    depth: usize,
) -> Result<Option<Entry<'s>>, ParseError>
    ensures { IfOk result (λ found. IfSome found (λ e. IsRead (spec.val depth s.now) → StandsInside e)) }
{
    if depth == 0 {
        return Ok(None);
    }
    match path {
        [Step::Index(index), left @ ..] if first(s) == b'[' => {
            entry_in_array(alloc, skip(s, 1), *index, left, depth - 1)
        }
        [Step::Key(_), ..] if first(s) == b'{' => entry_in_table(
            alloc,
            skip(s, 1),
            path,
            depth - 1,
        ),
        _ => Ok(None),
    }
}

#[cycle(entry_in_value)]
fn entry_in_array<'s>(
    alloc: Global,
    s: &'s str,
    index: usize,
    left: &[Step<'_>],
    depth: usize,
) -> Result<Option<Entry<'s>>, ParseError>
    ensures { IfOk result (λ found. IfSome found (λ e. EndsArray (spec.val depth) s.now → StandsInside e)) }
{
    let mut rest = s;
    let mut before = 0usize;
    'items: loop {
        let start = skip_blank(rest, true);
        if first(start) == b']' {
            return Ok(None);
        }
        let following = after_value(alloc, start, depth)?;
        if before == index {
            if left.is_empty() {
                return Ok(Some(Entry::line(alloc, start, following).closed("]")?));
            }
            return closed(entry_in_value(alloc, start, left, depth)?, "]");
        }
        before = before.saturating_add(1);
        rest = after_element(following, b']', ErrorKind::Array)?;
    }
}

#[cycle(entry_in_value)]
fn entry_in_table<'s>(
    alloc: Global,
    s: &'s str,
    path: &[Step<'_>],
    depth: usize,
) -> Result<Option<Entry<'s>>, ParseError>
    ensures { IfOk result (λ found. IfSome found (λ e. EndsTable (spec.val depth) s.now → StandsInside e)) }
{
    let mut rest = s;
    'members: loop {
        let start = skip_blank(rest, true);
        if first(start) == b'}' {
            return Ok(None);
        }
        let (key, at_value) = key_equals(alloc, start)?;
        let following = after_value(alloc, at_value, depth)?;
        if let Some(taken) = taken_by_key(&key, path) {
            if taken == path.len() {
                return Ok(Some(Entry::line(alloc, start, following).closed("}")?));
            }
            return closed(entry_in_value(alloc, at_value, &path[taken..], depth)?, "}");
        }
        rest = after_element(following, b'}', ErrorKind::InlineTable)?;
    }
}

// The entry, with one more bracket around it.
fn closed<'s>(inner: Option<Entry<'s>>, bracket: &str) -> Result<Option<Entry<'s>>, ParseError>
    ensures { IfOk result (λ found. IfSome found (λ e. IfSome inner.entry StandsInside → StandsInside e)) }
{
    match inner {
        None => Ok(None),
        Some(entry) => Ok(Some(entry.closed(bracket)?)),
    }
}
