//! The entries of a document.
ghost use Rattle.std.specs.Prelude.{◌≡◌, ◌<◌, ◌≤◌, length, IfOk, IfSome, Some};
ghost use Rattle.toml_parser.specs.Reading.{Reads, Shortens, key_view};
ghost use Rattle.toml.specs.Data.{Members};
ghost use Rattle.toml.specs.Parse as spec;
ghost use Rattle.keyed.specs.Steps.{Ends, HasEntry, HasLine, HasValue, Stands};

use crate::inside::{entry_in_value, is_key, taken_by_key};
use crate::step::Step;
use crate::values::{after_value, key_equals};
use std::alloc::{AllocError, Global};
use toml_parser::text::{byte_at, first, skip, skip_blank, skip_ws};
use toml_parser::{ErrorKind, Key, ParseError, RECURSION_LIMIT, dotted_key};

/// An entry of a document: the text from it on and the text after it, and the brackets that close those that are open
/// where it stands.
#[derive(Drop)]
pub struct Entry<'t> {
    pub from: &'t str,
    pub following: &'t str,
    pub closing: String,
}

impl<'t> Entry<'t> {
    ghost use Rattle.std.specs.Prelude.{◌≡◌, ◌++◌, [], IfOk, string_bytes};

    /// An entry that stands in no bracket.
    pub fn line(alloc: Global, from: &'t str, following: &'t str) -> Entry<'t>
        ensures from { result.from.now ≡ from.now }
        ensures following { result.following.now ≡ following.now }
        ensures closing { string_bytes result.closing ≡ [] }
    {
        Entry {
            from,
            following,
            closing: String::new(alloc),
        }
    }

    /// The entry, with one more bracket around it.
    pub fn closed(self, bracket: &str) -> Result<Entry<'t>, AllocError>
        ensures from { IfOk result (λ e. e.from.now ≡ self.entry.from.now) }
        ensures following { IfOk result (λ e. e.following.now ≡ self.entry.following.now) }
        ensures closing { IfOk result (λ e. string_bytes e.closing ≡ string_bytes self.entry.closing ++ bracket.now) }
    {
        let Entry {
            from,
            following,
            mut closing,
        } = self;
        closing.push_str(bracket)?;
        Ok(Entry {
            from,
            following,
            closing,
        })
    }
}

// What stands at the front of a line.
#[derive(Drop)]
enum Line<'t> {
    Header { key: Key, is_array: bool },
    Pair { key: Key, value: &'t str },
}

/// The entry that seems to bring the path into the document of the text.
pub fn entry_of<'t>(
    alloc: Global,
    text: &'t str,
    path: &[Step<'_>],
) -> Result<Option<Entry<'t>>, ParseError>
    ensures { IfOk result (λ found. IfSome found (λ e. (members : Members)
        → spec.parse_document text.now ≡ Some members → Stands e)) }
{
    let mut seen = none_seen(alloc, path)?;
    let mut section = Some(0usize);
    let mut rest = skip_bom(text);
    'lines: loop {
        let start = skip_blank(rest, true);
        if start.is_empty() {
            return Ok(None);
        }
        let (line, following) = line_of(alloc, start)?;
        section = section_of(&line, section, path, &mut seen);
        let found = entry_in_line(alloc, start, following, &line, section, path)?;
        if found.is_some() {
            return Ok(found);
        }
        rest = following;
    }
}

// How many steps of the path lead to the table in which a line, or what follows it, stands. None where that is not on
// the path.
fn section_of(
    line: &Line<'_>,
    section: Option<usize>,
    path: &[Step<'_>],
    seen: &mut Vec<usize>,
) -> Option<usize>
    requires { IfSome section (λ taken. taken ≤ length path.now) }
    ensures { IfSome result (λ taken. taken ≤ length path.now) }
{
    match line {
        Line::Header { key, is_array } => taken_by_header(key, *is_array, path, seen),
        Line::Pair { .. } => section,
    }
}

// The entry of a line that brings the path, where that many steps of it lead to the table in which the line stands.
fn entry_in_line<'t>(
    alloc: Global,
    start: &'t str,
    following: &'t str,
    line: &Line<'t>,
    section: Option<usize>,
    path: &[Step<'_>],
) -> Result<Option<Entry<'t>>, ParseError>
    requires { IfSome section (λ taken. taken ≤ length path.now) }
    ensures { IfOk result (λ found. IfSome found (λ e. HasLine start.now following.now line.now → Stands e)) }
{
    let Some(taken) = section else {
        return Ok(None);
    };
    match line {
        Line::Header { .. } => {
            if taken == path.len() {
                Ok(Some(Entry::line(alloc, start, following)))
            } else {
                Ok(None)
            }
        }
        Line::Pair { key, value } => {
            entry_in_pair(alloc, start, following, key, *value, &path[taken..])
        }
    }
}

fn entry_in_pair<'t>(
    alloc: Global,
    start: &'t str,
    following: &'t str,
    key: &Key,
    value: &'t str,
    path: &[Step<'_>],
) -> Result<Option<Entry<'t>>, ParseError>
    ensures { IfOk result (λ found. IfSome found (λ e. HasEntry start.now following.now value.now → Stands e)) }
{
    let Some(taken) = taken_by_key(key, path) else {
        return Ok(None);
    };
    if taken == path.len() {
        return Ok(Some(Entry::line(alloc, start, following)));
    }
    entry_in_value(alloc, value, &path[taken..], RECURSION_LIMIT)
}

// How many elements of the array after each front of the path were seen.
fn none_seen(alloc: Global, path: &[Step<'_>]) -> Result<Vec<usize>, AllocError> {
    let mut seen = Vec::new(alloc);
    for _ in path {
        seen.push(0usize)?;
    }
    Ok(seen)
}

// How many steps of the path lead to the table of a header: all where the header brings the path. None where the table
// is not on the path.
fn taken_by_header(
    key: &Key,
    is_array: bool,
    path: &[Step<'_>],
    seen: &mut Vec<usize>,
) -> Option<usize>
    ensures { IfSome result (λ taken. taken ≤ length path.now) }
{
    let mut at = 0usize;
    for part in key.path.iter() {
        if at == path.len() {
            return Some(at);
        }
        at = after_part(part.as_str(), false, path, at, seen)?;
    }
    if at == path.len() {
        return Some(at);
    }
    after_part(key.last.as_str(), is_array, path, at, seen)
}

// Where the path continues after a part of a header: after the element that is the last one by now, where the part
// names an array of tables. None where the part is not on the path, or the path goes to another element.
fn after_part(
    part: &str,
    is_new: bool,
    path: &[Step<'_>],
    at: usize,
    seen: &mut Vec<usize>,
) -> Option<usize>
    requires { at < length path.now }
    ensures { IfSome result (λ taken. taken ≤ length path.now) }
{
    if !is_key(path[at], part) {
        return None;
    }
    let next = at + 1;
    let Some(Step::Index(index)) = path.get(next) else {
        return Some(next);
    };
    let count = seen.get_mut(next)?;
    if is_new {
        *count = count.saturating_add(1);
    }
    if *count == index.saturating_add(1) {
        Some(next + 1)
    } else {
        None
    }
}

fn skip_bom(s: &str) -> &str
    ensures rest { result.now ≡ spec.skip_bom s.now }
{
    if first(s) == 0xEF && byte_at(s, 1) == 0xBB && byte_at(s, 2) == 0xBF {
        &s[3..]
    } else {
        s
    }
}

// The front of a line, and what follows it.
fn line_of(alloc: Global, s: &str) -> Result<(Line<'_>, &str), ParseError>
    ensures end { IfOk result (λ r. Ends (spec.expression s.now) r.1.now) }
    ensures value { IfOk result (λ r. HasValue s.now r.0) }
    ensures shorter { IfOk result (λ r. length r.1.now < length s.now) }
{
    if first(s) != b'[' {
        let (key, value) = key_equals(alloc, s)?;
        let following = after_value(alloc, value, RECURSION_LIMIT)?;
        return Ok((Line::Pair { key, value }, following));
    }
    if byte_at(s, 1) != b'[' {
        let (key, rest) = header_key(alloc, skip(s, 1))?;
        let is_array = false;
        return Ok((Line::Header { key, is_array }, rest));
    }
    let (key, rest) = header_key(alloc, skip(s, 2))?;
    if first(rest) != b']' {
        return Err(ParseError::at(ErrorKind::UnclosedArrayTable, rest));
    }
    let is_array = true;
    Ok((Line::Header { key, is_array }, skip(rest, 1)))
}

// The key of a header and its first closing bracket.
fn header_key(alloc: Global, s: &str) -> Result<(Key, &str), ParseError>
    ensures value { Reads key_view result (spec.header_key s.now) }
    ensures shorter { Shortens s.now result }
{
    let (key, rest) = dotted_key(alloc, skip_ws(s))?;
    if first(rest) != b']' {
        return Err(ParseError::at(ErrorKind::UnclosedTable, rest));
    }
    Ok((key, skip(rest, 1)))
}
