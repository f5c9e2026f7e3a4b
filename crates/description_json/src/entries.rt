//! The walk to the entry that a path leads to.

use json::{Reader, Scratch, Token};
use keyed::Step;
use std::alloc::{AllocError, Global};
use toml_parser::RECURSION_LIMIT;

/// What may stand between two entries: white space, and a comma.
pub const GAP: [char; 5] = [' ', '\t', '\n', '\r', ','];

/// An entry of a text: the text before it, the entry, and the brackets that close those that are open where it stands.
#[derive(Drop)]
pub struct Entry<'t> {
    pub front: &'t str,
    pub entry: &'t str,
    pub closing: String,
}

/// The entry that seems to bring the path into the text.
pub fn entry_of<'t>(
    alloc: Global,
    text: &'t str,
    path: &[Step<'_>],
) -> Result<Option<Entry<'t>>, AllocError> {
    let Some((start, end)) = bounds(alloc, text, path)? else {
        return Ok(None);
    };
    let closing = closing_of(alloc, path)?;
    match between(text, start, end) {
        Some((front, entry)) => Ok(Some(Entry {
            front,
            entry,
            closing,
        })),
        None => Ok(None),
    }
}

// The text before the entry that stands between these places, and the entry, without the gap after it.
fn between(text: &str, start: usize, end: usize) -> Option<(&str, &str)> {
    let (through, _) = text.split_at_checked(end)?;
    let (front, entry) = through.split_at_checked(start)?;
    Some((front, entry.trim_end_matches(GAP)))
}

// The brackets that close those that the path opens, the innermost first.
fn closing_of(alloc: Global, path: &[Step<'_>]) -> Result<String, AllocError> {
    let mut closing = String::new(alloc);
    for step in path.iter().rev() {
        closing.push(match step {
            Step::Key(_) => '}',
            Step::Index(_) => ']',
        })?;
    }
    Ok(closing)
}

// Where the entry begins that the path leads to, and where the next token after it stands.
fn bounds(
    alloc: Global,
    text: &str,
    path: &[Step<'_>],
) -> Result<Option<(usize, usize)>, AllocError> {
    let mut scratch = Scratch::new(alloc);
    let mut reader = Reader::new(text, &mut scratch)?;
    let mut start = 0;
    for step in path {
        match enter(&mut reader, *step) {
            Some(place) => start = place,
            None => return Ok(None),
        }
    }
    match reader.skip_value(RECURSION_LIMIT) {
        Ok(()) => Ok(Some((start, reader.offset()))),
        Err(_) => Ok(None),
    }
}

// Goes to the value that the step leads to, and returns where its entry begins.
fn enter(reader: &mut Reader<'_>, step: Step<'_>) -> Option<usize> {
    match (reader.next()?, step) {
        (Token::BeginObject, Step::Key(key)) => find_key(reader, key),
        (Token::BeginArray, Step::Index(index)) => find_element(reader, index),
        _ => None,
    }
}

fn find_key(reader: &mut Reader<'_>, key: &str) -> Option<usize> {
    let mut start = reader.offset();
    while let Ok(Some(name)) = reader.next_key() {
        if name == key {
            return Some(start);
        }
        reader.skip_value(RECURSION_LIMIT).ok()?;
        start = reader.offset();
    }
    None
}

fn find_element(reader: &mut Reader<'_>, index: usize) -> Option<usize> {
    for _ in 0..index {
        if reader.take_end_array() {
            return None;
        }
        reader.skip_value(RECURSION_LIMIT).ok()?;
    }
    if reader.take_end_array() {
        None
    } else {
        Some(reader.offset())
    }
}
