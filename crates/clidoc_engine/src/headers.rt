//! Headers of tables in a text that is not TOML.

use description_toml::words::Brief;
use std::fmt;
use std::fmt::Display;

/// A header of a table, or of one more table of an array.
#[derive(Clone, Copy)]
pub struct Header<'t> {
    key: &'t str,
    is_of_array: bool,
}

impl Display for Header<'_> {
    fn fmt<W: fmt::Write>(&self, f: &mut fmt::Formatter<W>) -> fmt::Result {
        let key = Brief(self.key);
        if self.is_of_array {
            write!(f, "[[{key}]]")
        } else {
            write!(f, "[{key}]")
        }
    }
}

/// The header of an array that stands after this place of the text, and the first before that place whose table is in
/// one of that array. None where there are no such two.
pub fn late_header(text: &str, place: usize) -> Option<(Header<'_>, Header<'_>)> {
    let (before, after) = text.split_at_checked(place)?;
    let late = header_in(after.lines().next()?)?;
    for line in before.lines() {
        if let Some(other) = header_in(line) {
            if late.is_of_array && is_below(late.key, other.key) {
                return Some((late, other));
            }
        }
    }
    None
}

fn header_in(line: &str) -> Option<Header<'_>> {
    let opened = line.trim_start().strip_prefix('[')?;
    let is_of_array = opened.starts_with('[');
    let opened = opened.strip_prefix('[').unwrap_or(opened);
    let (key, _) = opened.split_once(']')?;
    Some(Header {
        key: key.trim(),
        is_of_array,
    })
}

// Whether the other key is that of something in the table with the key.
fn is_below(key: &str, other: &str) -> bool {
    match other.strip_prefix(key) {
        Some(rest) => rest.trim_start().starts_with('.'),
        None => false,
    }
}
