//! How lines show names of files and of folders.

use description_toml::words::{Quoted, Shown};
use std::fmt;
use std::fmt::Display;

// How many bytes are shown at most, escapes not counted.
const MOST: usize = 200;

/// The name of a file or a folder, at the front of a line too: as `Shown` has it; in quotes, where a program that reads
/// the lines of a run takes what begins so for a word to itself; and of more than 200 bytes the last ones, with `..`
/// before them.
#[derive(Clone, Copy)]
pub struct Echoed<'w>(pub &'w str);

impl Display for Echoed<'_> {
    fn fmt<W: fmt::Write>(&self, f: &mut fmt::Formatter<W>) -> fmt::Result {
        let Echoed(words) = self;
        match end(words) {
            Some(end) => write!(f, "..{}", Shown(end)),
            None if is_for_a_reader_of_lines(words) => write!(f, "{}", Quoted(words)),
            None => write!(f, "{}", Shown(words)),
        }
    }
}

// The last bytes of what has more of them, from the front of a character on.
fn end(words: &str) -> Option<&str> {
    let over = words.len().checked_sub(MOST)?;
    if over == 0 {
        return None;
    }
    for start in over..words.len() {
        if let Some((_, end)) = words.split_at_checked(start) {
            return Some(end);
        }
    }
    None
}

// Programs that run others for a repository do as their lines say that begin so. After a name stands a colon.
fn is_for_a_reader_of_lines(words: &str) -> bool {
    let words = words.trim_start();
    words.starts_with("::") || words.starts_with("##") || words == ":"
}
