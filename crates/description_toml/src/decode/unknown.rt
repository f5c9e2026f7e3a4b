//! What is said of keys and hints that are not known.
use crate::words::{Brief, nearest};
use std::alloc::{AllocError, Allocator};
use std::fmt;
use std::fmt::Display;

// Keys that other formats have for what a key here says, and the keys that say it; the first that a table has counts.
const OTHER_KEYS: [(&str, &[&str]); 20] = [
    ("alias", &["aliases"]),
    ("arg", &["positional", "value"]),
    ("args", &["positional", "value"]),
    ("argument", &["positional", "value"]),
    ("arguments", &["positional", "value"]),
    ("choices", &["values"]),
    ("count", &["repeated"]),
    ("description", &["about", "help"]),
    ("epilog", &["footer"]),
    ("flags", &["syntax", "option"]),
    ("metavar", &["value"]),
    ("multiple", &["repeated"]),
    ("name", &["long", "value", "title"]),
    ("negatable", &["syntax"]),
    ("optional_value", &["syntax"]),
    ("subcommand", &["command"]),
    ("subcommands", &["command"]),
    ("summary", &["about", "help"]),
    ("value_hint", &["hint"]),
    ("version", &["vendor"]),
];

// The words of the key `hint`.
const HINTS: [&str; 5] = ["file", "folder", "none", "user", "host"];

// Words that others have for what a hint here says.
const OTHER_HINTS: [(&str, &str); 6] = [
    ("dir", "folder"),
    ("directory", "folder"),
    ("hostname", "host"),
    ("nothing", "none"),
    ("path", "file"),
    ("username", "user"),
];

// The keys of the top that are not tables, except the title, which is more likely meant for the table, as for a group.
const TOP_KEYS: [&str; 10] = [
    "name",
    "section",
    "date",
    "vendor",
    "language",
    "about",
    "header",
    "footer",
    "usage",
    "command_required",
];

const BEFORE_TABLES: &str = "a key of the top stands before the first table";

/// The table in which a key is not known.
#[derive(Clone, Copy, PartialEq, Eq)]
pub enum Table {
    Top,
    Below,
    /// One below a top that has no name.
    BelowNoName,
}

/// Which word may be meant by one that is not known.
#[derive(Clone, Copy)]
enum Meant {
    /// One that says this.
    Other(&'static str),
    /// One with a similar spelling.
    Near(&'static str),
    /// One that says this, or one of the top.
    OtherOrTop(&'static str),
    /// One of the top.
    Top,
    /// Any of these.
    Any(&'static [&'static str]),
}

fn is_in(key: &str, keys: &[&str]) -> bool {
    keys.iter().any(|known| *known == key)
}

fn other_key(key: &str, known: &'static [&'static str]) -> Option<&'static str> {
    for (other, keys) in &OTHER_KEYS {
        if *other == key {
            return first_in(*keys, known);
        }
    }
    None
}

fn first_in(keys: &[&'static str], known: &[&str]) -> Option<&'static str> {
    for key in keys {
        if is_in(*key, known) {
            return Some(*key);
        }
    }
    None
}

fn meaning_of<A: Allocator + Copy>(
    alloc: A,
    key: &str,
    known: &'static [&'static str],
    table: Table,
) -> Result<Meant, AllocError> {
    match other_key(key, known) {
        Some(other) if table == Table::BelowNoName && key == "name" => {
            return Ok(Meant::OtherOrTop(other));
        }
        Some(other) => return Ok(Meant::Other(other)),
        None => {}
    }
    if let Some(near) = nearest(alloc, key, known)? {
        return Ok(Meant::Near(near));
    }
    if table != Table::Top && is_in(key, &TOP_KEYS) {
        return Ok(Meant::Top);
    }
    Ok(Meant::Any(known))
}

fn other_hint(word: &str) -> Option<&'static str> {
    for (other, hint) in &OTHER_HINTS {
        if *other == word {
            return Some(*hint);
        }
    }
    None
}

fn hint_meant<A: Allocator + Copy>(alloc: A, word: &str) -> Result<Meant, AllocError> {
    if let Some(hint) = other_hint(word) {
        return Ok(Meant::Other(hint));
    }
    match nearest(alloc, word, &HINTS)? {
        Some(near) => Ok(Meant::Near(near)),
        None => Ok(Meant::Any(&HINTS)),
    }
}

/// A key or a hint that is not known, with what may be meant.
#[derive(Clone, Copy)]
pub struct Unknown<'k> {
    what: &'static str,
    word: &'k str,
    meant: Meant,
}

impl<'k> Unknown<'k> {
    /// A key of a table that has these keys. `AllocError` where an allocation failed.
    pub fn key<A: Allocator + Copy>(
        alloc: A,
        key: &'k str,
        known: &'static [&'static str],
        table: Table,
    ) -> Result<Unknown<'k>, AllocError> {
        let meant = meaning_of(alloc, key, known, table)?;
        Ok(Unknown {
            what: "key",
            word: key,
            meant,
        })
    }

    /// A word that is not one of those of the key `hint`. `AllocError` where an allocation failed.
    pub fn hint<A: Allocator + Copy>(alloc: A, word: &'k str) -> Result<Unknown<'k>, AllocError> {
        let meant = hint_meant(alloc, word)?;
        Ok(Unknown {
            what: "hint",
            word,
            meant,
        })
    }
}

impl Display for Unknown<'_> {
    fn fmt<W: fmt::Write>(&self, f: &mut fmt::Formatter<W>) -> fmt::Result {
        write!(f, "no {} {} is known here; ", self.what, Brief(self.word))?;
        match self.meant {
            Meant::Other(other) => write!(f, "it is called {other}"),
            Meant::OtherOrTop(other) => write!(f, "it is called {other}; {BEFORE_TABLES}"),
            Meant::Near(near) => write!(f, "is it {near}?"),
            Meant::Top => f.write_str(BEFORE_TABLES),
            Meant::Any(known) => write!(f, "{}s are {}", self.what, Listed(known)),
        }
    }
}

// Words, with commas between them and `and` before the last.
#[derive(Clone, Copy)]
struct Listed(&'static [&'static str]);

impl Display for Listed {
    fn fmt<W: fmt::Write>(&self, f: &mut fmt::Formatter<W>) -> fmt::Result {
        let Listed(words) = self;
        let mut left = words.len();
        for word in words.iter() {
            f.write_str(*word)?;
            left = left.saturating_sub(1);
            match left {
                0 => {}
                1 => f.write_str(" and ")?,
                _ => f.write_str(", ")?,
            }
        }
        Ok(())
    }
}
