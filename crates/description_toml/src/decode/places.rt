//! Where a table stands, as a path and in words.
use crate::words::Brief;
use keyed::Step;
use std::alloc::{AllocError, Allocator};
use std::fmt;
use std::fmt::Display;
use toml::Value;

/// One table in another.
#[derive(Clone, Copy)]
pub enum Place<'a> {
    /// The only one at its key.
    Only(&'a str),
    /// One of the array at its key, counted from 0.
    Item {
        kind: &'a str,
        items: &'a [Value],
        index: usize,
    },
}

impl<'a> Place<'a> {
    /// The key at which it stands.
    pub fn kind(&self) -> &'a str {
        match self {
            Place::Only(kind) => *kind,
            Place::Item { kind, .. } => *kind,
        }
    }

    /// The next one of its array.
    pub fn next(self) -> Place<'a> {
        match self {
            Place::Only(_) => self,
            Place::Item { kind, items, index } => Place::Item {
                kind,
                items,
                index: index.saturating_add(1),
            },
        }
    }

    fn put_steps<A: Allocator>(&self, path: &mut Vec<Step<'a>, A>) -> Result<(), AllocError> {
        path.push(Step::Key(self.kind()))?;
        if let Place::Item { index, .. } = self {
            path.push(Step::Index(*index))?;
        }
        Ok(())
    }
}

/// The path to the table at the end of the places.
pub fn path_through<'a, A: Allocator>(
    alloc: A,
    places: &[Place<'a>],
) -> Result<Vec<Step<'a>, A>, AllocError> {
    let mut path = Vec::new(alloc);
    for place in places {
        place.put_steps(&mut path)?;
    }
    Ok(path)
}

impl Display for Place<'_> {
    fn fmt<W: fmt::Write>(&self, f: &mut fmt::Formatter<W>) -> fmt::Result {
        match self {
            Place::Only(kind) => f.write_str(*kind),
            Place::Item { kind, items, index } => {
                write!(f, "{kind} {}", index.saturating_add(1))?;
                match items.get(*index) {
                    Some(item) => write_name(f, *kind, item),
                    None => Ok(()),
                }
            }
        }
    }
}

fn write_name<W: fmt::Write>(f: &mut fmt::Formatter<W>, kind: &str, item: &Value) -> fmt::Result {
    match kind {
        "option" | "help_option" => write_option_name(f, item),
        "command" => write_text(f, "", text_in(item, "name")),
        "group" | "topic" => write_text(f, "", text_in(item, "title")),
        "positional" => write_text(f, "", text_in(item, "value")),
        _ => Ok(()),
    }
}

// The long name, else the short one, else the syntax.
fn write_option_name<W: fmt::Write>(f: &mut fmt::Formatter<W>, item: &Value) -> fmt::Result {
    let long = text_in(item, "long");
    let short = text_in(item, "short");
    if long.is_some() {
        write_text(f, "--", long)
    } else if short.is_some() {
        write_text(f, "-", short)
    } else {
        write_text(f, "", text_in(item, "syntax"))
    }
}

// Writes nothing for a blank text, and no dashes before one that has some.
fn write_text<W: fmt::Write>(
    f: &mut fmt::Formatter<W>,
    dashes: &str,
    text: Option<&str>,
) -> fmt::Result {
    match text {
        None => Ok(()),
        Some(text) if text.trim().is_empty() => Ok(()),
        Some(text) if text.as_bytes().first() == Some(&b'-') => write!(f, " ({})", Brief(text)),
        Some(text) => write!(f, " ({dashes}{})", Brief(text)),
    }
}

// The text at a key of a table.
fn text_in<'v>(item: &'v Value, key: &str) -> Option<&'v str> {
    item.get(key).and_then(|value| value.as_str())
}

/// The path to the table at the end of the places, in words. Nothing for the top.
#[derive(Clone, Copy)]
pub struct Way<'p, 'a>(pub &'p [Place<'a>]);

impl Display for Way<'_, '_> {
    fn fmt<W: fmt::Write>(&self, f: &mut fmt::Formatter<W>) -> fmt::Result {
        let Way(places) = self;
        let mut is_first = true;
        for place in places.iter() {
            if !is_first {
                f.write_str(", ")?;
            }
            write!(f, "{place}")?;
            is_first = false;
        }
        if places.is_empty() {
            Ok(())
        } else {
            f.write_str(": ")
        }
    }
}

/// The header of a table at a key below the places, as TOML has it, without its brackets.
#[derive(Clone, Copy)]
pub struct Header<'p, 'a>(pub &'p [Place<'a>], pub &'static str);

impl Display for Header<'_, '_> {
    fn fmt<W: fmt::Write>(&self, f: &mut fmt::Formatter<W>) -> fmt::Result {
        let Header(places, key) = self;
        for place in places.iter() {
            write!(f, "{}.", place.kind())?;
        }
        f.write_str(*key)
    }
}
