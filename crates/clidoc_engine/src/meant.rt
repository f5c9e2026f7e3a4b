//! What may have been meant by a word that names no command.

use bumpalo::Bump;
use command_pages::LevelSubject;
use description::{Command, Level};
use description_pages::subjects::enter;
use description_toml::words::{Brief, Quoted, nearest};
use std::alloc::{AllocError, Global};
use std::fmt;
use std::fmt::Display;

// How many names are listed.
const MOST_TOLD: usize = 20;

/// What may have been meant by a word that names no command of a level.
#[derive(Debug, Drop)]
pub enum Meant {
    /// Its parts, with blanks between them, lead to a command.
    Parts,
    /// This command is near.
    Near(&'static str),
    /// None is near of the commands that pages show.
    Others(Vec<&'static str>),
}

/// It is shown after the line about the word.
impl Display for Meant {
    fn fmt<W: fmt::Write>(&self, f: &mut fmt::Formatter<W>) -> fmt::Result {
        match self {
            Meant::Parts => f.write_str("; write --command once for each level"),
            Meant::Near(name) => write!(f, "; is it {}?", Brief(*name)),
            Meant::Others(names) => write_names(f, names),
        }
    }
}

fn write_names<W: fmt::Write>(f: &mut fmt::Formatter<W>, names: &[&str]) -> fmt::Result {
    f.write_str(match names.len() {
        0 => "; it has no commands",
        1 => "; its command is ",
        _ => "; its commands are ",
    })?;
    for (index, name) in names.iter().enumerate().take(MOST_TOLD) {
        if index > 0 {
            f.write_str(if index + 1 == names.len() {
                " and "
            } else {
                ", "
            })?;
        }
        write!(f, "{}", Brief(*name))?;
    }
    match names.len().saturating_sub(MOST_TOLD) {
        0 => Ok(()),
        more => write!(f, " and {more} more"),
    }
}

/// A word that names no command: in quotes, where a blank is in it.
#[derive(Clone, Copy)]
pub struct Named<'w>(pub &'w str);

impl Display for Named<'_> {
    fn fmt<W: fmt::Write>(&self, f: &mut fmt::Formatter<W>) -> fmt::Result {
        let Named(word) = self;
        if word.contains(' ') {
            write!(f, "{}", Quoted(*word))
        } else {
            write!(f, "{}", Brief(*word))
        }
    }
}

/// What may have been meant by the word, which names no command of the level. `AllocError` where an allocation failed.
pub(crate) fn meant_by<'p, 'a: 'p>(
    arena: &'p Bump,
    global: Global,
    word: &str,
    level: LevelSubject<'p, 'a, Global>,
) -> Result<Meant, AllocError> {
    if word.trim().contains(' ') && do_lead(arena, word, level)? {
        return Ok(Meant::Parts);
    }
    let names = names_of(global, level.level)?;
    match nearest(global, word, &names)? {
        Some(name) => Ok(Meant::Near(name)),
        None => Ok(Meant::Others(names)),
    }
}

// Whether the parts of the words lead to a command.
fn do_lead<'p, 'a: 'p>(
    arena: &'p Bump,
    words: &str,
    level: LevelSubject<'p, 'a, Global>,
) -> Result<bool, AllocError> {
    let mut level = level;
    for word in words.split_whitespace() {
        match enter(arena, level, word)? {
            Some(found) => level = found,
            None => return Ok(false),
        }
    }
    Ok(true)
}

// The names of the commands of the level that pages show.
fn names_of(global: Global, level: &Level<'_>) -> Result<Vec<&'static str>, AllocError> {
    let mut names = Vec::new(global);
    for group in &level.groups {
        push_names(&mut names, &group.commands)?;
    }
    push_names(&mut names, &level.commands)?;
    Ok(names)
}

fn push_names(names: &mut Vec<&'static str>, commands: &[Command<'_>]) -> Result<(), AllocError> {
    for command in commands {
        if !command.hidden {
            names.push(command.name)?;
        }
    }
    Ok(())
}
