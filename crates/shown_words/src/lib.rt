//! Words of others, as a line shows them.
#![tactic(auto)]

ghost use Rattle.std.specs.Prelude.{◌≡◌, chars};
ghost use Rattle.std.specs.List.{list_any};
ghost use Rattle.shown_words.specs.Hidden.{is_between, is_hidden, is_separator, is_unseen};

use std::fmt;
use std::fmt::Display;
use unicode::properties::{is_default_ignorable_code_point, is_noncharacter_code_point};

/// A word, as it stands; or in double quotes and with escapes, where it holds a hidden character, so that what shows it
/// stays one line, nothing in it is hidden, and nothing of it reaches a terminal as a command or turns the line around.
#[derive(Clone, Copy)]
pub struct Shown<'w>(pub &'w str);

impl Display for Shown<'_> {
    fn fmt<W: fmt::Write>(&self, f: &mut fmt::Formatter<W>) -> fmt::Result {
        let Shown(word) = self;
        if holds_hidden(*word) {
            write_quoted(*word, f)
        } else {
            f.write_str(*word)
        }
    }
}

/// A word as `Shown` has it: the front of a long one, followed by `..`, and two quotes for an empty one. A word is long
/// if it has more than 60 characters, or takes more than 200 bytes to show.
#[derive(Clone, Copy)]
pub struct Brief<'w>(pub &'w str);

impl Display for Brief<'_> {
    fn fmt<W: fmt::Write>(&self, f: &mut fmt::Formatter<W>) -> fmt::Result {
        let Brief(word) = self;
        if word.is_empty() {
            return f.write_str("''");
        }
        match front(*word) {
            Some(front) => write!(f, "{}..", Shown(front)),
            None => write!(f, "{}", Shown(*word)),
        }
    }
}

/// A word in double quotes and with escapes: the front of a long one, followed by `..`.
#[derive(Clone, Copy)]
pub struct Quoted<'w>(pub &'w str);

impl Display for Quoted<'_> {
    fn fmt<W: fmt::Write>(&self, f: &mut fmt::Formatter<W>) -> fmt::Result {
        let Quoted(word) = self;
        match front(*word) {
            Some(front) => {
                write_quoted(front, f)?;
                f.write_str("..")
            }
            None => write_quoted(*word, f),
        }
    }
}

// How many characters of a word, and bytes of what shows it, are shown where it is to be brief.
const BRIEF: usize = 60;

const BRIEF_BYTES: usize = 200;

// The first characters of a word that is longer.
fn front(word: &str) -> Option<&str> {
    let mut left = BRIEF_BYTES;
    for (count, (at, character)) in word.char_indices().enumerate() {
        match left.checked_sub(shown_len(character)) {
            Some(less) if count < BRIEF => left = less,
            _ => return word.get(..at),
        }
    }
    None
}

// How many bytes at most show a character.
fn shown_len(character: char) -> usize {
    if is_unseen(character) {
        character.escape_unicode().count()
    } else {
        character.escape_debug().count().max(character.len_utf8())
    }
}

// Writes a character as it stands within double quotes.
fn write_escaped<W: fmt::Write>(character: char, f: &mut fmt::Formatter<W>) -> fmt::Result {
    if character == '\'' {
        f.write_str("'")
    } else if is_unseen(character) {
        write!(f, "{}", character.escape_unicode())
    } else {
        write!(f, "{}", character.escape_debug())
    }
}

fn write_quoted<W: fmt::Write>(word: &str, f: &mut fmt::Formatter<W>) -> fmt::Result {
    f.write_str("\"")?;
    for character in word.chars() {
        write_escaped(character, f)?;
    }
    f.write_str("\"")
}

fn is_between(first: char, last: char, character: char) -> bool
    ensures { result ≡ is_between first last character }
{
    first <= character && character <= last
}

/// Whether nothing is seen of a character where it stands: a font may leave it out, it is a mark of notes between
/// lines, or it is the pattern of Braille without a dot.
#[tactic(auto, using(crate::proofs::Ascii::ascii_is_seen))]
pub fn is_unseen(character: char) -> bool
    ensures { result ≡ is_unseen character }
{
    // Most characters are ASCII, for which no table is asked.
    !character.is_ascii()
        && (is_default_ignorable_code_point(character)
            || is_between('\u{fff9}', '\u{fffb}', character)
            || character == '\u{2800}')
}

fn is_separator(character: char) -> bool
    ensures { result ≡ is_separator character }
{
    is_between('\u{2028}', '\u{2029}', character)
}

/// Whether nothing is seen of a character, or it moves what stands beside it: control characters, unseen ones,
/// separators of lines, and noncharacters.
pub fn is_hidden(character: char) -> bool
    ensures { result ≡ is_hidden character }
{
    character.is_control()
        || is_unseen(character)
        || is_separator(character)
        || is_noncharacter_code_point(character)
}

/// Whether a word holds such a character.
pub fn holds_hidden(word: &str) -> bool
    ensures { result ≡ list_any is_hidden (chars word.now) }
{
    word.chars().any(is_hidden)
}
