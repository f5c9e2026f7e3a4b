//! Brackets and dots that pages set by themselves.
ghost use Rattle.std.specs.Prelude.{◌≡◌, ◌++◌, ◌==◌, map, OnOk};
ghost use Rattle.std.specs.List.{count_by, list_any};
ghost use Rattle.description.specs.View.{opt_said, spelling_said, text_of};
ghost use Rattle.description_hints.specs.Hints.{has_dots, is_between, is_marked, long_warnings, mark_warnings, spelling_warnings};
ghost use Rattle.description_hints.specs.Hints.{value_warnings, word_warnings};
ghost use Rattle.description_hints.specs.Names.{is_bracket};
ghost use Rattle.description_hints.specs.View.{path_said, warning_said};

use crate::hints::Hint;
use crate::known::is_bracket;
use crate::rules::{Warnings, push_if};
use crate::sites::under;
use bumpalo::Bump;
use description::{Name, Opt, Spelling};
use keyed::Step;
use std::alloc::AllocError;

// ---- the word for a value

fn has_dots(word: &[u8]) -> bool
    ensures { result ≡ has_dots word.now }
{
    word.ends_with(b"...") && !word.ends_with(b",...")
}

fn count_of(byte: u8, word: &[u8]) -> usize
    ensures { result ≡ count_by (λ b. b == byte) word.now }
{
    word.iter().filter(|other| **other == byte).count()
}

fn is_between(opening: u8, closing: u8, word: &[u8]) -> bool
    ensures { result ≡ is_between opening closing word.now }
{
    word.starts_with(&[opening]) && word.ends_with(&[closing]) && count_of(closing, word) == 1
}

fn is_marked(word: &[u8]) -> bool
    ensures { result ≡ is_marked word.now }
{
    is_between(b'[', b']', word) || is_between(b'<', b'>', word) || has_dots(word)
}

/// Puts the hints about the word for a value. An error comes only where an allocation failed.
pub fn push_word<'p>(
    arena: &'p Bump,
    found: &mut Warnings<'p>,
    path: &[Step<'p>],
    is_hidden: bool,
    word: &'p str,
) -> Result<(), AllocError>
    ensures { OnOk result (map warning_said found.new.items ≡ map warning_said found.old.items
        ++ word_warnings (path_said path.now) is_hidden word.now) }
{
    let is_told = !is_hidden && is_marked(word.as_bytes());
    if !is_told {
        return Ok(());
    }
    let path = under(arena, path, "value")?;
    push_if(found, path, true, Hint::MarkedValue(word))
}

fn push_value<'p>(
    arena: &'p Bump,
    found: &mut Warnings<'p>,
    path: &[Step<'p>],
    is_hidden: bool,
    value: Option<&'p str>,
) -> Result<(), AllocError>
    ensures { OnOk result (map warning_said found.new.items ≡ map warning_said found.old.items
        ++ value_warnings (path_said path.now) is_hidden (text_of value.entry)) }
{
    match value {
        Some(word) => push_word(arena, found, path, is_hidden, word),
        None => Ok(()),
    }
}

// ---- names

fn has_bracket(word: &[u8]) -> bool
    ensures { result ≡ list_any is_bracket word.now }
{
    word.iter().any(|byte| is_bracket(*byte))
}

fn push_long<'p>(
    arena: &'p Bump,
    found: &mut Warnings<'p>,
    path: &[Step<'p>],
    is_hidden: bool,
    word: &'p str,
) -> Result<(), AllocError>
    ensures { OnOk result (map warning_said found.new.items ≡ map warning_said found.old.items
        ++ long_warnings (path_said path.now) is_hidden word.now) }
{
    let is_told = !is_hidden && has_bracket(word.as_bytes());
    if !is_told {
        return Ok(());
    }
    let path = under(arena, path, "long")?;
    push_if(found, path, true, Hint::BracketedName(word))
}

fn push_spelling<'p>(
    arena: &'p Bump,
    found: &mut Warnings<'p>,
    path: &[Step<'p>],
    is_hidden: bool,
    spelling: Spelling<'p>,
) -> Result<(), AllocError>
    ensures { OnOk result (map warning_said found.new.items ≡ map warning_said found.old.items
        ++ spelling_warnings (path_said path.now) is_hidden (spelling_said spelling.entry)) }
{
    match spelling {
        Spelling::Names(Name::Long(word)) | Spelling::Names(Name::Both(_, word)) => {
            push_long(arena, found, path, is_hidden, word)
        }
        Spelling::Names(Name::Short(_)) | Spelling::Syntax(_) => Ok(()),
    }
}

/// Puts the hints about the brackets and dots of an option. An error comes only where an allocation failed.
pub fn push_marks<'p>(
    arena: &'p Bump,
    found: &mut Warnings<'p>,
    path: &[Step<'p>],
    option: &Opt<'p>,
) -> Result<(), AllocError>
    ensures { OnOk result (map warning_said found.new.items ≡ map warning_said found.old.items
        ++ mark_warnings (path_said path.now) (opt_said option.now)) }
{
    push_spelling(arena, found, path, option.hidden, option.spelling)?;
    push_value(arena, found, path, option.hidden, option.value)
}
