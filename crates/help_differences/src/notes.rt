//! The other names of a command that a note lists, as `[aliases: put, store]`.
ghost use Rattle.std.specs.Prelude.{◌≡◌, ◌++◌, ◌∷◌, ◌<◌, [], filter, length, map, IfSome, MatchOption, OnOk};
ghost use Rattle.std.specs.Str.{trim};
ghost use Rattle.help_fronts.specs.Words.{is_command};
ghost use Rattle.help_differences.specs.Help.{names_of_notes};
ghost use Rattle.help_differences.specs.Names.{called};
ghost use Rattle.help_differences.specs.Notes as spec;
ghost use Rattle.help_differences.specs.View.{name_said};
ghost use Rattle.help_differences.specs.declared.names.Kind.TheVariants as kinds;

use crate::names::{Kind, Name};
use description::split_value;
use help_fronts::is_command;
use std::alloc::{AllocError, Allocator};

fn push_part<'a, A: Allocator>(
    names: &mut Vec<Name<'a>, A>,
    part: &'a str,
) -> Result<(), AllocError>
    ensures { OnOk result (map name_said names.new.items
        ≡ map name_said names.old.items ++ map (called kinds.Command) (filter is_command (trim part.now ∷ []))) }
{
    let text = part.trim();
    if is_command(text) {
        names.push(Name {
            kind: Kind::Command,
            text,
        })?;
    }
    Ok(())
}

fn push_note<'a, A: Allocator>(
    names: &mut Vec<Name<'a>, A>,
    note: &'a str,
) -> Result<(), AllocError>
    ensures { OnOk result (map name_said names.new.items
        ≡ map name_said names.old.items ++ map (called kinds.Command) (spec.texts_of_note note.now)) }
{
    let mut rest = note;
    while let Some((part, after)) = split_value(rest) {
        push_part(names, part)?;
        rest = after;
    }
    push_part(names, rest)
}

fn after_opening(text: &str) -> &str
    ensures { result.now ≡ spec.after_opening text.now }
{
    match text.split_once("[aliases: ") {
        None => "",
        Some((_, note)) => note,
    }
}

// What stands before the first `]`, and what stands after it.
fn split_closed(line: &str) -> Option<(&str, &str)>
    ensures closed { MatchOption result (spec.closed_texts line.now ≡ [])
        (λ p. spec.closed_texts line.now ≡ p.0.now ∷ spec.closed_texts p.1.now) }
    ensures shorter { IfSome result (λ p. length p.1.now < length line.now) }
{
    line.split_once(']')
}

fn push_line<'a, A: Allocator>(
    names: &mut Vec<Name<'a>, A>,
    line: &'a str,
) -> Result<(), AllocError>
    ensures { OnOk result (map name_said names.new.items
        ≡ map name_said names.old.items ++ map (called kinds.Command) (spec.texts_of_line line.now)) }
{
    let mut rest = line;
    while let Some((text, after)) = split_closed(rest) {
        push_note(names, after_opening(text))?;
        rest = after;
    }
    Ok(())
}

/// Puts the names that notes list after others.
pub fn push_notes<'a, A: Allocator>(
    names: &mut Vec<Name<'a>, A>,
    lines: &[&'a str],
) -> Result<(), AllocError>
    ensures { OnOk result (map name_said names.new.items
        ≡ map name_said names.old.items ++ names_of_notes (map (λ line. line.now) lines.now)) }
{
    for line in lines {
        push_line(names, line)?;
    }
    Ok(())
}
