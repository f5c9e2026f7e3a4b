//! Names that options share with those that ask for help.
ghost use Rattle.std.specs.Prelude.{◌≡◌, ◌++◌, ◌∷◌, [], find, map, IfOk, OnOk};
ghost use Rattle.description.specs.View.{name_said, opt_said, text_of};
ghost use Rattle.description_hints.specs.Names.{dashed_names, options_names, shown_names};
ghost use Rattle.description_hints.specs.View.{holds, words_said};

use crate::helps::{long_name, short_name};
use crate::known::{Known, Words};
use bumpalo::Bump;
use description::{Name, Opt, Spelling};
use std::alloc::AllocError;

// ---- the names under which pages show options

fn push_dashed<'p>(arena: &'p Bump, words: &mut Words<'p>, name: Name) -> Result<(), AllocError>
    ensures { OnOk result (words_said words.new.items
        ≡ words_said words.old.items ++ dashed_names (name_said name)) }
{
    match name {
        Name::Short(short) => {
            words.push(short_name(arena, short)?.as_bytes())?;
        }
        Name::Long(long) => {
            words.push(long_name(arena, long)?.as_bytes())?;
        }
        Name::Both(short, long) => {
            words.push(short_name(arena, short)?.as_bytes())?;
            words.push(long_name(arena, long)?.as_bytes())?;
        }
    }
    Ok(())
}

fn push_shown<'p>(
    arena: &'p Bump,
    words: &mut Words<'p>,
    option: &Opt<'_>,
) -> Result<(), AllocError>
    ensures { OnOk result (words_said words.new.items
        ≡ words_said words.old.items ++ shown_names (opt_said option.now)) }
{
    if option.hidden {
        return Ok(());
    }
    match option.spelling {
        Spelling::Names(name) => push_dashed(arena, words, name),
        Spelling::Syntax(_) => Ok(()),
    }
}

/// Puts the names under which pages show these options. An error comes only where an allocation failed.
pub fn push_names<'p>(
    arena: &'p Bump,
    words: &mut Words<'p>,
    options: &[Opt<'_>],
) -> Result<(), AllocError>
    ensures { OnOk result (words_said words.new.items
        ≡ words_said words.old.items ++ options_names (map opt_said options.now)) }
{
    for option in options {
        push_shown(arena, words, option)?;
    }
    Ok(())
}

// ---- which of them another option has

fn held<'p>(names: &Known<'p>, name: &'p str) -> Option<&'p str>
    ensures { text_of result ≡ find (holds names.now) (name.now ∷ []) }
{
    if names.has(name.as_bytes()) {
        Some(name)
    } else {
        None
    }
}

fn held_of<'p>(
    arena: &'p Bump,
    names: &Known<'p>,
    name: Name,
) -> Result<Option<&'p str>, AllocError>
    ensures { IfOk result (λ found. text_of found ≡ find (holds names.now) (dashed_names (name_said name))) }
{
    match name {
        Name::Short(short) => Ok(held(names, short_name(arena, short)?)),
        Name::Long(long) => Ok(held(names, long_name(arena, long)?)),
        Name::Both(short, long) => {
            let short = short_name(arena, short)?;
            if names.has(short.as_bytes()) {
                return Ok(Some(short));
            }
            Ok(held(names, long_name(arena, long)?))
        }
    }
}

/// The first of these names under which pages show an option. An error comes only where an allocation failed.
pub fn shared_name<'p>(
    arena: &'p Bump,
    names: &Known<'p>,
    option: &Opt<'_>,
) -> Result<Option<&'p str>, AllocError>
    ensures { IfOk result (λ found. text_of found ≡ find (holds names.now) (shown_names (opt_said option.now))) }
{
    if option.hidden {
        return Ok(None);
    }
    match option.spelling {
        Spelling::Names(name) => held_of(arena, names, name),
        Spelling::Syntax(_) => Ok(None),
    }
}
