//! Names of options and commands.
ghost use Rattle.std.specs.Prelude.{◌≡◌, ◌++◌, ◌∷◌, [], drop, length, map, MatchOption, OnOk, false, true};
ghost use Rattle.help_differences.specs.View.{name_said};
ghost use Rattle.help_differences.specs.Names as spec;
ghost use Rattle.help_differences.specs.Names.{called};
ghost use Rattle.help_differences.specs.declared.names.Kind.TheVariants as kinds;

use bumpalo::Bump;
use std::alloc::{AllocError, Allocator};

/// What has a name.
#[derive(Clone, Copy, Debug, PartialEq, Eq, PartialOrd, Ord)]
pub enum Kind {
    Option,
    Command,
}

/// The name of an option, with its dashes, or of a command.
#[derive(Clone, Copy, Debug, PartialEq, Eq, PartialOrd, Ord)]
pub struct Name<'a> {
    pub kind: Kind,
    pub text: &'a str,
}

/// Names in an arena.
pub type Names<'p> = Vec<Name<'p>, &'p Bump>;

/// Puts names of one kind after others.
pub fn push_names<'a, A: Allocator>(
    names: &mut Vec<Name<'a>, A>,
    kind: Kind,
    texts: &[&'a str],
) -> Result<(), AllocError>
    ensures { OnOk result (map name_said names.new.items
        ≡ map name_said names.old.items ++ map (called kind) (map (λ text. text.now) texts.now)) }
{
    for text in texts {
        names.push(Name { kind, text })?;
    }
    Ok(())
}

/// Puts the name of an option after others: its dashes, and then the word.
pub fn push_name<'p>(
    arena: &'p Bump,
    names: &mut Names<'p>,
    dashes: &str,
    word: &str,
) -> Result<(), AllocError>
    ensures { OnOk result (map name_said names.new.items
        ≡ map name_said names.old.items ++ called kinds.Option (dashes.now ++ word.now) ∷ []) }
{
    let mut whole = String::from_str(arena, dashes)?;
    whole.push_str(word)?;
    let text = arena.try_alloc_str(whole.as_str())?;
    names.push(Name {
        kind: Kind::Option,
        text,
    })?;
    Ok(())
}

// The word of `--[no-]x`.
fn negatable(text: &str) -> Option<&str>
    ensures { MatchOption result (spec.is_negatable text.now ≡ false)
        (λ word. (spec.is_negatable text.now ≡ true) × (word.now ≡ drop (length spec.negatable) text.now)) }
{
    text.strip_prefix("--[no-]")
}

fn push_expanded<'p>(
    arena: &'p Bump,
    names: &mut Names<'p>,
    text: &'p str,
) -> Result<(), AllocError>
    ensures { OnOk result (map name_said names.new.items
        ≡ map name_said names.old.items ++ map (called kinds.Option) (spec.expanded text.now)) }
{
    match negatable(text) {
        None => push_names(names, Kind::Option, &[text]),
        Some(word) => {
            push_name(arena, names, "--", word)?;
            push_name(arena, names, "--no-", word)
        }
    }
}

/// Puts the names of options after others; `--[no-]x` is two.
pub fn push_options_called<'p>(
    arena: &'p Bump,
    names: &mut Names<'p>,
    texts: &[&'p str],
) -> Result<(), AllocError>
    ensures { OnOk result (map name_said names.new.items
        ≡ map name_said names.old.items ++ spec.options_called (map (λ text. text.now) texts.now)) }
{
    for text in texts {
        push_expanded(arena, names, text)?;
    }
    Ok(())
}
