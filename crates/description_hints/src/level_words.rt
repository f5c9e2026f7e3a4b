//! The words that the options of a level are called by.
ghost use Rattle.std.specs.Prelude.{◌≡◌, ◌++◌, flat_map, map, IfOk, OnOk};
ghost use Rattle.description.specs.View.{choice_said, group_said, level_said, opt_said};
ghost use Rattle.description_hints.specs.Names.{choices_words, group_words, level_words, options_words};
ghost use Rattle.description_hints.specs.View.{words_said};

use crate::known::{Words, push_spelling_words};
use bumpalo::Bump;
use bumpalo::collections::into_bump_slice;
use description::{Choice, Group, Level, Opt};
use std::alloc::{AllocError, Allocator};

/// Puts the words of some options.
pub fn push_options<'p>(
    arena: &'p Bump,
    words: &mut Words<'p>,
    options: &[Opt<'p>],
) -> Result<(), AllocError>
    ensures { OnOk result (words_said words.new.items
        ≡ words_said words.old.items ++ options_words (map opt_said options.now)) }
{
    for option in options {
        push_spelling_words(arena, words, option.spelling)?;
    }
    Ok(())
}

fn push_choices<'p, 'a: 'p, C: Allocator>(
    arena: &'p Bump,
    words: &mut Words<'p>,
    choices: &[Choice<'a, C>],
) -> Result<(), AllocError>
    ensures { OnOk result (words_said words.new.items
        ≡ words_said words.old.items ++ choices_words (map choice_said choices.now)) }
{
    for choice in choices {
        push_options(arena, words, choice.options.as_slice())?;
    }
    Ok(())
}

fn push_group<'p, 'a: 'p, C: Allocator>(
    arena: &'p Bump,
    words: &mut Words<'p>,
    group: &Group<'a, C>,
) -> Result<(), AllocError>
    ensures { OnOk result (words_said words.new.items
        ≡ words_said words.old.items ++ group_words (group_said group.now)) }
{
    push_options(arena, words, group.options.as_slice())?;
    push_choices(arena, words, group.choices.as_slice())
}

fn push_groups<'p, 'a: 'p, C: Allocator>(
    arena: &'p Bump,
    words: &mut Words<'p>,
    groups: &[Group<'a, C>],
) -> Result<(), AllocError>
    ensures { OnOk result (words_said words.new.items
        ≡ words_said words.old.items ++ flat_map group_words (map group_said groups.now)) }
{
    for group in groups {
        push_group(arena, words, group)?;
    }
    Ok(())
}

fn push_level<'p, 'a: 'p, C: Allocator>(
    arena: &'p Bump,
    words: &mut Words<'p>,
    level: &Level<'a, C>,
) -> Result<(), AllocError>
    ensures { OnOk result (words_said words.new.items
        ≡ words_said words.old.items ++ level_words (level_said level.now)) }
{
    push_options(arena, words, level.options.as_slice())?;
    push_choices(arena, words, level.choices.as_slice())?;
    push_groups(arena, words, level.groups.as_slice())
}

/// The words of the options of a level, with its choices and groups. An error comes only where an allocation failed.
pub fn level_words<'p, 'a: 'p, C: Allocator>(
    arena: &'p Bump,
    level: &Level<'a, C>,
) -> Result<&'p [&'p [u8]], AllocError>
    ensures { IfOk result (λ words. words_said words.now ≡ level_words (level_said level.now)) }
{
    let mut words: Words<'p> = Vec::new(arena);
    push_level(arena, &mut words, level)?;
    Ok(into_bump_slice(words))
}
