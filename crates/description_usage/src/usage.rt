//! The usage of a level: items that are not to be broken.
ghost use Rattle.std.specs.Prelude.{◌≡◌, ◌++◌, ◌∷◌, ◌||◌, [], true, false, codes, map, flat_map, if◌then◌else◌, IfOk, OnOk};
ghost use Rattle.description_usage.specs.Lines.{joined};
ghost use Rattle.std.specs.List.{list_any};
ghost use Rattle.std.specs.Option.{option_map};
ghost use Rattle.page_model.specs.Content.{words};
ghost use Rattle.page_model.specs.View.{line_of};
ghost use Rattle.description.specs.View.{name_said, choice_said, command_said, group_said, level_said, opt_said};
ghost use Rattle.description.specs.View.{positional_said, spelling_said};
ghost use Rattle.description_usage.specs.Usage.{called, called_name, choice_items, command_items, dots, dots_line};
ghost use Rattle.description_usage.specs.Usage.{enclosed, group_items, group_positionals, group_shows_command};
ghost use Rattle.description_usage.specs.Usage.{is_barred, is_shown_command, level_positionals};
ghost use Rattle.description_usage.specs.Usage.{level_shows_command, member_items, named_items, option_item};
ghost use Rattle.description_usage.specs.Usage.{option_items, plain_item, positionals_after, shown_options};
ghost use Rattle.description_usage.specs.Usage.{shown_positionals, strict_item, strict_value, usage_items};
ghost use Rattle.description.specs.Words.{words_said};

use crate::lines::{joined, one};
use crate::names::{ArenaLine, ArenaLines, long_line, short_line, value_piece};
use crate::syntax::{has_bar, push_syntax, shown_way};
use bumpalo::Bump;
use description::{Choice, Command, FixedWords, Group, Level, Name, Opt, Positional, Spelling};
use page_model::{Inline, Line};
use std::alloc::{AllocError, Allocator};

// ---- brackets

// How an item stands in brackets: whether it has to be given, whether it is repeated, and whether it would be split
// without them.
#[derive(Clone, Copy)]
struct Manner {
    is_required: bool,
    is_repeated: bool,
    is_apart: bool,
}

fn between<'a, A: Allocator>(
    alloc: A,
    opening: &'a str,
    inside: &[Inline<'a>],
    closing: &'a str,
) -> Result<Line<'a, A>, AllocError>
    ensures { IfOk result (λ line. line_of line.items
        ≡ words opening.now ∷ line_of inside.now ++ words closing.now ∷ []) }
{
    let mut line = one(alloc, Inline::Words(opening))?;
    line.extend_from_slice(inside)?;
    line.push(Inline::Words(closing))?;
    Ok(line)
}

fn square_end(is_repeated: bool) -> &'static str
    ensures { result.now ≡ codes "]" ++ dots is_repeated }
{
    if is_repeated { "]..." } else { "]" }
}

fn round_end(is_repeated: bool) -> &'static str
    ensures { result.now ≡ codes ")" ++ dots is_repeated }
{
    if is_repeated { ")..." } else { ")" }
}

fn enclosed<'a, A: Allocator>(
    alloc: A,
    inside: Line<'a, A>,
    manner: Manner,
) -> Result<Line<'a, A>, AllocError>
    ensures { IfOk result (λ line. line_of line.items
        ≡ enclosed manner.is_required manner.is_repeated manner.is_apart (line_of inside.entry.items)) }
{
    if !manner.is_required {
        between(
            alloc,
            "[",
            inside.as_slice(),
            square_end(manner.is_repeated),
        )
    } else if manner.is_apart {
        between(alloc, "(", inside.as_slice(), round_end(manner.is_repeated))
    } else {
        Ok(inside)
    }
}

// ---- options

fn called_name<'p, A: Allocator>(
    arena: &'p Bump<A>,
    name: Name,
    value: Option<&'p str>,
) -> Result<ArenaLine<'p, A>, AllocError>
    ensures { IfOk result (λ line. line_of line.items
        ≡ called_name (name_said name) (option_map (λ word. word.now) value.entry)) }
{
    match name {
        Name::Short(short) | Name::Both(short, _) => short_line(arena, short, value),
        Name::Long(long) => long_line(arena, long, value),
    }
}

// An option by its short name, where it has one; of a syntax the part that a usage shows.
fn called<'p, A: Allocator>(
    arena: &'p Bump<A>,
    option: &Opt<'p>,
) -> Result<ArenaLine<'p, A>, AllocError>
    ensures { IfOk result (λ line. line_of line.items ≡ called (opt_said option.now)) }
{
    match option.spelling {
        Spelling::Names(name) => called_name(arena, name, option.value),
        Spelling::Syntax(text) => {
            let mut line = Vec::new(arena);
            push_syntax(&mut line, shown_way(text))?;
            Ok(line)
        }
    }
}

fn is_barred(spelling: Spelling<'_>) -> bool
    ensures { result ≡ is_barred (spelling_said spelling.entry) }
{
    match spelling {
        Spelling::Names(_) => false,
        Spelling::Syntax(text) => has_bar(shown_way(text)),
    }
}

/// What a usage shows of an option as an item, hidden or not: in brackets where it is not required, with dots where it
/// is repeated. An error comes only where an allocation failed.
pub fn option_item<'p, A: Allocator>(
    arena: &'p Bump<A>,
    option: &Opt<'p>,
    is_required: bool,
    is_repeated: bool,
) -> Result<ArenaLine<'p, A>, AllocError>
    ensures { IfOk result (λ line. line_of line.items
        ≡ option_item is_required is_repeated (opt_said option.now)) }
{
    let manner = Manner {
        is_required,
        is_repeated,
        is_apart: is_repeated || is_barred(option.spelling),
    };
    enclosed(arena, called(arena, option)?, manner)
}

fn push_option<'p, A: Allocator>(
    arena: &'p Bump<A>,
    items: &mut ArenaLines<'p, A>,
    option: &Opt<'p>,
) -> Result<(), AllocError>
    ensures { OnOk result (map (λ item. line_of item.items) items.new.items
        ≡ map (λ item. line_of item.items) items.old.items ++ option_items (opt_said option.now)) }
{
    if option.hidden {
        return Ok(());
    }
    items.push(option_item(arena, option, option.required, option.repeated)?)?;
    Ok(())
}

fn push_options<'p, A: Allocator>(
    arena: &'p Bump<A>,
    items: &mut ArenaLines<'p, A>,
    options: &[Opt<'p>],
) -> Result<(), AllocError>
    ensures { OnOk result (map (λ item. line_of item.items) items.new.items
        ≡ map (λ item. line_of item.items) items.old.items
        ++ flat_map option_items (map opt_said options.now)) }
{
    for option in options {
        push_option(arena, items, option)?;
    }
    Ok(())
}

// ---- choices

// The options that are not hidden.
fn shown_options<'p, A: Allocator>(
    alloc: A,
    options: &[Opt<'p>],
) -> Result<Vec<Opt<'p>, A>, AllocError>
    ensures { IfOk result (λ shown. map opt_said shown.items ≡ shown_options (map opt_said options.now)) }
{
    let mut shown = Vec::new(alloc);
    for option in options {
        if !option.hidden {
            shown.push(*option)?;
        }
    }
    Ok(shown)
}

fn called_lines<'p, A: Allocator>(
    arena: &'p Bump<A>,
    options: &[Opt<'p>],
) -> Result<ArenaLines<'p, A>, AllocError>
    ensures { IfOk result (λ lines. map (λ line. line_of line.items) lines.items
        ≡ map called (map opt_said options.now)) }
{
    let mut lines = Vec::new(arena);
    for option in options {
        lines.push(called(arena, option)?)?;
    }
    Ok(lines)
}

fn barred_item<'p, A: Allocator>(
    arena: &'p Bump<A>,
    options: &[Opt<'p>],
    is_required: bool,
) -> Result<ArenaLine<'p, A>, AllocError>
    ensures { IfOk result (λ line. line_of line.items
        ≡ enclosed is_required false true (joined (codes " | ") (map called (map opt_said options.now)))) }
{
    let lines = called_lines(arena, options)?;
    let manner = Manner {
        is_required,
        is_repeated: false,
        is_apart: true,
    };
    enclosed(arena, joined(arena, " | ", lines.as_slice())?, manner)
}

fn push_members<'p, A: Allocator>(
    arena: &'p Bump<A>,
    items: &mut ArenaLines<'p, A>,
    members: &[Opt<'p>],
    is_required: bool,
) -> Result<(), AllocError>
    ensures { OnOk result (map (λ item. line_of item.items) items.new.items
        ≡ map (λ item. line_of item.items) items.old.items
        ++ member_items is_required (map opt_said members.now)) }
{
    match members {
        [] => {}
        [only] => items.push(option_item(arena, only, is_required, false)?)?,
        _ => items.push(barred_item(arena, members, is_required)?)?,
    }
    Ok(())
}

fn push_choice<'p, 'a: 'p, A: Allocator, B: Allocator>(
    arena: &'p Bump<A>,
    items: &mut ArenaLines<'p, A>,
    choice: &Choice<'a, B>,
) -> Result<(), AllocError>
    ensures { OnOk result (map (λ item. line_of item.items) items.new.items
        ≡ map (λ item. line_of item.items) items.old.items ++ choice_items (choice_said choice.now)) }
{
    let shown = shown_options(arena, choice.options.as_slice())?;
    push_members(arena, items, shown.as_slice(), choice.required)
}

fn push_choices<'p, 'a: 'p, A: Allocator, B: Allocator>(
    arena: &'p Bump<A>,
    items: &mut ArenaLines<'p, A>,
    choices: &[Choice<'a, B>],
) -> Result<(), AllocError>
    ensures { OnOk result (map (λ item. line_of item.items) items.new.items
        ≡ map (λ item. line_of item.items) items.old.items
        ++ flat_map choice_items (map choice_said choices.now)) }
{
    for choice in choices {
        push_choice(arena, items, choice)?;
    }
    Ok(())
}

// ---- positional values

fn push_dots<'a, A: Allocator>(line: &mut Line<'a, A>, is_repeated: bool) -> Result<(), AllocError>
    ensures { OnOk result (line_of line.new.items ≡ line_of line.old.items ++ dots_line is_repeated) }
{
    if is_repeated {
        line.push(Inline::Words("..."))?;
    }
    Ok(())
}

fn strict_value<'p, A: Allocator>(
    arena: &'p Bump<A>,
    positional: &Positional<'p>,
) -> Result<ArenaLine<'p, A>, AllocError>
    ensures { IfOk result (λ line. line_of line.items ≡ strict_value (positional_said positional.now)) }
{
    let mut line = vec![in arena;
        Inline::Literal("--"),
        Inline::Words(" "),
        value_piece(arena, positional.value)?,
    ]?;
    push_dots(&mut line, positional.repeated)?;
    Ok(line)
}

// The first strict value of a level.
fn strict_item<'p, A: Allocator>(
    arena: &'p Bump<A>,
    positional: &Positional<'p>,
) -> Result<ArenaLine<'p, A>, AllocError>
    ensures { IfOk result (λ line. line_of line.items ≡ strict_item (positional_said positional.now)) }
{
    let inside = strict_value(arena, positional)?;
    let manner = Manner {
        is_required: positional.required,
        is_repeated: false,
        is_apart: false,
    };
    enclosed(arena, inside, manner)
}

fn plain_item<'p, A: Allocator>(
    arena: &'p Bump<A>,
    positional: &Positional<'p>,
) -> Result<ArenaLine<'p, A>, AllocError>
    ensures { IfOk result (λ line. line_of line.items ≡ plain_item (positional_said positional.now)) }
{
    let mut line = one(arena, value_piece(arena, positional.value)?)?;
    if positional.required {
        push_dots(&mut line, positional.repeated)?;
        Ok(line)
    } else {
        between(arena, "[", line.as_slice(), square_end(positional.repeated))
    }
}

fn positional_item<'p, A: Allocator>(
    arena: &'p Bump<A>,
    positional: &Positional<'p>,
    is_first_strict: bool,
) -> Result<ArenaLine<'p, A>, AllocError>
    ensures { IfOk result (λ line. line_of line.items ≡ (if is_first_strict
        then strict_item (positional_said positional.now) else plain_item (positional_said positional.now))) }
{
    if is_first_strict {
        strict_item(arena, positional)
    } else {
        plain_item(arena, positional)
    }
}

fn push_positional_items<'p, A: Allocator>(
    arena: &'p Bump<A>,
    items: &mut ArenaLines<'p, A>,
    positionals: &[Positional<'p>],
) -> Result<(), AllocError>
    ensures { OnOk result (map (λ item. line_of item.items) items.new.items
        ≡ map (λ item. line_of item.items) items.old.items
        ++ positionals_after [] (map positional_said positionals.now)) }
{
    let mut has_strict = false;
    for positional in positionals {
        let is_first = positional.strict && !has_strict;
        items.push(positional_item(arena, positional, is_first)?)?;
        has_strict = has_strict || positional.strict;
    }
    Ok(())
}

fn push_positional<'p, A: Allocator>(
    shown: &mut Vec<Positional<'p>, A>,
    positional: Positional<'p>,
) -> Result<(), AllocError>
    ensures { OnOk result (map positional_said shown.new.items ≡ map positional_said shown.old.items
        ++ shown_positionals (positional_said positional.entry ∷ [])) }
{
    if !positional.hidden {
        shown.push(positional)?;
    }
    Ok(())
}

fn push_positionals<'p, A: Allocator>(
    shown: &mut Vec<Positional<'p>, A>,
    positionals: &[Positional<'p>],
) -> Result<(), AllocError>
    ensures { OnOk result (map positional_said shown.new.items ≡ map positional_said shown.old.items
        ++ shown_positionals (map positional_said positionals.now)) }
{
    for positional in positionals {
        push_positional(shown, *positional)?;
    }
    Ok(())
}

// ---- groups

fn push_group<'p, 'a: 'p, A: Allocator, B: Allocator>(
    arena: &'p Bump<A>,
    items: &mut ArenaLines<'p, A>,
    group: &Group<'a, B>,
) -> Result<(), AllocError>
    ensures { OnOk result (map (λ item. line_of item.items) items.new.items
        ≡ map (λ item. line_of item.items) items.old.items ++ group_items (group_said group.now)) }
{
    push_options(arena, items, group.options.as_slice())?;
    push_choices(arena, items, group.choices.as_slice())
}

fn push_groups<'p, 'a: 'p, A: Allocator, B: Allocator>(
    arena: &'p Bump<A>,
    items: &mut ArenaLines<'p, A>,
    groups: &[Group<'a, B>],
) -> Result<(), AllocError>
    ensures { OnOk result (map (λ item. line_of item.items) items.new.items
        ≡ map (λ item. line_of item.items) items.old.items
        ++ flat_map group_items (map group_said groups.now)) }
{
    for group in groups {
        push_group(arena, items, group)?;
    }
    Ok(())
}

fn push_group_positionals<'p, 'a: 'p, A: Allocator, B: Allocator>(
    shown: &mut Vec<Positional<'p>, A>,
    groups: &[Group<'a, B>],
) -> Result<(), AllocError>
    ensures { OnOk result (map positional_said shown.new.items ≡ map positional_said shown.old.items
        ++ shown_positionals (flat_map group_positionals (map group_said groups.now))) }
{
    for group in groups {
        push_positionals(shown, group.positionals.as_slice())?;
    }
    Ok(())
}

fn shown_positionals<'p, 'a: 'p, A: Allocator, B: Allocator>(
    alloc: A,
    level: &Level<'a, B>,
) -> Result<Vec<Positional<'p>, A>, AllocError>
    ensures { IfOk result (λ shown. map positional_said shown.items
        ≡ shown_positionals (level_positionals (level_said level.now))) }
{
    let mut shown = Vec::new(alloc);
    push_group_positionals(&mut shown, level.groups.as_slice())?;
    push_positionals(&mut shown, level.positionals.as_slice())?;
    Ok(shown)
}

// ---- commands

fn shows_command<A: Allocator>(commands: &[Command<'_, A>]) -> bool
    ensures { result ≡ list_any is_shown_command (map command_said commands.now) }
{
    for command in commands {
        if !command.hidden {
            return true;
        }
    }
    false
}

fn group_shows_command<A: Allocator>(groups: &[Group<'_, A>]) -> bool
    ensures { result ≡ list_any group_shows_command (map group_said groups.now) }
{
    for group in groups {
        if shows_command(group.commands.as_slice()) {
            return true;
        }
    }
    false
}

fn level_shows_command<A: Allocator>(level: &Level<'_, A>) -> bool
    ensures { result ≡ level_shows_command (level_said level.now) }
{
    shows_command(level.commands.as_slice()) || group_shows_command(level.groups.as_slice())
}

fn push_command<'p, A: Allocator>(
    arena: &'p Bump<A>,
    items: &mut ArenaLines<'p, A>,
    word: &'p str,
    is_required: bool,
) -> Result<(), AllocError>
    ensures { OnOk result (map (λ item. line_of item.items) items.new.items
        ≡ map (λ item. line_of item.items) items.old.items ++ command_items word.now is_required true) }
{
    let inside = vec![in arena; Inline::Value(word), Inline::Words(" ...")]?;
    let manner = Manner {
        is_required,
        is_repeated: false,
        is_apart: false,
    };
    items.push(enclosed(arena, inside, manner)?)?;
    Ok(())
}

// ---- the level

fn push_named<'p, 'a: 'p, A: Allocator, B: Allocator>(
    arena: &'p Bump<A>,
    items: &mut ArenaLines<'p, A>,
    level: &Level<'a, B>,
) -> Result<(), AllocError>
    ensures { OnOk result (map (λ item. line_of item.items) items.new.items
        ≡ map (λ item. line_of item.items) items.old.items ++ named_items (level_said level.now)) }
{
    push_options(arena, items, level.options.as_slice())?;
    push_choices(arena, items, level.choices.as_slice())?;
    push_groups(arena, items, level.groups.as_slice())
}

/// The items of the usage of a level, after the names that lead there: its options and choices and those of its
/// groups, positional values, and what stands for a command.
pub fn usage_items<'p, 'a: 'p, A: Allocator, B: Allocator>(
    arena: &'p Bump<A>,
    words: &FixedWords<'p>,
    level: &Level<'a, B>,
) -> Result<ArenaLines<'p, A>, AllocError>
    ensures { IfOk result (λ items. map (λ item. line_of item.items) items.items
        ≡ usage_items (words_said words.now) (level_said level.now)) }
{
    let mut items = Vec::new(arena);
    push_named(arena, &mut items, level)?;
    let shown = shown_positionals(arena, level)?;
    push_positional_items(arena, &mut items, shown.as_slice())?;
    if level_shows_command(level) {
        push_command(arena, &mut items, words.command, level.command_required)?;
    }
    Ok(items)
}
