//! The names that a level of a description has.
ghost use Rattle.std.specs.Prelude.{◌≡◌, ◌++◌, ◌∷◌, [], map, IfOk, OnOk};
ghost use Rattle.description.specs.View as content;
ghost use Rattle.help_differences.specs.Level as spec;
ghost use Rattle.help_differences.specs.Names.{called};
ghost use Rattle.help_differences.specs.View.{name_said};
ghost use Rattle.help_differences.specs.declared.names.Kind.TheVariants as kinds;

use crate::names::{Kind, Name, Names, push_name, push_names, push_options_called};
use bumpalo::Bump;
use description::{Choice, Command, Group, Level, Opt, Spelling};
use help_fronts::option_names;
use std::alloc::{AllocError, Allocator};

// ---- options

fn push_short<'p>(arena: &'p Bump, names: &mut Names<'p>, short: char) -> Result<(), AllocError>
    ensures { OnOk result (map name_said names.new.items
        ≡ map name_said names.old.items ++ map (called kinds.Option) (spec.short_texts short)) }
{
    push_name(arena, names, "-", short.encode_utf8(&mut [0; 4]))
}

fn push_long<'p>(arena: &'p Bump, names: &mut Names<'p>, long: &str) -> Result<(), AllocError>
    ensures { OnOk result (map name_said names.new.items
        ≡ map name_said names.old.items ++ map (called kinds.Option) (spec.long_texts long.now)) }
{
    push_name(arena, names, "--", long)
}

fn push_own<'p>(
    arena: &'p Bump,
    names: &mut Names<'p>,
    name: description::Name,
) -> Result<(), AllocError>
    ensures { OnOk result (map name_said names.new.items
        ≡ map name_said names.old.items ++ map (called kinds.Option) (spec.name_texts (content.name_said name))) }
{
    match name {
        description::Name::Short(short) => push_short(arena, names, short),
        description::Name::Long(long) => push_long(arena, names, long),
        description::Name::Both(short, long) => {
            push_short(arena, names, short)?;
            push_long(arena, names, long)
        }
    }
}

fn push_syntax<'p>(arena: &'p Bump, names: &mut Names<'p>, text: &'p str) -> Result<(), AllocError>
    ensures { OnOk result (map name_said names.new.items
        ≡ map name_said names.old.items ++ map (called kinds.Option) (spec.syntax_texts text.now)) }
{
    let found = option_names(arena, text)?;
    push_options_called(arena, names, &found)
}

fn push_spelling<'p>(
    arena: &'p Bump,
    names: &mut Names<'p>,
    spelling: Spelling<'p>,
) -> Result<(), AllocError>
    ensures { OnOk result (map name_said names.new.items
        ≡ map name_said names.old.items
        ++ map (called kinds.Option) (spec.spelling_texts (content.spelling_said spelling.entry))) }
{
    match spelling {
        Spelling::Names(name) => push_own(arena, names, name),
        Spelling::Syntax(text) => push_syntax(arena, names, text),
    }
}

fn push_option<'p>(
    arena: &'p Bump,
    names: &mut Names<'p>,
    option: &Opt<'p>,
) -> Result<(), AllocError>
    ensures { OnOk result (map name_said names.new.items
        ≡ map name_said names.old.items ++ spec.names_of_option (content.opt_said option.now)) }
{
    if option.hidden {
        return Ok(());
    }
    push_spelling(arena, names, option.spelling)
}

fn push_options<'p>(
    arena: &'p Bump,
    names: &mut Names<'p>,
    options: &[Opt<'p>],
) -> Result<(), AllocError>
    ensures { OnOk result (map name_said names.new.items
        ≡ map name_said names.old.items ++ spec.names_of_options (map content.opt_said options.now)) }
{
    for option in options {
        push_option(arena, names, option)?;
    }
    Ok(())
}

fn push_choices<'p, 'a: 'p, C: Allocator>(
    arena: &'p Bump,
    names: &mut Names<'p>,
    choices: &'p [Choice<'a, C>],
) -> Result<(), AllocError>
    ensures { OnOk result (map name_said names.new.items
        ≡ map name_said names.old.items ++ spec.names_of_choices (map content.choice_said choices.now)) }
{
    for choice in choices {
        push_options(arena, names, choice.options.as_slice())?;
    }
    Ok(())
}

// ---- commands

fn push_initial<'p>(
    arena: &'p Bump,
    names: &mut Names<'p>,
    short: Option<char>,
) -> Result<(), AllocError>
    ensures { OnOk result (map name_said names.new.items
        ≡ map name_said names.old.items ++ map (called kinds.Command) (spec.initial_texts short)) }
{
    if let Some(short) = short {
        let text = arena.try_alloc_str(short.encode_utf8(&mut [0; 4]))?;
        names.push(Name {
            kind: Kind::Command,
            text,
        })?;
    }
    Ok(())
}

fn push_called<'p>(
    arena: &'p Bump,
    names: &mut Names<'p>,
    name: &'p str,
    short: Option<char>,
    aliases: &[&'p str],
) -> Result<(), AllocError>
    ensures { OnOk result (map name_said names.new.items
        ≡ map name_said names.old.items
        ++ map (called kinds.Command) (spec.texts_of_command name.now short (map (λ a. a.now) aliases.now))) }
{
    push_names(names, Kind::Command, &[name])?;
    push_initial(arena, names, short)?;
    push_names(names, Kind::Command, aliases)
}

fn push_command<'p, 'a: 'p, C: Allocator>(
    arena: &'p Bump,
    names: &mut Names<'p>,
    command: &'p Command<'a, C>,
) -> Result<(), AllocError>
    ensures { OnOk result (map name_said names.new.items
        ≡ map name_said names.old.items ++ spec.names_of_command (content.command_said command.now)) }
{
    if command.hidden {
        return Ok(());
    }
    push_called(
        arena,
        names,
        command.name,
        command.short,
        command.aliases.as_slice(),
    )?;
    Ok(())
}

fn push_commands<'p, 'a: 'p, C: Allocator>(
    arena: &'p Bump,
    names: &mut Names<'p>,
    commands: &'p [Command<'a, C>],
) -> Result<(), AllocError>
    ensures { OnOk result (map name_said names.new.items
        ≡ map name_said names.old.items ++ spec.names_of_commands (content.commands_said commands.now)) }
{
    for command in commands {
        push_command(arena, names, command)?;
    }
    Ok(())
}

// ---- levels

fn push_group<'p, 'a: 'p, C: Allocator>(
    arena: &'p Bump,
    names: &mut Names<'p>,
    group: &'p Group<'a, C>,
) -> Result<(), AllocError>
    ensures { OnOk result (map name_said names.new.items
        ≡ map name_said names.old.items ++ spec.names_of_group (content.group_said group.now)) }
{
    push_options(arena, names, group.options.as_slice())?;
    push_choices(arena, names, group.choices.as_slice())?;
    push_commands(arena, names, group.commands.as_slice())?;
    Ok(())
}

fn push_groups<'p, 'a: 'p, C: Allocator>(
    arena: &'p Bump,
    names: &mut Names<'p>,
    groups: &'p [Group<'a, C>],
) -> Result<(), AllocError>
    ensures { OnOk result (map name_said names.new.items
        ≡ map name_said names.old.items ++ spec.names_of_groups (content.groups_said groups.now)) }
{
    for group in groups {
        push_group(arena, names, group)?;
    }
    Ok(())
}

fn push_level<'p, 'a: 'p, C: Allocator>(
    arena: &'p Bump,
    names: &mut Names<'p>,
    level: &'p Level<'a, C>,
) -> Result<(), AllocError>
    ensures { OnOk result (map name_said names.new.items
        ≡ map name_said names.old.items ++ spec.names_on_level (content.level_said level.now)) }
{
    push_groups(arena, names, level.groups.as_slice())?;
    push_options(arena, names, level.options.as_slice())?;
    push_choices(arena, names, level.choices.as_slice())?;
    push_commands(arena, names, level.commands.as_slice())?;
    Ok(())
}

/// The names that a level has, and those of the options that ask for help on each level. What is hidden has none, and a
/// syntax `--[no-]x` has two.
///
/// # Errors
///
/// Memory.
pub fn names_of_level<'p, 'a: 'p, C: Allocator>(
    arena: &'p Bump,
    level: &'p Level<'a, C>,
    help_options: &[Opt<'p>],
) -> Result<Names<'p>, AllocError>
    ensures { IfOk result (λ names. map name_said names.items
        ≡ spec.names_of_level (map content.opt_said help_options.now) (content.level_said level.now)) }
{
    let mut names: Names<'p> = Vec::new(arena);
    push_options(arena, &mut names, help_options)?;
    push_level(arena, &mut names, level)?;
    Ok(names)
}
