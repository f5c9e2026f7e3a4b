//! Levels: groups and commands, and what these have.
ghost use Rattle.std.specs.Prelude.{◌≡◌, ◌∷◌, [], codes, map, OnOk};
ghost use Rattle.description.specs.View.{command_said, group_said, level_said};
ghost use Rattle.json_of_descriptions.specs.Descriptions.{command_json, group_json};
ghost use Rattle.json_of_descriptions.specs.Descriptions.{level_fields, names_of_command, texts_of_level};
ghost use Rattle.json_of_descriptions.specs.Fields.{character_at, list_at};
ghost use Rattle.json_of_descriptions.specs.Steps.{PutsFields, PutsValues};

use crate::fields::{begin_list, put_character, put_flag_unless, put_optional, put_text};
use crate::lists::{put_choices, put_options, put_positionals, put_topics, put_words};
use description::{Command, Group, Level};
use json::{Pretty, Token};
use std::alloc::{AllocError, Allocator};

fn put_texts<A: Allocator, B: Allocator>(
    out: &mut Pretty<A>,
    level: &Level<'_, B>,
) -> Result<(), AllocError>
    ensures { OnOk result (PutsFields out.old out.new (texts_of_level (level_said level.now))) }
{
    put_optional(out, "about", level.about)?;
    put_optional(out, "header", level.header)?;
    put_optional(out, "footer", level.footer)?;
    put_optional(out, "usage", level.usage)
}

fn put_short<A: Allocator + Copy>(
    alloc: A,
    out: &mut Pretty<A>,
    short: Option<char>,
) -> Result<(), AllocError>
    ensures { OnOk result (PutsFields out.old out.new (character_at (codes "short") short)) }
{
    match short {
        Some(short) => put_character(alloc, out, "short", short),
        None => Ok(()),
    }
}

fn put_names<A: Allocator + Copy, B: Allocator>(
    alloc: A,
    out: &mut Pretty<A>,
    command: &Command<'_, B>,
) -> Result<(), AllocError>
    ensures { OnOk result (PutsFields out.old out.new (names_of_command (command_said command.now))) }
{
    put_text(out, "name", command.name)?;
    put_short(alloc, out, command.short)?;
    put_optional(out, "help", command.help)?;
    put_flag_unless(out, false, "hidden", command.hidden)?;
    put_words(out, "aliases", &command.aliases)
}

/// Puts the members of a level.
#[cycle(levels)]
pub fn put_level<A: Allocator + Copy, B: Allocator>(
    alloc: A,
    out: &mut Pretty<A>,
    level: &Level<'_, B>,
) -> Result<(), AllocError>
    ensures { OnOk result (PutsFields out.old out.new (level_fields (level_said level.now))) }
{
    put_texts(out, level)?;
    put_flag_unless(out, true, "command_required", level.command_required)?;
    put_options(alloc, out, "option", &level.options)?;
    put_choices(alloc, out, "choice", &level.choices)?;
    put_groups(alloc, out, "group", &level.groups)?;
    put_positionals(out, "positional", &level.positionals)?;
    put_commands(alloc, out, "command", &level.commands)?;
    put_topics(out, "topic", &level.topics)
}

#[cycle(levels)]
fn put_groups<A: Allocator + Copy, B: Allocator>(
    alloc: A,
    out: &mut Pretty<A>,
    key: &str,
    groups: &Vec<Group<'_, B>, B>,
) -> Result<(), AllocError>
    ensures { OnOk result (PutsFields out.old out.new (list_at key.now (map group_json (map group_said groups.now.items)))) }
{
    let groups = groups.as_slice();
    if groups.is_empty() {
        return Ok(());
    }
    begin_list(out, key)?;
    put_each_group(alloc, out, groups)?;
    out.token(Token::EndArray)
}

#[cycle(levels)]
#[tactic(auto, using(crate::proofs::Putting::values_none))]
fn put_each_group<A: Allocator + Copy, B: Allocator>(
    alloc: A,
    out: &mut Pretty<A>,
    groups: &[Group<'_, B>],
) -> Result<(), AllocError>
    ensures { OnOk result (PutsValues out.old out.new (map group_json (map group_said groups.now))) }
{
    for group in groups {
        put_group(alloc, out, group)?;
    }
    Ok(())
}

#[cycle(levels)]
fn put_group<A: Allocator + Copy, B: Allocator>(
    alloc: A,
    out: &mut Pretty<A>,
    group: &Group<'_, B>,
) -> Result<(), AllocError>
    ensures { OnOk result (PutsValues out.old out.new (group_json (group_said group.now) ∷ [])) }
{
    out.token(Token::BeginObject)?;
    put_text(out, "title", group.title)?;
    put_options(alloc, out, "option", &group.options)?;
    put_choices(alloc, out, "choice", &group.choices)?;
    put_positionals(out, "positional", &group.positionals)?;
    put_commands(alloc, out, "command", &group.commands)?;
    out.token(Token::EndObject)
}

#[cycle(levels)]
fn put_commands<A: Allocator + Copy, B: Allocator>(
    alloc: A,
    out: &mut Pretty<A>,
    key: &str,
    commands: &Vec<Command<'_, B>, B>,
) -> Result<(), AllocError>
    ensures { OnOk result (PutsFields out.old out.new (list_at key.now (map command_json (map command_said commands.now.items)))) }
{
    let commands = commands.as_slice();
    if commands.is_empty() {
        return Ok(());
    }
    begin_list(out, key)?;
    put_each_command(alloc, out, commands)?;
    out.token(Token::EndArray)
}

#[cycle(levels)]
#[tactic(auto, using(crate::proofs::Putting::values_none))]
fn put_each_command<A: Allocator + Copy, B: Allocator>(
    alloc: A,
    out: &mut Pretty<A>,
    commands: &[Command<'_, B>],
) -> Result<(), AllocError>
    ensures { OnOk result (PutsValues out.old out.new (map command_json (map command_said commands.now))) }
{
    for command in commands {
        put_command(alloc, out, command)?;
    }
    Ok(())
}

#[cycle(levels)]
fn put_command<A: Allocator + Copy, B: Allocator>(
    alloc: A,
    out: &mut Pretty<A>,
    command: &Command<'_, B>,
) -> Result<(), AllocError>
    ensures { OnOk result (PutsValues out.old out.new (command_json (command_said command.now) ∷ [])) }
{
    out.token(Token::BeginObject)?;
    put_names(alloc, out, command)?;
    put_level(alloc, out, &command.level)?;
    out.token(Token::EndObject)
}
