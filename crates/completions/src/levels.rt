//! Levels: groups and commands, and what these have.
ghost use Rattle.std.specs.Prelude.{◌≡◌, ◌++◌, ◌∷◌, [], codes, map, OnOk, string_bytes};
ghost use Rattle.description.specs.View.{command_said, commands_said, description_said, group_said, groups_said};
ghost use Rattle.description.specs.View.{level_said, positional_said};
ghost use Rattle.completions.specs.Table.{alias_entries, command_entries, command_head, command_head_entries};
ghost use Rattle.completions.specs.Table.{commands_entries, group_entries, groups_entries};
ghost use Rattle.completions.specs.Table.{groups_take_words, initial_entries, level_entries, level_takes_words, lone};
ghost use Rattle.completions.specs.Table.{table, takes_words, unsaid_places};
ghost use Rattle.completions.specs.Written.{Writes};

use crate::entries::{Entry, push_entry};
use crate::helps::command_help;
use crate::options::{Script, push_choices, push_files, push_options, push_places};
use crate::shells::Shell;
use bumpalo::Bump;
use description::{Command, Description, Group, Level, Positional};
use std::alloc::{AllocError, Allocator};

// ---- the names of a command

fn push_initial<A: Allocator>(
    arena: &Bump,
    out: &mut String<A>,
    shell: Shell,
    short: Option<char>,
) -> Result<(), AllocError>
    ensures { OnOk result (Writes shell (string_bytes out.old) (string_bytes out.new) (initial_entries short)) }
{
    if let Some(short) = short {
        let mut name = String::new(arena);
        name.push(short)?;
        push_entry(out, shell, Entry::lone("alias", name.as_str()))?;
    }
    Ok(())
}

fn push_aliases<A: Allocator>(
    out: &mut String<A>,
    shell: Shell,
    aliases: &[&'static str],
) -> Result<(), AllocError>
    ensures { OnOk result (Writes shell (string_bytes out.old) (string_bytes out.new)
        (map (lone (codes "alias")) (map (λ name. name.now) aliases.now))) }
{
    for alias in aliases {
        push_entry(out, shell, Entry::lone("alias", alias))?;
    }
    Ok(())
}

fn push_command_entry<'p, 'a: 'p, C: Allocator>(
    arena: &'p Bump,
    out: &mut Script<'p>,
    shell: Shell,
    command: &'p Command<'a, C>,
) -> Result<(), AllocError>
    ensures { OnOk result (Writes shell (string_bytes out.old) (string_bytes out.new)
        (command_head (command_said command.now) ∷ [])) }
{
    let help = command_help(arena, command.help, command.level.about)?;
    let row = Entry {
        help: help.as_str(),
        ..Entry::lone("command", command.name)
    };
    push_entry(out, shell, row)
}

fn push_head<'p, 'a: 'p, C: Allocator>(
    arena: &'p Bump,
    out: &mut Script<'p>,
    shell: Shell,
    command: &'p Command<'a, C>,
) -> Result<(), AllocError>
    ensures { OnOk result (Writes shell (string_bytes out.old) (string_bytes out.new)
        (command_head_entries (command_said command.now))) }
{
    push_command_entry(arena, out, shell, command)?;
    push_initial(arena, out, shell, command.short)?;
    push_aliases(out, shell, command.aliases.as_slice())
}

// ---- positional values that only a usage names

#[tactic(auto, using(crate::proofs::TakesWords::words_there))]
fn takes_words<C: Allocator>(positionals: &[Positional<'_>], commands: &[Command<'_, C>]) -> bool
    ensures { result ≡ takes_words (map positional_said positionals.now) (commands_said commands.now) }
{
    !positionals.is_empty() || !commands.is_empty()
}

fn groups_take_words<C: Allocator>(groups: &[Group<'_, C>]) -> bool
    ensures { result ≡ groups_take_words (groups_said groups.now) }
{
    for group in groups {
        if takes_words(group.positionals.as_slice(), group.commands.as_slice()) {
            return true;
        }
    }
    false
}

#[tactic(auto, using(crate::proofs::TakesWords::level_words_there))]
fn level_takes_words<C: Allocator>(level: &Level<'_, C>) -> bool
    ensures { result ≡ level_takes_words (level_said level.now) }
{
    takes_words(level.positionals.as_slice(), level.commands.as_slice())
        || groups_take_words(level.groups.as_slice())
}

fn push_unsaid_places<A: Allocator, C: Allocator>(
    out: &mut String<A>,
    shell: Shell,
    level: &Level<'_, C>,
) -> Result<(), AllocError>
    ensures { OnOk result (Writes shell (string_bytes out.old) (string_bytes out.new)
        (unsaid_places (level_said level.now))) }
{
    if level.usage.is_some() && !level_takes_words(level) {
        push_files(out, shell)?;
    }
    Ok(())
}

// ---- levels

#[cycle(levels)]
fn push_level<'p, 'a: 'p, C: Allocator>(
    arena: &'p Bump,
    out: &mut Script<'p>,
    shell: Shell,
    level: &'p Level<'a, C>,
) -> Result<(), AllocError>
    ensures { OnOk result (Writes shell (string_bytes out.old) (string_bytes out.new)
        (level_entries (level_said level.now))) }
{
    push_groups(arena, out, shell, &level.groups)?;
    push_options(arena, out, shell, level.options.as_slice())?;
    push_choices(arena, out, shell, level.choices.as_slice())?;
    push_places(out, shell, level.positionals.as_slice())?;
    push_unsaid_places(out, shell, level)?;
    push_commands(arena, out, shell, &level.commands)
}

#[cycle(levels)]
fn push_groups<'p, 'a: 'p, C: Allocator>(
    arena: &'p Bump,
    out: &mut Script<'p>,
    shell: Shell,
    groups: &'p Vec<Group<'a, C>, C>,
) -> Result<(), AllocError>
    ensures { OnOk result (Writes shell (string_bytes out.old) (string_bytes out.new)
        (groups_entries (groups_said groups.now.items))) }
{
    for group in groups {
        push_group(arena, out, shell, group)?;
    }
    Ok(())
}

#[cycle(levels)]
fn push_group<'p, 'a: 'p, C: Allocator>(
    arena: &'p Bump,
    out: &mut Script<'p>,
    shell: Shell,
    group: &'p Group<'a, C>,
) -> Result<(), AllocError>
    ensures { OnOk result (Writes shell (string_bytes out.old) (string_bytes out.new)
        (group_entries (group_said group.now))) }
{
    push_options(arena, out, shell, group.options.as_slice())?;
    push_choices(arena, out, shell, group.choices.as_slice())?;
    push_places(out, shell, group.positionals.as_slice())?;
    push_commands(arena, out, shell, &group.commands)
}

#[cycle(levels)]
fn push_commands<'p, 'a: 'p, C: Allocator>(
    arena: &'p Bump,
    out: &mut Script<'p>,
    shell: Shell,
    commands: &'p Vec<Command<'a, C>, C>,
) -> Result<(), AllocError>
    ensures { OnOk result (Writes shell (string_bytes out.old) (string_bytes out.new)
        (commands_entries (commands_said commands.now.items))) }
{
    for command in commands {
        push_command(arena, out, shell, command)?;
    }
    Ok(())
}

#[cycle(levels)]
fn push_command<'p, 'a: 'p, C: Allocator>(
    arena: &'p Bump,
    out: &mut Script<'p>,
    shell: Shell,
    command: &'p Command<'a, C>,
) -> Result<(), AllocError>
    ensures { OnOk result (Writes shell (string_bytes out.old) (string_bytes out.new)
        (command_entries (command_said command.now))) }
{
    if command.hidden {
        return Ok(());
    }
    push_head(arena, out, shell, command)?;
    push_level(arena, out, shell, &command.level)?;
    push_entry(out, shell, Entry::mark("end"))
}

/// Appends the whole table of a description. After `AllocError` some of it may be there.
pub fn push_table<'p, 'a: 'p, C: Allocator>(
    arena: &'p Bump,
    out: &mut Script<'p>,
    shell: Shell,
    description: &'p Description<'a, C>,
) -> Result<(), AllocError>
    ensures { OnOk result (Writes shell (string_bytes out.old) (string_bytes out.new)
        (table (description_said description.now))) }
{
    push_entry(out, shell, Entry::lone("program", description.name))?;
    push_options(arena, out, shell, description.help_options.as_slice())?;
    push_entry(out, shell, Entry::mark("level"))?;
    push_level(arena, out, shell, &description.level)?;
    push_entry(out, shell, Entry::mark("end"))
}
