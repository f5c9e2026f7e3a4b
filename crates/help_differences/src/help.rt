//! The names that a help text has.
ghost use Rattle.std.specs.Prelude.{◌≡◌, ◌++◌, map, IfOk, OnOk};
ghost use Rattle.help_fronts.specs.View.{used_said};
ghost use Rattle.help_differences.specs.Names.{called};
ghost use Rattle.help_differences.specs.View.{name_said};
ghost use Rattle.help_differences.specs.declared.names.Kind.TheVariants as kinds;
ghost use Rattle.help_differences.specs.Help as spec;

use crate::names::{Kind, Name, Names, push_names, push_options_called};
use crate::notes::push_notes;
use bumpalo::Bump;
use help_blocks::{Block, blocks};
use help_fronts::{UsageOption, command_front, option_names, usage_options};
use std::alloc::{AllocError, Allocator};

fn push_used<'a, A: Allocator>(
    names: &mut Vec<Name<'a>, A>,
    options: &[UsageOption<'a>],
) -> Result<(), AllocError>
    ensures { OnOk result (map name_said names.new.items
        ≡ map name_said names.old.items ++ map (called kinds.Option) (map (λ o. o.name) (map used_said options.now))) }
{
    for option in options {
        names.push(Name {
            kind: Kind::Option,
            text: option.name,
        })?;
    }
    Ok(())
}

fn push_usage<'a, A: Allocator + Copy>(
    alloc: A,
    names: &mut Vec<Name<'a>, A>,
    lines: &[&'a str],
) -> Result<(), AllocError>
    ensures { OnOk result (map name_said names.new.items
        ≡ map name_said names.old.items ++ spec.names_of_usage (map (λ line. line.now) lines.now)) }
{
    for line in lines {
        let found = usage_options(alloc, line)?;
        push_used(names, &found)?;
    }
    Ok(())
}

fn push_option<'p>(arena: &'p Bump, names: &mut Names<'p>, line: &'p str) -> Result<(), AllocError>
    ensures { OnOk result (map name_said names.new.items
        ≡ map name_said names.old.items ++ spec.names_of_option line.now) }
{
    let found = option_names(arena, line)?;
    push_options_called(arena, names, &found)
}

fn push_command<'a, A: Allocator + Copy>(
    alloc: A,
    names: &mut Vec<Name<'a>, A>,
    line: &'a str,
) -> Result<(), AllocError>
    ensures { OnOk result (map name_said names.new.items
        ≡ map name_said names.old.items ++ spec.names_of_command line.now) }
{
    if let Some(front) = command_front(alloc, line)? {
        push_names(names, Kind::Command, &[front.name])?;
        push_names(names, Kind::Command, &front.aliases)?;
    }
    Ok(())
}

// The names of a command: those in its first line, and those that notes list.
fn push_entry<'a, A: Allocator + Copy>(
    alloc: A,
    names: &mut Vec<Name<'a>, A>,
    lines: &[&'a str],
) -> Result<(), AllocError>
    ensures { OnOk result (map name_said names.new.items
        ≡ map name_said names.old.items
        ++ (spec.names_of_command (spec.first_line (map (λ line. line.now) lines.now))
        ++ spec.names_of_notes (map (λ line. line.now) lines.now))) }
{
    push_command(alloc, names, first_line(lines))?;
    push_notes(names, lines)
}

// The first of some lines; an empty one, if there is none.
fn first_line<'a>(lines: &[&'a str]) -> &'a str
    ensures { result.now ≡ spec.first_line (map (λ line. line.now) lines.now) }
{
    match lines {
        [] => "",
        [line, ..] => line,
    }
}

fn push_block<'p>(
    arena: &'p Bump,
    names: &mut Names<'p>,
    kind: help_blocks::Kind,
    lines: &[&'p str],
) -> Result<(), AllocError>
    ensures { OnOk result (map name_said names.new.items
        ≡ map name_said names.old.items ++ spec.names_of_block kind (map (λ line. line.now) lines.now)) }
{
    match kind {
        help_blocks::Kind::Usage => push_usage(arena, names, lines),
        help_blocks::Kind::Option => push_option(arena, names, first_line(lines)),
        help_blocks::Kind::Command => push_entry(arena, names, lines),
        help_blocks::Kind::Title
        | help_blocks::Kind::Value
        | help_blocks::Kind::Text
        | help_blocks::Kind::Code => Ok(()),
    }
}

// The lines of a block.
#[tactic(auto, using(crate::proofs::Blocks::lines_of_map))]
fn lines_of<'l, 'a>(lines: &'l [&'a str], block: &Block) -> &'l [&'a str]
    ensures { map (λ line. line.now) result.now
        ≡ spec.lines_from (map (λ line. line.now) lines.now) block.now.first block.now.end }
{
    let (_, rest) = lines.split_at(block.first.min(lines.len()));
    let len = block.end.saturating_sub(block.first).min(rest.len());
    let (own, _) = rest.split_at(len);
    own
}

fn push_blocks<'p>(
    arena: &'p Bump,
    names: &mut Names<'p>,
    lines: &[&'p str],
    found: &[Block],
) -> Result<(), AllocError>
    ensures { OnOk result (map name_said names.new.items
        ≡ map name_said names.old.items ++ spec.names_of_blocks (map (λ line. line.now) lines.now) found.now) }
{
    for block in found {
        push_block(arena, names, block.kind, lines_of(lines, block))?;
    }
    Ok(())
}

/// The names that a help text has, in order: of options in its usage, and of the entries that are options and commands,
/// with those that notes of commands list. An entry `--[no-]x` has two. The lines have no escape sequences.
///
/// # Errors
///
/// Memory.
pub fn names_of_help<'p>(arena: &'p Bump, lines: &[&'p str]) -> Result<Names<'p>, AllocError>
    ensures { IfOk result (λ names. map name_said names.items ≡ spec.names_in (map (λ line. line.now) lines.now)) }
{
    let found = blocks(arena, lines)?;
    let mut names: Names<'p> = Vec::new(arena);
    push_blocks(arena, &mut names, lines, &found)?;
    Ok(names)
}
