//! The sections of a level: lists of entries, each under its title.
ghost use Rattle.std.specs.Prelude.{◌≡◌, ◌<◌, ◌++◌, ◌∷◌, [], flat_map, map, IfOk, OnOk};
ghost use Rattle.std.specs.Option.{option_map};
ghost use Rattle.page_model.specs.View.{block_of, target_of};
ghost use Rattle.description.specs.View.{choice_said, command_said, commands_said, group_said, groups_said};
ghost use Rattle.description.specs.View.{level_said, opt_said, positional_said};
ghost use Rattle.description_pages.specs.Keys.{entries_once};
ghost use Rattle.description_pages.specs.Rows.{row_said};
ghost use Rattle.description_texts.specs.Texts.{text_blocks};
ghost use Rattle.description_pages.specs.Sections.{argument_section, choice_rows, command_rows};
ghost use Rattle.description_pages.specs.Sections.{command_rows_of, command_section, command_target, given_blocks};
ghost use Rattle.description_pages.specs.Sections.{group_section};
ghost use Rattle.description_pages.specs.Sections.{group_sections, joined_names, list_section, list_sections};
ghost use Rattle.description_pages.specs.Sections.{option_rows, option_rows_of, option_section, page_name};
ghost use Rattle.description_pages.specs.Sections.{section_of, shown_blocks, value_rows, value_rows_of};
ghost use Rattle.description_pages.specs.Sections.{without_colon, without_last};
ghost use Rattle.description.specs.Words.{words_said};

use crate::keys::{Row, command_key, entries_once, option_key, positional_key};
use crate::levels::Depth;
use crate::neighbours::names_below;
use crate::once::Keyed;
use bumpalo::Bump;
use description::{Choice, Command, FixedWords, Group, Level, Opt, Positional};
use description_texts::blocks;
use description_usage::{ArenaBlocks, command_entry, option_entry, positional_entry};
use page_model::{Block, Entry, Target};
use std::alloc::{AllocError, Allocator, Global};

/// How much of each text is shown: all of it, or its first block.
#[derive(Clone, Copy, Debug, PartialEq, Eq)]
pub enum Detail {
    Full,
    Brief,
}

/// Entries with their keys in an arena.
type ArenaRows<'p> = Vec<Row<'p, Global>, &'p Bump>;

/// What stands under a title.
#[derive(Debug, Drop)]
pub enum Body<'a, A: Allocator> {
    Listed(Vec<Entry<'a, A>, A>),
    Told(Vec<Block<'a, A>, A>),
}

/// A section: its title, and what stands under it.
#[derive(Debug, Drop)]
pub struct Section<'a, A: Allocator> {
    pub title: &'a str,
    pub body: Body<'a, A>,
}

/// A section in an arena.
pub type ArenaSection<'p> = Section<'p, &'p Bump>;

/// Sections in an arena.
pub type ArenaSections<'p> = Vec<ArenaSection<'p>, &'p Bump>;

/// What the entries of a list are made with.
#[derive(Clone, Copy)]
pub struct Making<'p> {
    pub arena: &'p Bump,
    pub words: &'p FixedWords<'p>,
    pub detail: Detail,
    /// What stands on the page.
    pub depth: Depth,
    /// The names that lead to the level.
    pub names: &'p [&'p str],
}

/// A text without this letter at its end, if it has one.
pub fn without_last(text: &str, last: char) -> &str
    requires { last < 128 }
    ensures { result.now ≡ without_last last text.now }
{
    match text.strip_suffix(last) {
        Some(rest) => rest,
        None => text,
    }
}

/// A title without the colon at its end, if it has one, and without white space at the end of the rest.
pub fn without_colon(title: &str) -> &str
    ensures { result.now ≡ without_colon title.now }
{
    without_last(title, ':').trim_end()
}

/// The blocks of a text that are shown; none where there is no text.
pub fn given_blocks<'p>(
    arena: &'p Bump,
    detail: Detail,
    text: Option<&'p str>,
) -> Result<ArenaBlocks<'p, Global>, AllocError>
    ensures { IfOk result (λ shown. map block_of shown.items
        ≡ given_blocks detail (option_map (λ t. t.now) text.entry)) }
{
    match text {
        None => Ok(Vec::new(arena)),
        Some(text) => shown_blocks(arena, detail, text),
    }
}

/// The blocks of a text that are shown.
pub fn shown_blocks<'p>(
    arena: &'p Bump,
    detail: Detail,
    text: &'p str,
) -> Result<ArenaBlocks<'p, Global>, AllocError>
    ensures { IfOk result (λ shown. map block_of shown.items ≡ shown_blocks detail (text_blocks text.now)) }
{
    let mut shown = blocks(arena, text)?;
    if detail == Detail::Brief {
        shown.truncate(1);
    }
    Ok(shown)
}

fn push_option<'p>(
    making: Making<'p>,
    rows: &mut ArenaRows<'p>,
    option: &'p Opt<'p>,
) -> Result<(), AllocError>
    ensures { OnOk result (map row_said rows.new.items ≡ map row_said rows.old.items
        ++ option_rows_of (words_said making.entry.words.now) making.entry.detail (opt_said option.now)) }
{
    if option.hidden {
        return Ok(());
    }
    let help = given_blocks(making.arena, making.detail, option.help)?;
    rows.push(Keyed {
        key: option_key(option),
        item: option_entry(making.arena, making.words, option, help)?,
    })?;
    Ok(())
}

fn push_options<'p>(
    making: Making<'p>,
    rows: &mut ArenaRows<'p>,
    options: &'p [Opt<'p>],
) -> Result<(), AllocError>
    ensures { OnOk result (map row_said rows.new.items ≡ map row_said rows.old.items
        ++ option_rows (words_said making.entry.words.now) making.entry.detail (map opt_said options.now)) }
{
    for option in options {
        push_option(making, rows, option)?;
    }
    Ok(())
}

fn push_choices<'p, 'a: 'p, C: Allocator>(
    making: Making<'p>,
    rows: &mut ArenaRows<'p>,
    choices: &'p [Choice<'a, C>],
) -> Result<(), AllocError>
    ensures { OnOk result (map row_said rows.new.items ≡ map row_said rows.old.items
        ++ choice_rows (words_said making.entry.words.now) making.entry.detail (map choice_said choices.now)) }
{
    for choice in choices {
        push_options(making, rows, choice.options.as_slice())?;
    }
    Ok(())
}

fn push_value<'p>(
    making: Making<'p>,
    rows: &mut ArenaRows<'p>,
    value: &'p Positional<'p>,
) -> Result<(), AllocError>
    ensures { OnOk result (map row_said rows.new.items ≡ map row_said rows.old.items
        ++ value_rows_of (words_said making.entry.words.now) making.entry.detail (positional_said value.now)) }
{
    if value.hidden {
        return Ok(());
    }
    let help = given_blocks(making.arena, making.detail, value.help)?;
    if let Some(entry) = positional_entry(making.arena, making.words, value, help)? {
        rows.push(Keyed {
            key: positional_key(value),
            item: entry,
        })?;
    }
    Ok(())
}

fn push_values<'p>(
    making: Making<'p>,
    rows: &mut ArenaRows<'p>,
    values: &'p [Positional<'p>],
) -> Result<(), AllocError>
    ensures { OnOk result (map row_said rows.new.items ≡ map row_said rows.old.items
        ++ value_rows (words_said making.entry.words.now) making.entry.detail (map positional_said values.now)) }
{
    for value in values {
        push_value(making, rows, value)?;
    }
    Ok(())
}

// Where the entry of a command leads.
fn command_target<'p>(making: Making<'p>, command: &str) -> Result<Target<'p>, AllocError>
    ensures { IfOk result (λ target. target_of target ≡ command_target making.entry.depth
        (map (λ name. name.now) making.entry.names.now ++ command.now ∷ [])) }
{
    let (arena, names) = (making.arena, making.names);
    match making.depth {
        Depth::Alone => Ok(Target::Page(names_below(arena, names, command, "-")?)),
        Depth::Deep => Ok(Target::Heading(names_below(arena, names, command, " ")?)),
    }
}

fn push_command<'p, 'a: 'p, C: Allocator>(
    making: Making<'p>,
    rows: &mut ArenaRows<'p>,
    command: &'p Command<'a, C>,
) -> Result<(), AllocError>
    ensures { OnOk result (map row_said rows.new.items ≡ map row_said rows.old.items
        ++ command_rows_of (words_said making.entry.words.now) making.entry.detail
        making.entry.depth (map (λ name. name.now) making.entry.names.now) (command_said command.now)) }
{
    if command.hidden {
        return Ok(());
    }
    let target = command_target(making, command.name)?;
    let help = given_blocks(making.arena, making.detail, command.help)?;
    rows.push(Keyed {
        key: command_key(command),
        item: command_entry(making.arena, making.words, target, command, help)?,
    })?;
    Ok(())
}

fn push_commands<'p, 'a: 'p, C: Allocator>(
    making: Making<'p>,
    rows: &mut ArenaRows<'p>,
    commands: &'p [Command<'a, C>],
) -> Result<(), AllocError>
    ensures { OnOk result (map row_said rows.new.items ≡ map row_said rows.old.items
        ++ command_rows (words_said making.entry.words.now) making.entry.detail
        making.entry.depth (map (λ name. name.now) making.entry.names.now) (commands_said commands.now)) }
{
    for command in commands {
        push_command(making, rows, command)?;
    }
    Ok(())
}

// Appends a list under its title, unless it has no entries. The first of the entries with one key is shown.
fn push_list<'p>(
    arena: &'p Bump,
    sections: &mut ArenaSections<'p>,
    title: &'p str,
    rows: ArenaRows<'p>,
) -> Result<(), AllocError>
    ensures { OnOk result (map section_of sections.new.items ≡ map section_of sections.old.items
        ++ list_section title.now (entries_once (map row_said rows.entry.items))) }
{
    let entries = entries_once(arena, rows)?;
    if entries.is_empty() {
        return Ok(());
    }
    sections.push(Section {
        title,
        body: Body::Listed(entries),
    })?;
    Ok(())
}

fn push_group<'p, 'a: 'p, C: Allocator>(
    making: Making<'p>,
    sections: &mut ArenaSections<'p>,
    group: &'p Group<'a, C>,
) -> Result<(), AllocError>
    ensures { OnOk result (map section_of sections.new.items ≡ map section_of sections.old.items
        ++ group_section (words_said making.entry.words.now) making.entry.detail
        making.entry.depth (map (λ name. name.now) making.entry.names.now) (group_said group.now)) }
{
    let mut rows: ArenaRows<'p> = Vec::new(making.arena);
    push_options(making, &mut rows, group.options.as_slice())?;
    push_choices(making, &mut rows, group.choices.as_slice())?;
    push_values(making, &mut rows, group.positionals.as_slice())?;
    push_commands(making, &mut rows, group.commands.as_slice())?;
    push_list(making.arena, sections, without_colon(group.title), rows)
}

fn push_groups<'p, 'a: 'p, C: Allocator>(
    making: Making<'p>,
    sections: &mut ArenaSections<'p>,
    groups: &'p [Group<'a, C>],
) -> Result<(), AllocError>
    ensures { OnOk result (map section_of sections.new.items ≡ map section_of sections.old.items
        ++ group_sections (words_said making.entry.words.now) making.entry.detail
        making.entry.depth (map (λ name. name.now) making.entry.names.now) (groups_said groups.now)) }
{
    for group in groups {
        push_group(making, sections, group)?;
    }
    Ok(())
}

fn push_arguments<'p, 'a: 'p, C: Allocator>(
    making: Making<'p>,
    sections: &mut ArenaSections<'p>,
    level: &'p Level<'a, C>,
) -> Result<(), AllocError>
    ensures { OnOk result (map section_of sections.new.items ≡ map section_of sections.old.items
        ++ argument_section (words_said making.entry.words.now) making.entry.detail (level_said level.now)) }
{
    let mut rows: ArenaRows<'p> = Vec::new(making.arena);
    push_values(making, &mut rows, level.positionals.as_slice())?;
    push_list(making.arena, sections, making.words.arguments, rows)
}

// The options that are in no group, and after them those that ask for help.
fn push_own_options<'p, 'a: 'p, C: Allocator>(
    making: Making<'p>,
    sections: &mut ArenaSections<'p>,
    level: &'p Level<'a, C>,
    help_options: &'p [Opt<'p>],
) -> Result<(), AllocError>
    ensures { OnOk result (map section_of sections.new.items ≡ map section_of sections.old.items
        ++ option_section (words_said making.entry.words.now) making.entry.detail (map opt_said help_options.now)
        (level_said level.now)) }
{
    let mut rows: ArenaRows<'p> = Vec::new(making.arena);
    push_options(making, &mut rows, level.options.as_slice())?;
    push_choices(making, &mut rows, level.choices.as_slice())?;
    push_options(making, &mut rows, help_options)?;
    push_list(making.arena, sections, making.words.options, rows)
}

fn push_own_commands<'p, 'a: 'p, C: Allocator>(
    making: Making<'p>,
    sections: &mut ArenaSections<'p>,
    level: &'p Level<'a, C>,
) -> Result<(), AllocError>
    ensures { OnOk result (map section_of sections.new.items ≡ map section_of sections.old.items
        ++ command_section (words_said making.entry.words.now) making.entry.detail
        making.entry.depth (map (λ name. name.now) making.entry.names.now) (level_said level.now)) }
{
    let mut rows: ArenaRows<'p> = Vec::new(making.arena);
    push_commands(making, &mut rows, level.commands.as_slice())?;
    push_list(making.arena, sections, making.words.commands, rows)
}

/// Appends the lists of a level: arguments, its groups, options and those that ask for help, and commands.
pub fn push_lists<'p, 'a: 'p, C: Allocator>(
    making: Making<'p>,
    sections: &mut ArenaSections<'p>,
    level: &'p Level<'a, C>,
    help_options: &'p [Opt<'p>],
) -> Result<(), AllocError>
    ensures { OnOk result (map section_of sections.new.items ≡ map section_of sections.old.items
        ++ list_sections (words_said making.entry.words.now) making.entry.detail
        making.entry.depth (map (λ name. name.now) making.entry.names.now) (map opt_said help_options.now)
        (level_said level.now)) }
{
    push_arguments(making, sections, level)?;
    push_groups(making, sections, level.groups.as_slice())?;
    push_own_options(making, sections, level, help_options)?;
    push_own_commands(making, sections, level)
}
