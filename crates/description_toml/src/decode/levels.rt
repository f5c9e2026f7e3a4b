//! Levels, groups and commands, each from its table.
ghost use Rattle.std.specs.Prelude.{◌≡◌, IfOk, ◌≤◌, codes};
ghost use Rattle.toml.specs.Data.{members_depth};
ghost use Rattle.toml.specs.View.{items_view, table_view, view};
ghost use Rattle.description_toml.specs.Described.{as_command, as_group, command_head, commands_at, each_command};
ghost use Rattle.description_toml.specs.Described.{each_group, group_head, groups_at, has_members, level_of};
ghost use Rattle.description_toml.specs.Described.{lists_from, outline_from, texts_from};
ghost use Rattle.description_toml.specs.Described.Steps.{command_head_seen, group_head_seen, lists_depth};
ghost use Rattle.description_toml.specs.Described.Steps.{lists_seen, outline_seen, texts_seen};
ghost use Rattle.description_toml.specs.Faults.{Reads, Sees};
ghost use Rattle.description.specs.View.{command_said, commands_said, group_said, groups_said, level_said};

use super::options::{choices_in, options_in, positionals_in};
use super::taken::check_names;
use super::teller::{Refused, Teller};
use super::texts::Kind;
use super::topics::topics_in;
use super::values::{
    check_keys, flag_at, is_empty, required_text_at, required_word_at, short_at, table_of,
    tables_at, tables_there, text_at, words_at,
};
use description::levels::{Command, Group, Level};
use lasting_names::Names;
use std::alloc::Allocator;
use toml::{Table, Value};

const GROUP_KEYS: [&str; 5] = ["title", "option", "choice", "positional", "command"];

const COMMAND_KEYS: [&str; 16] = [
    "name",
    "short",
    "help",
    "hidden",
    "aliases",
    "about",
    "header",
    "footer",
    "usage",
    "command_required",
    "option",
    "choice",
    "group",
    "positional",
    "command",
    "topic",
];

/// The texts of a level except its topics.
#[derive(Clone, Copy)]
pub struct Texts<'a> {
    about: Option<&'a str>,
    header: Option<&'a str>,
    footer: Option<&'a str>,
    usage: Option<&'a str>,
}

/// The arrays of tables of a level or of a group.
#[derive(Clone, Copy)]
pub struct Lists<'a> {
    options: &'a [Value],
    choices: &'a [Value],
    groups: &'a [Value],
    positionals: &'a [Value],
    commands: &'a [Value],
    topics: &'a [Value],
}

/// What a level says of itself, with the tables in it still to be read.
#[derive(Clone, Copy)]
pub struct Outline<'a> {
    texts: Texts<'a>,
    command_required: bool,
    lists: Lists<'a>,
}

/// What a group says of itself.
#[derive(Clone, Copy)]
pub struct GroupHead<'a> {
    title: &'a str,
    lists: Lists<'a>,
}

/// What a command says of itself.
#[derive(Drop)]
pub struct CommandHead<'a, A: Allocator> {
    name: &'static str,
    short: Option<char>,
    help: Option<&'a str>,
    hidden: bool,
    aliases: Vec<&'static str, A>,
    outline: Outline<'a>,
}

#[tactic(auto, unfolding(crate::specs::Described::texts_from))]
fn texts_from<'a, A: Allocator + Copy>(
    teller: &mut Teller<'a, A>,
    table: &'a Table,
) -> Result<Texts<'a>, Refused>
    ensures { Reads (texts_from (table_view table.now)) (λ texts. texts_seen texts) result }
{
    let about = text_at(teller, table, "about", Kind::Text);
    let header = text_at(teller, table, "header", Kind::Text);
    let footer = text_at(teller, table, "footer", Kind::Text);
    let usage = text_at(teller, table, "usage", Kind::Text);
    Ok(Texts {
        about: about?,
        header: header?,
        footer: footer?,
        usage: usage?,
    })
}

#[tactic(auto, using(crate::proofs::Depths::tables_groups, crate::proofs::Depths::tables_commands, crate::proofs::Depths::tables_depth), unfolding(crate::specs::Described::lists_from))]
fn lists_from<'a, A: Allocator + Copy>(
    teller: &mut Teller<'a, A>,
    table: &'a Table,
) -> Result<Lists<'a>, Refused>
    ensures lists { Reads (lists_from (table_view table.now)) (λ lists. lists_seen lists) result }
    ensures groups { IfOk result (λ lists. groups_at (codes "group") (table_view table.now)
        ≡ each_group (lists_seen lists).groups) }
    ensures commands { IfOk result (λ lists. commands_at (codes "command") (table_view table.now)
        ≡ each_command (lists_seen lists).commands) }
    ensures depth { IfOk result (λ lists. lists_depth (lists_seen lists) ≤ members_depth (table_view table.now)) }
{
    let options = tables_at(teller, table, "option");
    let choices = tables_at(teller, table, "choice");
    let groups = tables_at(teller, table, "group");
    let positionals = tables_at(teller, table, "positional");
    let commands = tables_at(teller, table, "command");
    let topics = tables_at(teller, table, "topic");
    Ok(Lists {
        options: options?,
        choices: choices?,
        groups: groups?,
        positionals: positionals?,
        commands: commands?,
        topics: topics?,
    })
}

// The arrays of tables of a level that was refused, to report what is inside.
fn lists_there(table: &Table) -> Lists<'_>
    ensures { lists_depth (lists_seen result) ≤ members_depth (table_view table.now) }
{
    Lists {
        options: tables_there(table, "option"),
        choices: tables_there(table, "choice"),
        groups: tables_there(table, "group"),
        positionals: tables_there(table, "positional"),
        commands: tables_there(table, "command"),
        topics: tables_there(table, "topic"),
    }
}

// Those of a group.
fn group_lists_there(table: &Table) -> Lists<'_>
    ensures { lists_depth (lists_seen result) ≤ members_depth (table_view table.now) }
{
    Lists {
        options: tables_there(table, "option"),
        choices: tables_there(table, "choice"),
        groups: &[],
        positionals: tables_there(table, "positional"),
        commands: tables_there(table, "command"),
        topics: &[],
    }
}

/// What the table of a level says of it.
#[tactic(auto, unfolding(crate::specs::Described::outline_from))]
pub fn outline_from<'a, A: Allocator + Copy>(
    teller: &mut Teller<'a, A>,
    table: &'a Table,
) -> Result<Outline<'a>, Refused>
    ensures outline { Reads (outline_from (table_view table.now)) (λ outline. outline_seen outline) result }
    ensures groups { IfOk result (λ outline. groups_at (codes "group") (table_view table.now)
        ≡ each_group ((outline_seen outline).lists).groups) }
    ensures commands { IfOk result (λ outline. commands_at (codes "command") (table_view table.now)
        ≡ each_command ((outline_seen outline).lists).commands) }
    ensures depth { IfOk result (λ outline.
        lists_depth ((outline_seen outline).lists) ≤ members_depth (table_view table.now)) }
{
    let texts = texts_from(teller, table);
    let command_required = flag_at(teller, table, "command_required", true);
    let lists = lists_from(teller, table);
    let are_distinct = check_names(teller, table);
    let outline = Outline {
        texts: texts?,
        command_required: command_required?,
        lists: lists?,
    };
    are_distinct?;
    Ok(outline)
}

fn has_members(lists: &Lists<'_>) -> bool
    ensures { result ≡ has_members (lists_seen lists.now) }
{
    !(is_empty(lists.options)
        && is_empty(lists.choices)
        && is_empty(lists.positionals)
        && is_empty(lists.commands))
}

/// The level of an outline, with the tables in it.
#[cycle(decode)]
pub fn level_of<'a, A: Allocator + Copy>(
    teller: &mut Teller<'a, A>,
    names: &mut Names,
    outline: Outline<'a>,
) -> Result<Level<'a, A>, Refused>
    ensures { Reads (level_of (each_group (outline_seen outline.entry).lists.groups)
        (each_command (outline_seen outline.entry).lists.commands) (outline_seen outline.entry)) (λ l.
        level_said l) result }
{
    let Outline {
        texts,
        command_required,
        lists,
    } = outline;
    let options = options_in(teller, names, lists.options);
    let choices = choices_in(teller, names, lists.choices);
    let groups = groups_in(teller, names, lists.groups);
    let positionals = positionals_in(teller, names, lists.positionals);
    let commands = commands_in(teller, names, lists.commands);
    let topics = topics_in(teller, lists.topics);
    Ok(Level {
        about: texts.about,
        header: texts.header,
        footer: texts.footer,
        usage: texts.usage,
        command_required,
        options: options?,
        choices: choices?,
        groups: groups?,
        positionals: positionals?,
        commands: commands?,
        topics: topics?,
    })
}

// Reads the tables in a table that was refused, to report their faults.
#[cycle(decode)]
fn read_on<'a, A: Allocator + Copy>(
    teller: &mut Teller<'a, A>,
    names: &mut Names,
    lists: Lists<'a>,
) {
    drop(options_in(teller, names, lists.options));
    drop(choices_in(teller, names, lists.choices));
    drop(groups_in(teller, names, lists.groups));
    drop(positionals_in(teller, names, lists.positionals));
    drop(commands_in(teller, names, lists.commands));
    drop(topics_in(teller, lists.topics));
}

/// Reads the tables in the table of a level that was refused, to report their faults.
pub fn read_level_on<'a, A: Allocator + Copy>(
    teller: &mut Teller<'a, A>,
    names: &mut Names,
    table: &'a Table,
) {
    read_on(teller, names, lists_there(table));
}

#[tactic(auto, unfolding(crate::specs::Described::command_head))]
fn command_head<'a, A: Allocator + Copy>(
    teller: &mut Teller<'a, A>,
    names: &mut Names,
    table: &'a Table,
) -> Result<CommandHead<'a, A>, Refused>
    ensures head { Reads (command_head (table_view table.now)) (λ head. command_head_seen head) result }
    ensures groups { IfOk result (λ head. groups_at (codes "group") (table_view table.now)
        ≡ each_group ((command_head_seen head).outline.lists).groups) }
    ensures commands { IfOk result (λ head. commands_at (codes "command") (table_view table.now)
        ≡ each_command ((command_head_seen head).outline.lists).commands) }
    ensures depth { IfOk result (λ head.
        lists_depth ((command_head_seen head).outline.lists) ≤ members_depth (table_view table.now)) }
{
    let are_known = check_keys(teller, table, &COMMAND_KEYS);
    let name = required_word_at(teller, names, table, "name", Kind::Command);
    let short = short_at(teller, table, "short");
    let help = text_at(teller, table, "help", Kind::Text);
    let hidden = flag_at(teller, table, "hidden", false);
    let aliases = words_at(teller, names, table, "aliases", Kind::Command);
    let outline = outline_from(teller, table);
    are_known?;
    Ok(CommandHead {
        name: name?,
        short: short?,
        help: help?,
        hidden: hidden?,
        aliases: aliases?,
        outline: outline?,
    })
}

#[cycle(decode)]
fn command_from<'a, A: Allocator + Copy>(
    teller: &mut Teller<'a, A>,
    names: &mut Names,
    item: &'a Value,
) -> Result<Command<'a, A>, Refused>
    ensures { Reads (as_command (view item.now)) (λ c. command_said c) result }
{
    let table = table_of(teller, item)?;
    let head = match command_head(teller, names, table) {
        Ok(head) => head,
        Err(refused) => {
            read_on(teller, names, lists_there(table));
            return Err(refused);
        }
    };
    let CommandHead {
        name,
        short,
        help,
        hidden,
        aliases,
        outline,
    } = head;
    let level = level_of(teller, names, outline)?;
    Ok(Command {
        name,
        short,
        aliases,
        help,
        hidden,
        level,
    })
}

#[cycle(decode)]
fn commands_in<'a, A: Allocator + Copy>(
    teller: &mut Teller<'a, A>,
    names: &mut Names,
    items: &'a [Value],
) -> Result<Vec<Command<'a, A>, A>, Refused>
    ensures { Reads (each_command (items_view items.now)) (λ commands. commands_said commands.items) result }
{
    teller.enter("command", items)?;
    let mut commands = Ok(Vec::new(teller.alloc()));
    for item in items {
        let command = command_from(teller, names, item);
        commands = teller.joined(commands, command);
    }
    teller.leave();
    commands
}

#[tactic(auto, unfolding(crate::specs::Described::group_head))]
fn group_head<'a, A: Allocator + Copy>(
    teller: &mut Teller<'a, A>,
    table: &'a Table,
) -> Result<GroupHead<'a>, Refused>
    ensures head { Reads (group_head (table_view table.now)) (λ head. group_head_seen head) result }
    ensures groups { IfOk result (λ head. groups_at (codes "group") (table_view table.now)
        ≡ each_group ((group_head_seen head).lists).groups) }
    ensures commands { IfOk result (λ head. commands_at (codes "command") (table_view table.now)
        ≡ each_command ((group_head_seen head).lists).commands) }
    ensures depth { IfOk result (λ head.
        lists_depth ((group_head_seen head).lists) ≤ members_depth (table_view table.now)) }
{
    let are_known = check_keys(teller, table, &GROUP_KEYS);
    let title = required_text_at(teller, table, "title", Kind::Heading);
    let lists = lists_from(teller, table)?;
    let have_members = check_members(teller, &lists);
    are_known?;
    let title = title?;
    have_members?;
    Ok(GroupHead { title, lists })
}

fn check_members<'a, A: Allocator + Copy>(
    teller: &mut Teller<'a, A>,
    lists: &Lists<'_>,
) -> Result<(), Refused>
    ensures { Sees (has_members (lists_seen lists.now)) result }
{
    if has_members(lists) {
        Ok(())
    } else {
        Err(teller.tell_missing("option, choice, positional or command"))
    }
}

#[cycle(decode)]
fn group_from<'a, A: Allocator + Copy>(
    teller: &mut Teller<'a, A>,
    names: &mut Names,
    item: &'a Value,
) -> Result<Group<'a, A>, Refused>
    ensures { Reads (as_group (view item.now)) (λ g. group_said g) result }
{
    let table = table_of(teller, item)?;
    let GroupHead { title, lists } = match group_head(teller, table) {
        Ok(head) => head,
        Err(refused) => {
            read_on(teller, names, group_lists_there(table));
            return Err(refused);
        }
    };
    let options = options_in(teller, names, lists.options);
    let choices = choices_in(teller, names, lists.choices);
    let positionals = positionals_in(teller, names, lists.positionals);
    let commands = commands_in(teller, names, lists.commands);
    Ok(Group {
        title,
        options: options?,
        choices: choices?,
        positionals: positionals?,
        commands: commands?,
    })
}

#[cycle(decode)]
fn groups_in<'a, A: Allocator + Copy>(
    teller: &mut Teller<'a, A>,
    names: &mut Names,
    items: &'a [Value],
) -> Result<Vec<Group<'a, A>, A>, Refused>
    ensures { Reads (each_group (items_view items.now)) (λ groups. groups_said groups.items) result }
{
    teller.enter("group", items)?;
    let mut groups = Ok(Vec::new(teller.alloc()));
    for item in items {
        let group = group_from(teller, names, item);
        groups = teller.joined(groups, group);
    }
    teller.leave();
    groups
}
