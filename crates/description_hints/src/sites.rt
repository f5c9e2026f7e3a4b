//! The parts of a description that hints may be about, each with the way to it.
ghost use Rattle.std.specs.Prelude.{◌≡◌, ◌++◌, ◌∷◌, [], codes, map, IfOk, OnOk};
ghost use Rattle.description.specs.View.{choice_said, command_said, commands_said, description_said, group_said};
ghost use Rattle.description.specs.View.{groups_said, level_said, opt_said, positional_said, text_of, topic_said};
ghost use Rattle.description_usage.specs.Forms.{level_text};
ghost use Rattle.description_hints.specs.Content.{index, key};
ghost use Rattle.description_hints.specs.Names.{level_words};
ghost use Rattle.description_hints.specs.Sites.{choice_sites, choices_sites, command_sites, commands_sites};
ghost use Rattle.description_hints.specs.Sites.{group_sites, groups_sites, level_sites, option_sites, options_sites};
ghost use Rattle.description_hints.specs.Sites.{positional_sites, positionals_sites, sites, table_in, text_sites, topics_sites, under};
ghost use Rattle.description_hints.specs.Sites.{own_texts, standing_of, usage_sites, value_sites};
ghost use Rattle.description_hints.specs.View.{part_said, path_said, site_said};

use crate::level_words::level_words;
use bumpalo::Bump;
use bumpalo::collections::into_bump_slice;
use description::{Choice, Command, Description, Group, Level, Opt, Positional, Topic};
use keyed::Step;
use std::alloc::{AllocError, Allocator};

/// Where an option stands.
#[derive(Clone, Copy)]
pub enum Standing {
    /// Among those that ask for help.
    ForHelp,
    /// In the usage that is made of its level.
    InUsage,
    /// On a level that has a text in place of such a usage.
    OutsideUsage,
}

/// A part of a description that hints may be about.
#[derive(Clone, Copy)]
pub enum Part<'p> {
    /// The application, by what is said about it.
    Application(Option<&'p str>),
    Option {
        option: Opt<'p>,
        standing: Standing,
    },
    Positional(Positional<'p>),
    Command {
        is_hidden: bool,
        help: Option<&'p str>,
        about: Option<&'p str>,
    },
    Text(&'p str),
    /// A text in place of a usage, and the words that the options of its level are called by.
    Usage {
        text: &'p str,
        own_words: &'p [&'p [u8]],
    },
}

/// Such a part, and the way to it.
#[derive(Clone, Copy)]
pub struct Site<'p> {
    pub path: &'p [Step<'p>],
    pub part: Part<'p>,
}

/// Such parts in an arena.
pub type Sites<'p> = Vec<Site<'p>, &'p Bump>;

// ---- ways

/// The way to what a key of a table names.
pub fn under<'p>(
    arena: &'p Bump,
    path: &[Step<'p>],
    name: &'static str,
) -> Result<&'p [Step<'p>], AllocError>
    ensures { IfOk result (λ way. path_said way.now ≡ under (path_said path.now) name.now) }
{
    let mut way: Vec<Step<'p>, &'p Bump> = Vec::new(arena);
    way.extend_from_slice(path)?;
    way.push(Step::Key(name))?;
    Ok(into_bump_slice(way))
}

/// The way to a table of the list that a key names.
pub fn table_in<'p>(
    arena: &'p Bump,
    path: &[Step<'p>],
    list: &'static str,
    at: usize,
) -> Result<&'p [Step<'p>], AllocError>
    ensures { IfOk result (λ way. path_said way.now ≡ table_in (path_said path.now) list.now at) }
{
    let mut way: Vec<Step<'p>, &'p Bump> = Vec::new(arena);
    way.extend_from_slice(path)?;
    way.push(Step::Key(list))?;
    way.push(Step::Index(at))?;
    Ok(into_bump_slice(way))
}

// ---- texts

fn push_text<'p>(
    arena: &'p Bump,
    sites: &mut Sites<'p>,
    path: &[Step<'p>],
    name: &'static str,
    text: Option<&'p str>,
) -> Result<(), AllocError>
    ensures { OnOk result (map site_said sites.new.items
        ≡ map site_said sites.old.items ++ text_sites (path_said path.now) name.now (text_of text.entry)) }
{
    if let Some(text) = text {
        let path = under(arena, path, name)?;
        let part = Part::Text(text);
        sites.push(Site { path, part })?;
    }
    Ok(())
}

fn push_usage<'p, 'a: 'p, C: Allocator>(
    arena: &'p Bump,
    sites: &mut Sites<'p>,
    path: &[Step<'p>],
    level: &'p Level<'a, C>,
) -> Result<(), AllocError>
    ensures { OnOk result (map site_said sites.new.items ≡ map site_said sites.old.items
        ++ usage_sites (path_said path.now) (level_text (level_said level.now)) (level_words (level_said level.now))) }
{
    if let Some(text) = level.usage {
        let path = under(arena, path, "usage")?;
        let part = Part::Usage {
            text,
            own_words: level_words(arena, level)?,
        };
        sites.push(Site { path, part })?;
    }
    Ok(())
}

// The texts of a level but those of topics.
fn push_own_texts<'p, 'a: 'p, C: Allocator>(
    arena: &'p Bump,
    sites: &mut Sites<'p>,
    path: &[Step<'p>],
    level: &'p Level<'a, C>,
) -> Result<(), AllocError>
    ensures { OnOk result (map site_said sites.new.items
        ≡ map site_said sites.old.items ++ own_texts (path_said path.now) (level_said level.now)) }
{
    push_text(arena, sites, path, "about", level.about)?;
    push_text(arena, sites, path, "header", level.header)?;
    push_text(arena, sites, path, "footer", level.footer)?;
    push_usage(arena, sites, path, level)
}

fn push_topics<'p>(
    arena: &'p Bump,
    sites: &mut Sites<'p>,
    path: &[Step<'p>],
    topics: &[Topic<'p>],
) -> Result<(), AllocError>
    ensures { OnOk result (map site_said sites.new.items
        ≡ map site_said sites.old.items ++ topics_sites (path_said path.now) (map topic_said topics.now)) }
{
    for (at, topic) in topics.iter().enumerate() {
        let path = table_in(arena, path, "topic", at)?;
        push_text(arena, sites, path, "text", Some(topic.text))?;
    }
    Ok(())
}

// ---- what a level has

fn push_option<'p>(
    arena: &'p Bump,
    sites: &mut Sites<'p>,
    standing: Standing,
    path: &'p [Step<'p>],
    option: &Opt<'p>,
) -> Result<(), AllocError>
    ensures { OnOk result (map site_said sites.new.items
        ≡ map site_said sites.old.items ++ option_sites standing (path_said path.now) (opt_said option.now)) }
{
    let part = Part::Option {
        option: *option,
        standing,
    };
    sites.push(Site { path, part })?;
    push_text(arena, sites, path, "help", option.help)
}

fn push_options<'p>(
    arena: &'p Bump,
    sites: &mut Sites<'p>,
    standing: Standing,
    path: &[Step<'p>],
    list: &'static str,
    options: &[Opt<'p>],
) -> Result<(), AllocError>
    ensures { OnOk result (map site_said sites.new.items ≡ map site_said sites.old.items
        ++ options_sites standing (path_said path.now) list.now (map opt_said options.now)) }
{
    for (at, option) in options.iter().enumerate() {
        let path = table_in(arena, path, list, at)?;
        push_option(arena, sites, standing, path, option)?;
    }
    Ok(())
}

fn push_choices<'p, 'a: 'p, C: Allocator>(
    arena: &'p Bump,
    sites: &mut Sites<'p>,
    standing: Standing,
    path: &[Step<'p>],
    choices: &'p [Choice<'a, C>],
) -> Result<(), AllocError>
    ensures { OnOk result (map site_said sites.new.items ≡ map site_said sites.old.items
        ++ choices_sites standing (path_said path.now) (map choice_said choices.now)) }
{
    for (at, choice) in choices.iter().enumerate() {
        let path = table_in(arena, path, "choice", at)?;
        let options = choice.options.as_slice();
        push_options(arena, sites, standing, path, "option", options)?;
    }
    Ok(())
}

fn push_value<'p>(
    arena: &'p Bump,
    sites: &mut Sites<'p>,
    path: &'p [Step<'p>],
    positional: &Positional<'p>,
) -> Result<(), AllocError>
    ensures { OnOk result (map site_said sites.new.items ≡ map site_said sites.old.items
        ++ value_sites (path_said path.now) (positional_said positional.now)) }
{
    let part = Part::Positional(*positional);
    sites.push(Site { path, part })?;
    push_text(arena, sites, path, "help", positional.help)
}

fn push_positional<'p>(
    arena: &'p Bump,
    sites: &mut Sites<'p>,
    path: &[Step<'p>],
    at: usize,
    positional: &Positional<'p>,
) -> Result<(), AllocError>
    ensures { OnOk result (map site_said sites.new.items ≡ map site_said sites.old.items
        ++ positional_sites (path_said path.now) at (positional_said positional.now)) }
{
    let path = table_in(arena, path, "positional", at)?;
    push_value(arena, sites, path, positional)
}

fn push_positionals<'p>(
    arena: &'p Bump,
    sites: &mut Sites<'p>,
    path: &[Step<'p>],
    positionals: &[Positional<'p>],
) -> Result<(), AllocError>
    ensures { OnOk result (map site_said sites.new.items ≡ map site_said sites.old.items
        ++ positionals_sites (path_said path.now) (map positional_said positionals.now)) }
{
    for (at, positional) in positionals.iter().enumerate() {
        push_positional(arena, sites, path, at, positional)?;
    }
    Ok(())
}

fn standing_of<C: Allocator>(level: &Level<'_, C>) -> Standing
    ensures { result ≡ standing_of (level_said level.now) }
{
    match level.usage {
        Some(_) => Standing::OutsideUsage,
        None => Standing::InUsage,
    }
}

#[cycle(sites)]
fn push_level<'p, 'a: 'p, C: Allocator>(
    arena: &'p Bump,
    sites: &mut Sites<'p>,
    path: &'p [Step<'p>],
    level: &'p Level<'a, C>,
) -> Result<(), AllocError>
    ensures { OnOk result (map site_said sites.new.items
        ≡ map site_said sites.old.items ++ level_sites (path_said path.now) (level_said level.now)) }
{
    let standing = standing_of(level);
    push_own_texts(arena, sites, path, level)?;
    push_options(
        arena,
        sites,
        standing,
        path,
        "option",
        level.options.as_slice(),
    )?;
    push_choices(arena, sites, standing, path, level.choices.as_slice())?;
    push_groups(arena, sites, standing, path, &level.groups)?;
    push_positionals(arena, sites, path, level.positionals.as_slice())?;
    push_commands(arena, sites, path, &level.commands)?;
    push_topics(arena, sites, path, level.topics.as_slice())
}

#[cycle(sites)]
fn push_groups<'p, 'a: 'p, C: Allocator>(
    arena: &'p Bump,
    sites: &mut Sites<'p>,
    standing: Standing,
    path: &'p [Step<'p>],
    groups: &'p Vec<Group<'a, C>, C>,
) -> Result<(), AllocError>
    ensures { OnOk result (map site_said sites.new.items ≡ map site_said sites.old.items
        ++ groups_sites standing (path_said path.now) 0 (groups_said groups.now.items)) }
{
    for (at, group) in groups.iter().enumerate() {
        let path = table_in(arena, path, "group", at)?;
        push_group(arena, sites, standing, path, group)?;
    }
    Ok(())
}

#[cycle(sites)]
fn push_group<'p, 'a: 'p, C: Allocator>(
    arena: &'p Bump,
    sites: &mut Sites<'p>,
    standing: Standing,
    path: &'p [Step<'p>],
    group: &'p Group<'a, C>,
) -> Result<(), AllocError>
    ensures { OnOk result (map site_said sites.new.items
        ≡ map site_said sites.old.items ++ group_sites standing (path_said path.now) (group_said group.now)) }
{
    push_options(
        arena,
        sites,
        standing,
        path,
        "option",
        group.options.as_slice(),
    )?;
    push_choices(arena, sites, standing, path, group.choices.as_slice())?;
    push_positionals(arena, sites, path, group.positionals.as_slice())?;
    push_commands(arena, sites, path, &group.commands)
}

#[cycle(sites)]
fn push_commands<'p, 'a: 'p, C: Allocator>(
    arena: &'p Bump,
    sites: &mut Sites<'p>,
    path: &'p [Step<'p>],
    commands: &'p Vec<Command<'a, C>, C>,
) -> Result<(), AllocError>
    ensures { OnOk result (map site_said sites.new.items ≡ map site_said sites.old.items
        ++ commands_sites (path_said path.now) 0 (commands_said commands.now.items)) }
{
    for (at, command) in commands.iter().enumerate() {
        let path = table_in(arena, path, "command", at)?;
        push_command(arena, sites, path, command)?;
    }
    Ok(())
}

#[cycle(sites)]
fn push_command<'p, 'a: 'p, C: Allocator>(
    arena: &'p Bump,
    sites: &mut Sites<'p>,
    path: &'p [Step<'p>],
    command: &'p Command<'a, C>,
) -> Result<(), AllocError>
    ensures { OnOk result (map site_said sites.new.items
        ≡ map site_said sites.old.items ++ command_sites (path_said path.now) (command_said command.now)) }
{
    let part = Part::Command {
        is_hidden: command.hidden,
        help: command.help,
        about: command.level.about,
    };
    sites.push(Site { path, part })?;
    push_text(arena, sites, path, "help", command.help)?;
    push_level(arena, sites, path, &command.level)
}

/// The parts of a description that hints may be about. An error comes only where an allocation failed.
pub fn sites<'p, 'a: 'p, C: Allocator>(
    arena: &'p Bump,
    description: &'p Description<'a, C>,
) -> Result<Sites<'p>, AllocError>
    ensures { IfOk result (λ found. map site_said found.items ≡ sites (description_said description.now)) }
{
    let mut found: Sites<'p> = Vec::new(arena);
    let path: &'p [Step<'p>] = into_bump_slice(Vec::new(arena));
    let part = Part::Application(description.level.about);
    found.push(Site { path, part })?;
    let help_options = description.help_options.as_slice();
    push_options(
        arena,
        &mut found,
        Standing::ForHelp,
        path,
        "help_option",
        help_options,
    )?;
    push_level(arena, &mut found, path, &description.level)?;
    Ok(found)
}
