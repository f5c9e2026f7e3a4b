//! Which words lead from a level to one below it, and all levels below one.
ghost use Rattle.std.specs.Prelude.{◌≡◌, ◌++◌, ◌∷◌, [], codes, map, IfOk, OnOk, bytes_eq};
ghost use Rattle.std.specs.List.{find, list_any};
ghost use Rattle.std.specs.Option.{option_map};
ghost use Rattle.description.specs.View.{command_said, commands_said, group_said, groups_said, level_said, opt_said};
ghost use Rattle.description_pages.specs.LevelsView.{subject_of};
ghost use Rattle.description_pages.specs.Sections.{joined_names, page_name};
ghost use Rattle.description_pages.specs.Subjects.{all_from, below, below_commands, below_group, below_groups};
ghost use Rattle.description_pages.specs.Subjects.{below_level, command_named, from_command, grouped, is_named};
ghost use Rattle.description_pages.specs.Subjects.{in_short, name_only, subjects_after, subjects_below};

use crate::levels::LevelSubject;
use crate::neighbours::joined_names;
use bumpalo::Bump;
use bumpalo::collections::into_bump_slice;
use description::{Command, Group, Level, Opt};
use std::alloc::{AllocError, Allocator};

/// Levels in an arena.
pub type ArenaSubjects<'p, 'a, C> = Vec<LevelSubject<'p, 'a, C>, &'p Bump>;

// ---- what a level is called

/// The name of the page of the level that these names lead to: the names with `-` between two. An error comes only
/// where an allocation failed.
pub fn page_name<'p>(arena: &'p Bump, names: &[&str]) -> Result<&'p str, AllocError>
    ensures { IfOk result (λ name. name.now ≡ page_name (map (λ name. name.now) names.now)) }
{
    joined_names(arena, names, "-")
}

/// The title of that page: the names with a blank between two. An error comes only where an allocation failed.
pub fn title<'p>(arena: &'p Bump, names: &[&str]) -> Result<&'p str, AllocError>
    ensures { IfOk result (λ title. title.now ≡ joined_names (codes " ") (map (λ name. name.now) names.now)) }
{
    joined_names(arena, names, " ")
}

// ---- the command that a word names

/// The level that a word leads to from another: that of the first command that has it as its name, short name or
/// another name. The commands of groups come before the others, and hidden ones are found too. None where no command
/// has the name. An error comes only where an allocation failed.
pub fn enter<'p, 'a: 'p, C: Allocator>(
    arena: &'p Bump,
    subject: LevelSubject<'p, 'a, C>,
    word: &str,
) -> Result<Option<LevelSubject<'p, 'a, C>>, AllocError>
    ensures { IfOk result (λ found. option_map subject_of found ≡ option_map (below (subject_of subject.entry))
        (command_named word.now (subject_of subject.entry).level)) }
{
    let Some(command) = command_on(subject.level, word) else {
        return Ok(None);
    };
    Ok(Some(below(arena, subject, command)?))
}

// The names that lead to a command of a level.
fn names_below<'p>(
    arena: &'p Bump,
    names: &[&'p str],
    name: &'p str,
) -> Result<&'p [&'p str], AllocError>
    ensures { IfOk result (λ path. map (λ name. name.now) path.now ≡ map (λ name. name.now) names.now ++ name.now ∷ []) }
{
    let mut path: Vec<&'p str, &'p Bump> = Vec::new(arena);
    path.extend_from_slice(names)?;
    path.push(name)?;
    Ok(into_bump_slice(path))
}

/// A command of a level, as a level. An error comes only where an allocation failed.
pub fn below<'p, 'a: 'p, C: Allocator>(
    arena: &'p Bump,
    above: LevelSubject<'p, 'a, C>,
    command: &'p Command<'a, C>,
) -> Result<LevelSubject<'p, 'a, C>, AllocError>
    ensures { IfOk result (λ subject.
        subject_of subject ≡ below (subject_of above.entry) (command_said command.now)) }
{
    Ok(LevelSubject {
        names: names_below(arena, above.names, command.name)?,
        help: command.help,
        help_options: above.help_options,
        level: &command.level,
    })
}

// The first command of the level that the word is a name of.
#[tactic(auto, using(crate::proofs::Named::on_level))]
fn command_on<'p, 'a: 'p, C: Allocator>(
    level: &'p Level<'a, C>,
    word: &str,
) -> Option<&'p Command<'a, C>>
    ensures { option_map (λ command. command_said command.now) result
        ≡ command_named word.now (level_said level.now) }
{
    match grouped_command(level.groups.as_slice(), word) {
        Some(command) => Some(command),
        None => listed_command(level.commands.as_slice(), word),
    }
}

#[tactic(auto, using(crate::proofs::Named::no_group_left))]
fn grouped_command<'p, 'a: 'p, C: Allocator>(
    groups: &'p [Group<'a, C>],
    word: &str,
) -> Option<&'p Command<'a, C>>
    ensures { option_map (λ command. command_said command.now) result
        ≡ find (is_named word.now) (grouped (groups_said groups.now)) }
{
    for group in groups {
        if let Some(command) = listed_command(group.commands.as_slice(), word) {
            return Some(command);
        }
    }
    None
}

#[tactic(auto, using(crate::proofs::Named::found, crate::proofs::Named::passed, crate::proofs::Named::none_left))]
fn listed_command<'p, 'a: 'p, C: Allocator>(
    commands: &'p [Command<'a, C>],
    word: &str,
) -> Option<&'p Command<'a, C>>
    ensures { option_map (λ command. command_said command.now) result
        ≡ find (is_named word.now) (map command_said commands.now) }
{
    for command in commands {
        if has_name(command, word) {
            return Some(command);
        }
    }
    None
}

fn has_name<C: Allocator>(command: &Command<'_, C>, word: &str) -> bool
    ensures { result ≡ is_named word.now (command_said command.now) }
{
    if *word == *command.name {
        return true;
    }
    match command.short {
        None => is_among(command.aliases.as_slice(), word),
        Some(short) => {
            *word == *short.encode_utf8(&mut [0; 4]) || is_among(command.aliases.as_slice(), word)
        }
    }
}

fn is_among(names: &[&'static str], word: &str) -> bool
    ensures { result ≡ list_any (bytes_eq word.now) (map (λ name. name.now) names.now) }
{
    for name in names {
        if *word == **name {
            return true;
        }
    }
    false
}

// ---- all levels below one

/// The level itself and all levels below it that are not hidden, each before those below it, and those of groups
/// before the other commands of a level. What stands below a hidden command is left out with it. An error comes only
/// where an allocation failed.
pub fn all_from<'p, 'a: 'p, C: Allocator>(
    arena: &'p Bump,
    subject: LevelSubject<'p, 'a, C>,
) -> Result<ArenaSubjects<'p, 'a, C>, AllocError>
    ensures { IfOk result (λ found. map subject_of found.items ≡ all_from (subject_of subject.entry)) }
{
    let mut found: ArenaSubjects<'p, 'a, C> = Vec::new(arena);
    found.push(subject)?;
    push_level(arena, &mut found, subject, subject.level)?;
    Ok(found)
}

// The same without the level itself.
fn all_below<'p, 'a: 'p, C: Allocator>(
    arena: &'p Bump,
    subject: LevelSubject<'p, 'a, C>,
) -> Result<ArenaSubjects<'p, 'a, C>, AllocError>
    ensures { IfOk result (λ found. map subject_of found.items ≡ subjects_below (subject_of subject.entry)) }
{
    let mut lower: ArenaSubjects<'p, 'a, C> = Vec::new(arena);
    push_level(arena, &mut lower, subject, subject.level)?;
    Ok(lower)
}

/// The levels below one as they follow it on its page: of the options that ask for help they have the names and the
/// word for the value alone, since the page says at the first level what these do.
/// An error comes only where an allocation failed.
pub fn all_after<'p, 'a: 'p, C: Allocator>(
    arena: &'p Bump,
    subject: LevelSubject<'p, 'a, C>,
) -> Result<ArenaSubjects<'p, 'a, C>, AllocError>
    ensures { IfOk result (λ found. map subject_of found.items ≡ subjects_after (subject_of subject.entry)) }
{
    all_below(arena, in_short(arena, subject)?)
}

/// A level whose page does not say what the options that ask for help do. An error comes only where an allocation
/// failed.
pub(crate) fn in_short<'p, 'a: 'p, C: Allocator>(
    arena: &'p Bump,
    subject: LevelSubject<'p, 'a, C>,
) -> Result<LevelSubject<'p, 'a, C>, AllocError>
    ensures { IfOk result (λ short. subject_of short ≡ in_short (subject_of subject.entry)) }
{
    Ok(LevelSubject {
        names: subject.names,
        help: subject.help,
        help_options: names_only(arena, subject.help_options)?,
        level: subject.level,
    })
}

fn names_only<'p>(arena: &'p Bump, options: &'p [Opt<'p>]) -> Result<&'p [Opt<'p>], AllocError>
    ensures { IfOk result (λ names. map opt_said names.now ≡ map name_only (map opt_said options.now)) }
{
    let mut names: Vec<Opt<'p>, &'p Bump> = Vec::new(arena);
    for option in options {
        names.push(name_only(*option))?;
    }
    Ok(into_bump_slice(names))
}

fn name_only(option: Opt<'_>) -> Opt<'_>
    ensures { opt_said result ≡ name_only (opt_said option.entry) }
{
    Opt {
        help: None,
        default: None,
        values: None,
        env: None,
        ..option
    }
}

#[cycle(levels)]
fn push_level<'p, 'a: 'p, C: Allocator>(
    arena: &'p Bump,
    found: &mut ArenaSubjects<'p, 'a, C>,
    above: LevelSubject<'p, 'a, C>,
    level: &'p Level<'a, C>,
) -> Result<(), AllocError>
    ensures { OnOk result (map subject_of found.new.items ≡ map subject_of found.old.items
        ++ below_level (subject_of above.entry) (level_said level.now)) }
{
    push_groups(arena, found, above, &level.groups)?;
    push_commands(arena, found, above, &level.commands)
}

#[cycle(levels)]
fn push_groups<'p, 'a: 'p, C: Allocator>(
    arena: &'p Bump,
    found: &mut ArenaSubjects<'p, 'a, C>,
    above: LevelSubject<'p, 'a, C>,
    groups: &'p Vec<Group<'a, C>, C>,
) -> Result<(), AllocError>
    ensures { OnOk result (map subject_of found.new.items ≡ map subject_of found.old.items
        ++ below_groups (subject_of above.entry) (groups_said groups.now.items)) }
{
    for group in groups {
        push_group(arena, found, above, group)?;
    }
    Ok(())
}

#[cycle(levels)]
fn push_group<'p, 'a: 'p, C: Allocator>(
    arena: &'p Bump,
    found: &mut ArenaSubjects<'p, 'a, C>,
    above: LevelSubject<'p, 'a, C>,
    group: &'p Group<'a, C>,
) -> Result<(), AllocError>
    ensures { OnOk result (map subject_of found.new.items ≡ map subject_of found.old.items
        ++ below_group (subject_of above.entry) (group_said group.now)) }
{
    push_commands(arena, found, above, &group.commands)
}

#[cycle(levels)]
fn push_commands<'p, 'a: 'p, C: Allocator>(
    arena: &'p Bump,
    found: &mut ArenaSubjects<'p, 'a, C>,
    above: LevelSubject<'p, 'a, C>,
    commands: &'p Vec<Command<'a, C>, C>,
) -> Result<(), AllocError>
    ensures { OnOk result (map subject_of found.new.items ≡ map subject_of found.old.items
        ++ below_commands (subject_of above.entry) (commands_said commands.now.items)) }
{
    for command in commands {
        push_command(arena, found, above, command)?;
    }
    Ok(())
}

#[cycle(levels)]
fn push_command<'p, 'a: 'p, C: Allocator>(
    arena: &'p Bump,
    found: &mut ArenaSubjects<'p, 'a, C>,
    above: LevelSubject<'p, 'a, C>,
    command: &'p Command<'a, C>,
) -> Result<(), AllocError>
    ensures { OnOk result (map subject_of found.new.items ≡ map subject_of found.old.items
        ++ from_command (subject_of above.entry) (command_said command.now)) }
{
    if command.hidden {
        return Ok(());
    }
    let lower = below(arena, above, command)?;
    found.push(lower)?;
    push_level(arena, found, lower, &command.level)
}
