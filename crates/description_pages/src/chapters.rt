//! A level with all levels below it, where they stand on one page.
ghost use Rattle.std.specs.Prelude.{◌≡◌, ◌++◌, ◌∷◌, [], map, IfOk, OnOk};
ghost use Rattle.page_model.specs.View.{block_of, chapter_of, part_of};
ghost use Rattle.description.specs.View.{command_said, commands_said, group_said, groups_said, level_said};
ghost use Rattle.description.specs.Words.{words_said};
ghost use Rattle.description_pages.specs.Chapters.{chapter_from, chapter_if_shown, chapter_with, chapters_in_group};
ghost use Rattle.description_pages.specs.Chapters.{chapters_on, command_chapters, group_chapters, last_name};
ghost use Rattle.description_pages.specs.Chapters.{parts_after};
ghost use Rattle.description_pages.specs.LevelsView.{level_page_of, subject_of};

use crate::arranged::{ArenaParts, push_in_order};
use crate::levels::{Depth, LevelPage, LevelSubject, level_page};
use crate::sections::Detail;
use crate::subjects::{below, in_short};
use bumpalo::Bump;
use description::{Command, FixedWords, Group, Level};
use page_model::{Chapter, Rank};
use std::alloc::{AllocError, Allocator};

/// Chapters in an arena.
type ArenaChapters<'p> = Vec<Chapter<'p, &'p Bump>, &'p Bump>;

// ---- one level

fn last_name<'p>(names: &[&'p str]) -> &'p str
    ensures { result.now ≡ last_name (map (λ name. name.now) names.now) }
{
    match names.last() {
        Some(name) => name,
        None => "",
    }
}

// The parts of a page whose `about` was taken.
fn parts_after<'p>(
    arena: &'p Bump,
    words: &FixedWords<'p>,
    page: LevelPage<'p, &'p Bump>,
) -> Result<ArenaParts<'p>, AllocError>
    requires { page.about.items ≡ [] }
    ensures { IfOk result (λ parts. map part_of parts.items
        ≡ parts_after (words_said words.now) (level_page_of page.entry)) }
{
    let mut parts: ArenaParts<'p> = Vec::new(arena);
    push_in_order(arena, words, Rank::Section, &mut parts, page)?;
    Ok(parts)
}

// A level, with the chapters of those below it.
fn chapter_with<'p, 'a: 'p, C: Allocator>(
    arena: &'p Bump,
    words: &'p FixedWords<'p>,
    subject: LevelSubject<'p, 'a, C>,
    lower: ArenaChapters<'p>,
) -> Result<Chapter<'p, &'p Bump>, AllocError>
    ensures { IfOk result (λ made. chapter_of made ≡ chapter_with (words_said words.now)
        (subject_of subject.entry) (map chapter_of lower.entry.items)) }
{
    let mut page = level_page(arena, words, Detail::Full, Depth::Deep, subject)?;
    let title = page.title;
    let about = std::mem::replace(&mut page.about, Vec::new(arena));
    Ok(Chapter {
        title,
        name: last_name(subject.names),
        about,
        parts: parts_after(arena, words, page)?,
        below: lower,
    })
}

// ---- those below it

#[cycle(chapters)]
fn push_level<'p, 'a: 'p, C: Allocator>(
    arena: &'p Bump,
    words: &'p FixedWords<'p>,
    lower: &mut ArenaChapters<'p>,
    above: LevelSubject<'p, 'a, C>,
    level: &'p Level<'a, C>,
) -> Result<(), AllocError>
    ensures { OnOk result (map chapter_of lower.new.items ≡ map chapter_of lower.old.items
        ++ chapters_on (words_said words.now) (subject_of above.entry) (level_said level.now)) }
{
    push_groups(arena, words, lower, above, &level.groups)?;
    push_commands(arena, words, lower, above, &level.commands)
}

#[cycle(chapters)]
fn push_groups<'p, 'a: 'p, C: Allocator>(
    arena: &'p Bump,
    words: &'p FixedWords<'p>,
    lower: &mut ArenaChapters<'p>,
    above: LevelSubject<'p, 'a, C>,
    groups: &'p Vec<Group<'a, C>, C>,
) -> Result<(), AllocError>
    ensures { OnOk result (map chapter_of lower.new.items ≡ map chapter_of lower.old.items
        ++ group_chapters (words_said words.now) (subject_of above.entry) (groups_said groups.now.items)) }
{
    for group in groups {
        push_group(arena, words, lower, above, group)?;
    }
    Ok(())
}

#[cycle(chapters)]
fn push_group<'p, 'a: 'p, C: Allocator>(
    arena: &'p Bump,
    words: &'p FixedWords<'p>,
    lower: &mut ArenaChapters<'p>,
    above: LevelSubject<'p, 'a, C>,
    group: &'p Group<'a, C>,
) -> Result<(), AllocError>
    ensures { OnOk result (map chapter_of lower.new.items ≡ map chapter_of lower.old.items
        ++ chapters_in_group (words_said words.now) (subject_of above.entry) (group_said group.now)) }
{
    push_commands(arena, words, lower, above, &group.commands)
}

#[cycle(chapters)]
fn push_commands<'p, 'a: 'p, C: Allocator>(
    arena: &'p Bump,
    words: &'p FixedWords<'p>,
    lower: &mut ArenaChapters<'p>,
    above: LevelSubject<'p, 'a, C>,
    commands: &'p Vec<Command<'a, C>, C>,
) -> Result<(), AllocError>
    ensures { OnOk result (map chapter_of lower.new.items ≡ map chapter_of lower.old.items
        ++ command_chapters (words_said words.now) (subject_of above.entry) (commands_said commands.now.items)) }
{
    for command in commands {
        push_command(arena, words, lower, above, command)?;
    }
    Ok(())
}

#[cycle(chapters)]
fn push_command<'p, 'a: 'p, C: Allocator>(
    arena: &'p Bump,
    words: &'p FixedWords<'p>,
    lower: &mut ArenaChapters<'p>,
    above: LevelSubject<'p, 'a, C>,
    command: &'p Command<'a, C>,
) -> Result<(), AllocError>
    ensures { OnOk result (map chapter_of lower.new.items ≡ map chapter_of lower.old.items
        ++ chapter_if_shown (words_said words.now) (subject_of above.entry) (command_said command.now)) }
{
    if command.hidden {
        return Ok(());
    }
    let subject = below(arena, above, command)?;
    let mut own: ArenaChapters<'p> = Vec::new(arena);
    push_level(arena, words, &mut own, subject, &command.level)?;
    lower.push(chapter_with(arena, words, subject, own)?)?;
    Ok(())
}

/// The level with all levels below it that are not hidden, in the order of `all_from`, as a tree. Each has what is said
/// about it, and after that its usage, its header, lists, topics and notes; entries of commands lead to headings. Of
/// the options that ask for help the levels below have the names alone. An error comes only where an allocation failed.
pub fn chapter<'p, 'a: 'p, C: Allocator>(
    arena: &'p Bump,
    words: &'p FixedWords<'p>,
    subject: LevelSubject<'p, 'a, C>,
) -> Result<Chapter<'p, &'p Bump>, AllocError>
    ensures { IfOk result (λ made. chapter_of made
        ≡ chapter_from (words_said words.now) (subject_of subject.entry)) }
{
    let mut lower: ArenaChapters<'p> = Vec::new(arena);
    push_level(
        arena,
        words,
        &mut lower,
        in_short(arena, subject)?,
        subject.level,
    )?;
    chapter_with(arena, words, subject, lower)
}
