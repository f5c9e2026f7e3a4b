//! The page of a level, before a medium arranges it.
ghost use Rattle.std.specs.Prelude.{◌≡◌, ◌++◌, map, IfOk, OnOk};
ghost use Rattle.description.specs.View.{level_said, opt_said};
ghost use Rattle.description_pages.specs.Levels.{notes_of, page_of, sections_of, texts_of};
ghost use Rattle.description_pages.specs.LevelsView.{level_page_of, subject_of};
ghost use Rattle.description_pages.specs.Sections.{section_of};
ghost use Rattle.description.specs.Words.{words_said};

use crate::neighbours::{joined_names, neighbours};
use crate::sections::{ArenaSections, Detail, Making, Section, given_blocks, push_lists};
use crate::topics::{Place, placed_blocks, push_blocks, push_text_section, push_topics};
use bumpalo::Bump;
use description::{FixedWords, Level, Opt};
use description_usage::usage_forms;
use page_model::{Block, Form};
use std::alloc::{AllocError, Allocator};

/// What stands on the page of a level: it alone, or after it also the levels below.
#[derive(Clone, Copy, Debug, PartialEq, Eq)]
pub enum Depth {
    Alone,
    Deep,
}

/// A level by what its pages say. Its records may live longer than what is made of them.
#[derive_where(Clone, Copy)]
pub struct LevelSubject<'p, 'a, C: Allocator> {
    /// The names that lead there, that of the application first.
    pub names: &'p [&'p str],
    /// What the level above says of it. `None` of the application.
    pub help: Option<&'p str>,
    /// The options that ask for help.
    pub help_options: &'p [Opt<'p>],
    pub level: &'p Level<'a, C>,
}

/// What the page of a level says, in the order of most media.
#[derive(Debug, Drop)]
pub struct LevelPage<'a, A: Allocator> {
    /// The names that lead there, with a blank between two.
    pub title: &'a str,
    pub about: Vec<Block<'a, A>, A>,
    pub usage: Vec<Form<'a, A>, A>,
    pub header: Vec<Block<'a, A>, A>,
    /// Lists, topics and notes.
    pub sections: Vec<Section<'a, A>, A>,
    /// What stands above the references.
    pub see_also: Vec<Block<'a, A>, A>,
    /// The names of the pages above and below.
    pub references: Vec<&'a str, A>,
}

// The lists, the topics and the notes.
fn sections<'p, 'a: 'p, C: Allocator>(
    making: Making<'p>,
    subject: LevelSubject<'p, 'a, C>,
) -> Result<ArenaSections<'p>, AllocError>
    ensures { IfOk result (λ sections. map section_of sections.items ≡ sections_of
        (words_said making.entry.words.now) making.entry.detail making.entry.depth
        (map (λ name. name.now) making.entry.names.now) (map opt_said subject.entry.help_options.now)
        (level_said subject.entry.level.now)) }
{
    let mut sections: ArenaSections<'p> = Vec::new(making.arena);
    push_lists(making, &mut sections, subject.level, subject.help_options)?;
    push_topics(making, &mut sections, subject.level.topics.as_slice())?;
    push_notes(making, &mut sections, subject.level)?;
    Ok(sections)
}

fn push_notes<'p, 'a: 'p, C: Allocator>(
    making: Making<'p>,
    sections: &mut ArenaSections<'p>,
    level: &'p Level<'a, C>,
) -> Result<(), AllocError>
    ensures { OnOk result (map section_of sections.new.items ≡ map section_of sections.old.items
        ++ notes_of (words_said making.entry.words.now) making.entry.detail (texts_of (level_said level.now))) }
{
    let mut blocks = placed_blocks(making, Place::Notes, level.topics.as_slice())?;
    push_blocks(
        &mut blocks,
        given_blocks(making.arena, making.detail, level.footer)?,
    )?;
    push_text_section(sections, making.words.notes, blocks)
}

/// The page of a level, made in an arena: each text in full, or its first block. Where the levels below stand on the
/// same page, entries of commands lead to their headings, and no page below is named; otherwise they lead to their
/// pages. An error comes only where an allocation failed.
pub fn level_page<'p, 'a: 'p, C: Allocator>(
    arena: &'p Bump,
    words: &'p FixedWords<'p>,
    detail: Detail,
    depth: Depth,
    subject: LevelSubject<'p, 'a, C>,
) -> Result<LevelPage<'p, &'p Bump>, AllocError>
    ensures { IfOk result (λ page. level_page_of page
        ≡ page_of (words_said words.now) detail depth (subject_of subject.entry)) }
{
    let making = Making {
        arena,
        words,
        detail,
        depth,
        names: subject.names,
    };
    let level = subject.level;
    let title = joined_names(arena, subject.names, " ")?;
    Ok(LevelPage {
        title,
        about: given_blocks(arena, detail, level.about)?,
        usage: usage_forms(arena, words, title, level)?,
        header: given_blocks(arena, detail, level.header)?,
        sections: sections(making, subject)?,
        see_also: placed_blocks(making, Place::References, level.topics.as_slice())?,
        references: neighbours(arena, depth, subject.names, level)?,
    })
}
