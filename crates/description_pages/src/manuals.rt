//! The manual page of a level, as the parts of a page in the order of manual pages.
ghost use Rattle.std.specs.Prelude.{◌≡◌, ◌++◌, ◌∷◌, [], map, IfOk, OnOk};
ghost use Rattle.page_model.specs.View.{block_of, line_of, part_of};
ghost use Rattle.page_model.specs.Content.{block, paragraph};
ghost use Rattle.description_pages.specs.Arranged.{heading_in};
ghost use Rattle.description_pages.specs.LevelsView.{level_page_of, subject_of};
ghost use Rattle.description_pages.specs.Manuals.{manual_below, manual_of, manual_order, name_line, without_summary};
ghost use Rattle.description_pages.specs.Topics.{merged};
ghost use Rattle.description_pages.specs.declared.arranged.Case.TheVariants as Case;
ghost use Rattle.page_model.specs.declared.parts.Rank.TheVariants as Rank;
ghost use Rattle.description.specs.Words.{words_said};

use crate::arranged::{
    ArenaParts, Case, Titles, push_heading, push_titled, push_titled_parts, push_titled_usage,
};
use crate::levels::{Depth, LevelPage, LevelSubject, level_page};
use crate::neighbours::joined_names;
use crate::references::with_references;
use crate::sections::{Detail, given_blocks};
use crate::summaries::{is_summary, summary};
use crate::topics::push_blocks;
use bumpalo::Bump;
use description::FixedWords;
use description_usage::ArenaBlocks;
use page_model::{Block, Inline, Line, Part, Rank};
use std::alloc::{AllocError, Allocator, Global};

// ---- NAME

fn name_line<'p>(
    arena: &'p Bump,
    name: &'p str,
    summary: &[Inline<'p>],
) -> Result<Line<'p, &'p Bump>, AllocError>
    ensures { IfOk result (λ line. line_of line.items ≡ name_line name.now (line_of summary.now)) }
{
    let mut line: Line<'p, &'p Bump> = vec![in arena; Inline::Words(name)]?;
    if !summary.is_empty() {
        line.push(Inline::Words(" - "))?;
        line.extend_from_slice(summary)?;
    }
    Ok(line)
}

fn push_name<'p>(
    arena: &'p Bump,
    words: &FixedWords<'p>,
    parts: &mut ArenaParts<'p>,
    name: &'p str,
    summary: &[Inline<'p>],
) -> Result<(), AllocError>
    ensures { OnOk result (map part_of parts.new.items ≡ map part_of parts.old.items
        ++ heading_in Case.Capitals Rank.Section (words_said words.now).name
        ∷ block (paragraph (name_line name.now (line_of summary.now) ∷ [])) ∷ []) }
{
    push_heading(capitals(arena, Rank::Section), parts, words.name)?;
    let line = name_line(arena, name, summary)?;
    parts.push(Part::Block(Block::Paragraph(vec![in arena; line]?)))?;
    Ok(())
}

// What NAME says is not said again.
fn without_summary<'p>(
    arena: &'p Bump,
    summary: &[Inline<'p>],
    page: LevelPage<'p, &'p Bump>,
) -> Result<LevelPage<'p, &'p Bump>, AllocError>
    ensures { IfOk result (λ left. level_page_of left
        ≡ without_summary (line_of summary.now) (level_page_of page.entry)) }
{
    let mut page = page;
    if is_summary(arena, summary, page.about.as_slice())? {
        page.about.clear();
    }
    Ok(page)
}

// ---- all else

fn capitals<'p>(arena: &'p Bump, rank: Rank) -> Titles<'p>
    ensures letters { result.letters ≡ Case.Capitals }
    ensures rank { result.rank ≡ rank }
{
    Titles {
        arena,
        letters: Case::Capitals,
        rank,
    }
}

// Blocks after others, with one list for lists that follow one another.
fn merged<'p>(
    arena: &'p Bump,
    blocks: ArenaBlocks<'p, Global>,
    others: ArenaBlocks<'p, Global>,
) -> Result<ArenaBlocks<'p, Global>, AllocError>
    ensures { IfOk result (λ whole. map block_of whole.items
        ≡ merged (map block_of blocks.entry.items ++ map block_of others.entry.items)) }
{
    let mut whole: ArenaBlocks<'p, Global> = Vec::new(arena);
    push_blocks(&mut whole, blocks)?;
    push_blocks(&mut whole, others)?;
    Ok(whole)
}

// Appends SYNOPSIS, DESCRIPTION, the sections and SEE ALSO.
fn push_manual_order<'p>(
    arena: &'p Bump,
    words: &FixedWords<'p>,
    rank: Rank,
    parts: &mut ArenaParts<'p>,
    page: LevelPage<'p, &'p Bump>,
) -> Result<(), AllocError>
    ensures { OnOk result (map part_of parts.new.items ≡ map part_of parts.old.items
        ++ manual_order rank (words_said words.now) (level_page_of page.entry)) }
{
    let titles = capitals(arena, rank);
    let described = merged(arena, page.about, page.header)?;
    push_titled_usage(titles, parts, words.synopsis, page.usage)?;
    push_titled(titles, parts, words.description, described)?;
    push_titled_parts(titles, words, parts, page.sections, page.see_also)
}

// ---- the pages

/// The manual page of a level, except its title line: NAME with the names, joined by `-`, and the summary of the help
/// of the command, or otherwise of what is said about the level; SYNOPSIS, DESCRIPTION, lists, topics and notes; and
/// the pages above and below. An error comes only where an allocation failed.
pub fn manual<'p, 'a: 'p, C: Allocator>(
    arena: &'p Bump,
    words: &'p FixedWords<'p>,
    subject: LevelSubject<'p, 'a, C>,
) -> Result<ArenaParts<'p>, AllocError>
    ensures { IfOk result (λ parts. map part_of parts.items
        ≡ manual_of (words_said words.now) (subject_of subject.entry)) }
{
    let page = level_page(arena, words, Detail::Full, Depth::Alone, subject)?;
    let help = given_blocks(arena, Detail::Full, subject.help)?;
    let summary = summary(arena, help.as_slice(), page.about.as_slice())?;
    let name = joined_names(arena, subject.names, "-")?;
    let mut parts: ArenaParts<'p> = Vec::new(arena);
    push_name(arena, words, &mut parts, name, summary.as_slice())?;
    let page = with_references(arena, page)?;
    let page = without_summary(arena, summary.as_slice(), page)?;
    push_manual_order(arena, words, Rank::Section, &mut parts, page)?;
    Ok(parts)
}

/// Appends the page of a level that follows another: its names as a title, with a blank between two, and the rest one
/// rank lower, without NAME and references. An error comes only where an allocation failed, and then some of it may
/// have been appended.
pub fn push_manual_below<'p, 'a: 'p, C: Allocator>(
    arena: &'p Bump,
    words: &'p FixedWords<'p>,
    parts: &mut ArenaParts<'p>,
    subject: LevelSubject<'p, 'a, C>,
) -> Result<(), AllocError>
    ensures { OnOk result (map part_of parts.new.items ≡ map part_of parts.old.items
        ++ manual_below (words_said words.now) (subject_of subject.entry)) }
{
    let page = level_page(arena, words, Detail::Full, Depth::Alone, subject)?;
    parts.push(Part::Heading(Rank::Page, page.title))?;
    push_manual_order(arena, words, Rank::Subsection, parts, page)
}
