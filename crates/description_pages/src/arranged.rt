//! Parts of a page under titles, and those of a level in the order in which its page says them.
ghost use Rattle.std.specs.Prelude.{◌≡◌, ◌++◌, ◌∷◌, [], flat_map, map, IfOk, OnOk};
ghost use Rattle.page_model.specs.View.{block_of, form_of, part_of};
ghost use Rattle.page_model.specs.Content.{block};
ghost use Rattle.description_pages.specs.Arranged.{body_parts, heading_in, in_order, section_parts, title_in, titled};
ghost use Rattle.description_pages.specs.Arranged.{titled_parts, usage_parts};
ghost use Rattle.description_pages.specs.LevelsView.{level_page_of};
ghost use Rattle.description_pages.specs.Sections.{body_of, section_of};
ghost use Rattle.description.specs.Words.{words_said};

use crate::levels::LevelPage;
use crate::sections::{ArenaSections, Body, Section};
use bumpalo::Bump;
use description::FixedWords;
use description_usage::ArenaBlocks;
use page_model::{Form, Part, Rank};
use std::alloc::{AllocError, Global};

/// Parts of a page in an arena.
pub type ArenaParts<'p> = Vec<Part<'p, &'p Bump>, &'p Bump>;

/// The letters of titles: capitals, or those that they are said in.
#[derive(Clone, Copy, Debug, PartialEq, Eq)]
pub enum Case {
    Capitals,
    AsSaid,
}

/// How the titles of a page are put.
#[derive(Clone, Copy)]
pub struct Titles<'p> {
    pub arena: &'p Bump,
    pub letters: Case,
    pub rank: Rank,
}

fn title_in<'p>(titles: Titles<'p>, title: &'p str) -> Result<&'p str, AllocError>
    ensures { IfOk result (λ shown. shown.now ≡ title_in titles.entry.letters title.now) }
{
    match titles.letters {
        Case::Capitals => {
            let capital = title.to_uppercase(titles.arena)?;
            titles.arena.try_alloc_str(capital.as_str())
        }
        Case::AsSaid => Ok(title),
    }
}

/// Appends a title.
pub fn push_heading<'p>(
    titles: Titles<'p>,
    parts: &mut ArenaParts<'p>,
    title: &'p str,
) -> Result<(), AllocError>
    ensures { OnOk result (map part_of parts.new.items
        ≡ map part_of parts.old.items ++ heading_in titles.entry.letters titles.entry.rank title.now ∷ []) }
{
    parts.push(Part::Heading(titles.rank, title_in(titles, title)?))?;
    Ok(())
}

fn push_blocks_as_parts<'p>(
    parts: &mut ArenaParts<'p>,
    blocks: ArenaBlocks<'p, Global>,
) -> Result<(), AllocError>
    ensures { OnOk result (map part_of parts.new.items
        ≡ map part_of parts.old.items ++ map block (map block_of blocks.entry.items)) }
{
    for block in blocks {
        parts.push(Part::Block(block))?;
    }
    Ok(())
}

/// Appends blocks under a title, unless there are none.
pub fn push_titled<'p>(
    titles: Titles<'p>,
    parts: &mut ArenaParts<'p>,
    title: &'p str,
    blocks: ArenaBlocks<'p, Global>,
) -> Result<(), AllocError>
    ensures { OnOk result (map part_of parts.new.items ≡ map part_of parts.old.items
        ++ titled titles.entry.letters titles.entry.rank title.now (map block (map block_of blocks.entry.items))) }
{
    if blocks.is_empty() {
        return Ok(());
    }
    push_heading(titles, parts, title)?;
    push_blocks_as_parts(parts, blocks)
}

fn push_usage<'p>(
    parts: &mut ArenaParts<'p>,
    forms: Vec<Form<'p, &'p Bump>, &'p Bump>,
) -> Result<(), AllocError>
    ensures { OnOk result (map part_of parts.new.items
        ≡ map part_of parts.old.items ++ usage_parts (map form_of forms.entry.items)) }
{
    if forms.is_empty() {
        return Ok(());
    }
    parts.push(Part::Usage(forms))?;
    Ok(())
}

/// Appends a usage under a title, unless it has no form.
pub fn push_titled_usage<'p>(
    titles: Titles<'p>,
    parts: &mut ArenaParts<'p>,
    title: &'p str,
    forms: Vec<Form<'p, &'p Bump>, &'p Bump>,
) -> Result<(), AllocError>
    ensures { OnOk result (map part_of parts.new.items ≡ map part_of parts.old.items
        ++ titled titles.entry.letters titles.entry.rank title.now (usage_parts (map form_of forms.entry.items))) }
{
    if forms.is_empty() {
        return Ok(());
    }
    push_heading(titles, parts, title)?;
    push_usage(parts, forms)
}

fn push_body<'p>(parts: &mut ArenaParts<'p>, body: Body<'p, &'p Bump>) -> Result<(), AllocError>
    ensures { OnOk result (map part_of parts.new.items
        ≡ map part_of parts.old.items ++ body_parts (body_of body.entry)) }
{
    match body {
        Body::Listed(entries) => {
            parts.push(Part::Entries(entries))?;
            Ok(())
        }
        Body::Told(blocks) => push_blocks_as_parts(parts, blocks),
    }
}

fn push_section<'p>(
    titles: Titles<'p>,
    parts: &mut ArenaParts<'p>,
    section: Section<'p, &'p Bump>,
) -> Result<(), AllocError>
    ensures { OnOk result (map part_of parts.new.items ≡ map part_of parts.old.items
        ++ section_parts titles.entry.letters titles.entry.rank (section_of section.entry)) }
{
    push_heading(titles, parts, section.title)?;
    push_body(parts, section.body)
}

fn push_sections<'p>(
    titles: Titles<'p>,
    parts: &mut ArenaParts<'p>,
    sections: ArenaSections<'p>,
) -> Result<(), AllocError>
    ensures { OnOk result (map part_of parts.new.items ≡ map part_of parts.old.items
        ++ flat_map (section_parts titles.entry.letters titles.entry.rank) (map section_of sections.entry.items)) }
{
    for section in sections {
        push_section(titles, parts, section)?;
    }
    Ok(())
}

/// Appends the lists, the topics and the notes, and what stands with the references.
pub fn push_titled_parts<'p>(
    titles: Titles<'p>,
    words: &FixedWords<'p>,
    parts: &mut ArenaParts<'p>,
    sections: ArenaSections<'p>,
    see_also: ArenaBlocks<'p, Global>,
) -> Result<(), AllocError>
    ensures { OnOk result (map part_of parts.new.items ≡ map part_of parts.old.items
        ++ titled_parts titles.entry.letters titles.entry.rank (words_said words.now)
        (map section_of sections.entry.items) (map block_of see_also.entry.items)) }
{
    push_sections(titles, parts, sections)?;
    push_titled(titles, parts, words.see_also, see_also)
}

/// Appends a page in its own order, the usage without a title.
pub fn push_in_order<'p>(
    arena: &'p Bump,
    words: &FixedWords<'p>,
    rank: Rank,
    parts: &mut ArenaParts<'p>,
    page: LevelPage<'p, &'p Bump>,
) -> Result<(), AllocError>
    ensures { OnOk result (map part_of parts.new.items ≡ map part_of parts.old.items
        ++ in_order rank (words_said words.now) (level_page_of page.entry)) }
{
    let titles = Titles {
        arena,
        letters: Case::AsSaid,
        rank,
    };
    push_blocks_as_parts(parts, page.about)?;
    push_usage(parts, page.usage)?;
    push_blocks_as_parts(parts, page.header)?;
    push_titled_parts(titles, words, parts, page.sections, page.see_also)
}
