//! The sections of chapters, each before those of the chapters below it.
#![tactic(auto, using(crate::proofs::Outcomes::putting, crate::proofs::Views::views))]

ghost use Rattle.std.specs.Prelude.{◌++◌, map};
ghost use Rattle.page_model.specs.View.{block_of, chapter_of, chapters_in, part_of};
ghost use Rattle.html_page.specs.Events.{inside, text_in};
ghost use Rattle.html_page.specs.Page.{chapter_sections, chapters_sections, lone_section, lower_section, main_events};
ghost use Rattle.html_page.specs.Page.{own_section, top_section};
ghost use Rattle.html_page.specs.Steps.{Puts};
ghost use Rattle.html_page.specs.View.{frame_of};

use crate::elements::{end, put_text_in, start, start_with_id};
use crate::frame::Frame;
use crate::ids::chapter_id;
use crate::lines::put_blocks;
use crate::parts::put_parts;
use page_model::{Block, Chapter, Part};
use std::alloc::Allocator;
use web_page::{Element, Level, Page, PageError};

// A section that has no title of its own.
fn put_lone_section<A: Allocator + Copy, B: Allocator>(
    alloc: A,
    page: &mut Page<A>,
    frame: &Frame<'_>,
    title: &str,
    parts: &[Part<'_, B>],
) -> Result<(), PageError>
    ensures { Puts page.old (lone_section (frame_of frame.now) title.now (map part_of parts.now)) page.new result }
{
    let id = chapter_id(alloc, title)?;
    start_with_id(page, Element::Section, &id)?;
    put_parts(alloc, page, frame, title, parts)?;
    end(page)
}

// A section whose `about` stands above.
fn put_own_section<A: Allocator + Copy, B: Allocator>(
    alloc: A,
    page: &mut Page<A>,
    frame: &Frame<'_>,
    title: &str,
    parts: &[Part<'_, B>],
) -> Result<(), PageError>
    ensures { Puts page.old (own_section (frame_of frame.now) title.now (map part_of parts.now)) page.new result }
{
    let id = chapter_id(alloc, title)?;
    start_with_id(page, Element::Section, &id)?;
    put_text_in(page, Element::Heading(Level::Two), title)?;
    put_parts(alloc, page, frame, title, parts)?;
    end(page)
}

fn put_lower_section<A: Allocator + Copy, B: Allocator>(
    alloc: A,
    page: &mut Page<A>,
    frame: &Frame<'_>,
    title: &str,
    about: &[Block<'_, B>],
    parts: &[Part<'_, B>],
) -> Result<(), PageError>
    ensures { Puts page.old (lower_section (frame_of frame.now) title.now (map block_of about.now)
        (map part_of parts.now)) page.new result }
{
    let id = chapter_id(alloc, title)?;
    start_with_id(page, Element::Section, &id)?;
    put_text_in(page, Element::Heading(Level::Two), title)?;
    put_blocks(page, about)?;
    put_parts(alloc, page, frame, title, parts)?;
    end(page)
}

#[cycle(sections)]
fn put_chapter<A: Allocator + Copy, B: Allocator>(
    alloc: A,
    page: &mut Page<A>,
    frame: &Frame<'_>,
    chapter: &Chapter<'_, B>,
) -> Result<(), PageError>
    ensures { Puts page.old (chapter_sections (frame_of frame.now) (chapter_of chapter.now)) page.new result }
{
    put_lower_section(
        alloc,
        page,
        frame,
        chapter.title,
        chapter.about.as_slice(),
        chapter.parts.as_slice(),
    )?;
    put_chapters(alloc, page, frame, &chapter.below)
}

#[cycle(sections)]
fn put_chapters<A: Allocator + Copy, B: Allocator>(
    alloc: A,
    page: &mut Page<A>,
    frame: &Frame<'_>,
    chapters: &Vec<Chapter<'_, B>, B>,
) -> Result<(), PageError>
    ensures { Puts page.old (chapters_sections (frame_of frame.now)
        (chapters_in (map chapter_of chapters.now.items))) page.new result }
{
    for chapter in chapters {
        put_chapter(alloc, page, frame, chapter)?;
    }
    Ok(())
}

// The section of the top, which needs no title of its own where there is no other.
fn put_top_section<A: Allocator + Copy, B: Allocator>(
    alloc: A,
    page: &mut Page<A>,
    frame: &Frame<'_>,
    title: &str,
    parts: &[Part<'_, B>],
    below: &[Chapter<'_, B>],
) -> Result<(), PageError>
    ensures { Puts page.old (top_section (frame_of frame.now) title.now (map part_of parts.now)
        (chapters_in (map chapter_of below.now))) page.new result }
{
    if below.is_empty() {
        put_lone_section(alloc, page, frame, title, parts)
    } else {
        put_own_section(alloc, page, frame, title, parts)
    }
}

/// Puts all sections.
pub fn put_main<A: Allocator + Copy, B: Allocator>(
    alloc: A,
    page: &mut Page<A>,
    frame: &Frame<'_>,
    top: &Chapter<'_, B>,
) -> Result<(), PageError>
    ensures { Puts page.old (main_events (frame_of frame.now) (chapter_of top.now)) page.new result }
{
    start(page, Element::Main)?;
    put_top_section(
        alloc,
        page,
        frame,
        top.title,
        top.parts.as_slice(),
        top.below.as_slice(),
    )?;
    put_chapters(alloc, page, frame, &top.below)?;
    end(page)
}
