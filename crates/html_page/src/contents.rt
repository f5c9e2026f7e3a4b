//! Links to all sections and to their headings, nested as the chapters are.
#![tactic(auto, using(crate::proofs::Outcomes::putting, crate::proofs::Views::views))]

ghost use Rattle.std.specs.Prelude.{◌≡◌, ◌++◌, ◌∷◌, [], flat_map, map, OnOk};
ghost use Rattle.std.specs.List.{list_any};
ghost use Rattle.page_model.specs.View.{chapter_of, chapters_in, part_of};
ghost use Rattle.html_page.specs.Events.{inside, link_to, say, text_in};
ghost use Rattle.html_page.specs.Ids.{chapter_id};
ghost use Rattle.html_page.specs.Page.{chapter_links, chapters_links, has_links, heading_after, heading_link};
ghost use Rattle.html_page.specs.Page.{heading_links, headings_of, is_heading, listed_links, nav_events};
ghost use Rattle.html_page.specs.Steps.{Puts};
ghost use Rattle.html_page.specs.Steps.View.{texts_of};
ghost use Rattle.html_page.specs.View.{frame_of};

use crate::counts::Counts;
use crate::elements::{end, put_text_in, say, start, start_link_to_id};
use crate::frame::Frame;
use crate::ids::{chapter_id, heading_id};
use page_model::{Chapter, Part};
use std::alloc::Allocator;
use web_page::{Element, Level, Page, PageError};

// ---- one link

fn put_link<A: Allocator>(page: &mut Page<A>, id: &str, text: &str) -> Result<(), PageError>
    ensures { Puts page.old (link_to id.now (say text.now ∷ [])) page.new result }
{
    start_link_to_id(page, id)?;
    say(page, text)?;
    end(page)
}

fn put_chapter_link<A: Allocator + Copy>(
    alloc: A,
    page: &mut Page<A>,
    title: &str,
    name: &str,
) -> Result<(), PageError>
    ensures { Puts page.old (link_to (chapter_id title.now) (say name.now ∷ [])) page.new result }
{
    let id = chapter_id(alloc, title)?;
    put_link(page, &id, name)
}

fn put_item<A: Allocator>(page: &mut Page<A>, id: &str, text: &str) -> Result<(), PageError>
    ensures { Puts page.old (inside Element.Li (link_to id.now (say text.now ∷ []))) page.new result }
{
    start(page, Element::Li)?;
    put_link(page, id, text)?;
    end(page)
}

fn put_heading_link<'a, A: Allocator + Copy>(
    alloc: A,
    page: &mut Page<A>,
    title: &str,
    before: &mut Counts<'a, A>,
    text: &'a str,
) -> Result<(), PageError>
    ensures put { Puts page.old (heading_link title.now (texts_of before.old) text.now) page.new result }
    ensures counted { OnOk result (texts_of before.new ≡ texts_of before.old ++ text.now ∷ []) }
{
    let id = heading_id(alloc, title, text, before.count(text))?;
    put_item(page, &id, text)?;
    before.push(text)?;
    Ok(())
}

// ---- the headings of a chapter

fn put_part_link<'a, A: Allocator + Copy, B: Allocator>(
    alloc: A,
    page: &mut Page<A>,
    title: &str,
    before: &mut Counts<'a, A>,
    part: &Part<'a, B>,
) -> Result<(), PageError>
    ensures put { Puts page.old (heading_links title.now (texts_of before.old) (headings_of (part_of part.now)))
        page.new result }
    ensures counted { OnOk result (texts_of before.new ≡ texts_of before.old ++ headings_of (part_of part.now)) }
{
    match part {
        Part::Heading(_, text) => put_heading_link(alloc, page, title, before, text),
        Part::Usage(_) => Ok(()),
        Part::Block(_) => Ok(()),
        Part::Entries(_) => Ok(()),
    }
}

fn put_part_links<'a, A: Allocator + Copy, B: Allocator>(
    alloc: A,
    page: &mut Page<A>,
    title: &str,
    before: &mut Counts<'a, A>,
    parts: &[Part<'a, B>],
) -> Result<(), PageError>
    ensures { Puts page.old (heading_links title.now (texts_of before.old)
        (flat_map headings_of (map part_of parts.now))) page.new result }
{
    for part in parts {
        put_part_link(alloc, page, title, before, part)?;
    }
    Ok(())
}

fn put_heading_links<A: Allocator + Copy, B: Allocator>(
    alloc: A,
    page: &mut Page<A>,
    title: &str,
    parts: &[Part<'_, B>],
) -> Result<(), PageError>
    ensures { Puts page.old (heading_links title.now [] (flat_map headings_of (map part_of parts.now)))
        page.new result }
{
    let mut before = Counts::new(alloc);
    put_part_links(alloc, page, title, &mut before, parts)
}

// ---- chapters

fn is_heading<B: Allocator>(part: &Part<'_, B>) -> bool
    ensures { result ≡ is_heading (part_of part.now) }
{
    match part {
        Part::Heading(_, _) => true,
        Part::Usage(_) => false,
        Part::Block(_) => false,
        Part::Entries(_) => false,
    }
}

fn has_heading<B: Allocator>(parts: &[Part<'_, B>]) -> bool
    ensures { result ≡ list_any is_heading (map part_of parts.now) }
{
    for part in parts {
        if is_heading(part) {
            return true;
        }
    }
    false
}

// Whether there is anything to list below a chapter: a heading, or a chapter.
fn has_links<B: Allocator>(parts: &[Part<'_, B>], below: &[Chapter<'_, B>]) -> bool
    ensures { result ≡ has_links (map part_of parts.now) (chapters_in (map chapter_of below.now)) }
{
    has_heading(parts) || !below.is_empty()
}

// A link to a chapter, with a list of links to its headings and to the chapters below it.
#[cycle(links)]
fn put_chapter_links<A: Allocator + Copy, B: Allocator>(
    alloc: A,
    page: &mut Page<A>,
    chapter: &Chapter<'_, B>,
) -> Result<(), PageError>
    ensures { Puts page.old (chapter_links (chapter_of chapter.now)) page.new result }
{
    start(page, Element::Li)?;
    put_chapter_link(alloc, page, chapter.title, chapter.name)?;
    put_links_below(
        alloc,
        page,
        chapter.title,
        chapter.parts.as_slice(),
        &chapter.below,
    )?;
    end(page)
}

#[cycle(links)]
fn put_links_below<A: Allocator + Copy, B: Allocator>(
    alloc: A,
    page: &mut Page<A>,
    title: &str,
    parts: &[Part<'_, B>],
    below: &Vec<Chapter<'_, B>, B>,
) -> Result<(), PageError>
    ensures { Puts page.old (listed_links
        (has_links (map part_of parts.now) (chapters_in (map chapter_of below.now.items)))
        (heading_links title.now [] (flat_map headings_of (map part_of parts.now))
        ++ chapters_links (chapters_in (map chapter_of below.now.items)))) page.new result }
{
    if !has_links(parts, below.as_slice()) {
        return Ok(());
    }
    start(page, Element::Ul)?;
    put_heading_links(alloc, page, title, parts)?;
    put_chapters_links(alloc, page, below)?;
    end(page)
}

#[cycle(links)]
fn put_chapters_links<A: Allocator + Copy, B: Allocator>(
    alloc: A,
    page: &mut Page<A>,
    chapters: &Vec<Chapter<'_, B>, B>,
) -> Result<(), PageError>
    ensures { Puts page.old (chapters_links (chapters_in (map chapter_of chapters.now.items))) page.new result }
{
    for chapter in chapters {
        put_chapter_links(alloc, page, chapter)?;
    }
    Ok(())
}

fn put_nav_list<A: Allocator + Copy, B: Allocator>(
    alloc: A,
    page: &mut Page<A>,
    title: &str,
    top: &Chapter<'_, B>,
) -> Result<(), PageError>
    ensures { Puts page.old (inside Element.Nav (text_in (Element.Heading Level.Two) title.now
        ++ inside Element.Ul (chapter_links (chapter_of top.now)))) page.new result }
{
    start(page, Element::Nav)?;
    put_text_in(page, Element::Heading(Level::Two), title)?;
    start(page, Element::Ul)?;
    put_chapter_links(alloc, page, top)?;
    end(page)?;
    end(page)
}

/// Puts links to all sections, where there is any besides the first.
pub fn put_nav<A: Allocator + Copy, B: Allocator>(
    alloc: A,
    page: &mut Page<A>,
    frame: &Frame<'_>,
    top: &Chapter<'_, B>,
) -> Result<(), PageError>
    ensures { Puts page.old (nav_events (frame_of frame.now) (chapter_of top.now)) page.new result }
{
    if !has_links(top.parts.as_slice(), top.below.as_slice()) {
        return Ok(());
    }
    put_nav_list(alloc, page, frame.contents, top)
}
