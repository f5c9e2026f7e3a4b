//! The parts of a chapter.
#![tactic(auto, using(crate::proofs::Outcomes::putting))]

ghost use Rattle.std.specs.Prelude.{◌≡◌, ◌++◌, ◌∷◌, [], flat_map, map, OnOk};
ghost use Rattle.page_model.specs.View.{entry_of, form_of, part_of};
ghost use Rattle.html_page.specs.Events.{inside, inside_with_id, say};
ghost use Rattle.html_page.specs.Page.{counted, entries_events, entry_words, heading_after, nothing_before};
ghost use Rattle.html_page.specs.Page.{part_events, parts_events};
ghost use Rattle.html_page.specs.Steps.{Puts};
ghost use Rattle.html_page.specs.Steps.View.{before_of, texts_of};
ghost use Rattle.html_page.specs.View.{frame_of};

use crate::counts::Counts;
use crate::elements::{end, say, start, start_with_id};
use crate::entries::put_entries;
use crate::frame::Frame;
use crate::ids::heading_id;
use crate::lines::put_block;
use crate::usage::put_usage;
use page_model::{Entry, Part};
use std::alloc::Allocator;
use web_page::{Element, Level, Page, PageError};

/// What a chapter has before a part: the words of its entries that have an id, and its headings.
#[derive(Drop)]
pub struct Before<'a, A: Allocator> {
    pub words: Counts<'a, A>,
    pub headings: Counts<'a, A>,
}

fn put_heading_with_id<A: Allocator>(
    page: &mut Page<A>,
    id: &str,
    text: &str,
) -> Result<(), PageError>
    ensures { Puts page.old (inside_with_id (Element.Heading Level.Three) id.now (say text.now ∷ []))
        page.new result }
{
    start_with_id(page, Element::Heading(Level::Three), id)?;
    say(page, text)?;
    end(page)
}

fn put_heading<'a, A: Allocator + Copy>(
    alloc: A,
    page: &mut Page<A>,
    title: &str,
    before: &mut Counts<'a, A>,
    text: &'a str,
) -> Result<(), PageError>
    ensures put { Puts page.old (inside_with_id (Element.Heading Level.Three)
        (heading_after title.now (texts_of before.old) text.now) (say text.now ∷ [])) page.new result }
    ensures counted { OnOk result (texts_of before.new ≡ texts_of before.old ++ text.now ∷ []) }
{
    let id = heading_id(alloc, title, text, before.count(text))?;
    put_heading_with_id(page, &id, text)?;
    before.push(text)?;
    Ok(())
}

fn put_entry_list<'a, A: Allocator + Copy, B: Allocator>(
    alloc: A,
    page: &mut Page<A>,
    title: &str,
    before: &mut Counts<'a, A>,
    entries: &[Entry<'a, B>],
) -> Result<(), PageError>
    ensures put { Puts page.old (inside Element.Dl
        (entries_events title.now (texts_of before.old) (map entry_of entries.now))) page.new result }
    ensures counted { OnOk result (texts_of before.new
        ≡ texts_of before.old ++ flat_map entry_words (map entry_of entries.now)) }
{
    start(page, Element::Dl)?;
    put_entries(alloc, page, title, before, entries)?;
    end(page)
}

fn put_part<'a, A: Allocator + Copy, B: Allocator>(
    alloc: A,
    page: &mut Page<A>,
    frame: &Frame<'_>,
    title: &str,
    before: &mut Before<'a, A>,
    part: &Part<'a, B>,
) -> Result<(), PageError>
    ensures put { Puts page.old (part_events (frame_of frame.now) title.now (before_of before.old)
        (part_of part.now)) page.new result }
    ensures counted { OnOk result (before_of before.new ≡ counted (before_of before.old) (part_of part.now)) }
{
    match part {
        Part::Heading(_, text) => put_heading(alloc, page, title, &mut before.headings, text),
        Part::Usage(forms) => put_usage(page, frame.usage, forms.as_slice()),
        Part::Block(block) => put_block(page, block),
        Part::Entries(entries) => {
            put_entry_list(alloc, page, title, &mut before.words, entries.as_slice())
        }
    }
}

fn put_parts_after<'a, A: Allocator + Copy, B: Allocator>(
    alloc: A,
    page: &mut Page<A>,
    frame: &Frame<'_>,
    title: &str,
    before: &mut Before<'a, A>,
    parts: &[Part<'a, B>],
) -> Result<(), PageError>
    ensures { Puts page.old (parts_events (frame_of frame.now) title.now (before_of before.old)
        (map part_of parts.now)) page.new result }
{
    for part in parts {
        put_part(alloc, page, frame, title, before, part)?;
    }
    Ok(())
}

/// Puts all parts of the chapter of this title.
pub fn put_parts<A: Allocator + Copy, B: Allocator>(
    alloc: A,
    page: &mut Page<A>,
    frame: &Frame<'_>,
    title: &str,
    parts: &[Part<'_, B>],
) -> Result<(), PageError>
    ensures { Puts page.old (parts_events (frame_of frame.now) title.now nothing_before
        (map part_of parts.now)) page.new result }
{
    let mut before = Before {
        words: Counts::new(alloc),
        headings: Counts::new(alloc),
    };
    put_parts_after(alloc, page, frame, title, &mut before, parts)
}
