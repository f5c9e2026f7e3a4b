//! Entries, and the parts of a chapter.
#![tactic(auto, using(crate::proofs::Outcomes::putting))]

ghost use Rattle.std.specs.Prelude.{◌≡◌, ◌++◌, flat_map, map, option_map, OnOk};
ghost use Rattle.page_model.specs.View.{block_of, entry_of, line_of, part_of, target_of};
ghost use Rattle.html_page.specs.Events.{inside, inside_with_id, link_to, say, text_in};
ghost use Rattle.html_page.specs.Page.{entries_events, entry_events, entry_words, leading_term, own_term, id_after};
ghost use Rattle.html_page.specs.Page.{term_events, terms_events};
ghost use Rattle.html_page.specs.Steps.{Puts};
ghost use Rattle.html_page.specs.Steps.View.{texts_of};

use crate::counts::Counts;
use crate::elements::{end, start, start_link_to_id, start_with_id};
use crate::ids::{chapter_id, entry_id};
use crate::lines::{put_blocks, put_terms};
use page_model::{Entry, Line, Target};
use std::alloc::{AllocError, Allocator};
use web_page::{Element, Page, PageError};

// The terms as a link to the element of an id.
fn put_linked_terms<A: Allocator, B: Allocator>(
    page: &mut Page<A>,
    id: &str,
    terms: &[Line<'_, B>],
) -> Result<(), PageError>
    ensures { Puts page.old (link_to id.now (terms_events (map (λ term. line_of term.items) terms.now)))
        page.new result }
{
    start_link_to_id(page, id)?;
    put_terms(page, terms)?;
    end(page)
}

fn put_own_term<A: Allocator, B: Allocator>(
    page: &mut Page<A>,
    id: &str,
    terms: &[Line<'_, B>],
) -> Result<(), PageError>
    ensures { Puts page.old (own_term id.now (map (λ term. line_of term.items) terms.now)) page.new result }
{
    start_with_id(page, Element::Dt, id)?;
    put_linked_terms(page, id, terms)?;
    end(page)
}

fn put_leading_term<A: Allocator + Copy, B: Allocator>(
    alloc: A,
    page: &mut Page<A>,
    title: &str,
    terms: &[Line<'_, B>],
) -> Result<(), PageError>
    ensures { Puts page.old (leading_term title.now (map (λ term. line_of term.items) terms.now)) page.new result }
{
    let id = chapter_id(alloc, title)?;
    start(page, Element::Dt)?;
    put_linked_terms(page, &id, terms)?;
    end(page)
}

// A term after those of the chapter that have an id.
fn put_counted_term<A: Allocator + Copy, B: Allocator>(
    alloc: A,
    page: &mut Page<A>,
    title: &str,
    before: &Counts<'_, A>,
    entry: &Entry<'_, B>,
) -> Result<(), PageError>
    ensures { Puts page.old (own_term (id_after title.now (texts_of before.now)
        (entry_of entry.now).word) (entry_of entry.now).terms) page.new result }
{
    let id = entry_id(alloc, title, entry.word, before.count(entry.word))?;
    put_own_term(page, &id, entry.terms.as_slice())
}

fn put_term<A: Allocator + Copy, B: Allocator>(
    alloc: A,
    page: &mut Page<A>,
    title: &str,
    before: &Counts<'_, A>,
    entry: &Entry<'_, B>,
) -> Result<(), PageError>
    ensures { Puts page.old (term_events title.now (texts_of before.now)
        (entry_of entry.now).word (entry_of entry.now).target (entry_of entry.now).terms) page.new result }
{
    match entry.target {
        None => put_counted_term(alloc, page, title, before, entry),
        Some(Target::Page(_)) => put_counted_term(alloc, page, title, before, entry),
        Some(Target::Heading(other)) => put_leading_term(
            alloc,
            page,
            other,
            entry.terms.as_slice(),
        ),
    }
}

fn put_entry<A: Allocator + Copy, B: Allocator>(
    alloc: A,
    page: &mut Page<A>,
    title: &str,
    before: &Counts<'_, A>,
    entry: &Entry<'_, B>,
) -> Result<(), PageError>
    ensures { Puts page.old (entry_events title.now (texts_of before.now)
        (entry_of entry.now)) page.new result }
{
    put_term(alloc, page, title, before, entry)?;
    start(page, Element::Dd)?;
    put_blocks(page, entry.body.as_slice())?;
    end(page)
}

fn count_entry<'a, A: Allocator + Copy, B: Allocator>(
    before: &mut Counts<'a, A>,
    entry: &Entry<'a, B>,
) -> Result<(), AllocError>
    ensures { OnOk result (texts_of before.new
        ≡ texts_of before.old ++ entry_words (entry_of entry.now)) }
{
    match entry.target {
        None => before.push(entry.word),
        Some(Target::Page(_)) => before.push(entry.word),
        Some(Target::Heading(_)) => Ok(()),
    }
}

/// Puts entries of the chapter of this title, after those before.
pub fn put_entries<'a, A: Allocator + Copy, B: Allocator>(
    alloc: A,
    page: &mut Page<A>,
    title: &str,
    before: &mut Counts<'a, A>,
    entries: &[Entry<'a, B>],
) -> Result<(), PageError>
    ensures put { Puts page.old (entries_events title.now (texts_of before.old)
        (map entry_of entries.now)) page.new result }
    ensures counted { OnOk result (texts_of before.new
        ≡ texts_of before.old ++ flat_map entry_words (map entry_of entries.now)) }
{
    for entry in entries {
        put_entry(alloc, page, title, before, entry)?;
        count_entry(before, entry)?;
    }
    Ok(())
}
