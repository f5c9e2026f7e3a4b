//! Manual pages.

ghost use Rattle.std.specs.Prelude.{◌≡◌, ◌++◌, IfOk, None, OnOk, flat_map, map, string_bytes};
ghost use Rattle.page_model.specs.View.{part_of};
ghost use Rattle.man_page.specs.View.{title_of};
ghost use Rattle.description.specs.View.{description_said};
ghost use Rattle.description_pages.specs.LevelsView.{subject_of};
ghost use Rattle.description_pages.specs.Manuals.{manual_below};
ghost use Rattle.description_pages.specs.Subjects.{subjects_after};
ghost use Rattle.description.specs.Words.{words_said};
ghost use Rattle.command_pages.specs.Pages.{MayFailBy, manual_page, manual_page_fault, manual_parts, title_line};
ghost use Rattle.command_pages.specs.Readings.{IsManualOf};
ghost use Rattle.command_pages.specs.View.{title_said};

use crate::given::{TitleGiven, word_of};
use bumpalo::Bump;
use description::{Description, FixedWords};
use description_pages::levels::LevelSubject;
use description_pages::manuals::{manual, push_manual_below};
use description_pages::subjects::{all_after, page_name};
use description_pages::{ArenaParts, Depth};
use man_page::{TitleLine, manual_page};
use page_model::PageFault;
use std::alloc::{AllocError, Allocator, Global};

/// The manual page of a level, of it alone or with those below it. `Character` comes where a text of the page, or a
/// word of its title line, may not stand in a page, and `Refused` where an allocation failed.
#[tactic(auto, using(crate::proofs::Failing::failing, crate::proofs::Failing::permitted))]
pub fn manual_page_of<'p, 'a: 'p, A: Allocator + Copy>(
    alloc: A,
    arena: &'p Bump,
    description: &'p Description<'a>,
    depth: Depth,
    given: TitleGiven<'_>,
    level: LevelSubject<'p, 'a, Global>,
) -> Result<String<A>, PageFault>
    ensures reads { IfOk result (λ made. IsManualOf (description_said description.now) depth (title_said given.entry)
        (subject_of level.entry) (string_bytes made)) }
    ensures exact { IfOk result (λ made. string_bytes made
        ≡ manual_page (description_said description.now) depth (title_said given.entry) (subject_of level.entry)) }
    ensures permitted { IfOk result (λ _. manual_page_fault (description_said description.now) depth
        (title_said given.entry) (subject_of level.entry) ≡ None) }
    ensures fails { MayFailBy (manual_page_fault (description_said description.now) depth (title_said given.entry)
        (subject_of level.entry)) result }
{
    let line = title_line(arena, description, given, level)?;
    let parts = manual_parts(arena, &description.words, depth, level)?;
    manual_page(alloc, &line, parts.as_slice())
}

fn title_line<'p, 'a: 'p>(
    arena: &'p Bump,
    description: &'p Description<'a>,
    given: TitleGiven<'_>,
    level: LevelSubject<'p, 'a, Global>,
) -> Result<TitleLine<'p>, AllocError>
    ensures { IfOk result (λ line. title_of line
        ≡ title_line (description_said description.now) (title_said given.entry) (subject_of level.entry)) }
{
    let title: Option<&'p str> = description.title;
    Ok(TitleLine {
        name: page_name(arena, level.names)?,
        section: description.section,
        date: word_of(arena, given.date, description.date)?,
        vendor: word_of(arena, given.vendor, description.vendor)?,
        title: title.unwrap_or(""),
    })
}

fn manual_parts<'p, 'a: 'p>(
    arena: &'p Bump,
    words: &'p FixedWords<'p>,
    depth: Depth,
    level: LevelSubject<'p, 'a, Global>,
) -> Result<ArenaParts<'p>, AllocError>
    ensures { IfOk result (λ parts. map part_of parts.items
        ≡ manual_parts depth (words_said words.now) (subject_of level.entry)) }
{
    let mut parts = manual(arena, words, level)?;
    if depth == Depth::Deep {
        push_manuals_below(arena, words, &mut parts, level)?;
    }
    Ok(parts)
}

// Those of each level below.
fn push_manuals_below<'p, 'a: 'p>(
    arena: &'p Bump,
    words: &'p FixedWords<'p>,
    parts: &mut ArenaParts<'p>,
    level: LevelSubject<'p, 'a, Global>,
) -> Result<(), AllocError>
    ensures { OnOk result (map part_of parts.new.items ≡ map part_of parts.old.items
        ++ flat_map (manual_below (words_said words.now)) (subjects_after (subject_of level.entry))) }
{
    for below in all_after(arena, level)? {
        push_manual_below(arena, words, parts, below)?;
    }
    Ok(())
}
