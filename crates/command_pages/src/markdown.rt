//! Pages in markdown.

ghost use Rattle.std.specs.Prelude.{◌≡◌, ◌++◌, IfOk, None, OnOk, flat_map, map, string_bytes};
ghost use Rattle.page_model.specs.View.{part_of};
ghost use Rattle.description_pages.specs.LevelsView.{subject_of};
ghost use Rattle.description_pages.specs.Markdowns.{markdown_below};
ghost use Rattle.description_pages.specs.Subjects.{subjects_after};
ghost use Rattle.description.specs.Words.{words_said};
ghost use Rattle.command_pages.specs.Pages.{MayFailBy, markdown_page, markdown_page_fault, markdown_parts};
ghost use Rattle.command_pages.specs.Readings.{IsMarkdownOf};

use bumpalo::Bump;
use description::FixedWords;
use description_pages::levels::LevelSubject;
use description_pages::markdowns::{markdown, push_markdown_below};
use description_pages::subjects::{all_after, title};
use description_pages::{ArenaParts, Depth};
use markdown_page::markdown_page;
use page_model::PageFault;
use std::alloc::{AllocError, Allocator, Global};

/// The page of a level in markdown, of it alone or with those below it. `Character` comes where a text of the page, or
/// its title, may not stand in a page, and `Refused` where an allocation failed.
#[tactic(auto, using(crate::proofs::Failing::failing, crate::proofs::Failing::permitted))]
pub fn markdown_page_of<'p, 'a: 'p, A: Allocator + Copy>(
    alloc: A,
    arena: &'p Bump,
    words: &'p FixedWords<'p>,
    depth: Depth,
    level: LevelSubject<'p, 'a, Global>,
) -> Result<String<A>, PageFault>
    ensures reads { IfOk result (λ made.
        IsMarkdownOf depth (words_said words.now) (subject_of level.entry) (string_bytes made)) }
    ensures exact { IfOk result (λ made. string_bytes made
        ≡ markdown_page depth (words_said words.now) (subject_of level.entry)) }
    ensures permitted { IfOk result (λ _.
        markdown_page_fault depth (words_said words.now) (subject_of level.entry) ≡ None) }
    ensures fails { MayFailBy (markdown_page_fault depth (words_said words.now) (subject_of level.entry)) result }
{
    let title = title(arena, level.names)?;
    let parts = markdown_parts(arena, words, depth, level)?;
    markdown_page(alloc, title, parts.as_slice())
}

fn markdown_parts<'p, 'a: 'p>(
    arena: &'p Bump,
    words: &'p FixedWords<'p>,
    depth: Depth,
    level: LevelSubject<'p, 'a, Global>,
) -> Result<ArenaParts<'p>, AllocError>
    ensures { IfOk result (λ parts. map part_of parts.items
        ≡ markdown_parts depth (words_said words.now) (subject_of level.entry)) }
{
    let mut parts = markdown(arena, words, depth, level)?;
    if depth == Depth::Deep {
        push_markdowns_below(arena, words, &mut parts, level)?;
    }
    Ok(parts)
}

// Those of each level below.
fn push_markdowns_below<'p, 'a: 'p>(
    arena: &'p Bump,
    words: &'p FixedWords<'p>,
    parts: &mut ArenaParts<'p>,
    level: LevelSubject<'p, 'a, Global>,
) -> Result<(), AllocError>
    ensures { OnOk result (map part_of parts.new.items ≡ map part_of parts.old.items
        ++ flat_map (markdown_below (words_said words.now)) (subjects_after (subject_of level.entry))) }
{
    for below in all_after(arena, level)? {
        push_markdown_below(arena, words, parts, below)?;
    }
    Ok(())
}
