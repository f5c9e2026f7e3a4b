//! Pages in HTML.

ghost use Rattle.std.specs.Prelude.{◌≡◌, ◌⊎◌, ◌++◌, Some, None, IfErr, IfOk, OnOk, alloc_error, codes, map};
ghost use Rattle.std.specs.Prelude.{string_bytes};
ghost use Rattle.web_page.specs.declared.errors.PageError.TheVariants.{Refused};
ghost use Rattle.html_page.specs.View.{frame_of};
ghost use Rattle.description.specs.View.{description_said};
ghost use Rattle.description_pages.specs.LevelsView.{subject_of};
ghost use Rattle.description_pages.specs.Sections.{joined_names};
ghost use Rattle.command_pages.specs.Html.{IsHtmlOf, foot_of, frame_said, html_page_fault, inked};
ghost use Rattle.command_pages.specs.View.{title_said};

use crate::given::{TitleGiven, word_of};
use bumpalo::Bump;
use description::Description;
use description_pages::chapters::chapter;
use description_pages::levels::LevelSubject;
use html_page::{Extent, Frame, PageError, html_page};
use std::alloc::{AllocError, Allocator, Global};
use web_page::models::has_ink;

fn push_inked<'p>(words: &mut Vec<&'p str, &'p Bump>, word: &'p str) -> Result<(), AllocError>
    ensures { OnOk result (map (λ word. word.now) words.new.items
        ≡ map (λ word. word.now) words.old.items ++ inked word.now) }
{
    if !has_ink(word) {
        return Ok(());
    }
    words.push(word)?;
    Ok(())
}

fn joined<'p>(arena: &'p Bump, words: &[&str]) -> Result<&'p str, AllocError>
    ensures { IfOk result (λ whole. whole.now ≡ joined_names (codes ", ") (map (λ word. word.now) words.now)) }
{
    let whole = words.join(arena, ", ")?;
    arena.try_alloc_str(whole.as_str())
}

// Who publishes it, and when.
fn foot<'p, 'a: 'p>(
    arena: &'p Bump,
    description: &'p Description<'a>,
    given: TitleGiven<'_>,
) -> Result<&'p str, AllocError>
    ensures { IfOk result (λ foot. foot.now ≡ foot_of (description_said description.now) (title_said given.entry)) }
{
    let mut words: Vec<&'p str, &'p Bump> = Vec::new(arena);
    push_inked(
        &mut words,
        word_of(arena, given.vendor, description.vendor)?,
    )?;
    push_inked(&mut words, word_of(arena, given.date, description.date)?)?;
    joined(arena, words.as_slice())
}

fn frame<'p, 'a: 'p>(
    arena: &'p Bump,
    description: &'p Description<'a>,
    given: TitleGiven<'_>,
) -> Result<Frame<'p>, AllocError>
    ensures { IfOk result (λ frame.
        frame_of frame ≡ frame_said (description_said description.now) (title_said given.entry)) }
{
    Ok(Frame {
        language: description.language,
        contents: description.words.contents,
        usage: description.words.usage,
        foot: foot(arena, description, given)?,
    })
}

/// The page of a level with all levels below it, in HTML: a complete page, or what stands in its body.
///
/// An error comes where an allocation failed, and otherwise only where a text may not stand on a page in HTML.
#[tactic(auto, using(crate::proofs::Failing::failing_html, crate::proofs::Failing::permitted_html))]
pub fn html_page_of<'p, 'a: 'p, A: Allocator + Copy>(
    alloc: A,
    arena: &'p Bump,
    description: &'p Description<'a>,
    extent: Extent,
    given: TitleGiven<'_>,
    level: LevelSubject<'p, 'a, Global>,
) -> Result<String<A>, PageError>
    ensures reads { IfOk result (λ made. IsHtmlOf (description_said description.now) extent (title_said given.entry)
        (subject_of level.entry) (string_bytes made)) }
    ensures permitted { IfOk result (λ _.
        html_page_fault (description_said description.now) (title_said given.entry) (subject_of level.entry) ≡ None) }
    ensures fails { IfErr result (λ error. (error ≡ Refused alloc_error)
        ⊎ (html_page_fault (description_said description.now) (title_said given.entry) (subject_of level.entry)
        ≡ Some error)) }
{
    let frame = frame(arena, description, given)?;
    let top = chapter(arena, &description.words, level)?;
    html_page(alloc, extent, &frame, &top)
}
