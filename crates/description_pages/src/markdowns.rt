//! The page of a level for markdown, as the parts of a page.
ghost use Rattle.std.specs.Prelude.{◌≡◌, ◌++◌, map, IfOk, OnOk};
ghost use Rattle.page_model.specs.View.{part_of};
ghost use Rattle.description_pages.specs.LevelsView.{subject_of};
ghost use Rattle.description_pages.specs.Markdowns.{markdown_below, markdown_of};
ghost use Rattle.description.specs.Words.{words_said};

use crate::arranged::{ArenaParts, push_in_order};
use crate::levels::{Depth, LevelSubject, level_page};
use crate::references::with_references;
use crate::sections::Detail;
use bumpalo::Bump;
use description::FixedWords;
use page_model::{Part, Rank};
use std::alloc::{AllocError, Allocator};

/// The page of a level for markdown, except its title: what is said about the level, its usage and its header; lists,
/// topics and notes; and the pages above and below. Entries of commands lead to their headings, where the levels below
/// are to follow on the same page, otherwise to their pages. An error comes only where an allocation failed.
pub fn markdown<'p, 'a: 'p, C: Allocator>(
    arena: &'p Bump,
    words: &'p FixedWords<'p>,
    depth: Depth,
    subject: LevelSubject<'p, 'a, C>,
) -> Result<ArenaParts<'p>, AllocError>
    ensures { IfOk result (λ parts. map part_of parts.items
        ≡ markdown_of (words_said words.now) depth (subject_of subject.entry)) }
{
    let page = level_page(arena, words, Detail::Full, depth, subject)?;
    let page = with_references(arena, page)?;
    let mut parts: ArenaParts<'p> = Vec::new(arena);
    push_in_order(arena, words, Rank::Section, &mut parts, page)?;
    Ok(parts)
}

/// Appends the page of a level that follows another: its names as a title, with a blank between two, and the rest one
/// rank lower, without references. Entries of commands lead to headings. An error comes only where an allocation
/// failed, and then some of it may have been appended.
pub fn push_markdown_below<'p, 'a: 'p, C: Allocator>(
    arena: &'p Bump,
    words: &'p FixedWords<'p>,
    parts: &mut ArenaParts<'p>,
    subject: LevelSubject<'p, 'a, C>,
) -> Result<(), AllocError>
    ensures { OnOk result (map part_of parts.new.items ≡ map part_of parts.old.items
        ++ markdown_below (words_said words.now) (subject_of subject.entry)) }
{
    let page = level_page(arena, words, Detail::Full, Depth::Deep, subject)?;
    parts.push(Part::Heading(Rank::Page, page.title))?;
    push_in_order(arena, words, Rank::Subsection, parts, page)
}
