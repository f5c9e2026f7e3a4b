//! The page of a level for a console, as the parts of a page, and its usage alone.
ghost use Rattle.std.specs.Prelude.{◌≡◌, map, IfOk};
ghost use Rattle.page_model.specs.View.{form_of, part_of};
ghost use Rattle.description_pages.specs.Consoles.{console_of, usage_of};
ghost use Rattle.description_pages.specs.LevelsView.{subject_of};
ghost use Rattle.description.specs.Words.{words_said};

use crate::arranged::{ArenaParts, push_in_order};
use crate::levels::{Depth, LevelSubject, level_page};
use crate::neighbours::joined_names;
use crate::sections::Detail;
use bumpalo::Bump;
use description::FixedWords;
use description_usage::usage_forms;
use page_model::{Form, Rank};
use std::alloc::{AllocError, Allocator};

/// The page of a level for a console, in full or in brief: what is said about the level, its usage and its header;
/// lists, topics and notes. It names no other pages. An error comes only where an allocation failed.
pub fn console<'p, 'a: 'p, C: Allocator>(
    arena: &'p Bump,
    words: &'p FixedWords<'p>,
    detail: Detail,
    subject: LevelSubject<'p, 'a, C>,
) -> Result<ArenaParts<'p>, AllocError>
    ensures { IfOk result (λ parts. map part_of parts.items
        ≡ console_of (words_said words.now) detail (subject_of subject.entry)) }
{
    let page = level_page(arena, words, detail, Depth::Alone, subject)?;
    let mut parts: ArenaParts<'p> = Vec::new(arena);
    push_in_order(arena, words, Rank::Section, &mut parts, page)?;
    Ok(parts)
}

/// The usage of a level: its forms. An error comes only where an allocation failed.
pub fn usage<'p, 'a: 'p, C: Allocator>(
    arena: &'p Bump,
    words: &FixedWords<'p>,
    subject: LevelSubject<'p, 'a, C>,
) -> Result<Vec<Form<'p, &'p Bump>, &'p Bump>, AllocError>
    ensures { IfOk result (λ forms. map form_of forms.items
        ≡ usage_of (words_said words.now) (subject_of subject.entry)) }
{
    let names = joined_names(arena, subject.names, " ")?;
    usage_forms(arena, words, names, subject.level)
}
