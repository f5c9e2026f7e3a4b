//! The manual page of a level, that reads back as what its records say.

ghost use Rattle.std.specs.Prelude.{◌≡◌, IfOk, string_bytes};
ghost use Rattle.description_pages.specs.LevelsView.{subject_of};
ghost use Rattle.description_pages.specs.Manuals.{manual_of};
ghost use Rattle.description.specs.Words.{words_said};
ghost use Rattle.man_page.specs.Kept.{page_kept};
ghost use Rattle.man_page.specs.Promises.{ReadsAs};
ghost use Rattle.man_page.specs.View.{title_of};

use bumpalo::Bump;
use description::FixedWords;
use description_pages::LevelSubject;
use description_pages::manuals::manual;
use man_page::{PageFault, TitleLine, manual_page};
use std::alloc::Global;

/// The manual page of a level. It reads back with what its records say, in the order of manual pages.
pub fn manual_page_of<'p, 'a: 'p>(
    arena: &'p Bump,
    words: &'p FixedWords<'p>,
    title: &TitleLine<'p>,
    subject: LevelSubject<'p, 'a, Global>,
) -> Result<String<&'p Bump>, PageFault>
    ensures { IfOk result (λ text. ReadsAs (string_bytes text) (page_kept (title_of title.now)
        (manual_of (words_said words.now) (subject_of subject.entry)))) }
{
    let parts = manual(arena, words, subject)?;
    manual_page(arena, title, parts.as_slice())
}
