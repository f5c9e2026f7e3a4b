//! Pages for a terminal.

ghost use Rattle.std.specs.Prelude.{◌≡◌, IfOk, None, string_bytes};
ghost use Rattle.description_pages.specs.LevelsView.{subject_of};
ghost use Rattle.description.specs.Words.{words_said};
ghost use Rattle.command_pages.specs.Pages.{MayFailBy, console_page, console_page_fault};

use crate::given::ConsoleForm;
use bumpalo::Bump;
use console_page::{console_page, console_usage};
use description::FixedWords;
use description_pages::Detail;
use description_pages::consoles::{console, usage};
use description_pages::levels::LevelSubject;
use page_model::PageFault;
use std::alloc::{Allocator, Global};

/// The page of a level on a console of that many columns. `Character` comes where a text may not stand in a page, and
/// `Refused` where an allocation failed.
#[tactic(auto, using(crate::proofs::Failing::failing, crate::proofs::Failing::permitted))]
pub fn console_page_of<'p, 'a: 'p, A: Allocator + Copy>(
    alloc: A,
    arena: &'p Bump,
    form: ConsoleForm,
    width: usize,
    words: &'p FixedWords<'p>,
    level: LevelSubject<'p, 'a, Global>,
) -> Result<String<A>, PageFault>
    ensures exact { IfOk result (λ made.
        string_bytes made ≡ console_page form width (words_said words.now) (subject_of level.entry)) }
    ensures permitted { IfOk result (λ _.
        console_page_fault form (words_said words.now) (subject_of level.entry) ≡ None) }
    ensures fails { MayFailBy (console_page_fault form (words_said words.now) (subject_of level.entry)) result }
{
    let detail = match form {
        ConsoleForm::Usage => {
            let forms = usage(arena, words, level)?;
            return console_usage(alloc, width, forms.as_slice());
        }
        ConsoleForm::Full => Detail::Full,
        ConsoleForm::Brief => Detail::Brief,
    };
    let parts = console(arena, words, detail, level)?;
    console_page(alloc, width, words.usage, parts.as_slice())
}
