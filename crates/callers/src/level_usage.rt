//! The usage of a level on a terminal.

ghost use Rattle.std.specs.Prelude.{◌≡◌, IfOk, string_bytes};
ghost use Rattle.console_page.specs.Page.{forms_text};
ghost use Rattle.description.specs.View.{level_said};
ghost use Rattle.description.specs.Words.{words_said};
ghost use Rattle.description_usage.specs.Forms.{usage_forms};

use bumpalo::Bump;
use console_page::{PageFault, console_usage};
use description::{FixedWords, Level};
use description_usage::usage_forms;
use std::alloc::Global;

/// The usage of a level, after the names that lead there, in 80 columns.
pub fn level_usage<'p, 'a: 'p>(
    arena: &'p Bump,
    words: &FixedWords<'p>,
    names: &'p str,
    level: &Level<'a, Global>,
) -> Result<String<&'p Bump>, PageFault>
    ensures { IfOk result (λ text. string_bytes text
        ≡ forms_text 80 (usage_forms (words_said words.now) names.now (level_said level.now))) }
{
    let forms = usage_forms(arena, words, names, level)?;
    console_usage(arena, 80, forms.as_slice())
}
