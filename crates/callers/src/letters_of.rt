//! The letters of a help text.

ghost use Rattle.std.specs.Prelude.{◌≡◌, IfOk, string_bytes};
ghost use Rattle.shown_letters.specs.Terminal.{shown_letters};

use shown_letters::shown_letters;
use std::alloc::{AllocError, Global};

/// A help text as its reader sees it.
pub fn letters_of(alloc: Global, printed: &str) -> Result<String, AllocError>
    ensures { IfOk result (λ letters. string_bytes letters ≡ shown_letters printed.now) }
{
    shown_letters(alloc, printed)
}
