//! What a terminal shows of what a program prints: its letters.
#![tactic(auto)]

ghost use Rattle.std.specs.Prelude.{◌≡◌, IfOk, string_bytes};
ghost use Rattle.shown_letters.specs.Terminal.{shown_letters};

mod place;
mod screen;

use screen::Screen;
use std::alloc::{AllocError, Allocator};

/// The letters that a terminal shows of a text. Escape sequences are left out, as are control characters other than
/// tabulators and newlines. A letter that is printed over another replaces it.
///
/// # Errors
///
/// An allocation failed.
pub fn shown_letters<A: Allocator + Copy>(alloc: A, text: &str) -> Result<String<A>, AllocError>
    ensures exact { IfOk result (λ shown. string_bytes shown ≡ shown_letters text.now) }
{
    let mut screen = Screen::new(alloc);
    for character in text.chars() {
        screen.take(character)?;
    }
    screen.into_text()
}
