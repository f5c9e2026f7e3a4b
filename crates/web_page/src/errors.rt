//! Why a page cannot be written.

ghost use Rattle.std.specs.Prelude.{◌≡◌, alloc_error};
ghost use Rattle.web_page.specs.declared.errors.PageError.TheVariants.{Refused};

use std::alloc::AllocError;
use thiserror::Error;

/// Why a call on a page fails.
#[derive(Clone, Copy, Debug, PartialEq, Eq, Error)]
pub enum PageError {
    /// The language is empty, or has other characters than ASCII letters, digits and `-`.
    #[error("the language is no language tag")]
    Language,
    /// The title is empty or only white space.
    #[error("the title is empty")]
    Title,
    /// The style has `</` in it.
    #[error("the style has `</` in it")]
    Style,
    /// A text or an attribute has a noncharacter in it, or a control character other than newline and tab.
    #[error("a control character or a noncharacter in a text")]
    Character,
    /// The id is empty or has white space in it, or the element takes none.
    #[error("an id that is empty, has white space in it, or stands where there may be none")]
    Id,
    /// The open element does not take this there, or may not end yet, or no element is open.
    #[error("an element or a text where it may not stand, or an end where none may come")]
    Misplaced,
    /// A paragraph, a heading or a list ends with no text in it except white space.
    #[error("a paragraph, a heading or a list that is empty")]
    NoInk,
    /// An allocation failed.
    #[error("no memory")]
    Refused(AllocError),
}

impl From<AllocError> for PageError {
    ghost from_gives = { λ _ e. e ≡ Refused alloc_error };

    fn from(refused: AllocError) -> PageError {
        PageError::Refused(refused)
    }
}
