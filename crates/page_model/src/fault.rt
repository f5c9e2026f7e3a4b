//! Why a page cannot be written.

ghost use Rattle.std.specs.Prelude.{◌≡◌, alloc_error};
ghost use Rattle.page_model.specs.declared.fault.PageFault.TheVariants.{Refused};

use std::alloc::AllocError;
use thiserror::Error;

/// Why a page cannot be written, in any medium.
#[derive(Clone, Copy, Debug, PartialEq, Eq, Error)]
pub enum PageFault {
    /// A text has a noncharacter in it, or a control character but newline and tab. The first such text of forms, of
    /// parts and of a chapter is what the calls of `permitted` give; a word of a title line is in none of them.
    #[error("a control character or a noncharacter in a text")]
    Character,
    /// An allocation failed.
    #[error("no memory")]
    Refused(AllocError),
}

impl From<AllocError> for PageFault {
    ghost from_gives = { λ _ e. e ≡ Refused alloc_error };

    fn from(refused: AllocError) -> PageFault {
        PageFault::Refused(refused)
    }
}
