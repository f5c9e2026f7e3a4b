//! What is asked for.

ghost use Rattle.std.specs.Prelude.{◌≡◌, [], IfOk, unwrap_or};
ghost use Rattle.std.specs.Option.{option_or};
ghost use Rattle.description.specs.View.{text_of};

use bumpalo::Bump;
use std::alloc::AllocError;

/// A page on a console.
#[derive(Clone, Copy, Debug, PartialEq, Eq)]
pub enum ConsoleForm {
    /// The usage line.
    Usage,
    /// The help page, in full.
    Full,
    /// The help page, each text by its first block.
    Brief,
}

/// The words of the title line of a manual page, and of the foot of a page in HTML, that take the place of the
/// description's.
#[derive(Clone, Copy, Debug)]
pub struct TitleGiven<'a> {
    pub date: Option<&'a str>,
    pub vendor: Option<&'a str>,
}

/// What is given, otherwise what is said; nothing is the empty text.
pub(crate) fn word_of<'p, 'a: 'p>(
    arena: &'p Bump,
    given: Option<&str>,
    said: Option<&'a str>,
) -> Result<&'p str, AllocError>
    ensures { IfOk result (λ word. word.now ≡ unwrap_or (option_or (text_of given.entry) (text_of said.entry)) []) }
{
    match (given, said) {
        (Some(word), _) => arena.try_alloc_str(word),
        (None, Some(word)) => Ok(word),
        (None, None) => Ok(""),
    }
}
