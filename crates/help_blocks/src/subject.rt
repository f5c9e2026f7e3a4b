//! What a title says of the lines below it.

ghost use Rattle.std.specs.Prelude.{◌≡◌};
ghost use Rattle.help_blocks.specs.Looks as looks;

use crate::scan::{ends_with_dot, has_word};

/// What stands below a title, by its words: `Unsaid` if none of them tells.
#[derive(Clone, Copy)]
pub enum Subject {
    Commands,
    Values,
    Examples,
    Options,
    Unsaid,
}

fn says_arguments(title: &[u8]) -> bool
    ensures { result ≡ looks.says_arguments title.now }
{
    has_word(title, b"argument") || has_word(title, b"args")
}

impl Subject {
    /// The subject of a title.
    pub fn of(title: &[u8]) -> Self
        ensures { result ≡ looks.subject_of title.now }
    {
        if ends_with_dot(title) {
            Subject::Unsaid
        } else if has_word(title, b"command") {
            Subject::Commands
        } else if says_arguments(title) && !has_word(title, b"--") {
            Subject::Values
        } else if has_word(title, b"example") {
            Subject::Examples
        } else if has_word(title, b"option") || has_word(title, b"flag") {
            Subject::Options
        } else {
            Subject::Unsaid
        }
    }
}
