//! A line about a word of others.

ghost use Rattle.std.specs.Prelude.{◌≡◌, chars, not};
ghost use Rattle.std.specs.List.{list_any};
ghost use Rattle.shown_words.specs.Hidden.{is_hidden};

use shown_words::{Brief, holds_hidden};
use std::alloc::{AllocError, Global};

/// A line about a word that is not known.
pub fn line_about(alloc: Global, word: &str) -> Result<String, AllocError> {
    format!(in alloc; "no word {} is known", Brief(word))
}

/// Whether a line shows each character of the word.
pub fn is_plain(word: &str) -> bool
    ensures { result ≡ not (list_any is_hidden (chars word.now)) }
{
    !holds_hidden(word)
}
