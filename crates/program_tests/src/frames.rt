//! Pages of words of any size.

use crate::engines::{Asked, comes_through, is_shown};
use crate::stand_ins::scripts::{Draws, front, letters};
use std::alloc::{AllocError, Global};

/// What an engine is asked for, an input and its page. In both `@` stands for a word.
pub type Frame = (Asked, &'static str, &'static str);

/// Whether the page of a word of this size comes through drawn ends.
pub fn word_comes_through(
    global: Global,
    budget: usize,
    draws: &mut Draws,
    &(asked, input, page): &Frame,
    size: usize,
) -> Result<bool, AllocError> {
    let letters = letters(global, size)?;
    let word = front(&letters, size);
    let input = input.replace(global, '@', word)?;
    let page = page.replace(global, '@', word)?;
    let texts = (input.as_bytes(), page.as_bytes());
    Ok(comes_through(global, budget, draws, asked, texts))
}

/// Whether a large page comes through, which shows a word that is given so.
pub fn shows(
    global: Global,
    &(asked, input, page): &Frame,
    given: &str,
    shown: &str,
) -> Result<bool, AllocError> {
    let input = input.replace(global, '@', given)?;
    let page = page.replace(global, '@', shown)?;
    Ok(is_shown(global, asked, input.as_bytes(), page.as_bytes()))
}
