//! What the hints about a part look at of the whole description.
ghost use Rattle.std.specs.Prelude.{◌≡◌, ℕ, List, map, IfOk};
ghost use Rattle.description.specs.View.{description_said};
ghost use Rattle.description_hints.specs.Hints.{around};
ghost use Rattle.description_hints.specs.Names.{is_among, options_names, options_words};
ghost use Rattle.description_hints.specs.Sites.{sites};
ghost use Rattle.description_hints.specs.View.{around_said, holds, site_said};

use crate::known::{Known, Words, set_of};
use crate::level_words::push_options;
use crate::shared::push_names;
use crate::sites::Site;
use bumpalo::Bump;
use description::{Description, FixedWords};
use std::alloc::{AllocError, Allocator};

/// What the hints about a part look at of the whole description.
#[derive(Drop)]
pub struct Around<'p> {
    pub fixed: FixedWords<'p>,
    /// The words that its options are called by.
    pub option_words: Known<'p>,
    /// The words of the options that ask for help.
    pub help_words: Known<'p>,
    /// The names under which pages show the options that ask for help.
    pub help_names: Known<'p>,
}

// The words of the options that ask for help.
fn help_words_of<'p, 'a: 'p, C: Allocator>(
    arena: &'p Bump,
    description: &'p Description<'a, C>,
) -> Result<Known<'p>, AllocError>
    ensures { IfOk result (λ help_words. (word : List ℕ) → holds help_words word
        ≡ is_among (options_words (description_said description.now).help_options) word) }
{
    let mut words: Words<'p> = Vec::new(arena);
    push_options(arena, &mut words, description.help_options.as_slice())?;
    set_of(arena, words.as_slice())
}

// The names under which pages show the options that ask for help.
fn help_names_of<'p, 'a: 'p, C: Allocator>(
    arena: &'p Bump,
    description: &'p Description<'a, C>,
) -> Result<Known<'p>, AllocError>
    ensures { IfOk result (λ help_names. (name : List ℕ) → holds help_names name
        ≡ is_among (options_names (description_said description.now).help_options) name) }
{
    let mut names: Words<'p> = Vec::new(arena);
    push_names(arena, &mut names, description.help_options.as_slice())?;
    set_of(arena, names.as_slice())
}

/// What hints look at of a description that has these parts. An error comes only where an allocation failed.
pub fn around_of<'p, 'a: 'p, C: Allocator>(
    arena: &'p Bump,
    description: &'p Description<'a, C>,
    parts: &[Site<'p>],
) -> Result<Around<'p>, AllocError>
    requires { map site_said parts.now ≡ sites (description_said description.now) }
    ensures { IfOk result (λ whole. around_said whole ≡ around (description_said description.now)) }
{
    let option_words = Known::of(arena, parts)?;
    let help_words = help_words_of(arena, description)?;
    let help_names = help_names_of(arena, description)?;
    Ok(Around {
        fixed: description.words,
        option_words,
        help_words,
        help_names,
    })
}
