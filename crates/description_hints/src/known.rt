//! The words that options are called by, and texts that look like an option.
ghost use Rattle.std.specs.Prelude.{◌≡◌, ◌<◌, ◌++◌, ◌∷◌, ◌||◌, [], List, bytes_eq, false, length, map, ℕ};
ghost use Rattle.std.specs.Prelude.{IfOk, MatchOption, OnOk};
ghost use Rattle.std.specs.Char.{encode_utf8, is_ascii_alphabetic};
ghost use Rattle.std.specs.List.{list_all, position_or_len, prefix_len, slice_split};
ghost use Rattle.description.specs.View.{name_said, spelling_said};
ghost use Rattle.description_hints.specs.Names.{begins, is_among, is_bracket, is_dash, is_equals, is_known, is_long_form};
ghost use Rattle.description_hints.specs.Names.{is_no_option, is_separator, is_short_form, is_word, is_word_byte};
ghost use Rattle.description_hints.specs.Names.{known_words, looks_like_option, name_in, name_words, part_words};
ghost use Rattle.description_hints.specs.Names.{spelling_words, syntax_words, without_dashes};
ghost use Rattle.description_hints.specs.View.{holds, part_said, site_said, words_said};

use crate::sites::{Part, Site};
use bumpalo::Bump;
use description::{Name, Spelling};
use std::alloc::AllocError;
use std::collections::BTreeSet;

/// Whether a byte is one of `[ ] ( ) < > { }`.
pub fn is_bracket(byte: u8) -> bool
    ensures { result ≡ is_bracket byte }
{
    matches!(byte, b'[' | b']' | b'(' | b')' | b'<' | b'>' | b'{' | b'}')
}

fn is_separator(byte: u8) -> bool
    ensures { result ≡ is_separator byte }
{
    matches!(
        byte,
        b' ' | b',' | b'|' | b'=' | b'[' | b']' | b'(' | b')' | b'<' | b'>' | b'{' | b'}'
    )
}

fn is_dash(byte: u8) -> bool
    ensures { result ≡ is_dash byte }
{
    byte == b'-'
}

fn dashes(word: &[u8]) -> usize
    ensures { result ≡ prefix_len is_dash word.now }
{
    word.iter().take_while(|byte| is_dash(**byte)).count()
}

#[tactic(auto, using(crate::proofs::Bounds::dashes_within))]
fn without_dashes(word: &[u8]) -> &[u8]
    ensures { result.now ≡ without_dashes word.now }
{
    &word[dashes(word)..]
}

// ---- the words of options

/// Words in an arena.
pub type Words<'p> = Vec<&'p [u8], &'p Bump>;

fn push_short<'p>(arena: &'p Bump, words: &mut Words<'p>, short: char) -> Result<(), AllocError>
    ensures { OnOk result (words_said words.new.items ≡ words_said words.old.items ++ encode_utf8 short ∷ []) }
{
    let word = arena.try_alloc_str(short.encode_utf8(&mut [0; 4]))?;
    words.push(word.as_bytes())?;
    Ok(())
}

fn push_long<'p>(words: &mut Words<'p>, long: &'p str) -> Result<(), AllocError>
    ensures { OnOk result (words_said words.new.items ≡ words_said words.old.items ++ long.now ∷ []) }
{
    words.push(long.as_bytes())?;
    Ok(())
}

fn push_name_words<'p>(arena: &'p Bump, words: &mut Words<'p>, name: Name) -> Result<(), AllocError>
    ensures { OnOk result (words_said words.new.items ≡ words_said words.old.items ++ name_words (name_said name)) }
{
    match name {
        Name::Short(short) => push_short(arena, words, short),
        Name::Long(long) => push_long(words, long),
        Name::Both(short, long) => {
            push_short(arena, words, short)?;
            push_long(words, long)
        }
    }
}

fn word_len(text: &[u8]) -> usize
    ensures { result ≡ position_or_len is_separator text.now }
{
    text.iter().take_while(|byte| !is_separator(**byte)).count()
}

// The first word of a syntax, and what follows the separator at its end. None where there is no separator.
#[tactic(auto, using(crate::proofs::Words::word_alone))]
fn split_word(text: &[u8]) -> Option<(&[u8], &[u8])>
    ensures { MatchOption result
        (slice_split is_separator text.now ≡ text.now ∷ [])
        (λ cut. (slice_split is_separator text.now ≡ cut.0.now ∷ slice_split is_separator cut.1.now)
        × (length cut.1.now < length text.now)) }
{
    let len = word_len(text);
    if len < text.len() {
        Some((&text[..len], &text[len + 1..]))
    } else {
        None
    }
}

fn push_syntax_words<'p>(words: &mut Words<'p>, syntax: &'p [u8]) -> Result<(), AllocError>
    ensures { OnOk result (words_said words.new.items ≡ words_said words.old.items ++ syntax_words syntax.now) }
{
    let mut rest = syntax;
    while let Some((word, after)) = split_word(rest) {
        words.push(without_dashes(word))?;
        rest = after;
    }
    words.push(without_dashes(rest))?;
    Ok(())
}

/// Puts the words that an option is called by.
pub fn push_spelling_words<'p>(
    arena: &'p Bump,
    words: &mut Words<'p>,
    spelling: Spelling<'p>,
) -> Result<(), AllocError>
    ensures { OnOk result (words_said words.new.items
        ≡ words_said words.old.items ++ spelling_words (spelling_said spelling.entry)) }
{
    match spelling {
        Spelling::Names(name) => push_name_words(arena, words, name),
        Spelling::Syntax(text) => push_syntax_words(words, text.as_bytes()),
    }
}

fn push_part_words<'p>(
    arena: &'p Bump,
    words: &mut Words<'p>,
    part: Part<'p>,
) -> Result<(), AllocError>
    ensures { OnOk result (words_said words.new.items
        ≡ words_said words.old.items ++ part_words (part_said part.entry)) }
{
    match part {
        Part::Option { option, .. } => push_spelling_words(arena, words, option.spelling),
        Part::Application(_)
        | Part::Positional(_)
        | Part::Command { .. }
        | Part::Text(_)
        | Part::Usage { .. } => Ok(()),
    }
}

fn words_of<'p>(arena: &'p Bump, sites: &[Site<'p>]) -> Result<Words<'p>, AllocError>
    ensures { IfOk result (λ words. words_said words.items ≡ known_words (map site_said sites.now)) }
{
    let mut words: Words<'p> = Vec::new(arena);
    for site in sites {
        push_part_words(arena, &mut words, site.part)?;
    }
    Ok(words)
}

// ---- sets of words

/// A set of words, as those that options are called by.
#[derive(Drop)]
pub struct Known<'p> {
    pub words: BTreeSet<&'p [u8], &'p Bump>,
}

/// A set of these words. An error comes only where an allocation failed.
pub fn set_of<'p>(arena: &'p Bump, words: &[&'p [u8]]) -> Result<Known<'p>, AllocError>
    ensures { IfOk result (λ known. (word : List ℕ) → holds known word ≡ is_among (words_said words.now) word) }
{
    let mut set = BTreeSet::new(arena);
    for word in words {
        set.insert(*word)?;
    }
    Ok(Known { words: set })
}

impl<'p> Known<'p> {
    /// The words of the options among parts. An error comes only where an allocation failed.
    pub fn of(arena: &'p Bump, sites: &[Site<'p>]) -> Result<Known<'p>, AllocError>
        ensures { IfOk result (λ known. (word : List ℕ)
            → holds known word ≡ is_among (known_words (map site_said sites.now)) word) }
    {
        let words = words_of(arena, sites)?;
        set_of(arena, words.as_slice())
    }

    /// Puts a word. An error comes only where an allocation failed.
    pub fn put(&mut self, word: &'p [u8]) -> Result<(), AllocError>
        ensures { OnOk result ((other : List ℕ)
            → holds self.new other ≡ (holds self.old other || (bytes_eq other word.now || false))) }
    {
        self.words.insert(word)?;
        Ok(())
    }

    /// Whether there is this word.
    pub fn has(&self, word: &'p [u8]) -> bool
        ensures { result ≡ holds self.now word.now }
    {
        self.words.contains(&word)
    }

    fn is_known(&self, word: &'p [u8]) -> bool
        ensures { result ≡ is_known (holds self.now) word.now }
    {
        self.has(word) || (word.starts_with(b"no-") && self.has(&word[3..]))
    }

    /// Whether a text looks like an option, and no option is called so.
    pub fn is_no_option(&self, text: &'p [u8]) -> bool
        ensures { result ≡ is_no_option (holds self.now) text.now }
    {
        looks_like_option(text) && !self.is_known(without_dashes(name_in(text)))
    }
}

// ---- texts that look like an option

fn is_equals(byte: u8) -> bool
    ensures { result ≡ is_equals byte }
{
    byte == b'='
}

fn name_len(text: &[u8]) -> usize
    ensures { result ≡ position_or_len is_equals text.now }
{
    text.iter().take_while(|byte| !is_equals(**byte)).count()
}

fn name_in(text: &[u8]) -> &[u8]
    ensures { result.now ≡ name_in text.now }
{
    &text[..name_len(text)]
}

fn is_word_byte(byte: u8) -> bool
    ensures { result ≡ is_word_byte byte }
{
    byte.is_ascii_alphanumeric() || is_dash(byte)
}

fn is_short_form(name: &[u8]) -> bool
    ensures { result ≡ is_short_form name.now }
{
    match name {
        [b'-', letter] => letter.is_ascii_alphabetic(),
        _ => false,
    }
}

fn begins_with_letter(word: &[u8]) -> bool
    ensures { result ≡ begins is_ascii_alphabetic word.now }
{
    match word {
        [] => false,
        [first, ..] => first.is_ascii_alphabetic(),
    }
}

fn are_word_bytes(bytes: &[u8]) -> bool
    ensures { result ≡ list_all is_word_byte bytes.now }
{
    bytes.iter().all(|byte| is_word_byte(*byte))
}

fn is_word(word: &[u8]) -> bool
    ensures { result ≡ is_word word.now }
{
    begins_with_letter(word) && are_word_bytes(word)
}

fn is_long_form(name: &[u8]) -> bool
    ensures { result ≡ is_long_form name.now }
{
    match name {
        [b'-', b'-', word @ ..] => is_word(word),
        _ => false,
    }
}

fn looks_like_option(text: &[u8]) -> bool
    ensures { result ≡ looks_like_option text.now }
{
    let name = name_in(text);
    is_short_form(name) || is_long_form(name)
}
