//! Names of options, and words for values, as a page writes them. What is not in the records is made in an arena.
ghost use Rattle.std.specs.Prelude.{◌≡◌, ◌++◌, ◌∷◌, chars, codes, encode_utf8, IfOk, OnOk};
ghost use Rattle.std.specs.List.{list_all};
ghost use Rattle.std.specs.Option.{option_map};
ghost use Rattle.page_model.specs.View.{line_of, piece_of};
ghost use Rattle.description_usage.specs.Names.{is_bare, is_bare_byte, is_bare_character, long_line, long_piece};
ghost use Rattle.description_usage.specs.Names.{short_line, short_piece, shown_value, value_after, value_piece};

use bumpalo::Bump;
use page_model::{Inline, Line};
use std::alloc::{AllocError, Allocator};
use unicode::properties::is_uppercase;

/// A line in an arena.
pub type ArenaLine<'p, A> = Line<'p, &'p Bump<A>>;

/// Lines in an arena.
pub type ArenaLines<'p, A> = Vec<ArenaLine<'p, A>, &'p Bump<A>>;

fn is_bare_character(character: char) -> bool
    ensures { result ≡ is_bare_character character }
{
    is_uppercase(character) || character.is_ascii_digit() || character == '-' || character == '_'
}

fn is_bare_byte(byte: u8) -> bool
    ensures { result ≡ is_bare_byte byte }
{
    matches!(byte, b'A'..=b'Z' | b'0'..=b'9' | b'-' | b'_')
}

fn are_bare_bytes(word: &str) -> bool
    ensures { result ≡ list_all is_bare_byte word.now }
{
    word.as_bytes().iter().all(|byte| is_bare_byte(*byte))
}

// Most words that stand bare are ASCII, and then no table of Unicode is asked.
#[tactic(auto, using(crate::proofs::Bare::bare_bytes))]
fn is_bare(word: &str) -> bool
    ensures { result ≡ is_bare word.now }
{
    if are_bare_bytes(word) {
        return true;
    }
    word.chars().all(is_bare_character)
}

// Three texts as one.
fn joined<'p, A: Allocator>(
    arena: &'p Bump<A>,
    front: &str,
    text: &str,
    back: &str,
) -> Result<&'p str, AllocError>
    ensures { IfOk result (λ whole. whole.now ≡ front.now ++ (text.now ++ back.now)) }
{
    let mut whole = String::new(arena);
    whole.push_str(front)?;
    whole.push_str(text)?;
    whole.push_str(back)?;
    arena.try_alloc_str(whole.as_str())
}

/// A character as a text.
pub fn character_text<A: Allocator>(arena: &Bump<A>, character: char) -> Result<&str, AllocError>
    ensures { IfOk result (λ text. text.now ≡ encode_utf8 character) }
{
    let mut text = String::new(arena);
    text.push(character)?;
    arena.try_alloc_str(text.as_str())
}

fn short_piece<A: Allocator>(arena: &Bump<A>, short: char) -> Result<Inline<'_>, AllocError>
    ensures { IfOk result (λ piece. piece_of piece ≡ short_piece short) }
{
    let mut name = String::new(arena);
    name.push_str("-")?;
    name.push(short)?;
    Ok(Inline::Literal(arena.try_alloc_str(name.as_str())?))
}

fn long_piece<'p, A: Allocator>(arena: &'p Bump<A>, long: &str) -> Result<Inline<'p>, AllocError>
    ensures { IfOk result (λ piece. piece_of piece ≡ long_piece long.now) }
{
    Ok(Inline::Literal(joined(arena, "--", long, "")?))
}

/// The word for a value as it is shown: as it is, where all its characters are Uppercase ones, ASCII digits, `-` and
/// `_`, otherwise between `<` and `>`.
pub fn shown_value<'p, A: Allocator>(
    arena: &'p Bump<A>,
    word: &'p str,
) -> Result<&'p str, AllocError>
    ensures { IfOk result (λ shown. shown.now ≡ shown_value word.now) }
{
    if is_bare(word) {
        Ok(word)
    } else {
        joined(arena, "<", word, ">")
    }
}

/// The word for a value, as a piece of a line.
pub fn value_piece<'p, A: Allocator>(
    arena: &'p Bump<A>,
    word: &'p str,
) -> Result<Inline<'p>, AllocError>
    ensures { IfOk result (λ piece. piece_of piece ≡ value_piece word.now) }
{
    Ok(Inline::Value(shown_value(arena, word)?))
}

fn push_value<'p, A: Allocator>(
    arena: &'p Bump<A>,
    line: &mut ArenaLine<'p, A>,
    between: &'p str,
    value: Option<&'p str>,
) -> Result<(), AllocError>
    ensures { OnOk result (line_of line.new.items
        ≡ line_of line.old.items ++ value_after between.now (option_map (λ word. word.now) value.entry)) }
{
    let Some(word) = value else {
        return Ok(());
    };
    line.push(Inline::Words(between))?;
    line.push(value_piece(arena, word)?)?;
    Ok(())
}

/// The short name of an option, and after a blank the word for its value, if it has one.
pub fn short_line<'p, A: Allocator>(
    arena: &'p Bump<A>,
    short: char,
    value: Option<&'p str>,
) -> Result<ArenaLine<'p, A>, AllocError>
    ensures { IfOk result (λ line. line_of line.items
        ≡ short_line short (option_map (λ word. word.now) value.entry)) }
{
    let mut line = vec![in arena; short_piece(arena, short)?]?;
    push_value(arena, &mut line, " ", value)?;
    Ok(line)
}

/// The long name of an option, and after `=` the word for its value, if it has one.
pub fn long_line<'p, A: Allocator>(
    arena: &'p Bump<A>,
    long: &str,
    value: Option<&'p str>,
) -> Result<ArenaLine<'p, A>, AllocError>
    ensures { IfOk result (λ line. line_of line.items
        ≡ long_line long.now (option_map (λ word. word.now) value.entry)) }
{
    let mut line = vec![in arena; long_piece(arena, long)?]?;
    push_value(arena, &mut line, "=", value)?;
    Ok(line)
}
