//! A paragraph as one text, and whether it has more than one sentence.
ghost use Rattle.std.specs.Prelude.{◌≡◌, ◌++◌, flat_map, map, string_bytes, IfOk, OnOk};
ghost use Rattle.page_model.specs.View.{line_of, piece_of};
ghost use Rattle.description_hints.specs.Texts.{begins_turn, after_blank, has_turn, line_text, paragraph_text};
ghost use Rattle.description_hints.specs.Texts.{piece_text};

use page_model::{Inline, Line};
use std::alloc::{AllocError, Allocator};

fn piece_text<'p>(piece: &Inline<'p>) -> &'p str
    ensures { result.now ≡ piece_text (piece_of piece.now) }
{
    match piece {
        Inline::Words(text)
        | Inline::Literal(text)
        | Inline::Value(text)
        | Inline::Link(text)
        | Inline::Page(text) => text,
    }
}

fn push_line<A: Allocator>(text: &mut String<A>, line: &[Inline<'_>]) -> Result<(), AllocError>
    ensures { OnOk result (string_bytes text.new ≡ string_bytes text.old ++ line_text (line_of line.now)) }
{
    for piece in line {
        text.push_str(piece_text(piece))?;
    }
    Ok(())
}

/// The pieces of a line as one text. An error comes only where an allocation failed.
pub fn line_text<A: Allocator>(alloc: A, line: &[Inline<'_>]) -> Result<String<A>, AllocError>
    ensures { IfOk result (λ text. string_bytes text ≡ line_text (line_of line.now)) }
{
    let mut text = String::new(alloc);
    push_line(&mut text, line)?;
    Ok(text)
}

fn push_others<'p, A: Allocator, B: Allocator>(
    text: &mut String<A>,
    lines: &[Line<'p, B>],
) -> Result<(), AllocError>
    ensures { OnOk result (string_bytes text.new ≡ string_bytes text.old
        ++ flat_map after_blank (map (λ line. line_of line.items) lines.now)) }
{
    for line in lines {
        text.push_str(" ")?;
        push_line(text, line.as_slice())?;
    }
    Ok(())
}

/// The lines of a paragraph as one text, with a blank between two. An error comes only where an allocation failed.
pub fn paragraph_text<'p, A: Allocator, B: Allocator>(
    alloc: A,
    lines: &[Line<'p, B>],
) -> Result<String<A>, AllocError>
    ensures { IfOk result (λ text. string_bytes text
        ≡ paragraph_text (map (λ line. line_of line.items) lines.now)) }
{
    let mut text = String::new(alloc);
    if let Some((first, others)) = lines.split_first() {
        push_line(&mut text, first.as_slice())?;
        push_others(&mut text, others)?;
    }
    Ok(text)
}

fn begins_turn(bytes: &[u8]) -> bool
    ensures { result ≡ begins_turn bytes.now }
{
    match bytes {
        [one, two, b'.', b' ', next, ..] => {
            one.is_ascii_lowercase() && two.is_ascii_lowercase() && next.is_ascii_uppercase()
        }
        _ => false,
    }
}

/// Whether another sentence begins in the text, as far as the letters tell.
pub fn has_turn(bytes: &[u8]) -> bool
    ensures { result ≡ has_turn bytes.now }
{
    let mut rest = bytes;
    while let Some((_, after)) = rest.split_first() {
        if begins_turn(rest) {
            return true;
        }
        rest = after;
    }
    false
}
