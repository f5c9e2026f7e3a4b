//! Helps in one line.
ghost use Rattle.std.specs.Prelude.{◌≡◌, ◌++◌, flat_map, map, string_bytes, IfOk, OnOk};
ghost use Rattle.std.specs.Option.{option_map};
ghost use Rattle.page_model.specs.View.{line_of, piece_of};
ghost use Rattle.description.specs.View.{text_of};
ghost use Rattle.completions.specs.Texts.{after_blank, command_help, help_text, line_text, paragraph_in};
ghost use Rattle.completions.specs.Texts.{paragraph_text, piece_text};

use bumpalo::Bump;
use description_texts::{blocks, first_paragraph};
use page_model::{Inline, Line};
use std::alloc::{AllocError, Allocator};

fn piece_text<'p>(piece: &Inline<'p>) -> &'p str
    ensures { result.now ≡ piece_text (piece_of piece.now) }
{
    match piece {
        Inline::Words(text)
        | Inline::Literal(text)
        | Inline::Value(text)
        | Inline::Link(text)
        | Inline::Page(text) => text,
    }
}

fn push_line<A: Allocator>(text: &mut String<A>, line: &[Inline<'_>]) -> Result<(), AllocError>
    ensures { OnOk result (string_bytes text.new ≡ string_bytes text.old ++ line_text (line_of line.now)) }
{
    for piece in line {
        text.push_str(piece_text(piece))?;
    }
    Ok(())
}

fn push_others<'p, A: Allocator, B: Allocator>(
    text: &mut String<A>,
    lines: &[Line<'p, B>],
) -> Result<(), AllocError>
    ensures { OnOk result (string_bytes text.new ≡ string_bytes text.old
        ++ flat_map after_blank (map (λ line. line_of line.items) lines.now)) }
{
    for line in lines {
        text.push_str(" ")?;
        push_line(text, line.as_slice())?;
    }
    Ok(())
}

fn paragraph_text<'p, A: Allocator, B: Allocator>(
    alloc: A,
    lines: &[Line<'p, B>],
) -> Result<String<A>, AllocError>
    ensures { IfOk result (λ text. string_bytes text
        ≡ paragraph_text (map (λ line. line_of line.items) lines.now)) }
{
    let mut text = String::new(alloc);
    if let Some((first, others)) = lines.split_first() {
        push_line(&mut text, first.as_slice())?;
        push_others(&mut text, others)?;
    }
    Ok(text)
}

// The first paragraph of a text, if there is one.
fn paragraph_of<'p>(arena: &'p Bump, text: &'p str) -> Result<Option<String<&'p Bump>>, AllocError>
    ensures { IfOk result (λ found. option_map string_bytes found ≡ paragraph_in (Some text.now)) }
{
    let blocks = blocks(arena, text)?;
    match first_paragraph(blocks.as_slice()) {
        Some(lines) => Ok(Some(paragraph_text(arena, lines.as_slice())?)),
        None => Ok(None),
    }
}

fn paragraph_in<'p>(
    arena: &'p Bump,
    text: Option<&'p str>,
) -> Result<Option<String<&'p Bump>>, AllocError>
    ensures { IfOk result (λ found. option_map string_bytes found ≡ paragraph_in (text_of text.entry)) }
{
    match text {
        Some(text) => paragraph_of(arena, text),
        None => Ok(None),
    }
}

/// The first paragraph of a help, and an empty text where there is none. An error comes only where an allocation
/// failed.
pub fn help_text<'p>(arena: &'p Bump, help: Option<&'p str>) -> Result<String<&'p Bump>, AllocError>
    ensures { IfOk result (λ text. string_bytes text ≡ help_text (text_of help.entry)) }
{
    match paragraph_in(arena, help)? {
        Some(text) => Ok(text),
        None => Ok(String::new(arena)),
    }
}

/// That of the help of a command, else of what is said about it. An error comes only where an allocation failed.
pub fn command_help<'p>(
    arena: &'p Bump,
    help: Option<&'p str>,
    about: Option<&'p str>,
) -> Result<String<&'p Bump>, AllocError>
    ensures { IfOk result (λ text. string_bytes text
        ≡ command_help (text_of help.entry) (text_of about.entry)) }
{
    match paragraph_in(arena, help)? {
        Some(text) => Ok(text),
        None => help_text(arena, about),
    }
}
