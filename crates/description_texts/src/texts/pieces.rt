//! The pieces of a line, gathered one by one. Words that are neighbours become one piece.

ghost use Rattle.std.specs.Prelude.{◌≡◌, ◌++◌, ◌∷◌, [], flat_map, string_bytes, IfOk, OnOk};
ghost use Rattle.page_model.specs.View.{line_of, piece_of};
ghost use Rattle.description_texts.specs.TextsInside.{gathered, nothing, some_words, whole, with_apart, with_piece};
ghost use Rattle.description_texts.specs.TextsInside.{with_words};
ghost use Rattle.description_texts.specs.TextsView.{draft_of};

use bumpalo::Bump;
use page_model::{Inline, Line};
use std::alloc::{AllocError, Allocator};

/// Pieces, and the words after them, which may go on.
#[derive(Drop)]
pub struct Pieces<'a, A: Allocator> {
    pub pieces: Line<'a, A>,
    pub words: Vec<&'a str, A>,
}

/// No pieces yet.
pub fn no_pieces<'a, A: Allocator + Copy>(alloc: A) -> Pieces<'a, A>
    ensures { draft_of result ≡ nothing }
{
    Pieces {
        pieces: Vec::new(alloc),
        words: Vec::new(alloc),
    }
}

fn push_joined<A: Allocator>(text: &mut String<A>, parts: &[&str]) -> Result<(), AllocError>
    ensures { OnOk result (string_bytes text.new ≡ string_bytes text.old ++ flat_map (λ part. part.now) parts.now) }
{
    for part in parts {
        text.push_str(part)?;
    }
    Ok(())
}

// The texts, one after another. A text alone is borrowed.
fn joined<'a>(arena: &'a Bump, parts: &[&'a str]) -> Result<&'a str, AllocError>
    ensures { IfOk result (λ text. text.now ≡ flat_map (λ part. part.now) parts.now) }
{
    match parts {
        [] => Ok(""),
        [part] => Ok(part),
        _ => {
            let mut text = String::new(arena);
            push_joined(&mut text, parts)?;
            arena.try_alloc_str(text.as_str())
        }
    }
}

/// Appends words to the pieces.
pub fn push_words<'a, A: Allocator>(
    pieces: &mut Pieces<'a, A>,
    text: &'a str,
) -> Result<(), AllocError>
    ensures { OnOk result (draft_of pieces.new ≡ with_words (draft_of pieces.old) text.now) }
{
    if text.is_empty() {
        return Ok(());
    }
    pieces.words.push(text)?;
    Ok(())
}

/// Appends words to a line, unless there are none. An error comes only where an allocation failed.
pub fn push_some<'a, A: Allocator>(line: &mut Line<'a, A>, text: &'a str) -> Result<(), AllocError>
    ensures { OnOk result (line_of line.new.items ≡ line_of line.old.items ++ some_words text.now) }
{
    if text.is_empty() {
        return Ok(());
    }
    line.push(Inline::Words(text))?;
    Ok(())
}

// Makes a piece of the words.
fn close<'a>(arena: &'a Bump, pieces: &mut Pieces<'a, &'a Bump>) -> Result<(), AllocError>
    ensures pieces { OnOk result (line_of pieces.new.pieces.items ≡ whole (draft_of pieces.old)) }
    ensures words { OnOk result (pieces.new.words.items ≡ []) }
{
    let text = joined(arena, pieces.words.as_slice())?;
    push_some(&mut pieces.pieces, text)?;
    pieces.words.clear();
    Ok(())
}

/// Appends a piece that is not words.
pub fn push_apart<'a>(
    arena: &'a Bump,
    pieces: &mut Pieces<'a, &'a Bump>,
    piece: Inline<'a>,
) -> Result<(), AllocError>
    ensures { OnOk result (draft_of pieces.new ≡ with_apart (draft_of pieces.old) (piece_of piece.entry)) }
{
    close(arena, pieces)?;
    pieces.pieces.push(piece)?;
    Ok(())
}

/// The line of the pieces.
pub fn finished<'a>(
    arena: &'a Bump,
    pieces: Pieces<'a, &'a Bump>,
) -> Result<Line<'a, &'a Bump>, AllocError>
    ensures { IfOk result (λ line. line_of line.items ≡ whole (draft_of pieces.entry)) }
{
    let mut pieces = pieces;
    close(arena, &mut pieces)?;
    Ok(pieces.pieces)
}

// Appends a piece.
fn push_piece<'a>(
    arena: &'a Bump,
    pieces: &mut Pieces<'a, &'a Bump>,
    piece: Inline<'a>,
) -> Result<(), AllocError>
    ensures { OnOk result (draft_of pieces.new ≡ with_piece (draft_of pieces.old) (piece_of piece.entry)) }
{
    match piece {
        Inline::Words(text) => push_words(pieces, text),
        other => push_apart(arena, pieces, other),
    }
}

/// A line in which words that are neighbours are one piece. An error comes only where an allocation failed.
pub fn gathered<'a>(arena: &'a Bump, line: &[Inline<'a>]) -> Result<Line<'a, &'a Bump>, AllocError>
    ensures { IfOk result (λ whole. line_of whole.items ≡ gathered (line_of line.now)) }
{
    let mut pieces = no_pieces(arena);
    for piece in line {
        push_piece(arena, &mut pieces, *piece)?;
    }
    finished(arena, pieces)
}
