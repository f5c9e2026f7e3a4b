//! What stands within lines that are shown as one.

ghost use Rattle.std.specs.Prelude.{◌≡◌, ◌++◌, ◌∷◌, map, IfOk, OnOk};
ghost use Rattle.page_model.specs.View.{line_of};
ghost use Rattle.description_texts.specs.TextsInside.{line_pieces, links, quoted, shown_line, with_pieces};
ghost use Rattle.description_texts.specs.TextsView.{draft_of};

use crate::texts::links::first_link;
use crate::texts::literals::{Pair, first_pair, literal_of};
use crate::texts::pieces::{Pieces, finished, no_pieces, push_apart, push_words};
use crate::texts::spacing::{are_all_white, says_itself, spaced};
use bumpalo::Bump;
use page_model::{Inline, Line};
use std::alloc::AllocError;

// Puts words and links.
fn push_links<'a>(
    arena: &'a Bump,
    pieces: &mut Pieces<'a, &'a Bump>,
    text: &'a str,
) -> Result<(), AllocError>
    ensures { OnOk result (draft_of pieces.new ≡ with_pieces (draft_of pieces.old) (links text.now)) }
{
    let mut rest = text;
    while let Some(link) = first_link(rest) {
        push_words(pieces, link.before)?;
        push_apart(arena, pieces, Inline::Link(link.address))?;
        rest = link.after;
    }
    push_words(pieces, rest)
}

// Puts what stands between two backquotes.
fn push_quoted<'a>(
    arena: &'a Bump,
    pieces: &mut Pieces<'a, &'a Bump>,
    pair: Pair<'a>,
) -> Result<(), AllocError>
    ensures { OnOk result (draft_of pieces.new ≡ with_pieces (draft_of pieces.old)
        (quoted pair.entry.before.now pair.entry.inner.now pair.entry.after.now)) }
{
    if are_all_white(pair.inner.as_bytes()) {
        push_words(pieces, "`")?;
        push_words(pieces, pair.inner)?;
        push_words(pieces, "`")
    } else {
        push_apart(arena, pieces, Inline::Literal(literal_of(pair)))
    }
}

// Puts the pieces of a line, whatever stands in it.
fn push_marked<'a>(
    arena: &'a Bump,
    pieces: &mut Pieces<'a, &'a Bump>,
    line: &'a str,
) -> Result<(), AllocError>
    ensures { OnOk result (draft_of pieces.new ≡ with_pieces (draft_of pieces.old) (line_pieces line.now)) }
{
    let mut rest = spaced(arena, line)?;
    while let Some(pair) = first_pair(rest) {
        push_links(arena, pieces, pair.before)?;
        push_quoted(arena, pieces, pair)?;
        rest = pair.after;
    }
    push_links(arena, pieces, rest)
}

// Puts the pieces of a line. Most lines are words alone, and then these are the line as it stands.
fn push_line<'a>(
    arena: &'a Bump,
    pieces: &mut Pieces<'a, &'a Bump>,
    line: &'a str,
) -> Result<(), AllocError>
    ensures { OnOk result (draft_of pieces.new ≡ with_pieces (draft_of pieces.old) (line_pieces line.now)) }
{
    if says_itself(line.as_bytes()) {
        push_words(pieces, line)
    } else {
        push_marked(arena, pieces, line)
    }
}

/// The pieces of lines that are shown as one, with a blank between two. Words that are neighbours are one piece.
pub fn shown_line<'a>(
    arena: &'a Bump,
    first: &'a str,
    more: &[&'a str],
) -> Result<Line<'a, &'a Bump>, AllocError>
    ensures { IfOk result (λ line. line_of line.items ≡ shown_line first.now (map (λ more. more.now) more.now)) }
{
    let mut pieces = no_pieces(arena);
    push_line(arena, &mut pieces, first)?;
    for line in more {
        push_words(&mut pieces, " ")?;
        push_line(arena, &mut pieces, line)?;
    }
    finished(arena, pieces)
}
