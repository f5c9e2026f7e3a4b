//! The summary of a level: a paragraph on one line, without the full stop at its end.
ghost use Rattle.std.specs.Prelude.{◌≡◌, ◌++◌, ◌∷◌, [], map, IfOk, MatchOption, None, OnOk, Some};
ghost use Rattle.page_model.specs.View.{block_of, line_of, piece_of};
ghost use Rattle.description_pages.specs.Summaries.{is_summary, one_line, same_line, same_piece, summary};
ghost use Rattle.description_pages.specs.Summaries.{without_full_stop, without_stop};
ghost use Rattle.description_texts.specs.Texts.{first_paragraph};

use crate::sections::without_last;
use bumpalo::Bump;
use description_texts::{first_paragraph, gathered, push_some};
use description_usage::joined;
use page_model::{Block, Inline, Line};
use std::alloc::{AllocError, Allocator};

// A run of stops stays: `and so on...`.
fn without_full_stop(text: &str) -> &str
    ensures { result.now ≡ without_full_stop text.now }
{
    if text.as_bytes().ends_with(b"..") {
        text
    } else {
        without_last(without_last(text, '.'), ' ')
    }
}

// Appends the last piece of a line.
fn push_last<'a, A: Allocator>(line: &mut Line<'a, A>, last: Inline<'a>) -> Result<(), AllocError>
    ensures { OnOk result (line_of line.new.items
        ≡ line_of line.old.items ++ without_stop (piece_of last.entry ∷ [])) }
{
    match last {
        Inline::Words(text) => push_some(line, without_full_stop(text)),
        other => {
            line.push(other)?;
            Ok(())
        }
    }
}

fn one_line<'a>(
    arena: &'a Bump,
    lines: &[Line<'a, &'a Bump>],
) -> Result<Line<'a, &'a Bump>, AllocError>
    ensures { IfOk result (λ line. line_of line.items ≡ one_line (map (λ line. line_of line.items) lines.now)) }
{
    let whole = joined(arena, " ", lines)?;
    let mut line = gathered(arena, whole.as_slice())?;
    if let Some(last) = line.pop() {
        push_last(&mut line, last)?;
    }
    Ok(line)
}

// The first paragraph of two texts.
fn first_of<'b, 'a, A: Allocator>(
    help: &'b [Block<'a, A>],
    about: &'b [Block<'a, A>],
) -> Option<&'b Vec<Line<'a, A>, A>>
    ensures { MatchOption result
        (first_paragraph (map block_of help.now ++ map block_of about.now) ≡ None)
        (λ lines. first_paragraph (map block_of help.now ++ map block_of about.now)
        ≡ Some (map (λ line. line_of line.items) lines.now.items)) }
{
    match first_paragraph(help) {
        Some(lines) => Some(lines),
        None => first_paragraph(about),
    }
}

/// The summary of the help, where it has one, otherwise of what is said about the level; empty where neither has one.
pub fn summary<'a>(
    arena: &'a Bump,
    help: &[Block<'a, &'a Bump>],
    about: &[Block<'a, &'a Bump>],
) -> Result<Line<'a, &'a Bump>, AllocError>
    ensures { IfOk result (λ line. line_of line.items ≡ summary (map block_of help.now) (map block_of about.now)) }
{
    match first_of(help, about) {
        Some(lines) => one_line(arena, lines.as_slice()),
        None => Ok(Vec::new(arena)),
    }
}

fn same_piece(piece: &Inline<'_>, other: &Inline<'_>) -> bool
    ensures { result ≡ same_piece (piece_of piece.now) (piece_of other.now) }
{
    match (piece, other) {
        (Inline::Words(text), Inline::Words(other))
        | (Inline::Literal(text), Inline::Literal(other))
        | (Inline::Value(text), Inline::Value(other))
        | (Inline::Link(text), Inline::Link(other))
        | (Inline::Page(text), Inline::Page(other)) => text == other,
        _ => false,
    }
}

fn same_line(line: &[Inline<'_>], other: &[Inline<'_>]) -> bool
    ensures { result ≡ same_line (line_of line.now) (line_of other.now) }
{
    if line.len() != other.len() {
        return false;
    }
    for at in 0..line.len() {
        if !same_piece(&line[at], &other[at]) {
            return false;
        }
    }
    true
}

/// Whether blocks are one paragraph, which says the same as a summary.
pub fn is_summary<'a>(
    arena: &'a Bump,
    summary: &[Inline<'a>],
    blocks: &[Block<'a, &'a Bump>],
) -> Result<bool, AllocError>
    ensures { IfOk result (λ is. is ≡ is_summary (line_of summary.now) (map block_of blocks.now)) }
{
    let [only] = blocks else {
        return Ok(false);
    };
    match only {
        Block::Paragraph(lines) => {
            let line = one_line(arena, lines.as_slice())?;
            Ok(same_line(summary, line.as_slice()))
        }
        Block::Code(_) | Block::List(_) => Ok(false),
    }
}
