//! Lines of a help text as pieces of a text.
ghost use Rattle.std.specs.Prelude.{◌≡◌, ◌++◌, ◌<◌, ◌≤◌, OnOk, drop, length, map, min, true};
ghost use Rattle.std.specs.List.{prefix_len, slice_index};
ghost use Rattle.help_fronts.specs.Bytes.{is_blank};
ghost use Rattle.toml_pieces.specs.declared.toml.Lead.TheVariants as lead;
ghost use Rattle.toml_pieces.specs.View.{piece_said};
ghost use Rattle.drafts.specs.Texts as spec;
ghost use Rattle.drafts.specs.View.{passage_said};

use crate::options::is_blank;
use crate::passages::Passage;
use help_blocks::Kind;
use std::alloc::{AllocError, Allocator};
use toml_pieces::{Lead, Piece};

/// A piece without letters, as between two paragraphs.
pub fn empty_piece() -> Piece<'static>
    ensures { piece_said result ≡ spec.empty_piece }
{
    Piece {
        lead: Lead::Line,
        text: "",
    }
}

fn is_code(kind: Kind) -> bool
    ensures { result ≡ spec.is_code kind }
{
    matches!(kind, Kind::Code)
}

// ---- code

// How many blanks a line begins with.
fn indent_len(line: &[u8]) -> usize
    ensures exact { result ≡ prefix_len is_blank line.now }
    ensures within { result ≤ length line.now }
{
    let mut len = 0;
    while len < line.len() && is_blank(line[len]) {
        len += 1;
    }
    len
}

fn narrower(indent: usize, line: &str) -> usize
    ensures { result ≡ spec.narrower indent line.now }
{
    if line.trim().is_empty() {
        indent
    } else {
        indent.min(indent_len(line.as_bytes()))
    }
}

// The indent that all lines have.
fn shared_indent(lines: &[&str]) -> usize
    ensures { result ≡ spec.shared_indent (map (λ line. line.now) lines.now) }
{
    let mut indent = 64;
    for line in lines {
        indent = narrower(indent, line);
    }
    indent
}

fn without_indent(indent: usize, line: &str) -> &str
    ensures { result.now ≡ drop (min indent (spec.indent_len line.now)) line.now }
{
    &line[indent.min(indent_len(line.as_bytes()))..]
}

fn code_piece(indent: usize, line: &str) -> Piece<'_>
    ensures { piece_said result ≡ spec.code_piece indent line.now }
{
    Piece {
        lead: Lead::Code,
        text: without_indent(indent, line).trim_end(),
    }
}

fn prose_piece(lead: Lead, line: &str) -> Piece<'_>
    ensures { piece_said result ≡ spec.prose_piece lead line.now }
{
    Piece {
        lead,
        text: line.trim(),
    }
}

fn push_code<'a, A: Allocator>(
    pieces: &mut Vec<Piece<'a>, A>,
    indent: usize,
    lines: &[&'a str],
) -> Result<(), AllocError>
    ensures { OnOk result (map piece_said pieces.new.items
        ≡ map piece_said pieces.old.items ++ map (spec.code_piece indent) (map (λ line. line.now) lines.now)) }
{
    for line in lines {
        pieces.push(code_piece(indent, line))?;
    }
    Ok(())
}

// ---- prose

// How many bytes stand before the first blank.
fn word_len(text: &[u8]) -> usize
    ensures exact { result ≡ prefix_len spec.is_no_blank text.now }
    ensures within { result ≤ length text.now }
    ensures blank { result < length text.now → is_blank (slice_index text.now result) ≡ true }
{
    for (index, byte) in text.iter().enumerate() {
        if is_blank(*byte) {
            return index;
        }
    }
    text.len()
}

/// What stands before the first blank.
pub fn first_word(text: &str) -> &str
    ensures { result.now ≡ spec.first_word text.now }
{
    &text[..word_len(text.as_bytes())]
}

// The bytes of the longest line, and 70 at least.
fn width_of(lines: &[&str]) -> usize
    ensures { result ≡ spec.width_of (map (λ line. line.now) lines.now) }
{
    let mut width = 70;
    for line in lines {
        width = width.max(line.trim().len());
    }
    width
}

// Whether the break between two lines is meant.
fn is_broken(width: usize, above: &str, line: &str) -> bool
    ensures { result ≡ spec.is_broken width above.now line.now }
{
    first_word(line.trim()).len() < width.saturating_sub(above.trim().len())
}

fn prose_lead(width: usize, above: &str, line: &str) -> Lead
    ensures { result ≡ spec.prose_lead width above.now line.now }
{
    if is_broken(width, above, line) {
        Lead::Broken
    } else {
        Lead::Line
    }
}

fn push_prose_below<'a, A: Allocator>(
    pieces: &mut Vec<Piece<'a>, A>,
    width: usize,
    first: &'a str,
    below: &[&'a str],
) -> Result<(), AllocError>
    ensures { OnOk result (map piece_said pieces.new.items
        ≡ map piece_said pieces.old.items ++ spec.prose_below width first.now (map (λ line. line.now) below.now)) }
{
    let mut above = first;
    for line in below {
        pieces.push(prose_piece(prose_lead(width, above, line), line))?;
        above = line;
    }
    Ok(())
}

fn push_prose<'a, A: Allocator>(
    pieces: &mut Vec<Piece<'a>, A>,
    lines: &[&'a str],
) -> Result<(), AllocError>
    ensures { OnOk result (map piece_said pieces.new.items
        ≡ map piece_said pieces.old.items ++ spec.prose_pieces (map (λ line. line.now) lines.now)) }
{
    match lines {
        [] => Ok(()),
        [first, below @ ..] => {
            pieces.push(prose_piece(Lead::Line, first))?;
            push_prose_below(pieces, width_of(lines), first, below)
        }
    }
}

// ---- texts

/// Puts the lines of a passage after pieces.
pub fn push_passage<'a, A: Allocator>(
    pieces: &mut Vec<Piece<'a>, A>,
    passage: Passage<'a>,
) -> Result<(), AllocError>
    ensures { OnOk result (map piece_said pieces.new.items
        ≡ map piece_said pieces.old.items ++ spec.passage_pieces (passage_said passage.entry)) }
{
    if is_code(passage.kind) {
        push_code(pieces, shared_indent(passage.lines), passage.lines)
    } else {
        push_prose(pieces, passage.lines)
    }
}

/// Puts lines of a help after pieces.
pub fn push_lines<'a, A: Allocator>(
    pieces: &mut Vec<Piece<'a>, A>,
    lines: &[&'a str],
) -> Result<(), AllocError>
    ensures { OnOk result (map piece_said pieces.new.items
        ≡ map piece_said pieces.old.items ++ map (spec.prose_piece lead.Line) (map (λ line. line.now) lines.now)) }
{
    for line in lines {
        pieces.push(prose_piece(Lead::Line, line))?;
    }
    Ok(())
}
