//! Lines of pieces, with what guards their fronts and their ends.

ghost use Rattle.std.specs.Prelude.{◌≡◌, ◌++◌, ◌||◌, ◌==◌, [], ◌∷◌, List, drop, false, true, OnOk, string_bytes};
ghost use Rattle.page_model.specs.Content.{Line};
ghost use Rattle.page_model.specs.View.{line_of, piece_of};
ghost use Rattle.markdown_page.specs.Exact.{after_literal, escaped, framed, guarded, is_block_mark, kept_blank};
ghost use Rattle.markdown_page.specs.Exact.{line_text, link_text, mark_if, page_link, pieces_text, span_left};
ghost use Rattle.markdown_page.specs.Exact.{span_text};
ghost use Rattle.markdown_page.specs.Exact.{wants_mark, with_end, written};
ghost use Rattle.markdown_page.specs.Reader.{begins_in_blank, ends_in_blank};
ghost use Rattle.markdown_page.specs.Steps.{digits_of, front_mark};

use crate::escape::{is_digit, push_escaped};
use crate::link::{push_link, push_page};
use crate::replace::Place;
use crate::span::push_span;
use page_model::Inline;
use page_model::replaced::push_replaced;
use std::alloc::{AllocError, Allocator};

/// A line that is put together: what is written of it, the text of the span after that, and room to note how long the
/// runs of backquotes in that text are.
#[derive(Drop)]
pub struct LineText<A: Allocator> {
    pub text: String<A>,
    pub span: String<A>,
    pub runs: Vec<bool, A>,
}

/// Writes the span after what is there.
pub fn push_open_span<A: Allocator>(line: &mut LineText<A>) -> Result<(), AllocError>
    ensures written { OnOk result (string_bytes line.new.text
        ≡ string_bytes line.old.text ++ span_text (string_bytes line.old.span)) }
    ensures left { OnOk result (string_bytes line.new.span ≡ []) }
{
    push_span(&mut line.text, line.span.as_str(), &mut line.runs)?;
    line.span.clear();
    Ok(())
}

fn push_words<A: Allocator>(line: &mut LineText<A>, text: &str) -> Result<(), AllocError>
    ensures written { OnOk result (string_bytes line.new.text ≡ string_bytes line.old.text
        ++ after_literal (string_bytes line.old.span) text.now (escaped false false text.now)) }
    ensures left { OnOk result (string_bytes line.new.span ≡ span_left (string_bytes line.old.span) text.now) }
{
    if text.is_empty() {
        return Ok(());
    }
    push_open_span(line)?;
    push_escaped(&mut line.text, text, false)
}

fn push_address<A: Allocator>(line: &mut LineText<A>, text: &str) -> Result<(), AllocError>
    ensures written { OnOk result (string_bytes line.new.text ≡ string_bytes line.old.text
        ++ after_literal (string_bytes line.old.span) text.now (link_text text.now)) }
    ensures left { OnOk result (string_bytes line.new.span ≡ span_left (string_bytes line.old.span) text.now) }
{
    if text.is_empty() {
        return Ok(());
    }
    push_open_span(line)?;
    push_link(&mut line.text, text)
}

fn push_name<A: Allocator>(line: &mut LineText<A>, name: &str) -> Result<(), AllocError>
    ensures written { OnOk result (string_bytes line.new.text ≡ string_bytes line.old.text
        ++ after_literal (string_bytes line.old.span) name.now
        (page_link name.now)) }
    ensures left { OnOk result (string_bytes line.new.span ≡ span_left (string_bytes line.old.span) name.now) }
{
    if name.is_empty() {
        return Ok(());
    }
    push_open_span(line)?;
    push_page(&mut line.text, name)
}

// Whatever pieces follow it.
fn push_piece<A: Allocator>(line: &mut LineText<A>, piece: Inline<'_>) -> Result<(), AllocError>
    ensures { OnOk result ((rest : Line)
        → string_bytes line.new.text ++ pieces_text (string_bytes line.new.span) rest
        ≡ string_bytes line.old.text ++ pieces_text (string_bytes line.old.span) (piece_of piece.entry ∷ rest)) }
{
    match piece {
        Inline::Words(text) | Inline::Value(text) => push_words(line, text),
        Inline::Literal(text) => push_replaced(&mut line.span, text, Place::Span),
        Inline::Link(text) => push_address(line, text),
        Inline::Page(name) => push_name(line, name),
    }
}

/// Writes pieces after what is there, where no span is open.
pub fn push_pieces<A: Allocator>(
    line: &mut LineText<A>,
    pieces: &[Inline<'_>],
) -> Result<(), AllocError>
    requires { string_bytes line.old.span ≡ [] }
    ensures written { OnOk result (string_bytes line.new.text
        ≡ string_bytes line.old.text ++ written (line_of pieces.now)) }
{
    for piece in pieces {
        push_piece(line, *piece)?;
    }
    push_open_span(line)
}

#[tactic(auto, using(crate::proofs::Fronted::ends_read))]
fn ends_in_blank(line: &[u8]) -> bool
    ensures { result ≡ ends_in_blank line.now }
{
    if line.is_empty() {
        return false;
    }
    line[line.len() - 1] == b' '
}

// Writes a line with the blank at its end.
#[tactic(auto, using(crate::proofs::Fronted::end_none, crate::proofs::Fronted::end_boundary))]
fn push_with_end<A: Allocator>(out: &mut String<A>, line: &str) -> Result<(), AllocError>
    ensures { OnOk result (string_bytes out.new ≡ string_bytes out.old ++ with_end line.now) }
{
    if !ends_in_blank(line.as_bytes()) {
        return out.push_str(line);
    }
    out.push_str(&line[..line.len() - 1])?;
    out.push_str("&#32;")
}

// How many digits a line begins with.
fn leading_digits(line: &str) -> usize
    ensures { result ≡ digits_of line.now }
{
    let bytes = line.as_bytes();
    for at in 0..bytes.len() {
        if !is_digit(bytes[at]) {
            return at;
        }
    }
    bytes.len()
}

fn is_block_mark(byte: u8) -> bool
    ensures { result ≡ is_block_mark byte }
{
    matches!(byte, b'#' | b'+' | b'-' | b'=' | b'>' | b'~')
}

fn wants_mark(is_after_digit: bool, byte: u8) -> bool
    ensures { result ≡ wants_mark is_after_digit byte }
{
    if is_after_digit {
        matches!(byte, b'.' | b')')
    } else {
        is_block_mark(byte)
    }
}

fn mark_if(is_wanted: bool) -> &'static str
    ensures { result.now ≡ mark_if is_wanted }
{
    if is_wanted { "\\" } else { "" }
}

fn front_mark(is_after_digit: bool, line: &str) -> &'static str
    ensures { result.now ≡ front_mark is_after_digit line.now }
{
    match line.as_bytes() {
        [] => "",
        [byte, ..] => mark_if(wants_mark(is_after_digit, *byte)),
    }
}

// Writes a line so that it begins no block.
fn push_guarded<A: Allocator>(out: &mut String<A>, line: &str) -> Result<(), AllocError>
    ensures { OnOk result (string_bytes out.new ≡ string_bytes out.old ++ guarded false line.now) }
{
    let count = leading_digits(line);
    let rest = &line[count..];
    out.push_str(&line[..count])?;
    out.push_str(front_mark(count > 0, rest))?;
    push_with_end(out, rest)
}

fn begins_in_blank(line: &[u8]) -> bool
    ensures { result ≡ begins_in_blank line.now }
{
    matches!(line, [b' ', ..])
}

// Writes a line that begins with a blank.
fn push_after_blank<A: Allocator>(out: &mut String<A>, line: &str) -> Result<(), AllocError>
    requires { begins_in_blank line.now ≡ true }
    ensures { OnOk result (string_bytes out.new
        ≡ string_bytes out.old ++ (kept_blank ++ with_end (drop 1 line.now))) }
{
    out.push_str("&#32;")?;
    push_with_end(out, &line[1..])
}

/// Writes a line of a paragraph.
#[tactic(auto, using(crate::proofs::Fronted::of_lines))]
pub fn push_line<A: Allocator>(out: &mut String<A>, line: &str) -> Result<(), AllocError>
    ensures { OnOk result (string_bytes out.new ≡ string_bytes out.old ++ line_text line.now) }
{
    if line.is_empty() {
        return out.push_str("&#32;");
    }
    if begins_in_blank(line.as_bytes()) {
        push_after_blank(out, line)
    } else {
        push_guarded(out, line)
    }
}

/// Writes the line of a heading.
#[tactic(auto, using(crate::proofs::Fronted::of_headings))]
pub fn push_framed<A: Allocator>(out: &mut String<A>, line: &str) -> Result<(), AllocError>
    ensures { OnOk result (string_bytes out.new ≡ string_bytes out.old ++ framed line.now) }
{
    if line.is_empty() {
        return out.push_str("&#32;");
    }
    if begins_in_blank(line.as_bytes()) {
        push_after_blank(out, line)
    } else {
        push_with_end(out, line)
    }
}
