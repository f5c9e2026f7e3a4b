//! Lines of a manual page.

ghost use Rattle.std.specs.Prelude.{◌≡◌, ◌<◌, ◌++◌, ◌==◌, [], false, codes, if◌then◌else◌, flat_map, OnOk};
ghost use Rattle.std.specs.Prelude.{string_bytes};
ghost use Rattle.std.specs.List.{list_any};
ghost use Rattle.page_model.specs.Content.{page};
ghost use Rattle.page_model.specs.View.{line_of, piece_of};
ghost use Rattle.man_page.specs.Exact.{begins_after, begins_word, code_front, code_line, ends_sentence, escaped};
ghost use Rattle.man_page.specs.Exact.{input_line, is_blank, is_closing, is_glyph_first, is_letter, is_stop};
ghost use Rattle.man_page.specs.Exact.{item_back, line_back, line_front, piece_bytes, piece_text, pieces_from};
ghost use Rattle.man_page.specs.Exact.{pieces_text, unhyphenated};
ghost use Rattle.man_page.specs.Reader.{last_of};

use crate::escape::Role;
use page_model::Inline;
use page_model::replaced::push_replaced;
use std::alloc::{AllocError, Allocator};

/// How the pieces of a line are written: where they stand, whether a literal with a letter in it is kept from being
/// hyphenated at the front of a word, and the section of the page.
#[derive(Clone, Copy)]
pub struct Manner<'a> {
    pub role: Role,
    pub is_guarded: bool,
    pub section: &'a str,
}

fn is_letter(byte: u8) -> bool
    ensures { result ≡ is_letter byte }
{
    matches!(byte, b'A'..=b'Z' | b'a'..=b'z' | 128..=255)
}

fn has_letter(text: &str) -> bool
    ensures { result ≡ list_any is_letter text.now }
{
    text.as_bytes().iter().any(|byte| is_letter(*byte))
}

fn unhyphenated(text: &str, is_guarded: bool) -> &'static str
    ensures { result.now ≡ unhyphenated is_guarded text.now }
{
    if is_guarded && has_letter(text) {
        "\\%"
    } else {
        ""
    }
}

fn push_styled<A: Allocator>(
    line: &mut String<A>,
    font: &str,
    guard: &str,
    text: &str,
    role: Role,
) -> Result<(), AllocError>
    ensures { OnOk result (string_bytes line.new
        ≡ string_bytes line.old ++ (font.now ++ (guard.now ++ (escaped role text.now ++ codes "\\fP")))) }
{
    line.push_str(font)?;
    line.push_str(guard)?;
    push_replaced(line, text, role)?;
    line.push_str("\\fP")
}

fn push_page<A: Allocator>(
    line: &mut String<A>,
    name: &str,
    manner: Manner<'_>,
) -> Result<(), AllocError>
    ensures { OnOk result (string_bytes line.new
        ≡ string_bytes line.old
        ++ piece_text manner.entry.role manner.entry.is_guarded manner.entry.section.now (page name.now)) }
{
    line.push_str("\\fB")?;
    line.push_str(unhyphenated(name, manner.is_guarded))?;
    push_replaced(line, name, manner.role)?;
    line.push_str("\\fP(")?;
    push_replaced(line, manner.section, manner.role)?;
    line.push_str(")")
}

fn push_piece<A: Allocator>(
    line: &mut String<A>,
    piece: Inline<'_>,
    manner: Manner<'_>,
) -> Result<(), AllocError>
    ensures { OnOk result (string_bytes line.new
        ≡ string_bytes line.old
        ++ piece_text manner.entry.role manner.entry.is_guarded manner.entry.section.now (piece_of piece.entry)) }
{
    match piece {
        Inline::Words(text) | Inline::Link(text) => push_replaced(line, text, manner.role),
        Inline::Literal(text) => {
            let guard = unhyphenated(text, manner.is_guarded);
            push_styled(line, "\\fB", guard, text, manner.role)
        }
        Inline::Value(text) => push_styled(line, "\\fI", "", text, manner.role),
        Inline::Page(name) => push_page(line, name, manner),
    }
}

/// Whether a byte is shown as a blank.
pub fn is_blank(byte: u8) -> bool
    ensures { result ≡ is_blank byte }
{
    matches!(byte, b' ' | b'\t' | b'\n')
}

// Whether what follows a text is at the front of a word.
#[tactic(auto, using(crate::proofs::Ends::word_begins, crate::proofs::Ends::no_word_begins))]
fn begins_word(text: &str, is_at_front: bool) -> bool
    ensures { result ≡ begins_word is_at_front text.now }
{
    let bytes = text.as_bytes();
    if bytes.is_empty() {
        return is_at_front;
    }
    is_blank(bytes[bytes.len() - 1])
}

fn begins_after(piece: Inline<'_>, is_at_front: bool) -> bool
    ensures { result ≡ begins_after is_at_front (piece_of piece.entry) }
{
    match piece {
        Inline::Words(text) | Inline::Literal(text) | Inline::Value(text) | Inline::Link(text) => {
            begins_word(text, is_at_front)
        }
        Inline::Page(_) => false,
    }
}

/// Appends the pieces of a line to what it has, at the front of a word.
#[tactic(auto, using(crate::proofs::Parts::pieces_next))]
pub fn push_pieces<A: Allocator>(
    line: &mut String<A>,
    pieces: &[Inline<'_>],
    manner: Manner<'_>,
) -> Result<(), AllocError>
    ensures { OnOk result (string_bytes line.new
        ≡ string_bytes line.old
        ++ pieces_text manner.entry.role manner.entry.is_guarded manner.entry.section.now (line_of pieces.now)) }
{
    let mut is_at_front = true;
    for piece in pieces {
        let is_guarded = manner.is_guarded && is_at_front;
        push_piece(
            line,
            *piece,
            Manner {
                is_guarded,
                ..manner
            },
        )?;
        is_at_front = begins_after(*piece, is_at_front);
    }
    Ok(())
}

fn is_glyph_first(line: &str) -> bool
    ensures { result ≡ is_glyph_first line.now }
{
    matches!(line.as_bytes(), [b'\\', b'(', ..])
}

fn glyph_front(line: &str) -> &'static str
    ensures { result.now ≡ (if is_glyph_first line.now then codes "\\&" else []) }
{
    if is_glyph_first(line) { "\\&" } else { "" }
}

// What stands before a line, so that it is read as text.
fn line_front(line: &str) -> &'static str
    ensures { result.now ≡ line_front line.now }
{
    match line.as_bytes() {
        [] | [b'.' | b' ', ..] => "\\&",
        _ => glyph_front(line),
    }
}

fn code_front(line: &str) -> &'static str
    ensures { result.now ≡ code_front line.now }
{
    match line.as_bytes() {
        [b'.', ..] => "\\&",
        _ => glyph_front(line),
    }
}

#[tactic(auto, using(crate::proofs::Ends::last_read, crate::proofs::Ends::no_last))]
fn ends_with(line: &str, byte: u8) -> bool
    requires { 0 < byte }
    ensures { result ≡ (last_of 0 line.now == byte) }
{
    let bytes = line.as_bytes();
    if bytes.is_empty() {
        return false;
    }
    bytes[bytes.len() - 1] == byte
}

fn line_back(line: &str) -> &'static str
    ensures { result.now ≡ line_back line.now }
{
    if ends_with(line, b' ') { "\\&" } else { "" }
}

fn is_stop(byte: u8) -> bool
    ensures { result ≡ is_stop byte }
{
    matches!(byte, b'.' | b'?' | b'!')
}

fn is_closing(byte: u8) -> bool
    ensures { result ≡ is_closing byte }
{
    matches!(byte, b')' | b']' | b'"' | b'\'' | b'*' | 128..=255) || is_blank(byte)
}

// Whether a sentence ends with a text, where one ended with the text before or not.
#[tactic(auto, using(crate::proofs::Ends::sentence_next))]
fn ends_sentence(text: &str, has_ended: bool) -> bool
    ensures { result ≡ ends_sentence has_ended text.now }
{
    let bytes = text.as_bytes();
    let mut is_end = has_ended;
    for byte in bytes {
        is_end = is_stop(*byte) || (is_end && is_closing(*byte));
    }
    is_end
}

#[tactic(auto, using(crate::proofs::Ends::page_ends_sentence))]
fn piece_ends_sentence(piece: Inline<'_>, section: &str, has_ended: bool) -> bool
    ensures { result ≡ ends_sentence has_ended (piece_bytes section.now (piece_of piece.entry)) }
{
    match piece {
        Inline::Words(text) | Inline::Literal(text) | Inline::Value(text) | Inline::Link(text) => {
            ends_sentence(text, has_ended)
        }
        Inline::Page(_) => ends_sentence(section, false),
    }
}

fn pieces_end_sentence(pieces: &[Inline<'_>], section: &str) -> bool
    ensures { result ≡ ends_sentence false (flat_map (piece_bytes section.now) (line_of pieces.now)) }
{
    let mut is_end = false;
    for piece in pieces {
        is_end = piece_ends_sentence(*piece, section, is_end);
    }
    is_end
}

/// What follows an item of a usage, so that no sentence ends with it.
pub fn item_back(pieces: &[Inline<'_>], section: &str) -> &'static str
    ensures { result.now ≡ item_back section.now (line_of pieces.now) }
{
    if pieces_end_sentence(pieces, section) {
        "\\&"
    } else {
        ""
    }
}

fn push_parts<A: Allocator>(
    out: &mut String<A>,
    front: &str,
    line: &str,
    back: &str,
) -> Result<(), AllocError>
    ensures { OnOk result (string_bytes out.new
        ≡ string_bytes out.old ++ (front.now ++ (line.now ++ (back.now ++ codes "\n")))) }
{
    out.push_str(front)?;
    out.push_str(line)?;
    out.push_str(back)?;
    out.push_str("\n")
}

/// Writes a line of text.
pub fn push_input<A: Allocator>(out: &mut String<A>, line: &str) -> Result<(), AllocError>
    ensures { OnOk result (string_bytes out.new ≡ string_bytes out.old ++ input_line line.now) }
{
    push_parts(out, line_front(line), line, line_back(line))
}

/// Writes a line with an item of a usage, and with what follows it.
pub fn push_item<A: Allocator>(
    out: &mut String<A>,
    line: &str,
    back: &str,
) -> Result<(), AllocError>
    ensures { OnOk result (string_bytes out.new
        ≡ string_bytes out.old ++ (line_front line.now ++ (line.now ++ (back.now ++ codes "\n")))) }
{
    push_parts(out, line_front(line), line, back)
}

/// Writes a line of code, of what stands for its text.
pub fn push_code<A: Allocator>(out: &mut String<A>, line: &str) -> Result<(), AllocError>
    ensures { OnOk result (string_bytes out.new
        ≡ string_bytes out.old ++ (code_front line.now ++ (line.now ++ (line_back line.now ++ codes "\n")))) }
{
    push_parts(out, code_front(line), line, line_back(line))
}
