//! Pieces of HTML text, written all or not at all.

ghost use Rattle.std.specs.Prelude.{◌≡◌, ◌<◌, ◌++◌, [], ◌∷◌, MatchOption, OnErr, OnOk, string_bytes};
ghost use Rattle.web_page.specs.Exact.{end_text, escaped, escaped_byte, start_text, tag_end};
ghost use Rattle.std.specs.List.{list_all};
ghost use Rattle.web_page.specs.Steps.Bytes.{is_no_sign};
ghost use Rattle.web_page.specs.Steps.Open.{attributes_of};
ghost use Rattle.web_page.specs.Steps.Pieces.{Extends, piece_text, pieces_text};

use crate::elements::{Element, Tag};
use std::alloc::{AllocError, Allocator};

/// A piece of HTML text: as it is, a text that is shown, or the value of an attribute.
#[derive(Clone, Copy)]
pub enum Piece<'a> {
    Plain(&'a str),
    Text(&'a str),
    Value(&'a str),
}

// What is written for a byte that may not stand for itself. Such a byte is ASCII, so it is a whole character.
fn escape_of(byte: u8, in_value: bool) -> Option<&'static str>
    ensures { MatchOption result (escaped_byte in_value byte ≡ byte ∷ [])
        (λ text. (byte < 128) × (escaped_byte in_value byte ≡ text.now)) }
{
    match byte {
        b'&' => Some("&amp;"),
        b'<' => Some("&lt;"),
        b'>' => Some("&gt;"),
        b'"' if in_value => Some("&quot;"),
        _ => None,
    }
}

// What lies between two character references is written at once.
fn push_escaped<A: Allocator>(
    out: &mut String<A>,
    text: &str,
    in_value: bool,
) -> Result<(), AllocError>
    ensures ok { OnOk result (string_bytes out.new ≡ string_bytes out.old ++ escaped in_value text.now) }
    ensures kept { Extends (string_bytes out.old) (string_bytes out.new) }
{
    let bytes = text.as_bytes();
    let mut start = 0;
    for at in 0..bytes.len() {
        if let Some(name) = escape_of(bytes[at], in_value) {
            out.push_str(&text[start..at])?;
            out.push_str(name)?;
            start = at + 1;
        }
    }
    out.push_str(&text[start..])
}

// With the operator `&` in place of `&&`, and so without branches: many bytes are compared at once.
fn is_no_sign(byte: u8) -> bool
    ensures { result ≡ is_no_sign byte }
{
    (byte != b'&') & (byte != b'<') & (byte != b'>') & (byte != b'"')
}

// Whether each byte stands for itself, whatever it is in. It looks at each, whatever came before, so that many are
// compared at once.
fn stand_alone(bytes: &[u8]) -> bool
    ensures { result ≡ list_all is_no_sign bytes.now }
{
    let mut stand = true;
    for byte in bytes {
        stand &= is_no_sign(*byte);
    }
    stand
}

#[tactic(auto, using(crate::proofs::Escapes::alone))]
fn push_shown<A: Allocator>(
    out: &mut String<A>,
    text: &str,
    in_value: bool,
) -> Result<(), AllocError>
    ensures ok { OnOk result (string_bytes out.new ≡ string_bytes out.old ++ escaped in_value text.now) }
    ensures kept { Extends (string_bytes out.old) (string_bytes out.new) }
{
    // Most texts have no sign.
    if stand_alone(text.as_bytes()) {
        return out.push_str(text);
    }
    push_escaped(out, text, in_value)
}

#[inline(always)]
fn push_piece<A: Allocator>(out: &mut String<A>, piece: Piece<'_>) -> Result<(), AllocError>
    ensures ok { OnOk result (string_bytes out.new ≡ string_bytes out.old ++ piece_text piece.entry) }
    ensures kept { Extends (string_bytes out.old) (string_bytes out.new) }
{
    match piece {
        Piece::Plain(text) => out.push_str(text),
        Piece::Text(text) => push_shown(out, text, false),
        Piece::Value(text) => push_shown(out, text, true),
    }
}

/// Appends pieces to a text. An error comes where an allocation failed, and then the text is as before.
#[inline(always)]
pub fn write<A: Allocator>(out: &mut String<A>, pieces: &[Piece<'_>]) -> Result<(), AllocError>
    ensures ok { OnOk result (string_bytes out.new ≡ string_bytes out.old ++ pieces_text pieces.now) }
    ensures err { OnErr result (string_bytes out.new ≡ string_bytes out.old) }
{
    let len = out.len();
    for piece in pieces {
        if let Err(refused) = push_piece(out, *piece) {
            out.truncate(len);
            return Err(refused);
        }
    }
    Ok(())
}

/// The attribute of a start tag, if it has one.
#[derive(Clone, Copy)]
pub enum Key {
    Nothing,
    Id,
    Target,
    /// A target that is the element of an id.
    Place,
}

// The end of a start tag. A newline directly after that of a pre is not part of its text, so one is always written.
fn tag_end(tag: Tag) -> &'static str
    ensures { result.now ≡ tag_end tag }
{
    match tag {
        Tag::Of(Element::Pre) => ">\n",
        _ => ">",
    }
}

/// Writes a start tag. An error comes where an allocation failed, and then the text is as before.
pub fn write_start<A: Allocator>(
    out: &mut String<A>,
    tag: Tag,
    key: Key,
    value: &str,
) -> Result<(), AllocError>
    ensures ok { OnOk result (string_bytes out.new
        ≡ string_bytes out.old ++ start_text tag (attributes_of key value.now)) }
    ensures err { OnErr result (string_bytes out.new ≡ string_bytes out.old) }
{
    let opening = match key {
        Key::Nothing => return write(
            out,
            &[
                Piece::Plain("<"),
                Piece::Plain(tag.name()),
                Piece::Plain(tag_end(tag)),
            ],
        ),
        Key::Id => " id=\"",
        Key::Target => " href=\"",
        Key::Place => " href=\"#",
    };
    write(
        out,
        &[
            Piece::Plain("<"),
            Piece::Plain(tag.name()),
            Piece::Plain(opening),
            Piece::Value(value),
            Piece::Plain("\""),
            Piece::Plain(tag_end(tag)),
        ],
    )
}

/// Writes an end tag. An error comes where an allocation failed, and then the text is as before.
pub fn write_end<A: Allocator>(out: &mut String<A>, tag: Tag) -> Result<(), AllocError>
    ensures ok { OnOk result (string_bytes out.new ≡ string_bytes out.old ++ end_text tag) }
    ensures err { OnErr result (string_bytes out.new ≡ string_bytes out.old) }
{
    write(
        out,
        &[
            Piece::Plain("</"),
            Piece::Plain(tag.name()),
            Piece::Plain(">"),
        ],
    )
}
