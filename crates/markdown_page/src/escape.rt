//! Texts of a line, with a backslash before each character that markdown would read as a mark.

ghost use Rattle.std.specs.Prelude.{◌≡◌, ◌<◌, ◌++◌, ◌||◌, ◌==◌, false, true, IsTrue, OnOk, string_bytes};
ghost use Rattle.markdown_page.specs.Bytes.{is_digit, is_letter, is_word};
ghost use Rattle.markdown_page.specs.Exact.{begins_in_word, escaped, is_escaped, is_sign, may_refer, stand_for};

use std::alloc::{AllocError, Allocator};

fn is_letter(byte: u8) -> bool
    ensures { result ≡ is_letter byte }
{
    matches!(byte, b'A'..=b'Z' | b'a'..=b'z')
}

/// Whether a byte is a digit.
pub fn is_digit(byte: u8) -> bool
    ensures { result ≡ is_digit byte }
{
    matches!(byte, b'0'..=b'9')
}

/// Whether a byte is a letter or a digit of ASCII.
pub fn is_word(byte: u8) -> bool
    ensures { result ≡ is_word byte }
{
    is_letter(byte) || is_digit(byte)
}

fn is_sign(byte: u8) -> bool
    ensures { result ≡ is_sign byte }
{
    matches!(byte, b'\\' | b'`' | b'*' | b'[' | b']' | b'<')
}

fn begins_in_word(text: &[u8]) -> bool
    ensures { result ≡ begins_in_word text.now }
{
    match text {
        [byte, ..] => is_word(*byte),
        [] => false,
    }
}

// Whether an ampersand before this text may begin the reference of a character.
fn may_refer(text: &[u8]) -> bool
    ensures { result ≡ may_refer text.now }
{
    match text {
        [byte, ..] => *byte == b'#' || is_letter(*byte),
        [] => true,
    }
}

// Whether a byte is written with a backslash, where it is after a letter or a digit or not, and before this text.
fn is_escaped(in_heading: bool, is_after_word: bool, byte: u8, text: &[u8]) -> bool
    ensures { result ≡ is_escaped in_heading is_after_word byte text.now }
{
    is_sign(byte)
        || (byte == b'#' && in_heading)
        || (byte == b'_' && !(is_after_word && begins_in_word(text)))
        || (byte == b'&' && may_refer(text))
        || (byte == b'!' && text.is_empty())
}

// Whether something else stands for a byte: for white space a blank, and for an opening brace its number.
fn is_replaced(byte: u8) -> bool
    ensures { result ≡ (byte == 9 || byte == 10 || byte == 123) }
{
    matches!(byte, b'\t' | b'\n' | b'{')
}

#[tactic(auto, using(crate::proofs::Escapes::space_stands))]
fn stand_in(byte: u8) -> &'static str
    requires { (byte == 9 || byte == 10 || byte == 123) ≡ true }
    ensures { result.now ≡ stand_for byte }
{
    if byte == b'{' { "&#123;" } else { " " }
}

/// Writes a text, each white space in it as a blank.
#[tactic(auto, using(crate::proofs::Escapes::marked_is))]
pub fn push_escaped<A: Allocator>(
    out: &mut String<A>,
    text: &str,
    in_heading: bool,
) -> Result<(), AllocError>
    ensures { OnOk result (string_bytes out.new ≡ string_bytes out.old ++ escaped in_heading false text.now) }
{
    let bytes = text.as_bytes();
    let mut start = 0;
    let mut is_after_word = false;
    for at in 0..bytes.len() {
        let byte = bytes[at];
        if is_escaped(in_heading, is_after_word, byte, &bytes[at + 1..]) {
            out.push_str(&text[start..at])?;
            out.push_str("\\")?;
            start = at;
        } else if is_replaced(byte) {
            out.push_str(&text[start..at])?;
            out.push_str(stand_in(byte))?;
            start = at + 1;
        }
        is_after_word = is_word(byte);
    }
    out.push_str(&text[start..])
}
