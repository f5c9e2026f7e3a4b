//! What is wrong in a string.
ghost use Rattle.std.specs.Prelude.{◌<◌, IfOk, IfSome};

use crate::error::Why;

/// What is wrong in the string that begins with the quote at this place, and where.
pub fn string_fault(text: &[u8], quote: usize) -> Option<(usize, Why)> {
    let mut at = quote.saturating_add(1);
    while at < text.len() {
        let rest = &text[at..];
        match rest[0] {
            b'"' => return None,
            0..=0x1F => return Some((at, Why::Control)),
            b'\\' => match escape_len(rest) {
                Ok(len) => at = at.saturating_add(len),
                Err(why) => return Some((at, why)),
            },
            _ => at += 1,
        }
    }
    Some((quote, Why::NotClosed('"')))
}

// How long the escape at the front of the text is.
fn escape_len(text: &[u8]) -> Result<usize, Why>
    ensures { IfOk result (λ len. 0 < len) }
{
    match text.get(1) {
        Some(b'"' | b'\\' | b'/' | b'b' | b'f' | b'n' | b'r' | b't') => Ok(2),
        Some(b'u') => unicode_len(text),
        _ => Err(Why::Escape),
    }
}

// The same of one that begins with a code unit of UTF-16.
fn unicode_len(text: &[u8]) -> Result<usize, Why>
    ensures { IfOk result (λ len. 0 < len) }
{
    match code_unit(text) {
        None => Err(Why::Escape),
        Some(0xDC00..=0xDFFF) => Err(Why::Surrogate),
        Some(0xD800..=0xDBFF) => match text.get(6..) {
            Some(second) if is_low_half(second) => Ok(12),
            _ => Err(Why::Surrogate),
        },
        Some(_) => Ok(6),
    }
}

fn is_low_half(text: &[u8]) -> bool {
    matches!(code_unit(text), Some(0xDC00..=0xDFFF))
}

// The code unit that the escape at the front of the text writes.
fn code_unit(text: &[u8]) -> Option<u32> {
    let [b'\\', b'u', digits @ ..] = text else {
        return None;
    };
    let mut unit = 0u32;
    for digit in digits.get(..4)? {
        unit = (unit & 0xFFF) * 16 + hex_value(*digit)?;
    }
    Some(unit)
}

fn hex_value(digit: u8) -> Option<u32>
    ensures { IfSome result (λ value. value < 16) }
{
    char::from(digit).to_digit(16)
}
