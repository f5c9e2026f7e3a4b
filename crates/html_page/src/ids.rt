//! The ids of a page.

ghost use Rattle.std.specs.Prelude.{◌≡◌, ◌++◌, ◌<◌, ◌∷◌, [], codes, IfOk, OnOk, encode_utf8, string_bytes};
ghost use Rattle.std.specs.Char.{digit_char};
ghost use Rattle.std.specs.List.{list_all};
ghost use Rattle.html_page.specs.Ids.{chapter_id, entry_id, heading_id, id_byte, id_text, is_id_byte, numbered};
ghost use Rattle.html_page.specs.Ids.{title_byte};

use std::alloc::{AllocError, Allocator};

/// The id of the section of the chapter of this title.
pub fn chapter_id<B: Allocator>(alloc: B, title: &str) -> Result<String<B>, AllocError>
    ensures { IfOk result (λ id. string_bytes id ≡ chapter_id title.now) }
{
    let mut id = String::new(alloc);
    push_title(&mut id, title)?;
    Ok(id)
}

/// The id of an entry in the chapter of this title, before which that many others with its word have one.
pub fn entry_id<B: Allocator + Copy>(
    alloc: B,
    title: &str,
    word: &str,
    earlier: usize,
) -> Result<String<B>, AllocError>
    ensures { IfOk result (λ id. string_bytes id ≡ numbered (entry_id title.now word.now) earlier) }
{
    let mut id = chapter_id(alloc, title)?;
    id.push_str("::")?;
    push_text(&mut id, word)?;
    push_number(alloc, &mut id, earlier)?;
    Ok(id)
}

/// The id of a heading in that chapter, before which that many are the same.
pub fn heading_id<B: Allocator + Copy>(
    alloc: B,
    title: &str,
    heading: &str,
    earlier: usize,
) -> Result<String<B>, AllocError>
    ensures { IfOk result (λ id. string_bytes id ≡ numbered (heading_id title.now heading.now) earlier) }
{
    let mut id = chapter_id(alloc, title)?;
    id.push_str(":::")?;
    push_text(&mut id, heading)?;
    push_number(alloc, &mut id, earlier)?;
    Ok(id)
}

// Appends a number to an id, unless it is the first of its kind.
fn push_number<B: Allocator + Copy>(
    alloc: B,
    id: &mut String<B>,
    earlier: usize,
) -> Result<(), AllocError>
    ensures { OnOk result (string_bytes id.new ≡ numbered (string_bytes id.old) earlier) }
{
    if earlier == 0 {
        return Ok(());
    }
    let number = earlier as u128 + 1;
    let number = format!(in alloc; "::{number}")?;
    id.push_str(&number)
}

fn push_title<B: Allocator>(id: &mut String<B>, title: &str) -> Result<(), AllocError>
    ensures { OnOk result (string_bytes id.new ≡ string_bytes id.old ++ chapter_id title.now) }
{
    let bytes = title.as_bytes();
    for byte in bytes {
        push_title_byte(id, *byte)?;
    }
    Ok(())
}

fn push_title_byte<B: Allocator>(id: &mut String<B>, byte: u8) -> Result<(), AllocError>
    ensures { OnOk result (string_bytes id.new ≡ string_bytes id.old ++ title_byte byte) }
{
    if byte == b' ' {
        return id.push(':');
    }
    push_byte(id, byte)
}

#[tactic(auto, using(crate::proofs::Spelled::plain_id_text))]
fn push_text<B: Allocator>(id: &mut String<B>, text: &str) -> Result<(), AllocError>
    ensures { OnOk result (string_bytes id.new ≡ string_bytes id.old ++ id_text text.now) }
{
    // Most words have no other bytes.
    if are_id_bytes(text) {
        return id.push_str(text);
    }
    let bytes = text.as_bytes();
    for byte in bytes {
        push_byte(id, *byte)?;
    }
    Ok(())
}

fn push_byte<B: Allocator>(id: &mut String<B>, byte: u8) -> Result<(), AllocError>
    ensures { OnOk result (string_bytes id.new ≡ string_bytes id.old ++ id_byte byte) }
{
    if is_id_byte(byte) {
        return id.push(char::from(byte));
    }
    id.push('.')?;
    id.push(hex_digit(byte / 16))?;
    id.push(hex_digit(byte % 16))
}

fn hex_digit(value: u8) -> char
    requires { value < 16 }
    ensures { encode_utf8 result ≡ digit_char value ∷ [] }
{
    if value < 10 {
        char::from(b'0' + value)
    } else {
        char::from(b'a' - 10 + value)
    }
}

fn are_id_bytes(text: &str) -> bool
    ensures { result ≡ list_all is_id_byte text.now }
{
    text.as_bytes().iter().all(|byte| is_id_byte(*byte))
}

fn is_id_byte(byte: u8) -> bool
    ensures { result ≡ is_id_byte byte }
{
    matches!(byte, b'a'..=b'z' | b'A'..=b'Z' | b'0'..=b'9' | b'-' | b'_')
}
