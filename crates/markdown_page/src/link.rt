//! Links to an address in the web, to the page of a name, and to a heading.

ghost use Rattle.std.specs.Prelude.{◌≡◌, ◌<◌, ◌++◌, ◌||◌, codes, false, flat_map, OnOk, string_bytes};
ghost use Rattle.std.specs.List.{list_all};
ghost use Rattle.page_model.specs.View.{target_of};
ghost use Rattle.markdown_page.specs.Bytes.{begins_with};
ghost use Rattle.markdown_page.specs.Exact.{auto_text, link_text, page_link};
ghost use Rattle.markdown_page.specs.Kept.{encoded_byte, heading_address, hex_digit, is_link, is_link_byte};
ghost use Rattle.markdown_page.specs.Kept.{is_unreserved, page_address, target_address};
ghost use Rattle.markdown_page.specs.Steps.{after_text};

use crate::escape::{is_word, push_escaped};
use crate::replace::Place;
use crate::slug::slug;
use page_model::Target;
use page_model::replaced::push_replaced;
use std::alloc::{AllocError, Allocator};

fn is_link_byte(byte: u8) -> bool
    ensures { result ≡ is_link_byte byte }
{
    byte > b' ' && !matches!(byte, b'<' | b'>' | b'{' | 127)
}

fn is_web_address(text: &[u8]) -> bool
    ensures { result ≡ (begins_with (codes "http://") text.now || begins_with (codes "https://") text.now) }
{
    text.starts_with(b"http://") || text.starts_with(b"https://")
}

fn are_link_bytes(text: &[u8]) -> bool
    ensures { result ≡ list_all is_link_byte text.now }
{
    text.iter().all(|byte| is_link_byte(*byte))
}

// Whether a text is an address in the web, which an autolink may hold.
fn is_link(text: &str) -> bool
    ensures { result ≡ is_link text.now }
{
    let bytes = text.as_bytes();
    is_web_address(bytes) && are_link_bytes(bytes)
}

fn push_auto<A: Allocator>(out: &mut String<A>, address: &str) -> Result<(), AllocError>
    ensures { OnOk result (string_bytes out.new ≡ string_bytes out.old ++ auto_text address.now) }
{
    out.push_str("<")?;
    push_replaced(out, address, Place::Autolink)?;
    out.push_str(">")
}

/// Writes a text as a link to itself, where it is an address in the web, otherwise as words.
pub fn push_link<A: Allocator>(out: &mut String<A>, text: &str) -> Result<(), AllocError>
    ensures { OnOk result (string_bytes out.new ≡ string_bytes out.old ++ link_text text.now) }
{
    if is_link(text) {
        push_auto(out, text)
    } else {
        push_escaped(out, text, false)
    }
}

// A byte that every address may have.
fn is_unreserved(byte: u8) -> bool
    ensures { result ≡ is_unreserved byte }
{
    is_word(byte) || matches!(byte, b'-' | b'.' | b'_' | b'~')
}

fn hex_digit(digit: u8) -> char
    requires { digit < 16 }
    ensures value { result ≡ hex_digit digit }
    ensures small { result < 128 }
{
    char::from(b"0123456789ABCDEF"[usize::from(digit)])
}

#[tactic(auto, using(crate::proofs::Links::unreserved_small))]
fn push_encoded_byte<A: Allocator>(out: &mut String<A>, byte: u8) -> Result<(), AllocError>
    ensures { OnOk result (string_bytes out.new ≡ string_bytes out.old ++ encoded_byte byte) }
{
    if is_unreserved(byte) {
        return out.push(char::from(byte));
    }
    out.push('%')?;
    out.push(hex_digit(byte / 16))?;
    out.push(hex_digit(byte % 16))
}

fn push_encoded<A: Allocator>(out: &mut String<A>, name: &str) -> Result<(), AllocError>
    ensures { OnOk result (string_bytes out.new ≡ string_bytes out.old ++ flat_map encoded_byte name.now) }
{
    let bytes = name.as_bytes();
    for byte in bytes {
        push_encoded_byte(out, *byte)?;
    }
    Ok(())
}

fn push_page_address<A: Allocator>(out: &mut String<A>, name: &str) -> Result<(), AllocError>
    ensures { OnOk result (string_bytes out.new ≡ string_bytes out.old ++ page_address name.now) }
{
    push_encoded(out, name)?;
    out.push_str(".md")
}

fn push_heading_address<A: Allocator + Copy>(
    alloc: A,
    out: &mut String<A>,
    title: &str,
) -> Result<(), AllocError>
    ensures { OnOk result (string_bytes out.new ≡ string_bytes out.old ++ heading_address title.now) }
{
    let id = slug(alloc, title)?;
    out.push_str("#")?;
    push_encoded(out, id.as_str())
}

fn push_address<A: Allocator + Copy>(
    alloc: A,
    out: &mut String<A>,
    target: Target<'_>,
) -> Result<(), AllocError>
    ensures { OnOk result (string_bytes out.new ≡ string_bytes out.old ++ target_address (target_of target.entry)) }
{
    match target {
        Target::Page(name) => push_page_address(out, name),
        Target::Heading(title) => push_heading_address(alloc, out, title),
    }
}

/// Writes what follows the text of a link that leads there.
pub fn push_target<A: Allocator + Copy>(
    alloc: A,
    out: &mut String<A>,
    target: Target<'_>,
) -> Result<(), AllocError>
    ensures { OnOk result (string_bytes out.new
        ≡ string_bytes out.old ++ after_text (target_address (target_of target.entry))) }
{
    out.push_str("](")?;
    push_address(alloc, out, target)?;
    out.push_str(")")
}

/// Writes a name as a link to its page.
pub fn push_page<A: Allocator>(out: &mut String<A>, name: &str) -> Result<(), AllocError>
    ensures { OnOk result (string_bytes out.new ≡ string_bytes out.old ++ page_link name.now) }
{
    out.push_str("[")?;
    push_escaped(out, name, false)?;
    out.push_str("](")?;
    push_page_address(out, name)?;
    out.push_str(")")
}
