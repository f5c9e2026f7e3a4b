//! The lines of a text, and of what kind each is.
#![tactic(auto, using(crate::proofs::TextsBounds::bounds))]

ghost use Rattle.std.specs.Prelude.{◌≡◌, ◌==◌, ◌++◌, codes, drop, map, replicate, string_bytes, IfOk, OnOk};
ghost use Rattle.std.specs.List.{list_all, list_any, prefix_len};
ghost use Rattle.description_texts.specs.Texts.{begins_fence, blanks, has_marker, is_fence, kind_of, lines};
ghost use Rattle.description_texts.specs.Texts.{with_blank_front};
ghost use Rattle.description_texts.specs.TextsInside.{is_blank, is_quote, is_white};

use crate::texts::spacing::{are_all_white, white_len};
use bumpalo::Bump;
use std::alloc::{AllocError, Allocator};

/// What a line begins that does not belong to the lines above it.
#[derive(Clone, Copy, Debug, PartialEq, Eq)]
pub enum Kind {
    /// Nothing: the line is only blanks.
    Blank,
    /// Lines of code up to the next fence.
    Fence,
    /// Lines of code.
    Code,
    /// A list.
    Item,
    /// A paragraph.
    Plain,
}

fn is_blank(byte: u8) -> bool
    ensures { result ≡ is_blank byte }
{
    byte == b' '
}

fn is_quote(byte: u8) -> bool
    ensures { result ≡ is_quote byte }
{
    byte == b'`'
}

/// How many blanks a line begins with.
pub fn blanks(line: &str) -> usize
    ensures { result ≡ blanks line.now }
{
    line.as_bytes()
        .iter()
        .take_while(|byte| is_blank(**byte))
        .count()
}

fn quotes(line: &str) -> usize
    ensures { result ≡ prefix_len is_quote line.now }
{
    line.as_bytes()
        .iter()
        .take_while(|byte| is_quote(**byte))
        .count()
}

/// Whether a line is only blanks.
pub fn is_blank_line(line: &str) -> bool
    ensures { result ≡ list_all is_blank line.now }
{
    line.as_bytes().iter().all(|byte| is_blank(*byte))
}

/// Whether a line begins with three backquotes.
pub fn begins_fence(line: &str) -> bool
    ensures { result ≡ begins_fence line.now }
{
    quotes(line) >= 3
}

fn has_quote(bytes: &[u8]) -> bool
    ensures { result ≡ list_any is_quote bytes.now }
{
    bytes.iter().any(|byte| is_quote(*byte))
}

/// Whether a line begins a fence.
pub fn is_fence(line: &str) -> bool
    ensures { result ≡ is_fence line.now }
{
    begins_fence(line) && !has_quote(&line.as_bytes()[quotes(line)..])
}

// Whether a line without the blanks at its front is one of an item.
fn has_marker(line: &[u8]) -> bool
    ensures { result ≡ has_marker line.now }
{
    line.starts_with(b"- ") && !are_all_white(&line[2..])
}

/// The kind of a line.
#[tactic(auto, using(crate::proofs::TextsBounds::bounds), unfolding(crate::specs::Texts::kind_of))]
pub fn kind_of(line: &str) -> Kind
    ensures { result ≡ kind_of line.now }
{
    if is_blank_line(line) {
        Kind::Blank
    } else if is_fence(line) {
        Kind::Fence
    } else if blanks(line) >= 4 {
        Kind::Code
    } else if has_marker(&line.as_bytes()[blanks(line)..]) {
        Kind::Item
    } else {
        Kind::Plain
    }
}

fn has_tab(text: &str) -> bool
    ensures { result ≡ list_any (λ b. b == 9) text.now }
{
    text.as_bytes().iter().any(|byte| *byte == b'\t')
}

fn push_blanks<A: Allocator>(text: &mut String<A>, count: usize) -> Result<(), AllocError>
    ensures { OnOk result (string_bytes text.new ≡ string_bytes text.old ++ replicate count 32) }
{
    for _at in 0..count {
        text.push_str(" ")?;
    }
    Ok(())
}

// A line with a blank for each tab at its front.
fn with_blank_front<'a>(arena: &'a Bump, line: &'a str) -> Result<&'a str, AllocError>
    ensures { IfOk result (λ shown. shown.now ≡ with_blank_front line.now) }
{
    let front = white_len(line);
    if !has_tab(&line[..front]) {
        return Ok(line);
    }
    let mut text = String::new(arena);
    push_blanks(&mut text, front)?;
    text.push_str(&line[front..])?;
    arena.try_alloc_str(text.as_str())
}

/// The lines of a text, each with a blank for a tab at its front. They borrow the text, unless there is such a tab.
pub fn lines<'a>(arena: &'a Bump, text: &'a str) -> Result<Vec<&'a str, &'a Bump>, AllocError>
    ensures { IfOk result (λ found. map (λ line. line.now) found.items ≡ lines text.now) }
{
    let mut found = Vec::new(arena);
    let mut rest = text;
    while let Some((line, after)) = rest.split_once('\n') {
        found.push(with_blank_front(arena, line)?)?;
        rest = after;
    }
    found.push(with_blank_front(arena, rest)?)?;
    Ok(found)
}
