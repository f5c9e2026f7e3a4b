//! White space within a line.

ghost use Rattle.std.specs.Prelude.{◌≡◌, ◌<◌, ◌+◌, ◌-◌, ◌==◌, ◌++◌, ◌∷◌, [], drop, length, slice_index};
ghost use Rattle.std.specs.Prelude.{IfOk, MatchOption, true};
ghost use Rattle.std.specs.List.{list_all, prefix_len};
ghost use Rattle.description_texts.specs.TextsInside.{is_edge_back, is_edge_front, is_white, spaced, squeezed};
ghost use Rattle.description_texts.specs.TextsInside.{squeezed_byte, without_white_end, without_white_front};
ghost use Rattle.description_texts.specs.TextsView.{says_itself, stays_here};

use bumpalo::Bump;
use std::alloc::AllocError;

/// Whether a byte is a blank or a tab.
pub fn is_white(byte: u8) -> bool
    ensures { result ≡ is_white byte }
{
    byte == b' ' || byte == b'\t'
}

/// Whether bytes are blanks and tabs alone.
pub fn are_all_white(bytes: &[u8]) -> bool
    ensures { result ≡ list_all is_white bytes.now }
{
    bytes.iter().all(|byte| is_white(*byte))
}

/// How many blanks and tabs a text begins with.
pub fn white_len(text: &str) -> usize
    ensures { result ≡ prefix_len is_white text.now }
{
    text.as_bytes()
        .iter()
        .take_while(|byte| is_white(**byte))
        .count()
}

/// A text without the white space at its front.
pub fn without_white_front(text: &str) -> &str
    ensures { result.now ≡ without_white_front text.now }
{
    &text[white_len(text)..]
}

/// Whether a text is at its end, or continues with white space.
pub fn is_edge_front(text: &str) -> bool
    ensures { result ≡ is_edge_front text.now }
{
    match text.as_bytes() {
        [] => true,
        [byte, ..] => is_white(*byte),
    }
}

/// Whether a text is at its start, or white space stands last in it.
pub fn is_edge_back(text: &str) -> bool
    ensures { result ≡ is_edge_back text.now }
{
    match text.as_bytes() {
        [] => true,
        [.., byte] => is_white(*byte),
    }
}

/// A text without the last byte, where that is white space.
pub fn without_white_end(text: &str) -> &str
    ensures { result.now ≡ without_white_end text.now }
{
    match text.as_bytes() {
        [rest @ .., byte] if is_white(*byte) => &text[..rest.len()],
        _ => text,
    }
}

// Whether there is white space at a place that is left out: white space or the end of the line follows it.
fn is_left_out(bytes: &[u8], at: usize) -> bool
    requires { at < length bytes.now }
    ensures { result ≡ is_edge_front (drop (at + 1) bytes.now) }
{
    match &bytes[at + 1..] {
        [] => true,
        [byte, ..] => is_white(*byte),
    }
}

// What stands for white space at a place. None where it is a blank that stands for itself.
fn stand_in(bytes: &[u8], at: usize) -> Option<&'static str>
    requires { at < length bytes.now }
    ensures { MatchOption result
        (squeezed_byte (slice_index bytes.now at) (drop (at + 1) bytes.now) ≡ slice_index bytes.now at ∷ [])
        (λ text. (slice_index bytes.now at < 128)
        × (squeezed_byte (slice_index bytes.now at) (drop (at + 1) bytes.now) ≡ text.now)) }
{
    if !is_white(bytes[at]) {
        None
    } else if is_left_out(bytes, at) {
        Some("")
    } else if bytes[at] == b'\t' {
        Some(" ")
    } else {
        None
    }
}

// Whether a byte stays as it is: neither a backquote nor `<`, and white space only as a blank after a word.
fn stays_here(byte: u8, is_after_white: bool) -> bool
    ensures { result ≡ stays_here byte is_after_white }
{
    match byte {
        b' ' => !is_after_white,
        b'\t' | b'`' | b'<' => false,
        _ => true,
    }
}

/// Whether a line is words with one blank between two, and nothing else has a meaning in it: then it says itself.
#[tactic(auto, using(crate::proofs::TextsItself::itself_at, crate::proofs::TextsItself::itself_end))]
pub fn says_itself(line: &[u8]) -> bool
    ensures { result ≡ says_itself true line.now }
{
    let mut is_after_white = true;
    for byte in line {
        if !stays_here(*byte, is_after_white) {
            return false;
        }
        is_after_white = *byte == b' ';
    }
    !is_after_white
}

fn squeezed<'a>(arena: &'a Bump, line: &'a str) -> Result<&'a str, AllocError>
    ensures { IfOk result (λ text. text.now ≡ squeezed line.now) }
{
    let bytes = line.as_bytes();
    let mut out = String::new(arena);
    let mut start = 0;
    for at in 0..bytes.len() {
        if let Some(text) = stand_in(bytes, at) {
            out.push_str(&line[start..at])?;
            out.push_str(text)?;
            start = at + 1;
        }
    }
    if out.is_empty() {
        return Ok(&line[start..]);
    }
    out.push_str(&line[start..])?;
    arena.try_alloc_str(out.as_str())
}

/// A line with one blank for each run of white space, and none at its ends. It borrows the line, except where it
/// differs from a part of it.
pub fn spaced<'a>(arena: &'a Bump, line: &'a str) -> Result<&'a str, AllocError>
    ensures { IfOk result (λ text. text.now ≡ spaced line.now) }
{
    squeezed(arena, without_white_front(line))
}
