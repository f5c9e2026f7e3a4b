//! Brackets in no pair, which count as letters.
ghost use Rattle.std.specs.Prelude.{◌≡◌, ◌∷◌, ◌<◌, ◌+◌, [], length, reverse, string_bytes, IfOk, OnOk};
ghost use Rattle.std.specs.List.{slice_index};
ghost use Rattle.description_usage.specs.Forms.{closes, depths, open_after, shaped, stand_in};
ghost use Rattle.description_usage.specs.Depths.{shaped_byte};
ghost use Rattle.description_usage.specs.Syntax.{begins};

use crate::syntax::{is_closing, is_opening};
use bumpalo::Bump;
use std::alloc::{AllocError, Allocator};
use std::str::from_utf8;

fn closes(opening: u8, closing: u8) -> bool
    ensures { result ≡ closes opening closing }
{
    (opening == b'[' && closing == b']')
        || (opening == b'(' && closing == b')')
        || (opening == b'<' && closing == b'>')
        || (opening == b'{' && closing == b'}')
}

// Whether a bracket makes a pair with the last one that is open.
fn closes_last(opened: &[u8], byte: u8) -> bool
    ensures { result ≡ begins (λ opening. closes opening byte) (reverse opened.now) }
{
    match opened.last() {
        None => false,
        Some(last) => closes(*last, byte),
    }
}

// Goes over a byte: the brackets that are open are left, the innermost last.
fn step<A: Allocator>(opened: &mut Vec<u8, A>, byte: u8) -> Result<(), AllocError>
    ensures { OnOk result (reverse opened.new.items ≡ open_after (reverse opened.old.items) byte) }
{
    if is_opening(byte) {
        opened.push(byte)?;
    } else if closes_last(opened.as_slice(), byte) {
        opened.pop();
    }
    Ok(())
}

// How many brackets are open before the first byte, and after each.
fn levels<A: Allocator + Copy>(alloc: A, bytes: &[u8]) -> Result<Vec<usize, A>, AllocError>
    ensures { IfOk result (λ levels. levels.items ≡ 0 ∷ depths [] bytes.now) }
{
    let mut opened = Vec::new(alloc);
    let mut levels = Vec::new(alloc);
    levels.push(0)?;
    for byte in bytes {
        step(&mut opened, *byte)?;
        levels.push(opened.len())?;
    }
    Ok(levels)
}

// What stands for a byte, where that many brackets are open before it and after it, and the fewest after a later one.
fn shaped_byte(byte: u8, before: usize, after: usize, lowest: usize) -> u8
    ensures { result ≡ shaped_byte byte before after lowest }
{
    let is_lone = if is_opening(byte) {
        before < lowest
    } else {
        is_closing(byte) && after == before
    };
    if is_lone { stand_in(byte) } else { byte }
}

fn stand_in(byte: u8) -> u8
    ensures { result ≡ stand_in byte }
{
    match byte {
        b'[' => 1,
        b']' => 2,
        b'(' => 3,
        b')' => 4,
        b'{' => 5,
        b'}' => 6,
        b'<' => 7,
        b'>' => 8,
        _ => byte,
    }
}

fn shaped_bytes<A: Allocator>(
    alloc: A,
    bytes: &[u8],
    levels: &[usize],
) -> Result<Vec<u8, A>, AllocError>
    requires { levels.now ≡ 0 ∷ depths [] bytes.now }
    ensures { IfOk result (λ out. out.items ≡ shaped bytes.now) }
{
    let mut out = Vec::with_capacity(alloc, bytes.len())?;
    let mut lowest = usize::MAX;
    let mut at = bytes.len();
    while at > 0 {
        at -= 1;
        let after = levels[at + 1];
        out.push(shaped_byte(bytes[at], levels[at], after, lowest))?;
        lowest = lowest.min(after);
    }
    out.as_mut_slice().reverse();
    Ok(out)
}

/// A line in which brackets in no pair count as letters: something else stands for each.
pub fn shaped<'p, A: Allocator>(arena: &'p Bump<A>, line: &str) -> Result<&'p str, AllocError>
    ensures { IfOk result (λ text. text.now ≡ shaped line.now) }
{
    let levels = levels(arena, line.as_bytes())?;
    let bytes = shaped_bytes(arena, line.as_bytes(), levels.as_slice())?;
    match from_utf8(bytes.as_slice()) {
        Ok(text) => arena.try_alloc_str(text),
        Err(_) => unreachable!(),
    }
}
