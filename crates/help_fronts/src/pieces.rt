//! The pieces of a line, one after another.
ghost use Rattle.std.specs.Prelude.{◌≡◌, ◌++◌, ◌∷◌, ◌<◌, ◌==◌, ◌&&◌, ◌||◌, [], length, IfSome, MatchOption};
ghost use Rattle.help_fronts.specs.Pieces as spec;

use crate::bytes::{byte_at, is_blank, is_closing, is_divider, is_opening};

/// How many brackets are open after a byte.
pub fn deeper(depth: usize, byte: u8) -> usize
    requires { depth < usize.MAX }
    ensures { result ≡ spec.deeper depth byte }
{
    if is_opening(byte) {
        depth + 1
    } else if is_closing(byte) {
        depth.saturating_sub(1)
    } else {
        depth
    }
}

/// Whether a line is cut before a byte.
pub fn is_cut(depth: usize, before: u8, byte: u8) -> bool
    ensures { result ≡ spec.is_cut depth before byte }
{
    depth == 0 && (is_blank(byte) || (byte == b'-' && is_divider(before)))
}

// How many bytes of the first piece stand after its first byte.
fn rest_len(first: u8, after: &[u8]) -> usize
    ensures { result ≡ spec.rest_len (spec.deeper 0 first) first after.now }
{
    let mut depth = deeper(0, first);
    let mut before = first;
    for (index, byte) in after.iter().enumerate() {
        if is_cut(depth, before, *byte) {
            return index;
        }
        depth = deeper(depth, *byte);
        before = *byte;
    }
    after.len()
}

/// The first piece of a text, and what stands after it.
pub fn first_piece(text: &str) -> Option<(&str, &str)>
    ensures pieces { MatchOption result (spec.pieces text.now ≡ []) (λ p. spec.pieces text.now ≡ p.0.now ∷ spec.pieces p.1.now) }
    ensures whole { IfSome result (λ p. text.now ≡ p.0.now ++ p.1.now) }
    ensures shorter { IfSome result (λ p. length p.1.now < length text.now) }
{
    let (first, after) = text.as_bytes().split_first()?;
    Some(text.split_at(1 + rest_len(*first, after)))
}

/// A piece without the blank that it begins with.
pub fn word(piece: &str) -> &str
    ensures { result.now ≡ spec.word piece.now }
{
    if byte_at(piece, 0) == b' ' {
        &piece[1..]
    } else {
        piece
    }
}

/// The first word; an empty one, if there is none.
pub fn first_word(text: &str) -> &str
    ensures { result.now ≡ spec.first_word (spec.pieces text.now) }
{
    match first_piece(text) {
        None => "",
        Some((piece, _)) => word(piece),
    }
}
