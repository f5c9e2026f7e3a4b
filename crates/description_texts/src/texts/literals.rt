//! Literals within a line: what stands between two backquotes with no other beside them.

ghost use Rattle.std.specs.Prelude.{◌≡◌, ◌≤◌, ◌<◌, ◌+◌, ◌++◌, [], ◌∷◌, drop, length, slice_index, MatchOption};
ghost use Rattle.std.specs.List.{list_all};
ghost use Rattle.description_texts.specs.TextsInside.{begins_quote, by_turns, end_kept, front_kept, is_lone};
ghost use Rattle.description_texts.specs.TextsInside.{links, lone_parts, quoted};
ghost use Rattle.description_texts.specs.TextsView.{IsLoneCut};

use crate::texts::spacing::{is_edge_back, is_edge_front, without_white_end, without_white_front};

/// What stands between two such backquotes, before them and after them.
#[derive(Clone, Copy)]
pub struct Pair<'a> {
    pub before: &'a str,
    pub inner: &'a str,
    pub after: &'a str,
}

fn is_quote_at(bytes: &[u8], at: usize) -> bool
    requires { at ≤ length bytes.now }
    ensures { result ≡ begins_quote (drop at bytes.now) }
{
    match &bytes[at..] {
        [] => false,
        [byte, ..] => *byte == b'`',
    }
}

// Whether at a place there is a backquote with no other beside it.
fn is_lone(bytes: &[u8], at: usize, is_after_quote: bool) -> bool
    requires { at < length bytes.now }
    ensures { result ≡ is_lone is_after_quote (slice_index bytes.now at) (drop (at + 1) bytes.now) }
{
    bytes[at] == b'`' && !is_after_quote && !is_quote_at(bytes, at + 1)
}

// Cuts a text at its first backquote with no other beside it.
fn split_lone(text: &str) -> Option<(&str, &str)>
    ensures { MatchOption result (lone_parts text.now ≡ text.now ∷ []) (λ cut. IsLoneCut text.now cut.0.now cut.1.now) }
{
    let bytes = text.as_bytes();
    let mut is_after_quote = false;
    for at in 0..bytes.len() {
        if is_lone(bytes, at, is_after_quote) {
            return Some((&text[..at], &text[at + 1..]));
        }
        is_after_quote = bytes[at] == b'`';
    }
    None
}

/// The first pair of a text.
pub fn first_pair(text: &str) -> Option<Pair<'_>>
    ensures { MatchOption result
        (by_turns (lone_parts text.now) ≡ links text.now)
        (λ pair. (by_turns (lone_parts text.now) ≡ links pair.before.now
        ++ (quoted pair.before.now pair.inner.now pair.after.now ++ by_turns (lone_parts pair.after.now)))
        × (length pair.after.now < length text.now)) }
{
    let Some((before, rest)) = split_lone(text) else {
        return None;
    };
    let Some((inner, after)) = split_lone(rest) else {
        return None;
    };
    Some(Pair {
        before,
        inner,
        after,
    })
}

fn front_kept<'a>(before: &str, inner: &'a str) -> &'a str
    ensures { result.now ≡ front_kept before.now inner.now }
{
    if is_edge_back(before) {
        without_white_front(inner)
    } else {
        inner
    }
}

fn end_kept<'a>(inner: &'a str, after: &str) -> &'a str
    ensures { result.now ≡ end_kept inner.now after.now }
{
    if is_edge_front(after) {
        without_white_end(inner)
    } else {
        inner
    }
}

/// The literal in a pair.
pub fn literal_of(pair: Pair<'_>) -> &str
    ensures { result.now
        ≡ end_kept (front_kept pair.entry.before.now pair.entry.inner.now) pair.entry.after.now }
{
    end_kept(front_kept(pair.before, pair.inner), pair.after)
}
