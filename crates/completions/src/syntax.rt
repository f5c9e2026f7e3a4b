//! The syntax of an option: the names in it, and how the value is given.
ghost use Rattle.std.specs.Prelude.{◌≡◌, ◌++◌, ◌∷◌, ◌<◌, ◌+◌, ◌==◌, ◌&&◌, [], Some, None, codes, drop, flat_map};
ghost use Rattle.std.specs.Prelude.{length, map, take};
ghost use Rattle.std.specs.Prelude.{IfSome, MatchOption, OnOk, string_bytes};
ghost use Rattle.std.specs.List.{prefix_len, slice_index};
ghost use Rattle.completions.specs.Syntax.{after, depth_after, ends_name, front, has_form_of_name, has_letter};
ghost use Rattle.completions.specs.Syntax.{is_closing, is_gap, is_of_name, is_opening, named, negated};
ghost use Rattle.completions.specs.Syntax.{negated_names, syntax_how, syntax_words, tail_how, word_names, word_tail};
ghost use Rattle.completions.specs.Table.{how_word, lone};
ghost use Rattle.completions.specs.Written.{Writes};

use crate::entries::{Entry, push_entry};
use crate::shells::Shell;
use std::alloc::{AllocError, Allocator};

/// How the value of an option is given: not at all, after `=` or a blank, after a blank, or only after `=`.
#[derive(Clone, Copy)]
pub enum How {
    Flag,
    Value,
    Word,
    Optional,
}

impl How {
    /// The word for it.
    pub fn word(self) -> &'static str
        ensures { result.now ≡ how_word self }
    {
        match self {
            How::Flag => "flag",
            How::Value => "value",
            How::Word => "word",
            How::Optional => "optional",
        }
    }
}

// What stands before the name of an option that has a form with `no-` and one without.
const NEGATION: &str = "--[no-]";

fn is_opening(byte: u8) -> bool
    ensures { result ≡ is_opening byte }
{
    byte == b'[' || byte == b'(' || byte == b'<' || byte == b'{'
}

fn is_closing(byte: u8) -> bool
    ensures { result ≡ is_closing byte }
{
    byte == b']' || byte == b')' || byte == b'>' || byte == b'}'
}

fn is_gap(byte: u8) -> bool
    ensures { result ≡ is_gap byte }
{
    byte == b' ' || byte == b',' || byte == b'|'
}

fn ends_name(byte: u8) -> bool
    ensures { result ≡ ends_name byte }
{
    is_gap(byte) || byte == b'=' || is_opening(byte) || is_closing(byte)
}

// ---- words

fn depth_after(depth: usize, byte: u8) -> usize
    requires { depth < usize.MAX }
    ensures { result ≡ depth_after depth byte }
{
    if is_opening(byte) {
        depth + 1
    } else if is_closing(byte) {
        depth.saturating_sub(1)
    } else {
        depth
    }
}

fn is_cut(byte: u8, depth: usize) -> bool
    ensures { result ≡ (is_gap byte && depth == 0) }
{
    is_gap(byte) && depth == 0
}

// Where a blank, a comma or a bar stands first outside brackets.
fn first_gap(bytes: &[u8]) -> Option<usize>
    ensures { MatchOption result (syntax_words bytes.now ≡ bytes.now ∷ []) (λ at. (at < length bytes.now)
        × (slice_index bytes.now at < 128)
        × (syntax_words bytes.now ≡ take at bytes.now ∷ syntax_words (drop (at + 1) bytes.now))) }
{
    let mut depth = 0;
    for (index, byte) in bytes.iter().enumerate() {
        if is_cut(*byte, depth) {
            return Some(index);
        }
        depth = depth_after(depth, *byte);
    }
    None
}

// The first word, where others follow it, and what follows.
fn split_word(text: &str) -> Option<(&str, &str)>
    ensures words { MatchOption result (syntax_words text.now ≡ text.now ∷ [])
        (λ p. syntax_words text.now ≡ p.0.now ∷ syntax_words p.1.now) }
    ensures shorter { IfSome result (λ p. length p.1.now < length text.now) }
{
    let at = first_gap(text.as_bytes())?;
    Some((&text[..at], &text[at + 1..]))
}

// ---- a word

fn front_len(bytes: &[u8]) -> usize
    ensures { result ≡ prefix_len is_of_name bytes.now }
{
    for (index, byte) in bytes.iter().enumerate() {
        if ends_name(*byte) {
            return index;
        }
    }
    bytes.len()
}

// What of a word may be a name, and what follows it.
fn split_front(word: &str) -> (&str, &str)
    ensures front { result.0.now ≡ front word.now }
    ensures after { result.1.now ≡ after word.now }
{
    word.split_at(front_len(word.as_bytes()))
}

fn has_letter(bytes: &[u8]) -> bool
    ensures { result ≡ has_letter bytes.now }
{
    bytes.iter().any(|byte| *byte != b'-')
}

fn has_form_of_name(run: &[u8]) -> bool
    ensures { result ≡ has_form_of_name run.now }
{
    match run.first() {
        None => false,
        Some(first) => *first == b'-' && has_letter(run),
    }
}

// The name that a word begins with, and what follows it.
fn named(word: &str) -> Option<(&str, &str)>
    ensures { MatchOption result (named word.now ≡ None) (λ p. named word.now ≡ Some (p.0.now, p.1.now)) }
{
    let (name, tail) = split_front(word);
    if has_form_of_name(name.as_bytes()) {
        Some((name, tail))
    } else {
        None
    }
}

// The same of a word that can be negated: the name is without its dashes.
fn negated(word: &str) -> Option<(&str, &str)>
    ensures { MatchOption result (negated word.now ≡ None) (λ p. negated word.now ≡ Some (p.0.now, p.1.now)) }
{
    let rest = word.strip_prefix(NEGATION)?;
    let (name, tail) = split_front(rest);
    if has_letter(name.as_bytes()) {
        Some((name, tail))
    } else {
        None
    }
}

// ---- names

fn push_negated<A: Allocator>(
    out: &mut String<A>,
    shell: Shell,
    word: &str,
) -> Result<(), AllocError>
    ensures { OnOk result (Writes shell (string_bytes out.old) (string_bytes out.new)
        (map (lone (codes "name")) (negated_names (negated word.now)))) }
{
    if let Some((name, _)) = negated(word) {
        push_entry(out, shell, Entry::name("--", name))?;
        push_entry(out, shell, Entry::name("--no-", name))?;
    }
    Ok(())
}

fn push_word<A: Allocator>(out: &mut String<A>, shell: Shell, word: &str) -> Result<(), AllocError>
    ensures { OnOk result (Writes shell (string_bytes out.old) (string_bytes out.new)
        (map (lone (codes "name")) (word_names word.now))) }
{
    match named(word) {
        Some((name, _)) => push_entry(out, shell, Entry::lone("name", name)),
        None => push_negated(out, shell, word),
    }
}

/// Appends the names of a syntax. After `AllocError` some of them may be there.
pub fn push_syntax<A: Allocator>(
    out: &mut String<A>,
    shell: Shell,
    text: &str,
) -> Result<(), AllocError>
    ensures { OnOk result (Writes shell (string_bytes out.old) (string_bytes out.new)
        (map (lone (codes "name")) (flat_map word_names (syntax_words text.now)))) }
{
    let mut rest = text;
    while let Some((word, after)) = split_word(rest) {
        push_word(out, shell, word)?;
        rest = after;
    }
    push_word(out, shell, rest)
}

// ---- how the value is given

fn word_tail(word: &str) -> &str
    ensures { result.now ≡ word_tail word.now }
{
    match named(word) {
        Some((_, tail)) => tail,
        None => match negated(word) {
            Some((_, tail)) => tail,
            None => word,
        },
    }
}

fn tail_how(tail: &[u8]) -> How
    ensures { result ≡ tail_how tail.now }
{
    match tail.first() {
        None => How::Flag,
        Some(b'[') => How::Optional,
        Some(b'=') => How::Value,
        Some(_) => How::Word,
    }
}

/// How the value of an option of this syntax is given.
pub fn syntax_how(text: &str) -> How
    ensures { result ≡ syntax_how text.now }
{
    let mut rest = text;
    while let Some((word, after)) = split_word(rest) {
        match tail_how(word_tail(word).as_bytes()) {
            How::Flag => rest = after,
            found => return found,
        }
    }
    tail_how(word_tail(rest).as_bytes())
}
