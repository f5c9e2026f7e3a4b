//! Which words of a line belong to its front.
ghost use Rattle.std.specs.Prelude.{◌≡◌, ◌++◌, ◌∷◌, ◌<◌, [], length, map, IfOk, IfSome, MatchOption, OnOk};
ghost use Rattle.std.specs.List.{concat};
ghost use Rattle.help_fronts.specs.Pieces.{pieces, word};
ghost use Rattle.help_fronts.specs.Fronts as spec;

use crate::bytes::{Class, byte_at, is_blank, is_closing, is_divider, last_byte, without_end};
use crate::pieces::{first_piece, first_word, word};
use crate::words::{
    bare_word, has_form_of_value, is_bare_name, is_bracketed, is_command, is_dots, is_in_capitals,
    is_joiner, is_long, is_name, is_short, leads_on,
};
use std::alloc::{AllocError, Allocator};

/// What a line begins with.
#[derive(Clone, Copy)]
pub enum Kind {
    Option,
    Command,
}

fn is_mark(byte: u8) -> bool
    ensures { result ≡ spec.is_mark byte }
{
    byte == b':' || byte == b'-'
}

fn is_gap(word: &str) -> bool
    ensures { result ≡ spec.is_gap word.now }
{
    let first = byte_at(word, 0);
    first <= b' ' || (word.len() == 1 && is_mark(first))
}

fn ends_with(word: &str, next: &str) -> bool
    ensures { result ≡ spec.ends_with word.now next.now }
{
    is_gap(next)
        || byte_at(next, 0) == b'['
        || last_byte(word) == b':'
        || (leads_on(word) && is_name(next))
}

fn is_last_value(word: &str, next: &str) -> bool
    ensures { result ≡ spec.is_last_value word.now next.now }
{
    byte_at(word, 0) != b'(' && ends_with(word, next)
}

fn is_marked_value(before: &str, word: &str, next: &str) -> bool
    ensures { result ≡ spec.is_marked_value before.now word.now next.now }
{
    is_bracketed(word) || (is_in_capitals(word) && (!is_closing(last_byte(before)) || is_gap(next)))
}

fn is_repetition(before: &str, word: &str) -> bool
    ensures { result ≡ spec.is_repetition before.now word.now }
{
    is_dots(word) && !(is_bare_name(before) || is_joiner(before))
}

fn is_value(before: &str, word: &str, next: &str) -> bool
    ensures { result ≡ spec.is_value before.now word.now next.now }
{
    !leads_on(before)
        && (is_marked_value(before, word, next)
            || (is_bare_name(before) && is_last_value(word, next)))
}

fn is_other_name(before: &str, word: &str) -> bool
    ensures { result ≡ spec.is_other_name before.now word.now }
{
    leads_on(before) || before.is_empty() || (is_short(before) && is_long(word))
}

fn fits_option(before: &str, word: &str, next: &str) -> bool
    ensures { result ≡ spec.fits_option before.now word.now next.now }
{
    if is_name(word) {
        is_other_name(before, word)
    } else if is_repetition(before, word) {
        true
    } else if is_joiner(word) {
        is_name(next)
    } else {
        is_value(before, word, next)
    }
}

fn fits_command(before: &str, word: &str) -> bool
    ensures { result ≡ spec.fits_command before.now word.now }
{
    if leads_on(before) {
        is_command(bare_word(word))
    } else {
        has_form_of_value(word)
    }
}

// Whether a word fits between those beside it.
fn fits(kind: Kind, before: &str, word: &str, next: &str) -> bool
    ensures { result ≡ spec.fits kind before.now word.now next.now }
{
    match kind {
        Kind::Option => fits_option(before, word, next),
        Kind::Command => fits_command(before, word),
    }
}

fn is_second_blank(kind: Kind, before: &str, word: &str, next: &str) -> bool
    ensures { result ≡ spec.is_second_blank kind before.now word.now next.now }
{
    match kind {
        Kind::Option => word.is_empty() && is_divider(last_byte(before)) && is_name(next),
        Kind::Command => false,
    }
}

/// Whether a word belongs to a front, by the words beside it.
pub fn belongs(kind: Kind, before: &str, word: &str, next: &str) -> bool
    ensures { result ≡ spec.belongs kind before.now word.now next.now }
{
    is_second_blank(kind, before, word, next)
        || (!is_gap(word) && last_byte(before) != b':' && fits(kind, before, word, next))
}

// The first piece, if it belongs to the front, and what stands after it.
fn next_piece<'a>(kind: Kind, before: &str, rest: &'a str) -> Option<(&'a str, &'a str)>
    ensures belonging { MatchOption result (spec.belonging kind before.now (pieces rest.now) ≡ [])
        (λ p. spec.belonging kind before.now (pieces rest.now) ≡ p.0.now ∷ spec.belonging kind (word p.0.now) (pieces p.1.now)) }
    ensures whole { IfSome result (λ p. rest.now ≡ p.0.now ++ p.1.now) }
    ensures shorter { IfSome result (λ p. length p.1.now < length rest.now) }
{
    let (piece, after) = first_piece(rest)?;
    if belongs(kind, before, word(piece), first_word(after)) {
        Some((piece, after))
    } else {
        None
    }
}

// Puts the words that belong to a front after others, the last of which is `before`. What stands after them.
fn push_words<'a, A: Allocator>(
    kind: Kind,
    words: &mut Vec<&'a str, A>,
    before: &'a str,
    after: &'a str,
) -> Result<&'a str, AllocError>
    ensures words { OnOk result (map (λ w. w.now) words.new.items
        ≡ map (λ w. w.now) words.old.items ++ map word (spec.belonging kind before.now (pieces after.now))) }
    ensures rest { IfOk result (λ rest. after.now ≡ concat (spec.belonging kind before.now (pieces after.now)) ++ rest.now) }
{
    let mut last = before;
    let mut rest = after;
    while let Some((piece, others)) = next_piece(kind, last, rest) {
        last = word(piece);
        words.push(last)?;
        rest = others;
    }
    Ok(rest)
}

// How many bytes the gap before a help has.
fn gap_len(text: &str) -> usize
    ensures { result ≡ spec.gap_len text.now }
{
    let mut len = 0;
    while len < text.len() && is_in_gap(byte_at(text, len), byte_at(text, len + 1)) {
        len += 1;
    }
    len
}

// Whether a byte is a blank, or a mark before a blank or the end.
fn is_in_gap(byte: u8, next: u8) -> bool
    ensures { result ≡ spec.is_in_gap byte next }
{
    is_blank(byte) || (is_mark(byte) && next <= b' ')
}

/// The name of a command: the first word, without `,` or `:` after it.
pub fn command_name(word: &str) -> &str
    ensures { result.now ≡ spec.command_name word.now }
{
    without_end(word, Class::Joint)
}

fn begins_front(kind: Kind, word: &str) -> bool
    ensures { result ≡ spec.begins_front kind word.now }
{
    match kind {
        Kind::Option => is_name(word),
        Kind::Command => is_command(command_name(word)),
    }
}

/// The first piece of a text that begins with such a front, and what stands after it.
pub fn first_of_front(kind: Kind, text: &str) -> Option<(&str, &str)>
    ensures front { MatchOption result (spec.front kind (pieces text.now) ≡ [])
        (λ p. spec.front kind (pieces text.now) ≡ spec.front_from kind p.0.now (pieces p.1.now)) }
    ensures whole { IfSome result (λ p. text.now ≡ p.0.now ++ p.1.now) }
{
    let (first, after) = first_piece(text)?;
    if begins_front(kind, word(first)) {
        Some((first, after))
    } else {
        None
    }
}

/// A text, cut after its front, with the words of the front.
#[derive(Drop)]
pub struct Cut<'a, A: Allocator> {
    pub words: Vec<&'a str, A>,
    pub written: &'a str,
    pub gap: &'a str,
    pub help: &'a str,
}

/// Cuts a text, of which the first piece of the front is known.
pub fn cut_front<'a, A: Allocator + Copy>(
    alloc: A,
    kind: Kind,
    text: &'a str,
    first: &'a str,
    after: &'a str,
) -> Result<Cut<'a, A>, AllocError>
    requires { text.now ≡ first.now ++ after.now }
    ensures words { IfOk result (λ c. map (λ w. w.now) c.words.items ≡ map word (spec.front_from kind first.now (pieces after.now))) }
    ensures written { IfOk result (λ c. c.written.now ≡ concat (spec.front_from kind first.now (pieces after.now))) }
    ensures gap { IfOk result (λ c. c.gap.now ≡ spec.gap_of (spec.after_front (spec.front_from kind first.now (pieces after.now)) text.now)) }
    ensures help { IfOk result (λ c. c.help.now ≡ spec.help_of (spec.after_front (spec.front_from kind first.now (pieces after.now)) text.now)) }
    ensures whole { IfOk result (λ c. text.now ≡ (c.written.now ++ c.gap.now) ++ c.help.now) }
{
    let mut words = Vec::new(alloc);
    words.push(word(first))?;
    let rest = push_words(kind, &mut words, word(first), after)?;
    let (written, rest) = text.split_at(text.len() - rest.len());
    let (gap, help) = rest.split_at(gap_len(rest));
    Ok(Cut {
        words,
        written,
        gap,
        help,
    })
}
