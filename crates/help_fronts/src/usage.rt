//! The options in a line of a usage.
ghost use Rattle.std.specs.Prelude.{◌≡◌, ◌++◌, ◌∷◌, ◌<◌, ◌≤◌, [], length, map, take, IfOk, IfSome, MatchOption, OnOk};
ghost use Rattle.help_fronts.specs.Usages as spec;
ghost use Rattle.help_fronts.specs.View.{used_said, word_said};

use crate::bytes::{Class, byte_at, free_len, is_blank, is_closing, is_divider, without_front};
use crate::pieces::{deeper, is_cut};
use crate::words::{is_in_capitals, is_name, name, value_word, without_joints};
use std::alloc::{AllocError, Allocator};

/// An option in a usage.
#[derive(Clone, Copy)]
pub struct UsageOption<'a> {
    /// With its dashes.
    pub name: &'a str,
    /// The byte directly after the name, as `=` or a bracket, if the value is in one word with it; else a blank.
    pub joint: u8,
    /// What is said of its value, with brackets; empty if nothing is.
    pub value: &'a str,
}

// A word, and what stands after it.
#[derive(Clone, Copy)]
struct Word<'a> {
    text: &'a str,
    after: &'a str,
}

// The first word of a text, if others stand after it, and these.
fn split_word(line: &str) -> Option<(Word<'_>, &str)>
    ensures words { MatchOption result (spec.usage_words line.now ≡ spec.last_word line.now ∷ [])
        (λ p. spec.usage_words line.now ≡ word_said p.0 ∷ spec.usage_words p.1.now) }
    ensures shorter { IfSome result (λ p. length p.1.now < length line.now) }
{
    let len = free_len(line.as_bytes(), Class::UsageMark);
    if len < line.len() {
        let word = Word {
            text: &line[..len],
            after: &line[len..],
        };
        Some((word, &line[len + 1..]))
    } else {
        None
    }
}

// ---- the text of a value

fn ends_value(depth: usize, before: u8, byte: u8) -> bool
    ensures { result ≡ spec.ends_value depth before byte }
{
    is_cut(depth, before, byte) || (depth == 0 && is_closing(byte))
}

fn value_len(bytes: &[u8]) -> usize
    ensures exact { result ≡ spec.value_len 0 32 bytes.now }
    ensures within { result ≤ length bytes.now }
{
    let mut depth = 0;
    let mut before = b' ';
    for (index, byte) in bytes.iter().enumerate() {
        if ends_value(depth, before, *byte) {
            return index;
        }
        depth = deeper(depth, *byte);
        before = *byte;
    }
    bytes.len()
}

// The first bytes of a text: one more than a value may have.
fn first_bytes(text: &str) -> &[u8]
    ensures { result.now ≡ take 201 text.now }
{
    let bytes = text.as_bytes();
    let (first, _) = bytes.split_at(bytes.len().min(201));
    first
}

fn at_most(most: usize, len: usize) -> usize
    ensures { result ≡ spec.at_most most len }
{
    if len > most { 0 } else { len }
}

fn len_of_value(text: &str) -> usize
    ensures { result ≡ spec.len_of_value text.now }
{
    at_most(200, value_len(first_bytes(text)))
}

// The value that a text begins with, and what stands after it.
fn split_value(text: &str) -> (&str, &str)
    ensures value { result.0.now ≡ spec.value_in text.now }
    ensures after { result.1.now ≡ spec.left_after_value text.now }
{
    text.split_at(len_of_value(text))
}

// ---- values

fn is_joined(after: &str) -> bool
    ensures { result ≡ spec.is_joined after.now }
{
    let first = byte_at(after, 0);
    first == b'=' || first == b'<' || (first == b'[' && byte_at(after, 1) == b'=')
}

fn is_no_option(value: &str) -> bool
    ensures { result ≡ spec.is_no_option value.now }
{
    !(is_divider(byte_at(value, 0)) || is_name(without_front(value, Class::Lead)))
}

fn is_end(after: &str) -> bool
    ensures { result ≡ spec.is_end after.now }
{
    let first = byte_at(after, 0);
    is_closing(first) || (is_blank(first) && byte_at(after, 1) == b'|')
}

// Whether a word after a blank is a value.
fn is_apart(value: &str, after: &str) -> bool
    ensures { result ≡ spec.is_apart value.now after.now }
{
    is_no_option(value) && (is_end(after) || byte_at(value, 0) == b'<' || is_in_capitals(value))
}

fn apart(text: &str) -> &str
    ensures { result.now ≡ spec.apart text.now }
{
    let (value, after) = split_value(text);
    if is_apart(value, after) { value } else { "" }
}

fn value_after(after: &str) -> &str
    ensures { result.now ≡ spec.value_after after.now }
{
    if is_joined(after) {
        let (value, _) = split_value(after);
        value
    } else if byte_at(after, 0) == b' ' {
        apart(&after[1..])
    } else {
        ""
    }
}

fn joint_after(after: &str) -> u8
    ensures { result ≡ spec.joint_after after.now }
{
    if is_joined(after) {
        byte_at(after, 0)
    } else {
        b' '
    }
}

// ---- options

// The option of this name, with the value and the byte before it; without both,
// where no word for a value is left of the text.
fn used_with<'a>(name: &'a str, joint: u8, value: &'a str) -> UsageOption<'a>
    ensures { used_said result ≡ spec.used_with name.now joint value.now }
{
    if value_word(value).is_empty() {
        UsageOption {
            name,
            joint: b' ',
            value: "",
        }
    } else {
        UsageOption { name, joint, value }
    }
}

fn is_of_python(before: &str, word: &str) -> bool
    ensures { result ≡ spec.is_of_python before.now word.now }
{
    word == "-m" && before.starts_with("python")
}

fn is_own(before: &str, word: &str) -> bool
    ensures { result ≡ spec.is_own before.now word.now }
{
    is_name(word) && !is_of_python(before, word)
}

// Puts the option that a word is, if it is one.
fn push_option<'a, A: Allocator>(
    options: &mut Vec<UsageOption<'a>, A>,
    before: &str,
    word: Word<'a>,
) -> Result<(), AllocError>
    ensures { OnOk result (map used_said options.new.items
        ≡ map used_said options.old.items ++ spec.option_of before.now (word_said word.entry)) }
{
    if is_own(before, word.text) {
        let value = without_joints(value_after(word.after));
        options.push(used_with(name(word.text), joint_after(word.after), value))?;
    }
    Ok(())
}

/// The options in a line of a usage, in their order, each with what is said of its value.
///
/// # Errors
///
/// Memory.
pub fn usage_options<'a, A: Allocator + Copy>(
    alloc: A,
    line: &'a str,
) -> Result<Vec<UsageOption<'a>, A>, AllocError>
    ensures { IfOk result (λ found. map used_said found.items ≡ spec.usage_options line.now) }
{
    let mut options = Vec::new(alloc);
    let mut before = "";
    let mut rest = line;
    while let Some((word, after)) = split_word(rest) {
        push_option(&mut options, before, word)?;
        before = word.text;
        rest = after;
    }
    let last = Word {
        text: rest,
        after: "",
    };
    push_option(&mut options, before, last)?;
    Ok(options)
}
