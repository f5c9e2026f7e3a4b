//! How an option is written.
ghost use Rattle.std.specs.Prelude.{◌≡◌, ◌++◌, ◌==◌, ◌||◌, ◌≤◌, IfOk, OnOk, flat_map, map, reverse, string_bytes};
ghost use Rattle.std.specs.List.{list_all, list_any, slice_index};
ghost use Rattle.help_fronts.specs.Bytes.{is_blank, is_bracket, is_closing, is_opening};
ghost use Rattle.help_fronts.specs.View.{said};
ghost use Rattle.toml_pieces.specs.View.{text_of};
ghost use Rattle.drafts.specs.Seen as seen;
ghost use Rattle.drafts.specs.Options as spec;

use crate::notes::after;
use crate::seen::{are_names, are_words, last_byte};
use help_fronts::{OptionFront, is_optional};
use std::alloc::{AllocError, Allocator};
use toml_pieces::{push_escaped, push_optional};

/// The byte at a place, and 0 where there is none.
pub fn byte_at(text: &[u8], index: usize) -> u8
    ensures { result ≡ slice_index text.now index }
{
    if index < text.len() { text[index] } else { 0 }
}

pub fn is_blank(byte: u8) -> bool
    ensures { result ≡ is_blank byte }
{
    byte == b' ' || byte == b'\t'
}

fn is_opening(byte: u8) -> bool
    ensures { result ≡ is_opening byte }
{
    byte == b'[' || byte == b'(' || byte == b'<' || byte == b'{'
}

fn is_closing(byte: u8) -> bool
    ensures { result ≡ is_closing byte }
{
    byte == b']' || byte == b')' || byte == b'>' || byte == b'}'
}

fn has_bracket(text: &[u8]) -> bool
    ensures { result ≡ list_any is_bracket text.now }
{
    text.iter()
        .any(|byte| is_opening(*byte) || is_closing(*byte))
}

// ---- names

fn is_dashed(name: &[u8]) -> bool
    ensures { result ≡ spec.is_dashed name.now }
{
    byte_at(name, 0) == b'-' && byte_at(name, 1) == b'-'
}

fn is_short(name: &str) -> bool
    ensures { result ≡ spec.is_short name.now }
{
    let bytes = name.as_bytes();
    byte_at(bytes, 0) == b'-' && bytes.len() == 2 && byte_at(bytes, 1) != b'-'
}

fn is_long(name: &str) -> bool
    ensures { result ≡ spec.is_long name.now }
{
    is_dashed(name.as_bytes()) && name.len() > 2 && !has_bracket(name.as_bytes())
}

fn letter_of(name: &str) -> Option<&str>
    ensures { text_of result ≡ spec.letter_of name.now }
{
    if is_short(name) {
        Some(&name[1..])
    } else {
        None
    }
}

fn word_of(name: &str) -> Option<&str>
    ensures { text_of result ≡ spec.word_of name.now }
{
    if is_long(name) {
        Some(&name[2..])
    } else {
        None
    }
}

// The letter of the first short name.
fn short_letter<'a>(names: &[&'a str]) -> Option<&'a str>
    ensures { text_of result ≡ spec.short_letter (map (λ n. n.now) names.now) }
{
    for name in names {
        if let Some(letter) = letter_of(name) {
            return Some(letter);
        }
    }
    None
}

// The first long name, without its dashes.
fn long_word<'a>(names: &[&'a str]) -> Option<&'a str>
    ensures { text_of result ≡ spec.long_word (map (λ n. n.now) names.now) }
{
    for name in names {
        if let Some(word) = word_of(name) {
            return Some(word);
        }
    }
    None
}

fn count(name: Option<&str>) -> usize
    ensures exact { result ≡ spec.count (text_of name.entry) }
    ensures small { result ≤ 1 }
{
    match name {
        None => 0,
        Some(_) => 1,
    }
}

// Whether there is one short name at most, one long name at most, and no other.
fn are_plain(names: &[&str]) -> bool
    ensures { result ≡ spec.are_plain (map (λ n. n.now) names.now) }
{
    names.len() == count(short_letter(names)) + count(long_word(names))
}

fn is_plain_value(value: &str) -> bool
    ensures { result ≡ spec.is_plain_value value.now }
{
    byte_at(value.as_bytes(), 0) != b'{' && last_byte(value.as_bytes()) != b'.'
}

fn are_plain_values(values: &[&str]) -> bool
    ensures { result ≡ list_all spec.is_plain_value (map (λ v. v.now) values.now) }
{
    for value in values {
        if !is_plain_value(value) {
            return false;
        }
    }
    true
}

fn is_plain_word(word: Option<&str>) -> bool
    ensures { result ≡ spec.is_plain_word (text_of word.entry) }
{
    match word {
        None => true,
        Some(word) => !has_bracket(word.as_bytes()),
    }
}

fn has_plain_value<A: Allocator>(front: &OptionFront<'_, A>) -> bool
    ensures { result ≡ spec.has_plain_value (said front.now) }
{
    front.values.len() <= 1
        && are_plain_values(&front.values)
        && (front.joint == b' ' || front.joint == b'=')
        && is_plain_word(front.value)
        && !front.is_optional
}

fn is_plain<A: Allocator>(front: &OptionFront<'_, A>) -> bool
    ensures { result ≡ spec.is_plain (said front.now) }
{
    are_plain(&front.names) && has_plain_value(front)
}

// ---- the syntax

// What stands between the names and the first value.
fn joint_text(joint: u8) -> &'static str
    ensures { result.now ≡ spec.joint_text joint }
{
    if joint == b'=' {
        "="
    } else if joint == b':' {
        ":"
    } else if is_opening(joint) {
        ""
    } else {
        " "
    }
}

fn has_way_mark(value: &[u8]) -> bool
    ensures { result ≡ list_any spec.is_way_mark value.now }
{
    value.iter().any(|byte| *byte == b',' || *byte == b'|')
}

fn is_loose(value: &[u8]) -> bool
    ensures { result ≡ spec.is_loose value.now }
{
    let first = byte_at(value, 0);
    !is_opening(first) && (first == b'-' || has_way_mark(value))
}

fn push_shown_value<A: Allocator>(out: &mut String<A>, value: &str) -> Result<(), AllocError>
    ensures { OnOk result (string_bytes out.new ≡ string_bytes out.old ++ spec.shown_value value.now) }
{
    if !is_loose(value.as_bytes()) {
        return push_escaped(out, value);
    }
    out.push_str("<")?;
    push_escaped(out, value)?;
    out.push_str(">")
}

fn push_further_values<A: Allocator>(out: &mut String<A>, values: &[&str]) -> Result<(), AllocError>
    ensures { OnOk result (string_bytes out.new
        ≡ string_bytes out.old ++ flat_map spec.further_value (map (λ v. v.now) values.now)) }
{
    for value in values {
        out.push_str(" ")?;
        push_shown_value(out, value)?;
    }
    Ok(())
}

fn push_values_syntax<A: Allocator>(
    out: &mut String<A>,
    joint: u8,
    values: &[&str],
) -> Result<(), AllocError>
    ensures { OnOk result (string_bytes out.new
        ≡ string_bytes out.old ++ spec.values_syntax joint (map (λ v. v.now) values.now)) }
{
    match values {
        [] => Ok(()),
        [first, others @ ..] => {
            out.push_str(joint_text(joint))?;
            push_shown_value(out, first)?;
            push_further_values(out, others)
        }
    }
}

fn lacks_brackets<A: Allocator>(front: &OptionFront<'_, A>) -> bool
    ensures { result ≡ spec.lacks_brackets (said front.now) }
{
    match front.values.as_slice() {
        [] => front.is_optional,
        [first, ..] => front.is_optional && !is_optional(first),
    }
}

// An optional value that has no brackets gets them.
fn push_shown_values<A: Allocator, B: Allocator>(
    out: &mut String<A>,
    front: &OptionFront<'_, B>,
) -> Result<(), AllocError>
    ensures { OnOk result (string_bytes out.new ≡ string_bytes out.old ++ spec.shown_values (said front.now)) }
{
    if lacks_brackets(front) {
        out.push_str("[")?;
        push_values_syntax(out, front.joint, &front.values)?;
        out.push_str("]")
    } else {
        push_values_syntax(out, front.joint, &front.values)
    }
}

fn push_further_names<A: Allocator>(out: &mut String<A>, names: &[&str]) -> Result<(), AllocError>
    ensures { OnOk result (string_bytes out.new
        ≡ string_bytes out.old ++ flat_map spec.further_name (map (λ n. n.now) names.now)) }
{
    for name in names {
        out.push_str(", ")?;
        push_escaped(out, name)?;
    }
    Ok(())
}

fn push_names<A: Allocator>(out: &mut String<A>, names: &[&str]) -> Result<(), AllocError>
    ensures { OnOk result (string_bytes out.new
        ≡ string_bytes out.old ++ spec.names_syntax (map (λ n. n.now) names.now)) }
{
    match names {
        [] => Ok(()),
        [first, others @ ..] => {
            push_escaped(out, first)?;
            push_further_names(out, others)
        }
    }
}

/// What stands after a beginning, if there is a text that has it.
pub fn after_in<'a>(beginning: &str, text: Option<&'a str>) -> Option<&'a str>
    ensures { text_of result ≡ spec.after_in beginning.now (text_of text.entry) }
{
    match text {
        None => None,
        Some(text) => after(beginning, text),
    }
}

fn is_text(text: &str, found: Option<&str>) -> bool
    ensures { result ≡ spec.is_text text.now (text_of found.entry) }
{
    match found {
        None => false,
        Some(found) => found == text,
    }
}

// Whether the names are from one to another, as `-0 ... -9`.
fn is_range_of(first: &str, last: &str, written: &str) -> bool
    ensures { result ≡ spec.is_range_of first.now last.now written.now }
{
    is_text(last, after_in(" ... ", after(first, written)))
}

fn is_range(names: &[&str], written: &str) -> bool
    ensures { result ≡ spec.is_range (map (λ n. n.now) names.now) written.now }
{
    match names {
        [first, last] => is_range_of(first, last, written),
        _ => false,
    }
}

fn push_shown_names<A: Allocator, B: Allocator>(
    out: &mut String<A>,
    front: &OptionFront<'_, B>,
) -> Result<(), AllocError>
    ensures { OnOk result (string_bytes out.new ≡ string_bytes out.old ++ spec.shown_names (said front.now)) }
{
    if is_range(&front.names, front.written) {
        push_escaped(out, front.written)
    } else {
        push_names(out, &front.names)
    }
}

fn push_plain<A: Allocator>(
    out: &mut String<A>,
    names: &[&str],
    value: Option<&str>,
) -> Result<(), AllocError>
    ensures { OnOk result (string_bytes out.new
        ≡ string_bytes out.old ++ spec.plain_spelling (map (λ n. n.now) names.now) (text_of value.entry)) }
{
    push_optional(out, "short", short_letter(names))?;
    push_optional(out, "long", long_word(names))?;
    push_optional(out, "value", value)
}

fn push_syntax<A: Allocator, B: Allocator>(
    out: &mut String<A>,
    front: &OptionFront<'_, B>,
) -> Result<(), AllocError>
    ensures { OnOk result (string_bytes out.new ≡ string_bytes out.old ++ spec.syntax_spelling (said front.now)) }
{
    out.push_str("syntax = \"")?;
    push_shown_names(out, front)?;
    push_shown_values(out, front)?;
    out.push_str("\"\n")
}

/// Writes how an option is called.
pub fn push_spelling<A: Allocator, B: Allocator>(
    out: &mut String<A>,
    front: &OptionFront<'_, B>,
) -> Result<(), AllocError>
    ensures { OnOk result (string_bytes out.new ≡ string_bytes out.old ++ spec.spelling (said front.now)) }
{
    if is_plain(front) {
        push_plain(out, &front.names, front.value)
    } else {
        push_syntax(out, front)
    }
}

// ---- what may be written

fn closes(opening: u8, closing: u8) -> bool
    ensures { result ≡ spec.closes opening closing }
{
    (opening == b'[' && closing == b']')
        || (opening == b'(' && closing == b')')
        || (opening == b'<' && closing == b'>')
        || (opening == b'{' && closing == b'}')
}

fn put_bracket<A: Allocator>(left: &mut Vec<u8, A>, byte: u8) -> Result<(), AllocError>
    ensures { OnOk result (reverse left.new.items ≡ spec.with_bracket (reverse left.old.items) byte) }
{
    let is_closed = match left.last() {
        None => false,
        Some(opening) => closes(*opening, byte),
    };
    if is_closed {
        left.pop();
    } else {
        left.push(byte)?;
    }
    Ok(())
}

fn put_byte<A: Allocator>(left: &mut Vec<u8, A>, byte: u8) -> Result<(), AllocError>
    ensures { OnOk result (reverse left.new.items ≡ spec.with_byte (reverse left.old.items) byte) }
{
    if is_opening(byte) || is_closing(byte) {
        put_bracket(left, byte)
    } else {
        Ok(())
    }
}

fn are_paired<A: Allocator>(alloc: A, text: &[u8]) -> Result<bool, AllocError>
    ensures { IfOk result (λ paired. paired ≡ spec.are_paired text.now) }
{
    let mut left = Vec::new(alloc);
    for byte in text {
        put_byte(&mut left, *byte)?;
    }
    Ok(left.is_empty())
}

fn goes_on(byte: u8) -> bool
    ensures { result ≡ spec.goes_on byte }
{
    byte > b' ' && byte != b','
}

fn has_full_parts(text: &[u8]) -> bool
    ensures { result ≡ spec.has_full_parts text.now }
{
    let mut rest = text;
    while let [first, more @ ..] = rest {
        if *first == b',' && !goes_on(byte_at(more, 0)) {
            return false;
        }
        rest = more;
    }
    true
}

fn is_syntax_part<A: Allocator>(alloc: A, text: &[u8]) -> Result<bool, AllocError>
    ensures { IfOk result (λ good. good ≡ spec.is_syntax_part text.now) }
{
    let are_paired = are_paired(alloc, text)?;
    Ok(are_paired && has_full_parts(text))
}

fn are_syntax_parts<A: Allocator + Copy>(alloc: A, names: &[&str]) -> Result<bool, AllocError>
    ensures { IfOk result (λ good. good ≡ list_all spec.is_syntax_part (map (λ n. n.now) names.now)) }
{
    for name in names {
        if !is_syntax_part(alloc, name.as_bytes())? {
            return Ok(false);
        }
    }
    Ok(true)
}

fn is_syntax_good<A: Allocator + Copy, B: Allocator>(
    alloc: A,
    front: &OptionFront<'_, B>,
) -> Result<bool, AllocError>
    ensures { IfOk result (λ good. good ≡ spec.is_syntax_good (said front.now)) }
{
    let names = are_syntax_parts(alloc, &front.names)?;
    let values = are_syntax_parts(alloc, &front.values)?;
    Ok(names && values)
}

/// Whether a description takes an option so.
pub fn is_good<A: Allocator + Copy, B: Allocator>(
    alloc: A,
    front: &OptionFront<'_, B>,
) -> Result<bool, AllocError>
    ensures { IfOk result (λ good. good ≡ spec.is_good (said front.now)) }
{
    if !are_names(&front.names) || !are_words(&front.values) {
        Ok(false)
    } else if is_plain(front) {
        Ok(true)
    } else {
        is_syntax_good(alloc, front)
    }
}

// ---- names that are taken

fn has_negation(name: &[u8]) -> bool
    ensures { result ≡ spec.has_negation name.now }
{
    name.len() > 8 && name.starts_with(b"--[no-]")
}

fn long_key(name: &[u8]) -> &[u8]
    ensures { result.now ≡ spec.long_key name.now }
{
    if name.len() == 3 {
        &name[1..]
    } else {
        &name[name.len().min(2)..]
    }
}

fn short_key(name: &[u8]) -> &[u8]
    ensures { result.now ≡ spec.short_key name.now }
{
    if name.len() == 2 { &name[1..] } else { name }
}

/// What of a name no other option of its level may have.
pub fn key(name: &str) -> &[u8]
    ensures { result.now ≡ spec.key name.now }
{
    let bytes = name.as_bytes();
    if has_negation(bytes) {
        &bytes[7..]
    } else if is_dashed(bytes) {
        long_key(bytes)
    } else {
        short_key(bytes)
    }
}
