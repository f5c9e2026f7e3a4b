//! The syntax of an option: the names in it, and whether it is well formed.
ghost use Rattle.std.specs.Prelude.{◌≡◌, ◌++◌, ◌∷◌, ◌-◌, ◌<◌, ◌≤◌, ◌+◌, ◌==◌, ◌&&◌, [], take, drop, length, not};
ghost use Rattle.std.specs.Prelude.{if◌then◌else◌, count_by, filter, flat_map, fold, option_to_list, reverse};
ghost use Rattle.std.specs.Prelude.{false, IfOk, IfSome, OnOk, MatchOption};
ghost use Rattle.std.specs.List.{list_all, prefix_len, slice_index};
ghost use Rattle.description.specs.View.{text_of};
ghost use Rattle.description_toml.specs.Described.Steps.{words_of};
ghost use Rattle.description_toml.specs.Described.Taken.{without_dashes};
ghost use Rattle.description_toml.specs.Described.Texts.{begins};
ghost use Rattle.description_toml.specs.Syntax.{are_paired, closes, has_form_of_name, has_ink, has_letter, is_bracket, is_closing};
ghost use Rattle.description_toml.specs.Syntax.{is_lead, is_name, is_negated, is_opening, is_place, is_same, is_separator};
ghost use Rattle.description_toml.specs.Syntax.{parts, pieces, stretch_names, stretches, syntax_names, with_bracket};
ghost use Rattle.description_toml.specs.Syntax.Steps.{is_in};

use std::alloc::{AllocError, Allocator};

// What a long name begins with.
const DASHES: &str = "--";

// What stands before a name that has a form with `no-` and one without.
const NEGATION: &str = "--[no-]";

// What the bytes of a stretch are, or are not.
#[derive(Clone, Copy)]
enum Class {
    Separator,
    Opening,
    Closing,
}

impl Class {
    fn holds(self, byte: u8) -> bool
        ensures { result ≡ is_in self byte }
    {
        match self {
            Class::Separator => is_separator(byte),
            Class::Opening => is_opening(byte),
            Class::Closing => is_closing(byte),
        }
    }
}

fn is_opening(byte: u8) -> bool
    ensures { result ≡ is_opening byte }
{
    byte == b'[' || byte == b'(' || byte == b'<' || byte == b'{'
}

fn is_closing(byte: u8) -> bool
    ensures { result ≡ is_closing byte }
{
    byte == b']' || byte == b')' || byte == b'>' || byte == b'}'
}

// Whether a name may stand directly after the byte.
fn is_lead(byte: u8) -> bool
    ensures { result ≡ is_lead byte }
{
    byte == b' ' || byte == b',' || byte == b'|' || is_opening(byte)
}

fn is_separator(byte: u8) -> bool
    ensures { result ≡ is_separator byte }
{
    is_lead(byte) || byte == b'=' || is_closing(byte)
}

fn is_same(one: bool, other: bool) -> bool
    ensures { result ≡ is_same one other }
{
    if one { other } else { !other }
}

// ---- stretches

// The first of the longest stretches of a text whose bytes all are, or all are not, of a class, and what follows it.
fn first_stretch(text: &str, class: Class) -> Option<(&str, &str)>
    ensures stretches { MatchOption result (stretches (is_in class) text.now ≡ [])
        (λ p. stretches (is_in class) text.now ≡ p.0.now ∷ stretches (is_in class) p.1.now) }
    ensures whole { IfSome result (λ p. text.now ≡ p.0.now ++ p.1.now) }
    ensures shorter { IfSome result (λ p. length p.1.now < length text.now) }
{
    let first = *text.as_bytes().first()?;
    let len = alike_len(text.as_bytes(), class, class.holds(first));
    Some(text.split_at(len))
}

// How many bytes at the front are all of the class, or all not of it.
fn alike_len(bytes: &[u8], class: Class, are_in: bool) -> usize
    ensures { result ≡ prefix_len (λ byte. is_same are_in (is_in class byte)) bytes.now }
{
    for (index, byte) in bytes.iter().enumerate() {
        if !is_same(are_in, class.holds(*byte)) {
            return index;
        }
    }
    bytes.len()
}

// What stands before the end of a text.
fn before<'a>(text: &'a str, end: &str) -> &'a [u8]
    requires { length end.now ≤ length text.now }
    ensures { result.now ≡ take (length text.now - length end.now) text.now }
{
    &text.as_bytes()[..text.len() - end.len()]
}

// ---- names

fn has_letter(bytes: &[u8]) -> bool
    ensures { result ≡ has_letter bytes.now }
{
    bytes.iter().any(|byte| *byte != b'-')
}

fn has_form_of_name(run: &[u8]) -> bool
    ensures { result ≡ has_form_of_name run.now }
{
    match run.first() {
        None => false,
        Some(first) => *first == b'-' && has_letter(run),
    }
}

// Whether a name may stand after these bytes.
fn is_place(before: &[u8]) -> bool
    ensures { result ≡ is_place before.now }
{
    match before.last() {
        None => true,
        Some(last) => is_lead(*last),
    }
}

fn is_name(before: &[u8], run: &[u8]) -> bool
    ensures { result ≡ is_name before.now run.now }
{
    is_place(before) && has_form_of_name(run)
}

// Whether a run stands directly after a negation.
fn is_negated(before: &[u8], run: &[u8]) -> bool
    ensures { result ≡ is_negated before.now run.now }
{
    let negation = NEGATION.as_bytes();
    before.ends_with(negation)
        && is_place(&before[..before.len() - negation.len()])
        && has_letter(run)
}

// ---- the names that count

fn count(bytes: &[u8], class: Class) -> usize
    ensures { result ≡ count_by (is_in class) bytes.now }
{
    let mut count = 0;
    for byte in bytes {
        count += usize::from(class.holds(*byte));
    }
    count
}

/// Appends the names of a syntax that stand outside brackets and begin with two dashes, or with one, without these
/// dashes. After `AllocError` some of them may have been appended.
pub fn put_names<'a, A: Allocator>(
    names: &mut Vec<&'a str, A>,
    text: &'a str,
    are_two: bool,
) -> Result<(), AllocError>
    ensures { OnOk result (words_of names.new.items ≡ words_of names.old.items
        ++ flat_map (without_dashes are_two) (syntax_names text.now)) }
{
    let mut rest = text;
    let mut opened = 0;
    let mut closed = 0;
    while let Some((stretch, after)) = first_stretch(rest, Class::Separator) {
        put_name(
            names,
            opened == closed,
            before(text, rest),
            stretch,
            are_two,
        )?;
        opened += count(stretch.as_bytes(), Class::Opening);
        closed += count(stretch.as_bytes(), Class::Closing);
        rest = after;
    }
    Ok(())
}

fn put_name<'a, A: Allocator>(
    names: &mut Vec<&'a str, A>,
    is_outside: bool,
    before: &[u8],
    stretch: &'a str,
    are_two: bool,
) -> Result<(), AllocError>
    ensures { OnOk result (words_of names.new.items ≡ words_of names.old.items
        ++ flat_map (without_dashes are_two) (if is_outside then stretch_names before.now stretch.now else [])) }
{
    if !is_outside {
        return Ok(());
    }
    if let Some(name) = name_of(before, stretch, are_two) {
        names.push(name)?;
    }
    Ok(())
}

// The name that a stretch is or ends, without its dashes, if it has that many.
fn name_of<'a>(before: &[u8], stretch: &'a str, are_two: bool) -> Option<&'a str>
    ensures { option_to_list (text_of result)
        ≡ flat_map (without_dashes are_two) (stretch_names before.now stretch.now) }
{
    if is_name(before, stretch.as_bytes()) {
        without_dashes(stretch, are_two)
    } else if are_two && is_negated(before, stretch.as_bytes()) {
        Some(stretch)
    } else {
        None
    }
}

fn without_dashes(name: &str, are_two: bool) -> Option<&str>
    ensures { option_to_list (text_of result) ≡ without_dashes are_two name.now }
{
    if are_two {
        name.strip_prefix(DASHES)
    } else if name.starts_with(DASHES) {
        None
    } else {
        name.strip_prefix("-")
    }
}

// ---- pieces

fn is_cut(is_mark: bool, opened: usize, closed: usize) -> bool
    ensures { result ≡ (is_mark && opened == closed) }
{
    is_mark && opened == closed
}

// Where a byte stands first outside brackets.
fn first_outside(bytes: &[u8], mark: u8) -> Option<usize>
    requires { is_bracket mark ≡ false }
    ensures { MatchOption result (parts mark bytes.now ≡ bytes.now ∷ []) (λ at. (at < length bytes.now)
        × (slice_index bytes.now at ≡ mark)
        × (parts mark bytes.now ≡ take at bytes.now ∷ parts mark (drop (at + 1) bytes.now))) }
{
    let mut opened = 0;
    let mut closed = 0;
    for (index, byte) in bytes.iter().enumerate() {
        if is_cut(*byte == mark, opened, closed) {
            return Some(index);
        }
        opened += usize::from(is_opening(*byte));
        closed += usize::from(is_closing(*byte));
    }
    None
}

// What stands before and after the first comma outside brackets.
fn split_piece(text: &str) -> Option<(&str, &str)>
    ensures parts { MatchOption result (parts 44 text.now ≡ text.now ∷ [])
        (λ p. parts 44 text.now ≡ p.0.now ∷ parts 44 p.1.now) }
    ensures shorter { IfSome result (λ p. length p.1.now < length text.now) }
{
    let at = first_outside(text.as_bytes(), b',')?;
    Some((&text[..at], &text[at + 1..]))
}

// ---- what may stand in a TOML text

/// Whether each bracket of a text is in a pair with one of its kind.
pub fn are_paired<A: Allocator>(alloc: A, text: &str) -> Result<bool, AllocError>
    ensures { IfOk result (λ paired. paired ≡ are_paired text.now) }
{
    let mut left = Vec::new(alloc);
    put_brackets(&mut left, text.as_bytes())?;
    Ok(left.is_empty())
}

// Appends the brackets that are left over.
fn put_brackets<A: Allocator>(left: &mut Vec<u8, A>, bytes: &[u8]) -> Result<(), AllocError>
    ensures { OnOk result (reverse left.new.items
        ≡ fold with_bracket (reverse left.old.items) (filter is_bracket bytes.now)) }
{
    for byte in bytes {
        put_bracket(left, *byte)?;
    }
    Ok(())
}

fn put_bracket<A: Allocator>(left: &mut Vec<u8, A>, byte: u8) -> Result<(), AllocError>
    ensures { OnOk result (reverse left.new.items
        ≡ fold with_bracket (reverse left.old.items) (filter is_bracket (byte ∷ []))) }
{
    if !is_bracket(byte) {
        return Ok(());
    }
    if closes_last(left, byte) {
        left.pop();
    } else {
        left.push(byte)?;
    }
    Ok(())
}

fn is_bracket(byte: u8) -> bool
    ensures { result ≡ is_bracket byte }
{
    is_opening(byte) || is_closing(byte)
}

fn closes(opening: u8, closing: u8) -> bool
    ensures { result ≡ closes opening closing }
{
    (opening == b'[' && closing == b']')
        || (opening == b'(' && closing == b')')
        || (opening == b'<' && closing == b'>')
        || (opening == b'{' && closing == b'}')
}

// Whether a bracket makes a pair with the last one that is left.
fn closes_last(left: &[u8], byte: u8) -> bool
    ensures { result ≡ begins (λ opening. closes opening byte) (reverse left.now) }
{
    match left.last() {
        None => false,
        Some(open) => closes(*open, byte),
    }
}

/// Whether a text holds something else than white space.
pub fn has_ink(text: &str) -> bool
    ensures { result ≡ has_ink text.now }
{
    text.chars().any(|character| !character.is_whitespace())
}

/// Whether each piece of a text does.
pub fn have_pieces_ink(text: &str) -> bool
    ensures { result ≡ list_all has_ink (pieces text.now) }
{
    let mut rest = text;
    while let Some((piece, after)) = split_piece(rest) {
        if !has_ink(piece) {
            return false;
        }
        rest = after;
    }
    has_ink(rest)
}
