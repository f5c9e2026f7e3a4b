//! The syntax of an option: its lines, what it is called, and the part of it that a usage shows.
ghost use Rattle.std.specs.Prelude.{◌≡◌, ◌++◌, ◌∷◌, ◌-◌, ◌<◌, ◌≤◌, ◌+◌, ◌==◌, ◌&&◌, ◌||◌, [], take, drop, length, false, not};
ghost use Rattle.std.specs.Prelude.{find, map, IfOk, IfSome, OnOk, MatchOption};
ghost use Rattle.std.specs.Char.{is_ascii_lowercase};
ghost use Rattle.std.specs.List.{count_by, list_any, prefix_len, slice_index};
ghost use Rattle.std.specs.Option.{option_map};
ghost use Rattle.page_model.specs.View.{line_of, piece_of};
ghost use Rattle.description_usage.specs.Margins.{without_back, without_front, without_margins};
ghost use Rattle.description_usage.specs.Syntax.{shown_line, shown_way, ways, first_name, first_way, has_bar};
ghost use Rattle.description_usage.specs.Syntax.{has_form_of_name, has_letter, is_bracket, is_closing, is_lead};
ghost use Rattle.description_usage.specs.Syntax.{is_metavar, is_name, is_negated, is_one_name, is_opening, is_place};
ghost use Rattle.description_usage.specs.Syntax.{is_same, is_separator, is_word_byte, parts, stretch_pieces};
ghost use Rattle.description_usage.specs.Syntax.{stretches, syntax_line, syntax_terms, syntax_word, without_dashes};
ghost use Rattle.description_usage.specs.Syntax.{word_piece, word_pieces};
ghost use Rattle.description_usage.specs.Syntax.Steps.{is_in};

use page_model::{Inline, Line};
use std::alloc::{AllocError, Allocator};

// What stands before a name that has a form with `no-` and one without.
const NEGATION: &str = "--[no-]";

// What is left out at the ends of a part.
const MARGIN: [char; 2] = [' ', '\n'];

// What the bytes of a stretch are, or are not, and which are counted.
#[derive(Clone, Copy)]
enum Class {
    Separator,
    Word,
    Opening,
    Closing,
}

impl Class {
    fn holds(self, byte: u8) -> bool
        ensures { result ≡ is_in self byte }
    {
        match self {
            Class::Separator => is_separator(byte),
            Class::Word => is_word_byte(byte),
            Class::Opening => is_opening(byte),
            Class::Closing => is_closing(byte),
        }
    }
}

/// Whether a byte is an opening bracket.
pub fn is_opening(byte: u8) -> bool
    ensures { result ≡ is_opening byte }
{
    byte == b'[' || byte == b'(' || byte == b'<' || byte == b'{'
}

/// Whether a byte is a closing bracket.
pub fn is_closing(byte: u8) -> bool
    ensures { result ≡ is_closing byte }
{
    byte == b']' || byte == b')' || byte == b'>' || byte == b'}'
}

// Whether a name may stand directly after the byte.
fn is_lead(byte: u8) -> bool
    ensures { result ≡ is_lead byte }
{
    byte == b' ' || byte == b',' || byte == b'|' || is_opening(byte)
}

fn is_separator(byte: u8) -> bool
    ensures { result ≡ is_separator byte }
{
    is_lead(byte) || byte == b'=' || is_closing(byte)
}

fn is_word_byte(byte: u8) -> bool
    ensures { result ≡ is_word_byte byte }
{
    byte.is_ascii_alphanumeric() || byte == b'-' || byte == b'_'
}

fn is_same(one: bool, other: bool) -> bool
    ensures { result ≡ is_same one other }
{
    if one { other } else { !other }
}

// ---- stretches

// The first of the longest stretches of a text whose bytes all are, or all are not, of a class, and what follows it.
fn first_stretch(text: &str, class: Class) -> Option<(&str, &str)>
    ensures stretches { MatchOption result (stretches (is_in class) text.now ≡ [])
        (λ p. stretches (is_in class) text.now ≡ p.0.now ∷ stretches (is_in class) p.1.now) }
    ensures whole { IfSome result (λ p. text.now ≡ p.0.now ++ p.1.now) }
    ensures shorter { IfSome result (λ p. length p.1.now < length text.now) }
{
    let first = *text.as_bytes().first()?;
    let len = alike_len(text.as_bytes(), class, class.holds(first));
    Some(text.split_at(len))
}

// How many bytes at the front are all of the class, or all not of it.
fn alike_len(bytes: &[u8], class: Class, are_in: bool) -> usize
    ensures { result ≡ prefix_len (λ byte. is_same are_in (is_in class byte)) bytes.now }
{
    for (index, byte) in bytes.iter().enumerate() {
        if !is_same(are_in, class.holds(*byte)) {
            return index;
        }
    }
    bytes.len()
}

// What stands before the end of a text.
fn before<'a>(text: &'a str, end: &str) -> &'a [u8]
    requires { length end.now ≤ length text.now }
    ensures { result.now ≡ take (length text.now - length end.now) text.now }
{
    &text.as_bytes()[..text.len() - end.len()]
}

// ---- names

fn has_letter(bytes: &[u8]) -> bool
    ensures { result ≡ has_letter bytes.now }
{
    bytes.iter().any(|byte| *byte != b'-')
}

fn has_form_of_name(run: &[u8]) -> bool
    ensures { result ≡ has_form_of_name run.now }
{
    match run.first() {
        None => false,
        Some(first) => *first == b'-' && has_letter(run),
    }
}

// Whether a name may stand after these bytes.
fn is_place(before: &[u8]) -> bool
    ensures { result ≡ is_place before.now }
{
    match before.last() {
        None => true,
        Some(last) => is_lead(*last),
    }
}

fn is_name(before: &[u8], run: &[u8]) -> bool
    ensures { result ≡ is_name before.now run.now }
{
    is_place(before) && has_form_of_name(run)
}

// Whether a run stands directly after a negation.
fn is_negated(before: &[u8], run: &[u8]) -> bool
    ensures { result ≡ is_negated before.now run.now }
{
    let negation = NEGATION.as_bytes();
    before.ends_with(negation)
        && is_place(&before[..before.len() - negation.len()])
        && has_letter(run)
}

// Whether a run is a name, or the end of one that can be negated.
fn is_called(before: &[u8], run: &[u8]) -> bool
    ensures { result ≡ (is_name before.now run.now || is_negated before.now run.now) }
{
    is_name(before, run) || is_negated(before, run)
}

// ---- the line of a syntax

/// Appends the pieces of a syntax to those of a line. After `AllocError` some of them may have been appended.
pub fn push_syntax<'a, A: Allocator>(
    line: &mut Line<'a, A>,
    text: &'a str,
) -> Result<(), AllocError>
    ensures { OnOk result (line_of line.new.items ≡ line_of line.old.items ++ syntax_line text.now) }
{
    let mut rest = text;
    while let Some((stretch, after)) = first_stretch(rest, Class::Separator) {
        push_stretch(line, before(text, rest), stretch)?;
        rest = after;
    }
    Ok(())
}

fn push_stretch<'a, A: Allocator>(
    line: &mut Line<'a, A>,
    before: &[u8],
    stretch: &'a str,
) -> Result<(), AllocError>
    ensures { OnOk result (line_of line.new.items
        ≡ line_of line.old.items ++ stretch_pieces before.now stretch.now) }
{
    if is_called(before, stretch.as_bytes()) {
        line.push(Inline::Literal(stretch))?;
        Ok(())
    } else {
        push_words(line, stretch)
    }
}

fn push_words<'a, A: Allocator>(line: &mut Line<'a, A>, text: &'a str) -> Result<(), AllocError>
    ensures { OnOk result (line_of line.new.items ≡ line_of line.old.items ++ word_pieces text.now) }
{
    let mut rest = text;
    while let Some((word, after)) = first_stretch(rest, Class::Word) {
        line.push(word_piece(word))?;
        rest = after;
    }
    Ok(())
}

fn word_piece(word: &str) -> Inline<'_>
    ensures { piece_of result ≡ word_piece word.now }
{
    if is_metavar(word.as_bytes()) {
        Inline::Value(word)
    } else {
        Inline::Words(word)
    }
}

fn is_metavar(word: &[u8]) -> bool
    ensures { result ≡ is_metavar word.now }
{
    match word.first() {
        None => false,
        Some(first) => first.is_ascii_uppercase() && !has_small_letter(word),
    }
}

fn has_small_letter(word: &[u8]) -> bool
    ensures { result ≡ list_any is_ascii_lowercase word.now }
{
    word.iter().any(|byte| byte.is_ascii_lowercase())
}

// ---- the parts that commas separate

fn is_cut(is_mark: bool, opened: usize, closed: usize) -> bool
    ensures { result ≡ (is_mark && opened == closed) }
{
    is_mark && opened == closed
}

// Where a byte stands first outside brackets.
fn first_outside(bytes: &[u8], mark: u8) -> Option<usize>
    requires { is_bracket mark ≡ false }
    ensures { MatchOption result (parts mark bytes.now ≡ bytes.now ∷ []) (λ at. (at < length bytes.now)
        × (slice_index bytes.now at ≡ mark)
        × (parts mark bytes.now ≡ take at bytes.now ∷ parts mark (drop (at + 1) bytes.now))) }
{
    let mut opened = 0;
    let mut closed = 0;
    for (index, byte) in bytes.iter().enumerate() {
        if is_cut(*byte == mark, opened, closed) {
            return Some(index);
        }
        opened += usize::from(is_opening(*byte));
        closed += usize::from(is_closing(*byte));
    }
    None
}

/// What stands before and after the first such mark outside brackets.
pub fn split_part(text: &str, mark: u8) -> Option<(&str, &str)>
    requires outside { is_bracket mark ≡ false }
    requires ascii { mark < 128 }
    ensures parts { MatchOption result (parts mark text.now ≡ text.now ∷ [])
        (λ p. parts mark text.now ≡ p.0.now ∷ parts mark p.1.now) }
    ensures shorter { IfSome result (λ p. length p.1.now < length text.now) }
{
    let at = first_outside(text.as_bytes(), mark)?;
    Some((&text[..at], &text[at + 1..]))
}

/// The text without the blanks and newlines at its ends.
pub fn without_margins(text: &str) -> &str
    ensures { result.now ≡ without_margins text.now }
{
    without_back(without_front(text))
}

/// The text without those at its front.
pub fn without_front(text: &str) -> &str
    ensures { result.now ≡ without_front text.now }
{
    text.trim_start_matches(MARGIN)
}

fn without_back(text: &str) -> &str
    ensures { result.now ≡ without_back text.now }
{
    text.trim_end_matches(MARGIN)
}

// ---- the terms

fn syntax_term<'a, A: Allocator>(alloc: A, way: &'a str) -> Result<Line<'a, A>, AllocError>
    ensures { IfOk result (λ line. line_of line.items ≡ syntax_line way.now) }
{
    let mut line = Vec::new(alloc);
    push_syntax(&mut line, way)?;
    Ok(line)
}

/// The parts that commas outside brackets separate in a syntax, each as a term of an entry.
pub fn syntax_terms<'a, A: Allocator + Copy>(
    alloc: A,
    text: &'a str,
) -> Result<Vec<Line<'a, A>, A>, AllocError>
    ensures { IfOk result (λ terms. map (λ term. line_of term.items) terms.items ≡ syntax_terms text.now) }
{
    let mut terms = Vec::new(alloc);
    let mut rest = text;
    while let Some((way, after)) = split_part(rest, b',') {
        terms.push(syntax_term(alloc, without_margins(way))?)?;
        rest = after;
    }
    terms.push(syntax_term(alloc, without_margins(rest))?)?;
    Ok(terms)
}

// ---- what it is called

fn count(bytes: &[u8], class: Class) -> usize
    ensures { result ≡ count_by (is_in class) bytes.now }
{
    let mut count = 0;
    for byte in bytes {
        count += usize::from(class.holds(*byte));
    }
    count
}

fn is_outer_name(is_outside: bool, before: &[u8], run: &[u8]) -> bool
    ensures { result ≡ (is_outside && (is_name before.now run.now || is_negated before.now run.now)) }
{
    is_outside && is_called(before, run)
}

// The first name outside brackets.
fn first_name(text: &str) -> Option<&str>
    ensures { option_map (λ name. name.now) result ≡ first_name text.now }
{
    let mut rest = text;
    let mut opened = 0;
    let mut closed = 0;
    while let Some((stretch, after)) = first_stretch(rest, Class::Separator) {
        let is_outside = opened == closed;
        if is_outer_name(is_outside, before(text, rest), stretch.as_bytes()) {
            return Some(stretch);
        }
        opened += count(stretch.as_bytes(), Class::Opening);
        closed += count(stretch.as_bytes(), Class::Closing);
        rest = after;
    }
    None
}

fn without_dashes(name: &str) -> &str
    ensures { result.now ≡ without_dashes name.now }
{
    name.trim_start_matches('-')
}

/// What an option is called: the first name outside brackets, without the dashes at its front. The whole text where it
/// has no name.
pub fn syntax_word(text: &str) -> &str
    ensures { result.now ≡ syntax_word text.now }
{
    match first_name(text) {
        None => text,
        Some(name) => without_dashes(name),
    }
}

// ---- the usage

fn is_one_name(way: &[u8]) -> bool
    ensures { result ≡ is_one_name way.now }
{
    has_form_of_name(way) && !holds_separator(way)
}

fn holds_separator(way: &[u8]) -> bool
    ensures { result ≡ list_any is_separator way.now }
{
    way.iter().any(|byte| is_separator(*byte))
}

// The first way that is more than a name.
fn longer_way(text: &str) -> Option<&str>
    ensures { option_map (λ way. way.now) result ≡ find (λ way. not (is_one_name way)) (ways text.now) }
{
    let mut rest = text;
    while let Some((way, after)) = split_part(rest, b',') {
        let way = without_margins(way);
        if !is_one_name(way.as_bytes()) {
            return Some(way);
        }
        rest = after;
    }
    let last = without_margins(rest);
    if is_one_name(last.as_bytes()) {
        None
    } else {
        Some(last)
    }
}

fn way_at_front(text: &str) -> &str
    ensures { result.now ≡ first_way (ways text.now) }
{
    match split_part(text, b',') {
        None => without_margins(text),
        Some((way, _)) => without_margins(way),
    }
}

/// The part of a syntax that a usage shows: the first that is more than a name, else the first.
pub fn shown_way(text: &str) -> &str
    ensures { result.now ≡ shown_way text.now }
{
    match longer_way(text) {
        None => way_at_front(text),
        Some(way) => way,
    }
}

/// Whether a bar stands outside brackets.
pub fn has_bar(way: &str) -> bool
    ensures { result ≡ has_bar way.now }
{
    first_outside(way.as_bytes(), b'|').is_some()
}
