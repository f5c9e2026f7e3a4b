//! The kinds of texts, and why a text is not of its kind.
ghost use Rattle.std.specs.Prelude.{◌≡◌, ◌&&◌, chars, is_none, length, nat_le, not};
ghost use Rattle.std.specs.Char.{is_ascii_alphanumeric, is_whitespace};
ghost use Rattle.std.specs.Int.{is_in_range};
ghost use Rattle.std.specs.List.{list_all};
ghost use Rattle.description_toml.specs.Described.Kinds.{allows, has_form, is_of};
ghost use Rattle.description_toml.specs.Described.Texts.{before_colon, begins, begins_a_section, ends};
ghost use Rattle.description_toml.specs.Described.Texts.{has_blank_end, has_block, has_name_size, if_passes};
ghost use Rattle.description_toml.specs.Described.Texts.{is_dash, is_empty_text, is_hidden, is_joiner};
ghost use Rattle.description_toml.specs.Described.Texts.{is_language_byte, is_line_character, is_name_character};
ghost use Rattle.description_toml.specs.Described.Texts.{is_noncharacter, is_read_once, is_short, is_text_character};
ghost use Rattle.description_toml.specs.Described.Texts.{is_word_character, without_colon};
ghost use Rattle.description_toml.specs.Faults.{Reads};

use super::teller::{Refused, Teller};
use description_texts::is_empty;
use shown_words::is_unseen;
use std::alloc::Allocator;
use unicode::properties::is_variation_selector;

/// What a text at a key is, which decides what it may hold.
#[derive(Clone, Copy)]
pub enum Kind {
    /// Lines.
    Text,
    /// Lines, of which a page shows something.
    Body,
    /// One line, which may be empty.
    Line,
    /// The word for a value.
    Value,
    /// A word of the title line of a manual page.
    Title,
    /// A title on a page: of a group or of a topic, or a fixed word.
    Heading,
    /// A section of the manual.
    Section,
    /// The tag of a language.
    Language,
    /// The name of an environment variable.
    Name,
    /// The long name of an option.
    Long,
    /// The name of the program or of a command.
    Command,
}

/// Why a character or a text is refused, in the words that follow the key; None where it is not refused.
pub type Refusal = Option<&'static str>;

fn is_noncharacter(character: char) -> bool
    ensures { result ≡ is_noncharacter character }
{
    let code = character as u32;
    (0xFDD0 <= code && code <= 0xFDEF) || 0xFFFD < code % 0x1_0000
}

fn refused_on_a_line(character: char) -> Refusal
    ensures { is_none result ≡ is_line_character character }
{
    if character.is_control() {
        Some(" holds a control character")
    } else if is_noncharacter(character) {
        Some(" holds a noncharacter")
    } else {
        None
    }
}

fn refused_in_a_text(character: char) -> Refusal
    ensures { is_none result ≡ is_text_character character }
{
    if character == '\n' || character == '\t' {
        None
    } else {
        refused_on_a_line(character)
    }
}

fn is_between(first: u32, last: u32, character: char) -> bool
    ensures { result ≡ is_in_range first last character }
{
    let code = character as u32;
    first <= code && code <= last
}

// Most characters are ASCII, for which no table is asked.
#[tactic(auto, using(crate::proofs::Ascii::ascii_joins_nothing))]
fn is_joiner(character: char) -> bool
    ensures { result ≡ is_joiner character }
{
    !character.is_ascii()
        && (is_between(0x200C, 0x200F, character) || is_variation_selector(character))
}

fn is_hidden(character: char) -> bool
    ensures { result ≡ is_hidden character }
{
    is_unseen(character) && !is_joiner(character)
}

const HIDDEN: &str = " holds an invisible character";

fn refused_in_a_word(character: char) -> Refusal
    ensures { is_none result ≡ is_word_character character }
{
    if is_hidden(character) {
        Some(HIDDEN)
    } else {
        refused_on_a_line(character)
    }
}

fn refused_in_a_name(character: char) -> Refusal
    ensures { is_none result ≡ is_name_character character }
{
    if character.is_whitespace() {
        Some(" holds a blank")
    } else if character == '=' {
        Some(" holds =")
    } else if is_joiner(character) {
        Some(HIDDEN)
    } else {
        refused_in_a_word(character)
    }
}

// What follows `=` would be a value, which a name does not have.
fn refused_in_a_long_name(character: char) -> Refusal
    ensures { is_none result ≡ is_name_character character }
{
    match refused_in_a_name(character) {
        Some(_) if character == '=' => Some(" holds =; write name and value as syntax"),
        refusal => refusal,
    }
}

/// Why a character is not a short name.
pub fn refused_as_short(character: char) -> Refusal
    ensures { is_none result ≡ is_short character }
{
    if character == '-' {
        Some(" begins with -")
    } else {
        refused_in_a_name(character)
    }
}

// How many bytes a name may have.
const MOST: usize = 200;

fn refused_if_long(text: &str) -> Refusal
    ensures { is_none result ≡ nat_le (length text.now) 200 }
{
    if text.len() > MOST {
        Some(" is over 200 bytes long")
    } else {
        None
    }
}

fn refused_by_size(text: &str) -> Refusal
    ensures { is_none result ≡ has_name_size text.now }
{
    first_of(refused_if_empty(text), refused_if_long(text))
}

fn refused_if_empty(text: &str) -> Refusal
    ensures { is_none result ≡ not (is_empty_text text.now) }
{
    if text.is_empty() {
        Some(" is empty")
    } else {
        None
    }
}

fn refused_without_blocks(text: &str) -> Refusal
    ensures { is_none result ≡ has_block text.now }
{
    if is_empty(text) {
        Some(" is empty")
    } else {
        None
    }
}

const WITHOUT_DASHES: &str = " begins with -; write it without dashes";

/// Why a text that is not one character is not a short name.
pub fn refused_as_character(text: &str) -> &'static str {
    if text.as_bytes().first() == Some(&b'-') {
        WITHOUT_DASHES
    } else {
        " is not one character; a longer name of an option goes in long, one of a command in aliases"
    }
}

// `told` is said of a dash.
fn refused_with_a_dash(text: &str, told: &'static str) -> Refusal
    ensures { is_none result ≡ has_name_size text.now && not (begins is_dash text.now) }
{
    match text.as_bytes().first() {
        None => Some(" is empty"),
        Some(first) => {
            if *first == b'-' {
                Some(told)
            } else {
                refused_if_long(text)
            }
        }
    }
}

fn begins_with_a_blank(text: &str) -> bool
    ensures { result ≡ begins is_whitespace (chars text.now) }
{
    match text.chars().next() {
        None => false,
        Some(first) => first.is_whitespace(),
    }
}

fn ends_with_a_blank(text: &str) -> bool
    ensures { result ≡ ends is_whitespace (chars text.now) }
{
    let mut is_blank = false;
    for character in text.chars() {
        is_blank = character.is_whitespace();
    }
    is_blank
}

fn before_colon(title: &str) -> &str
    ensures { result.now ≡ before_colon title.now }
{
    match title.strip_suffix(':') {
        None => title,
        Some(rest) => rest,
    }
}

/// A title without the colon at its end, and without the white space in front of that.
pub fn without_colon(title: &str) -> &str
    ensures { result.now ≡ without_colon title.now }
{
    before_colon(title).trim_end()
}

fn refused_as_heading(text: &str) -> Refusal
    ensures { is_none result ≡ not (has_blank_end text.now) && not (is_empty_text (without_colon text.now)) }
{
    if begins_with_a_blank(text) {
        Some(" begins with a blank")
    } else if without_colon(text).is_empty() {
        Some(" is empty")
    } else if ends_with_a_blank(text) {
        Some(" ends with a blank")
    } else {
        None
    }
}

fn begins_a_section(byte: u8) -> bool
    ensures { result ≡ begins_a_section byte }
{
    byte.is_ascii_digit() || byte == b'n' || byte == b'l'
}

fn are_alphanumeric(bytes: &[u8]) -> bool
    ensures { result ≡ list_all is_ascii_alphanumeric bytes.now }
{
    for byte in bytes {
        if !byte.is_ascii_alphanumeric() {
            return false;
        }
    }
    true
}

fn begins_as_a_section(bytes: &[u8]) -> bool
    ensures { result ≡ begins begins_a_section bytes.now }
{
    match bytes.first() {
        None => false,
        Some(first) => begins_a_section(*first),
    }
}

fn refused_as_section(text: &str) -> Refusal
    ensures { is_none result ≡ list_all is_ascii_alphanumeric text.now && begins begins_a_section text.now }
{
    if are_alphanumeric(text.as_bytes()) && begins_as_a_section(text.as_bytes()) {
        None
    } else {
        Some(" is no section of a manual")
    }
}

fn is_language_byte(byte: u8) -> bool
    ensures { result ≡ is_language_byte byte }
{
    byte.is_ascii_alphanumeric() || byte == b'-'
}

fn are_language_bytes(text: &str) -> bool
    ensures { result ≡ list_all is_language_byte text.now }
{
    text.as_bytes().iter().all(|byte| is_language_byte(*byte))
}

fn refused_as_language(text: &str) -> Refusal
    ensures { is_none result ≡ not (is_empty_text text.now) && list_all is_language_byte text.now }
{
    if !text.is_empty() && are_language_bytes(text) {
        None
    } else {
        Some(" is no tag of a language")
    }
}

// A macro of roff reads its arguments twice: a backslash would begin an escape there, and a quote end the argument.
fn refused_by_roff(bytes: &[u8]) -> Refusal
    ensures { is_none result ≡ list_all is_read_once bytes.now }
{
    for byte in bytes {
        if *byte == b'\\' {
            return Some(" holds a backslash");
        }
        if *byte == b'"' {
            return Some(" holds a double quote");
        }
    }
    None
}

fn first_of(first: Refusal, second: Refusal) -> Refusal
    ensures { is_none result ≡ is_none first.entry && is_none second.entry }
{
    match first {
        None => second,
        refused => refused,
    }
}

impl Kind {
    fn refuses(self, character: char) -> Refusal
        ensures { is_none result ≡ allows self character }
    {
        match self {
            Kind::Text | Kind::Body => refused_in_a_text(character),
            Kind::Line | Kind::Section | Kind::Language => refused_on_a_line(character),
            Kind::Value | Kind::Title | Kind::Heading => refused_in_a_word(character),
            Kind::Name | Kind::Command => refused_in_a_name(character),
            Kind::Long => refused_in_a_long_name(character),
        }
    }

    fn refuses_form(self, text: &str) -> Refusal
        ensures { is_none result ≡ has_form self text.now }
    {
        match self {
            Kind::Text | Kind::Line => None,
            Kind::Title => refused_by_roff(text.as_bytes()),
            Kind::Heading => first_of(refused_by_roff(text.as_bytes()), refused_as_heading(text)),
            Kind::Section => refused_as_section(text),
            Kind::Language => refused_as_language(text),
            Kind::Body => refused_without_blocks(text),
            Kind::Value => refused_if_empty(text),
            Kind::Name => refused_by_size(text),
            Kind::Long => refused_with_a_dash(text, WITHOUT_DASHES),
            Kind::Command => first_of(
                refused_with_a_dash(text, " begins with -"),
                refused_by_roff(text.as_bytes()),
            ),
        }
    }

    // The first character that is refused decides.
    fn refuses_characters(self, text: &str) -> Refusal
        ensures { is_none result ≡ list_all (allows self) (chars text.now) }
    {
        for character in text.chars() {
            let refused = self.refuses(character);
            if refused.is_some() {
                return refused;
            }
        }
        None
    }

    /// Why a text is not of this kind.
    pub fn refuses_text(self, text: &str) -> Refusal
        ensures { is_none result ≡ is_of self text.now }
    {
        match self.refuses_characters(text) {
            None => self.refuses_form(text),
            refused => refused,
        }
    }
}

/// The text that stands at a key, if it is of this kind.
pub fn checked<'a, 't, A: Allocator + Copy>(
    teller: &mut Teller<'a, A>,
    text: &'t str,
    key: &'static str,
    kind: Kind,
) -> Result<&'t str, Refused>
    ensures { Reads (if_passes (is_of kind) text.now) (λ text. text.now) result }
{
    match kind.refuses_text(text) {
        None => Ok(text),
        Some(after) => Err(teller.tell(key, after)),
    }
}

/// A text that stands in the array at a key, if it is of this kind.
pub fn checked_in<'a, 't, A: Allocator + Copy>(
    teller: &mut Teller<'a, A>,
    text: &'t str,
    key: &'static str,
    kind: Kind,
) -> Result<&'t str, Refused>
    ensures { Reads (if_passes (is_of kind) text.now) (λ text. text.now) result }
{
    match kind.refuses_text(text) {
        None => Ok(text),
        Some(after) => Err(teller.tell(
            key,
            if text.is_empty() {
                " holds an empty text"
            } else {
                after
            },
        )),
    }
}
