//! What a word of a line is: a name, a word that joins two names, or what says a value.
ghost use Rattle.std.specs.Prelude.{◌≡◌, ◌==◌, ◌&&◌, ◌||◌, take, drop, true};
ghost use Rattle.std.specs.List.{count_by, list_all, list_any};
ghost use Rattle.help_fronts.specs.Bytes.{is_bracket};
ghost use Rattle.help_fronts.specs.Words as spec;

use crate::bytes::{
    Class, byte_at, free_len, is_closing, is_divider, is_name_start, is_opening, last_byte,
    without_end, without_front,
};

// ---- names

fn dashes(word: &str) -> usize
    ensures { result ≡ spec.dashes word.now }
{
    if byte_at(word, 1) == b'-' { 2 } else { 1 }
}

pub fn is_name(word: &str) -> bool
    ensures { result ≡ spec.is_name word.now }
{
    byte_at(word, 0) == b'-' && is_name_start(byte_at(word, dashes(word)))
}

pub fn is_long(word: &str) -> bool
    ensures { result ≡ spec.is_long word.now }
{
    is_name(word) && byte_at(word, 1) == b'-'
}

pub fn is_short(word: &str) -> bool
    ensures { result ≡ spec.is_short word.now }
{
    is_name(word) && word.len() == 2
}

// A word that is a name, cut after the name.
fn split_name(word: &str) -> (&str, &str)
    requires { spec.is_name word.now ≡ true }
    ensures name { result.0.now ≡ take (spec.name_len word.now) word.now }
    ensures attached { result.1.now ≡ spec.attached word.now }
{
    let lead = dashes(word) + 1;
    let letters = free_len(&word.as_bytes()[lead..], Class::Separator);
    word.split_at(lead + letters)
}

pub fn name(word: &str) -> &str
    requires { spec.is_name word.now ≡ true }
    ensures { result.now ≡ spec.name word.now }
{
    let (name, _) = split_name(word);
    without_end(name, Class::Dot)
}

/// What directly follows a name.
pub fn attached(word: &str) -> &str
    requires { spec.is_name word.now ≡ true }
    ensures { result.now ≡ spec.attached word.now }
{
    let (_, attached) = split_name(word);
    attached
}

// ---- between two names

pub fn is_joiner(word: &str) -> bool
    ensures { result ≡ spec.is_joiner word.now }
{
    word == "|" || word == "or" || word == "..."
}

pub fn leads_on(word: &str) -> bool
    ensures { result ≡ spec.leads_on word.now }
{
    is_joiner(word) || is_divider(last_byte(word))
}

// ---- commands

fn is_command_start(byte: u8) -> bool
    ensures { result ≡ spec.is_command_start byte }
{
    byte.is_ascii_alphanumeric() || byte >= 128
}

fn is_command_byte(byte: u8) -> bool
    ensures { result ≡ spec.is_command_byte byte }
{
    is_command_start(byte)
        || byte == b'-'
        || byte == b'_'
        || byte == b'.'
        || byte == b'+'
        || byte == b':'
}

fn has_command_bytes(text: &str) -> bool
    ensures { result ≡ list_all spec.is_command_byte text.now }
{
    text.as_bytes().iter().all(|byte| is_command_byte(*byte))
}

/// Whether a word could be the name of a command.
pub fn is_command(word: &str) -> bool
    ensures { result ≡ spec.is_command word.now }
{
    is_command_start(byte_at(word, 0)) && has_command_bytes(word)
}

fn is_remark(word: &str) -> bool
    ensures { result ≡ spec.is_remark word.now }
{
    word == "default" || word == "deprecated"
}

/// Whether a word could be the name of a command in a list of them.
pub fn is_listed(word: &str) -> bool
    ensures { result ≡ spec.is_listed word.now }
{
    let first = byte_at(word, 0);
    (first.is_ascii_lowercase() || first.is_ascii_digit())
        && has_command_bytes(word)
        && !is_remark(word)
}

// ---- values

/// A text without `,`, `|`, `/`, `=` and `:` at its ends.
pub fn without_joints(text: &str) -> &str
    ensures { result.now ≡ spec.without_joints text.now }
{
    without_end(without_front(text, Class::Joint), Class::Joint)
}

/// What a word says of a value.
pub fn value_text(word: &str) -> &str
    ensures { result.now ≡ spec.value_text word.now }
{
    if is_joiner(word) {
        ""
    } else if is_name(word) {
        without_joints(attached(word))
    } else {
        without_joints(word)
    }
}

fn has_bracket(text: &str) -> bool
    ensures { result ≡ list_any is_bracket text.now }
{
    text.as_bytes()
        .iter()
        .any(|byte| is_opening(*byte) || is_closing(*byte))
}

/// A word without brackets, joints and dots at its ends.
pub fn bare_word(text: &str) -> &str
    ensures { result.now ≡ spec.bare_word text.now }
{
    without_end(without_front(text, Class::Lead), Class::Tail)
}

/// The word for a value, of what is said of it.
pub fn value_word(text: &str) -> &str
    ensures { result.now ≡ spec.value_word text.now }
{
    let bare = bare_word(text);
    if has_bracket(bare) { text } else { bare }
}

fn closing_count(bytes: &[u8]) -> usize
    ensures { result ≡ count_by (λ b. b == 93) bytes.now }
{
    bytes.iter().filter(|byte| **byte == b']').count()
}

/// Whether a value stands between `[` and the one `]`.
pub fn is_optional(text: &str) -> bool
    ensures { result ≡ spec.is_optional text.now }
{
    byte_at(text, 0) == b'[' && last_byte(text) == b']' && closing_count(text.as_bytes()) == 1
}

pub fn is_bare_name(word: &str) -> bool
    ensures { result ≡ spec.is_bare_name word.now }
{
    is_name(word) && without_joints(attached(word)).is_empty()
}

// Whether there is a small letter before the first bracket.
fn has_small_letter(bytes: &[u8]) -> bool
    ensures { result ≡ spec.has_small_letter bytes.now }
{
    for byte in bytes {
        if is_opening(*byte) {
            return false;
        }
        if byte.is_ascii_lowercase() {
            return true;
        }
    }
    false
}

/// Whether a word begins with a capital, and has no small letter before a bracket.
pub fn is_in_capitals(word: &str) -> bool
    ensures { result ≡ spec.is_in_capitals word.now }
{
    byte_at(word, 0).is_ascii_uppercase() && !has_small_letter(word.as_bytes())
}

pub fn has_form_of_value(word: &str) -> bool
    ensures { result ≡ spec.has_form_of_value word.now }
{
    is_opening(byte_at(word, 0)) || is_in_capitals(word)
}

fn has_choice(word: &str) -> bool
    ensures { result ≡ list_any (λ b. b == 124) word.now }
{
    word.as_bytes().iter().any(|byte| *byte == b'|')
}

/// Whether a word stands in brackets; in parentheses only if it is a choice.
pub fn is_bracketed(word: &str) -> bool
    ensures { result ≡ spec.is_bracketed word.now }
{
    let first = byte_at(word, 0);
    is_opening(first) && (first != b'(' || has_choice(word))
}

/// Whether a word is `...`, also before a comma.
pub fn is_dots(word: &str) -> bool
    ensures { result ≡ spec.is_dots word.now }
{
    word == "..." || word == "...,"
}
