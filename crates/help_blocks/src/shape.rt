//! What a line looks like, by itself.

ghost use Rattle.std.specs.Prelude.{◌≡◌};
ghost use Rattle.help_blocks.specs.Looks as looks;
ghost use Rattle.help_blocks.specs.Shapes as shapes;

use crate::scan;
use crate::subject::Subject;

/// What a line looks like.
#[derive(Clone, Copy)]
pub struct Shape {
    pub indent: usize,
    pub is_empty: bool,
    pub is_usage: bool,
    pub is_option: bool,
    pub is_word: bool,
    pub is_choice: bool,
    pub ends_with_colon: bool,
    pub is_in_capitals: bool,
    pub is_code: bool,
    pub is_typed: bool,
    pub subject: Subject,
}

impl Shape {
    /// The shape of a line.
    #[tactic(auto, unfolding(crate::specs::Shapes::shape_of))]
    pub fn of(line: &[u8]) -> Self
        ensures { result ≡ shapes.shape_of line.now }
    {
        let text = scan::text(line);
        Shape {
            indent: scan::indent(line),
            is_empty: text.is_empty(),
            is_usage: is_usage(text),
            is_option: is_listed_option(text),
            is_word: is_word(text),
            is_choice: is_choice(text),
            ends_with_colon: scan::ends_with_colon(text),
            is_in_capitals: scan::is_in_capitals(text),
            is_code: is_code(text),
            is_typed: is_typed(text),
            subject: Subject::of(text),
        }
    }
}

/// Whether a line begins with an option.
pub fn is_option_line(line: &[u8]) -> bool
    ensures { result ≡ looks.is_listed_option (looks.text line.now) }
{
    is_listed_option(scan::text(line))
}

// Whether a name goes on after five letters.
fn is_named_on(text: &[u8]) -> bool
    ensures { result ≡ looks.is_named_on text.now }
{
    match text {
        [_, _, _, _, _, next, ..] => scan::is_in_name(*next),
        _ => false,
    }
}

fn is_usage(text: &[u8]) -> bool
    ensures { result ≡ looks.is_usage text.now }
{
    scan::begins_with(text, b"usage") && !is_named_on(text)
}

// Whether the name of an option may begin with this after its dashes.
fn is_option_letter(byte: u8) -> bool
    ensures { result ≡ looks.is_option_letter byte }
{
    byte.is_ascii_alphanumeric() || matches!(byte, b'?' | b'@' | b'#' | b'[' | b'$' | b'%')
}

fn is_option(text: &[u8]) -> bool
    ensures { result ≡ looks.is_option text.now }
{
    match text {
        [b'-', b'-', letter, ..] => is_option_letter(*letter),
        [b'-', letter, ..] => is_option_letter(*letter),
        _ => false,
    }
}

fn begins_small(text: &[u8]) -> bool
    ensures { result ≡ looks.begins_small text.now }
{
    matches!(text, [b'a'..=b'z' | b'0'..=b'9', ..])
}

// Whether these are options as they are typed.
fn is_typed(text: &[u8]) -> bool
    ensures { result ≡ looks.is_typed text.now }
{
    is_option(text)
        && !scan::has_columns(text)
        && begins_small(scan::after_equals(text))
        && is_option(scan::after_word(text))
}

fn is_listed_option(text: &[u8]) -> bool
    ensures { result ≡ looks.is_listed_option text.now }
{
    is_option(text) && !is_typed(text)
}

fn ends_word(rest: &[u8]) -> bool
    ensures { result ≡ looks.ends_word rest.now }
{
    match rest {
        [] => true,
        [byte, ..] => scan::is_blank(*byte) || matches!(*byte, b':' | b','),
    }
}

fn is_word(text: &[u8]) -> bool
    ensures { result ≡ looks.is_word text.now }
{
    match text {
        [b'a'..=b'z' | b'0'..=b'9', more @ ..] => ends_word(scan::after_name(more)),
        _ => false,
    }
}

fn is_choice(text: &[u8]) -> bool
    ensures { result ≡ looks.is_choice text.now }
{
    matches!(text, [b'{', ..])
}

fn is_prompt(text: &[u8]) -> bool
    ensures { result ≡ looks.is_prompt text.now }
{
    matches!(text, [b'$', b' ', ..])
}

fn is_code(text: &[u8]) -> bool
    ensures { result ≡ looks.is_code text.now }
{
    is_prompt(text) || scan::has_columns(text) || is_typed(text)
}
