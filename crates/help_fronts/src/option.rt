//! What the front of an option says.
ghost use Rattle.std.specs.Prelude.{◌≡◌, ◌++◌, [], filter, map, IfOk, IfSome, MatchOption, OnOk};
ghost use Rattle.std.specs.Option.{option_map};
ghost use Rattle.help_fronts.specs.Pieces.{pieces};
ghost use Rattle.help_fronts.specs.Words.{value_text, value_word, without_joints};
ghost use Rattle.help_fronts.specs.declared.front.Kind.TheVariants as kind;
ghost use Rattle.help_fronts.specs.Fronts as spec;
ghost use Rattle.help_fronts.specs.View.{said};

use crate::bytes::{Class, byte_at, without_front};
use crate::front::{Kind, cut_front, first_of_front};
use crate::names::push_name;
use crate::words::{
    attached, is_dots, is_name, is_optional, value_text, value_word, without_joints,
};
use std::alloc::{AllocError, Allocator, Global};

/// The front of a line that begins with an option.
#[derive(Drop)]
pub struct OptionFront<'a, A: Allocator = Global> {
    /// With their dashes, in the order of the line.
    pub names: Vec<&'a str, A>,
    /// The words for the values of the last name that has any, with their brackets: `<MIN>` and `[MAX]` of
    /// `--of <MIN> [MAX]`. A `...` after the first is one of them.
    pub values: Vec<&'a str, A>,
    /// The byte directly after the name, as `=` or a bracket, if the first value is in one word with it; else a blank.
    pub joint: u8,
    /// The first of them without the brackets at its ends; as it stands, where it has brackets elsewhere.
    pub value: Option<&'a str>,
    /// Whether the first value stands in square brackets.
    pub is_optional: bool,
    /// The front as it stands in the line.
    pub written: &'a str,
    /// What stands between the front and its help: blanks, and sometimes `:` or `-`.
    pub gap: &'a str,
    /// What stands after, to the end of the line.
    pub help: &'a str,
}

fn push_names<'a, A: Allocator>(
    names: &mut Vec<&'a str, A>,
    words: &[&'a str],
) -> Result<(), AllocError>
    ensures { OnOk result (map (λ n. n.now) names.new.items
        ≡ map (λ n. n.now) names.old.items ++ spec.names (map (λ w. w.now) words.now)) }
{
    for word in words {
        push_name(names, word)?;
    }
    Ok(())
}

fn says_value(word: &str) -> bool
    ensures { result ≡ spec.says_value word.now }
{
    !value_word(value_text(word)).is_empty()
}

fn says_more(word: &str) -> bool
    ensures { result ≡ spec.says_more word.now }
{
    says_value(word) || is_dots(word)
}

fn joint(word: &str) -> u8
    ensures { result ≡ spec.joint word.now }
{
    if is_name(word) {
        byte_at(attached(word), 0)
    } else {
        b' '
    }
}

// What stands before the first value.
fn first_joint(words: &[&str]) -> u8
    ensures { result ≡ spec.first_joint (map (λ w. w.now) words.now) }
{
    for word in words {
        if says_value(word) {
            return joint(word);
        }
    }
    b' '
}

// Puts what is said of further values, up to the next name.
fn push_further_values<'a, A: Allocator>(
    values: &mut Vec<&'a str, A>,
    words: &[&'a str],
) -> Result<(), AllocError>
    ensures { OnOk result (map (λ v. v.now) values.new.items
        ≡ map (λ v. v.now) values.old.items ++ map without_joints (filter spec.says_more (spec.before_name (map (λ w. w.now) words.now)))) }
{
    for word in words {
        if is_name(word) {
            return Ok(());
        }
        if says_more(word) {
            values.push(without_joints(word))?;
        }
    }
    Ok(())
}

// What is said of the values of the first name that has any.
fn values_of<'a, A: Allocator>(alloc: A, words: &[&'a str]) -> Result<Vec<&'a str, A>, AllocError>
    ensures { IfOk result (λ values. map (λ v. v.now) values.items ≡ spec.values (map (λ w. w.now) words.now)) }
{
    let mut values = Vec::new(alloc);
    let mut rest = words;
    while let [word, others @ ..] = rest {
        if says_value(word) {
            values.push(value_text(word))?;
            push_further_values(&mut values, others)?;
            return Ok(values);
        }
        rest = others;
    }
    Ok(values)
}

// Whether there is a value before the next name.
fn has_value(words: &[&str]) -> bool
    ensures { result ≡ spec.has_value (map (λ w. w.now) words.now) }
{
    for word in words {
        if is_name(word) {
            return false;
        }
        if says_value(word) {
            return true;
        }
    }
    false
}

fn is_valued(word: &str, others: &[&str]) -> bool
    ensures { result ≡ spec.is_valued word.now (map (λ w. w.now) others.now) }
{
    is_name(word) && (says_value(word) || has_value(others))
}

// The words from the last name on that has a value.
fn from_last<'a, 'b>(words: &'b [&'a str]) -> &'b [&'a str]
    ensures { map (λ w. w.now) result.now ≡ spec.from_last (map (λ w. w.now) words.now) }
{
    let mut found: &[&str] = &[];
    let mut rest = words;
    while let [word, others @ ..] = rest {
        if is_valued(word, others) {
            found = rest;
        }
        rest = others;
    }
    found
}

fn first_value<'a>(values: &[&'a str]) -> Option<&'a str>
    ensures { option_map (λ v. v.now) result ≡ spec.first_value (map (λ v. v.now) values.now) }
{
    match values {
        [] => None,
        [first, ..] => Some(first),
    }
}

fn is_value_optional(value: Option<&str>) -> bool
    ensures { result ≡ spec.is_value_optional (option_map (λ v. v.now) value.entry) }
{
    match value {
        None => false,
        Some(text) => is_optional(text),
    }
}

fn word_of_value(value: Option<&str>) -> Option<&str>
    ensures { option_map (λ v. v.now) result ≡ option_map value_word (option_map (λ v. v.now) value.entry) }
{
    match value {
        None => None,
        Some(text) => Some(value_word(text)),
    }
}

// What a text says that begins with the piece of a name.
fn read_front<'a, A: Allocator + Copy>(
    alloc: A,
    text: &'a str,
    first: &'a str,
    after: &'a str,
) -> Result<OptionFront<'a, A>, AllocError>
    requires { text.now ≡ first.now ++ after.now }
    ensures exact { IfOk result (λ f. Some (said f) ≡ spec.front_in (spec.front_from kind.Option first.now (pieces after.now)) text.now) }
    ensures whole { IfOk result (λ f. text.now ≡ (f.written.now ++ f.gap.now) ++ f.help.now) }
{
    let cut = cut_front(alloc, Kind::Option, text, first, after)?;
    let mut names = Vec::new(alloc);
    push_names(&mut names, &cut.words)?;
    let valued = from_last(&cut.words);
    let values = values_of(alloc, valued)?;
    let value = first_value(&values);
    Ok(OptionFront {
        names,
        value: word_of_value(value),
        is_optional: is_value_optional(value),
        joint: first_joint(valued),
        values,
        written: cut.written,
        gap: cut.gap,
        help: cut.help,
    })
}

/// What the front of a line says, if the line begins with an option.
///
/// # Errors
///
/// Memory.
pub fn option_front<'a, A: Allocator + Copy>(
    alloc: A,
    line: &'a str,
) -> Result<Option<OptionFront<'a, A>>, AllocError>
    ensures exact { IfOk result (λ front. option_map said front ≡ spec.option_front line.now) }
    ensures whole { IfOk result (λ front. IfSome front
        (λ f. spec.without_indent line.now ≡ (f.written.now ++ f.gap.now) ++ f.help.now)) }
{
    let text = without_front(line, Class::Blank);
    match first_of_front(Kind::Option, text) {
        None => Ok(None),
        Some((first, after)) => Ok(Some(read_front(alloc, text, first, after)?)),
    }
}
