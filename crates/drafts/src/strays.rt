//! Options that stand only in a usage.
ghost use Rattle.std.specs.Prelude.{◌≡◌, ◌++◌, IfOk, OnOk, flat_map, map, string_bytes, true};
ghost use Rattle.std.specs.Char.{is_ascii_alphanumeric};
ghost use Rattle.std.specs.List.{list_all, slice_index_or};
ghost use Rattle.std.specs.Option.{option_map};
ghost use Rattle.help_fronts.specs.Usages as usages;
ghost use Rattle.help_fronts.specs.View.{said, used_said};
ghost use Rattle.drafts.specs.Options as options;
ghost use Rattle.drafts.specs.Strays as spec;
ghost use Rattle.drafts.specs.View.{form_said, held, stray_said};

use crate::entries::push_option_head;
use crate::free::Words;
use crate::options::{byte_at, is_good, key};
use crate::usages::Form;
use help_fronts::{OptionFront, UsageOption, is_optional, usage_options, value_word};
use std::alloc::{AllocError, Allocator};
use toml_pieces::{push_table, push_word};

/// An option in a usage, or the letter of a short one in the place of its name.
#[derive(Clone, Copy)]
pub struct Stray<'a> {
    pub is_letter: bool,
    pub option: UsageOption<'a>,
}

fn bare(name: &str) -> UsageOption<'_>
    ensures { used_said result ≡ usages.bare name.now }
{
    UsageOption {
        name,
        joint: b' ',
        value: "",
    }
}

// ---- letters that stand together

fn is_before(first: u8, second: u8) -> bool
    ensures { result ≡ spec.is_before first second }
{
    first.to_ascii_lowercase() <= second.to_ascii_lowercase() && first != second
}

// The first byte, and one above all letters where there is none.
fn first_or_last(bytes: &[u8]) -> u8
    ensures { result ≡ slice_index_or bytes.now 0 128 }
{
    match bytes {
        [] => 128,
        [byte, ..] => *byte,
    }
}

fn are_rising(bytes: &[u8]) -> bool
    ensures { result ≡ spec.are_rising bytes.now }
{
    let mut rest = bytes;
    while let [first, more @ ..] = rest {
        if !is_before(*first, first_or_last(more)) {
            return false;
        }
        rest = more;
    }
    true
}

fn are_letters(bytes: &[u8]) -> bool
    ensures { result ≡ list_all is_ascii_alphanumeric bytes.now }
{
    bytes.iter().all(|byte| byte.is_ascii_alphanumeric())
}

fn has_letters(name: &[u8]) -> bool
    ensures { result ≡ spec.has_letters name.now }
{
    byte_at(name, 0) == b'-' && name.len() > 2 && are_letters(&name[1..])
}

// Whether each letter is the name of an option that is written.
fn are_known<'a, A: Allocator + Copy>(taken: &Words<'a, A>, letters: &'a [u8]) -> bool
    ensures { result ≡ spec.are_known (held taken.now) letters.now }
{
    let mut rest = letters;
    while rest.len() > 0 {
        let (letter, others) = rest.split_at(1);
        if !taken.has(letter) {
            return false;
        }
        rest = others;
    }
    true
}

fn is_cluster<'a, A: Allocator + Copy>(taken: &Words<'a, A>, name: &'a [u8]) -> bool
    ensures { result ≡ spec.is_cluster (held taken.now) name.now }
{
    has_letters(name) && (are_rising(&name[1..]) || are_known(taken, &name[1..]))
}

fn letter_of(text: &str) -> Stray<'_>
    ensures { stray_said result ≡ spec.letter_of text.now }
{
    Stray {
        is_letter: true,
        option: bare(text),
    }
}

fn push_letters<'a, A: Allocator>(
    strays: &mut Vec<Stray<'a>, A>,
    letters: &'a str,
) -> Result<(), AllocError>
    requires { list_all is_ascii_alphanumeric letters.now ≡ true }
    ensures { OnOk result (map stray_said strays.new.items
        ≡ map stray_said strays.old.items ++ map spec.letter letters.now) }
{
    let mut rest = letters;
    while rest.len() > 0 {
        let (letter, others) = rest.split_at(1);
        strays.push(letter_of(letter))?;
        rest = others;
    }
    Ok(())
}

fn stand_together<'a, A: Allocator + Copy>(taken: &Words<'a, A>, option: UsageOption<'a>) -> bool
    ensures { result ≡ spec.stand_together (held taken.now) (used_said option.entry) }
{
    option.joint == b' '
        && is_cluster(taken, option.name.as_bytes())
        && !taken.has(key(option.name))
}

fn push_options_of<'a, A: Allocator + Copy>(
    strays: &mut Vec<Stray<'a>, A>,
    taken: &Words<'a, A>,
    option: UsageOption<'a>,
) -> Result<(), AllocError>
    ensures { OnOk result (map stray_said strays.new.items
        ≡ map stray_said strays.old.items ++ spec.options_of (held taken.now) (used_said option.entry)) }
{
    if stand_together(taken, option) {
        return push_letters(strays, &option.name[1..]);
    }
    strays.push(Stray {
        is_letter: false,
        option,
    })?;
    Ok(())
}

fn push_all_options<'a, A: Allocator + Copy>(
    strays: &mut Vec<Stray<'a>, A>,
    taken: &Words<'a, A>,
    options: &[UsageOption<'a>],
) -> Result<(), AllocError>
    ensures { OnOk result (map stray_said strays.new.items
        ≡ map stray_said strays.old.items ++ flat_map (spec.options_of (held taken.now)) (map used_said options.now)) }
{
    for option in options {
        push_options_of(strays, taken, *option)?;
    }
    Ok(())
}

fn push_form_options<'a, A: Allocator + Copy>(
    alloc: A,
    strays: &mut Vec<Stray<'a>, A>,
    taken: &Words<'a, A>,
    form: Form<'a>,
) -> Result<(), AllocError>
    ensures { OnOk result (map stray_said strays.new.items
        ≡ map stray_said strays.old.items ++ spec.form_options (held taken.now) (form_said form.entry)) }
{
    let options = usage_options(alloc, form.text)?;
    push_all_options(strays, taken, &options)
}

/// The options in the forms of the usage, where letters that stand together are one each, unless their name is taken.
pub fn options_in<'a, A: Allocator + Copy>(
    alloc: A,
    taken: &Words<'a, A>,
    forms: &[Form<'a>],
) -> Result<Vec<Stray<'a>, A>, AllocError>
    ensures { IfOk result (λ strays. map stray_said strays.items ≡ spec.options_in (held taken.now) (map form_said forms.now)) }
{
    let mut strays = Vec::new(alloc);
    for form in forms {
        push_form_options(alloc, &mut strays, taken, *form)?;
    }
    Ok(strays)
}

// ---- options

fn word_of(value: &str) -> Option<&str>
    ensures { option_map (λ w. w.now) result ≡ spec.word_of value.now }
{
    if value.is_empty() {
        None
    } else {
        Some(value_word(value))
    }
}

fn values_of<'a, A: Allocator>(alloc: A, value: &'a str) -> Result<Vec<&'a str, A>, AllocError>
    ensures { IfOk result (λ values. map (λ v. v.now) values.items ≡ spec.values_of value.now) }
{
    let mut values = Vec::new(alloc);
    if !value.is_empty() {
        values.push(value)?;
    }
    Ok(values)
}

// The front of a name and its value.
fn front_of<'a, A: Allocator + Copy>(
    alloc: A,
    option: UsageOption<'a>,
) -> Result<OptionFront<'a, A>, AllocError>
    ensures { IfOk result (λ front. said front ≡ spec.front_of (used_said option.entry)) }
{
    let mut names = Vec::new(alloc);
    names.push(option.name)?;
    let values = values_of(alloc, option.value)?;
    Ok(OptionFront {
        names,
        values,
        joint: option.joint,
        value: word_of(option.value),
        is_optional: is_optional(option.value),
        written: "",
        gap: "",
        help: "",
    })
}

// Without the value, if a description does not take it.
fn good_front<'a, A: Allocator + Copy>(
    alloc: A,
    option: UsageOption<'a>,
) -> Result<OptionFront<'a, A>, AllocError>
    ensures { IfOk result (λ front. said front ≡ spec.good_front (used_said option.entry)) }
{
    let front = front_of(alloc, option)?;
    if is_good(alloc, &front)? {
        Ok(front)
    } else {
        front_of(alloc, bare(option.name))
    }
}

impl<'a> Stray<'a> {
    fn key(self) -> &'a [u8]
        ensures { result.now ≡ spec.stray_key (stray_said self.entry) }
    {
        if self.is_letter {
            self.option.name.as_bytes()
        } else {
            key(self.option.name)
        }
    }
}

// Whether a description takes an option of this front, and its name is free, which is taken then.
fn take<'a, A: Allocator + Copy>(
    alloc: A,
    taken: &mut Words<'a, A>,
    stray: Stray<'a>,
    front: &OptionFront<'a, A>,
) -> Result<bool, AllocError>
    requires { said front.now ≡ spec.good_front (used_said stray.option) }
    ensures free { IfOk result (λ free. free ≡ spec.is_stray (held taken.old) (stray_said stray.entry)) }
    ensures after { IfOk result (λ free. held taken.new
        ≡ spec.with_stray free (spec.stray_key (stray_said stray.entry)) (held taken.old)) }
{
    let is_good = stray.is_letter || is_good(alloc, front)?;
    if !is_good || taken.has(stray.key()) {
        return Ok(false);
    }
    taken.put(stray.key())?;
    Ok(true)
}

fn push_letter<A: Allocator>(out: &mut String<A>, letter: &str) -> Result<(), AllocError>
    ensures { OnOk result (string_bytes out.new ≡ string_bytes out.old ++ spec.letter_table letter.now) }
{
    push_table(out, "option")?;
    push_word(out, "short", letter)
}

fn push_stray_table<A: Allocator, B: Allocator>(
    out: &mut String<A>,
    stray: Stray<'_>,
    front: &OptionFront<'_, B>,
) -> Result<(), AllocError>
    requires { said front.now ≡ spec.good_front (used_said stray.option) }
    ensures { OnOk result (string_bytes out.new ≡ string_bytes out.old ++ spec.stray (stray_said stray.entry)) }
{
    if stray.is_letter {
        push_letter(out, stray.option.name)
    } else {
        push_option_head(out, false, front)
    }
}

fn push_stray_if<A: Allocator, B: Allocator>(
    out: &mut String<A>,
    is_free: bool,
    stray: Stray<'_>,
    front: &OptionFront<'_, B>,
) -> Result<(), AllocError>
    requires { said front.now ≡ spec.good_front (used_said stray.option) }
    ensures { OnOk result (string_bytes out.new
        ≡ string_bytes out.old ++ spec.stray_if is_free (stray_said stray.entry)) }
{
    if is_free {
        push_stray_table(out, stray, front)
    } else {
        Ok(())
    }
}

fn push_stray<'a, A: Allocator + Copy>(
    alloc: A,
    out: &mut String<A>,
    taken: &mut Words<'a, A>,
    stray: Stray<'a>,
) -> Result<(), AllocError>
    ensures text { OnOk result (string_bytes out.new ≡ string_bytes out.old
        ++ spec.stray_if (spec.is_stray (held taken.old) (stray_said stray.entry)) (stray_said stray.entry)) }
    ensures after { OnOk result (held taken.new ≡ spec.with_stray
        (spec.is_stray (held taken.old) (stray_said stray.entry)) (spec.stray_key (stray_said stray.entry)) (held taken.old)) }
{
    let front = good_front(alloc, stray.option)?;
    let is_free = take(alloc, taken, stray, &front)?;
    push_stray_if(out, is_free, stray, &front)
}

/// Writes an option for each name that is free, which then takes it.
pub fn push_strays<'a, A: Allocator + Copy>(
    alloc: A,
    out: &mut String<A>,
    taken: &mut Words<'a, A>,
    strays: &[Stray<'a>],
) -> Result<(), AllocError>
    ensures { OnOk result (string_bytes out.new
        ≡ string_bytes out.old ++ spec.strays (held taken.old) (map stray_said strays.now)) }
{
    for stray in strays {
        push_stray(alloc, out, taken, *stray)?;
    }
    Ok(())
}
