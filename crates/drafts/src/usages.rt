//! The forms of a usage, and the program's name.
ghost use Rattle.std.specs.Prelude.{◌≡◌, ◌++◌, ◌∷◌, ◌-◌, ◌<◌, ◌≤◌, [], IfOk, OnOk, filter, length, map, true};
ghost use Rattle.std.specs.Char.{is_ascii_alphabetic};
ghost use Rattle.std.specs.List.{prefix_len, slice_index, suffix_len};
ghost use Rattle.help_fronts.specs.Bytes.{is_blank};
ghost use Rattle.toml_pieces.specs.View.{piece_said, text_of};
ghost use Rattle.drafts.specs.Usages as spec;
ghost use Rattle.drafts.specs.View.{form_said, placed_said};

use crate::options::{byte_at, is_blank};
use crate::places::Placed;
use crate::seen::{is_name, is_twice_read, without_colon};
use crate::texts::first_word;
use std::alloc::{AllocError, Allocator};
use toml_pieces::{Lead, Piece};

/// What a line of a usage says, and whether `usage` or `or:` stands before it.
#[derive(Clone, Copy)]
pub struct Form<'a> {
    pub is_marked: bool,
    pub text: &'a str,
}

// How many letters a text begins with.
fn letters_len(text: &[u8]) -> usize
    ensures { result ≡ prefix_len is_ascii_alphabetic text.now }
{
    for (index, byte) in text.iter().enumerate() {
        if !byte.is_ascii_alphabetic() {
            return index;
        }
    }
    text.len()
}

fn after_word(text: &str) -> &str
    ensures { result.now ≡ spec.after_word text.now }
{
    text[letters_len(text.as_bytes())..].trim()
}

fn after_colon(text: &str) -> &str
    ensures { result.now ≡ spec.after_colon text.now }
{
    if byte_at(text.as_bytes(), 0) == b':' {
        text[1..].trim()
    } else {
        text
    }
}

// After `of`, as in `Usage of ./tool:`, where a colon ends the form.
fn after_of(text: &str) -> &str
    ensures { result.now ≡ spec.after_of text.now }
{
    match text.strip_prefix("of ") {
        Some(rest) => without_colon(rest.trim()),
        None => text,
    }
}

fn first_form(line: &str) -> Form<'_>
    ensures { form_said result ≡ spec.first_form line.now }
{
    Form {
        is_marked: true,
        text: after_of(after_colon(after_word(line.trim()))),
    }
}

fn has_or(text: &[u8]) -> bool
    ensures { result ≡ spec.has_or text.now }
{
    byte_at(text, 0).to_ascii_lowercase() == b'o'
        && byte_at(text, 1).to_ascii_lowercase() == b'r'
        && byte_at(text, 2) == b':'
}

fn form_in(text: &str) -> Form<'_>
    ensures { form_said result ≡ spec.form_in text.now }
{
    if has_or(text.as_bytes()) {
        Form {
            is_marked: true,
            text: text[3..].trim(),
        }
    } else {
        Form {
            is_marked: false,
            text,
        }
    }
}

fn push_form<'a, A: Allocator>(
    forms: &mut Vec<Form<'a>, A>,
    form: Form<'a>,
) -> Result<(), AllocError>
    ensures { OnOk result (map form_said forms.new.items
        ≡ map form_said forms.old.items ++ filter spec.is_inked (form_said form.entry ∷ [])) }
{
    if !form.text.is_empty() {
        forms.push(form)?;
    }
    Ok(())
}

fn push_further_forms<'a, A: Allocator>(
    forms: &mut Vec<Form<'a>, A>,
    lines: &[&'a str],
) -> Result<(), AllocError>
    ensures { OnOk result (map form_said forms.new.items
        ≡ map form_said forms.old.items
        ++ filter spec.is_inked (map spec.further_form (map (λ line. line.now) lines.now))) }
{
    for line in lines {
        push_form(forms, form_in(line.trim()))?;
    }
    Ok(())
}

fn push_forms<'a, A: Allocator>(
    forms: &mut Vec<Form<'a>, A>,
    lines: &[&'a str],
) -> Result<(), AllocError>
    ensures { OnOk result (map form_said forms.new.items
        ≡ map form_said forms.old.items ++ filter spec.is_inked (spec.line_forms (map (λ line. line.now) lines.now))) }
{
    match lines {
        [] => Ok(()),
        [first, others @ ..] => {
            push_form(forms, first_form(first))?;
            push_further_forms(forms, others)
        }
    }
}

/// The forms of the usage.
pub fn forms<'a, A: Allocator>(
    alloc: A,
    placed: &[Placed<'a>],
) -> Result<Vec<Form<'a>, A>, AllocError>
    ensures { IfOk result (λ forms. map form_said forms.items ≡ spec.forms (map placed_said placed.now)) }
{
    let mut forms = Vec::new(alloc);
    for one in placed {
        if one.role.is_usage() {
            push_forms(&mut forms, one.passage.lines)?;
        }
    }
    Ok(forms)
}

// ---- words

fn mark<'a>(forms: &[Form<'a>]) -> &'a str
    ensures { result.now ≡ spec.mark (map form_said forms.now) }
{
    match forms {
        [] => "",
        [first, ..] => first_word(first.text),
    }
}

fn form_piece<'a>(mark: &str, form: Form<'a>) -> Piece<'a>
    ensures { piece_said result ≡ spec.form_piece mark.now (form_said form.entry) }
{
    if form.is_marked || first_word(form.text) == mark {
        Piece {
            lead: Lead::Line,
            text: form.text,
        }
    } else {
        Piece {
            lead: Lead::Joined,
            text: form.text,
        }
    }
}

/// The text of the usage: each form on a line.
pub fn usage_pieces<'a, A: Allocator>(
    alloc: A,
    forms: &[Form<'a>],
) -> Result<Vec<Piece<'a>, A>, AllocError>
    ensures { IfOk result (λ pieces. map piece_said pieces.items ≡ spec.usage_pieces (map form_said forms.now)) }
{
    let mark = mark(forms);
    let mut pieces = Vec::new(alloc);
    for form in forms {
        pieces.push(form_piece(mark, *form))?;
    }
    Ok(pieces)
}

// ---- the program's name

// How many bytes stand up to the last `/`.
fn last_part_start(text: &[u8]) -> usize
    ensures exact { result ≡ length text.now - suffix_len spec.is_no_slash text.now }
    ensures within { result ≤ length text.now }
    ensures slash { 0 < result → slice_index text.now (result - 1) ≡ 47 }
{
    let mut start = text.len();
    while start > 0 && text[start - 1] != b'/' {
        start -= 1;
    }
    start
}

fn last_part(text: &str) -> &str
    ensures { result.now ≡ spec.last_part text.now }
{
    &text[last_part_start(text.as_bytes())..]
}

fn is_program_name(name: &str) -> bool
    ensures { result ≡ spec.is_program_name name.now }
{
    is_name(name) && !(is_twice_read(name.as_bytes()) || byte_at(name.as_bytes(), 0) == b'-')
}

fn name_in_usage<'a>(forms: &[Form<'a>]) -> Option<&'a str>
    ensures { text_of result ≡ spec.name_in_usage (map form_said forms.now) }
{
    let name = last_part(mark(forms));
    if is_program_name(name) {
        Some(name)
    } else {
        None
    }
}

/// The name that is given, if a program may have it; where none is, that of the usage.
pub fn program_name<'a>(given: Option<&'a str>, forms: &[Form<'a>]) -> Option<&'a str>
    ensures { text_of result ≡ spec.program_name (text_of given.entry) (map form_said forms.now) }
{
    match given {
        Some(name) => is_program_name(name).then_some(name),
        None => name_in_usage(forms),
    }
}
