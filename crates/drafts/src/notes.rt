//! The notes at the end of a help.
ghost use Rattle.std.specs.Prelude.{◌≡◌, ◌++◌, ◌≤◌, ◌<◌, IfOk, IfSome, MatchOption, None, OnOk, Some, codes, flat_map, length, map, string_bytes, take};
ghost use Rattle.std.specs.List.{list_all, list_any};
ghost use Rattle.std.specs.Option.{option_map};
ghost use Rattle.std.specs.Str.{trim};
ghost use Rattle.toml_pieces.specs.View.{piece_said, text_of};
ghost use Rattle.drafts.specs.Seen as seen;
ghost use Rattle.drafts.specs.Notes as spec;
ghost use Rattle.drafts.specs.View.{cut_said, ended_said, note_said, notes_said, split_said};

use crate::options::byte_at;
use crate::passages::lines_in;
use crate::seen::{is_name, is_word, last_byte};
use crate::texts::push_lines;
use description::split_value;
use std::alloc::{AllocError, Allocator};
use toml_pieces::{Piece, push_list, push_optional, push_text};

/// What a note says.
#[derive(Clone, Copy)]
pub enum NoteKind {
    Default,
    Values,
    Env,
}

/// What has a help.
#[derive(Clone, Copy)]
pub enum Subject {
    Flag,
    Option,
    Positional,
    Command,
}

#[derive(Clone, Copy)]
pub struct Note<'a> {
    pub kind: NoteKind,
    pub text: &'a str,
}

// ---- one note

// What stands before the last byte, if it is this one.
fn before(text: &str, closing: u8) -> Option<&str>
    requires some { 0 < closing }
    requires ascii { closing < 128 }
    ensures value { text_of result ≡ spec.before closing text.now }
    ensures front { IfSome result (λ front. spec.IsFront front.now text.now) }
{
    if last_byte(text.as_bytes()) == closing {
        Some(&text[..text.len() - 1])
    } else {
        None
    }
}

// What stands before the last such bracket, and after it.
fn split_last(text: &str, bracket: char) -> Option<(&str, &str)>
    requires { bracket < 128 }
    ensures value { split_said result ≡ spec.split_last bracket text.now }
    ensures front { IfSome result (λ found. spec.IsFront found.0.now text.now) }
{
    match text.rfind(bracket) {
        None => None,
        Some(index) => Some((&text[..index], &text[index + 1..])),
    }
}

// What stands before the brackets that a text ends with, and in them.
fn bracketed(text: &str) -> Option<(&str, &str)>
    ensures value { split_said result ≡ spec.bracketed text.now }
    ensures front { IfSome result (λ found. spec.IsFront found.0.now text.now) }
{
    if let Some(open) = before(text, b']') {
        split_last(open, '[')
    } else if let Some(open) = before(text, b')') {
        split_last(open, '(')
    } else {
        None
    }
}

impl NoteKind {
    fn opening(self) -> &'static str
        ensures { result.now ≡ spec.opening self }
    {
        match self {
            NoteKind::Default => "default: ",
            NoteKind::Values => "possible values: ",
            NoteKind::Env => "env: ",
        }
    }
}

fn note_of(kind: NoteKind, text: &str) -> Note<'_>
    ensures { note_said result ≡ spec.note_of kind text.now }
{
    Note {
        kind,
        text: text.trim(),
    }
}

/// What stands after a beginning, if a text has it.
pub fn after<'a>(beginning: &str, text: &'a str) -> Option<&'a str>
    ensures { text_of result ≡ spec.after beginning.now text.now }
{
    text.strip_prefix(beginning)
}

fn note_of_kind(kind: NoteKind, inner: &str) -> Option<Note<'_>>
    ensures { option_map note_said result ≡ spec.note_of_kind kind inner.now }
{
    let text = after(kind.opening(), inner)?;
    Some(note_of(kind, text))
}

fn has_space(text: &str) -> bool
    ensures { result ≡ list_any spec.is_space text.now }
{
    text.as_bytes().iter().any(|byte| *byte == b' ')
}

fn unquoted(text: &str) -> Option<&str>
    ensures { text_of result ≡ spec.unquoted text.now }
{
    if byte_at(text.as_bytes(), 0) == b'"' {
        before(&text[1..], b'"')
    } else if has_space(text) {
        None
    } else {
        Some(text)
    }
}

fn bare_default(inner: &str) -> Option<Note<'_>>
    ensures { option_map note_said result ≡ spec.bare_default inner.now }
{
    let text = unquoted(after("default ", inner)?)?;
    Some(note_of(NoteKind::Default, text))
}

fn note_in(inner: &str) -> Option<Note<'_>>
    ensures { option_map note_said result ≡ spec.note_in inner.now }
{
    note_of_kind(NoteKind::Default, inner)
        .or(note_of_kind(NoteKind::Values, inner))
        .or(note_of_kind(NoteKind::Env, inner))
        .or(bare_default(inner))
}

// The note that a text ends with, and what stands before it.
fn last_note(text: &str) -> Option<(&str, Note<'_>)>
    ensures value { ended_said result ≡ spec.last_note text.now }
    ensures front { IfSome result (λ found. spec.IsFront found.0.now text.now) }
{
    let (before, inner) = bracketed(text)?;
    let note = note_in(inner)?;
    Some((before.trim_end(), note))
}

// ---- all notes of a text

/// Notes, each of another kind.
#[derive(Clone, Copy)]
pub struct Notes<'a> {
    pub preset: Option<&'a str>,
    pub values: Option<&'a str>,
    pub env: Option<&'a str>,
    /// Whether each kind occurs at most once.
    pub are_single: bool,
}

fn variable(text: &str) -> &str
    ensures { result.now ≡ spec.variable text.now }
{
    match text.split_once('=') {
        None => text,
        Some((name, _)) => name,
    }
}

fn are_words(text: &str) -> bool
    ensures { result ≡ spec.are_words text.now }
{
    let mut rest = text;
    while let Some((word, others)) = split_value(rest) {
        if !is_word(word.trim()) {
            return false;
        }
        rest = others;
    }
    is_word(rest.trim())
}

impl Subject {
    fn takes_value(self) -> bool
        ensures { result ≡ spec.takes_value self }
    {
        matches!(self, Subject::Option | Subject::Positional)
    }

    fn takes_variable(self) -> bool
        ensures { result ≡ spec.takes_variable self }
    {
        matches!(self, Subject::Flag | Subject::Option)
    }
}

impl<'a> Notes<'a> {
    fn none() -> Self
        ensures { notes_said result ≡ spec.no_notes }
    {
        Notes {
            preset: None,
            values: None,
            env: None,
            are_single: true,
        }
    }

    fn with(self, note: Note<'a>) -> Self
        ensures { notes_said result ≡ spec.with_note (notes_said self.entry) (note_said note.entry) }
    {
        match note.kind {
            NoteKind::Default => Notes {
                preset: Some(note.text),
                are_single: self.are_single && self.preset.is_none(),
                ..self
            },
            NoteKind::Values => Notes {
                values: Some(note.text),
                are_single: self.are_single && self.values.is_none(),
                ..self
            },
            NoteKind::Env => Notes {
                env: Some(variable(note.text)),
                are_single: self.are_single && self.env.is_none(),
                ..self
            },
        }
    }

    fn has_good_preset(self, subject: Subject) -> bool
        ensures { result ≡ spec.may_have (spec.takes_value subject) seen.is_word (notes_said self.entry).preset }
    {
        match self.preset {
            None => true,
            Some(text) => subject.takes_value() && is_word(text),
        }
    }

    fn has_good_values(self, subject: Subject) -> bool
        ensures { result ≡ spec.may_have (spec.takes_value subject) spec.are_words (notes_said self.entry).values }
    {
        match self.values {
            None => true,
            Some(text) => subject.takes_value() && are_words(text),
        }
    }

    fn has_good_env(self, subject: Subject) -> bool
        ensures { result ≡ spec.may_have (spec.takes_variable subject) seen.is_name (notes_said self.entry).env }
    {
        match self.env {
            None => true,
            Some(name) => subject.takes_variable() && is_name(name),
        }
    }

    // Whether an entry may have them all.
    fn fit(self, subject: Subject) -> bool
        ensures { result ≡ spec.fit subject (notes_said self.entry) }
    {
        self.are_single
            && self.has_good_preset(subject)
            && self.has_good_values(subject)
            && self.has_good_env(subject)
    }
}

/// A text without the notes at its end, and these.
#[derive(Clone, Copy)]
pub struct Cut<'a> {
    pub rest: &'a str,
    pub notes: Notes<'a>,
}

fn cut_notes(text: &str) -> Cut<'_>
    ensures value { cut_said result ≡ spec.cut text.now }
    ensures front { spec.IsFront result.rest.now text.now }
{
    let mut rest = text;
    let mut notes = Notes::none();
    let mut most = text.len();
    while most > 0 {
        let Some((before, note)) = last_note(rest) else {
            return Cut { rest, notes };
        };
        rest = before;
        notes = notes.with(note);
        most -= 1;
    }
    Cut { rest, notes }
}

// ---- the help

fn push_below<A: Allocator>(
    text: &mut String<A>,
    between: &str,
    below: &[&str],
) -> Result<(), AllocError>
    ensures { OnOk result (string_bytes text.new ≡ string_bytes text.old
        ++ flat_map (spec.joined_line between.now) (map (λ line. line.now) below.now)) }
{
    for line in below {
        text.push_str(between)?;
        text.push_str(line.trim())?;
    }
    Ok(())
}

// The lines without their indent, with a text between two.
fn joined<A: Allocator>(alloc: A, between: &str, lines: &[&str]) -> Result<String<A>, AllocError>
    ensures { IfOk result (λ text. string_bytes text ≡ spec.joined between.now (map (λ line. line.now) lines.now)) }
{
    let mut text = String::new(alloc);
    if let [first, below @ ..] = lines {
        text.push_str(first.trim())?;
        push_below(&mut text, between, below)?;
    }
    Ok(text)
}

fn pieces_in<'a, A: Allocator + Copy>(
    alloc: A,
    text: &'a str,
) -> Result<Vec<Piece<'a>, A>, AllocError>
    ensures { IfOk result (λ pieces. map piece_said pieces.items ≡ spec.pieces_in text.now) }
{
    let mut pieces = Vec::new(alloc);
    if !text.is_empty() {
        let lines = lines_in(alloc, text)?;
        push_lines(&mut pieces, &lines)?;
    }
    Ok(pieces)
}

fn listed<'a, A: Allocator>(alloc: A, text: &'a str) -> Result<Vec<&'a str, A>, AllocError>
    ensures { IfOk result (λ words. map (λ w. w.now) words.items ≡ spec.listed text.now) }
{
    let mut words = Vec::new(alloc);
    let mut rest = text;
    while let Some((word, others)) = split_value(rest) {
        words.push(word.trim())?;
        rest = others;
    }
    words.push(rest.trim())?;
    Ok(words)
}

fn push_values<A: Allocator + Copy>(
    alloc: A,
    out: &mut String<A>,
    values: Option<&str>,
) -> Result<(), AllocError>
    ensures { OnOk result (string_bytes out.new
        ≡ string_bytes out.old ++ spec.values_at (text_of values.entry)) }
{
    match values {
        None => Ok(()),
        Some(text) => push_list(out, "values", &listed(alloc, text)?),
    }
}

fn push_noted<A: Allocator + Copy>(
    alloc: A,
    out: &mut String<A>,
    text: &str,
    notes: Notes<'_>,
) -> Result<(), AllocError>
    ensures { OnOk result (string_bytes out.new
        ≡ string_bytes out.old ++ spec.help_text (spec.helped text.now (notes_said notes.entry))) }
{
    let pieces = pieces_in(alloc, text)?;
    push_text(out, "help", &pieces)?;
    push_optional(out, "default", notes.preset)?;
    push_values(alloc, out, notes.values)?;
    push_optional(out, "env", notes.env)
}

/// Writes the help of an entry, and the notes at its end as keys, if it may have them all.
pub fn push_help<A: Allocator + Copy>(
    alloc: A,
    out: &mut String<A>,
    subject: Subject,
    lines: &[&str],
) -> Result<(), AllocError>
    ensures { OnOk result (string_bytes out.new ≡ string_bytes out.old
        ++ spec.help_text (spec.help_said subject (map (λ line. line.now) lines.now))) }
{
    let text = joined(alloc, "\n", lines)?;
    let flat = joined(alloc, " ", lines)?;
    let cut = cut_notes(&flat);
    if cut.notes.fit(subject) {
        push_noted(alloc, out, &text[..cut.rest.len()], cut.notes)
    } else {
        push_noted(alloc, out, &text, Notes::none())
    }
}
