//! The forms of a text that stands in place of a usage, one per line.
ghost use Rattle.std.specs.Prelude.{◌≡◌, ◌++◌, ◌∷◌, ◌==◌, [], filter, map, not, option_to_list, IfOk, OnOk};
ghost use Rattle.std.specs.List.{list_any, slice_split};
ghost use Rattle.std.specs.Option.{option_map};
ghost use Rattle.page_model.specs.View.{form_of, line_of, piece_of};
ghost use Rattle.description_usage.specs.Forms.{after_colon, after_word, blank_for_tab, form_text, line_form};
ghost use Rattle.description_usage.specs.Forms.{text_forms, untabbed, usage_forms, without_lead};
ghost use Rattle.description.specs.View.{level_said};
ghost use Rattle.description.specs.Words.{words_said};
ghost use Rattle.description_usage.specs.Forms.{bracket_of, is_empty, is_stand_in, line_parts, part_line};
ghost use Rattle.description_usage.specs.Forms.{parts_form, restored, restored_piece};

use crate::lines::one;
use crate::lone::shaped;
use crate::names::{ArenaLine, ArenaLines};
use crate::syntax::{push_syntax, split_part, without_front, without_margins};
use crate::usage::usage_items;
use bumpalo::Bump;
use description::{FixedWords, Level};
use page_model::replaced::{StandIns, push_replaced};
use page_model::{Form, Inline};
use std::alloc::{AllocError, Allocator};

/// A form in an arena.
pub type ArenaForm<'p, A> = Form<'p, &'p Bump<A>>;

// ---- brackets in no pair

// What stands for a bracket in no pair while a line is read.
#[derive(Clone, Copy)]
struct Lone;

impl StandIns for Lone {
    ghost replaced = { λ _ byte. bracket_of byte ∷ [] };

    fn stand_in(self, byte: u8) -> Option<&'static str> {
        match byte {
            1 => Some("["),
            2 => Some("]"),
            3 => Some("("),
            4 => Some(")"),
            5 => Some("{"),
            6 => Some("}"),
            7 => Some("<"),
            8 => Some(">"),
            _ => None,
        }
    }
}

fn is_stand_in(byte: u8) -> bool
    ensures { result ≡ is_stand_in byte }
{
    0 < byte && byte < 9
}

fn holds_stand_in(text: &str) -> bool
    ensures { result ≡ list_any is_stand_in text.now }
{
    text.as_bytes().iter().any(|byte| is_stand_in(*byte))
}

// A text of a line with the brackets that it had.
#[tactic(auto, using(crate::proofs::Restored::none_restored, crate::proofs::Restored::one_each))]
fn restored<'p, A: Allocator>(arena: &'p Bump<A>, text: &'p str) -> Result<&'p str, AllocError>
    ensures { IfOk result (λ whole. whole.now ≡ restored text.now) }
{
    if !holds_stand_in(text) {
        return Ok(text);
    }
    let mut whole = String::new(arena);
    push_replaced(&mut whole, text, Lone)?;
    arena.try_alloc_str(whole.as_str())
}

fn restored_piece<'p, A: Allocator>(
    arena: &'p Bump<A>,
    piece: Inline<'p>,
) -> Result<Inline<'p>, AllocError>
    ensures { IfOk result (λ whole. piece_of whole ≡ restored_piece (piece_of piece.entry)) }
{
    Ok(match piece {
        Inline::Words(text) => Inline::Words(restored(arena, text)?),
        Inline::Literal(text) => Inline::Literal(restored(arena, text)?),
        Inline::Value(text) => Inline::Value(restored(arena, text)?),
        Inline::Link(text) => Inline::Link(restored(arena, text)?),
        Inline::Page(name) => Inline::Page(restored(arena, name)?),
    })
}

fn restored_line<'p, A: Allocator>(
    arena: &'p Bump<A>,
    pieces: &[Inline<'p>],
) -> Result<ArenaLine<'p, A>, AllocError>
    ensures { IfOk result (λ line. line_of line.items ≡ map restored_piece (line_of pieces.now)) }
{
    let mut line = Vec::new(arena);
    for piece in pieces {
        line.push(restored_piece(arena, *piece)?)?;
    }
    Ok(line)
}

// ---- a form

fn part_line<'p, A: Allocator>(
    arena: &'p Bump<A>,
    part: &'p str,
) -> Result<ArenaLine<'p, A>, AllocError>
    ensures { IfOk result (λ line. line_of line.items ≡ part_line part.now) }
{
    let mut line = Vec::new(arena);
    push_syntax(&mut line, part)?;
    restored_line(arena, line.as_slice())
}

fn part_lines<'p, A: Allocator>(
    arena: &'p Bump<A>,
    parts: &[&'p str],
) -> Result<ArenaLines<'p, A>, AllocError>
    ensures { IfOk result (λ lines. map (λ line. line_of line.items) lines.items
        ≡ map part_line (map (λ part. part.now) parts.now)) }
{
    let mut lines = Vec::new(arena);
    for part in parts {
        lines.push(part_line(arena, part)?)?;
    }
    Ok(lines)
}

fn push_part<'a, A: Allocator>(parts: &mut Vec<&'a str, A>, part: &'a str) -> Result<(), AllocError>
    ensures { OnOk result (map (λ part. part.now) parts.new.items
        ≡ map (λ part. part.now) parts.old.items ++ filter (λ part. not (is_empty part)) (part.now ∷ [])) }
{
    if !part.is_empty() {
        parts.push(part)?;
    }
    Ok(())
}

// The parts that blanks outside brackets separate.
fn line_parts<'a, A: Allocator>(alloc: A, line: &'a str) -> Result<Vec<&'a str, A>, AllocError>
    ensures { IfOk result (λ parts. map (λ part. part.now) parts.items ≡ line_parts line.now) }
{
    let mut parts = Vec::new(alloc);
    let mut rest = line;
    while let Some((part, after)) = split_part(rest, b' ') {
        push_part(&mut parts, part)?;
        rest = after;
    }
    push_part(&mut parts, rest)?;
    Ok(parts)
}

// The form of a line: the first part stands for the names. None where there is no part.
fn parts_form<'p, A: Allocator>(
    arena: &'p Bump<A>,
    parts: &[&'p str],
) -> Result<Option<ArenaForm<'p, A>>, AllocError>
    ensures { IfOk result (λ form. map form_of (option_to_list form)
        ≡ parts_form (map (λ part. part.now) parts.now)) }
{
    let Some((first, others)) = parts.split_first() else {
        return Ok(None);
    };
    Ok(Some(Form {
        name: restored(arena, first)?,
        items: part_lines(arena, others)?,
    }))
}

fn line_form<'p, A: Allocator>(
    arena: &'p Bump<A>,
    line: &str,
) -> Result<Option<ArenaForm<'p, A>>, AllocError>
    ensures { IfOk result (λ form. map form_of (option_to_list form) ≡ line_form line.now) }
{
    let shaped = shaped(arena, line)?;
    let parts = line_parts(arena, shaped)?;
    parts_form(arena, parts.as_slice())
}

// ---- lines

// A blank for a tab.
#[derive(Clone, Copy)]
struct Tabs;

impl StandIns for Tabs {
    ghost replaced = { λ _ byte. blank_for_tab byte ∷ [] };

    fn stand_in(self, byte: u8) -> Option<&'static str> {
        if byte == b'\t' { Some(" ") } else { None }
    }
}

#[tactic(auto, using(crate::proofs::Restored::tabs_each))]
fn untabbed<'p, A: Allocator>(arena: &'p Bump<A>, text: &str) -> Result<&'p str, AllocError>
    ensures { IfOk result (λ whole. whole.now ≡ untabbed text.now) }
{
    let mut whole = String::new(arena);
    push_replaced(&mut whole, text, Tabs)?;
    arena.try_alloc_str(whole.as_str())
}

fn after_colon(text: &str) -> Option<&str>
    ensures { option_map (λ rest. rest.now) result ≡ after_colon text.now }
{
    match text.as_bytes() {
        [b':'] | [b':', b' ', ..] => Some(without_front(&text[1..])),
        _ => None,
    }
}

fn after_word<'a>(line: &'a str, word: &str) -> Option<&'a str>
    ensures { option_map (λ rest. rest.now) result ≡ after_word word.now line.now }
{
    line.strip_prefix(word)
}

// A line without a word at its front that a colon follows, with a blank or nothing after it.
fn without_lead<'a>(line: &'a str, word: &str) -> &'a str
    ensures { result.now ≡ without_lead word.now line.now }
{
    match after_word(line, word) {
        None => line,
        Some(rest) => after_colon(rest).unwrap_or(line),
    }
}

fn form_text<'a>(line: &'a str, word: &str) -> &'a str
    ensures { result.now ≡ form_text word.now line.now }
{
    without_lead(without_lead(without_margins(line), "Usage"), word)
}

fn lines_in<'a, A: Allocator>(alloc: A, text: &'a str) -> Result<Vec<&'a str, A>, AllocError>
    ensures { IfOk result (λ lines. map (λ line. line.now) lines.items
        ≡ slice_split (λ b. b == 10) text.now) }
{
    text.split('\n').collect(alloc)
}

fn push_form<'p, A: Allocator>(
    arena: &'p Bump<A>,
    forms: &mut Vec<ArenaForm<'p, A>, &'p Bump<A>>,
    line: &str,
) -> Result<(), AllocError>
    ensures { OnOk result (map form_of forms.new.items ≡ map form_of forms.old.items ++ line_form line.now) }
{
    if let Some(form) = line_form(arena, line)? {
        forms.push(form)?;
    }
    Ok(())
}

/// The forms of a text that stands in place of a usage, one for each line that is not blank. The first part of a line
/// stands for the names. An error comes only where an allocation failed.
pub fn text_forms<'p, A: Allocator>(
    arena: &'p Bump<A>,
    words: &FixedWords<'_>,
    text: &str,
) -> Result<Vec<ArenaForm<'p, A>, &'p Bump<A>>, AllocError>
    ensures { IfOk result (λ forms. map form_of forms.items ≡ text_forms (words_said words.now) text.now) }
{
    let text = untabbed(arena, text)?;
    let lines = lines_in(arena, text)?;
    let mut forms = Vec::new(arena);
    for line in lines.as_slice() {
        push_form(arena, &mut forms, form_text(line, words.usage))?;
    }
    Ok(forms)
}

// ---- the level

/// The forms of the usage of a level: those of its text, or one, of the names that lead there and its items. An error
/// comes only where an allocation failed.
pub fn usage_forms<'p, 'a: 'p, A: Allocator, B: Allocator>(
    arena: &'p Bump<A>,
    words: &FixedWords<'p>,
    names: &'p str,
    level: &Level<'a, B>,
) -> Result<Vec<ArenaForm<'p, A>, &'p Bump<A>>, AllocError>
    ensures { IfOk result (λ forms. map form_of forms.items
        ≡ usage_forms (words_said words.now) names.now (level_said level.now)) }
{
    match level.usage {
        Some(text) => text_forms(arena, words, text),
        None => {
            let items = usage_items(arena, words, level)?;
            one(arena, Form { name: names, items })
        }
    }
}
