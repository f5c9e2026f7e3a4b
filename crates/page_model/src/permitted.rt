//! Which texts a page may have: those that every reader of a medium gives back.
#![tactic(auto)]

ghost use Rattle.std.specs.Prelude.{◌≡◌, [], ◌∷◌, flat_map, map, option_map};
ghost use Rattle.std.specs.Option.{option_or};
ghost use Rattle.std.specs.List.{list_all};
ghost use Rattle.std.specs.Str.{chars};
ghost use Rattle.page_model.specs.View.{block_of, chapter_of, entry_of, form_of, line_of, part_of};
ghost use Rattle.page_model.specs.View.{piece_of, target_of, text_of};
ghost use Rattle.page_model.specs.Permitted.{are_permitted, block_texts, chapter_texts, entry_texts, form_texts};
ghost use Rattle.page_model.specs.Permitted.{is_permitted, is_permitted_byte, is_permitted_form, is_permitted_part};
ghost use Rattle.page_model.specs.Permitted.{level_texts, line_texts, part_texts, piece_text, refused_in, target_texts};
ghost use Rattle.page_model.specs.Steps.{is_plain_byte};

use crate::parts::{Block, Chapter, Entry, Form, Inline, Line, Part, Target};
use std::alloc::Allocator;

fn is_permitted_byte(byte: u8) -> bool
    ensures { result ≡ is_permitted_byte byte }
{
    !(matches!(byte, 0..=8 | 11..=31) || byte == 127)
}

fn is_permitted(character: char) -> bool
    ensures { result ≡ is_permitted character }
{
    let code = u32::from(character);
    let is_noncharacter = (0xFDD0..=0xFDEF).contains(&code) || code % 0x1_0000 >= 0xFFFE;
    let is_control = (code < 32 && !(code == 9 || code == 10)) || (127..=159).contains(&code);
    !is_control && !is_noncharacter
}

fn are_permitted_bytes(text: &str) -> bool
    ensures { result ≡ list_all is_permitted_byte text.now }
{
    text.as_bytes().iter().all(|byte| is_permitted_byte(*byte))
}

fn are_permitted_characters(text: &str) -> bool
    ensures { result ≡ list_all is_permitted (chars text.now) }
{
    text.chars().all(|character| is_permitted(character))
}

fn is_plain_byte(byte: u8) -> bool
    ensures { result ≡ is_plain_byte byte }
{
    matches!(byte, b'\t' | b'\n' | b' '..=b'~')
}

fn are_plain_bytes(text: &str) -> bool
    ensures { result ≡ list_all is_plain_byte text.now }
{
    text.as_bytes().iter().all(|byte| is_plain_byte(*byte))
}

/// Whether a text holds no control character but newline and tab, and no noncharacter of Unicode. Of most texts the
/// bytes tell it, and then no character is put together.
#[tactic(auto, using(crate::proofs::Plain::plain_bytes))]
pub fn are_permitted(text: &str) -> bool
    ensures { result ≡ are_permitted text.now }
{
    are_plain_bytes(text) || (are_permitted_bytes(text) && are_permitted_characters(text))
}

// The text, unless it is permitted.
fn refused(text: &str) -> Option<&str>
    ensures { text_of result ≡ refused_in (text.now ∷ []) }
{
    if are_permitted(text) {
        None
    } else {
        Some(text)
    }
}

fn refused_in_piece<'a>(piece: &Inline<'a>) -> Option<&'a str>
    ensures { text_of result ≡ refused_in (piece_text (piece_of piece.now) ∷ []) }
{
    match piece {
        Inline::Words(text)
        | Inline::Literal(text)
        | Inline::Value(text)
        | Inline::Link(text)
        | Inline::Page(text) => refused(*text),
    }
}

fn refused_in_line<'a>(line: &[Inline<'a>]) -> Option<&'a str>
    ensures { text_of result ≡ refused_in (line_texts (line_of line.now)) }
{
    for one in line {
        let found = refused_in_piece(one);
        if found.is_some() {
            return found;
        }
    }
    None
}

fn refused_in_lines<'a, A: Allocator>(lines: &[Line<'a, A>]) -> Option<&'a str>
    ensures { text_of result ≡ refused_in (flat_map line_texts (map (λ line. line_of line.items) lines.now)) }
{
    for one in lines {
        let found = refused_in_line(one.as_slice());
        if found.is_some() {
            return found;
        }
    }
    None
}

fn refused_in_items<'a, A: Allocator>(items: &[Vec<Line<'a, A>, A>]) -> Option<&'a str>
    ensures { text_of result ≡ refused_in (flat_map (flat_map line_texts)
        (map (λ item. map (λ line. line_of line.items) item.items) items.now)) }
{
    for one in items {
        let found = refused_in_lines(one.as_slice());
        if found.is_some() {
            return found;
        }
    }
    None
}

fn refused_in_texts<'a>(texts: &[&'a str]) -> Option<&'a str>
    ensures { text_of result ≡ refused_in (flat_map (λ text. text ∷ []) (map (λ text. text.now) texts.now)) }
{
    for one in texts {
        let found = refused(*one);
        if found.is_some() {
            return found;
        }
    }
    None
}

#[tactic(auto, using(crate::proofs::Refused::texts_seen))]
fn refused_in_block<'a, A: Allocator>(block: &Block<'a, A>) -> Option<&'a str>
    ensures { text_of result ≡ refused_in (block_texts (block_of block.now)) }
{
    match block {
        Block::Paragraph(lines) => refused_in_lines(lines.as_slice()),
        Block::Code(lines) => refused_in_texts(lines.as_slice()),
        Block::List(items) => refused_in_items(items.as_slice()),
    }
}

fn refused_in_blocks<'a, A: Allocator>(blocks: &[Block<'a, A>]) -> Option<&'a str>
    ensures { text_of result ≡ refused_in (flat_map block_texts (map block_of blocks.now)) }
{
    for one in blocks {
        let found = refused_in_block(one);
        if found.is_some() {
            return found;
        }
    }
    None
}

fn refused_in_target<'a>(target: Option<Target<'a>>) -> Option<&'a str>
    ensures { text_of result ≡ refused_in (target_texts (option_map target_of target.entry)) }
{
    match target {
        None => None,
        Some(Target::Page(name)) => refused(name),
        Some(Target::Heading(title)) => refused(title),
    }
}

// The first of two answers.
fn first_of<'a>(first: Option<&'a str>, second: Option<&'a str>) -> Option<&'a str>
    ensures { text_of result ≡ option_or (text_of first.entry) (text_of second.entry) }
{
    match first {
        None => second,
        found => found,
    }
}

#[tactic(auto, using(crate::proofs::Refused::refused_append))]
fn refused_in_entry<'a, A: Allocator>(entry: &Entry<'a, A>) -> Option<&'a str>
    ensures { text_of result ≡ refused_in (entry_texts (entry_of entry.now)) }
{
    let content = first_of(
        refused_in_lines(entry.terms.as_slice()),
        refused_in_blocks(entry.body.as_slice()),
    );
    first_of(refused_in_target(entry.target), content)
}

fn refused_in_form<'a, A: Allocator>(form: &Form<'a, A>) -> Option<&'a str>
    ensures { text_of result ≡ refused_in (form_texts (form_of form.now)) }
{
    first_of(refused(form.name), refused_in_lines(form.items.as_slice()))
}

fn refused_in_entries<'a, A: Allocator>(entries: &[Entry<'a, A>]) -> Option<&'a str>
    ensures { text_of result ≡ refused_in (flat_map entry_texts (map entry_of entries.now)) }
{
    for one in entries {
        let found = refused_in_entry(one);
        if found.is_some() {
            return found;
        }
    }
    None
}

/// The first text of the forms of a usage that is not permitted.
pub fn refused_in_forms<'a, A: Allocator>(forms: &[Form<'a, A>]) -> Option<&'a str>
    ensures { text_of result ≡ refused_in (flat_map form_texts (map form_of forms.now)) }
{
    for one in forms {
        let found = refused_in_form(one);
        if found.is_some() {
            return found;
        }
    }
    None
}

fn refused_in_part<'a, A: Allocator>(part: &Part<'a, A>) -> Option<&'a str>
    ensures { text_of result ≡ refused_in (part_texts (part_of part.now)) }
{
    match part {
        Part::Heading(_, title) => refused(*title),
        Part::Usage(forms) => refused_in_forms(forms.as_slice()),
        Part::Block(block) => refused_in_block(block),
        Part::Entries(entries) => refused_in_entries(entries.as_slice()),
    }
}

/// The first text of a page that is not permitted: that for which each medium refuses the page, where it has one.
pub fn refused_in_parts<'a, A: Allocator>(parts: &[Part<'a, A>]) -> Option<&'a str>
    ensures { text_of result ≡ refused_in (flat_map part_texts (map part_of parts.now)) }
{
    for one in parts {
        let found = refused_in_part(one);
        if found.is_some() {
            return found;
        }
    }
    None
}

/// Whether each text of the forms of a usage is permitted.
pub fn are_permitted_forms<A: Allocator>(forms: &[Form<'_, A>]) -> bool
    ensures { result ≡ list_all (λ form. is_permitted_form (form_of form)) forms.now }
{
    refused_in_forms(forms).is_none()
}

/// Whether each text of a page is permitted.
pub fn are_permitted_parts<A: Allocator>(parts: &[Part<'_, A>]) -> bool
    ensures { result ≡ list_all (λ part. is_permitted_part (part_of part)) parts.now }
{
    refused_in_parts(parts).is_none()
}

// The first text of a level itself that is not permitted.
#[tactic(auto, using(crate::proofs::Refused::refused_append))]
fn refused_in_level<'a, A: Allocator>(chapter: &Chapter<'a, A>) -> Option<&'a str>
    ensures { text_of result ≡ refused_in (level_texts (chapter_of chapter.now)) }
{
    let names = first_of(refused(chapter.title), refused(chapter.name));
    let content = first_of(
        refused_in_blocks(chapter.about.as_slice()),
        refused_in_parts(chapter.parts.as_slice()),
    );
    first_of(names, content)
}

/// The first text of a level that is not permitted, or of those below it.
#[cycle(chapters)]
#[tactic(auto, using(crate::proofs::Refused::refused_append))]
pub fn refused_in_chapter<'a, A: Allocator>(chapter: &Chapter<'a, A>) -> Option<&'a str>
    ensures { text_of result ≡ refused_in (chapter_texts (chapter_of chapter.now)) }
{
    first_of(
        refused_in_level(chapter),
        refused_in_chapters(chapter.below.as_slice()),
    )
}

#[cycle(chapters)]
fn refused_in_chapters<'a, A: Allocator>(chapters: &[Chapter<'a, A>]) -> Option<&'a str>
    ensures { text_of result ≡ refused_in (flat_map chapter_texts (map chapter_of chapters.now)) }
{
    for one in chapters {
        let found = refused_in_chapter(one);
        if found.is_some() {
            return found;
        }
    }
    None
}
