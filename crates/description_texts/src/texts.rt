//! The texts of a description, as blocks of a page.
#![tactic(auto, using(crate::proofs::TextsBounds::bounds))]

ghost use Rattle.std.specs.Prelude.{◌≡◌, ◌≤◌, ◌+◌, ◌++◌, ◌∷◌, [], false, length, map, min, suc};
ghost use Rattle.std.specs.Prelude.{IfOk, MatchOption, OnOk};
ghost use Rattle.std.specs.Option.{option_to_list};
ghost use Rattle.std.specs.List.{before_first, position_or_len, prefix_len};
ghost use Rattle.page_model.specs.View.{block_of, line_of};
ghost use Rattle.description_texts.specs.TextsCut.{cut};
ghost use Rattle.description_texts.specs.Texts.{begins_blank, begins_fence, code_line, code_more, first_paragraph};
ghost use Rattle.description_texts.specs.Texts.{goes_on, is_empty};
ghost use Rattle.description_texts.specs.Texts.{is_blank_kind, is_plain, item_said, line_more, line_said, lines_more};
ghost use Rattle.description_texts.specs.Texts.{list_more, marked, plain_more, some_code, text_blocks, without_marker};
ghost use Rattle.description_texts.specs.TextsView.{opens, own_said, says_nothing};

use crate::texts::inside::shown_line;
use crate::texts::lines::{Kind, begins_fence, blanks, is_blank_line, is_fence, kind_of, lines};
use crate::texts::spacing::are_all_white;
use bumpalo::Bump;
use page_model::{Block, Line};
use std::alloc::{AllocError, Allocator};

mod inside;
mod lines;
mod links;
mod literals;
mod pieces;
mod spacing;

pub use pieces::{gathered, push_some};

// The lines of a paragraph, and the items of a list, in an arena.
type Lines<'a> = Vec<Line<'a, &'a Bump>, &'a Bump>;

type Items<'a> = Vec<Lines<'a>, &'a Bump>;

// How many lines there are up to the next one that begins with three backquotes.
fn fenced_len(lines: &[&str]) -> usize
    ensures { result ≡ position_or_len (λ line. begins_fence line.now) lines.now }
{
    lines.iter().take_while(|line| !begins_fence(line)).count()
}

// How many there are with that line, if there is one.
fn fence_len(lines: &[&str]) -> usize
    ensures { result ≡ min (suc (position_or_len (λ line. begins_fence line.now) lines.now)) (length lines.now) }
{
    let len = fenced_len(lines);
    if len < lines.len() { len + 1 } else { len }
}

fn is_plain(line: &str) -> bool
    ensures { result ≡ is_plain line.now }
{
    matches!(kind_of(line), Kind::Plain)
}

fn plain_len(lines: &[&str]) -> usize
    ensures { result ≡ prefix_len (λ line. is_plain line.now) lines.now }
{
    lines.iter().take_while(|line| is_plain(line)).count()
}

fn begins_blank(line: &str) -> bool
    ensures { result ≡ begins_blank line.now }
{
    blanks(line) > 0
}

// How many lines there are up to the next line break.
fn unbroken_len(lines: &[&str]) -> usize
    ensures { result ≡ position_or_len (λ line. begins_blank line.now) lines.now }
{
    lines.iter().take_while(|line| !begins_blank(line)).count()
}

// How many lines after a line of code belong to it.
fn code_len(lines: &[&str]) -> usize
    ensures { result ≡ code_more (map (λ line. line.now) lines.now) }
{
    let mut len = 0;
    for (at, line) in lines.iter().enumerate() {
        match kind_of(line) {
            Kind::Code => len = at + 1,
            Kind::Blank => {}
            Kind::Fence | Kind::Item | Kind::Plain => return len,
        }
    }
    len
}

fn goes_on(is_after_blank: bool, kind: Kind) -> bool
    ensures { result ≡ goes_on is_after_blank kind }
{
    match kind {
        Kind::Blank | Kind::Item => true,
        Kind::Plain => !is_after_blank,
        Kind::Fence | Kind::Code => false,
    }
}

fn is_blank_kind(kind: Kind) -> bool
    ensures { result ≡ is_blank_kind kind }
{
    matches!(kind, Kind::Blank)
}

// How many lines after the first of a list belong to it.
fn list_len(lines: &[&str]) -> usize
    ensures { result ≡ list_more false (map (λ line. line.now) lines.now) }
{
    let mut is_after_blank = false;
    for (at, line) in lines.iter().enumerate() {
        let kind = kind_of(line);
        if !goes_on(is_after_blank, kind) {
            return at;
        }
        is_after_blank = is_blank_kind(kind);
    }
    lines.len()
}

// How many lines below a first one belong to it.
fn lines_more(first: &str, below: &[&str]) -> usize
    ensures { result ≡ min (lines_more first.now (map (λ line. line.now) below.now)) (length below.now) }
{
    match kind_of(first) {
        Kind::Blank => 0,
        Kind::Fence => fence_len(below),
        Kind::Code => code_len(below),
        Kind::Item => list_len(below),
        Kind::Plain => plain_len(below),
    }
}

fn code_line(line: &str) -> &str
    ensures { result.now ≡ code_line line.now }
{
    if is_blank_line(line) {
        return "";
    }
    &line[blanks(line).min(4)..]
}

fn code<'a>(arena: &'a Bump, lines: &[&'a str]) -> Result<Vec<&'a str, &'a Bump>, AllocError>
    ensures { IfOk result (λ found. map (λ line. line.now) found.items
        ≡ map code_line (map (λ line. line.now) lines.now)) }
{
    let mut found = Vec::new(arena);
    for line in lines {
        found.push(code_line(line))?;
    }
    Ok(found)
}

fn without_marker(text: &str) -> &str
    ensures { result.now ≡ without_marker text.now }
{
    if text.as_bytes().starts_with(b"- ") {
        &text[2..]
    } else {
        text
    }
}

fn marked(line: &str) -> &str
    ensures { result.now ≡ marked line.now }
{
    without_marker(&line[blanks(line)..])
}

// The lines of a paragraph, between which there are line breaks.
fn paragraph<'a>(arena: &'a Bump, lines: &[&'a str]) -> Result<Lines<'a>, AllocError>
    ensures { IfOk result (λ found. map (λ line. line_of line.items) found.items
        ≡ cut line_more line_said (map (λ line. line.now) lines.now)) }
{
    let mut found = Vec::new(arena);
    let mut at = 0;
    while at < lines.len() {
        let below = &lines[at + 1..];
        let more = unbroken_len(below);
        found.push(shown_line(arena, lines[at], &below[..more])?)?;
        at += more + 1;
    }
    Ok(found)
}

// Appends an item, with the lines below that belong to it. A blank line is nothing.
fn push_item<'a>(
    arena: &'a Bump,
    found: &mut Items<'a>,
    first: &'a str,
    more: &[&'a str],
) -> Result<(), AllocError>
    ensures { OnOk result (map (λ item. map (λ line. line_of line.items) item.items) found.new.items
        ≡ map (λ item. map (λ line. line_of line.items) item.items) found.old.items
        ++ item_said first.now (map (λ line. line.now) more.now)) }
{
    match kind_of(first) {
        Kind::Item => {
            let mut item = Vec::new(arena);
            item.push(shown_line(arena, marked(first), more)?)?;
            found.push(item)?;
            Ok(())
        }
        Kind::Blank | Kind::Fence | Kind::Code | Kind::Plain => Ok(()),
    }
}

// The items of a list.
fn items<'a>(arena: &'a Bump, lines: &[&'a str]) -> Result<Items<'a>, AllocError>
    ensures { IfOk result (λ found. map (λ item. map (λ line. line_of line.items) item.items) found.items
        ≡ cut plain_more item_said (map (λ line. line.now) lines.now)) }
{
    let mut found = Vec::new(arena);
    let mut at = 0;
    while at < lines.len() {
        let below = &lines[at + 1..];
        let more = plain_len(below);
        push_item(arena, &mut found, lines[at], &below[..more])?;
        at += more + 1;
    }
    Ok(found)
}

// The code in a fence, if there are lines in it.
fn fenced<'a>(arena: &'a Bump, more: &[&'a str]) -> Result<Option<Block<'a, &'a Bump>>, AllocError>
    ensures { IfOk result (λ found. map block_of (option_to_list found)
        ≡ some_code (before_first begins_fence (map (λ line. line.now) more.now))) }
{
    let inner = &more[..fenced_len(more)];
    if inner.is_empty() {
        return Ok(None);
    }
    Ok(Some(Block::Code(Vec::from_slice(arena, inner)?)))
}

// The block of these lines, if they say something.
fn block<'a>(arena: &'a Bump, own: &[&'a str]) -> Result<Option<Block<'a, &'a Bump>>, AllocError>
    ensures { IfOk result (λ found. map block_of (option_to_list found) ≡ own_said (map (λ line. line.now) own.now)) }
{
    let Some((first, more)) = own.split_first() else {
        return Ok(None);
    };
    match kind_of(first) {
        Kind::Blank => Ok(None),
        Kind::Fence => fenced(arena, more),
        Kind::Code => Ok(Some(Block::Code(code(arena, own)?))),
        Kind::Item => Ok(Some(Block::List(items(arena, own)?))),
        Kind::Plain => Ok(Some(Block::Paragraph(paragraph(arena, own)?))),
    }
}

fn push_block<'a>(
    arena: &'a Bump,
    found: &mut Vec<Block<'a, &'a Bump>, &'a Bump>,
    own: &[&'a str],
) -> Result<(), AllocError>
    ensures { OnOk result (map block_of found.new.items
        ≡ map block_of found.old.items ++ own_said (map (λ line. line.now) own.now)) }
{
    if let Some(block) = block(arena, own)? {
        found.push(block)?;
    }
    Ok(())
}

/// The blocks of a text, in the arena. Texts are borrowed, except where white space that is made one blank, lines that
/// are joined or tabs at the front of a line of code need a copy. An error comes only where an allocation failed.
pub fn blocks<'a>(
    arena: &'a Bump,
    text: &'a str,
) -> Result<Vec<Block<'a, &'a Bump>, &'a Bump>, AllocError>
    ensures { IfOk result (λ found. map block_of found.items ≡ text_blocks text.now) }
{
    let lines = lines(arena, text)?;
    let lines = lines.as_slice();
    let mut found = Vec::new(arena);
    let mut at = 0;
    while at < lines.len() {
        let more = lines_more(lines[at], &lines[at + 1..]);
        push_block(arena, &mut found, &lines[at..at + 1 + more])?;
        at += more + 1;
    }
    Ok(found)
}

// Whether a line belongs to no block, in a fence that has no lines so far or not.
fn says_nothing(in_fence: bool, line: &str) -> bool
    ensures { result ≡ says_nothing in_fence line.now }
{
    if in_fence {
        begins_fence(line)
    } else {
        are_all_white(line.as_bytes()) || is_fence(line)
    }
}

// Whether the line after a line stands in such a fence.
fn opens(in_fence: bool, line: &str) -> bool
    ensures { result ≡ opens in_fence line.now }
{
    !in_fence && is_fence(line)
}

/// Whether a text has no block: `blocks` gives none for it.
pub fn is_empty(text: &str) -> bool
    ensures { result ≡ is_empty text.now }
{
    let mut in_fence = false;
    let mut rest = text;
    while let Some((line, after)) = rest.split_once('\n') {
        if !says_nothing(in_fence, line) {
            return false;
        }
        in_fence = opens(in_fence, line);
        rest = after;
    }
    says_nothing(in_fence, rest)
}

/// The lines of the first paragraph of blocks. None where no block is one.
pub fn first_paragraph<'b, 'a, A: Allocator>(
    blocks: &'b [Block<'a, A>],
) -> Option<&'b Vec<Line<'a, A>, A>>
    ensures { MatchOption result
        (first_paragraph (map block_of blocks.now) ≡ None)
        (λ lines. first_paragraph (map block_of blocks.now)
        ≡ Some (map (λ line. line_of line.items) lines.now.items)) }
{
    for block in blocks {
        if let Block::Paragraph(lines) = block {
            return Some(lines);
        }
    }
    None
}
