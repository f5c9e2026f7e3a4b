//! A help text, cut into passages.
ghost use Rattle.std.specs.Prelude.{◌≡◌, ◌-◌, ◌≤◌, IfOk, drop, length, map, take};
ghost use Rattle.std.specs.List.{list_all, suffix_len};
ghost use Rattle.page_model.specs.Permitted.{are_permitted};
ghost use Rattle.drafts.specs.Passages as spec;
ghost use Rattle.drafts.specs.View.{passage_said};

use help_blocks::{Block, Kind, blocks};
use page_model::permitted::are_permitted;
use std::alloc::{AllocError, Allocator};

/// The lines of a block, without blank lines at their end.
#[derive(Clone, Copy)]
pub struct Passage<'a> {
    pub kind: Kind,
    pub lines: &'a [&'a str],
}

/// The lines of a text.
pub fn lines_in<'a, A: Allocator>(alloc: A, text: &'a str) -> Result<Vec<&'a str, A>, AllocError>
    ensures { IfOk result (λ lines. map (λ line. line.now) lines.items ≡ spec.lines_in text.now) }
{
    text.split('\n').collect(alloc)
}

fn is_blank(line: &str) -> bool
    ensures { result ≡ spec.is_blank line.now }
{
    line.trim().is_empty()
}

// How many lines stand before the blank ones at the end.
fn inked_len(lines: &[&str]) -> usize
    ensures exact { result ≡ length lines.now - suffix_len (λ line. spec.is_blank line.now) lines.now }
    ensures within { result ≤ length lines.now }
{
    let mut end = lines.len();
    while end > 0 && is_blank(lines[end - 1]) {
        end -= 1;
    }
    end
}

fn inked<'a>(lines: &'a [&'a str]) -> &'a [&'a str]
    ensures { map (λ line. line.now) result.now ≡ spec.inked (map (λ line. line.now) lines.now) }
{
    &lines[..inked_len(lines)]
}

fn lines_below<'a>(lines: &'a [&'a str], count: usize) -> &'a [&'a str]
    ensures { result.now ≡ drop count lines.now }
{
    &lines[count.min(lines.len())..]
}

fn first_lines<'a>(lines: &'a [&'a str], count: usize) -> &'a [&'a str]
    ensures { result.now ≡ take count lines.now }
{
    &lines[..count.min(lines.len())]
}

fn passage_of<'a>(lines: &'a [&'a str], block: Block) -> Passage<'a>
    ensures { passage_said result ≡ spec.passage block.kind
        (spec.lines_between block.first block.end (map (λ line. line.now) lines.now)) }
{
    let own = first_lines(
        lines_below(lines, block.first),
        block.end.saturating_sub(block.first),
    );
    Passage {
        kind: block.kind,
        lines: inked(own),
    }
}

/// The passages of a help text, in order.
pub fn passages<'a, A: Allocator + Copy>(
    alloc: A,
    lines: &'a [&'a str],
) -> Result<Vec<Passage<'a>, A>, AllocError>
    ensures { IfOk result (λ found. map passage_said found.items ≡ spec.passages (map (λ line. line.now) lines.now)) }
{
    let blocks = blocks(alloc, lines)?;
    let mut found = Vec::new(alloc);
    for block in &blocks {
        found.push(passage_of(lines, *block))?;
    }
    Ok(found)
}

fn are_all_permitted(lines: &[&str]) -> bool
    ensures { result ≡ list_all are_permitted (map (λ line. line.now) lines.now) }
{
    for line in lines {
        if !are_permitted(line) {
            return false;
        }
    }
    true
}

impl<'a> Passage<'a> {
    /// The first line, or an empty one.
    pub fn first_line(self) -> &'a str
        ensures { result.now ≡ spec.first_line (passage_said self.entry).lines }
    {
        match self.lines {
            [] => "",
            [line, ..] => line,
        }
    }

    /// The lines below the first.
    pub fn below(self) -> &'a [&'a str]
        ensures { map (λ line. line.now) result.now ≡ drop 1 (passage_said self.entry).lines }
    {
        match self.lines {
            [] => self.lines,
            [_, below @ ..] => below,
        }
    }

    /// Whether a description may hold each of these lines.
    pub fn is_permitted(self) -> bool
        ensures { result ≡ list_all are_permitted (passage_said self.entry).lines }
    {
        are_all_permitted(self.lines)
    }
}
