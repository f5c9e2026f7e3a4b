//! Empty Block pairs directly after a Section4, which the console passes over.
ghost use Rattle.std.specs.Prelude.{◌≡◌, ◌<◌, false, length};
ghost use Rattle.std.specs.Option.{option_map, option_map_or};
ghost use Rattle.bpaf_doc.specs.Buffer.Parts.{is_end_of, is_start_of};
ghost use Rattle.bpaf_doc.specs.Buffer.View.{part_of};
ghost use Rattle.bpaf_doc.specs.Console.Margin.{is_section4};
ghost use Rattle.bpaf_doc.specs.Console.Steps.Text.{no_pairs, pairs_at, is_adjacent, skips, section4_end};
ghost use Rattle.bpaf_doc.specs.Console.Steps.Text.{has_empty_block, is_plain_block};

use crate::buffer::{Block, Doc, Part};
use std::alloc::Allocator;

/// The Section4 end that the last Section4 start found, and whether an empty Block pair follows it directly.
#[derive(Clone, Copy)]
pub struct Pairs {
    end: usize,
    has_pair: bool,
}

impl Pairs {
    /// Before the first Section4.
    pub fn new() -> Self
        ensures { result ≡ no_pairs }
    {
        Pairs {
            end: 0,
            has_pair: false,
        }
    }

    /// Whether the start of `block` at `index` is that of a Section4, and an empty Block pair follows the first
    /// Section4 end after it.
    ///
    /// Starts before the same end share the answer, so that nested sections are searched once.
    pub fn is_before_pair<A: Allocator>(&mut self, doc: &Doc<A>, index: usize, block: Block) -> bool
        requires { index < length doc.now }
        ensures pairs { self.new ≡ pairs_at doc.now index block self.old }
        ensures value { result ≡ is_adjacent block self.new }
    {
        if block != Block::Section4 {
            return false;
        }
        if self.end <= index {
            self.end = section4_end(doc, index);
            self.has_pair = has_empty_block(doc, self.end);
        }
        self.has_pair
    }

    /// Whether the mark of `block` at `index` belongs to such a pair.
    pub fn skips(&self, index: usize, block: Block) -> bool
        ensures { result ≡ skips self.now index block }
    {
        self.has_pair && block == Block::Block && self.end < index && index - self.end <= 2
    }
}

// The place of the first Section4 end after `index`, or the number of parts.
#[tactic(auto, using(crate::proofs::lemmas::Console::Places::first_ends))]
fn section4_end<A: Allocator>(doc: &Doc<A>, index: usize) -> usize
    requires { index < length doc.now }
    ensures { result ≡ section4_end doc.now index }
{
    let count = doc.len();
    for at in index + 1..count {
        if is_section4_end(doc.part_at(at)) {
            return at;
        }
    }
    count
}

// Whether a start and an end of Block stand directly after `index`.
fn has_empty_block<A: Allocator>(doc: &Doc<A>, index: usize) -> bool
    ensures { result ≡ has_empty_block doc.now index }
{
    is_block_start(doc.part_at(index.saturating_add(1)))
        && is_block_end(doc.part_at(index.saturating_add(2)))
}

fn is_section4_end(part: Option<Part<'_>>) -> bool
    ensures { result ≡ option_map_or (is_end_of is_section4) (option_map part_of part.entry) false }
{
    matches!(part, Some(Part::End(Block::Section4)))
}

fn is_block_start(part: Option<Part<'_>>) -> bool
    ensures { result ≡ option_map_or (is_start_of is_plain_block) (option_map part_of part.entry) false }
{
    matches!(part, Some(Part::Start(Block::Block)))
}

fn is_block_end(part: Option<Part<'_>>) -> bool
    ensures { result ≡ option_map_or (is_end_of is_plain_block) (option_map part_of part.entry) false }
{
    matches!(part, Some(Part::End(Block::Block)))
}
