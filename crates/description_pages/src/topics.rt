//! The topics of a level: each under its title, or in front of what has its title.
ghost use Rattle.std.specs.Prelude.{◌≡◌, ◌++◌, flat_map, fold, map, IfOk, OnOk};
ghost use Rattle.page_model.specs.View.{block_of};
ghost use Rattle.page_model.specs.declared.parts.Block.TheVariants.{List};
ghost use Rattle.description.specs.View.{topic_said};
ghost use Rattle.description_pages.specs.Sections.{section_of, text_section};
ghost use Rattle.description_pages.specs.Topics.{and_block, merged, own_section, own_sections, place_of};
ghost use Rattle.description_pages.specs.Topics.{placed_blocks, placed_of, same_title, together};
ghost use Rattle.description.specs.Words.{words_said};

use crate::sections::{ArenaSections, Body, Making, Section, shown_blocks, without_colon};
use bumpalo::Bump;
use description::Topic;
use description_usage::ArenaBlocks;
use page_model::{Block, Line};
use std::alloc::{AllocError, Allocator, Global};

/// Where a topic stands: under its title, or in front of the notes or of the references, where it has their title.
#[derive(Clone, Copy, Debug, PartialEq, Eq)]
pub enum Place {
    Own,
    Notes,
    References,
}

// ---- blocks after one another

fn push_items<'a, A: Allocator>(
    blocks: &mut Vec<Block<'a, A>, A>,
    mut items: Vec<Vec<Line<'a, A>, A>, A>,
    block: Block<'a, A>,
) -> Result<(), AllocError>
    ensures { OnOk result (map block_of blocks.new.items
        ≡ map block_of blocks.old.items ++ together (block_of (List items.entry)) (block_of block.entry)) }
{
    match block {
        Block::List(mut more) => {
            items.append(&mut more)?;
            blocks.push(Block::List(items))?;
        }
        other => {
            blocks.push(Block::List(items))?;
            blocks.push(other)?;
        }
    }
    Ok(())
}

fn push_together<'a, A: Allocator>(
    blocks: &mut Vec<Block<'a, A>, A>,
    last: Block<'a, A>,
    block: Block<'a, A>,
) -> Result<(), AllocError>
    ensures { OnOk result (map block_of blocks.new.items
        ≡ map block_of blocks.old.items ++ together (block_of last.entry) (block_of block.entry)) }
{
    match last {
        Block::List(items) => push_items(blocks, items, block),
        other => {
            blocks.push(other)?;
            blocks.push(block)?;
            Ok(())
        }
    }
}

// Appends a block to others. A list after a list continues it.
fn push_block<'a, A: Allocator>(
    blocks: &mut Vec<Block<'a, A>, A>,
    block: Block<'a, A>,
) -> Result<(), AllocError>
    ensures { OnOk result (map block_of blocks.new.items
        ≡ and_block (map block_of blocks.old.items) (block_of block.entry)) }
{
    match blocks.pop() {
        Some(last) => push_together(blocks, last, block),
        None => {
            blocks.push(block)?;
            Ok(())
        }
    }
}

/// Appends blocks to others, with one list for lists that follow one another.
pub fn push_blocks<'a, A: Allocator>(
    blocks: &mut Vec<Block<'a, A>, A>,
    more: Vec<Block<'a, A>, A>,
) -> Result<(), AllocError>
    ensures { OnOk result (map block_of blocks.new.items
        ≡ fold and_block (map block_of blocks.old.items) (map block_of more.entry.items)) }
{
    for block in more {
        push_block(blocks, block)?;
    }
    Ok(())
}

// ---- where a topic stands

fn same_title(arena: &Bump, title: &str, other: &str) -> Result<bool, AllocError>
    ensures { IfOk result (λ same. same ≡ same_title title.now other.now) }
{
    let first = without_colon(title).to_uppercase(arena)?;
    let second = without_colon(other).to_uppercase(arena)?;
    Ok(first.as_str() == second.as_str())
}

fn place_of(making: Making<'_>, topic: &Topic<'_>) -> Result<Place, AllocError>
    ensures { IfOk result (λ place. place ≡ place_of (words_said making.entry.words.now) (topic_said topic.now)) }
{
    if same_title(making.arena, topic.title, making.words.notes)? {
        return Ok(Place::Notes);
    }
    if same_title(making.arena, topic.title, making.words.see_also)? {
        return Ok(Place::References);
    }
    Ok(Place::Own)
}

// ---- sections

/// Appends blocks under a title, unless there are none.
pub fn push_text_section<'p>(
    sections: &mut ArenaSections<'p>,
    title: &'p str,
    blocks: ArenaBlocks<'p, Global>,
) -> Result<(), AllocError>
    ensures { OnOk result (map section_of sections.new.items
        ≡ map section_of sections.old.items ++ text_section title.now (map block_of blocks.entry.items)) }
{
    if blocks.is_empty() {
        return Ok(());
    }
    sections.push(Section {
        title,
        body: Body::Told(blocks),
    })?;
    Ok(())
}

fn push_topic<'p>(
    making: Making<'p>,
    sections: &mut ArenaSections<'p>,
    topic: &Topic<'p>,
) -> Result<(), AllocError>
    ensures { OnOk result (map section_of sections.new.items ≡ map section_of sections.old.items
        ++ own_section (words_said making.entry.words.now) making.entry.detail (topic_said topic.now)) }
{
    if place_of(making, topic)? != Place::Own {
        return Ok(());
    }
    let blocks = shown_blocks(making.arena, making.detail, topic.text)?;
    push_text_section(sections, without_colon(topic.title), blocks)
}

/// Appends the topics that stand under titles of their own.
pub fn push_topics<'p>(
    making: Making<'p>,
    sections: &mut ArenaSections<'p>,
    topics: &[Topic<'p>],
) -> Result<(), AllocError>
    ensures { OnOk result (map section_of sections.new.items ≡ map section_of sections.old.items
        ++ own_sections (words_said making.entry.words.now) making.entry.detail (map topic_said topics.now)) }
{
    for topic in topics {
        push_topic(making, sections, topic)?;
    }
    Ok(())
}

fn push_placed<'p>(
    making: Making<'p>,
    blocks: &mut ArenaBlocks<'p, Global>,
    place: Place,
    topic: &Topic<'p>,
) -> Result<(), AllocError>
    ensures { OnOk result (map block_of blocks.new.items ≡ fold and_block (map block_of blocks.old.items)
        (placed_of (words_said making.entry.words.now) making.entry.detail place (topic_said topic.now))) }
{
    if place_of(making, topic)? != place {
        return Ok(());
    }
    push_blocks(
        blocks,
        shown_blocks(making.arena, making.detail, topic.text)?,
    )
}

/// The blocks of the topics of a place, with one list for lists that follow one another.
pub fn placed_blocks<'p>(
    making: Making<'p>,
    place: Place,
    topics: &[Topic<'p>],
) -> Result<ArenaBlocks<'p, Global>, AllocError>
    ensures { IfOk result (λ blocks. map block_of blocks.items
        ≡ merged (placed_blocks (words_said making.entry.words.now) making.entry.detail place (map topic_said topics.now))) }
{
    let mut blocks: ArenaBlocks<'p, Global> = Vec::new(making.arena);
    for topic in topics {
        push_placed(making, &mut blocks, place, topic)?;
    }
    Ok(blocks)
}
