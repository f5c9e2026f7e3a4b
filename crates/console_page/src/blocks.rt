//! Blocks: paragraphs, code and lists.

ghost use Rattle.std.specs.Prelude.{◌≡◌, ◌++◌, ◌-◌, flat_map, map, OnOk, string_bytes};
ghost use Rattle.page_model.specs.View.{block_of, line_of};
ghost use Rattle.console_page.specs.Blocks.{block_text, blocks_text, broken_lines, code_line, code_text};
ghost use Rattle.console_page.specs.Blocks.{further_block, further_line, item_text, paragraph_text};

use crate::lines::{lay_out, push_prefixed};
use crate::texts::{Role, push_line};
use page_model::replaced::push_replaced;
use page_model::{Block, Line};
use std::alloc::{AllocError, Allocator};

fn push_further_lines<A: Allocator, B: Allocator>(
    out: &mut String<A>,
    lines: &[Line<'_, B>],
) -> Result<(), AllocError>
    ensures { OnOk result (string_bytes out.new ≡ string_bytes out.old
        ++ flat_map further_line (map (λ line. line_of line.items) lines.now)) }
{
    for line in lines {
        out.push_str("\n ")?;
        push_line(out, line.as_slice())?;
    }
    Ok(())
}

fn push_broken_lines<A: Allocator, B: Allocator>(
    out: &mut String<A>,
    lines: &[Line<'_, B>],
) -> Result<(), AllocError>
    ensures { OnOk result (string_bytes out.new
        ≡ string_bytes out.old ++ broken_lines (map (λ line. line_of line.items) lines.now)) }
{
    let Some((first, rest)) = lines.split_first() else {
        return Ok(());
    };
    push_line(out, first.as_slice())?;
    push_further_lines(out, rest)
}

fn push_paragraph<A: Allocator + Copy, B: Allocator>(
    out: &mut String<A>,
    alloc: A,
    lines: &[Line<'_, B>],
    width: usize,
) -> Result<(), AllocError>
    ensures { OnOk result (string_bytes out.new
        ≡ string_bytes out.old ++ paragraph_text width (map (λ line. line_of line.items) lines.now)) }
{
    let mut text = String::new(alloc);
    push_broken_lines(&mut text, lines)?;
    let laid_out = lay_out(alloc, text.as_str(), width)?;
    out.push_str(laid_out.as_str())?;
    out.push_str("\n")
}

fn push_item<A: Allocator + Copy, B: Allocator>(
    out: &mut String<A>,
    alloc: A,
    item: &[Line<'_, B>],
    width: usize,
) -> Result<(), AllocError>
    ensures { OnOk result (string_bytes out.new
        ≡ string_bytes out.old ++ item_text width (map (λ line. line_of line.items) item.now)) }
{
    let mut text = String::new(alloc);
    push_paragraph(&mut text, alloc, item, width.saturating_sub(2))?;
    push_prefixed(out, text.as_str(), "- ", "  ")
}

fn push_items<A: Allocator + Copy, B: Allocator>(
    out: &mut String<A>,
    alloc: A,
    items: &[Vec<Line<'_, B>, B>],
    width: usize,
) -> Result<(), AllocError>
    ensures { OnOk result (string_bytes out.new ≡ string_bytes out.old
        ++ flat_map (item_text width) (map (λ item. map (λ line. line_of line.items) item.items) items.now)) }
{
    for item in items {
        push_item(out, alloc, item.as_slice(), width)?;
    }
    Ok(())
}

fn push_code_line<A: Allocator>(out: &mut String<A>, line: &str) -> Result<(), AllocError>
    ensures { OnOk result (string_bytes out.new ≡ string_bytes out.old ++ code_line line.now) }
{
    push_replaced(out, line, Role::Code)?;
    out.push_str("\n")
}

fn push_code_lines<A: Allocator>(out: &mut String<A>, lines: &[&str]) -> Result<(), AllocError>
    ensures { OnOk result (string_bytes out.new
        ≡ string_bytes out.old ++ flat_map code_line (map (λ line. line.now) lines.now)) }
{
    for line in lines {
        push_code_line(out, line)?;
    }
    Ok(())
}

fn push_code<A: Allocator + Copy>(
    out: &mut String<A>,
    alloc: A,
    lines: &[&str],
) -> Result<(), AllocError>
    ensures { OnOk result (string_bytes out.new
        ≡ string_bytes out.old ++ code_text (map (λ line. line.now) lines.now)) }
{
    let mut text = String::new(alloc);
    push_code_lines(&mut text, lines)?;
    push_prefixed(out, text.as_str(), "    ", "    ")
}

/// Writes a block at the margin.
pub fn push_block<A: Allocator + Copy, B: Allocator>(
    out: &mut String<A>,
    alloc: A,
    block: &Block<'_, B>,
    width: usize,
) -> Result<(), AllocError>
    ensures { OnOk result (string_bytes out.new ≡ string_bytes out.old ++ block_text width (block_of block.now)) }
{
    match block {
        Block::Paragraph(lines) => push_paragraph(out, alloc, lines.as_slice(), width),
        Block::Code(lines) => push_code(out, alloc, lines.as_slice()),
        Block::List(items) => push_items(out, alloc, items.as_slice(), width),
    }
}

fn push_further_block<A: Allocator + Copy, B: Allocator>(
    out: &mut String<A>,
    alloc: A,
    block: &Block<'_, B>,
    width: usize,
) -> Result<(), AllocError>
    ensures { OnOk result (string_bytes out.new ≡ string_bytes out.old ++ further_block width (block_of block.now)) }
{
    out.push_str("\n")?;
    push_block(out, alloc, block, width)
}

fn push_further_blocks<A: Allocator + Copy, B: Allocator>(
    out: &mut String<A>,
    alloc: A,
    blocks: &[Block<'_, B>],
    width: usize,
) -> Result<(), AllocError>
    ensures { OnOk result (string_bytes out.new
        ≡ string_bytes out.old ++ flat_map (further_block width) (map block_of blocks.now)) }
{
    for block in blocks {
        push_further_block(out, alloc, block, width)?;
    }
    Ok(())
}

/// Writes blocks with an empty line between two.
pub fn push_blocks<A: Allocator + Copy, B: Allocator>(
    out: &mut String<A>,
    alloc: A,
    blocks: &[Block<'_, B>],
    width: usize,
) -> Result<(), AllocError>
    ensures { OnOk result (string_bytes out.new
        ≡ string_bytes out.old ++ blocks_text width (map block_of blocks.now)) }
{
    let Some((first, rest)) = blocks.split_first() else {
        return Ok(());
    };
    push_block(out, alloc, first, width)?;
    push_further_blocks(out, alloc, rest, width)
}
