//! Blocks, which stand at the top of a page or in the item of an entry.

ghost use Rattle.std.specs.Prelude.{◌≡◌, ◌++◌, ◌≤◌, [], codes, false, flat_map, map, true, OnOk, string_bytes};
ghost use Rattle.page_model.specs.View.{block_of, line_of};
ghost use Rattle.markdown_page.specs.Exact.{block_text, code_line, code_text, indent, item_text, line_text, lines_text};
ghost use Rattle.markdown_page.specs.Exact.{longest_of, paragraph_text, written};
ghost use Rattle.markdown_page.specs.Steps.{code_indent, fence_of, written_line};

use crate::line::{LineText, push_line, push_pieces};
use crate::replace::Place;
use crate::span::{longest_run, push_graves};
use page_model::replaced::push_replaced;
use page_model::{Block, Inline, Line};
use std::alloc::{AllocError, Allocator};

/// The page so far, and the line that is being put together.
#[derive(Drop)]
pub struct Writer<A: Allocator> {
    pub page: String<A>,
    pub line: LineText<A>,
}

/// Begins a line.
pub fn begin_line<A: Allocator>(line: &mut LineText<A>)
    ensures text { string_bytes line.new.text ≡ [] }
    ensures span { string_bytes line.new.span ≡ [] }
{
    line.text.clear();
    line.span.clear();
}

fn push_indent<A: Allocator>(page: &mut String<A>, level: usize) -> Result<(), AllocError>
    ensures { OnOk result (string_bytes page.new ≡ string_bytes page.old ++ indent level) }
{
    for _ in 0..level {
        page.push_str("  ")?;
    }
    Ok(())
}

// Puts a line together.
fn gather_line<A: Allocator>(
    line: &mut LineText<A>,
    pieces: &[Inline<'_>],
) -> Result<(), AllocError>
    ensures { OnOk result (string_bytes line.new.text ≡ written (line_of pieces.now)) }
{
    begin_line(line);
    push_pieces(line, pieces)
}

fn push_further_line<A: Allocator>(
    writer: &mut Writer<A>,
    pieces: &[Inline<'_>],
    level: usize,
) -> Result<(), AllocError>
    ensures { OnOk result (string_bytes writer.new.page
        ≡ string_bytes writer.old.page ++ written_line level (line_of pieces.now)) }
{
    writer.page.push_str("\\\n")?;
    push_indent(&mut writer.page, level)?;
    gather_line(&mut writer.line, pieces)?;
    push_line(&mut writer.page, writer.line.text.as_str())
}

fn push_further_lines<A: Allocator, B: Allocator>(
    writer: &mut Writer<A>,
    lines: &[Line<'_, B>],
    level: usize,
) -> Result<(), AllocError>
    ensures { OnOk result (string_bytes writer.new.page ≡ string_bytes writer.old.page
        ++ flat_map (written_line level) (map (λ line. line_of line.items) lines.now)) }
{
    for line in lines {
        push_further_line(writer, line.as_slice(), level)?;
    }
    Ok(())
}

/// Writes the line that is put together, and others after it.
pub fn push_lines<A: Allocator, B: Allocator>(
    writer: &mut Writer<A>,
    lines: &[Line<'_, B>],
    level: usize,
) -> Result<(), AllocError>
    ensures { OnOk result (string_bytes writer.new.page ≡ string_bytes writer.old.page
        ++ lines_text level (string_bytes writer.old.line.text)
        (map written (map (λ line. line_of line.items) lines.now))) }
{
    push_line(&mut writer.page, writer.line.text.as_str())?;
    push_further_lines(writer, lines, level)?;
    writer.page.push_str("\n")
}

fn push_paragraph<A: Allocator, B: Allocator>(
    writer: &mut Writer<A>,
    lines: &[Line<'_, B>],
    level: usize,
) -> Result<(), AllocError>
    ensures { OnOk result (string_bytes writer.new.page ≡ string_bytes writer.old.page
        ++ paragraph_text level (map (λ line. line_of line.items) lines.now)) }
{
    let Some((first, rest)) = lines.split_first() else {
        return Ok(());
    };
    writer.page.push_str("\n")?;
    push_indent(&mut writer.page, level)?;
    gather_line(&mut writer.line, first.as_slice())?;
    push_lines(writer, rest, level)
}

fn push_item<A: Allocator, B: Allocator>(
    writer: &mut Writer<A>,
    item: &[Line<'_, B>],
    level: usize,
) -> Result<(), AllocError>
    requires { level ≤ 1 }
    ensures { OnOk result (string_bytes writer.new.page ≡ string_bytes writer.old.page
        ++ item_text level (map (λ line. line_of line.items) item.now)) }
{
    let Some((first, rest)) = item.split_first() else {
        return Ok(());
    };
    push_indent(&mut writer.page, level)?;
    writer.page.push_str("- ")?;
    gather_line(&mut writer.line, first.as_slice())?;
    push_lines(writer, rest, level + 1)
}

fn push_items<A: Allocator, B: Allocator>(
    writer: &mut Writer<A>,
    items: &[Vec<Line<'_, B>, B>],
    level: usize,
) -> Result<(), AllocError>
    requires { level ≤ 1 }
    ensures { OnOk result (string_bytes writer.new.page ≡ string_bytes writer.old.page
        ++ flat_map (item_text level) (map (λ item. map (λ line. line_of line.items) item.items) items.now)) }
{
    for item in items {
        push_item(writer, item.as_slice(), level)?;
    }
    Ok(())
}

/// Writes the fence of code.
pub fn push_fence<A: Allocator>(
    page: &mut String<A>,
    level: usize,
    more: usize,
) -> Result<(), AllocError>
    ensures { OnOk result (string_bytes page.new ≡ string_bytes page.old ++ fence_of level more) }
{
    push_indent(page, level)?;
    push_graves(page, more)?;
    page.push_str("\n")
}

fn code_indent(line: &str, level: usize) -> usize
    ensures { result ≡ code_indent level line.now }
{
    if line.is_empty() { 0 } else { level }
}

/// Writes a line of code.
pub fn push_code_line<A: Allocator>(
    page: &mut String<A>,
    line: &str,
    level: usize,
) -> Result<(), AllocError>
    ensures { OnOk result (string_bytes page.new ≡ string_bytes page.old ++ code_line level line.now) }
{
    push_indent(page, code_indent(line, level))?;
    push_replaced(page, line, Place::Code)?;
    page.push_str("\n")
}

fn push_code_lines<A: Allocator>(
    page: &mut String<A>,
    lines: &[&str],
    level: usize,
) -> Result<(), AllocError>
    ensures { OnOk result (string_bytes page.new
        ≡ string_bytes page.old ++ flat_map (code_line level) (map (λ line. line.now) lines.now)) }
{
    for line in lines {
        push_code_line(page, line, level)?;
    }
    Ok(())
}

// One less than the backquotes of a fence.
#[tactic(auto, using(crate::proofs::Loops::longest_init))]
fn longest_of(lines: &[&str]) -> usize
    ensures { result ≡ longest_of (map (λ line. line.now) lines.now) }
{
    let mut longest = 2;
    for line in lines {
        longest = longest.max(longest_run(line));
    }
    longest
}

fn push_code<A: Allocator>(
    page: &mut String<A>,
    lines: &[&str],
    level: usize,
) -> Result<(), AllocError>
    ensures { OnOk result (string_bytes page.new
        ≡ string_bytes page.old ++ code_text level (map (λ line. line.now) lines.now)) }
{
    let more = longest_of(lines);
    page.push_str("\n")?;
    push_fence(page, level, more)?;
    push_code_lines(page, lines, level)?;
    push_fence(page, level, more)
}

/// Writes a block, nested in that many items.
pub fn push_block<A: Allocator, B: Allocator>(
    writer: &mut Writer<A>,
    block: &Block<'_, B>,
    level: usize,
) -> Result<(), AllocError>
    requires { level ≤ 1 }
    ensures { OnOk result (string_bytes writer.new.page
        ≡ string_bytes writer.old.page ++ block_text level (block_of block.now)) }
{
    match block {
        Block::Paragraph(lines) => push_paragraph(writer, lines.as_slice(), level),
        Block::Code(lines) => push_code(&mut writer.page, lines.as_slice(), level),
        Block::List(items) => {
            writer.page.push_str("\n")?;
            push_items(writer, items.as_slice(), level)
        }
    }
}

/// Writes blocks that stand in the item of an entry.
pub fn push_blocks<A: Allocator, B: Allocator>(
    writer: &mut Writer<A>,
    blocks: &[Block<'_, B>],
) -> Result<(), AllocError>
    ensures { OnOk result (string_bytes writer.new.page
        ≡ string_bytes writer.old.page ++ flat_map (block_text 1) (map block_of blocks.now)) }
{
    for block in blocks {
        push_block(writer, block, 1)?;
    }
    Ok(())
}
