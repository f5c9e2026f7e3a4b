//! Lines, and blocks of them.
#![tactic(auto, using(crate::proofs::Outcomes::putting))]

ghost use Rattle.std.specs.Prelude.{◌++◌, ◌∷◌, [], codes, flat_map, map};
ghost use Rattle.page_model.specs.View.{block_of, line_of, piece_of};
ghost use Rattle.html_page.specs.Events.{break_line, inside, link, say};
ghost use Rattle.html_page.specs.Page.{block_events, blocks_events, code_events, item_events};
ghost use Rattle.html_page.specs.Page.{line_events, lines_events, piece_events, terms_events};
ghost use Rattle.html_page.specs.Steps.{Puts};

use crate::elements::{break_line, end, put_text_in, say, start, start_link};
use page_model::{Block, Inline, Line};
use std::alloc::Allocator;
use web_page::{Element, Page, PageError};

fn put_link<A: Allocator>(page: &mut Page<A>, address: &str) -> Result<(), PageError>
    ensures { Puts page.old (link address.now (say address.now ∷ [])) page.new result }
{
    start_link(page, address)?;
    say(page, address)?;
    end(page)
}

fn put_piece<A: Allocator>(page: &mut Page<A>, piece: Inline<'_>) -> Result<(), PageError>
    ensures { Puts page.old (piece_events (piece_of piece.entry)) page.new result }
{
    match piece {
        Inline::Words(text) => say(page, text),
        Inline::Literal(text) => put_text_in(page, Element::Code, text),
        Inline::Value(text) => put_text_in(page, Element::Var, text),
        Inline::Link(address) => put_link(page, address),
        Inline::Page(name) => say(page, name),
    }
}

fn put_line<A: Allocator>(page: &mut Page<A>, pieces: &[Inline<'_>]) -> Result<(), PageError>
    ensures { Puts page.old (line_events (line_of pieces.now)) page.new result }
{
    for piece in pieces {
        put_piece(page, *piece)?;
    }
    Ok(())
}

// ---- lines one after another

// Lines, each on a new line.
fn put_further_lines<A: Allocator, B: Allocator>(
    page: &mut Page<A>,
    lines: &[Line<'_, B>],
) -> Result<(), PageError>
    ensures { Puts page.old (flat_map (λ line. break_line ∷ [] ++ line_events line)
        (map (λ line. line_of line.items) lines.now)) page.new result }
{
    for line in lines {
        break_line(page)?;
        put_line(page, line.as_slice())?;
    }
    Ok(())
}

fn put_lines<A: Allocator, B: Allocator>(
    page: &mut Page<A>,
    lines: &[Line<'_, B>],
) -> Result<(), PageError>
    ensures { Puts page.old (lines_events (map (λ line. line_of line.items) lines.now)) page.new result }
{
    let Some((first, others)) = lines.split_first() else {
        return Ok(());
    };
    put_line(page, first.as_slice())?;
    put_further_lines(page, others)
}

fn put_further_terms<A: Allocator, B: Allocator>(
    page: &mut Page<A>,
    terms: &[Line<'_, B>],
) -> Result<(), PageError>
    ensures { Puts page.old (flat_map (λ term. say (codes ", ") ∷ [] ++ line_events term)
        (map (λ term. line_of term.items) terms.now)) page.new result }
{
    for term in terms {
        say(page, ", ")?;
        put_line(page, term.as_slice())?;
    }
    Ok(())
}

/// Puts terms with a comma between two.
pub fn put_terms<A: Allocator, B: Allocator>(
    page: &mut Page<A>,
    terms: &[Line<'_, B>],
) -> Result<(), PageError>
    ensures { Puts page.old (terms_events (map (λ term. line_of term.items) terms.now)) page.new result }
{
    let Some((first, others)) = terms.split_first() else {
        return Ok(());
    };
    put_line(page, first.as_slice())?;
    put_further_terms(page, others)
}

// A line of code on a new line.
fn put_code_line<A: Allocator>(page: &mut Page<A>, line: &str) -> Result<(), PageError>
    ensures { Puts page.old (say (codes "\n") ∷ [] ++ say line.now ∷ []) page.new result }
{
    say(page, "\n")?;
    say(page, line)
}

fn put_further_code<A: Allocator>(page: &mut Page<A>, lines: &[&str]) -> Result<(), PageError>
    ensures { Puts page.old (flat_map (λ line. say (codes "\n") ∷ [] ++ say line ∷ [])
        (map (λ line. line.now) lines.now)) page.new result }
{
    for line in lines {
        put_code_line(page, line)?;
    }
    Ok(())
}

fn put_code<A: Allocator>(page: &mut Page<A>, lines: &[&str]) -> Result<(), PageError>
    ensures { Puts page.old (code_events (map (λ line. line.now) lines.now)) page.new result }
{
    let Some((first, others)) = lines.split_first() else {
        return Ok(());
    };
    say(page, first)?;
    put_further_code(page, others)
}

// ---- blocks

fn put_item<A: Allocator, B: Allocator>(
    page: &mut Page<A>,
    item: &[Line<'_, B>],
) -> Result<(), PageError>
    ensures { Puts page.old (item_events (map (λ line. line_of line.items) item.now)) page.new result }
{
    start(page, Element::Li)?;
    put_lines(page, item)?;
    end(page)
}

fn put_items<A: Allocator, B: Allocator>(
    page: &mut Page<A>,
    items: &[Vec<Line<'_, B>, B>],
) -> Result<(), PageError>
    ensures { Puts page.old (flat_map item_events
        (map (λ item. map (λ line. line_of line.items) item.items) items.now)) page.new result }
{
    for item in items {
        put_item(page, item.as_slice())?;
    }
    Ok(())
}

fn put_paragraph<A: Allocator, B: Allocator>(
    page: &mut Page<A>,
    lines: &[Line<'_, B>],
) -> Result<(), PageError>
    ensures { Puts page.old (inside Element.P
        (lines_events (map (λ line. line_of line.items) lines.now))) page.new result }
{
    start(page, Element::P)?;
    put_lines(page, lines)?;
    end(page)
}

fn put_code_block<A: Allocator>(page: &mut Page<A>, lines: &[&str]) -> Result<(), PageError>
    ensures { Puts page.old (inside Element.Pre (inside Element.Code
        (code_events (map (λ line. line.now) lines.now)))) page.new result }
{
    start(page, Element::Pre)?;
    start(page, Element::Code)?;
    put_code(page, lines)?;
    end(page)?;
    end(page)
}

fn put_list<A: Allocator, B: Allocator>(
    page: &mut Page<A>,
    items: &[Vec<Line<'_, B>, B>],
) -> Result<(), PageError>
    ensures { Puts page.old (inside Element.Ul (flat_map item_events
        (map (λ item. map (λ line. line_of line.items) item.items) items.now))) page.new result }
{
    start(page, Element::Ul)?;
    put_items(page, items)?;
    end(page)
}

/// Puts a block.
pub fn put_block<A: Allocator, B: Allocator>(
    page: &mut Page<A>,
    block: &Block<'_, B>,
) -> Result<(), PageError>
    ensures { Puts page.old (block_events (block_of block.now)) page.new result }
{
    match block {
        Block::Paragraph(lines) => put_paragraph(page, lines.as_slice()),
        Block::Code(lines) => put_code_block(page, lines.as_slice()),
        Block::List(items) => put_list(page, items.as_slice()),
    }
}

/// Puts blocks, one after another.
pub fn put_blocks<A: Allocator, B: Allocator>(
    page: &mut Page<A>,
    blocks: &[Block<'_, B>],
) -> Result<(), PageError>
    ensures { Puts page.old (blocks_events (map block_of blocks.now)) page.new result }
{
    for block in blocks {
        put_block(page, block)?;
    }
    Ok(())
}
