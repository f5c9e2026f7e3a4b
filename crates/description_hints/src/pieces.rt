//! The pieces of the lines of blocks, in order.
ghost use Rattle.std.specs.Prelude.{◌≡◌, ◌++◌, flat_map, map, IfOk, OnOk};
ghost use Rattle.page_model.specs.View.{block_of, form_of, line_of};
ghost use Rattle.description_hints.specs.Hints.{item_pieces};
ghost use Rattle.description_hints.specs.Texts.{pieces_of, pieces_of_block, pieces_of_lines};

use bumpalo::Bump;
use page_model::{Block, Form, Inline, Line};
use std::alloc::{AllocError, Allocator};

fn push_lines<'p, A: Allocator>(
    pieces: &mut Line<'p, A>,
    lines: &[Line<'p, A>],
) -> Result<(), AllocError>
    ensures { OnOk result (line_of pieces.new.items ≡ line_of pieces.old.items
        ++ pieces_of_lines (map (λ line. line_of line.items) lines.now)) }
{
    for line in lines {
        pieces.extend_from_slice(line.as_slice())?;
    }
    Ok(())
}

fn push_items<'p, A: Allocator>(
    pieces: &mut Line<'p, A>,
    items: &[Vec<Line<'p, A>, A>],
) -> Result<(), AllocError>
    ensures { OnOk result (line_of pieces.new.items ≡ line_of pieces.old.items
        ++ flat_map pieces_of_lines (map (λ item. map (λ line. line_of line.items) item.items) items.now)) }
{
    for item in items {
        push_lines(pieces, item.as_slice())?;
    }
    Ok(())
}

fn push_block<'p, A: Allocator>(
    pieces: &mut Line<'p, A>,
    block: &Block<'p, A>,
) -> Result<(), AllocError>
    ensures { OnOk result (line_of pieces.new.items ≡ line_of pieces.old.items
        ++ pieces_of_block (block_of block.now)) }
{
    match block {
        Block::Paragraph(lines) => push_lines(pieces, lines.as_slice()),
        Block::Code(_) => Ok(()),
        Block::List(items) => push_items(pieces, items.as_slice()),
    }
}

/// The pieces of paragraphs and of items; code has none. An error comes only where an allocation failed.
pub fn pieces_of<'p>(
    arena: &'p Bump,
    blocks: &[Block<'p, &'p Bump>],
) -> Result<Line<'p, &'p Bump>, AllocError>
    ensures { IfOk result (λ pieces. line_of pieces.items ≡ pieces_of (map block_of blocks.now)) }
{
    let mut pieces: Line<'p, &'p Bump> = Vec::new(arena);
    for block in blocks {
        push_block(&mut pieces, block)?;
    }
    Ok(pieces)
}

fn push_form<'p>(
    pieces: &mut Line<'p, &'p Bump>,
    form: &Form<'p, &'p Bump>,
) -> Result<(), AllocError>
    ensures { OnOk result (line_of pieces.new.items
        ≡ line_of pieces.old.items ++ item_pieces (form_of form.now)) }
{
    push_lines(pieces, form.items.as_slice())
}

/// The pieces of the items of forms. An error comes only where an allocation failed.
pub fn item_pieces<'p>(
    arena: &'p Bump,
    forms: &[Form<'p, &'p Bump>],
) -> Result<Line<'p, &'p Bump>, AllocError>
    ensures { IfOk result (λ pieces. line_of pieces.items ≡ flat_map item_pieces (map form_of forms.now)) }
{
    let mut pieces: Line<'p, &'p Bump> = Vec::new(arena);
    for form in forms {
        push_form(&mut pieces, form)?;
    }
    Ok(pieces)
}
