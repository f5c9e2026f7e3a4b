//! References to the pages above and below a level.
ghost use Rattle.std.specs.Prelude.{◌≡◌, ◌++◌, map, IfOk, OnOk};
ghost use Rattle.page_model.specs.View.{block_of};
ghost use Rattle.description_pages.specs.LevelsView.{level_page_of};
ghost use Rattle.description_pages.specs.References.{reference_blocks, with_references};

use crate::levels::LevelPage;
use bumpalo::Bump;
use description_usage::{ArenaBlocks, joined};
use page_model::{Block, Inline, Line};
use std::alloc::{AllocError, Global};

// A paragraph, with a comma and a blank between two.
fn push_references<'p>(
    arena: &'p Bump,
    blocks: &mut ArenaBlocks<'p, Global>,
    names: &[&'p str],
) -> Result<(), AllocError>
    ensures { OnOk result (map block_of blocks.new.items ≡ map block_of blocks.old.items
        ++ reference_blocks (map (λ name. name.now) names.now)) }
{
    if names.is_empty() {
        return Ok(());
    }
    let mut lines: Vec<Line<'p, &'p Bump>, &'p Bump> = Vec::new(arena);
    for name in names {
        lines.push(vec![in arena; Inline::Page(*name)]?)?;
    }
    let line = joined(arena, ", ", lines.as_slice())?;
    blocks.push(Block::Paragraph(vec![in arena; line]?))?;
    Ok(())
}

/// A page with references to the pages above and below under its last title.
pub fn with_references<'p>(
    arena: &'p Bump,
    page: LevelPage<'p, &'p Bump>,
) -> Result<LevelPage<'p, &'p Bump>, AllocError>
    ensures { IfOk result (λ whole. level_page_of whole ≡ with_references (level_page_of page.entry)) }
{
    let mut see_also = page.see_also;
    push_references(arena, &mut see_also, page.references.as_slice())?;
    Ok(LevelPage { see_also, ..page })
}
