//! A page on a console with a line of code.

ghost use Rattle.std.specs.Prelude.{◌≡◌, [], ◌∷◌, List, IfOk, codes, map, string_bytes};
ghost use Rattle.page_model.specs.Content.{block, code};
ghost use Rattle.page_model.specs.View.{part_of};
ghost use Rattle.console_page.specs.Page.{page_text};

use console_page::{PageFault, console_page};
use page_model::{Block, Part};
use std::alloc::{AllocError, Global};

fn code_part<'a>(alloc: Global, line: &'a str) -> Result<Part<'a>, AllocError>
    ensures { IfOk result (λ part. part_of part ≡ block (code (line.now ∷ []))) }
{
    Ok(Part::Block(Block::Code(vec![in alloc; line]?)))
}

/// A page with a line of code.
pub fn example(alloc: Global, line: &str) -> Result<String, PageFault>
    ensures { IfOk result (λ text. string_bytes text
        ≡ page_text 80 (codes "Usage") (block (code (line.now ∷ [])) ∷ [])) }
{
    let parts = [code_part(alloc, line)?];
    console_page(alloc, 80, "Usage", &parts)
}
