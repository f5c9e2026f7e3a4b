//! A page in markdown with a name and what it does, that reads back as such.

ghost use Rattle.std.specs.Prelude.{◌≡◌, [], ◌∷◌, List, IfOk, codes, map, string_bytes};
ghost use Rattle.page_model.specs.Content.{PartSaid, block, heading, literal, paragraph, words};
ghost use Rattle.page_model.specs.View.{part_of};
ghost use Rattle.page_model.specs.declared.parts.Rank.TheVariants as Rank;
ghost use Rattle.markdown_page.specs.Kept.{page_kept};
ghost use Rattle.markdown_page.specs.Promises.{ReadsAs};

use markdown_page::{PageFault, markdown_page};
use page_model::{Block, Inline, Part, Rank};
use std::alloc::{AllocError, Global};

fn name_part<'a>(alloc: Global, name: &'a str, about: &'a str) -> Result<Part<'a>, AllocError>
    ensures { IfOk result (λ part. part_of part
        ≡ block (paragraph ((literal name.now ∷ words (codes ": ") ∷ words about.now ∷ []) ∷ []))) }
{
    let line = vec![in alloc;
        Inline::Literal(name),
        Inline::Words(": "),
        Inline::Words(about),
    ]?;
    Ok(Part::Block(Block::Paragraph(vec![in alloc; line]?)))
}

/// A page with a name and what it does. It reads back with just these texts in it, whatever they are.
pub fn page_of(alloc: Global, name: &str, about: &str) -> Result<String, PageFault>
    ensures { IfOk result (λ text. ReadsAs (string_bytes text) (page_kept name.now
        (heading Rank.Section (codes "About")
        ∷ block (paragraph ((literal name.now ∷ words (codes ": ") ∷ words about.now ∷ []) ∷ []))
        ∷ []))) }
{
    let heading = Part::Heading(Rank::Section, "About");
    let parts = [heading, name_part(alloc, name, about)?];
    markdown_page(alloc, name, &parts)
}
