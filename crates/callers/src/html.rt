//! A page in HTML of one chapter with a paragraph, that reads back as such.

ghost use Rattle.std.specs.Prelude.{◌≡◌, [], ◌∷◌, IfOk, codes, string_bytes};
ghost use Rattle.web_page.specs.Models.{ReadsAs};
ghost use Rattle.page_model.specs.Content.{block, chapter, no_chapters, paragraph, words};
ghost use Rattle.page_model.specs.View.{chapter_of, part_of};
ghost use Rattle.html_page.specs.Promises.{page_tree};

use html_page::{Extent, Frame, PageError, html_page};
use page_model::{Block, Chapter, Inline, Part};
use std::alloc::{AllocError, Global};

fn paragraph_part<'a>(alloc: Global, line: &'a str) -> Result<Part<'a>, AllocError>
    ensures { IfOk result (λ part. part_of part ≡ block (paragraph ((words line.now ∷ []) ∷ []))) }
{
    let line = vec![in alloc; Inline::Words(line)]?;
    Ok(Part::Block(Block::Paragraph(vec![in alloc; line]?)))
}

fn one_chapter<'a>(alloc: Global, title: &'a str, line: &'a str) -> Result<Chapter<'a>, AllocError>
    ensures { IfOk result (λ made. chapter_of made
        ≡ chapter title.now title.now [] (block (paragraph ((words line.now ∷ []) ∷ [])) ∷ []) no_chapters) }
{
    Ok(Chapter {
        title,
        name: title,
        about: Vec::new(alloc),
        parts: vec![in alloc; paragraph_part(alloc, line)?]?,
        below: Vec::new(alloc),
    })
}

/// A page of one chapter with a paragraph. It reads back with just this title and this text in it, whatever they are.
pub fn page_with(alloc: Global, title: &str, line: &str) -> Result<String, PageError>
    ensures { IfOk result (λ text. ReadsAs (string_bytes text) (page_tree
        (record { language = codes "en"; contents = codes "Contents"; usage = codes "Usage"; foot = [] })
        (chapter title.now title.now [] (block (paragraph ((words line.now ∷ []) ∷ [])) ∷ []) no_chapters))) }
{
    let frame = Frame {
        language: "en",
        contents: "Contents",
        usage: "Usage",
        foot: "",
    };
    let top = one_chapter(alloc, title, line)?;
    html_page(alloc, Extent::Page, &frame, &top)
}
