//! The parts of a page that collects help pages.
ghost use Rattle.std.specs.Prelude.{◌≡◌, ◌∷◌, [], flat_map, IfErr, IfOk, OnOk, map, string_bytes};
ghost use Rattle.bpaf_doc.specs.Buffer.Writes.{doc_writes, document_of, plain, with_writes};
ghost use Rattle.bpaf_items.specs.Page.EntryWrites.{body};
ghost use Rattle.bpaf_meta.specs.Meta.Misplaced.{IsWellPlaced};
ghost use Rattle.bpaf_meta.specs.View.{tree_of};
ghost use Rattle.bpaf_help.specs.Chapters.{AreWellPlaced, chapter_page, if_many, own_page_writes, summary_line};
ghost use Rattle.bpaf_help.specs.Chapters.{summary_text, summary_writes};
ghost use Rattle.bpaf_help.specs.Steps.{EndsAtOne, IsErrorOf};
ghost use Rattle.bpaf_help.specs.View.{chapter_of};

use crate::pages::paths::{anchor, joined};
use crate::pages::sections::DocSection;
use crate::pages::titles::{put_title, put_title_block};
use bpaf_doc::buffer::{Block, Doc, Style, Token};
use bpaf_items::meta_help::{EnvTexts, HelpError, write_help};
use std::alloc::{AllocError, Allocator};

/// Writes a summary where there are two sections or more.
pub fn put_summary<A: Allocator + Copy, B: Allocator>(
    alloc: A,
    doc: &mut Doc<A>,
    sections: &[DocSection<'_, B, A>],
) -> Result<(), AllocError>
    ensures { OnOk result (doc.new
        ≡ with_writes doc.old
        (if_many (map chapter_of sections.now) (summary_writes (map chapter_of sections.now)))) }
{
    if sections.len() < 2 {
        return Ok(());
    }
    put_title_block(doc, "Command summary")?;
    put_summary_lines(alloc, doc, sections)
}

fn put_summary_lines<A: Allocator + Copy, B: Allocator>(
    alloc: A,
    doc: &mut Doc<A>,
    sections: &[DocSection<'_, B, A>],
) -> Result<(), AllocError>
    ensures { OnOk result (doc.new ≡ with_writes doc.old (flat_map summary_line (map chapter_of sections.now))) }
{
    for section in sections {
        put_summary_line(alloc, doc, &section.path)?;
    }
    Ok(())
}

fn put_summary_line<A: Allocator + Copy>(
    alloc: A,
    doc: &mut Doc<A>,
    path: &[String<A>],
) -> Result<(), AllocError>
    ensures { OnOk result (doc.new
        ≡ with_writes doc.old (body (plain (summary_text (map string_bytes path.now)) ∷ []))) }
{
    let line = summary_text(alloc, path)?;
    doc.token(Token::BlockStart(Block::ItemBody))?;
    doc.write_str(line.as_str(), Style::Text)?;
    doc.token(Token::BlockEnd(Block::ItemBody))
}

// The path, and a link to its heading.
fn summary_text<A: Allocator + Copy>(alloc: A, path: &[String<A>]) -> Result<String<A>, AllocError>
    ensures { IfOk result (λ text. string_bytes text ≡ summary_text (map string_bytes path.now)) }
{
    let mut text = String::from_str(alloc, "* [`")?;
    text.push_str(joined(alloc, path, ' ')?.as_str())?;
    text.push_str("`")?;
    text.push('\u{21b4}')?;
    text.push_str("](#")?;
    text.push_str(anchor(alloc, path)?.as_str())?;
    text.push_str(")")?;
    Ok(text)
}

/// Writes the help page of each section, under its path. Each is checked before it takes memory.
pub fn put_pages<'m, A: Allocator + Copy, B: Allocator + Copy>(
    alloc: A,
    doc: &mut Doc<A>,
    sections: &[DocSection<'m, B, A>],
) -> Result<(), HelpError<'m, B>>
    ensures placed { OnOk result (AreWellPlaced (map chapter_of sections.now)) }
    ensures pages { OnOk result (doc.new
        ≡ with_writes doc.old (flat_map chapter_page (map chapter_of sections.now))) }
    ensures stops { IfErr result (EndsAtOne (map chapter_of sections.now)) }
{
    for section in sections {
        put_page(alloc, doc, section)?;
    }
    Ok(())
}

fn put_page<'m, A: Allocator + Copy, B: Allocator + Copy>(
    alloc: A,
    doc: &mut Doc<A>,
    section: &DocSection<'m, B, A>,
) -> Result<(), HelpError<'m, B>>
    ensures placed { OnOk result (IsWellPlaced (tree_of section.now.meta.now)) }
    ensures page { OnOk result (doc.new ≡ with_writes doc.old (chapter_page (chapter_of section.now))) }
    ensures stops { IfErr result (IsErrorOf (tree_of section.now.meta.now)) }
{
    if let Err(item) = section.meta.positional_invariant_check() {
        return Err(HelpError::Misplaced(item));
    }
    put_titled_page(alloc, doc, section)?;
    Ok(())
}

fn put_titled_page<A: Allocator + Copy, B: Allocator + Copy>(
    alloc: A,
    doc: &mut Doc<A>,
    section: &DocSection<'_, B, A>,
) -> Result<(), AllocError>
    ensures { OnOk result (doc.new ≡ with_writes doc.old (chapter_page (chapter_of section.now))) }
{
    put_title(doc, joined(alloc, &section.path, ' ')?.as_str())?;
    put_help(alloc, doc, section)
}

// The help page of a section, as a document in another.
fn put_help<A: Allocator + Copy, B: Allocator + Copy>(
    alloc: A,
    doc: &mut Doc<A>,
    section: &DocSection<'_, B, A>,
) -> Result<(), AllocError>
    ensures { OnOk result (doc.new
        ≡ with_writes doc.old (doc_writes (document_of (own_page_writes (chapter_of section.now))))) }
{
    let texts = EnvTexts::new(alloc);
    doc.token(Token::BlockStart(Block::InlineBlock))?;
    write_help(
        doc,
        alloc,
        &section.path,
        section.info,
        section.meta,
        &section.info.help,
        false,
        &texts,
    )?;
    doc.token(Token::BlockEnd(Block::InlineBlock))
}
