//! The parts of a manual page.
ghost use Rattle.std.specs.Prelude.{◌≡◌, ◌++◌, false, flat_map, OnOk, map, string_bytes};
ghost use Rattle.bpaf_doc.specs.Buffer.Writes.{with_writes};
ghost use Rattle.bpaf_meta.specs.View.{head_of, tree_of};
ghost use Rattle.bpaf_items.specs.Listing.ItemList.{item_list};
ghost use Rattle.bpaf_items.specs.Page.EnvTexts.{no_texts};
ghost use Rattle.bpaf_items.specs.Page.HelpPage.{groups_writes};
ghost use Rattle.bpaf_help.specs.Chapters.{if_many, manual_name, synopsis_line, synopsis_writes};
ghost use Rattle.bpaf_help.specs.Steps.{manual_front, manual_part, path_title};
ghost use Rattle.bpaf_help.specs.View.{chapter_of};

use crate::pages::sections::DocSection;
use crate::pages::titles::{put_title, put_title_block, put_within};
use bpaf_doc::buffer::{Block, Doc, Style, Token};
use bpaf_items::meta_help::{EnvTexts, HelpItems, Info, write_help_item_groups};
use bpaf_meta::meta::Meta;
use bpaf_meta::usage::write_meta;
use std::alloc::{AllocError, Allocator};

/// Writes the usage lines where there are two sections or more.
pub fn put_synopsis<A: Allocator + Copy, B: Allocator + Copy>(
    doc: &mut Doc<A>,
    sections: &[DocSection<'_, B, A>],
) -> Result<(), AllocError>
    ensures { OnOk result (doc.new
        ≡ with_writes doc.old
        (if_many (map chapter_of sections.now) (synopsis_writes (map chapter_of sections.now)))) }
{
    if sections.len() < 2 {
        return Ok(());
    }
    put_title_block(doc, "SYNOPSIS")?;
    doc.token(Token::BlockStart(Block::Meta))?;
    put_synopsis_lines(doc, sections)?;
    doc.token(Token::BlockEnd(Block::Meta))
}

fn put_synopsis_lines<A: Allocator + Copy, B: Allocator + Copy>(
    doc: &mut Doc<A>,
    sections: &[DocSection<'_, B, A>],
) -> Result<(), AllocError>
    ensures { OnOk result (doc.new ≡ with_writes doc.old (flat_map synopsis_line (map chapter_of sections.now))) }
{
    for section in sections {
        put_synopsis_line(doc, section)?;
    }
    Ok(())
}

fn put_synopsis_line<A: Allocator + Copy, B: Allocator + Copy>(
    doc: &mut Doc<A>,
    section: &DocSection<'_, B, A>,
) -> Result<(), AllocError>
    ensures { OnOk result (doc.new ≡ with_writes doc.old (synopsis_line (chapter_of section.now))) }
{
    doc.write_path(&section.path)?;
    write_meta(doc, section.meta, true)?;
    doc.write_str("\n", Style::Text)
}

/// Writes a chapter for each section, under its path if `many` is true.
pub fn put_chapters<A: Allocator + Copy, B: Allocator + Copy>(
    alloc: A,
    doc: &mut Doc<A>,
    app: &str,
    many: bool,
    sections: &[DocSection<'_, B, A>],
) -> Result<(), AllocError>
    ensures { OnOk result (doc.new
        ≡ with_writes doc.old (flat_map (manual_part app.now many) (map chapter_of sections.now))) }
{
    for section in sections {
        put_chapter(alloc, doc, app, many, section)?;
    }
    Ok(())
}

fn put_chapter<A: Allocator + Copy, B: Allocator + Copy>(
    alloc: A,
    doc: &mut Doc<A>,
    app: &str,
    many: bool,
    section: &DocSection<'_, B, A>,
) -> Result<(), AllocError>
    ensures { OnOk result (doc.new ≡ with_writes doc.old (manual_part app.now many (chapter_of section.now))) }
{
    put_path_title(doc, many, &section.path)?;
    put_front(doc, app, &section.path, section.meta, section.info)?;
    put_list(alloc, doc, section.meta, &section.info.help)?;
    put_within(doc, &section.info.footer)
}

fn put_path_title<A: Allocator, P: Allocator>(
    doc: &mut Doc<A>,
    many: bool,
    path: &[String<P>],
) -> Result<(), AllocError>
    ensures { OnOk result (doc.new ≡ with_writes doc.old (path_title many (map string_bytes path.now))) }
{
    if !many {
        return Ok(());
    }
    doc.token(Token::BlockStart(Block::Header))?;
    doc.write_path(path)?;
    doc.token(Token::BlockEnd(Block::Header))
}

// What is above the list: the name, the usage line and the header.
fn put_front<A: Allocator, P: Allocator, B: Allocator + Copy>(
    doc: &mut Doc<A>,
    app: &str,
    path: &[String<P>],
    meta: &Meta<B>,
    info: &Info<B>,
) -> Result<(), AllocError>
    ensures { OnOk result (doc.new
        ≡ with_writes doc.old
        (manual_front app.now (map string_bytes path.now) (tree_of meta.now) (head_of info.now))) }
{
    put_name(doc, app, &info.descr)?;
    put_title(doc, "SYNOPSIS")?;
    doc.write_path(path)?;
    write_meta(doc, meta, true)?;
    put_within(doc, &info.header)
}

fn put_name<A: Allocator, B: Allocator>(
    doc: &mut Doc<A>,
    app: &str,
    descr: &Option<Doc<B>>,
) -> Result<(), AllocError>
    ensures { OnOk result (doc.new ≡ with_writes doc.old (manual_name app.now descr.now)) }
{
    let Some(descr) = descr else {
        return Ok(());
    };
    put_title(doc, "NAME")?;
    doc.write_str(app, Style::Text)?;
    doc.write_str(" - ", Style::Text)?;
    doc.doc(descr)
}

// The items of the tree and of the help tree under their groups and headings.
fn put_list<A: Allocator + Copy, B: Allocator + Copy>(
    alloc: A,
    doc: &mut Doc<A>,
    meta: &Meta<B>,
    help: &Meta<B>,
) -> Result<(), AllocError>
    ensures { OnOk result (doc.new
        ≡ with_writes doc.old (groups_writes false no_texts (item_list (tree_of meta.now)
        ++ item_list (tree_of help.now)))) }
{
    let items = HelpItems::of(alloc, meta, help)?;
    write_help_item_groups(doc, items, false, &EnvTexts::new(alloc))
}
