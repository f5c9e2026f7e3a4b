//! Documents, read.

use crate::calls::find;
use crate::encoding::read_text;
use crate::fault::Bad;
use crate::request::Request;
use crate::trees::read_name;
use bpaf_doc::buffer::{Block, Doc, Style, Token};
use bpaf_help::meta::Meta;
use bpaf_help::meta_help::Metavar;
use bpaf_help::usage::{metavar, write_item, write_meta, write_shortlong};
use std::alloc::{AllocError, Global};

/// Takes the parts of a document, after its bracket.
pub fn read_document(request: &mut Request<'_>) -> Doc {
    let mut document = Doc::new(request.alloc);
    for _ in 0..request.len() {
        let word = request.word();
        if word == "]" {
            return document;
        }
        let done = read_part(request, word, &mut document);
        request.keep(done);
    }
    request.fail(Bad::ENDS_EARLY);
    document
}

// A part that other words belong to.
#[derive(Clone, Copy)]
enum Part {
    Document,
    Emphasized,
    Path,
    Usage,
    Item,
    Metavar,
    Name,
}

static PARTS: [(&str, Part); 7] = [
    ("doc", Part::Document),
    ("em", Part::Emphasized),
    ("path", Part::Path),
    ("meta", Part::Usage),
    ("item", Part::Item),
    ("metavar", Part::Metavar),
    ("name", Part::Name),
];

// Takes what belongs to a part after its first word, and writes the part.
fn read_part(request: &mut Request<'_>, word: &str, document: &mut Doc) -> Result<(), AllocError> {
    match find(&PARTS, word) {
        Some(Part::Document) => document.doc(&request.document()),
        Some(Part::Emphasized) => document.em_doc(&request.document()),
        Some(Part::Path) => document.write_path(&read_path(request)),
        Some(Part::Usage) => read_usage(request, document),
        Some(Part::Item) => write_if_item(document, &request.tree()),
        Some(Part::Metavar) => metavar(document, Metavar(request.text())),
        Some(Part::Name) => write_shortlong(document, &read_name(request)),
        None => read_plain(request, word, document),
    }
}

/// Takes the names of a path, in parentheses.
pub fn read_path(request: &mut Request<'_>) -> Vec<String> {
    let mut path = Vec::new(request.alloc);
    for name in &request.texts() {
        let done = push_name(&mut path, request.alloc, *name);
        request.keep(done);
    }
    path
}

/// Appends a name to a path.
pub fn push_name(path: &mut Vec<String>, alloc: Global, name: &str) -> Result<(), AllocError> {
    let copy = String::from_str(alloc, name)?;
    Ok(path.push(copy)?)
}

// Takes a tree, and writes the use of it.
fn read_usage(request: &mut Request<'_>, document: &mut Doc) -> Result<(), AllocError> {
    let for_usage = request.flag();
    write_meta(document, &request.tree(), for_usage)
}

// Writes a tree that is one item, and nothing for another.
fn write_if_item(document: &mut Doc, tree: &Meta) -> Result<(), AllocError> {
    match tree {
        Meta::Item(item) => write_item(document, item),
        _ => Ok(()),
    }
}

// A part that is one word: a text in a style, or a block's start or end.
fn read_plain(request: &mut Request<'_>, word: &str, document: &mut Doc) -> Result<(), AllocError> {
    if let Some(code) = word.strip_prefix('<') {
        return document.token(Token::BlockStart(block_of(request, code)));
    }
    if let Some(code) = word.strip_prefix('>') {
        return document.token(Token::BlockEnd(block_of(request, code)));
    }
    let (code, spelled) = word.split_once('\'').unwrap_or((word, ""));
    let style = style_of(request, code);
    match read_text(request.alloc, spelled) {
        Ok(text) => document.write_str(text.as_str(), style),
        Err(bad) => {
            request.fail(bad);
            Ok(())
        }
    }
}

static BLOCKS: [(&str, Block); 12] = [
    ("H", Block::Header),
    ("2", Block::Section2),
    ("3", Block::Section3),
    ("4", Block::Section4),
    ("t", Block::ItemTerm),
    ("b", Block::ItemBody),
    ("d", Block::DefinitionList),
    ("B", Block::Block),
    ("i", Block::InlineBlock),
    ("r", Block::TermRef),
    ("m", Block::Meta),
    ("o", Block::Mono),
];

fn block_of(request: &mut Request<'_>, code: &str) -> Block {
    match find(&BLOCKS, code) {
        Some(block) => block,
        None => {
            request.fail(Bad::Words("no such block"));
            Block::Block
        }
    }
}

static STYLES: [(&str, Style); 5] = [
    ("T", Style::Text),
    ("E", Style::Emphasis),
    ("L", Style::Literal),
    ("M", Style::Metavar),
    ("I", Style::Invalid),
];

fn style_of(request: &mut Request<'_>, code: &str) -> Style {
    match find(&STYLES, code) {
        Some(style) => style,
        None => {
            request.fail(Bad::Words("no such part"));
            Style::Text
        }
    }
}
