//! Trees, items and names of a command line, read. What stands after their first word was read before.

use crate::calls::find;
use crate::fault::Bad;
use crate::request::Request;
use bpaf_doc::buffer::Doc;
use bpaf_help::item::{Item, ShortLong};
use bpaf_help::meta::Meta;
use bpaf_help::meta_help::{Info, Metavar};
use std::alloc::AllocError;

// What begins a tree.
#[derive(Clone, Copy)]
enum Kind {
    Skip,
    And,
    Or,
    Optional,
    Required,
    Adjacent,
    Many,
    Strict,
    Subsection,
    Suffix,
    CustomUsage,
    Any,
    Positional,
    Command,
    Flag,
    Argument,
}

static KINDS: [(&str, Kind); 16] = [
    ("skip", Kind::Skip),
    ("and", Kind::And),
    ("or", Kind::Or),
    ("opt", Kind::Optional),
    ("req", Kind::Required),
    ("adj", Kind::Adjacent),
    ("many", Kind::Many),
    ("strict", Kind::Strict),
    ("sub", Kind::Subsection),
    ("suf", Kind::Suffix),
    ("cu", Kind::CustomUsage),
    ("any", Kind::Any),
    ("pos", Kind::Positional),
    ("cmd", Kind::Command),
    ("flag", Kind::Flag),
    ("arg", Kind::Argument),
];

/// Takes what stands after the first word of a tree. Returns None for a word that begins no tree.
pub fn read_tree(request: &mut Request<'_>, word: &str) -> Option<Meta> {
    let kind = find(&KINDS, word)?;
    match read_kind(request, kind) {
        Ok(tree) => Some(tree),
        Err(_) => {
            request.fail(Bad::Memory);
            Some(Meta::Skip)
        }
    }
}

fn read_kind(request: &mut Request<'_>, kind: Kind) -> Result<Meta, AllocError> {
    match kind {
        Kind::Skip => Ok(Meta::Skip),
        Kind::And => Ok(Meta::And(read_trees(request))),
        Kind::Or => Ok(Meta::Or(read_trees(request))),
        Kind::Optional | Kind::Required | Kind::Adjacent | Kind::Many | Kind::Strict => {
            read_wrapped(request, kind)
        }
        Kind::Subsection | Kind::Suffix | Kind::CustomUsage => read_noted(request, kind),
        Kind::Command => read_command(request),
        Kind::Any | Kind::Positional | Kind::Flag | Kind::Argument => read_leaf(request, kind),
    }
}

// Takes trees in parentheses.
fn read_trees(request: &mut Request<'_>) -> Vec<Meta> {
    request.expect("(");
    let mut trees = Vec::new(request.alloc);
    for _ in 0..request.len() {
        if request.has(")") {
            return trees;
        }
        if trees.push(request.tree()).is_err() {
            request.fail(Bad::Memory);
        }
    }
    request.fail(Bad::ENDS_EARLY);
    trees
}

// Takes a tree, and puts it into a box.
fn read_boxed(request: &mut Request<'_>) -> Result<Box<Meta>, AllocError> {
    Ok(Box::new(request.alloc, request.tree())?)
}

// Takes a tree.
fn read_wrapped(request: &mut Request<'_>, kind: Kind) -> Result<Meta, AllocError> {
    let inner = read_boxed(request)?;
    Ok(match kind {
        Kind::Optional => Meta::Optional(inner),
        Kind::Required => Meta::Required(inner),
        Kind::Adjacent => Meta::Adjacent(inner),
        Kind::Many => Meta::Many(inner),
        _ => Meta::Strict(inner),
    })
}

// Takes a document and a tree.
fn read_noted(request: &mut Request<'_>, kind: Kind) -> Result<Meta, AllocError> {
    let note = read_note(request)?;
    let inner = read_boxed(request)?;
    Ok(match kind {
        Kind::Subsection => Meta::Subsection(inner, note),
        Kind::Suffix => Meta::Suffix(inner, note),
        _ => Meta::CustomUsage(inner, note),
    })
}

fn read_note(request: &mut Request<'_>) -> Result<Box<Doc>, AllocError> {
    Ok(Box::new(request.alloc, request.document())?)
}

// Takes what stands after the word of an item that holds no tree.
fn read_leaf(request: &mut Request<'_>, kind: Kind) -> Result<Meta, AllocError> {
    let item = match kind {
        Kind::Any => read_any(request),
        Kind::Positional => read_positional(request),
        Kind::Flag => read_flag(request),
        _ => read_argument(request),
    };
    Meta::from_item(request.alloc, item)
}

fn read_any(request: &mut Request<'_>) -> Item {
    Item::Any {
        metavar: request.document(),
        anywhere: request.flag(),
        help: request.optional_document(),
    }
}

fn read_positional(request: &mut Request<'_>) -> Item {
    Item::Positional {
        metavar: Metavar(request.text()),
        help: request.optional_document(),
    }
}

fn read_flag(request: &mut Request<'_>) -> Item {
    Item::Flag {
        name: read_name(request),
        shorts: request.characters(),
        env: request.optional_text(),
        help: request.optional_document(),
    }
}

fn read_argument(request: &mut Request<'_>) -> Item {
    Item::Argument {
        name: read_name(request),
        shorts: request.characters(),
        metavar: Metavar(request.text()),
        env: request.optional_text(),
        help: request.optional_document(),
    }
}

fn read_command(request: &mut Request<'_>) -> Result<Meta, AllocError> {
    let name = request.text();
    let short = read_short(request);
    let help = request.optional_document();
    let meta = read_boxed(request)?;
    let info = Box::new(request.alloc, read_info(request))?;
    Meta::from_item(
        request.alloc,
        Item::Command {
            name,
            short,
            help,
            meta,
            info,
        },
    )
}

// Takes `-`, or a text of which only the first character counts.
fn read_short(request: &mut Request<'_>) -> Option<char> {
    request.optional_text()?.chars().next()
}

/// Takes `-`, or the texts around a help page.
pub fn read_info(request: &mut Request<'_>) -> Info {
    if request.has("-") {
        return Info {
            descr: None,
            header: None,
            footer: None,
            usage: None,
            help: Meta::Skip,
        };
    }
    request.expect("info");
    Info {
        descr: request.optional_document(),
        header: request.optional_document(),
        footer: request.optional_document(),
        usage: request.optional_document(),
        help: request.tree(),
    }
}

/// Takes a word that is a name: short, long or both.
pub fn read_name(request: &mut Request<'_>) -> ShortLong {
    let (kind, word) = request.word().split_once('\'').unwrap_or(("", ""));
    let text = request.spelled(word);
    let mut characters = text.chars();
    match (kind, characters.next()) {
        ("l", _) => ShortLong::Long(text),
        ("s", Some(short)) => ShortLong::Short(short),
        ("b", Some(short)) => ShortLong::Both(short, characters.as_str()),
        _ => {
            request.fail(Bad::Words("a name was expected"));
            ShortLong::Long("")
        }
    }
}
