//! Trees, items and entries of an item list, printed.

use crate::words::Words;
use bpaf_doc::buffer::Doc;
use bpaf_help::item::{Item, ShortLong};
use bpaf_help::meta::Meta;
use bpaf_help::meta_help::{HelpItem, HiTy, Info, Metavar};

/// Prints a tree.
#[cycle(write)]
pub fn write_tree(words: &mut Words, tree: &Meta) {
    match tree {
        Meta::And(parts) => write_parts(words, " and (", parts),
        Meta::Or(parts) => write_parts(words, " or (", parts),
        Meta::Optional(inner) => write_inner(words, " opt", inner),
        Meta::Required(inner) => write_inner(words, " req", inner),
        Meta::Adjacent(inner) => write_inner(words, " adj", inner),
        Meta::Many(inner) => write_inner(words, " many", inner),
        Meta::Strict(inner) => write_inner(words, " strict", inner),
        Meta::Item(item) => write_item(words, item),
        Meta::Subsection(inner, title) => write_noted(words, " sub", title, inner),
        Meta::Suffix(inner, note) => write_noted(words, " suf", note, inner),
        Meta::CustomUsage(inner, usage) => write_noted(words, " cu", usage, inner),
        Meta::Skip => words.push(" skip"),
    }
}

#[cycle(write)]
fn write_inner(words: &mut Words, word: &str, inner: &Box<Meta>) {
    words.push(word);
    write_tree(words, inner);
}

#[cycle(write)]
fn write_noted(words: &mut Words, word: &str, note: &Doc, inner: &Box<Meta>) {
    words.push(word);
    words.document(note);
    write_tree(words, inner);
}

#[cycle(write)]
fn write_parts(words: &mut Words, opening: &str, parts: &Vec<Meta>) {
    words.push(opening);
    for part in parts {
        write_tree(words, part);
    }
    words.push(" )");
}

/// Prints an item.
#[cycle(write)]
pub fn write_item(words: &mut Words, item: &Item) {
    match item {
        Item::Any {
            metavar,
            anywhere,
            help,
        } => write_any(words, metavar, *anywhere, help.as_ref()),
        Item::Positional { metavar, help } => write_positional(words, *metavar, help.as_ref()),
        Item::Command {
            name,
            short,
            help,
            meta,
            info,
        } => {
            write_command(words, *name, *short, help);
            write_tree(words, meta);
            write_info(words, info);
        }
        Item::Flag {
            name,
            shorts,
            env,
            help,
        } => {
            write_shorts(words, " flag ", *name, shorts);
            write_notes(words, *env, help);
        }
        Item::Argument {
            name,
            shorts,
            metavar,
            env,
            help,
        } => {
            write_shorts(words, " arg ", *name, shorts);
            words.text(" ", metavar.0);
            write_notes(words, *env, help);
        }
    }
}

#[cycle(write)]
fn write_info(words: &mut Words, info: &Box<Info>) {
    if is_default(info) {
        words.push(" -");
    } else {
        write_texts(words, info);
        write_tree(words, &info.help);
    }
}

// Whether it has no text, and no tree.
fn is_default(info: &Info) -> bool {
    matches!(
        info,
        Info {
            descr: None,
            header: None,
            footer: None,
            usage: None,
            help: Meta::Skip
        }
    )
}

fn write_texts(words: &mut Words, info: &Info) {
    words.push(" info");
    words.optional_document(info.descr.as_ref());
    words.optional_document(info.header.as_ref());
    words.optional_document(info.footer.as_ref());
    words.optional_document(info.usage.as_ref());
}

fn write_any(words: &mut Words, metavar: &Doc, anywhere: bool, help: Option<&Doc>) {
    words.push(" any");
    words.document(metavar);
    words.bit(anywhere);
    words.optional_document(help);
}

fn write_positional(words: &mut Words, metavar: Metavar, help: Option<&Doc>) {
    words.text(" pos ", metavar.0);
    words.optional_document(help);
}

// A command, without its tree and what goes with that.
fn write_command(words: &mut Words, name: &str, short: Option<char>, help: &Option<Doc>) {
    words.text(" cmd ", name);
    match short {
        None => words.push(" -"),
        Some(short) => words.characters(" '", &[short]),
    }
    words.optional_document(help.as_ref());
}

// A name after its word, and all short names.
fn write_shorts(words: &mut Words, word: &str, name: ShortLong, shorts: &[char]) {
    words.name(word, name);
    words.characters(" '", shorts);
}

// A variable of the environment, and the help.
fn write_notes(words: &mut Words, env: Option<&str>, help: &Option<Doc>) {
    words.optional_text(env);
    words.optional_document(help.as_ref());
}

/// Prints an entry of an item list, with `;` after it.
pub fn write_entry(words: &mut Words, entry: &HelpItem<'_>) {
    match *entry {
        HelpItem::DecorSuffix { help, ty } => write_noted_mark(words, " decor", ty, help),
        HelpItem::GroupStart { help, ty } => write_noted_mark(words, " gstart", ty, help),
        HelpItem::GroupEnd { ty } => write_mark(words, " gend", ty),
        HelpItem::AdjacentStart { ty, .. } => write_mark(words, " astart", ty),
        HelpItem::AdjacentStop { ty } => write_mark(words, " astop", ty),
        HelpItem::Any {
            metavar,
            anywhere,
            help,
        } => write_any(words, metavar, anywhere, help),
        HelpItem::Positional { metavar, help } => write_positional(words, metavar, help),
        HelpItem::Command { name, help, .. } => {
            words.text(" cmd ", name);
            words.optional_document(help);
        }
        HelpItem::Flag { name, help, .. } => {
            words.name(" flag ", name);
            words.optional_document(help);
        }
        HelpItem::Argument {
            name,
            metavar,
            help,
            ..
        } => {
            words.name(" arg ", name);
            words.text(" ", metavar.0);
            words.optional_document(help);
        }
    }
    words.push(" ;");
}

// A mark after its word.
fn write_mark(words: &mut Words, word: &str, ty: HiTy) {
    words.push(word);
    words.push(match ty {
        HiTy::Flag => " f",
        HiTy::Command => " c",
        HiTy::Positional => " p",
    });
}

fn write_noted_mark(words: &mut Words, word: &str, ty: HiTy, note: &Doc) {
    write_mark(words, word, ty);
    words.document(note);
}
