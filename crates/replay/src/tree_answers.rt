//! Answers to requests on trees, items and names.

use crate::calls::Call;
use crate::document_answers::{Form, write_form};
use crate::fault::Bad;
use crate::lines::Lines;
use crate::printed::{write_entry, write_item, write_tree};
use crate::request::Request;
use crate::trees::read_name;
use crate::words::Words;
use bpaf_doc::buffer::Doc;
use bpaf_help::item::ShortLong;
use bpaf_help::meta::Meta;
use bpaf_help::meta_help::{HelpItems, HiTy};
use bpaf_help::usage::write_meta;
use std::alloc::AllocError;

/// Answers a request on a tree and the use of it.
pub fn answer_use(request: &mut Request<'_>, call: Call, words: &mut Words) {
    let for_usage = request.flag();
    write_use(words, &request.tree(), call, for_usage);
}

fn write_use(words: &mut Words, tree: &Meta, call: Call, for_usage: bool) {
    match call {
        Call::Normal => write_made(words, tree.normalized(for_usage)),
        _ => write_usage(words, tree, call, for_usage),
    }
}

// Prints a tree that a call made.
fn write_made(words: &mut Words, tree: Result<Meta, AllocError>) {
    match tree {
        Ok(tree) => write_tree(words, &tree),
        Err(_) => words.fail(Bad::Memory),
    }
}

fn write_usage(words: &mut Words, tree: &Meta, call: Call, for_usage: bool) {
    let mut usage = Doc::new(words.alloc);
    let done = write_meta(&mut usage, tree, for_usage);
    words.keep(done);
    match call {
        Call::Usage => write_form(words, &usage, Form::Monochrome(true)),
        Call::UsageMarkdown => write_form(words, &usage, Form::Markdown(true)),
        _ => words.document(&usage),
    }
}

/// Answers a request on a tree alone.
pub fn answer_tree(request: &mut Request<'_>, call: Call, words: &mut Words) {
    write_fact(words, &request.tree(), call);
}

fn write_fact(words: &mut Words, tree: &Meta, call: Call) {
    match call {
        Call::Check => write_check(words, tree),
        Call::FirstItem => write_first(words, tree),
        Call::IsPositional => write_is_positional(words, tree),
        Call::IsCommand => words.bit(tree.is_command()),
        Call::Shorts => write_shorts(words, tree),
        Call::Items => write_items(words, tree),
        _ => write_group(words, tree),
    }
}

fn write_check(words: &mut Words, tree: &Meta) {
    match tree.positional_invariant_check() {
        Ok(()) => words.push(" ok"),
        Err(item) => {
            words.push(" err");
            write_item(words, item);
        }
    }
}

fn write_first(words: &mut Words, tree: &Meta) {
    match tree.first_item() {
        Some(item) => write_item(words, item),
        None => words.push(" -"),
    }
}

fn write_is_positional(words: &mut Words, tree: &Meta) {
    match tree {
        Meta::Item(item) => words.bit(item.is_pos()),
        _ => words.push(" -"),
    }
}

/// Adds the answers to one tree that need nothing else.
pub fn add_forms(words: &mut Words, tree: &Meta, lines: &mut Lines) {
    let uses = [
        ("n1", Call::Normal, true),
        ("u1", Call::Usage, true),
        ("um1", Call::UsageMarkdown, true),
        ("n0", Call::Normal, false),
        ("u0", Call::Usage, false),
        ("um0", Call::UsageMarkdown, false),
    ];
    for (key, call, for_usage) in uses {
        write_use(words, tree, call, for_usage);
        words.end(key, lines);
    }
    for (key, call) in [
        ("ck", Call::Check),
        ("sh", Call::Shorts),
        ("fi", Call::FirstItem),
    ] {
        write_fact(words, tree, call);
        words.end(key, lines);
    }
}

// Prints the short names of flags, and those of arguments.
fn write_shorts(words: &mut Words, tree: &Meta) {
    let mut flags = Vec::new(words.alloc);
    let mut args = Vec::new(words.alloc);
    let done = tree.collect_shorts(&mut flags, &mut args);
    words.keep(done);
    words.characters(" '", &flags);
    words.characters(" '", &args);
}

/// The item list of a tree.
pub fn listing<'a>(words: &mut Words, tree: &'a Meta) -> HelpItems<'a> {
    let mut items: HelpItems<'a> = HelpItems::new(words.alloc);
    let done = items.append_meta(tree);
    words.keep(done);
    items
}

fn write_items(words: &mut Words, tree: &Meta) {
    let items = listing(words, tree);
    words.push(" [");
    for entry in items.items() {
        write_entry(words, entry);
    }
    words.push(" ]");
}

/// Prints the entries of a heading.
pub fn answer_heading(request: &mut Request<'_>, words: &mut Words) {
    let ty = read_type(request);
    let tree = request.tree();
    let items = listing(words, &tree);
    words.push(" [");
    for entry in items.items_of_ty(ty) {
        write_entry(words, entry);
    }
    words.push(" ]");
}

fn read_type(request: &mut Request<'_>) -> HiTy {
    match request.word() {
        "f" => HiTy::Flag,
        "c" => HiTy::Command,
        "p" => HiTy::Positional,
        _ => {
            request.fail(Bad::Words("f, c or p was expected"));
            HiTy::Flag
        }
    }
}

/// Prints the places of the first start and of the first end of a group.
pub fn write_group(words: &mut Words, tree: &Meta) {
    match listing(words, tree).find_group() {
        Some(places) => {
            words.number(" ", *places.start());
            words.number(" ", *places.end());
        }
        None => words.push(" -"),
    }
}

/// Prints of two trees one or the other.
pub fn answer_either(request: &mut Request<'_>, words: &mut Words) {
    let first = request.tree();
    let second = request.tree();
    write_made(words, first.or(second));
}

/// Prints whether a name matches a text.
pub fn answer_matches(request: &mut Request<'_>, words: &mut Words) {
    let name = read_name(request);
    words.bit(name.matches(request.text()));
}

/// Prints the first of the short names and of the long names.
pub fn answer_first_name(request: &mut Request<'_>, words: &mut Words) {
    let shorts = request.characters();
    let longs = request.texts();
    match ShortLong::from_names(&shorts, &longs) {
        Ok(name) => words.name(" ", name),
        Err(_) => words.push(" noname"),
    }
}
