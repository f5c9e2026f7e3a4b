//! The calls that may return `AllocError`, how each of them ends over an arena, and what it shows then: what it gave,
//! or what it left where it was refused, as debug text, which is the same over all allocators.
use crate::arenas::{leave, roomy};
use crate::help::meta::calls::{Make, Write, is_made, read_is_shown, shorts_are_put, write_in};
use crate::help::pages_calls::{PageCall, page_ended};
use crate::help::trees::{DESCRIBED, info, path, tree};
use bpaf_doc::buffer::Doc;
use bpaf_help::meta::Meta;
use bpaf_help::meta_help::{EnvTexts, HelpItems, write_help, write_help_item_groups};
use bumpalo::Bump;
use std::alloc::{Allocator, Global};
use std::fmt::Write as _;
use std::process::Abort;

#[derive(Clone, Copy)]
pub enum Call {
    /// The tree once more, after itself in a list.
    Append,
    /// What stands before `Append`.
    List,
    /// The list of the tree and of itself again.
    Both,
    Insert,
    Replace,
    Groups,
    /// A help page after a text.
    HelpPage,
    Write(Write),
    Make(Make),
    Shorts,
    /// What takes no memory.
    Read,
    Page(PageCall),
}

/// How a call ended.
#[derive(Clone, Copy, PartialEq, Eq)]
pub enum Ended {
    Given,
    Refused,
    /// A flag with this short name stands after a positional value.
    Misplaced(char),
}

impl Ended {
    pub fn of(is_done: bool) -> Ended {
        if is_done {
            Ended::Given
        } else {
            Ended::Refused
        }
    }
}

/// How a call ends over an arena with that many free bytes. The tree that the text spells stands there too: what takes
/// its memory where the tree does is refused as well.
pub fn end_of(
    rt: &impl Abort,
    out: Global,
    room: usize,
    text: &str,
    call: Call,
    shown: &mut String,
) -> Ended {
    let arena = roomy(rt, out);
    let tree = tree(rt, &arena, text);
    let ended = match call {
        Call::Page(call) => page_ended(rt, &arena, room, &tree, call, shown),
        _ => Ended::of(is_done(rt, &arena, room, &tree, call, shown)),
    };
    drop(tree);
    drop(arena);
    ended
}

fn is_done<'a>(
    rt: &impl Abort,
    arena: &'a Bump,
    room: usize,
    tree: &Meta<&'a Bump>,
    call: Call,
    shown: &mut String,
) -> bool {
    match call {
        Call::Append | Call::List => is_appended(rt, arena, room, tree, call, shown),
        Call::Both => both_are_listed(rt, arena, room, tree, shown),
        Call::Insert | Call::Replace => is_inserted(rt, arena, room, call, shown),
        Call::Make(call) => is_made(rt, arena, room, tree, call, shown),
        Call::Shorts => shorts_are_put(rt, arena, room, tree, shown),
        Call::Read => read_is_shown(rt, arena, room, tree, shown),
        _ => doc_is_written(rt, arena, room, tree, call, shown),
    }
}

/// A list in which the tree stands once.
pub fn list_of<'a, A: Allocator, L: Allocator>(
    rt: &impl Abort,
    alloc: L,
    tree: &'a Meta<A>,
) -> HelpItems<'a, A, L> {
    let mut list: HelpItems<'a, A, L> = HelpItems::new(alloc);
    list.append_meta(tree).expect(rt, "a list");
    list
}

// Puts the tree into a list in which it stands once, or shows that list.
fn is_appended<'a>(
    rt: &impl Abort,
    arena: &'a Bump,
    room: usize,
    tree: &Meta<&'a Bump>,
    call: Call,
    shown: &mut String,
) -> bool {
    let mut list = list_of(rt, arena, tree);
    leave(rt, arena, room);
    let is_done = match call {
        Call::Append => list.append_meta(tree).is_ok(),
        _ => true,
    };
    write!(shown, "{:?}", list.items()).expect(rt, "a text");
    drop(list);
    is_done
}

// Lists the tree as one of a command line and of its help options.
fn both_are_listed<'a>(
    rt: &impl Abort,
    arena: &'a Bump,
    room: usize,
    tree: &Meta<&'a Bump>,
    shown: &mut String,
) -> bool {
    leave(rt, arena, room);
    match HelpItems::of(arena, tree, tree) {
        Ok(list) => {
            write!(shown, "{:?}", list.items()).expect(rt, "a text");
            true
        }
        Err(_) => false,
    }
}

// Texts in which one name has one.
fn begun_texts<A: Allocator + Copy>(rt: &impl Abort, alloc: A) -> EnvTexts<A> {
    let mut texts = EnvTexts::new(alloc);
    texts.insert("V", "7").expect(rt, "a text");
    texts
}

fn is_inserted<'a>(
    rt: &impl Abort,
    arena: &'a Bump,
    room: usize,
    call: Call,
    shown: &mut String,
) -> bool {
    let (mut texts, name) = match call {
        Call::Insert => (EnvTexts::new(arena), "W"),
        _ => (begun_texts(rt, arena), "V"),
    };
    leave(rt, arena, room);
    let is_done = texts
        .insert(name, "a text of an environment variable")
        .is_ok();
    let (first, second) = (texts.get("V"), texts.get("W"));
    write!(shown, "{texts:?} {first:?} {second:?}").expect(rt, "a text");
    drop(texts);
    is_done
}

// A call that writes into a document, which holds a text.
fn doc_is_written<'a>(
    rt: &impl Abort,
    arena: &'a Bump,
    room: usize,
    tree: &Meta<&'a Bump>,
    call: Call,
    shown: &mut String,
) -> bool {
    let mut doc = Doc::new(arena);
    doc.literal("before").expect(rt, "a document");
    let is_done = match call {
        Call::Write(call) => {
            leave(rt, arena, room);
            write_in(&mut doc, tree, call).is_ok()
        }
        Call::HelpPage => page_is_written(rt, arena, room, tree, &mut doc),
        _ => are_written(rt, arena, room, tree, &mut doc, shown),
    };
    write!(shown, "{doc:?}").expect(rt, "a text");
    drop(doc);
    is_done
}

// The groups of the tree.
fn are_written<'a>(
    rt: &impl Abort,
    arena: &'a Bump,
    room: usize,
    tree: &Meta<&'a Bump>,
    doc: &mut Doc<&'a Bump>,
    shown: &mut String,
) -> bool {
    let texts = begun_texts(rt, arena);
    let list = list_of(rt, arena, tree);
    leave(rt, arena, room);
    let is_done = write_help_item_groups(doc, list, true, &texts).is_ok();
    write!(shown, "{texts:?} ").expect(rt, "a text");
    drop(texts);
    is_done
}

fn page_is_written<'a>(
    rt: &impl Abort,
    arena: &'a Bump,
    room: usize,
    tree: &Meta<&'a Bump>,
    doc: &mut Doc<&'a Bump>,
) -> bool {
    let info = info(rt, arena, DESCRIBED);
    let path = path(rt, arena);
    let texts = EnvTexts::new(arena);
    leave(rt, arena, room);
    let is_done = write_help(doc, arena, &path, &info, tree, tree, true, &texts).is_ok();
    drop(texts);
    drop(path);
    drop(info);
    is_done
}
