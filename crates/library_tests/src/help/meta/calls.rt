//! The calls of `bpaf_meta` that may answer `AllocError`, and those that take no memory.
use crate::arenas::leave;
use bpaf_doc::buffer::Doc;
use bpaf_meta::item::{Item, ShortLong};
use bpaf_meta::meta::{Meta, MetaInfo};
use bpaf_meta::meta_help::Metavar;
use bpaf_meta::usage::{meta, metavar, write_item, write_meta, write_shortlong};
use bumpalo::Bump;
use std::alloc::{AllocError, Allocator};
use std::fmt::Write as _;
use std::process::Abort;

/// The calls that write into a document.
#[derive(Clone, Copy)]
pub enum Write {
    Name,
    Metavar,
    Item,
    Usage,
    Outside,
    Info,
}

/// The calls that make a tree.
#[derive(Clone, Copy)]
pub enum Make {
    Copy,
    Usage,
    Outside,
    Item,
    Required,
    Optional,
    Or,
}

/// Makes a call that writes into a document.
pub fn write_in<'a>(
    doc: &mut Doc<&'a Bump>,
    tree: &Meta<&'a Bump>,
    call: Write,
) -> Result<(), AllocError> {
    match call {
        Write::Name => write_shortlong(doc, &ShortLong::Both('l', "a-long-name-of-a-flag")),
        Write::Metavar => metavar(doc, Metavar("the name of a value")),
        Write::Item => match tree.first_item() {
            Some(item) => write_item(doc, item),
            None => Ok(()),
        },
        Write::Usage => write_meta(doc, tree, true),
        Write::Outside => write_meta(doc, tree, false),
        Write::Info => meta(doc, MetaInfo(tree), true),
    }
}

/// Whether a call has made a tree, which is shown, with that many free bytes.
pub fn is_made<'a>(
    rt: &impl Abort,
    arena: &'a Bump,
    room: usize,
    tree: &Meta<&'a Bump>,
    call: Make,
    shown: &mut String,
) -> bool {
    leave(rt, arena, room);
    match made(arena, tree, call) {
        Ok(meta) => {
            write!(shown, "{meta:?}").expect(rt, "a text");
            drop(meta);
            true
        }
        Err(AllocError) => false,
    }
}

fn made<'a>(
    arena: &'a Bump,
    tree: &Meta<&'a Bump>,
    call: Make,
) -> Result<Meta<&'a Bump>, AllocError> {
    match call {
        Make::Copy => tree.clone(),
        Make::Usage => tree.normalized(true),
        Make::Outside => tree.normalized(false),
        Make::Item => Meta::from_item(arena, value()),
        Make::Required => value().required(arena, true),
        Make::Optional => value().required(arena, false),
        Make::Or => Meta::And(Vec::new(arena)).or(Meta::And(Vec::new(arena))),
    }
}

// An item that takes no memory.
fn value<A: Allocator>() -> Item<A> {
    Item::Positional {
        metavar: Metavar("FILE"),
        help: None,
    }
}

/// Whether the short names of the tree were put after others, with that many free bytes.
pub fn shorts_are_put<'a>(
    rt: &impl Abort,
    arena: &'a Bump,
    room: usize,
    tree: &Meta<&'a Bump>,
    shown: &mut String,
) -> bool {
    let mut flags = Vec::from_slice(arena, &['f']).expect(rt, "a list");
    let mut args = Vec::from_slice(arena, &['g']).expect(rt, "a list");
    leave(rt, arena, room);
    let is_done = tree.collect_shorts(&mut flags, &mut args).is_ok();
    write!(shown, "{flags:?} {args:?} ").expect(rt, "a text");
    drop(args);
    drop(flags);
    is_done
}

/// Shows what the calls that take no memory say of a tree, with that many free bytes.
pub fn read_is_shown(
    rt: &impl Abort,
    arena: &Bump,
    room: usize,
    tree: &Meta<&Bump>,
    shown: &mut String,
) -> bool {
    leave(rt, arena, room);
    let check = tree.positional_invariant_check();
    let first = tree.first_item();
    let is_pos = first.map(Item::is_pos);
    let is_command = tree.is_command();
    write!(shown, "{check:?} {is_command} {first:?} {is_pos:?}").is_ok()
}
