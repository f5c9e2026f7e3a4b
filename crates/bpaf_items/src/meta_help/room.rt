//! How much memory a list of entries is about to take in a document.
ghost use Rattle.std.specs.Prelude.{◌≡◌};

use crate::meta_help::entry::HelpItem;
use bpaf_doc::buffer::Doc;
use bpaf_meta::item::ShortLong;
use std::alloc::{AllocError, Allocator};

// The marks and texts of an entry, without those of its help.
const PARTS: usize = 12;

// What stands around its names: blanks, commas and dashes.
const BYTES: usize = 8;

// About how many parts and bytes of text are written.
#[derive(Clone, Copy)]
struct Room {
    parts: usize,
    bytes: usize,
}

/// Reserves about the memory that the entries take, so that the document does not grow step by step. No contract
/// depends on the number: what is missing is asked for where it is written.
pub fn reserve_for<'a, A: Allocator, B: Allocator>(
    doc: &mut Doc<A>,
    entries: &[&HelpItem<'a, B>],
) -> Result<(), AllocError>
    ensures { doc.new ≡ doc.old }
{
    let mut room = Room { parts: 0, bytes: 0 };
    for entry in entries {
        room = room.with(*entry);
    }
    doc.reserve(room.parts, room.bytes)
}

impl Room {
    fn with<A: Allocator>(self, entry: &HelpItem<'_, A>) -> Room {
        let (parts, bytes) = help_room(entry);
        Room {
            parts: self.parts.saturating_add(PARTS).saturating_add(parts),
            bytes: self
                .bytes
                .saturating_add(BYTES)
                .saturating_add(names_len(entry))
                .saturating_add(bytes),
        }
    }
}

fn help_room<A: Allocator>(entry: &HelpItem<'_, A>) -> (usize, usize) {
    match *entry {
        HelpItem::Any {
            help: Some(help),
            ..
        }
        | HelpItem::Positional {
            help: Some(help),
            ..
        }
        | HelpItem::Command {
            help: Some(help),
            ..
        }
        | HelpItem::Flag {
            help: Some(help),
            ..
        }
        | HelpItem::Argument {
            help: Some(help),
            ..
        }
        | HelpItem::DecorSuffix { help, .. }
        | HelpItem::GroupStart { help, .. } => (help.len(), help.text_len()),
        _ => (0, 0),
    }
}

fn names_len<A: Allocator>(entry: &HelpItem<'_, A>) -> usize {
    match *entry {
        HelpItem::Any { metavar, .. } => metavar.text_len(),
        HelpItem::Positional { metavar, .. } => metavar.0.len(),
        HelpItem::Command { name, .. } => name.len(),
        HelpItem::Flag { name, .. } => name_len(name),
        HelpItem::Argument { name, metavar, .. } => name_len(name).saturating_add(metavar.0.len()),
        _ => 0,
    }
}

fn name_len(name: ShortLong) -> usize {
    match name {
        ShortLong::Short(_) => 1,
        ShortLong::Long(long) | ShortLong::Both(_, long) => long.len(),
    }
}
