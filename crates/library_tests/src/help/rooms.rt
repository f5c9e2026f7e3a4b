//! What groups and headings ask for ahead in a document is little beside what they write: an arena that holds the
//! document alone has room for no more than a small multiple of its parts and texts. What they ask for beside a list is
//! little too: an arena that holds the list has room for no more than a fixed number of bytes for each entry.
use crate::arenas::{leave, little, roomy};
use crate::help::calls::list_of;
use crate::help::trees::tree;
use bpaf_doc::buffer::Doc;
use bpaf_help::meta::Meta;
use bpaf_help::meta_help::{EnvTexts, HelpItems, write_help_item_groups};
use bumpalo::Bump;
use std::alloc::{Allocator, Global};
use std::process::Abort;

// A group of one, many flags, and positional items. None stands twice.
const MANY: &str = "abcdefghijklmnopqrstuvwXYC&&&&&&&&&&&&&&&&&&&&&&&&&x#&";

// How many bytes a part takes beside its text.
const PART: usize = 16;

// Flags of as many names, each an item of one heading.
const FLAGS: &str =
    "abcdefghijklmnopqrstuvwαβγδεζηθικλμνξοπρστυφχψωабвгдежзийклмнопрстуфхцчшщъыьэюя";

// How many bytes an entry takes in what is remembered of a list. As many bytes for each entry as there are entries are
// more than an arena has then.
const ENTRY: usize = 64;

// Whether the groups and headings of a tree are written. Everything except the document is in other memory.
fn are_written<A: Allocator>(
    rt: &impl Abort,
    out: Global,
    tree: &Meta<Global>,
    doc: &mut Doc<A>,
) -> bool {
    let texts = EnvTexts::new(out);
    let list = list_of(rt, out, tree);
    let are_written = write_help_item_groups(doc, list, true, &texts).is_ok();
    drop(texts);
    are_written
}

// How many bytes they have with ample memory.
fn length(rt: &impl Abort, out: Global, tree: &Meta<Global>) -> usize {
    let mut doc = Doc::new(out);
    assert!(rt; are_written(rt, out, tree, &mut doc));
    let length = doc
        .len()
        .saturating_mul(PART)
        .saturating_add(doc.text_len());
    drop(doc);
    length
}

fn take_little(rt: &impl Abort, out: Global) -> bool {
    let tree = tree(rt, out, MANY);
    let room = little(length(rt, out, &tree));
    let arena = roomy(rt, out);
    leave(rt, &arena, room);
    let mut doc = Doc::new(&arena);
    let are_written = are_written(rt, out, &tree, &mut doc);
    drop(doc);
    drop(arena);
    drop(tree);
    are_written
}

#[test]
fn groups_take_little_more_than_they_write(rt: HostRuntime) {
    assert!(rt; take_little(&rt, rt.alloc()));
}

// One tree of many flags.
fn flags(rt: &impl Abort, out: Global) -> Meta<Global> {
    let mut signs = String::from_str(out, FLAGS).expect(rt, "letters");
    for _ in FLAGS.chars().skip(1) {
        signs.push('&').expect(rt, "a sign");
    }
    let tree = tree(rt, out, signs.as_str());
    drop(signs);
    tree
}

// Whether the groups and headings of a list are written. The document is in other memory.
fn are_listed<L: Allocator + Copy>(out: Global, list: HelpItems<'_, Global, L>) -> bool {
    let texts = EnvTexts::new(out);
    let mut doc = Doc::new(out);
    let are_listed = write_help_item_groups(&mut doc, list, true, &texts).is_ok();
    drop(doc);
    drop(texts);
    are_listed
}

fn listed_in(rt: &impl Abort, out: Global, arena: &Bump, tree: &Meta<Global>) -> bool {
    let list = list_of(rt, arena, tree);
    leave(
        rt,
        arena,
        little(FLAGS.chars().count().saturating_mul(ENTRY)),
    );
    are_listed(out, list)
}

fn remember_little(rt: &impl Abort, out: Global) -> bool {
    let tree = flags(rt, out);
    let arena = roomy(rt, out);
    let are_listed = listed_in(rt, out, &arena, &tree);
    drop(arena);
    drop(tree);
    are_listed
}

#[test]
fn what_is_remembered_of_a_list_takes_little_more_than_the_list(rt: HostRuntime) {
    assert!(rt; remember_little(&rt, rt.alloc()));
}
