//! What lists and trees ask for ahead is little beside what they hold: of a tree with many parts, its list, its copy
//! and its normal form are made in an arena that has room for no more than a fixed number of bytes for each part.
use crate::arenas::{leave, little, roomy};
use crate::help::calls::list_of;
use crate::help::trees::tree;
use bpaf_help::meta::Meta;
use bumpalo::Bump;
use std::alloc::{Allocator, Global};
use std::process::Abort;

// How many parts the tree has. As many bytes for each of them, times the parts, are more than an arena has.
const PARTS: usize = 60;

// More bytes than a part takes in a list, in a copy, or in a normal form.
const PART: usize = 128;

#[derive(Clone, Copy)]
enum Made {
    List,
    Copy,
    Normal,
}

const MADE: &[(Made, &str)] = &[
    (Made::List, "a list"),
    (Made::Copy, "a copy"),
    (Made::Normal, "a normal form"),
];

fn wide<A: Allocator + Copy>(rt: &impl Abort, alloc: A) -> Meta<A> {
    let mut parts = Vec::new(alloc);
    for _ in 0..PARTS {
        parts.push(tree(rt, alloc, "a")).expect(rt, "a part");
    }
    Meta::And(parts)
}

fn is_made<'a>(rt: &impl Abort, arena: &'a Bump, tree: &Meta<&'a Bump>, made: Made) -> bool {
    match made {
        Made::List => {
            drop(list_of(rt, arena, tree));
            true
        }
        Made::Copy => tree.clone().is_ok(),
        Made::Normal => tree.normalized(true).is_ok(),
    }
}

fn takes_little(rt: &impl Abort, out: Global, made: Made) -> bool {
    let trees = roomy(rt, out);
    let tree = wide(rt, &trees);
    leave(rt, &trees, little(PARTS * PART));
    let is_made = is_made(rt, &trees, &tree, made);
    drop(tree);
    drop(trees);
    is_made
}

#[test]
fn lists_and_trees_take_little_more_than_they_hold(rt: HostRuntime) {
    for &(made, name) in MADE {
        assert!(rt; takes_little(&rt, rt.alloc(), made), "{name}");
    }
}
