//! Blocks, one after another.

ghost use Rattle.std.specs.Prelude.{◌≡◌, ◌+◌, ◌<◌, ◌^◌, OnOk};
ghost use Rattle.help_blocks.specs.Steps as steps;

use crate::place::Kind;
use std::alloc::{AllocError, Allocator};

/// Lines of one kind: from the line with the number `first`, counted from 0, up to the one before `end`.
#[derive(Clone, Copy, PartialEq, Eq, Debug)]
pub struct Block {
    pub kind: Kind,
    pub first: usize,
    pub end: usize,
}

fn lengthen<A: Allocator>(found: &mut Vec<Block, A>, end: usize)
    ensures { found.new.items ≡ steps.lengthened found.old.items end }
{
    if let Some(last) = found.last_mut() {
        last.end = end;
    }
}

/// Puts a line into the last block, or, if it begins one, into a new one.
pub fn put<A: Allocator>(
    found: &mut Vec<Block, A>,
    number: usize,
    begun: Option<Kind>,
) -> Result<(), AllocError>
    requires { number + 1 < 2 ^ 64 }
    ensures { OnOk result (found.new.items ≡ steps.with_line found.old.items number begun) }
{
    let end = number + 1;
    match begun {
        Some(kind) => found.push(Block {
            kind,
            first: number,
            end,
        })?,
        None => lengthen(found, end),
    }
    Ok(())
}
