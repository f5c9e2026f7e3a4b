//! Arenas with little room. An arena gives no room out twice, except that of its last block. So with a little more room
//! each time, each growth of a run in turn is the first that is refused, also where a heap could give out again what
//! was given back.

use bumpalo::Bump;
use bumpalo::collections::into_bump_slice;
use std::alloc::{AllocError, Global};

/// How many bytes an arena has: more than a run on a small page takes.
pub const BYTES: usize = 65536;

/// An arena that has that many bytes left and gets no more.
pub fn arena_of(global: Global, room: usize) -> Result<Bump, AllocError> {
    let arena = Bump::try_with_capacity(global, BYTES)?;
    arena.set_allocation_limit(Some(0));
    let rest = arena.chunk_capacity().saturating_sub(room);
    let taken: Vec<u8, &Bump> = Vec::with_capacity(&arena, rest)?;
    into_bump_slice(taken);
    Ok(arena)
}
