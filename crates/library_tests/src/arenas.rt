//! Arenas with little room. An arena gives no room out twice, except that of its last block. So with a little more room
//! each time, each growth of a call in turn is the first that is refused.
use bumpalo::Bump;
use bumpalo::collections::into_bump_slice;
use std::alloc::Global;
use std::process::Abort;

/// How many bytes an arena has: more than a call of these tests takes beside what it is given.
pub const BYTES: usize = 65536;

/// How many bytes more an arena has left each time. Few growths are smaller.
pub const STEP: usize = 8;

pub fn roomy(rt: &impl Abort, out: Global) -> Bump {
    let arena = Bump::try_with_capacity(out, BYTES).expect(rt, "an arena");
    arena.set_allocation_limit(Some(0));
    arena
}

/// Takes all that an arena has left, except that many bytes. Where none is left each growth is refused.
pub fn leave(rt: &impl Abort, arena: &Bump, room: usize) {
    let rest = arena.chunk_capacity().saturating_sub(room);
    let taken: Vec<u8, &Bump> = Vec::with_capacity(arena, rest).expect(rt, "the rest of an arena");
    into_bump_slice(taken);
}

/// How much room is little beside that many bytes that are written. A text that grows takes new memory each time, and
/// an arena gives none out twice.
pub fn little(written: usize) -> usize {
    written.saturating_mul(4).saturating_add(256)
}
