//! What a call on a monoid asks for is little beside what it writes: an arena has room for no more than a small
//! multiple of that. The square of the number of pieces is more.
use crate::arenas::{leave, little, roomy};
use bpaf_roff::escape::Escape;
use bpaf_roff::monoid::FreeMonoid;
use bumpalo::Bump;
use std::alloc::{AllocError, Allocator, Global};
use std::process::Abort;

#[derive(Clone, Copy)]
enum Call {
    AppendStr,
    AppendChar,
    Extend,
    AddAssign,
    Clone,
}

// How many bytes a piece has beside its text: a label, and where the text ends.
const LABEL: usize = 16;

const PIECES: &[(Escape, &str)] = &[(Escape::Special, "text"); 100];

// Calls, and how many bytes each writes for a piece.
const CALLS: &[(Call, usize, &str)] = &[
    (Call::AppendStr, LABEL + 4, "append_str"),
    (Call::AppendChar, LABEL + 1, "append_char"),
    (Call::Extend, LABEL + 4, "extend"),
    (Call::AddAssign, LABEL + 4, "add_assign"),
    (Call::Clone, LABEL + 4, "clone"),
];

fn put_texts<A: Allocator>(monoid: &mut FreeMonoid<Escape, A>) -> Result<(), AllocError> {
    for &(label, text) in PIECES {
        monoid.append_str(label, text)?;
    }
    Ok(())
}

fn put_characters<A: Allocator>(monoid: &mut FreeMonoid<Escape, A>) -> Result<(), AllocError> {
    for &(label, _) in PIECES {
        monoid.append_char(label, 't')?;
    }
    Ok(())
}

fn copy<A: Allocator + Copy>(monoid: &FreeMonoid<Escape, A>) -> Result<(), AllocError> {
    drop(monoid.clone()?);
    Ok(())
}

fn filled<A: Allocator + Copy>(rt: &impl Abort, alloc: A) -> FreeMonoid<Escape, A> {
    let mut monoid = FreeMonoid::new(alloc);
    put_texts(&mut monoid).expect(rt, "pieces");
    monoid
}

fn is_done(
    monoid: &mut FreeMonoid<Escape, &Bump>,
    given: &FreeMonoid<Escape, &Bump>,
    call: Call,
) -> bool {
    let done = match call {
        Call::AppendStr => put_texts(monoid),
        Call::AppendChar => put_characters(monoid),
        Call::Extend => monoid.extend(PIECES.iter().copied()),
        Call::AddAssign => monoid.add_assign(given),
        Call::Clone => copy(given),
    };
    done.is_ok()
}

// Whether a call is done in that much room, beside a monoid that is there before.
fn is_done_in(rt: &impl Abort, arena: &Bump, room: usize, call: Call) -> bool {
    let given = filled(rt, arena);
    leave(rt, arena, room);
    let mut monoid = FreeMonoid::new(arena);
    let is_done = is_done(&mut monoid, &given, call);
    drop(monoid);
    drop(given);
    is_done
}

fn takes_little(rt: &impl Abort, out: Global, call: Call, bytes: usize) -> bool {
    let room = little(PIECES.len().saturating_mul(bytes));
    let arena = roomy(rt, out);
    let takes_little = is_done_in(rt, &arena, room, call);
    drop(arena);
    takes_little
}

#[test]
fn pieces_take_little_more_than_they_write(rt: HostRuntime) {
    for &(call, bytes, name) in CALLS {
        assert!(rt; takes_little(&rt, rt.alloc(), call, bytes), "{name}");
    }
}
