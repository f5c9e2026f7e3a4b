//! The calls of a monoid over a small arena.
use crate::arenas::leave;
use crate::roff::refusals::LONG;
use bpaf_roff::monoid::FreeMonoid;
use bumpalo::Bump;
use std::alloc::{AllocError, Allocator, Global};
use std::fmt::Write;
use std::process::Abort;

/// A call of a monoid.
#[derive(Clone, Copy)]
pub enum MonoidCall {
    /// What stands before the others.
    Nothing,
    AppendStr,
    AppendChar,
    PushStr,
    Push,
    Extend,
    AddAssign,
    Add,
    Clone,
}

const TEXTS: &[(char, &str)] = &[('a', "x"), ('a', LONG), ('b', ""), ('b', LONG)];

// Pieces under one label, of which nothing was joined, and then with `squash` on.
fn start<A: Allocator + Copy>(rt: &impl Abort, alloc: A, pieces: usize) -> FreeMonoid<char, A> {
    let mut monoid = FreeMonoid::new(alloc);
    for _ in 0..pieces {
        monoid.append_str('a', "text").expect(rt, "a piece");
    }
    monoid.squash = true;
    monoid
}

/// Each piece as a blank, its label, a colon and its text, and then a bar and the setting.
pub fn show<A: Allocator>(rt: &impl Abort, monoid: &FreeMonoid<char, A>, shown: &mut String) {
    for (label, text) in monoid {
        write!(shown, " {label}:{text}").expect(rt, "a text");
    }
    write!(shown, "|{}", monoid.squash).expect(rt, "a text");
}

// Whether the call was done.
fn changes<A: Allocator>(
    monoid: &mut FreeMonoid<char, A>,
    call: MonoidCall,
    other: &FreeMonoid<char>,
) -> bool {
    match call {
        MonoidCall::AppendStr => monoid.append_str('a', LONG).is_ok(),
        MonoidCall::AppendChar => monoid.append_char('b', 'é').is_ok(),
        MonoidCall::PushStr => monoid.push_str('b', LONG).is_ok(),
        MonoidCall::Push => monoid.push('a', 'é').is_ok(),
        MonoidCall::Extend => monoid.extend(TEXTS.iter().copied()).is_ok(),
        MonoidCall::AddAssign => monoid.add_assign(other).is_ok(),
        _ => true,
    }
}

// Whether a monoid was made, which is shown.
fn is_made(
    rt: &impl Abort,
    made: Result<FreeMonoid<char, &Bump>, AllocError>,
    shown: &mut String,
) -> bool {
    match made {
        Ok(monoid) => {
            show(rt, &monoid, shown);
            drop(monoid);
            true
        }
        Err(AllocError) => false,
    }
}

// Whether a copy was made, which is shown. The monoid itself is shown where it was not.
fn is_copied(rt: &impl Abort, monoid: &FreeMonoid<char, &Bump>, shown: &mut String) -> bool {
    let is_made = is_made(rt, monoid.clone(), shown);
    if !is_made {
        show(rt, monoid, shown);
    }
    is_made
}

/// Whether a call, which has that many bytes, was done. What stands then is shown, except where a sum is refused.
pub fn is_done(
    rt: &impl Abort,
    out: Global,
    arena: &Bump,
    room: usize,
    call: MonoidCall,
    pieces: usize,
    shown: &mut String,
) -> bool {
    let other = start(rt, out, 2);
    let mut monoid = start(rt, arena, pieces);
    leave(rt, arena, room);
    let is_done = match call {
        MonoidCall::Add => is_made(rt, monoid.add(&other), shown),
        MonoidCall::Clone => is_copied(rt, &monoid, shown),
        _ => {
            let is_done = changes(&mut monoid, call, &other);
            show(rt, &monoid, shown);
            is_done
        }
    };
    drop(other);
    is_done
}
