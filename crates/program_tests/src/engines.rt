//! Runs of the engines over ends that answer by a script, and what is seen of each of them.
//!
//! Each call returns whether what it says is so. Where a test itself has too little memory, it returns false.

ghost use Rattle.std.specs.Prelude.{◌<◌};

use crate::clidoc::ends::description_ran;
use crate::clidoc::pages::Form;
use crate::helpdoc::ends::{sample_ran, text_ran};
use crate::stand_ins::arenas::{BYTES, arena_of};
use crate::stand_ins::runs::{Ending, Ends};
use crate::stand_ins::scripts::{Draws, Script};
use helpdoc_engine::words::Choice;
use linked_list_allocator::LocalHeap;
use std::alloc::{Allocator, Global};

/// How many bytes are ample for a small page.
pub const AMPLE: usize = 1 << 20;

/// How many bytes are ample for a large page.
pub const AMPLE_FOR_LARGE: usize = 16 << 20;

/// What an engine is asked for.
#[derive(Clone, Copy)]
pub enum Asked {
    Helpdoc(Choice),
    Clidoc(Form),
}

// How a run over this memory ends. None where its ends contradict it.
fn ran_over<A: Allocator + Copy>(
    alloc: A,
    global: Global,
    asked: Asked,
    ends: &Ends<'_>,
) -> Option<Ending> {
    match asked {
        Asked::Helpdoc(Choice::Text(form)) => text_ran(alloc, form, ends),
        Asked::Helpdoc(Choice::Sample(form)) => sample_ran(alloc, form, ends),
        Asked::Clidoc(form) => description_ran(alloc, global, form, ends),
    }
}

/// How a run on that much memory ends. None where its ends contradict it.
pub fn ran(global: Global, budget: usize, asked: Asked, ends: &Ends<'_>) -> Option<Ending> {
    match LocalHeap::new(global, budget) {
        Ok(heap) => ran_over(&heap, global, asked, ends),
        Err(_) => None,
    }
}

// The same, in an arena.
fn ran_in(global: Global, room: usize, asked: Asked, ends: &Ends<'_>) -> Option<Ending> {
    match arena_of(global, room) {
        Ok(arena) => ran_over(&arena, global, asked, ends),
        Err(_) => None,
    }
}

/// Whether the page comes through where either end moves a byte at a time, and fails where none is written.
pub fn moves_bytes(global: Global, asked: Asked, input: &[u8], page: &[u8]) -> bool {
    let whole = Ends::new(input, page);
    let bytes_read = whole.reading(Script::BYTES);
    let bytes_written = whole.writing(Script::BYTES);
    let none_written = whole.writing(Script::NONE);
    ran(global, AMPLE, asked, &bytes_read) == Some(Ending::Done)
        && ran(global, AMPLE, asked, &bytes_written) == Some(Ending::Done)
        && ran(global, AMPLE, asked, &none_written) == Some(Ending::WriteFailed)
}

/// Whether each failed read is reported: one a byte, and one that finds the end.
pub fn says_failed_reads(global: Global, asked: Asked, input: &[u8], page: &[u8]) -> bool {
    for call in 0..=input.len() {
        let ends = Ends::new(input, page).reading(Script::failing(call));
        if ran(global, AMPLE, asked, &ends) != Some(Ending::ReadFailed) {
            return false;
        }
    }
    true
}

/// Whether each failed write is reported, one a byte.
pub fn says_failed_writes(global: Global, asked: Asked, input: &[u8], page: &[u8]) -> bool {
    for call in 0..page.len() {
        let ends = Ends::new(input, page).writing(Script::failing(call));
        if ran(global, AMPLE, asked, &ends) != Some(Ending::WriteFailed) {
            return false;
        }
    }
    true
}

// How many bytes more an arena has each time. No growth is smaller than one; in the longer runs a smaller growth may be
// passed over.
fn step_of(asked: Asked) -> usize
    ensures { 0 < result }
{
    match asked {
        Asked::Helpdoc(_) => 1,
        Asked::Clidoc(_) => 64,
    }
}

/// Whether each room refuses the first growth that does not fit it, and nothing is written then. The first room is
/// empty, and the rooms rise until one suffices.
pub fn refuses_until_ample(global: Global, asked: Asked, input: &[u8], page: &[u8]) -> bool {
    let ends = Ends::new(input, page).reading(Script::BYTES);
    for room in (0..BYTES).step_by(step_of(asked)) {
        let ran = ran_in(global, room, asked, &ends);
        if ran != Some(Ending::NoMemory) {
            return ran == Some(Ending::Done) && room > 0;
        }
    }
    false
}

// Whether the end of a run says something about its ends alone.
fn is_of_ends(ran: Option<Ending>) -> bool {
    matches!(
        ran,
        Some(Ending::Done | Ending::ReadFailed | Ending::WriteFailed)
    )
}

/// Whether the page comes through drawn ends.
pub fn comes_through(
    global: Global,
    budget: usize,
    draws: &mut Draws,
    asked: Asked,
    (input, page): (&[u8], &[u8]),
) -> bool {
    let (moves, broken, writes) = (draws.moves(), draws.broken(), draws.answers());
    let ends = Ends::new(input, page).writing(Script::of(&writes));
    let moved = ran(global, budget, asked, &ends.reading(Script::of(&moves)));
    let broken = ran(global, budget, asked, &ends.reading(Script::of(&broken)));
    is_of_ends(moved) && is_of_ends(broken)
}

/// Whether a large page comes through ends that move all at once.
pub fn is_shown(global: Global, asked: Asked, input: &[u8], page: &[u8]) -> bool {
    ran(global, AMPLE_FOR_LARGE, asked, &Ends::new(input, page)) == Some(Ending::Done)
}
