//! Runs over ends that fail or answer by a script, and judgements of a description.
use crate::clidoc::json::IN_JSON;
use crate::clidoc::pages::{Form, INPUT, page_of};
use crate::engines::AMPLE;
use crate::stand_ins::runs::{Ending, Ends};
use crate::stand_ins::scripts::Script;
use clidoc_engine::engine::{check_description, run_description};
use clidoc_engine::faults::Fault;
use clidoc_engine::room::Room;
use linked_list_allocator::LocalHeap;
use std::alloc::{Allocator, Global};
use watched::Watched;

fn ending_of<T>(outcome: &Result<T, Fault>) -> Ending {
    match outcome {
        Ok(_) => Ending::Done,
        Err(Fault::Read) => Ending::ReadFailed,
        Err(Fault::Write) => Ending::WriteFailed,
        Err(Fault::Memory) => Ending::NoMemory,
        Err(_) => Ending::BadInput,
    }
}

/// How a run on a description ends. None where its ends contradict it.
pub fn description_ran<A: Allocator + Copy>(
    alloc: A,
    global: Global,
    form: Form,
    ends: &Ends<'_>,
) -> Option<Ending> {
    let mut reader = Watched::new(ends.reader());
    let mut writer = Watched::new(ends.writer());
    let asked = page_of(global, form);
    let outcome = run_description(
        alloc,
        Room::new(global, usize::MAX),
        &asked,
        "-",
        &mut reader,
        &mut writer,
    );
    let ending = ending_of(&outcome);
    if ends.have_read(ending, reader) && ends.have_written(ending, writer) {
        Some(ending)
    } else {
        None
    }
}

// How a judgement of the description ends, on that much memory. None where its reader contradicts it.
fn judged(global: Global, budget: usize, input: &[u8], reads: Script<'_>) -> Option<Ending> {
    let Ok(heap) = LocalHeap::new(global, budget) else {
        return None;
    };
    let ends = Ends::new(input, b"").reading(reads);
    let mut reader = Watched::new(ends.reader());
    let ending = ending_of(&check_description(&heap, global, "-", &mut reader));
    if ends.have_read(ending, reader) {
        Some(ending)
    } else {
        None
    }
}

// A description, how its reader answers, and how the judgement ends.
const JUDGEMENTS: &[(&[u8], Script<'static>, Ending)] = &[
    (INPUT, Script::BYTES, Ending::Done),
    (IN_JSON, Script::BYTES, Ending::Done),
    (b"", Script::WHOLE, Ending::BadInput),
    (b"{", Script::WHOLE, Ending::BadInput),
    (b"\xff", Script::WHOLE, Ending::BadInput),
    (INPUT, Script::FOURTH_FAILS, Ending::ReadFailed),
];

// Whether each budget refuses the first growth that does not fit it; the budgets rise until one suffices, and the first
// is too small.
fn judges_when_ample(global: Global, input: &[u8]) -> bool {
    for budget in 1..4096usize {
        let judged = judged(global, budget * 16, input, Script::BYTES);
        if judged != Some(Ending::NoMemory) {
            return judged == Some(Ending::Done) && budget > 1;
        }
    }
    false
}

#[test]
fn a_description_is_judged_when_memory_lasts(rt: HostRuntime) {
    for &(input, reads, ending) in JUDGEMENTS {
        let judged = judged(rt.alloc(), AMPLE, input, reads);
        assert!(rt; judged == Some(ending), "{input:?}");
    }
    assert!(rt; judges_when_ample(rt.alloc(), INPUT));
    assert!(rt; judges_when_ample(rt.alloc(), IN_JSON));
}
