//! Runs over ends that fail or answer by a script.
use crate::stand_ins::runs::{Ending, Ends};
use helpdoc_engine::engine::{run_sample, run_text};
use helpdoc_engine::faults::Fault;
use helpdoc_engine::words::Form;
use std::alloc::Allocator;
use watched::Watched;

fn ending_of(outcome: Result<(), Fault>) -> Ending {
    match outcome {
        Ok(()) => Ending::Done,
        Err(Fault::Read) => Ending::ReadFailed,
        Err(Fault::Write) => Ending::WriteFailed,
        Err(Fault::Memory) => Ending::NoMemory,
        Err(Fault::NotUtf8 | Fault::Misplaced) => Ending::BadInput,
    }
}

/// How a run on a text ends. None where its ends contradict it.
pub fn text_ran<A: Allocator + Copy>(alloc: A, form: Form, ends: &Ends<'_>) -> Option<Ending> {
    let mut reader = Watched::new(ends.reader());
    let mut writer = Watched::new(ends.writer());
    let ending = ending_of(run_text(alloc, form, &mut reader, &mut writer));
    if ends.have_read(ending, reader) && ends.have_written(ending, writer) {
        Some(ending)
    } else {
        None
    }
}

/// How a run on the sample ends. None where its writer contradicts it.
pub fn sample_ran<A: Allocator + Copy>(alloc: A, form: Form, ends: &Ends<'_>) -> Option<Ending> {
    let mut writer = Watched::new(ends.writer());
    let ending = ending_of(run_sample(alloc, form, &mut writer));
    if ends.have_written(ending, writer) {
        Some(ending)
    } else {
        None
    }
}
