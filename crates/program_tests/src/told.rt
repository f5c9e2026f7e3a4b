//! What errors say.
use crate::stand_ins::lines::says;
use helpdoc_engine::faults::Fault;
use std::alloc::AllocError;
use std::io::ErrorKind;
use watched::ReadError;

fn failed_readings_are_told() -> bool {
    says(
        &ReadError::Failed(ErrorKind::TimedOut.into()),
        "read failed: timed out",
    ) && says(&ReadError::NotUtf8, "input is not UTF-8")
        && says(&ReadError::Refused(AllocError), "no memory")
}

fn faults_are_told() -> bool {
    says(&Fault::NotUtf8, "helpdoc: input is not UTF-8")
        && says(&Fault::Read, "helpdoc: read failed")
        && says(&Fault::Write, "helpdoc: write failed")
        && says(&Fault::Memory, "helpdoc: no memory")
        && says(&Fault::Misplaced, "helpdoc: misplaced item")
}

#[test]
fn errors_are_told(rt: HostRuntime) {
    assert!(rt; failed_readings_are_told());
    assert!(rt; faults_are_told());
}
