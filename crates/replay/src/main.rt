//! `replay` reads requests from standard input, one a line, and prints each line with the answers that the library
//! gives.
#![tactic(auto)]

mod application_answers;
mod calls;
mod document_answers;
mod documents;
mod encoding;
mod fault;
mod laws;
mod lines;
mod page_answers;
mod pieces;
mod printed;
mod request;
mod requests;
mod run;
mod tree_answers;
mod trees;
mod words;

use requests::Library;
use run::{Stop, run};
use std::io;
use std::process::ExitCode;

fn main(rt: HostRuntime) -> ExitCode {
    replay(&rt)
}

// Returns the status, and says on standard error why the run stopped, where it did.
fn replay<R: AllocGlobal + Input + Print + Eprint>(rt: &R) -> ExitCode {
    let alloc = rt.alloc();
    let mut library = Library::new(alloc);
    let why = match run(alloc, &mut library, &mut rt.reader(), &mut io::writer(rt)) {
        Ok(()) => return ExitCode::SUCCESS,
        Err(Stop::Read) => "a read failed",
        Err(Stop::Write) => "a write failed",
        Err(Stop::Endless) => "the input does not end",
    };
    let _ = eprintln!(rt; "replay: {why}");
    ExitCode::FAILURE
}
