//! A whole run of the program, over any runtime.

use crate::engine::{run_sample, run_text};
use crate::faults::Fault;
use crate::words::{Choice, choose};
use std::io;
use std::process::ExitCode;
use std::rt::Env;
use watched::Watched;
pub use watched::program::WRONG_WORDS;
use watched::program::{expecting, status_of, with_words};

/// The line for words that choose nothing.
const EXPECTED: &str = "helpdoc: expected text or sample, then full, brief, html, markdown or man";

/// Does what the words after the program's name choose, and returns the status: success, `WRONG_WORDS` where they
/// choose nothing, and failure where the run failed. On standard error it says why it did not succeed. No clause can
/// say what a runtime reads and prints.
pub fn run<R: Alloc + Env + Input + Print + Eprint>(rt: &R) -> ExitCode
where
    R::A: Copy,
{
    status_of(rt, try_run(rt))
}

fn try_run<R: Alloc + Env + Input + Print + Eprint>(rt: &R) -> Result<ExitCode, Fault>
where
    R::A: Copy,
{
    let Some(choice) = with_words(rt, choose).map_err(|_| Fault::Memory)? else {
        return Ok(expecting(rt, EXPECTED));
    };
    let mut writer = Watched::new(io::writer(rt));
    match choice {
        Choice::Text(form) => {
            let mut reader = Watched::new(rt.reader());
            run_text(rt.alloc(), form, &mut reader, &mut writer)?;
        }
        Choice::Sample(form) => run_sample(rt.alloc(), form, &mut writer)?,
    }
    Ok(ExitCode::SUCCESS)
}
