//! `helpdoc text FORM` reads standard input as one text and writes its page, `helpdoc sample FORM` writes
//! the page of a sample application; FORM is `full`, `brief`, `html`, `markdown` or `man`.
#![tactic(auto)]

use helpdoc_engine::program::run;
use std::process::ExitCode;

fn main(rt: HostRuntime) -> ExitCode {
    run(&rt)
}
