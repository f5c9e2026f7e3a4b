//! The program `clidoc`, which makes the pages of a command line from its description.
#![tactic(auto)]

use clidoc_engine::program::run;
use std::process::ExitCode;

fn main(rt: HostRuntime) -> ExitCode {
    run(&rt, rt.alloc())
}
