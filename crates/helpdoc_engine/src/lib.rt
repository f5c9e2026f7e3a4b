//! What the program `helpdoc` does: the words that choose a page, and its making over any reader and any writer.
#![tactic(auto)]

pub mod engine;
pub mod faults;
pub mod program;
mod sample;
pub mod words;
