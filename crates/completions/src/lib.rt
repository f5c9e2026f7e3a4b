//! Completions of a description's command line for bash, zsh and fish.
#![tactic(auto)]

mod entries;
mod helps;
pub mod laws;
mod levels;
mod options;
mod programs;
mod scripts;
mod shells;
mod syntax;
mod values;

pub use scripts::completion_script;
pub use shells::Shell;
