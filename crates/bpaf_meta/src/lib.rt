//! The tree of a command line, and how a usage line shows it.
#![tactic(auto)]

pub mod item;
pub mod meta;
pub mod meta_help;
pub mod usage;
