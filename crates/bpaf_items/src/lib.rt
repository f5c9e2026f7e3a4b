//! Lists of the items of a command line, and its help page.
#![tactic(auto)]

pub mod laws;
pub mod meta_help;

pub use bpaf_meta::{item, meta, usage};
