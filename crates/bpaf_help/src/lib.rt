//! Command lines as trees: their usage lines, their help pages, and all pages of an application.
#![tactic(auto)]

pub mod headline;
pub mod pages;

pub use bpaf_items::{item, laws, meta, meta_help, usage};
