//! Runs of `helpdoc_engine`.

pub mod ends;
pub mod pages;
