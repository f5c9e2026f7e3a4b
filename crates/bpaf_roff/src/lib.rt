//! Labelled pieces of text, their escaping, and roff.
#![tactic(auto)]

pub mod escape;
pub mod laws;
pub mod monoid;
pub mod roff;
pub mod writer;
