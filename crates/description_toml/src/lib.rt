//! Descriptions of command lines that are read from TOML.
#![tactic(auto)]

pub mod decode;
mod syntax;
pub mod words;

pub use decode::{DescriptionError, Fault, Faults, description_from_table};
