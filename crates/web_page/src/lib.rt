//! A complete HTML page, written element by element, that reads back as what was said.
#![tactic(auto)]

pub use elements::{Child, Element, Level, Tag};
pub use errors::PageError;
pub use writer::Page;

pub mod elements;
pub mod errors;
pub mod laws;
pub mod models;
mod output;
pub mod writer;
