//! The texts of a description, as blocks of a page.
#![tactic(auto)]

mod texts;

pub use texts::{blocks, first_paragraph, gathered, is_empty, push_some};
