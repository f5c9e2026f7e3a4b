//! Descriptions as JSON that is read again as the same description.
#![tactic(auto)]

mod fields;
mod levels;
mod listed;
mod lists;
mod options;
mod whole;
mod words;

pub use whole::json_text;
