//! What a description that is correct would better say.
//!
//! A hint is here a warning of `check`. The key `hint` of an option, what a shell
//! offers for its value, is `ValueHint` of `description`.
#![tactic(auto)]

mod around;
mod defaults;
mod files;
mod helps;
pub mod hints;
mod known;
mod level_words;
mod marks;
mod pages;
mod pieces;
mod rules;
mod shared;
mod sites;
mod texts;
pub mod warnings;

pub use hints::{Hint, Warning};
pub use warnings::warnings_of;
