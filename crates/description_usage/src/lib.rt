//! The usage of a level of a command line, and the entries of its options, values and commands.
#![tactic(auto)]

mod entries;
mod forms;
mod lines;
mod lone;
mod names;
mod syntax;
mod usage;

pub use entries::{ArenaBlocks, ArenaEntry, command_entry, option_entry, positional_entry};
pub use forms::{text_forms, usage_forms};
pub use lines::joined;
pub use usage::option_item;
