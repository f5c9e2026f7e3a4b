//! What the front of one line of a help text says: the names of an option or a command, the value, and where the help
//! begins.
#![tactic(auto)]

mod bytes;
mod command;
mod front;
pub mod laws;
mod line;
mod names;
mod option;
mod pieces;
mod usage;
mod words;

pub use command::{CommandFront, command_front};
pub use line::option_names;
pub use option::{OptionFront, option_front};
pub use usage::{UsageOption, usage_options};
pub use words::{is_command, is_optional, value_word};
