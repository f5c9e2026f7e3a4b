//! Names of options and commands that a help text has, those that a description has, and which of them one has alone.
#![tactic(auto)]

mod compared;
mod help;
mod level;
mod names;
mod notes;
mod texts;

pub use compared::{Difference, Side, differences};
pub use help::names_of_help;
pub use level::names_of_level;
pub use names::{Kind, Name, Names};
pub use texts::{HelpText, difference_text, has_no_name};
