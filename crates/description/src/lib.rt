//! Descriptions of command lines, as plain records.
#![tactic(auto)]

pub mod descriptions;
pub mod hints;
pub mod levels;
pub mod options;
pub mod positionals;
pub mod topics;
pub mod values;
pub mod words;

pub use descriptions::Description;
pub use hints::ValueHint;
pub use levels::{Command, Group, Level};
pub use options::{Choice, Name, Opt, Spelling};
pub use positionals::Positional;
pub use topics::Topic;
pub use values::split_value;
pub use words::FixedWords;
