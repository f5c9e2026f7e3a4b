//! What a page of a command line says, as a value that each medium shows in its own way.
#![tactic(auto)]

pub mod fault;
pub mod parts;
pub mod permitted;
pub mod replaced;

pub use fault::PageFault;
pub use parts::{Block, Chapter, Entry, Form, Inline, Line, Part, Rank, Target};
