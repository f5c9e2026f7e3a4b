//! What the pages of a command line say, made of its records.
#![tactic(auto)]

mod arranged;
pub mod chapters;
pub mod consoles;
mod keys;
pub mod laws;
pub mod levels;
pub mod manuals;
pub mod markdowns;
mod neighbours;
mod once;
mod references;
mod sections;
pub mod subjects;
mod summaries;
mod topics;

pub use arranged::ArenaParts;
pub use levels::{Depth, LevelPage, LevelSubject};
pub use sections::{Body, Detail, Section};
