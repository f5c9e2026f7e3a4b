//! Pages on a console: a page that is said is written as text of a given width.
#![tactic(auto)]

pub use page::{console_page, console_usage};
pub use page_model::PageFault;

mod blocks;
mod cuts;
mod entries;
mod lines;
pub mod page;
mod texts;
mod usage;
