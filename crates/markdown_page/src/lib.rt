//! Pages in markdown: a page that is said is written as CommonMark, and reads back as what was said.
#![tactic(auto)]

pub use page::markdown_page;
pub use page_model::PageFault;

mod block;
mod entry;
mod escape;
pub mod laws;
mod line;
mod link;
pub mod page;
mod replace;
mod slug;
mod span;
