//! Manual pages: a page that is said is written in the requests of man(7), and reads back as what was said.
#![tactic(auto)]

pub use page::{TitleLine, manual_page};
pub use page_model::PageFault;

mod escape;
pub mod laws;
mod lines;
pub mod page;
