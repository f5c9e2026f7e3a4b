//! HTML pages: a chapter, with those below it, is written as a page in HTML.
#![tactic(auto)]

pub use frame::{Extent, Frame};
pub use page::html_page;
pub use web_page::PageError;

mod contents;
mod counts;
mod elements;
mod entries;
pub mod frame;
mod ids;
pub mod laws;
mod lines;
pub mod page;
mod parts;
mod sections;
mod usage;
