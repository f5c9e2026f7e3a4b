//! The pages of a description's application and of its commands, in each medium.
#![tactic(auto)]

pub use console::console_page_of;
pub use description_pages::{Depth, LevelSubject};
pub use given::{ConsoleForm, TitleGiven};
pub use html::html_page_of;
pub use html_page::{Extent, PageError};
pub use levels::application;
pub use manuals::manual_page_of;
pub use markdown::markdown_page_of;
pub use page_model::PageFault;

pub mod console;
pub mod given;
pub mod html;
pub mod levels;
pub mod manuals;
pub mod markdown;
