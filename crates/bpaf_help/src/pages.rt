//! The pages of an application: itself and its commands as sections, collected in one document or in a manual page.

mod collected;
mod collected_writes;
pub mod laws;
mod manual;
mod manual_writes;
mod paths;
mod section;
mod sections;
mod titles;

pub use collected::{collect_html, render_html, render_markdown};
pub use manual::{ManualTitle, render_manpage};
pub use section::Section;
pub use sections::{DocSection, extract_sections};
