//! Help documents: styled text in nested blocks, and the pages that show it.
#![tactic(auto)]

pub mod buffer;
pub mod console;
pub mod html;
pub mod laws;
pub mod manpage;
pub mod splitter;
