//! What a help page lists for a command line: its items in order, under their groups and headings.

mod entry;
mod env_texts;
mod error;
mod given;
mod groups;
mod key;
mod list;
mod lists;
mod page;
mod pieces;
mod repeats;
mod room;
mod walk;
mod writes;

pub use bpaf_meta::meta_help::{Info, Metavar};
pub use entry::{HelpItem, HiTy};
pub use env_texts::EnvTexts;
pub use error::HelpError;
pub use given::HelpItemsIter;
pub use key::ItemKey;
pub use list::HelpItems;
pub use page::{render_help, write_help, write_help_item_groups};
