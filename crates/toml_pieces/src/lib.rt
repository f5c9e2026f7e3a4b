//! Keys, tables and comments of TOML, written to be read by people.
#![tactic(auto)]

mod toml;

pub use toml::{
    Lead, Piece, push_escaped, push_left_out, push_list, push_optional, push_table, push_text,
    push_word,
};
