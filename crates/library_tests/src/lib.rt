//! Tests of the crates of the library: of `bpaf_roff` and `bpaf_doc`; of `bpaf_meta`, `bpaf_items` and `bpaf_help`; and
//! of `web_page`. There are rows with ample memory, and each growth is refused in turn. The rows of the rules of
//! documents and of roff stand in the stored run of `replay`.
//!
//! They stand apart from what they test, since a crate with tests is proved twice, and in one crate, since each
//! program, as tests are, is linked before it is proved. A table is a reference to its rows, and a row is judged in a
//! function of its own. A proof has a table of the values that stand at each step: so a function takes few steps, what
//! it prepares it expects, and it lets go of documents, trees and texts by calls.
#![tactic(auto)]

#[cfg(test)]
mod arenas;
#[cfg(test)]
mod doc;
#[cfg(test)]
mod help;
#[cfg(test)]
mod roff;
#[cfg(test)]
mod web;
