//! What the program `clidoc` does, over any reader and any writer.
#![tactic(auto)]

pub mod all;
mod beside;
pub mod bounded;
pub mod causes;
pub mod described;
pub mod drafted;
pub mod echoed;
pub mod engine;
pub mod faults;
pub mod files;
mod headers;
pub mod meant;
mod newlines;
pub mod notation;
mod open;
mod own;
mod pages;
pub mod places;
pub mod program;
pub mod reading;
pub mod room;
mod tables;
mod utf8;
pub mod words;
mod wrong;
