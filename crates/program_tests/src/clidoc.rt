//! Tests of `clidoc_engine`, and what is reported of bad input and of input that should say something differently.

mod echoes;
pub mod ends;
mod faults;
mod folders;
mod helps;
mod inputs;
pub mod json;
pub mod pages;
mod warnings;
mod words;
