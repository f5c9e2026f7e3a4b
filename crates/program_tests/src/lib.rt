//! Tests of the programs, and of what no clause says of `watched`.
//!
//! Of each program there are a page of each form, ends that fail at each step or answer by a script, refused growths,
//! and what a whole run says.
//!
//! They stand apart from what they test, since a crate with tests is proved twice. A table is a reference to its rows:
//! an array by value is copied each time it is gone over, and the proof has steps for each row. Rows that are texts
//! alone are one text, which a test cuts as it goes: the proof has no steps for them. A row is judged in a function of
//! its own, which takes the memory that it needs, so that a test holds nothing but the row while it asserts.
#![tactic(auto)]

#[cfg(test)]
mod clidoc;
#[cfg(test)]
mod engines;
#[cfg(test)]
mod frames;
#[cfg(test)]
mod helpdoc;
#[cfg(test)]
mod long_pages;
#[cfg(test)]
mod pages;
#[cfg(test)]
mod programs;
#[cfg(test)]
mod runs;
#[cfg(test)]
mod stand_ins;
#[cfg(test)]
mod streams;
#[cfg(test)]
mod told;
