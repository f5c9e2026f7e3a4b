//! Tests of descriptions of command lines: rows with ample memory, and each growth refused in turn.
//!
//! They stand apart from `description` and `description_toml`, since a crate with tests is proved twice. A row is a
//! text in TOML, what of the description that it gives is shown, and how: so one reader serves all, and few functions
//! hold a description. A proof has a table of the values that stand at each step: so a function takes few steps, what
//! it prepares it expects, and it lets go of descriptions and texts by calls.
#![tactic(auto)]

#[cfg(test)]
mod faults;
#[cfg(test)]
mod forms;
#[cfg(test)]
mod in_json;
#[cfg(test)]
mod keys;
#[cfg(test)]
mod paths;
#[cfg(test)]
mod places;
#[cfg(test)]
mod reading;
#[cfg(test)]
mod refusals;
#[cfg(test)]
mod syntaxes;
#[cfg(test)]
mod tables;
