//! Tests of `description_hints`: rows with ample memory, and each growth refused in turn. A row is a description in
//! TOML and its hints.
#![tactic(auto)]

#[cfg(test)]
mod reading;
#[cfg(test)]
mod refusals;
#[cfg(test)]
mod rows;
#[cfg(test)]
mod tables;
