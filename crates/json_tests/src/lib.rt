//! Tests of `json_of_descriptions`: rows with ample memory, and each growth refused in turn.
#![tactic(auto)]

#[cfg(test)]
mod rows;
