//! Rows of the rules as equations that compute, and answers that a law refuses.
//!
//! They stand apart from the libraries, so that no check of a library pays for them, and since `is_uppercase` computes
//! only where the tables of Unicode are listed.
#![tactic(auto)]

/// Nothing to call: the equations stand in `proofs/`.
pub fn equations() {}
