//! Tests of what a draft is made with: rows with ample memory, and each growth refused in turn.
#![tactic(auto)]

#[cfg(test)]
mod blocks;
#[cfg(test)]
mod fronts;
#[cfg(test)]
mod letters;
#[cfg(test)]
mod names;
#[cfg(test)]
mod written;
