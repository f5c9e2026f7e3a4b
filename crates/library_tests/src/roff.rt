//! Tests of pieces of text, their escaping, and pages of roff.

mod calls;
mod labels;
mod monoids;
mod refusals;
mod roffs;
mod rooms;
mod vectors;
