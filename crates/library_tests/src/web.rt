//! Tests of pages of HTML: what they are written as, and each fault.

mod pages;
mod refusals;
mod steps;
