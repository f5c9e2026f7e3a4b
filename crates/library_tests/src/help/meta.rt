//! Tests of items, trees and usage lines: what neither a clause nor a request to `replay` can show.

pub mod calls;
mod texts;
