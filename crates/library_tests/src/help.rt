//! Tests of trees and usage lines, item lists, texts of environment variables, help pages and pages of applications.

mod calls;
mod copies;
mod many;
mod meta;
mod pages_calls;
mod refusals;
mod rooms;
mod rows;
mod shown;
mod trees;
