//! Tests of documents and their pages.

mod calls;
mod pages;
mod refusals;
mod rooms;
