//! What the tests run the programs on: a reader and a writer that answer by a script and judge the calls that come, a
//! writer of text that knows what is to come, a folder that knows which calls are to come, a runtime with known words
//! and a known input, and memory with little room.

pub mod arenas;
pub mod desk;
pub mod folder;
pub mod lines;
pub mod runs;
pub mod scripts;
