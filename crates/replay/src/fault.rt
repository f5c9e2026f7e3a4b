//! Why a line has no answer.

use std::alloc::AllocError;

/// Why a line has no answer.
#[derive(Clone, Copy)]
pub enum Bad {
    /// A growth was refused.
    Memory,
    /// The line is not a request; the text says why.
    Words(&'static str),
}

impl Bad {
    /// A word is missing.
    pub const ENDS_EARLY: Bad = Bad::Words("the line ends early");

    /// A word is not a width.
    pub const NO_WIDTH: Bad = Bad::Words("a width was expected");
}

impl From<AllocError> for Bad {
    fn from(_error: AllocError) -> Bad {
        Bad::Memory
    }
}
