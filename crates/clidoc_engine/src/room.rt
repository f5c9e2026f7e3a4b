//! The memory of what pages say.

use bumpalo::Bump;
use std::alloc::Global;

/// Memory for what pages say, and a bound on it.
#[derive(Clone, Copy)]
pub struct Room {
    pub(crate) global: Global,
    most: usize,
}

impl Room {
    /// What one page says takes at most this many bytes.
    pub fn new(global: Global, most: usize) -> Room {
        Room { global, most }
    }

    // An arena for what one page says. It refuses what is over the bound.
    pub(crate) fn arena(self) -> Bump {
        let arena = Bump::new(self.global);
        arena.set_allocation_limit(Some(self.most));
        arena
    }
}
