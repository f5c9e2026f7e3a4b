//! Why there is no help page.

use bpaf_meta::item::Item;
use std::alloc::{AllocError, Allocator, Global};
use std::error::Error;
use std::fmt;

/// No help page: an allocation failed, or this named item stands after a positional one.
#[derive_where(Clone, Copy, Debug)]
pub enum HelpError<'m, A: Allocator = Global> {
    Memory(AllocError),
    Misplaced(&'m Item<A>),
}

/// `no memory` or `misplaced item`, without the item.
impl<'m, A: Allocator> fmt::Display for HelpError<'m, A> {
    fn fmt<W: fmt::Write>(&self, f: &mut fmt::Formatter<W>) -> fmt::Result {
        match self {
            HelpError::Memory(_) => f.write_str("no memory"),
            HelpError::Misplaced(_) => f.write_str("misplaced item"),
        }
    }
}

impl<'m, A: Allocator> Error for HelpError<'m, A> {}

impl<'m, A: Allocator> From<AllocError> for HelpError<'m, A> {
    ghost use Rattle.std.specs.Prelude.{◌≡◌};
    ghost use Rattle.bpaf_items.specs.declared.meta_help.error.HelpError.TheVariants.{Memory};

    ghost from_gives = { λ refused error. error ≡ Memory refused };

    /// An allocation failed.
    fn from(refused: AllocError) -> HelpError<'m, A> {
        HelpError::Memory(refused)
    }
}
