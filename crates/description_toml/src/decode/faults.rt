//! Why a table does not give a description, and where.
ghost use Rattle.description_toml.specs.Faults.{IsMemory};

use keyed::Step;
use std::alloc::{AllocError, Allocator, Global};
use std::fmt;
use std::fmt::Display;
use thiserror::Error;

/// Why a table gives no description.
#[derive(Drop, Error)]
#[derive_where(Debug)]
pub enum DescriptionError<'a, A: Allocator = Global> {
    /// An allocation failed, which says nothing of the table.
    #[error("no memory")]
    Memory(AllocError),
    /// The table does not give a description: what is wrong in it.
    #[error("{0}")]
    Content(Faults<'a, A>),
}

impl<A: Allocator> From<AllocError> for DescriptionError<'_, A> {
    ghost from_gives = { λ _ fault. IsMemory fault };

    fn from(error: AllocError) -> Self {
        DescriptionError::Memory(error)
    }
}

/// A fault of a table: where it is, and what is wrong.
#[derive(Drop)]
#[derive_where(Debug)]
pub struct Fault<'a, A: Allocator = Global> {
    /// The path from the top to the key that the fault is about, or, where a key is missing, to the table that lacks
    /// it. It is empty where that is the top.
    pub path: Vec<Step<'a>, A>,
    /// Where a name stands twice, the path to the key where it stood first. Empty elsewhere.
    pub earlier: Vec<Step<'a>, A>,
    /// The path to the table in words, and what is wrong, on one line.
    pub words: String<A>,
}

/// The faults of a table, in the order in which it is read.
#[derive(Drop)]
#[derive_where(Debug)]
pub struct Faults<'a, A: Allocator = Global> {
    /// The first faults, at most 20.
    pub told: Vec<Fault<'a, A>, A>,
    /// How many more there are.
    pub more: usize,
}

/// A fault a line, and how many more there are.
impl<A: Allocator> Display for Faults<'_, A> {
    fn fmt<W: fmt::Write>(&self, f: &mut fmt::Formatter<W>) -> fmt::Result {
        let mut is_first = true;
        for fault in &self.told {
            if !is_first {
                f.write_str("\n")?;
            }
            f.write_str(fault.words.as_str())?;
            is_first = false;
        }
        if self.more > 0 {
            write!(f, "\nand {} more", self.more)?;
        }
        Ok(())
    }
}
