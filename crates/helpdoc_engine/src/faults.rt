//! Why a run of the program fails.

ghost use Rattle.std.specs.Prelude.{◌≡◌};
ghost use Rattle.helpdoc_engine.specs.declared.faults.Fault.TheVariants.{Memory};

use bpaf_help::meta_help::HelpError;
use std::alloc::{AllocError, Allocator};
use thiserror::Error;
use watched::ReadError;

/// Why a run fails. It is shown as the line that the program writes on standard error.
#[derive(Clone, Copy, Debug, PartialEq, Eq, Error)]
pub enum Fault {
    /// What was read is not a text.
    #[error("helpdoc: input is not UTF-8")]
    NotUtf8,
    /// A read failed.
    #[error("helpdoc: read failed")]
    Read,
    /// A write failed, or took nothing.
    #[error("helpdoc: write failed")]
    Write,
    /// An allocation failed, or the arguments could not be read.
    #[error("helpdoc: no memory")]
    Memory,
    /// A named item stands after a positional one.
    #[error("helpdoc: misplaced item")]
    Misplaced,
}

impl From<AllocError> for Fault {
    ghost from_gives = { λ _ fault. fault ≡ Memory };

    fn from(_error: AllocError) -> Fault {
        Fault::Memory
    }
}

impl From<ReadError> for Fault {
    ghost use Rattle.helpdoc_engine.specs.Faults.{fault_of_read};

    ghost from_gives = { λ error fault. fault ≡ fault_of_read error };

    fn from(error: ReadError) -> Fault {
        match error {
            ReadError::Failed(_) => Fault::Read,
            ReadError::NotUtf8 => Fault::NotUtf8,
            ReadError::Refused(_) => Fault::Memory,
        }
    }
}

impl<A: Allocator> From<HelpError<'_, A>> for Fault {
    ghost use Rattle.helpdoc_engine.specs.Faults.{fault_of};

    ghost from_gives = { λ error fault. fault ≡ fault_of error };

    fn from(error: HelpError<'_, A>) -> Fault {
        match error {
            HelpError::Memory(_) => Fault::Memory,
            HelpError::Misplaced(_) => Fault::Misplaced,
        }
    }
}
