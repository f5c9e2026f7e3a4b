//! Names that files may have.

ghost use Rattle.std.specs.Prelude.{◌≡◌, IfOk};
ghost use Rattle.file_names.specs.Names.{are_file_names, names_said};

use file_names::check_names;
use std::alloc::{AllocError, Global};

/// Whether files may have these names.
pub fn may_be_written(alloc: Global, names: &[&str]) -> Result<bool, AllocError>
    ensures { IfOk result (λ may. may ≡ are_file_names (names_said names.now)) }
{
    Ok(check_names(alloc, alloc, names)?.is_ok())
}
