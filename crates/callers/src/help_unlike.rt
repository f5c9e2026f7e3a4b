//! The names that only a help text or only a description has.

ghost use Rattle.std.specs.Prelude.{◌↔◌, IfOk, map};
ghost use Rattle.std.specs.List.{Contains};
ghost use Rattle.help_differences.specs.Differences.{Alone, IsDifference};
ghost use Rattle.help_differences.specs.View.{difference_said, name_said};

use help_differences::{Difference, Name, differences};
use std::alloc::{AllocError, Global};

/// The names that a description or a help text alone has.
pub fn help_unlike<'a>(
    alloc: Global,
    described: &[Name<'a>],
    help: &[Name<'a>],
) -> Result<Vec<Difference<'a>>, AllocError>
    ensures { IfOk result (λ found. (a : Alone) → Contains (map difference_said found.items) a
        ↔ IsDifference (map name_said described.now) (map name_said help.now) a) }
{
    differences(alloc, described, help)
}
