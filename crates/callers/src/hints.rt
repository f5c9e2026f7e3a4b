//! How much of a description should be said differently.

ghost use Rattle.std.specs.Prelude.{◌≡◌, length, IfOk};
ghost use Rattle.description.specs.View.{description_said};
ghost use Rattle.description_hints.specs.Hints.{warnings};

use bumpalo::Bump;
use description::Description;
use description_hints::warnings_of;
use std::alloc::{AllocError, Global};

/// How many hints there are about a description.
pub fn count_hints<'p>(
    alloc: Global,
    description: &'p Description<'p, Global>,
) -> Result<usize, AllocError>
    ensures { IfOk result (λ count. count ≡ length (warnings (description_said description.now))) }
{
    let arena = Bump::new(alloc);
    let found = warnings_of(&arena, alloc, description)?;
    Ok(found.len())
}
