//! What a shell reads to complete a command line.

ghost use Rattle.std.specs.Prelude.{IfOk, string_bytes};
ghost use Rattle.description.specs.View.{description_said};
ghost use Rattle.completions.specs.Scripts.{IsScript};
ghost use Rattle.completions.specs.declared.shells.Shell.TheVariants.{Fish};

use bumpalo::Bump;
use completions::{Shell, completion_script};
use description::Description;
use std::alloc::{AllocError, Global};

/// What fish reads to complete a command line.
pub fn for_fish<'p>(
    arena: &'p Bump,
    description: &'p Description<'p, Global>,
) -> Result<String<&'p Bump>, AllocError>
    ensures { IfOk result (λ script.
        IsScript Fish (description_said description.now) (string_bytes script)) }
{
    completion_script(arena, Shell::Fish, description)
}
