//! The option that a line of a help text begins with.

ghost use Rattle.std.specs.Prelude.{◌≡◌, IfOk};
ghost use Rattle.std.specs.Option.{option_map};
ghost use Rattle.help_fronts.specs.Fronts.{option_front};
ghost use Rattle.help_fronts.specs.View.{said};

use help_fronts::{OptionFront, option_front};
use std::alloc::{AllocError, Global};

/// What an option's line says before its help.
pub fn option_of(alloc: Global, line: &str) -> Result<Option<OptionFront<'_>>, AllocError>
    ensures { IfOk result (λ front. option_map said front ≡ option_front line.now) }
{
    option_front(alloc, line)
}
