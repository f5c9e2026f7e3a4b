//! A name that lasts, of a text that does not.

ghost use Rattle.std.specs.Prelude.{◌≡◌, IfOk};
ghost use Rattle.description.specs.Content.{long};
ghost use Rattle.description.specs.Calls.{plain_option};
ghost use Rattle.description.specs.View.{opt_said};

use description::Opt;
use lasting_names::Names;
use std::alloc::AllocError;

/// An option whose name was read when the program ran.
pub fn option_named<'a>(names: &mut Names, read: &str) -> Result<Opt<'a>, AllocError>
    ensures { IfOk result (λ option. opt_said option ≡ plain_option (long read.now)) }
{
    Ok(Opt::long(names.get(read)?))
}
