//! The name of a program in TOML.

ghost use Rattle.std.specs.Prelude.{◌≡◌, ◌++◌, OnOk, codes, string_bytes};
ghost use Rattle.toml_pieces.specs.Toml.{word_at};

use std::alloc::AllocError;
use toml_pieces::push_word;

/// Puts the name of a program.
pub fn push_name(out: &mut String, name: &str) -> Result<(), AllocError>
    ensures { OnOk result (string_bytes out.new ≡ string_bytes out.old ++ word_at (codes "name") name.now) }
{
    push_word(out, "name", name)
}
