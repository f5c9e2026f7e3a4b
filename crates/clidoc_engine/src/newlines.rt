//! The ends of lines.

ghost use Rattle.std.specs.Prelude.{◌≡◌, IfOk, string_bytes};
ghost use Rattle.clidoc_engine.specs.Newlines.{without_returns};

use std::alloc::{AllocError, Allocator};

/// The text without each carriage return that stands directly before a newline.
pub fn without_returns<A: Allocator>(alloc: A, text: &str) -> Result<String<A>, AllocError>
    ensures { IfOk result (λ made. string_bytes made ≡ without_returns text.now) }
{
    text.replace(alloc, "\r\n", "\n")
}
