//! A first description of a program.

ghost use Rattle.std.specs.Prelude.{◌≡◌, IfOk, None, Some, string_bytes};
ghost use Rattle.drafts.specs.Drafts.{draft_text};

use drafts::{DraftError, draft};
use std::alloc::Global;

/// A first description of a program that says its own name.
pub fn draft_for(alloc: Global, printed: &str) -> Result<String, DraftError>
    ensures { IfOk result (λ text. draft_text None printed.now ≡ Some (string_bytes text)) }
{
    draft(alloc, None, printed)
}
