//! The text before a key of a document.

ghost use Rattle.std.specs.Prelude.{◌≡◌, [], ◌∷◌, IfOk, IfSome, Some};
ghost use Rattle.toml.specs.Data.{Members};
ghost use Rattle.toml.specs.Parse.{parse_document};
ghost use Rattle.keyed.specs.Places.{IsFront};
ghost use Rattle.keyed.specs.declared.step.Step.TheVariants as Step;

use keyed::{Step, text_before};
use std::alloc::{AllocError, Global};

/// The text before the entry that brings a key of the top into a document.
pub fn before_key<'t>(
    alloc: Global,
    text: &'t str,
    key: &str,
) -> Result<Option<&'t str>, AllocError>
    ensures { IfOk result (λ found. IfSome found (λ front. (members : Members)
        → parse_document text.now ≡ Some members → IsFront text.now (Step.Key key.entry ∷ []) front.now)) }
{
    text_before(alloc, text, &[Step::Key(key)])
}
