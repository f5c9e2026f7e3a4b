//! A command line that is written in JSON.

ghost use Rattle.std.specs.Prelude.{IfOk, string_bytes};
ghost use Rattle.description.specs.View.{description_said};
ghost use Rattle.json_of_descriptions.specs.Descriptions.{IsReadBack, json_of};

use description::Description;
use json_of_descriptions::json_text;
use std::alloc::{AllocError, Global};

/// A text in which a reader of JSON finds the command line again.
pub fn in_json(alloc: Global, description: &Description<'_, Global>) -> Result<String, AllocError>
    ensures { IfOk result (λ text.
        IsReadBack (string_bytes text) (json_of (description_said description.now))) }
{
    json_text(alloc, description)
}
