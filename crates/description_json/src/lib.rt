//! Descriptions in JSON: the table that a text gives, in the terms of TOML, and where in the text a path comes to be.
#![tactic(auto)]

ghost use Rattle.std.specs.Prelude.{◌≡◌, IfErr, IfOk, IfSome, None, Some};
ghost use Rattle.toml.specs.View.{table_view};
ghost use Rattle.description_json.specs.Places.{IsFront};
ghost use Rattle.description_json.specs.Steps.{IsMemory, IsOf};
ghost use Rattle.description_json.specs.Tables.{json_table};

mod certified;
mod data;
mod document;
mod entries;
mod error;
mod strings;
mod walk;

use certified::front_of;
use entries::entry_of;
pub use error::{JsonError, JsonFault, Why};
use keyed::Step;
use std::alloc::{AllocError, Global};
use toml::Table;
use walk::fault_of;

/// The table of a JSON text, an object: objects are tables, arrays are arrays, and a number is one of TOML with the
/// same letters.
///
/// `Content` reports why a text gives none: it is not JSON, no object stands at the top, a key stands twice in an
/// object, arrays and objects are nested more than 80 deep, a value is null, or a number does not fit into 64 bits. Of
/// several faults it reports the first. `Memory` says nothing of the text.
pub fn table_from_str<'t>(alloc: Global, text: &'t str) -> Result<Table, JsonError<'t>>
    ensures ok { IfOk result (λ table. json_table text.now ≡ Some (table_view table)) }
    ensures refused { IfErr result (λ error. ¬ IsMemory error → json_table text.now ≡ None) }
    ensures place { IfErr result (IsOf text.now) }
{
    match document::table_of(alloc, text)? {
        Some(table) => Ok(table),
        None => Err(JsonError::Content(fault_of(alloc, text)?)),
    }
}

/// The text before the entry of a JSON text that brings the path into it: a member of an object, or an element of an
/// array. The length of that text is the place of the path.
///
/// None where the text gives no table, or has nothing at the path. An error comes where an allocation failed, and says
/// nothing of the text.
pub fn text_before<'t>(
    alloc: Global,
    text: &'t str,
    path: &[Step<'_>],
) -> Result<Option<&'t str>, AllocError>
    ensures { IfOk result (λ found. IfSome found (λ front. IsFront text.now path.now front.now)) }
{
    match entry_of(alloc, text, path)? {
        Some(entry) => front_of(alloc, text, &entry, path),
        None => Ok(None),
    }
}
