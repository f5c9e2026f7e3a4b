//! Where in the text of a document a path comes to be.
#![tactic(auto)]

ghost use Rattle.std.specs.Prelude.{◌≡◌, ◌++◌, IfOk, IfSome, Some};
ghost use Rattle.toml.specs.Data.{Members};
ghost use Rattle.toml.specs.Parse.{parse_document};
ghost use Rattle.keyed.specs.Places.{IsFront};
ghost use Rattle.keyed.specs.Steps.{Stands};

mod document;
mod entries;
mod inside;
mod names;
mod step;
mod values;

use document::shows;
use entries::{Entry, entry_of};
use names::is_named;
use std::alloc::{AllocError, Global};
pub use step::Step;
use toml_parser::ParseError;

/// The text before the entry of a TOML document that brings the path into it: a header, a pair, of which a dotted key
/// is the front, or an element of an array. The length of that text is the place of the path.
///
/// None where the text is not a document, the document has nothing at the path, or the path is empty. An error comes
/// where an allocation failed, and says nothing of the text.
pub fn text_before<'t>(
    alloc: Global,
    text: &'t str,
    path: &[Step<'_>],
) -> Result<Option<&'t str>, AllocError>
    ensures { IfOk result (λ found. IfSome found (λ front. (members : Members)
        → parse_document text.now ≡ Some members → IsFront text.now path.now front.now)) }
{
    let found = match entry_of(alloc, text, path) {
        Ok(found) => found,
        Err(ParseError::OutOfMemory) => return Err(AllocError),
        Err(_) => return Ok(None),
    };
    match found {
        Some(entry) => front_of(alloc, text, &entry, path),
        None => Ok(None),
    }
}

// The text before the entry, once it is seen that the entry brings the path.
fn front_of<'t>(
    alloc: Global,
    text: &'t str,
    entry: &Entry<'t>,
    path: &[Step<'_>],
) -> Result<Option<&'t str>, AllocError>
    ensures { IfOk result (λ found. IfSome found (λ front. Stands entry.now
        → IsFront text.now path.now front.now)) }
{
    let Some(front) = before(text, entry.from) else {
        return Ok(None);
    };
    let Some(through) = before(text, entry.following) else {
        return Ok(None);
    };
    let Some(last) = path.last() else {
        return Ok(None);
    };
    let closing = entry.closing.as_str();
    if is_named(alloc, *last, closing, entry.from)?
        && shows(alloc, front, closing, path, false)?
        && shows(alloc, through, closing, path, true)?
    {
        Ok(Some(front))
    } else {
        Ok(None)
    }
}

// The text before this end of it.
fn before<'t>(text: &'t str, end: &str) -> Option<&'t str>
    ensures { IfSome result (λ front. text.now ≡ front.now ++ end.now) }
{
    text.strip_suffix(end)
}
