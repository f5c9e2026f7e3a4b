//! What an entry names.
ghost use Rattle.std.specs.Prelude.{◌≡◌, ◌++◌, [], ◌∷◌, IfOk, IsTrue, bytes_eq, string_bytes};
ghost use Rattle.std.specs.List.{list_any};
ghost use Rattle.toml_parser.specs.Reading.{path_view};
ghost use Rattle.toml_parser.specs.Strings.{key};
ghost use Rattle.keyed.specs.Places as spec;

use crate::step::Step;
use std::alloc::{AllocError, Global};
use toml_parser::text::{byte_at, first, skip, skip_ws};
use toml_parser::{Key, ParseError, dotted_key};

/// Whether the entry that stands at the front of the text is one that the step leads to.
pub fn is_named(
    alloc: Global,
    step: Step<'_>,
    closing: &str,
    text: &str,
) -> Result<bool, AllocError>
    ensures { IfOk result (λ named. IsTrue named → IsTrue (spec.names_step step.entry closing.now text.now)) }
{
    let is_element = first(closing) == b']';
    match step {
        Step::Index(_) => Ok(is_element || is_array_header(text)),
        Step::Key(_) if is_element => Ok(false),
        Step::Key(name) => is_part(alloc, name, at_key(text)),
    }
}

fn is_array_header(text: &str) -> bool
    ensures { result ≡ spec.is_array_header text.now }
{
    first(text) == b'[' && byte_at(text, 1) == b'['
}

// The text from the key of the entry on.
fn at_key(text: &str) -> &str
    ensures { result.now ≡ spec.at_key text.now }
{
    if is_array_header(text) {
        skip_ws(skip(text, 2))
    } else if first(text) == b'[' {
        skip_ws(skip(text, 1))
    } else {
        text
    }
}

// Whether the name is a part of the key at the front of the text.
fn is_part(alloc: Global, name: &str, text: &str) -> Result<bool, AllocError>
    ensures { IfOk result (λ part. IsTrue part → IsTrue (spec.has_part name.now (key text.now))) }
{
    match dotted_key(alloc, text) {
        Ok((key, _)) => Ok(has_part(&key, name)),
        Err(ParseError::OutOfMemory) => Err(AllocError),
        Err(_) => Ok(false),
    }
}

fn has_part(key: &Key, name: &str) -> bool
    ensures { result ≡ list_any (λ part. bytes_eq part name.now)
        (path_view key.now.path.items ++ string_bytes key.now.last ∷ []) }
{
    is_among(&key.path, name) || key.last.as_str() == name
}

fn is_among(parts: &[String], name: &str) -> bool
    ensures { result ≡ list_any (λ part. bytes_eq part name.now) (path_view parts.now) }
{
    for part in parts {
        if part.as_str() == name {
            return true;
        }
    }
    false
}
