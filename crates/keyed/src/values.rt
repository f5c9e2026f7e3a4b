//! Values of which only the end is needed.
ghost use Rattle.std.specs.Prelude.{◌≡◌, ◌<◌, ◌≤◌, length, IfOk, ℕ};
ghost use Rattle.toml_parser.specs.Reading.{Gives, Reads, Shortens, key_view};
ghost use Rattle.toml.specs.Parse as spec;
ghost use Rattle.toml.specs.Data.{Items};
ghost use Rattle.toml.specs.Tables.{Nodes};
ghost use Rattle.keyed.specs.Steps.{Ends};

use std::alloc::Global;
use toml_parser::text::{first, skip, skip_blank, skip_ws};
use toml_parser::{ErrorKind, Key, ParseError, dotted_key, quoted, starts_string, unquoted};

/// What follows a value with arrays and inline tables at most `depth` deep.
#[cycle(after_value)]
pub fn after_value(alloc: Global, s: &str, depth: usize) -> Result<&str, ParseError>
    ensures end { IfOk result (λ rest. Ends (spec.val depth s.now) rest.now) }
    ensures shorter { IfOk result (λ rest. length rest.now < length s.now) }
{
    let byte = first(s);
    if byte != b'[' && byte != b'{' {
        return after_atom(alloc, s);
    }
    if depth == 0 {
        return Err(ParseError::at(ErrorKind::Recursion, s));
    }
    if byte == b'[' {
        after_array(alloc, skip(s, 1), depth - 1)
    } else {
        after_inline_table(alloc, skip(s, 1), depth - 1)
    }
}

fn after_atom(alloc: Global, s: &str) -> Result<&str, ParseError>
    ensures end { IfOk result (λ rest. Ends (spec.atom s.now) rest.now) }
    ensures shorter { IfOk result (λ rest. length rest.now < length s.now) }
{
    if starts_string(s) {
        let (_, rest) = quoted(alloc, s)?;
        Ok(rest)
    } else {
        let (_, rest) = unquoted(alloc, s)?;
        Ok(rest)
    }
}

#[cycle(after_value)]
fn after_array(alloc: Global, s: &str, depth: usize) -> Result<&str, ParseError>
    ensures end { IfOk result (λ rest. (n : ℕ) → (found : Items)
        → Ends (spec.items (spec.val depth) n found s.now) rest.now) }
    ensures shorter { IfOk result (λ rest. length rest.now < length s.now) }
{
    let mut rest = s;
    'items: loop {
        let start = skip_blank(rest, true);
        if first(start) == b']' {
            return Ok(skip(start, 1));
        }
        let after = after_value(alloc, start, depth)?;
        rest = after_element(after, b']', ErrorKind::Array)?;
    }
}

#[cycle(after_value)]
fn after_inline_table(alloc: Global, s: &str, depth: usize) -> Result<&str, ParseError>
    ensures end { IfOk result (λ rest. (n : ℕ) → (found : Nodes)
        → Ends (spec.members (spec.val depth) n found s.now) rest.now) }
    ensures shorter { IfOk result (λ rest. length rest.now < length s.now) }
{
    let mut rest = s;
    'members: loop {
        let start = skip_blank(rest, true);
        if first(start) == b'}' {
            return Ok(skip(start, 1));
        }
        let (_, at_value) = key_equals(alloc, start)?;
        let after = after_value(alloc, at_value, depth)?;
        rest = after_element(after, b'}', ErrorKind::InlineTable)?;
    }
}

/// After a comma, or at the closing bracket.
pub fn after_element(s: &str, closing: u8, missing: ErrorKind) -> Result<&str, ParseError>
    ensures value { Gives (λ rest. rest.now) result (spec.after_element closing s.now) }
    ensures within { IfOk result (λ rest. length rest.now ≤ length s.now) }
{
    let rest = skip_blank(s, true);
    if first(rest) == b',' {
        Ok(skip(rest, 1))
    } else if first(rest) == closing {
        Ok(rest)
    } else {
        Err(ParseError::at(missing, rest))
    }
}

/// A key, `=` and the white space after it.
pub fn key_equals(alloc: Global, s: &str) -> Result<(Key, &str), ParseError>
    ensures value { Reads key_view result (spec.key_equals s.now) }
    ensures shorter { Shortens s.now result }
{
    let (key, rest) = dotted_key(alloc, s)?;
    if first(rest) != b'=' {
        return Err(ParseError::at(ErrorKind::MissingEquals, rest));
    }
    Ok((key, skip_ws(skip(rest, 1))))
}
