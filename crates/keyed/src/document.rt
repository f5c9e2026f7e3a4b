//! What a document has.
ghost use Rattle.std.specs.Prelude.{◌≡◌, ◌++◌, is_some, IfOk, IsTrue, option_map};
ghost use Rattle.toml.specs.View.{view};
ghost use Rattle.keyed.specs.Places.{at_path, step_to, Shows};

use crate::step::Step;
use std::alloc::{AllocError, Global};
use toml::Value;

/// Whether the text, with these brackets at its end, is a document that has something at the path, or has nothing
/// there, as `is_there` says.
pub fn shows(
    alloc: Global,
    text: &str,
    closing: &str,
    path: &[Step<'_>],
    is_there: bool,
) -> Result<bool, AllocError>
    ensures { IfOk result (λ seen. IsTrue seen → Shows path.now (text.now ++ closing.now) is_there) }
{
    let whole = format!(in alloc; "{text}{closing}")?;
    match toml::table_from_str(alloc, &whole) {
        Ok(table) => Ok(is_in(&Value::Table(table), path) == is_there),
        Err(error) if error.is_memory() => Err(AllocError),
        Err(_) => Ok(false),
    }
}

fn is_in(value: &Value, path: &[Step<'_>]) -> bool
    ensures { result ≡ is_some (at_path path.now (view value.now)) }
{
    let mut here = value;
    for step in path {
        match step_from(here, *step) {
            Some(next) => here = next,
            None => return false,
        }
    }
    true
}

fn step_from<'v>(value: &'v Value, step: Step<'_>) -> Option<&'v Value>
    ensures { option_map (λ v. view v.now) result ≡ step_to step.entry (view value.now) }
{
    match step {
        Step::Key(key) => value.get(key),
        Step::Index(index) => value.get(index),
    }
}
