//! What a shell offers for a value.
ghost use Rattle.std.specs.Prelude.{◌≡◌, ◌||◌, IfOk, codes, is_some, option_and_then};
ghost use Rattle.description.specs.View.{text_of};
ghost use Rattle.toml.specs.View.{table_view};
ghost use Rattle.description_toml.specs.Described.{hint_unless};
ghost use Rattle.description_toml.specs.Described.Values.{as_hint, hint_named, optional_at};
ghost use Rattle.description_toml.specs.Faults.{Reads};

use super::teller::{Refused, Teller};
use super::values::value_at;
use description::hints::ValueHint;
use std::alloc::Allocator;
use toml::{Table, Value};

/// What is wrong with a key about the value of a flag.
pub const BESIDE_NONE: &str = " stands beside no value and no syntax; add value";

/// What a shell offers for a value, at the key `hint`; files by default. It may not stand beside a list of values, nor
/// on a flag.
pub fn hint_beside<'a, A: Allocator + Copy>(
    teller: &mut Teller<'a, A>,
    table: &'a Table,
    is_flag: bool,
    has_values: bool,
) -> Result<ValueHint, Refused>
    ensures { Reads (option_and_then (hint_unless (is_flag || has_values)) (optional_at as_hint (codes "hint")
        (table_view table.now))) (λ hint. hint) result }
{
    let hint = hint_at(teller, table)?;
    hint_unless(teller, is_flag, has_values, hint)
}

fn hint_unless<'a, A: Allocator + Copy>(
    teller: &mut Teller<'a, A>,
    is_flag: bool,
    has_values: bool,
    hint: Option<ValueHint>,
) -> Result<ValueHint, Refused>
    ensures { Reads (hint_unless (is_flag || has_values) hint) (λ hint. hint) result }
{
    let Some(hint) = hint else {
        return Ok(ValueHint::File);
    };
    if is_flag {
        return Err(teller.tell("hint", BESIDE_NONE));
    }
    if has_values {
        return Err(teller.tell("hint", " stands beside values"));
    }
    Ok(hint)
}

fn hint_at<'a, A: Allocator + Copy>(
    teller: &mut Teller<'a, A>,
    table: &'a Table,
) -> Result<Option<ValueHint>, Refused>
    ensures { Reads (optional_at as_hint (codes "hint") (table_view table.now)) (λ hint. hint) result }
{
    match value_at(table, "hint") {
        None => Ok(None),
        Some(Value::String(text)) => Ok(Some(hint_in(teller, text.as_str())?)),
        Some(_) => Err(teller.tell("hint", " is no text")),
    }
}

fn hint_in<'a, A: Allocator + Copy>(
    teller: &mut Teller<'a, A>,
    word: &'a str,
) -> Result<ValueHint, Refused>
    ensures { Reads (hint_named word.now) (λ hint. hint) result }
{
    match hint_named(word) {
        Some(hint) => Ok(hint),
        None => Err(teller.tell_no_hint(word)),
    }
}

fn hint_named(word: &str) -> Option<ValueHint>
    ensures { result ≡ hint_named word.now }
{
    match word {
        "file" => Some(ValueHint::File),
        "folder" => Some(ValueHint::Folder),
        "none" => Some(ValueHint::Nothing),
        "user" => Some(ValueHint::User),
        "host" => Some(ValueHint::Host),
        _ => None,
    }
}

/// Whether there are possible values, even wrong ones.
pub fn has_values(values: Result<Option<&str>, Refused>) -> bool
    ensures { IfOk values.entry (λ values. result ≡ is_some (text_of values)) }
{
    match values {
        Ok(values) => values.is_some(),
        Err(_) => true,
    }
}
