//! A text as a value, and the table that it gives.
ghost use Rattle.std.specs.Prelude.{◌≡◌, IfOk, option_map};
ghost use Rattle.toml.specs.View.{table_view};
ghost use Rattle.description_json.specs.Tables.{json_table, top_members};
ghost use Rattle.json.specs.Json.{value};
ghost use Rattle.json.specs.Value.{value_view};
ghost use Rattle.toml_parser.specs.Strings.{recursion_limit};

use crate::data::members_data;
use json::{Error, Reader, Scratch, Value};
use std::alloc::{AllocError, Global};
use toml::Table;
use toml_parser::RECURSION_LIMIT;

/// The table that the text gives, if it gives one.
#[tactic(auto, using(crate::proofs::Texts::no_value, crate::proofs::Texts::more_after, crate::proofs::Texts::whole))]
pub fn table_of(alloc: Global, text: &str) -> Result<Option<Table>, AllocError>
    ensures { IfOk result (λ found. option_map table_view found ≡ json_table text.now) }
{
    let mut scratch = Scratch::new(alloc);
    let mut reader = Reader::new(text, &mut scratch)?;
    let Some(value) = value_of(alloc, &mut reader)? else {
        return Ok(None);
    };
    match reader.next() {
        None => {
            let table = top_table(alloc, &value)?;
            Ok(table)
        }
        Some(_) => Ok(None),
    }
}

// The value that the reader reads, if it reads one.
fn value_of<'t>(alloc: Global, reader: &mut Reader<'t>) -> Result<Option<Value<'t>>, AllocError>
    ensures { IfOk result (λ found. option_map (λ v. (value_view v, reader.new)) found
        ≡ value recursion_limit reader.old) }
{
    match Value::read(alloc, reader, RECURSION_LIMIT) {
        Ok(value) => Ok(Some(value)),
        Err(Error::Invalid) => Ok(None),
        Err(_) => Err(AllocError),
    }
}

// The table of the object at the top.
fn top_table(alloc: Global, value: &Value<'_>) -> Result<Option<Table>, AllocError>
    ensures { IfOk result (λ found. option_map table_view found ≡ top_members (value_view value.now)) }
{
    match value {
        Value::Object(members) => members_data(alloc, members),
        _ => Ok(None),
    }
}
