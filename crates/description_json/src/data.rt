//! The data of values.
ghost use Rattle.std.specs.Prelude.{◌≡◌, if◌then◌else◌, IfOk, None, Some, option_map};
ghost use Rattle.json.specs.Value.{items_view, members_view, value_view};
ghost use Rattle.toml.specs.Parse.{scalar_data};
ghost use Rattle.toml.specs.View.{array_view, table_view, view};
ghost use Rattle.description_json.specs.Tables.{items_data, members_data, number_data, value_data, with_member};

use json::Value as Json;
use std::alloc::{AllocError, Global};
use toml::value::Array;
use toml::{Table, Value};
use toml_parser::{ParseError, Scalar, unquoted};

// The data of a value, if it has some.
#[cycle(data)]
fn value_data(alloc: Global, value: &Json<'_>) -> Result<Option<Value>, AllocError>
    ensures { IfOk result (λ found. option_map view found ≡ value_data (value_view value.now)) }
{
    match value {
        Json::Null => Ok(None),
        Json::Bool(holds) => Ok(Some(Value::Boolean(*holds))),
        Json::Number(text) => number_data(alloc, *text),
        Json::String(text) => Ok(Some(Value::string(alloc, *text)?)),
        Json::Array(items) => match items_data(alloc, items)? {
            Some(array) => Ok(Some(Value::Array(array))),
            None => Ok(None),
        },
        Json::Object(members) => match members_data(alloc, members)? {
            Some(table) => Ok(Some(Value::Table(table))),
            None => Ok(None),
        },
    }
}

/// The number as TOML reads it, if 64 bits hold it.
pub fn number_data(alloc: Global, text: &str) -> Result<Option<Value>, AllocError>
    ensures { IfOk result (λ found. option_map view found ≡ number_data text.now) }
{
    match unquoted(alloc, text) {
        Ok((scalar, _)) => Ok(Some(scalar_value(scalar))),
        Err(ParseError::OutOfMemory) => Err(AllocError),
        Err(_) => Ok(None),
    }
}

fn scalar_value(scalar: Scalar) -> Value
    ensures { view result ≡ scalar_data scalar }
{
    match scalar {
        Scalar::Boolean(holds) => Value::Boolean(holds),
        Scalar::Integer(number) => Value::Integer(number),
        Scalar::Float(number) => Value::Float(number),
        Scalar::Datetime(datetime) => Value::Datetime(datetime),
    }
}

#[cycle(data)]
fn items_data(alloc: Global, items: &Vec<Json<'_>>) -> Result<Option<Array>, AllocError>
    ensures { IfOk result (λ found. option_map array_view found ≡ items_data (items_view items.now.items)) }
{
    let mut array = Vec::new(alloc);
    for item in items {
        let Some(data) = value_data(alloc, item)? else {
            return Ok(None);
        };
        array.push(data)?;
    }
    Ok(Some(array))
}

/// The table of the members of an object, if each has data and no key stands twice.
#[cycle(data)]
pub fn members_data(
    alloc: Global,
    members: &Vec<(&str, Json<'_>)>,
) -> Result<Option<Table>, AllocError>
    ensures { IfOk result (λ found. option_map table_view found ≡ members_data (members_view members.now.items)) }
{
    let mut table = Table::new(alloc);
    let mut left = members.len();
    while left > 0 {
        left -= 1;
        let member = &members[left];
        let Some(data) = value_data(alloc, &member.1)? else {
            return Ok(None);
        };
        if !put_member(alloc, &mut table, member.0, data)? {
            return Ok(None);
        }
    }
    Ok(Some(table))
}

// Puts the value at the key, and says whether it stands there for the first time.
fn put_member(alloc: Global, table: &mut Table, key: &str, value: Value) -> Result<bool, AllocError>
    ensures { IfOk result (λ is_new. with_member key.now (view value) (table_view table.old)
        ≡ (if is_new then Some (table_view table.new) else None)) }
{
    let name = String::from_str(alloc, key)?;
    let earlier = table.insert(name, value)?;
    Ok(earlier.is_none())
}
