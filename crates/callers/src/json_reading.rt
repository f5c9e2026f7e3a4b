//! A command line that is described in JSON.

ghost use Rattle.std.specs.Prelude.{◌≡◌, IfOk, Some, option_and_then, is_some};
ghost use Rattle.description_json.specs.Tables.{json_table};
ghost use Rattle.description_toml.specs.Described.{described};

use description_json::{JsonError, table_from_str};
use description_toml::{DescriptionError, description_from_table};
use lasting_names::Names;
use std::alloc::{AllocError, Global};

/// Whether the text describes a command line. An error says that an allocation failed.
pub fn describes_in_json(alloc: Global, text: &str) -> Result<bool, AllocError>
    ensures { IfOk result (λ describes. describes ≡ is_some (option_and_then described (json_table text.now))) }
{
    let table = match table_from_str(alloc, text) {
        Ok(table) => table,
        Err(JsonError::Content(_)) => return Ok(false),
        Err(JsonError::Memory(refused)) => return Err(refused),
    };
    let mut names = Names::new(alloc);
    match description_from_table(alloc, &mut names, &table) {
        Ok(_) => Ok(true),
        Err(DescriptionError::Content(_)) => Ok(false),
        Err(DescriptionError::Memory(refused)) => Err(refused),
    }
}
