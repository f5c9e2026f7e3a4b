//! A command line that is described in TOML.

ghost use Rattle.std.specs.Prelude.{◌≡◌, IfOk, is_some};
ghost use Rattle.description_toml.specs.Described.{described};
ghost use Rattle.toml.specs.View.{table_view};

use description_toml::{DescriptionError, description_from_table};
use lasting_names::Names;
use std::alloc::{AllocError, Global};
use toml::Table;

/// Whether the table describes a command line. An error says that an allocation failed.
pub fn describes(alloc: Global, table: &Table) -> Result<bool, AllocError>
    ensures { IfOk result (λ describes. describes ≡ is_some (described (table_view table.now))) }
{
    let mut names = Names::new(alloc);
    match description_from_table(alloc, &mut names, table) {
        Ok(_) => Ok(true),
        Err(DescriptionError::Content(_)) => Ok(false),
        Err(DescriptionError::Memory(refused)) => Err(refused),
    }
}
