//! The table that a text gives.

ghost use Rattle.std.specs.Prelude.{◌≡◌, IfErr, IfOk, None, Some};
ghost use Rattle.toml.specs.Errors.{IsMemory, IsWithin};
ghost use Rattle.toml.specs.Parse.{parse_document};
ghost use Rattle.toml.specs.View.{table_view};
ghost use Rattle.description_json.specs.Steps.{IsIn};
ghost use Rattle.description_json.specs.Tables.{json_table};
ghost use Rattle.clidoc_engine.specs.Inputs.{IsNoJsonText, table_in};
ghost use Rattle.clidoc_engine.specs.Newlines.{without_returns};
ghost use Rattle.clidoc_engine.specs.Steps.{IsJsonFault, IsSyntaxFault, IsTableFault};

use crate::causes::cause_of;
use crate::faults::Fault;
use crate::newlines::without_returns;
use crate::notation::Notation;
use crate::places::{Place, place_after};
use description_json::{JsonError, JsonFault};
use std::alloc::{AllocError, Global};
use toml::Table;

/// The table that the text gives in this notation. In TOML its lines may end with a carriage return too.
pub(crate) fn table_of(global: Global, notation: Notation, text: &str) -> Result<Table, Fault>
    ensures ok { IfOk result (λ table. table_in notation text.now ≡ Some (table_view table)) }
    ensures fault { IfErr result (IsTableFault notation text.now) }
{
    match notation {
        Notation::Toml => toml_table(global, text),
        Notation::Json => json_table(global, text),
    }
}

// ---- TOML

fn toml_table(global: Global, text: &str) -> Result<Table, Fault>
    ensures ok { IfOk result (λ table. parse_document (without_returns text.now) ≡ Some (table_view table)) }
    ensures fault { IfErr result (IsSyntaxFault (without_returns text.now)) }
{
    let plain = without_returns(global, text)?;
    plain_table(global, &plain)
}

fn plain_table(global: Global, text: &str) -> Result<Table, Fault>
    ensures ok { IfOk result (λ table. parse_document text.now ≡ Some (table_view table)) }
    ensures fault { IfErr result (IsSyntaxFault text.now) }
{
    match toml::table_from_str(global, text) {
        Ok(table) => Ok(table),
        Err(error) => Err(syntax_fault(global, text, error)),
    }
}

// The fault of a text that could not be read as TOML.
fn syntax_fault(global: Global, text: &str, error: toml::de::Error) -> Fault
    requires within { IsWithin text.now error }
    requires refused { ¬ IsMemory error → parse_document text.now ≡ None }
    ensures { IsSyntaxFault text.now result }
{
    let Some(span) = error.span() else {
        return Fault::Memory;
    };
    match cause_of(global, text, span.start, error.message()) {
        Ok(cause) => Fault::NotToml {
            place: place_after(&text.as_bytes()[..span.start]),
            error,
            cause,
        },
        Err(AllocError) => Fault::Memory,
    }
}

// ---- JSON

fn json_table(global: Global, text: &str) -> Result<Table, Fault>
    ensures ok { IfOk result (λ table. json_table text.now ≡ Some (table_view table)) }
    ensures fault { IfErr result (IsJsonFault text.now) }
{
    match description_json::table_from_str(global, text) {
        Ok(table) => Ok(table),
        Err(JsonError::Memory(_)) => Err(Fault::Memory),
        Err(JsonError::Content(fault)) => Err(Fault::NotJson {
            place: place_of(&fault),
            why: fault.why,
        }),
    }
}

// The place of a fault in a text that gives no table.
fn place_of(fault: &JsonFault<'_>) -> Place
    ensures { (text : _) → json_table text ≡ None → IsIn text fault.now → IsNoJsonText text result }
{
    place_after(fault.before.as_bytes())
}
