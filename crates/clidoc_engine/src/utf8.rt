//! What is read, as a text.

ghost use Rattle.std.specs.Prelude.{◌≡◌, ◌↔◌, IfErr, IfOk, IsErrOf, IsUtf8, string_bytes};
ghost use Rattle.watched.specs.Calls.{ReadFails, ReadsToEnd};
ghost use Rattle.watched.specs.Watched.{IsMarked, IsUnmarked, ReadsAll};
ghost use Rattle.clidoc_engine.specs.Faults.{IfNotUtf8};
ghost use Rattle.clidoc_engine.specs.Inputs.{IsNoText};
ghost use Rattle.clidoc_engine.specs.Steps.{IsOfInput};

use crate::faults::Fault;
use crate::places::{Place, place_after};
use std::alloc::Allocator;
use watched::{ReadError, Source, Watched};

/// All that the reader has left, as one text that is no copy of what was read. After a fault what was read is lost.
pub(crate) fn text_from<A: Allocator, R: Source>(
    alloc: A,
    reader: &mut Watched<R>,
) -> Result<String<A>, Fault>
    requires reader { IsUnmarked reader.old }
    ensures utf8 { IfOk result (λ text. IsUtf8 (string_bytes text)) }
    ensures ok { IfOk result (λ text.
        ReadsAll (R.remaining reader.old.end) (R.remaining reader.new.end) (string_bytes text)) }
    ensures reads { IfOk result (λ text.
        ReadsToEnd R.reads reader.old.end (string_bytes text) reader.new.end) }
    ensures fault { IfErr result IsOfInput }
    ensures read { IsErrOf result Fault.Read ↔ IsMarked reader.new }
    ensures read_failed { IsErrOf result Fault.Read →
        (error : _) × ReadFails R.reads reader.old.end error reader.new.end }
    ensures no_text { IfErr result (λ fault. IfNotUtf8 fault (λ place.
        (input : _) × ReadsToEnd R.reads reader.old.end input reader.new.end × IsNoText input place)) }
    ensures not_utf8 { IfErr result (λ fault. IfNotUtf8 fault (λ place. (input : _)
        × ReadsAll (R.remaining reader.old.end) (R.remaining reader.new.end) input × IsNoText input place)) }
{
    match reader.read_all(alloc) {
        Ok(bytes) => match text_of(bytes) {
            Ok(text) => Ok(text),
            Err(place) => Err(Fault::NotUtf8(place)),
        },
        Err(ReadError::Failed(_)) => Err(Fault::Read),
        Err(ReadError::Refused(_)) => Err(Fault::Memory),
        Err(ReadError::NotUtf8) => unreachable!(),
    }
}

// The bytes as a text, without a copy; or the place of the first byte that is of no character.
fn text_of<A: Allocator>(bytes: Vec<u8, A>) -> Result<String<A>, Place>
    ensures ok { IfOk result (λ text. string_bytes text ≡ bytes.items) }
    ensures err { IfErr result (IsNoText bytes.items) }
{
    match String::from_utf8(bytes) {
        Ok(text) => Ok(text),
        Err(error) => {
            let valid = error.utf8_error().valid_up_to();
            Err(place_after(&error.as_bytes()[..valid]))
        }
    }
}
