//! A first description of a program, from what it prints for help.

ghost use Rattle.std.specs.Prelude.{◌≡◌, ◌↔◌, IfErr, IfOk, IsErrOf, option_map, string_bytes};
ghost use Rattle.description.specs.View.{text_of};
ghost use Rattle.drafts.specs.Drafts.{draft_text};
ghost use Rattle.watched.specs.Calls.{GivesText, ReadFails, ReadsToEnd};
ghost use Rattle.watched.specs.Watched.{IsMarked, IsUnmarked, ReadsAll, ReadsText};
ghost use Rattle.clidoc_engine.specs.Faults.{IfNotUtf8};
ghost use Rattle.clidoc_engine.specs.Inputs.{IsNoText};
ghost use Rattle.clidoc_engine.specs.Steps.{IsOfInput};

use crate::faults::Fault;
use crate::utf8::text_from;
use drafts::{DraftError, draft};
use std::alloc::Allocator;
use watched::{Source, Watched};

/// Reads all that the reader has left, as a help text, and returns a description of it in TOML, by the rules of
/// `docs/draft.md`; `None` if the name that is given may be none, or none is given, and no usage has one. `Read` comes
/// exactly where the reader's mark is then set, since its last read failed, `NotUtf8` where what was read is not UTF-8,
/// and `Memory` where an allocation failed.
pub fn draft_of<A: Allocator + Copy, R: Source>(
    alloc: A,
    name: Option<&str>,
    reader: &mut Watched<R>,
) -> Result<Option<String<A>>, Fault>
    requires reader { IsUnmarked reader.old }

    // Over all streams.
    ensures read { IsErrOf result Fault.Read ↔ IsMarked reader.new }
    ensures fault { IfErr result IsOfInput }
    ensures given { IfOk result (λ made. GivesText R.reads reader.old.end reader.new.end (λ input.
        option_map string_bytes made ≡ draft_text (text_of name.entry) input)) }
    ensures read_failed { IsErrOf result Fault.Read →
        (error : _) × ReadFails R.reads reader.old.end error reader.new.end }
    ensures no_text { IfErr result (λ fault. IfNotUtf8 fault (λ place.
        (input : _) × ReadsToEnd R.reads reader.old.end input reader.new.end × IsNoText input place)) }

    // Over streams that tell their bytes.
    ensures ok { IfOk result (λ made.
        ReadsText (R.remaining reader.old.end) (R.remaining reader.new.end) (λ input.
        option_map string_bytes made ≡ draft_text (text_of name.entry) input)) }
    ensures not_utf8 { IfErr result (λ fault. IfNotUtf8 fault (λ place. (input : _)
        × ReadsAll (R.remaining reader.old.end) (R.remaining reader.new.end) input × IsNoText input place)) }
{
    let input = text_from(alloc, reader)?;
    match draft(alloc, name, input.as_str()) {
        Ok(text) => Ok(Some(text)),
        Err(DraftError::NoName) => Ok(None),
        Err(DraftError::Memory(_)) => Err(Fault::Memory),
    }
}
