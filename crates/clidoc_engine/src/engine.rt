//! What the program does, over any reader and any writer.

ghost use Rattle.std.specs.Prelude.{◌≡◌, ◌≢◌, ◌↔◌, IfOk, IfErr, OnOk, OnErr, IsErrOf, Some, None, string_bytes};
ghost use Rattle.toml.specs.Data.{Members};
ghost use Rattle.toml.specs.View.{table_view};
ghost use Rattle.description.specs.View.{description_said};
ghost use Rattle.description_toml.specs.Described.{described};
ghost use Rattle.watched.specs.Calls.{GivesText, Moves, ReadFails, ReadsToEnd, WriteFails};
ghost use Rattle.watched.specs.Watched.{IsMarked, IsUnmarked, ReadsAll, ReadsText};
ghost use Rattle.clidoc_engine.specs.Chosen.{page_said};
ghost use Rattle.clidoc_engine.specs.Faults.{IfNoCommand, IfNoPage, IfNotDescription, IfNotJson, IfNotToml, IfNotUtf8};
ghost use Rattle.clidoc_engine.specs.Inputs.{HasWarnings, IsNoDescription, IsNoJson, IsNoText, IsNoToml};
ghost use Rattle.clidoc_engine.specs.Inputs.{TellsTheFirst, count_of};
ghost use Rattle.clidoc_engine.specs.Runs.{HasNoCommand, HasPage, HasUnwritablePage, MakesPage};
ghost use Rattle.clidoc_engine.specs.Runs.{WritesBeginning, WritesPage};
ghost use Rattle.clidoc_engine.specs.Steps.{IsOfContent, IsOfData, IsOfReading, IsOfText};

use crate::described::{Lines, lines_of, warnings_in};
use crate::faults::Fault;
use crate::newlines::without_returns;
use crate::notation::{Notation, notation_of};
use crate::pages::rendered;
use crate::room::Room;
use crate::tables::table_of;
use crate::utf8::text_from;
use crate::words::Page;
use description::Description;
use description_toml::{DescriptionError, Faults, description_from_table};
use lasting_names::Names;
use std::alloc::{AllocError, Allocator, Global};
use toml::Table;
use watched::{Sink, Source, Watched};

/// Reads all that the reader has left, as a description, and writes a page of it and nothing more. It is in JSON or in
/// TOML as `notation_of` says, where the file has this name; in TOML a carriage return directly before a newline counts
/// for nothing.
/// The whole page is made before the first write, so that an error other than `Write` leaves the writer
/// as it was. The tables of the text, the description, its names and what a page is made of are kept in `room`, and
/// what is read and the page in `alloc`. The names are never freed, so each call keeps its own.
///
/// `Read` comes exactly where the reader's mark is then set, since its last read failed, `Write` exactly where the
/// writer's is, since its last write failed or took none, and the faults of the input only where all was read:
/// `NotUtf8` where it is not UTF-8, and from which place on, `NotToml` where it has to be TOML and is not, `NotJson`
/// where it has to be JSON and gives no table, `NotDescription` where its table is not a description, `NoCommand`
/// where the commands of the page lead nowhere, and `NoPage` where a text of the page has a control character but
/// newline and tab, or a noncharacter, or it is a page in HTML, in which a name or a text cannot stand. `Memory` comes
/// only where an allocation failed, or what the page says takes more than `room` has for it, which no clause can say.
pub fn run_description<A: Allocator + Copy, B: Allocator, R: Source, W: Sink>(
    alloc: A,
    room: Room,
    page: &Page<'_, B>,
    file: &str,
    reader: &mut Watched<R>,
    writer: &mut Watched<W>,
) -> Result<(), Fault>
    requires reader { IsUnmarked reader.old }
    requires writer { IsUnmarked writer.old }

    // Over all streams: when each fault comes, and what it leaves.
    ensures read { IsErrOf result Fault.Read ↔ IsMarked reader.new }
    ensures write { IsErrOf result Fault.Write ↔ IsMarked writer.new }
    ensures untouched { IfErr result (λ fault.
        fault ≢ Fault.Write → writer.new ≡ writer.old) }

    // Over all streams: which calls of theirs gave and took the bytes, and failed.
    ensures given { OnOk result (
        GivesText R.reads reader.old.end reader.new.end (λ input.
        MakesPage (page_said page.now) file.now input (λ text. Moves W.writes writer.old.end text writer.new.end))) }
    ensures read_failed { IsErrOf result Fault.Read →
        (error : _) × ReadFails R.reads reader.old.end error reader.new.end }
    ensures write_failed { IsErrOf result Fault.Write →
        GivesText R.reads reader.old.end reader.new.end (λ input.
        MakesPage (page_said page.now) file.now input (λ text.
        (error : _) × WriteFails W.writes writer.old.end text error writer.new.end)) }
    ensures no_text { IfErr result (λ fault. IfNotUtf8 fault (λ place.
        (input : _) × ReadsToEnd R.reads reader.old.end input reader.new.end × IsNoText input place)) }
    ensures no_toml { IfErr result (λ fault. IfNotToml fault (λ place error.
        GivesText R.reads reader.old.end reader.new.end (λ input. IsNoToml file.now input place error))) }
    ensures no_json { IfErr result (λ fault. IfNotJson fault (λ place.
        GivesText R.reads reader.old.end reader.new.end (λ input. IsNoJson file.now input place))) }
    ensures no_description { IfErr result (λ fault. IfNotDescription fault (
        GivesText R.reads reader.old.end reader.new.end (IsNoDescription file.now))) }
    ensures no_command { IfErr result (λ fault. IfNoCommand fault (
        GivesText R.reads reader.old.end reader.new.end (HasNoCommand (page_said page.now) file.now))) }
    ensures no_page { IfErr result (λ fault. IfNoPage fault (λ error.
        GivesText R.reads reader.old.end reader.new.end (HasUnwritablePage (page_said page.now) error file.now))) }

    // Over streams that tell their bytes: which are read and written.
    ensures ok { OnOk result (
        ReadsText (R.remaining reader.old.end) (R.remaining reader.new.end) (λ input.
        WritesPage (page_said page.now) file.now input (W.contents writer.old.end) (W.contents writer.new.end))) }
    ensures cut_short { IsErrOf result Fault.Write →
        ReadsText (R.remaining reader.old.end) (R.remaining reader.new.end) (λ input.
        WritesBeginning (page_said page.now) file.now input (W.contents writer.old.end) (W.contents writer.new.end)) }
    ensures not_utf8 { IfErr result (λ fault. IfNotUtf8 fault (λ place. (input : _)
        × ReadsAll (R.remaining reader.old.end) (R.remaining reader.new.end) input × IsNoText input place)) }
    ensures not_toml { IfErr result (λ fault. IfNotToml fault (λ place error.
        ReadsText (R.remaining reader.old.end) (R.remaining reader.new.end) (λ input.
        IsNoToml file.now input place error))) }
    ensures not_json { IfErr result (λ fault. IfNotJson fault (λ place.
        ReadsText (R.remaining reader.old.end) (R.remaining reader.new.end) (λ input.
        IsNoJson file.now input place))) }
    ensures not_description { IfErr result (λ fault. IfNotDescription fault (
        ReadsText (R.remaining reader.old.end) (R.remaining reader.new.end) (IsNoDescription file.now))) }
    ensures lost_command { IfErr result (λ fault. IfNoCommand fault (
        ReadsText (R.remaining reader.old.end) (R.remaining reader.new.end)
        (HasNoCommand (page_said page.now) file.now))) }
    ensures unwritable { IfErr result (λ fault. IfNoPage fault (λ error.
        ReadsText (R.remaining reader.old.end) (R.remaining reader.new.end)
        (HasUnwritablePage (page_said page.now) error file.now))) }
{
    let input = text_from(alloc, reader)?;
    let text = page_of(alloc, room, page, file, input.as_str())?;
    writer.write_all(text.as_bytes()).map_err(|_| Fault::Write)
}

/// Reads all that the reader has left, and judges whether it is a description, in a file of this name. Returns what
/// that would better say: as many warnings as there are, of which the first 20 are reported. Its faults are those of
/// `run_description` that come of reading, and they come where those do.
pub fn check_description<A: Allocator + Copy, R: Source>(
    alloc: A,
    global: Global,
    file: &str,
    reader: &mut Watched<R>,
) -> Result<Lines, Fault>
    requires reader { IsUnmarked reader.old }

    // Over all streams.
    ensures read { IsErrOf result Fault.Read ↔ IsMarked reader.new }
    ensures fault { IfErr result IsOfReading }
    ensures told { IfOk result TellsTheFirst }
    ensures given { IfOk result (λ lines.
        GivesText R.reads reader.old.end reader.new.end (HasWarnings (count_of lines) file.now)) }
    ensures read_failed { IsErrOf result Fault.Read →
        (error : _) × ReadFails R.reads reader.old.end error reader.new.end }
    ensures no_text { IfErr result (λ fault. IfNotUtf8 fault (λ place.
        (input : _) × ReadsToEnd R.reads reader.old.end input reader.new.end × IsNoText input place)) }
    ensures no_toml { IfErr result (λ fault. IfNotToml fault (λ place error.
        GivesText R.reads reader.old.end reader.new.end (λ input. IsNoToml file.now input place error))) }
    ensures no_json { IfErr result (λ fault. IfNotJson fault (λ place.
        GivesText R.reads reader.old.end reader.new.end (λ input. IsNoJson file.now input place))) }
    ensures no_description { IfErr result (λ fault. IfNotDescription fault (
        GivesText R.reads reader.old.end reader.new.end (IsNoDescription file.now))) }

    // Over streams that tell their bytes.
    ensures ok { IfOk result (λ lines.
        ReadsText (R.remaining reader.old.end) (R.remaining reader.new.end) (HasWarnings (count_of lines) file.now)) }
    ensures not_utf8 { IfErr result (λ fault. IfNotUtf8 fault (λ place. (input : _)
        × ReadsAll (R.remaining reader.old.end) (R.remaining reader.new.end) input × IsNoText input place)) }
    ensures not_toml { IfErr result (λ fault. IfNotToml fault (λ place error.
        ReadsText (R.remaining reader.old.end) (R.remaining reader.new.end) (λ input.
        IsNoToml file.now input place error))) }
    ensures not_json { IfErr result (λ fault. IfNotJson fault (λ place.
        ReadsText (R.remaining reader.old.end) (R.remaining reader.new.end) (λ input.
        IsNoJson file.now input place))) }
    ensures not_description { IfErr result (λ fault. IfNotDescription fault (
        ReadsText (R.remaining reader.old.end) (R.remaining reader.new.end) (IsNoDescription file.now))) }
{
    let text = text_from(alloc, reader)?;
    judge(global, file, text.as_str())
}

// The warnings about the description that the text gives.
fn judge(global: Global, file: &str, text: &str) -> Result<Lines, Fault>
    ensures ok { IfOk result (λ lines. HasWarnings (count_of lines) file.now text.now) }
    ensures told { IfOk result TellsTheFirst }
    ensures fault { IfErr result IsOfText }
    ensures not_toml { IfErr result (λ fault. IfNotToml fault (IsNoToml file.now text.now)) }
    ensures not_json { IfErr result (λ fault. IfNotJson fault (IsNoJson file.now text.now)) }
    ensures not_description { IfErr result (λ fault.
        IfNotDescription fault (IsNoDescription file.now text.now)) }
{
    let notation = notation_of(file, text);
    let data = table_of(global, notation, text)?;
    let mut kept = Names::new(global);
    let description = description_of(global, &mut kept, &data, notation, text)?;
    let warnings = warnings_in(global, notation, text, &description);
    drop(description);
    Ok(warnings?)
}

// The page of the description that the text gives.
pub(crate) fn page_of<A: Allocator + Copy, B: Allocator>(
    alloc: A,
    room: Room,
    page: &Page<'_, B>,
    file: &str,
    text: &str,
) -> Result<String<A>, Fault>
    ensures page { IfOk result (λ made. HasPage (page_said page.now) file.now text.now (string_bytes made)) }
    ensures fault { IfErr result IsOfContent }
    ensures not_toml { IfErr result (λ fault. IfNotToml fault (IsNoToml file.now text.now)) }
    ensures not_json { IfErr result (λ fault. IfNotJson fault (IsNoJson file.now text.now)) }
    ensures not_description { IfErr result (λ fault.
        IfNotDescription fault (IsNoDescription file.now text.now)) }
    ensures no_command { IfErr result (λ fault.
        IfNoCommand fault (HasNoCommand (page_said page.now) file.now text.now)) }
    ensures no_page { IfErr result (λ fault.
        IfNoPage fault (λ error. HasUnwritablePage (page_said page.now) error file.now text.now)) }
{
    let notation = notation_of(file, text);
    let table = table_of(room.global, notation, text)?;
    let mut names = Names::new(room.global);
    let description = description_of(room.global, &mut names, &table, notation, text)?;
    let made = rendered(alloc, room, page, &description);
    drop(description);
    made
}

// The description that the table of the text gives.
pub(crate) fn description_of<'a>(
    global: Global,
    names: &mut Names,
    table: &'a Table,
    notation: Notation,
    text: &str,
) -> Result<Description<'a>, Fault>
    ensures ok { IfOk result (λ d. described (table_view table.now) ≡ Some (description_said d)) }
    ensures fault { IfErr result (IsOfData (table_view table.now)) }
{
    match description_from_table(global, names, table) {
        Ok(description) => Ok(description),
        Err(DescriptionError::Memory(_)) => Err(Fault::Memory),
        Err(DescriptionError::Content(faults)) => Err(fault_of_data(
            global, notation, text, &faults,
        )),
    }
}

// The fault of a text whose table has these.
fn fault_of_data(global: Global, notation: Notation, text: &str, faults: &Faults<'_>) -> Fault
    ensures { (table : Members) → described table ≡ None → IsOfData table result }
{
    match lines_in(global, notation, text, faults) {
        Ok(lines) => Fault::NotDescription(lines),
        Err(AllocError) => Fault::Memory,
    }
}

// The same, where lines may end with a carriage return too.
fn lines_in(
    global: Global,
    notation: Notation,
    text: &str,
    faults: &Faults<'_>,
) -> Result<Lines, AllocError> {
    let plain = without_returns(global, text)?;
    lines_of(global, notation, &plain, faults)
}
