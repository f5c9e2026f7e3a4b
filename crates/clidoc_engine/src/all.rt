//! All pages of a description, as files.

ghost use Rattle.std.specs.Prelude.{◌≡◌, ◌↔◌, ◌++◌, ◌∷◌, [], IfOk, IfErr, IsErrOf, OnOk, flat_map, map};
ghost use Rattle.watched.specs.Calls.{GivesText, ReadFails, ReadsToEnd};
ghost use Rattle.watched.specs.Watched.{IsMarked, IsUnmarked, ReadsAll, ReadsText};
ghost use Rattle.description.specs.View.{description_said};
ghost use Rattle.description_pages.specs.LevelsView.{subject_of};
ghost use Rattle.description_pages.specs.Subjects.{all_from};
ghost use Rattle.description_pages.specs.declared.levels.Depth.TheVariants.{Alone};
ghost use Rattle.command_pages.specs.View.{title_said};
ghost use Rattle.command_pages.specs.Readings.{IsManualOf, IsMarkdownOf};
ghost use Rattle.clidoc_engine.specs.Faults.{IfNotDescription, IfNotJson, IfNotToml, IfNotUtf8};
ghost use Rattle.clidoc_engine.specs.Files.{AreAllRead, AreFiles, AreRead, HasFiles, IsWebFile, file_said};
ghost use Rattle.clidoc_engine.specs.Files.{level_files, manual_file, markdown_file};
ghost use Rattle.clidoc_engine.specs.Inputs.{IsNoDescription, IsNoJson, IsNoText, IsNoToml};
ghost use Rattle.command_pages.specs.Pages.{application};
ghost use Rattle.clidoc_engine.specs.Steps.{IsOfFiles, IsOfFilesText, IsOfPages};

use crate::engine::description_of;
use crate::faults::Fault;
use crate::files::PageFile;
use crate::notation::notation_of;
use crate::room::Room;
use crate::tables::table_of;
use crate::utf8::text_from;
use crate::words::TitleGiven;
use bumpalo::Bump;
use command_pages::{Extent, application, html_page_of, manual_page_of, markdown_page_of};
use description::Description;
use description_pages::Depth;
use description_pages::levels::LevelSubject;
use description_pages::subjects::{all_from, page_name};
use lasting_names::Names;
use std::alloc::{AllocError, Allocator, Global};
use watched::{Source, Watched};

/// Reads all that the reader has left, as a description in a file of this name, and makes all pages of it: of each
/// level, each before those below it, the manual page and the page in markdown, and last the complete HTML page. In the
/// title lines of the manual pages and at the foot of the HTML page stand the words that are given. Its faults are
/// those of `run_description` that come of reading, and they come where those do, and `NoPage`, where a word or a text
/// cannot stand in a page.
pub fn make_files<A: Allocator + Copy, R: Source>(
    alloc: A,
    room: Room,
    given: TitleGiven<'_>,
    file: &str,
    reader: &mut Watched<R>,
) -> Result<Vec<PageFile<A>, A>, Fault>
    requires reader { IsUnmarked reader.old }

    // Over all streams.
    ensures read { IsErrOf result Fault.Read ↔ IsMarked reader.new }
    ensures fault { IfErr result IsOfFiles }
    ensures given { IfOk result (λ files. GivesText R.reads reader.old.end reader.new.end (λ input.
        HasFiles file.now input (title_said given.entry) (map file_said files.items))) }
    ensures read_failed { IsErrOf result Fault.Read →
        (error : _) × ReadFails R.reads reader.old.end error reader.new.end }
    ensures no_text { IfErr result (λ fault. IfNotUtf8 fault (λ place.
        (input : _) × ReadsToEnd R.reads reader.old.end input reader.new.end × IsNoText input place)) }
    ensures no_toml { IfErr result (λ fault. IfNotToml fault (λ place error.
        GivesText R.reads reader.old.end reader.new.end (λ input. IsNoToml file.now input place error))) }
    ensures no_json { IfErr result (λ fault. IfNotJson fault (λ place.
        GivesText R.reads reader.old.end reader.new.end (λ input. IsNoJson file.now input place))) }
    ensures no_description { IfErr result (λ fault. IfNotDescription fault (
        GivesText R.reads reader.old.end reader.new.end (IsNoDescription file.now))) }

    // Over streams that tell their bytes.
    ensures ok { IfOk result (λ files.
        ReadsText (R.remaining reader.old.end) (R.remaining reader.new.end) (λ input.
        HasFiles file.now input (title_said given.entry) (map file_said files.items))) }
    ensures not_utf8 { IfErr result (λ fault. IfNotUtf8 fault (λ place. (input : _)
        × ReadsAll (R.remaining reader.old.end) (R.remaining reader.new.end) input × IsNoText input place)) }
    ensures not_toml { IfErr result (λ fault. IfNotToml fault (λ place error.
        ReadsText (R.remaining reader.old.end) (R.remaining reader.new.end) (λ input.
        IsNoToml file.now input place error))) }
    ensures not_json { IfErr result (λ fault. IfNotJson fault (λ place.
        ReadsText (R.remaining reader.old.end) (R.remaining reader.new.end) (λ input.
        IsNoJson file.now input place))) }
    ensures not_description { IfErr result (λ fault. IfNotDescription fault (
        ReadsText (R.remaining reader.old.end) (R.remaining reader.new.end) (IsNoDescription file.now))) }
{
    let text = text_from(alloc, reader)?;
    files_in(alloc, room, given, file, text.as_str())
}

// The files of the description that the text gives.
fn files_in<A: Allocator + Copy>(
    alloc: A,
    room: Room,
    given: TitleGiven<'_>,
    file: &str,
    text: &str,
) -> Result<Vec<PageFile<A>, A>, Fault>
    ensures ok { IfOk result (λ files. HasFiles file.now text.now (title_said given.entry) (map file_said files.items)) }
    ensures fault { IfErr result IsOfFilesText }
    ensures not_toml { IfErr result (λ fault. IfNotToml fault (IsNoToml file.now text.now)) }
    ensures not_json { IfErr result (λ fault. IfNotJson fault (IsNoJson file.now text.now)) }
    ensures not_description { IfErr result (λ fault.
        IfNotDescription fault (IsNoDescription file.now text.now)) }
{
    let notation = notation_of(file, text);
    let table = table_of(room.global, notation, text)?;
    let mut names = Names::new(room.global);
    let description = description_of(room.global, &mut names, &table, notation, text)?;
    let files = files_of(alloc, room, given, &description);
    drop(description);
    files
}

fn files_of<A: Allocator + Copy>(
    alloc: A,
    room: Room,
    given: TitleGiven<'_>,
    description: &Description<'_>,
) -> Result<Vec<PageFile<A>, A>, Fault>
    ensures ok { IfOk result (λ files.
        AreFiles (description_said description.now) (title_said given.entry) (map file_said files.items)) }
    ensures fault { IfErr result IsOfPages }
{
    let mut files = Vec::new(alloc);
    push_levels(alloc, room, &given, &mut files, description)?;
    put(&mut files, web_file(alloc, room, given, description)?)?;
    Ok(files)
}

// Puts the files of each level. The levels are found in an arena.
fn push_levels<A: Allocator + Copy>(
    alloc: A,
    room: Room,
    given: &TitleGiven<'_>,
    files: &mut Vec<PageFile<A>, A>,
    description: &Description<'_>,
) -> Result<(), Fault>
    ensures exact { OnOk result (map file_said files.new.items ≡ map file_said files.old.items
        ++ flat_map (level_files (description_said description.now) (title_said given.now))
        (all_from (application (description_said description.now)))) }
    ensures read { OnOk result (AreAllRead (description_said description.now) (title_said given.now)
        (all_from (application (description_said description.now)))) }
    ensures fault { IfErr result IsOfPages }
{
    let arena = room.arena();
    push_levels_in(alloc, &arena, room, given, files, description)
}

fn push_levels_in<'p, 'a: 'p, A: Allocator + Copy>(
    alloc: A,
    arena: &'p Bump,
    room: Room,
    given: &TitleGiven<'_>,
    files: &mut Vec<PageFile<A>, A>,
    description: &'p Description<'a>,
) -> Result<(), Fault>
    ensures exact { OnOk result (map file_said files.new.items ≡ map file_said files.old.items
        ++ flat_map (level_files (description_said description.now) (title_said given.now))
        (all_from (application (description_said description.now)))) }
    ensures read { OnOk result (AreAllRead (description_said description.now) (title_said given.now)
        (all_from (application (description_said description.now)))) }
    ensures fault { IfErr result IsOfPages }
{
    for level in all_from(arena, application(arena, description)?)? {
        push_level(alloc, room, given, files, description, &level)?;
    }
    Ok(())
}

fn push_level<'a, A: Allocator + Copy>(
    alloc: A,
    room: Room,
    given: &TitleGiven<'_>,
    files: &mut Vec<PageFile<A>, A>,
    description: &Description<'a>,
    level: &LevelSubject<'_, 'a, Global>,
) -> Result<(), Fault>
    ensures exact { OnOk result (map file_said files.new.items ≡ map file_said files.old.items
        ++ level_files (description_said description.now) (title_said given.now) (subject_of level.now)) }
    ensures read { OnOk result
        (AreRead (description_said description.now) (title_said given.now) (subject_of level.now)) }
    ensures fault { IfErr result IsOfPages }
{
    put(files, manual_file(alloc, room, given, description, level)?)?;
    put(files, markdown_file(alloc, room, description, level)?)?;
    Ok(())
}

fn put<A: Allocator>(files: &mut Vec<PageFile<A>, A>, file: PageFile<A>) -> Result<(), AllocError>
    ensures { OnOk result (map file_said files.new.items
        ≡ map file_said files.old.items ++ file_said file ∷ []) }
{
    files.push(file)?;
    Ok(())
}

// The manual page of a level, made in an arena of its own.
fn manual_file<'a, A: Allocator + Copy>(
    alloc: A,
    room: Room,
    given: &TitleGiven<'_>,
    description: &Description<'a>,
    level: &LevelSubject<'_, 'a, Global>,
) -> Result<PageFile<A>, Fault>
    ensures exact { IfOk result (λ file. file_said file
        ≡ manual_file (description_said description.now) (title_said given.now) (subject_of level.now)) }
    ensures read { IfOk result (λ file. IsManualOf (description_said description.now) Alone (title_said given.now)
        (subject_of level.now) (file_said file).page) }
    ensures fault { IfErr result IsOfPages }
{
    let arena = room.arena();
    manual_file_in(alloc, &arena, given, description, *level)
}

fn manual_file_in<'p, 'a: 'p, A: Allocator + Copy>(
    alloc: A,
    arena: &'p Bump,
    given: &TitleGiven<'_>,
    description: &'p Description<'a>,
    level: LevelSubject<'p, 'a, Global>,
) -> Result<PageFile<A>, Fault>
    ensures exact { IfOk result (λ file. file_said file
        ≡ manual_file (description_said description.now) (title_said given.now) (subject_of level.entry)) }
    ensures read { IfOk result (λ file. IsManualOf (description_said description.now) Alone (title_said given.now)
        (subject_of level.entry) (file_said file).page) }
    ensures fault { IfErr result IsOfPages }
{
    let page = manual_page_of(alloc, arena, description, Depth::Alone, *given, level)?;
    let mut name = String::from_str(alloc, page_name(arena, level.names)?)?;
    name.push('.')?;
    name.push_str(description.section)?;
    Ok(PageFile { name, page })
}

// The page of a level in markdown, made in an arena of its own.
fn markdown_file<'a, A: Allocator + Copy>(
    alloc: A,
    room: Room,
    description: &Description<'a>,
    level: &LevelSubject<'_, 'a, Global>,
) -> Result<PageFile<A>, Fault>
    ensures exact { IfOk result (λ file.
        file_said file ≡ markdown_file (description_said description.now) (subject_of level.now)) }
    ensures read { IfOk result (λ file. IsMarkdownOf Alone (description_said description.now).words
        (subject_of level.now) (file_said file).page) }
    ensures fault { IfErr result IsOfPages }
{
    let arena = room.arena();
    markdown_file_in(alloc, &arena, description, *level)
}

fn markdown_file_in<'p, 'a: 'p, A: Allocator + Copy>(
    alloc: A,
    arena: &'p Bump,
    description: &'p Description<'a>,
    level: LevelSubject<'p, 'a, Global>,
) -> Result<PageFile<A>, Fault>
    ensures exact { IfOk result (λ file.
        file_said file ≡ markdown_file (description_said description.now) (subject_of level.entry)) }
    ensures read { IfOk result (λ file. IsMarkdownOf Alone (description_said description.now).words
        (subject_of level.entry) (file_said file).page) }
    ensures fault { IfErr result IsOfPages }
{
    let page = markdown_page_of(alloc, arena, &description.words, Depth::Alone, level)?;
    let mut name = String::from_str(alloc, page_name(arena, level.names)?)?;
    name.push_str(".md")?;
    Ok(PageFile { name, page })
}

// The complete HTML page, made in an arena of its own.
fn web_file<A: Allocator + Copy>(
    alloc: A,
    room: Room,
    given: TitleGiven<'_>,
    description: &Description<'_>,
) -> Result<PageFile<A>, Fault>
    ensures ok { IfOk result (λ file.
        IsWebFile (description_said description.now) (title_said given.entry) (file_said file)) }
    ensures fault { IfErr result IsOfPages }
{
    let arena = room.arena();
    web_file_in(alloc, &arena, given, description)
}

fn web_file_in<'p, 'a: 'p, A: Allocator + Copy>(
    alloc: A,
    arena: &'p Bump,
    given: TitleGiven<'_>,
    description: &'p Description<'a>,
) -> Result<PageFile<A>, Fault>
    ensures ok { IfOk result (λ file.
        IsWebFile (description_said description.now) (title_said given.entry) (file_said file)) }
    ensures fault { IfErr result IsOfPages }
{
    let level = application(arena, description)?;
    let page = html_page_of(alloc, arena, description, Extent::Page, given, level)?;
    let mut name = String::from_str(alloc, description.name)?;
    name.push_str(".html")?;
    Ok(PageFile { name, page })
}
