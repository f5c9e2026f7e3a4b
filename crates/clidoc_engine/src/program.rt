//! A whole run of the program, over any runtime.

ghost use Rattle.watched.specs.Watched.{IsUnmarked};

use crate::all::make_files;
use crate::bounded::Bounded;
use crate::described::Lines;
use crate::drafted::draft_of;
use crate::echoed::Echoed;
use crate::engine::{check_description, page_of, run_description};
use crate::faults::Fault;
use crate::files::{PageFile, check_names};
use crate::meant::Named;
use crate::own::{DESCRIPTION, VERSION};
use crate::pages::needs_advice;
use crate::reading::WordFault;
use crate::utf8::text_from;
use crate::words::{
    Choice, Console, ConsoleForm, HelpGiven, Page, TitleGiven, choose, terminal_width,
};
use crate::wrong::line_of;
use folder::{enter, tell_left, tell_written, write_files};
use inputs::Opened;
use limits::{Limit, Limits};
use page_model::permitted::are_permitted;
use std::alloc::{AllocError, Allocator, Global};
use std::env::VarError;
use std::fmt::Display;
use std::fs::OpenFile;
use std::io::{ErrorKind, Read};
use std::process::ExitCode;
use std::random::RandomSource;
use std::rt::{Env, Files};
use std::{env, fmt, fs, io};
use thiserror::Error;
use watched::Watched;
pub use watched::program::WRONG_WORDS;
use watched::program::{expecting, garbled_word, status_of, with_words};

mod folder;
mod inputs;
mod limits;

/// The name of standard input.
const STANDARD_INPUT: &str = "-";

/// What is said of a help text without a name: most often the program printed it on standard error.
const NO_NAMES: &str = "clidoc: no options or commands were found in HELP; \
    if the program prints its help on standard error, add 2>&1";

/// Said after the faults of FILE if a line of HELP begins as the name of a description does.
const HELP_IS_FIRST: &str =
    "clidoc: HELP looks like a description; HELP comes first: against HELP FILE";

/// Why a run fails.
#[derive(Debug, Drop, Error)]
pub(crate) enum Failure {
    /// These lines say why.
    #[error("{0}")]
    Told(String),
    /// A file, or a folder, cannot be opened.
    #[error("clidoc: can't open {}: {reason}", Echoed(name.as_str()))]
    NotOpened { name: String, reason: Reason },
    /// What is to be read is a folder.
    #[error("clidoc: {} is a folder", Echoed(.0.as_str()))]
    Folder(String),
    /// What is to be written into is none.
    #[error("clidoc: {} is no folder", Echoed(.0.as_str()))]
    NoFolder(String),
    /// A file cannot be written.
    #[error("clidoc: can't write {}: {reason}", Echoed(name.as_str()))]
    NotWritten { name: String, reason: Reason },
    /// Standard output takes nothing.
    #[error("clidoc: write failed")]
    Write,
    /// An allocation failed, or the arguments could not be read.
    #[error("clidoc: no memory")]
    Memory,
}

/// Why the system refuses a call.
#[derive(Clone, Copy, Debug)]
pub(crate) enum Reason {
    NoFile,
    NoFolder,
    Other(ErrorKind),
}

impl Display for Reason {
    fn fmt<W: fmt::Write>(&self, f: &mut fmt::Formatter<W>) -> fmt::Result {
        match self {
            Reason::NoFile => f.write_str("no such file"),
            Reason::NoFolder => f.write_str("no such folder"),
            Reason::Other(kind) => write!(f, "{kind}"),
        }
    }
}

impl From<AllocError> for Failure {
    fn from(_error: AllocError) -> Failure {
        Failure::Memory
    }
}

/// Does what the words after the program's name choose, and returns the status: success, `WRONG_WORDS` where they
/// choose nothing, and failure where the run failed. On standard error it says why it was not a success; where
/// differences are found, this is one line exactly where `needs_advice` says so. The words, what is read and the pages
/// are kept in the runtime's memory, and all else in `global`, also a help text that is compared. No clause can say
/// what a runtime reads and prints.
pub fn run<R: Alloc + Env + Files + Input + Print + Eprint + RandomSource>(
    rt: &R,
    global: Global,
) -> ExitCode
where
    R::A: Copy,
{
    let outcome = match with_words(rt, |words| follow(rt, global, words)) {
        Ok(outcome) => outcome,
        Err(error) => unread(rt, global, error),
    };
    status_of(rt, outcome)
}

// Says why the words could not be read.
fn unread<R: Alloc + Env + Eprint>(
    rt: &R,
    global: Global,
    error: io::Error,
) -> Result<ExitCode, Failure> {
    if error.kind() == ErrorKind::InvalidData {
        if let Some(index) = garbled_word(rt) {
            let line = format!(in global; "clidoc: word {index} is not UTF-8")?;
            return Ok(expecting(rt, &line));
        }
    }
    Err(Failure::Memory)
}

fn follow<R: Alloc + Env + Files + Input + Print + Eprint + RandomSource>(
    rt: &R,
    global: Global,
    words: &[&str],
) -> Result<ExitCode, Failure>
where
    R::A: Copy,
{
    let terminal = terminal(rt)?;
    if words.is_empty() {
        return usage(rt, global, terminal);
    }
    match choose(global, terminal, words) {
        Ok(choice) => perform(rt, global, terminal, &choice),
        Err(fault) => refuse(rt, global, &fault),
    }
}

// The columns of the terminal. What is not UTF-8 says none.
fn terminal<R: Alloc + Env>(rt: &R) -> Result<usize, Failure> {
    match env::var(rt, "COLUMNS") {
        Ok(said) => Ok(terminal_width(Some(said.as_str()))),
        Err(VarError::OutOfMemory) => Err(Failure::Memory),
        Err(_) => Ok(terminal_width(None)),
    }
}

// Says how it is used, where there are no words.
fn usage<R: Alloc + Eprint>(rt: &R, global: Global, terminal: usize) -> Result<ExitCode, Failure> {
    let page = own_page(global, ConsoleForm::Usage, terminal);
    let room = Limits::USUAL.room(global);
    let line = page_of(global, room, &page, STANDARD_INPUT, DESCRIPTION);
    drop(page);
    match line {
        Ok(line) => Ok(expecting(rt, line.trim_end())),
        Err(fault) => Err(told(global, &fault, STANDARD_INPUT)),
    }
}

// Says why the words choose nothing.
fn refuse<R: Alloc + Eprint>(
    rt: &R,
    global: Global,
    fault: &WordFault<'_>,
) -> Result<ExitCode, Failure> {
    if let WordFault::Refused(_) = fault {
        return Err(Failure::Memory);
    }
    let line = line_of(global, fault)?;
    Ok(expecting(rt, &line))
}

fn perform<R: Alloc + Env + Files + Input + Print + Eprint + RandomSource>(
    rt: &R,
    global: Global,
    terminal: usize,
    choice: &Choice<'_, Global>,
) -> Result<ExitCode, Failure>
where
    R::A: Copy,
{
    match choice {
        Choice::Page(page, file) => drop(write_page_of(rt, global, page, *file)?),
        Choice::Check { strict, file } => check_file(rt, global, *strict, *file)?,
        Choice::All {
            folder,
            title,
            file,
        } => write_all_of(rt, global, (*folder, *title), *file)?,
        Choice::Draft { name, file } => write_draft_of(rt, global, *name, *file)?,
        Choice::Against {
            help,
            commands,
            file,
        } => return compare(rt, global, (*help, commands), *file),
        Choice::Help => write_help(rt, global, terminal)?,
        Choice::Version => write_version(rt)?,
    }
    Ok(ExitCode::SUCCESS)
}

// Writes what the program says of itself.
fn write_help<R: Alloc + Print>(rt: &R, global: Global, terminal: usize) -> Result<(), Failure>
where
    R::A: Copy,
{
    let page = own_page(global, ConsoleForm::Full, terminal);
    let input = (STANDARD_INPUT, DESCRIPTION.as_bytes());
    let written = write_page(rt, global, Limits::USUAL, &page, input);
    drop(page);
    written?;
    Ok(())
}

// Writes the page, and answers how many bytes it has.
fn write_page_of<R: Alloc + Env + Files + Input + Print>(
    rt: &R,
    global: Global,
    page: &Page<'_, Global>,
    file: Option<&str>,
) -> Result<usize, Failure>
where
    R::A: Copy,
{
    if let Page::Html { title, .. } | Page::Man { title, .. } = page {
        check_given(global, *title)?;
    }
    let limits = Limits::said(rt, global)?;
    write_page(rt, global, limits, page, input(rt, global, file)?)
}

// ---- help texts

// Writes the names that either the help text or the description has alone. If there are any, that is a failure.
fn compare<R: Alloc + Env + Files + Input + Print + Eprint>(
    rt: &R,
    global: Global,
    (help, commands): (&str, &[&str]),
    file: Option<&str>,
) -> Result<ExitCode, Failure>
where
    R::A: Copy,
{
    if named(Some(help)).is_none() && named(file).is_none() {
        let line = "clidoc: HELP and FILE are both standard input";
        return Ok(expecting(rt, line));
    }
    let printed = help_text(rt, global, help)?;
    let is_swapped = has_name_key(&printed);
    let page = Page::Differences {
        help: HelpGiven {
            printed,
            help_name: name_of(global, named(Some(help)))?,
            description_name: name_of(global, named(file))?,
        },
        commands: Vec::from_slice(global, commands)?,
    };
    let compared = write_differences(rt, global, &page, file);
    drop(page);
    match compared {
        Err(Failure::Told(lines)) if is_swapped => {
            Err(Failure::Told(format!(in global; "{lines}\n{HELP_IS_FIRST}")?))
        }
        compared => compared,
    }
}

// Whether a line begins as the name of a description does.
fn has_name_key(text: &str) -> bool {
    text.lines().any(|line| {
        line.strip_prefix("name")
            .is_some_and(|rest| rest.trim_start().starts_with('='))
    })
}

// Writes them, and says on standard error where the help text has no name at all.
fn write_differences<R: Alloc + Env + Files + Input + Print + Eprint>(
    rt: &R,
    global: Global,
    page: &Page<'_, Global>,
    file: Option<&str>,
) -> Result<ExitCode, Failure>
where
    R::A: Copy,
{
    let written = write_page_of(rt, global, page, file)?;
    if written == 0 {
        return Ok(ExitCode::SUCCESS);
    }
    if needs_advice(global, page, written)? {
        let _ = eprintln!(rt; "{NO_NAMES}");
    }
    Ok(ExitCode::FAILURE)
}

// What a file is called in a line.
fn name_of(global: Global, file: Option<&str>) -> Result<String, AllocError> {
    match file {
        Some(file) => format!(in global; "{}", Echoed(file)),
        None => String::from_str(global, "standard input"),
    }
}

// All that stands in the file.
fn help_text<R: Alloc + Env + Files + Input>(
    rt: &R,
    global: Global,
    file: &str,
) -> Result<String, Failure> {
    let limits = Limits::said(rt, global)?;
    read_text(global, limits, input(rt, global, Some(file))?)
}

fn read_text<S: Read + Drop>(
    global: Global,
    limits: Limits,
    (file, input): (&str, S),
) -> Result<String, Failure> {
    let mut reader = bounded(input, limits.input);
    let outcome = text_from(global, &mut reader);
    within(global, limits.input, outcome, file, reader)
}

fn write_draft_of<R: Alloc + Env + Files + Input + Print>(
    rt: &R,
    global: Global,
    name: Option<&str>,
    file: Option<&str>,
) -> Result<(), Failure>
where
    R::A: Copy,
{
    let limits = Limits::said(rt, global)?;
    write_draft(rt, global, limits, name, input(rt, global, file)?)
}

fn write_draft<R: Alloc + Print, S: Read + Drop>(
    rt: &R,
    global: Global,
    limits: Limits,
    name: Option<&str>,
    (file, input): (&str, S),
) -> Result<(), Failure>
where
    R::A: Copy,
{
    let mut reader = bounded(input, limits.input);
    let outcome = draft_of(rt.alloc(), name, &mut reader);
    match within(global, limits.input, outcome, file, reader)? {
        Some(text) => write_text(rt, text.as_str()),
        None => Err(Failure::Told(nameless(global, name, file)?)),
    }
}

// Why a draft has no name.
fn nameless(global: Global, name: Option<&str>, file: &str) -> Result<String, AllocError> {
    match name {
        None => format!(in global;
            "{}: no usage line names the program; give the name with --name NAME",
            Echoed(file)
        ),
        Some(name) => format!(in global;
            "clidoc: {} may not be the name of a program",
            Named(name)
        ),
    }
}

// ---- judging

fn check_file<R: Alloc + Env + Files + Input + Eprint>(
    rt: &R,
    global: Global,
    strict: bool,
    file: Option<&str>,
) -> Result<(), Failure>
where
    R::A: Copy,
{
    let limits = Limits::said(rt, global)?;
    check(rt, global, limits, strict, input(rt, global, file)?)
}

fn write_all_of<R: Alloc + Env + Files + Input + Eprint + RandomSource>(
    rt: &R,
    global: Global,
    place: (&str, TitleGiven<'_>),
    file: Option<&str>,
) -> Result<(), Failure>
where
    R::A: Copy,
{
    check_given(global, place.1)?;
    let limits = Limits::said(rt, global)?;
    write_all(rt, global, limits, place, input(rt, global, file)?)
}

// Says which of the words that are given no page may have.
fn check_given(global: Global, given: TitleGiven<'_>) -> Result<(), Failure> {
    check_word(global, "--date", given.date)?;
    check_word(global, "--vendor", given.vendor)
}

fn check_word(global: Global, option: &str, given: Option<&str>) -> Result<(), Failure> {
    match given {
        Some(word) if !are_permitted(word) => {
            let word = Named(word);
            let line = format!(in global;
                "clidoc: no page: {option} {word} holds a control character or a noncharacter"
            )?;
            Err(Failure::Told(line))
        }
        _ => Ok(()),
    }
}

// The file, where it is none of the names of standard input.
fn named(file: Option<&str>) -> Option<&str> {
    match file {
        None | Some(STANDARD_INPUT) => None,
        named => named,
    }
}

// What is to be read, with the name by which lines call it.
fn input<'f, R: Files + Input>(
    rt: &R,
    global: Global,
    file: Option<&'f str>,
) -> Result<(&'f str, Opened<R::Reader, R::File>), Failure> {
    match named(file) {
        None => Ok((STANDARD_INPUT, Opened::Standard(rt.reader()))),
        Some(file) => Ok((file, Opened::File(opened(rt, global, file)?))),
    }
}

fn opened<R: Files>(rt: &R, global: Global, file: &str) -> Result<R::File, Failure> {
    let name = String::from_str(global, file)?;
    match fs::open(rt, file) {
        Ok(opened) if is_folder(&opened) => {
            drop(opened);
            Err(Failure::Folder(name))
        }
        Ok(opened) => Ok(opened),
        Err(error) => Err(Failure::NotOpened {
            name,
            reason: reason_of(error),
        }),
    }
}

fn is_folder<F: OpenFile>(file: &F) -> bool {
    match file.metadata() {
        Ok(found) => found.is_dir(),
        Err(_) => false,
    }
}

// Why a file is not opened.
fn reason_of(error: io::Error) -> Reason {
    match error.kind() {
        ErrorKind::NotFound => Reason::NoFile,
        kind => Reason::Other(kind),
    }
}

fn write_page<R: Alloc + Print, S: Read + Drop>(
    rt: &R,
    global: Global,
    limits: Limits,
    page: &Page<'_, Global>,
    (file, input): (&str, S),
) -> Result<usize, Failure>
where
    R::A: Copy,
{
    let texts = limits.texts(rt.alloc());
    let room = limits.room(global);
    let mut reader = bounded(input, limits.input);
    let mut writer = bounded(io::writer(rt), limits.output);
    let outcome = run_description(&texts, room, page, file, &mut reader, &mut writer);
    let writer = writer.into_inner();
    if writer.is_over() {
        drop(outcome);
        return Err(too_much(global, "the page is", limits.output));
    }
    if matches!(outcome, Err(Fault::Memory)) && limits.have_memory(rt.alloc(), global, &texts) {
        drop(outcome);
        return Err(too_much(global, "the page with what it is made of is", limits.output));
    }
    within(global, limits.input, outcome, file, reader)?;
    Ok(writer.moved())
}

// An end of no more bytes than this.
fn bounded<E>(end: E, limit: Limit) -> Watched<Bounded<E>>
    ensures { IsUnmarked result }
{
    Watched::new(Bounded::new(end, limit.bytes()))
}

// More is to be written than may be.
fn too_much(global: Global, what: &str, limit: Limit) -> Failure {
    match format!(in global; "clidoc: {what} {limit}") {
        Ok(line) => Failure::Told(line),
        Err(AllocError) => Failure::Memory,
    }
}

// What a run over such a reader made, of a file of this name, or why it made nothing.
fn within<T: Drop, S: Drop>(
    global: Global,
    limit: Limit,
    outcome: Result<T, Fault>,
    file: &str,
    reader: Watched<Bounded<S>>,
) -> Result<T, Failure> {
    let reader = reader.into_inner();
    if reader.is_over() {
        drop(outcome);
        let line = format!(in global; "{}: the input is {limit}", Echoed(file))?;
        return Err(Failure::Told(line));
    }
    let is_empty = reader.moved() == 0;
    match outcome {
        Ok(made) => Ok(made),
        Err(Fault::NotDescription(_) | Fault::NotJson { .. }) if is_empty => {
            Err(Failure::Told(format!(in global; "{}: the input is empty", Echoed(file))?))
        }
        Err(fault) => Err(told(global, &fault, file)),
    }
}

// The lines about a fault of a file.
fn told(global: Global, fault: &Fault, file: &str) -> Failure {
    match format!(in global; "{}", fault.told(file)) {
        Ok(lines) => Failure::Told(lines),
        Err(AllocError) => Failure::Memory,
    }
}

fn check<R: Alloc + Eprint, S: Read + Drop>(
    rt: &R,
    global: Global,
    limits: Limits,
    strict: bool,
    (file, input): (&str, S),
) -> Result<(), Failure>
where
    R::A: Copy,
{
    let mut reader = bounded(input, limits.input);
    let outcome = check_description(rt.alloc(), global, file, &mut reader);
    let warnings = within(global, limits.input, outcome, file, reader)?;
    warn(rt, global, strict, file, &warnings)
}

// Says what is warned of. Where it is strict, that is a failure.
fn warn<R: Eprint>(
    rt: &R,
    global: Global,
    strict: bool,
    file: &str,
    warnings: &Lines,
) -> Result<(), Failure> {
    if warnings.is_empty() {
        return Ok(());
    }
    let lines = format!(in global; "{}", warnings.warned(file))?;
    if strict {
        return Err(Failure::Told(lines));
    }
    let _ = eprintln!(rt; "{lines}");
    Ok(())
}

// Writes all pages into the folder, once all of them are made, and says how many they are, and which leads to all.
fn write_all<R: Alloc + Env + Files + Eprint + RandomSource, S: Read + Drop>(
    rt: &R,
    global: Global,
    limits: Limits,
    (folder, given): (&str, TitleGiven<'_>),
    input: (&str, S),
) -> Result<(), Failure>
where
    R::A: Copy,
{
    enter(rt, global, folder)?;
    let texts = limits.texts(rt.alloc());
    let ended = write_made(rt, global, limits, &texts, (folder, given), input);
    if matches!(ended, Err(Failure::Memory)) && limits.have_memory(rt.alloc(), global, &texts) {
        drop(ended);
        let what = "the pages with what they are made of are";
        return Err(too_much(global, what, limits.output));
    }
    ended
}

// Makes the files in memory of their own, and writes them.
fn write_made<R: Alloc + Files + Eprint + RandomSource, A: Allocator + Copy, S: Read + Drop>(
    rt: &R,
    global: Global,
    limits: Limits,
    texts: A,
    (folder, given): (&str, TitleGiven<'_>),
    (file, input): (&str, S),
) -> Result<(), Failure> {
    let mut reader = bounded(input, limits.input);
    let outcome = make_files(texts, limits.room(global), given, file, &mut reader);
    let files = within(global, limits.input, outcome, file, reader)?;
    if bytes_of(&files) > limits.output.bytes() {
        return Err(too_much(global, "the pages are", limits.output));
    }
    if let Err(fault) = check_names(global, global, &files)? {
        return Err(Failure::Told(format!(in global; "{fault}")?));
    }
    tell_left(rt, folder);
    write_files(rt, global, folder, &files)?;
    tell_written(rt, folder, &files);
    Ok(())
}

// How many bytes the pages have.
fn bytes_of<A: Allocator>(files: &[PageFile<A>]) -> usize {
    let mut bytes = 0usize;
    for file in files {
        bytes = bytes.saturating_add(file.page.len());
    }
    bytes
}

// A page of the program itself.
fn own_page(global: Global, form: ConsoleForm, width: usize) -> Page<'static, Global> {
    Page::Console(Console {
        form,
        commands: Vec::new(global),
        width,
    })
}

fn write_version<R: Print>(rt: &R) -> Result<(), Failure> {
    write_text(rt, VERSION)
}

fn write_text<R: Print>(rt: &R, text: &str) -> Result<(), Failure> {
    let mut writer = Watched::new(io::writer(rt));
    match writer.write_all(text.as_bytes()) {
        Ok(()) => Ok(()),
        Err(_) => Err(Failure::Write),
    }
}
