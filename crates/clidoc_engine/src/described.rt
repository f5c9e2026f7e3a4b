//! Why a text gives no description, and what a description would better say, line by line.

ghost use Rattle.std.specs.Prelude.{◌≡◌, ◌==◌, IfOk, length};
ghost use Rattle.description.specs.View.{description_said};
ghost use Rattle.description_hints.specs.Hints.{warnings};
ghost use Rattle.clidoc_engine.specs.Inputs.{TellsTheFirst, count_of};

use crate::echoed::Echoed;
use crate::newlines::without_returns;
use crate::notation::Notation;
use crate::places::{Place, TOP, place_after};
use bumpalo::Bump;
use description::Description;
use description_hints::{Warning, warnings_of};
use description_toml::{Fault, Faults};
use keyed::Step;
use std::alloc::{AllocError, Global};
use std::fmt;
use std::fmt::Display;

// How many warnings are reported.
const MOST_TOLD: usize = 20;

/// Why a text gives no description: its faults. Or what a description would better say: its warnings.
#[derive(Debug, Drop)]
pub struct Lines {
    /// The first of them, by their places.
    pub told: Vec<Line>,
    /// How many more there are.
    pub more: usize,
}

/// A fault of a description, or a warning.
#[derive(Debug, Drop)]
pub struct Line {
    /// Where it stands.
    pub place: Place,
    /// The table, and what is wrong in it.
    pub words: String,
    /// Where a name stood first that stands here again.
    pub earlier: Option<Place>,
}

/// What lines are.
#[derive(Clone, Copy, Debug, PartialEq, Eq)]
pub(crate) enum Severity {
    Fault,
    Warning,
}

impl Severity {
    // What stands before the words of a line.
    fn mark(self) -> &'static str {
        match self {
            Severity::Fault => "",
            Severity::Warning => "warning: ",
        }
    }

    fn name(self) -> &'static str {
        match self {
            Severity::Fault => "fault",
            Severity::Warning => "warning",
        }
    }
}

/// Warnings, shown as the lines that the program writes on standard error, with a newline between two.
#[derive(Clone, Copy)]
pub struct Warned<'l> {
    warnings: &'l Lines,
    file: &'l str,
}

impl Display for Warned<'_> {
    fn fmt<W: fmt::Write>(&self, f: &mut fmt::Formatter<W>) -> fmt::Result {
        self.warnings
            .write_in(f, Echoed(self.file), Severity::Warning)
    }
}

impl Lines {
    /// Whether there is none, reported or only counted.
    pub fn is_empty(&self) -> bool
        ensures { result ≡ (count_of self.now == 0) }
    {
        self.told.is_empty() && self.more == 0
    }

    /// The lines about warnings about the description in this file.
    pub fn warned<'l>(&'l self, file: &'l str) -> Warned<'l> {
        Warned {
            warnings: self,
            file,
        }
    }

    /// Writes a line for each, each with the file before it.
    pub(crate) fn write_in<W: fmt::Write>(
        &self,
        f: &mut fmt::Formatter<W>,
        file: Echoed<'_>,
        severity: Severity,
    ) -> fmt::Result {
        let (mark, name) = (severity.mark(), severity.name());
        for (index, line) in self.told.iter().enumerate() {
            if index > 0 {
                f.write_str("\n")?;
            }
            write!(f, "{file}:{}: {mark}{}", line.place, line.words.as_str())?;
            if let Some(earlier) = line.earlier {
                write!(f, ", at line {}", earlier.line)?;
            }
        }
        match self.more {
            0 => Ok(()),
            1 => write!(f, "\n{file}: and 1 more {name}"),
            more => write!(f, "\n{file}: and {more} more {name}s"),
        }
    }
}

/// The faults of the table of the text, each at its place there. `AllocError` where an allocation failed.
pub(crate) fn lines_of(
    global: Global,
    notation: Notation,
    text: &str,
    faults: &Faults<'_>,
) -> Result<Lines, AllocError> {
    let mut told = Vec::new(global);
    for fault in &faults.told {
        told.push(line_of(global, notation, text, fault)?)?;
    }
    sort(&mut told)?;
    Ok(Lines {
        told,
        more: faults.more,
    })
}

// Sorts them by their places. Those of one place stay in their order.
fn sort(told: &mut Vec<Line>) -> Result<(), AllocError>
    ensures { length told.new.items ≡ length told.old.items }
{
    told.sort_by_key(|line: &Line| (line.place.line, line.place.column))
}

fn line_of(
    global: Global,
    notation: Notation,
    text: &str,
    fault: &Fault<'_>,
) -> Result<Line, AllocError> {
    Ok(Line {
        place: place_around(global, notation, text, &fault.path)?,
        words: String::from_str(global, fault.words.as_str())?,
        earlier: place_of(global, notation, text, &fault.earlier)?,
    })
}

/// What the description would better say, each at its place in the text that gives it, in which lines may end with a
/// carriage return too. `AllocError` where an allocation failed.
pub(crate) fn warnings_in(
    global: Global,
    notation: Notation,
    text: &str,
    description: &Description<'_>,
) -> Result<Lines, AllocError>
    ensures each { IfOk result (λ lines. count_of lines ≡ length (warnings (description_said description.now))) }
    ensures told { IfOk result TellsTheFirst }
{
    let arena = Bump::new(global);
    let found = warnings_of(&arena, global, description)?;
    let plain = without_returns(global, text)?;
    first_lines(global, notation, &plain, &found)
}

// The lines of warnings. The first of the list are reported, in the order of their places.
fn first_lines(
    global: Global,
    notation: Notation,
    text: &str,
    warnings: &[Warning<'_>],
) -> Result<Lines, AllocError>
    ensures each { IfOk result (λ lines. count_of lines ≡ length warnings.now) }
    ensures told { IfOk result TellsTheFirst }
{
    let (first, others) = warnings.split_at(warnings.len().min(MOST_TOLD));
    let mut told = warned_lines(global, notation, text, first)?;
    sort(&mut told)?;
    Ok(Lines {
        told,
        more: others.len(),
    })
}

// A line for each warning.
fn warned_lines(
    global: Global,
    notation: Notation,
    text: &str,
    warnings: &[Warning<'_>],
) -> Result<Vec<Line>, AllocError>
    ensures { IfOk result (λ told. length told.items ≡ length warnings.now) }
{
    let mut told = Vec::new(global);
    for warning in warnings {
        told.push(warned_line(global, notation, text, warning)?)?;
    }
    Ok(told)
}

fn warned_line(
    global: Global,
    notation: Notation,
    text: &str,
    warning: &Warning<'_>,
) -> Result<Line, AllocError> {
    let earlier = match warning.first() {
        Some(first) => place_of(global, notation, text, first)?,
        None => None,
    };
    Ok(Line {
        place: place_around(global, notation, text, warning.path)?,
        words: format!(in global; "{}", warning.hint)?,
        earlier,
    })
}

// The place of what the path leads to, or else of the nearest around it.
fn place_around(
    global: Global,
    notation: Notation,
    text: &str,
    path: &[Step<'_>],
) -> Result<Place, AllocError> {
    for left_out in 0..path.len() {
        let (around, _) = path.split_at(path.len() - left_out);
        if let Some(place) = place_of(global, notation, text, around)? {
            return Ok(place);
        }
    }
    Ok(TOP)
}

fn place_of(
    global: Global,
    notation: Notation,
    text: &str,
    path: &[Step<'_>],
) -> Result<Option<Place>, AllocError> {
    match text_before(global, notation, text, path)? {
        Some(before) => Ok(Some(place_after(before.as_bytes()))),
        None => Ok(None),
    }
}

// The text before what brings the path into it.
fn text_before<'t>(
    global: Global,
    notation: Notation,
    text: &'t str,
    path: &[Step<'_>],
) -> Result<Option<&'t str>, AllocError> {
    match notation {
        Notation::Toml => keyed::text_before(global, text, path),
        Notation::Json => description_json::text_before(global, text, path),
    }
}
