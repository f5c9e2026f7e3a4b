//! Why a run of the program fails.

ghost use Rattle.std.specs.Prelude.{◌≡◌};
ghost use Rattle.clidoc_engine.specs.declared.faults.Fault.TheVariants.{Memory};

use crate::causes::Cause;
use crate::described::{Lines, Severity};
use crate::echoed::Echoed;
use crate::meant::{Meant, Named};
use crate::places::Place;
use command_pages::PageError;
use description_json::Why;
use description_toml::words::Brief;
use page_model::PageFault;
use std::alloc::AllocError;
use std::fmt;
use std::fmt::Display;

/// Why a run fails.
#[derive(Debug, Drop)]
pub enum Fault {
    /// What was read is not UTF-8: the place of the first byte that is not part of a character.
    NotUtf8(Place),
    /// The text is not TOML: the place where the error begins, and why.
    NotToml {
        place: Place,
        error: toml::de::Error,
        cause: Cause,
    },
    /// The text gives no table as JSON: the place of the first fault, and why.
    NotJson {
        place: Place,
        why: Why,
    },
    /// The table is not a description: what is wrong in it.
    NotDescription(Lines),
    /// The page is that of a command, and the description has no such command: its name, and the names of the
    /// commands above it, the application's first, with a blank between two.
    NoCommand {
        name: String,
        path: String,
        meant: Meant,
    },
    /// A word or a text cannot stand in the page: why. Of texts of a description no test found one.
    NoPage(PageError),
    /// A read failed.
    Read,
    /// A write failed, or took nothing.
    Write,
    /// An allocation failed, or the arguments could not be read.
    Memory,
}

impl Fault {
    /// The lines about it where the description stands in this file. A line about a place in the file begins with the
    /// file and the place.
    pub fn told<'f>(&'f self, file: &'f str) -> Told<'f> {
        Told { fault: self, file }
    }
}

/// A fault, shown as the lines that the program writes on standard error, with a newline between two.
#[derive(Clone, Copy)]
pub struct Told<'f> {
    fault: &'f Fault,
    file: &'f str,
}

impl Display for Told<'_> {
    fn fmt<W: fmt::Write>(&self, f: &mut fmt::Formatter<W>) -> fmt::Result {
        let file = Echoed(self.file);
        match self.fault {
            Fault::NotUtf8(place) => write!(f, "{file}:{place}: the text is not UTF-8"),
            Fault::NotToml {
                place,
                error,
                cause,
            } => match cause {
                Cause::Unknown => write!(f, "{file}:{place}: {}", error.message()),
                Cause::Bare => {
                    let words = error.message();
                    write!(f, "{file}:{place}: {words}; a text stands in quotes")
                }
                Cause::Open { place, mark } => write!(f, "{file}:{place}: {mark} is not closed"),
                Cause::Late { header, other } => {
                    let (header, other) = (header.as_str(), other.as_str());
                    let words = error.message();
                    write!(
                        f,
                        "{file}:{place}: {words}; {header} has to stand before {other}"
                    )
                }
            },
            Fault::NotJson { place, why } => write!(f, "{file}:{place}: {why}"),
            Fault::NotDescription(lines) => lines.write_in(f, file, Severity::Fault),
            Fault::NoCommand { name, path, meant } => {
                let (name, path) = (Named(name.as_str()), Brief(path.as_str()));
                write!(f, "clidoc: no command {name} in {path}{meant}")
            }
            Fault::NoPage(error) => write!(f, "clidoc: no page: {error}"),
            Fault::Read => f.write_str("clidoc: read failed"),
            Fault::Write => f.write_str("clidoc: write failed"),
            Fault::Memory => f.write_str("clidoc: no memory"),
        }
    }
}

impl From<AllocError> for Fault {
    ghost from_gives = { λ _ fault. fault ≡ Memory };

    fn from(_error: AllocError) -> Fault {
        Fault::Memory
    }
}

impl From<PageFault> for Fault {
    ghost use Rattle.clidoc_engine.specs.Faults.{fault_of_medium};

    ghost from_gives = { λ error fault. fault ≡ fault_of_medium error };

    fn from(error: PageFault) -> Fault {
        match error {
            PageFault::Refused(_) => Fault::Memory,
            PageFault::Character => Fault::NoPage(PageError::Character),
        }
    }
}

impl From<PageError> for Fault {
    ghost use Rattle.clidoc_engine.specs.Faults.{fault_of_page};

    ghost from_gives = { λ error fault. fault ≡ fault_of_page error };

    fn from(error: PageError) -> Fault {
        match error {
            PageError::Refused(_) => Fault::Memory,
            other => Fault::NoPage(other),
        }
    }
}
