//! Why a text is not TOML, where an error of the reader does not say it.

use crate::headers::late_header;
use crate::open::open_at_end;
use crate::places::{Place, place_after};
use std::alloc::{AllocError, Global};

/// Why a text is not TOML, where an error of the reader does not say it.
#[derive(Debug, Drop)]
pub enum Cause {
    Unknown,
    /// The error is at the end of the text or of a line, where this is still open: where it begins, and with what.
    Open { place: Place, mark: &'static str },
    /// The error is a header that has to stand before another.
    Late { header: String, other: String },
    /// The error is something that is not a value, as a text without quotes.
    Bare,
}

/// What else can be said of an error with this message at this place. `AllocError` where an allocation failed.
pub(crate) fn cause_of(
    global: Global,
    text: &str,
    place: usize,
    message: &str,
) -> Result<Cause, AllocError> {
    if text.trim_end().len() <= place {
        return Ok(open_cause(text.as_bytes()));
    }
    if message == "invalid string" && text.as_bytes().get(place) == Some(&b'\n') {
        return Ok(quote_cause(text, place));
    }
    if is_bare(text.as_bytes(), place, message) {
        return Ok(Cause::Bare);
    }
    if message != "duplicate key" {
        return Ok(Cause::Unknown);
    }
    match late_header(text, place) {
        Some((header, other)) => Ok(Cause::Late {
            header: format!(in global; "{header}")?,
            other: format!(in global; "{other}")?,
        }),
        None => Ok(Cause::Unknown),
    }
}

// Whether something else stands where a value is expected.
fn is_bare(text: &[u8], place: usize, message: &str) -> bool {
    message.starts_with("invalid value, expected a string")
        && match text.get(place) {
            None | Some(b' ' | b'\t' | b'\n' | b'#' | b',' | b'=' | b']' | b'}') => false,
            Some(_) => true,
        }
}

// The cause of an error at the end of this line: a string of one line that is open there.
fn quote_cause(text: &str, place: usize) -> Cause {
    match text.split_at_checked(place) {
        Some((before, _)) => match open_cause(before.as_bytes()) {
            Cause::Open { place, mark } if is_of_a_line(mark) => Cause::Open { place, mark },
            _ => Cause::Unknown,
        },
        None => Cause::Unknown,
    }
}

fn is_of_a_line(mark: &str) -> bool {
    mark == "\"" || mark == "'"
}

fn open_cause(text: &[u8]) -> Cause {
    match open_at_end(text) {
        Some(open) => Cause::Open {
            place: place_after(open.before),
            mark: open.mark,
        },
        None => Cause::Unknown,
    }
}
