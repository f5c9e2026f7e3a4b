//! Lines that are known beforehand.

use std::fmt;
use std::fmt::{Display, Write};

/// A writer of text that takes this line alone, piece by piece, and refuses all else.
#[derive(Clone, Copy)]
pub struct Line<'a> {
    length: usize,
    left: &'a [u8],
}

impl<'a> Line<'a> {
    pub fn new(line: &'a str) -> Line<'a> {
        Line {
            length: line.len(),
            left: line.as_bytes(),
        }
    }

    /// Whether nothing was written.
    pub fn is_untouched(&self) -> bool {
        self.left.len() == self.length
    }

    /// Whether all of the line was written.
    pub fn is_full(&self) -> bool {
        self.left.is_empty()
    }
}

impl Write for Line<'_> {
    fn write_str(&mut self, piece: &str) -> fmt::Result {
        let Some(left) = self.left.strip_prefix(piece.as_bytes()) else {
            return Err(fmt::Error);
        };
        self.left = left;
        Ok(())
    }
}

/// Whether the value is shown as this line.
pub fn says<D: Display>(value: &D, line: &str) -> bool {
    let mut written = Line::new(line);
    write!(written, "{value}").is_ok() && written.is_full()
}
