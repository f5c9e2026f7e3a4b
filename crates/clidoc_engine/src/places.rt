//! Places in a text.

ghost use Rattle.std.specs.Prelude.{◌≡◌};
ghost use Rattle.clidoc_engine.specs.Places.{begins_character, column_after, line_after};

use std::fmt;
use std::fmt::Display;

/// A place in a text, by its line and its column. Both are counted from 1, and a column is a character.
#[derive(Clone, Copy, Debug, PartialEq, Eq)]
pub struct Place {
    pub line: usize,
    pub column: usize,
}

/// The place where a text begins.
pub const TOP: Place = Place { line: 1, column: 1 };

impl Display for Place {
    fn fmt<W: fmt::Write>(&self, f: &mut fmt::Formatter<W>) -> fmt::Result {
        write!(f, "{}:{}", self.line, self.column)
    }
}

/// The place after this front of a text. A character that is cut there counts.
pub fn place_after(front: &[u8]) -> Place
    ensures line { result.line ≡ line_after front.now }
    ensures column { result.column ≡ column_after front.now }
{
    let mut line = 1;
    let mut column = 1;
    for byte in front {
        if *byte == b'\n' {
            line += 1;
            column = 1;
        } else if begins_character(*byte) {
            column += 1;
        }
    }
    Place { line, column }
}

// Whether a character begins with this byte: the others of a character are from 0x80 to 0xBF.
fn begins_character(byte: u8) -> bool
    ensures { result ≡ begins_character byte }
{
    byte < 0x80 || 0xC0 <= byte
}
