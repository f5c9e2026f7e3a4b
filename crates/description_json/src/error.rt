//! Why a text gives no table.
ghost use Rattle.description_json.specs.Steps.{IsMemory};

use std::alloc::AllocError;
use std::fmt;
use std::fmt::Display;
use thiserror::Error;

/// Why a text gives no table.
#[derive(Clone, Copy, Debug, Drop, Error)]
pub enum JsonError<'t> {
    /// An allocation failed, which says nothing of the text.
    #[error("no memory")]
    Memory(AllocError),
    /// The text gives none: where, and why.
    #[error("{}", .0.why)]
    Content(JsonFault<'t>),
}

impl From<AllocError> for JsonError<'_> {
    ghost from_gives = { λ _ error. IsMemory error };

    fn from(error: AllocError) -> Self {
        JsonError::Memory(error)
    }
}

/// What is wrong in a text, and where.
#[derive(Clone, Copy, Debug, Drop)]
pub struct JsonFault<'t> {
    /// The text before the place of the fault.
    pub before: &'t str,
    pub why: Why,
}

/// What is wrong.
#[derive(Clone, Copy, Debug, PartialEq, Eq, Drop)]
pub enum Why {
    /// The text is over, and this, which stands at the place, is still open.
    NotClosed(char),
    /// The text is not an object.
    NoObject,
    /// A key has to stand here.
    NoKey,
    /// A colon has to follow this key.
    NoColon,
    /// A value has to stand here.
    NoValue,
    /// A comma has to stand here, or this closing bracket.
    NoComma(char),
    /// A comma stands before this closing bracket.
    LastComma,
    /// Something follows the object at the top.
    Trailing,
    /// This is not an escape.
    Escape,
    /// This escape is half of a character, and the other half is not beside it.
    Surrogate,
    /// A string holds a control character that is not escaped.
    Control,
    /// The key stands in this object already.
    Twice,
    /// Arrays and objects are nested too deep.
    Deep,
    /// Null is not a value of a table.
    Null,
    /// This number does not fit into 64 bits.
    Number,
    /// The text is not JSON, where no more can be said.
    NoJson,
}

impl Display for Why {
    fn fmt<W: fmt::Write>(&self, f: &mut fmt::Formatter<W>) -> fmt::Result {
        match self {
            Why::NotClosed(mark) => write!(f, "{mark} is not closed"),
            Why::NoObject => f.write_str("not a JSON object; { has to stand here"),
            Why::NoKey => f.write_str("a key in double quotes has to stand here"),
            Why::NoColon => f.write_str("a colon has to follow this key"),
            Why::NoValue => f.write_str("a JSON value has to stand here"),
            Why::NoComma(closing) => write!(f, "a comma or {closing} has to stand here"),
            Why::LastComma => f.write_str("no comma may stand before this bracket"),
            Why::Trailing => f.write_str("nothing may follow the object"),
            Why::Escape => f.write_str("not a JSON escape; write \\\\ for a backslash"),
            Why::Surrogate => f.write_str("half of a surrogate pair, without the other half"),
            Why::Control => {
                f.write_str(
                    "a control character in a string; write \\n for a newline, \\t for a tab",
                )
            }
            Why::Twice => f.write_str("this key is already in the object"),
            Why::Deep => f.write_str("arrays and objects may be nested at most 80 deep"),
            Why::Null => f.write_str("null is no value here; leave the key out"),
            Why::Number => f.write_str("this number does not fit 64 bits"),
            Why::NoJson => f.write_str("not JSON"),
        }
    }
}
