//! What the bytes of a piece are written as.

pub mod bytes;
pub(crate) mod text;

/// Whether an apostrophe is written as the string `Aq`, which the preamble defines.
#[derive(Clone, Copy, Debug, PartialEq, Eq)]
pub enum Apostrophes {
    /// As `\*(Aq`, which every roff shows as a plain apostrophe.
    Handle,
    /// As it is.
    DontHandle,
}

/// How the bytes of a piece are written.
#[derive(Clone, Copy, Debug, PartialEq, Eq)]
pub enum Escape {
    /// As they are, after a newline unless the output is at a line start.
    UnescapedAtNewline,
    /// As an argument of a control: a blank and a newline as `\ `, a backslash as two.
    Spaces,
    /// As plain text: a backslash before `\` and `-`, and no control where a line starts.
    Special,
    /// As plain text, with a blank for a newline.
    SpecialNoNewline,
    /// As they are.
    Unescaped,
}

/// Two lines that define the string `Aq`: an apostrophe, by its name where roff is groff.
pub const APOSTROPHE_PREABMLE: &str = ".ie \\n(.g .ds Aq \\(aq\n.el .ds Aq '\n";
