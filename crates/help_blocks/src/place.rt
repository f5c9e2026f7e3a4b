//! Where a line stands: what is known of the lines above it.

ghost use Rattle.std.specs.Prelude.{◌≡◌, []};
ghost use Rattle.help_blocks.specs.Steps as steps;
ghost use Rattle.help_blocks.specs.Above as above;

use crate::shape::Shape;
use crate::subject::Subject;

/// What a block is.
#[derive(Clone, Copy, PartialEq, Eq, Debug)]
pub enum Kind {
    /// The usage: lines that stand below its first one are indented deeper.
    Usage,
    /// A line above other lines.
    Title,
    /// An option with its help.
    Option,
    /// A command with its help.
    Command,
    /// A positional value with its help.
    Value,
    /// A paragraph.
    Text,
    /// A paragraph whose lines are kept: columns, examples.
    Code,
}

/// The block that a line would go on with: its kind, and of its first line the indent, whether it is a list of
/// commands in braces, and whether it has options as they are typed.
#[derive(Clone, Copy)]
pub struct Open {
    pub kind: Kind,
    pub indent: usize,
    pub is_choice: bool,
    pub is_typed: bool,
}

/// What is known of the lines above.
#[derive(Clone, Copy)]
pub struct Place {
    pub block: Option<Open>,
    pub title: Option<usize>,
    pub subject: Subject,
    pub help: Option<usize>,
    pub is_after_blank: bool,
}

fn opened(kind: Kind, shape: Shape) -> Open
    ensures { result ≡ above.opened kind shape }
{
    Open {
        kind,
        indent: shape.indent,
        is_choice: matches!(kind, Kind::Value) && shape.is_choice,
        is_typed: shape.is_typed,
    }
}

fn is_title(begun: Option<Kind>) -> bool
    ensures { result ≡ above.is_title begun }
{
    matches!(begun, Some(Kind::Title))
}

fn says(subject: Subject) -> bool
    ensures { result ≡ above.says subject }
{
    !matches!(subject, Subject::Unsaid)
}

impl Place {
    /// No line is above.
    pub fn start() -> Self
        ensures { result ≡ above.place_of [] }
    {
        Place {
            block: None,
            title: None,
            subject: Subject::Unsaid,
            help: None,
            is_after_blank: true,
        }
    }

    fn title_after(self, shape: Shape, begun: Option<Kind>) -> Option<usize>
        ensures { result ≡ steps.title_after self.title shape begun }
    {
        if is_title(begun) {
            Some(shape.indent)
        } else {
            self.title
        }
    }

    fn subject_after(self, shape: Shape, begun: Option<Kind>) -> Subject
        ensures { result ≡ steps.subject_after self.subject shape begun }
    {
        if is_title(begun) && says(shape.subject) {
            shape.subject
        } else {
            self.subject
        }
    }

    fn help_after(self, shape: Shape) -> Option<usize>
        ensures { result ≡ steps.help_after self.help shape }
    {
        if shape.is_empty {
            self.help
        } else {
            Some(shape.indent)
        }
    }

    /// The place below a further line.
    pub fn after(self, shape: Shape, begun: Option<Kind>) -> Self
        ensures { result ≡ steps.after self shape begun }
    {
        let title = self.title_after(shape, begun);
        let subject = self.subject_after(shape, begun);
        let is_after_blank = shape.is_empty;
        match begun {
            Some(kind) => Place {
                block: Some(opened(kind, shape)),
                title,
                subject,
                help: None,
                is_after_blank,
            },
            None => Place {
                block: self.block,
                title,
                subject,
                help: self.help_after(shape),
                is_after_blank,
            },
        }
    }
}
