/// One step of a path through a document.
#[derive(Clone, Copy, Debug, PartialEq, Eq)]
pub enum Step<'a> {
    /// To the value at a key of a table.
    Key(&'a str),
    /// To an element of an array, counted from 0.
    Index(usize),
}
