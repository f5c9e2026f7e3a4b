//! What stands around the chapters of a page, and how much of it is made.

/// What stands around the levels on a page.
#[derive(Clone, Copy, Debug)]
pub struct Frame<'a> {
    /// The tag of the language of the texts.
    pub language: &'a str,
    /// The title of the links at the top.
    pub contents: &'a str,
    /// The title of a usage.
    pub usage: &'a str,
    /// What stands at the foot: nothing where it has no ink.
    pub foot: &'a str,
}

/// How much of a page is made.
#[derive(Clone, Copy, Debug, PartialEq, Eq)]
pub enum Extent {
    /// The complete page.
    Page,
    /// What stands in its body, to be put into another page.
    Fragment,
}
