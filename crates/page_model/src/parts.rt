//! The parts of a page. They borrow their texts, and hold each as it is said: white space, marks and letters of all
//! kinds.

use std::alloc::{Allocator, Global};

/// A piece of a line.
#[derive(Clone, Copy, Debug)]
pub enum Inline<'a> {
    /// Plain words.
    Words(&'a str),
    /// What is typed as it stands.
    Literal(&'a str),
    /// A word that stands for a value.
    Value(&'a str),
    /// A link to this address, which is what is shown.
    Link(&'a str),
    /// The page of this name.
    Page(&'a str),
}

/// The pieces of a line, which no line break parts.
pub type Line<'a, A = Global> = Vec<Inline<'a>, A>;

/// What stands by itself in a page or in the body of an entry.
#[derive(Debug, Drop)]
pub enum Block<'a, A: Allocator = Global> {
    /// Lines, with a line break between two.
    Paragraph(Vec<Line<'a, A>, A>),
    /// Lines that are shown as they stand.
    Code(Vec<&'a str, A>),
    /// Items, each a paragraph.
    List(Vec<Vec<Line<'a, A>, A>, A>),
}

/// Where an entry leads.
#[derive(Clone, Copy, Debug)]
pub enum Target<'a> {
    /// To the page of this name.
    Page(&'a str),
    /// To what stands under this title on the same page.
    Heading(&'a str),
}

/// An entry of a list: the ways to write what it is about, and what is said of it.
#[derive(Debug, Drop)]
pub struct Entry<'a, A: Allocator = Global> {
    /// What it is called where others refer to it.
    pub word: &'a str,
    /// Where what it is about is shown, if there is such a place.
    pub target: Option<Target<'a>>,
    pub terms: Vec<Line<'a, A>, A>,
    pub body: Vec<Block<'a, A>, A>,
}

/// One form of a usage: what it begins with, and items that no line breaks.
#[derive(Debug, Drop)]
pub struct Form<'a, A: Allocator = Global> {
    pub name: &'a str,
    pub items: Vec<Line<'a, A>, A>,
}

/// The rank of a heading: that of a page that follows another, of a section, or of a section inside one.
#[derive(Clone, Copy, Debug, PartialEq, Eq)]
pub enum Rank {
    Page,
    Section,
    Subsection,
}

/// A part of a page.
#[derive(Debug, Drop)]
pub enum Part<'a, A: Allocator = Global> {
    Heading(Rank, &'a str),
    Usage(Vec<Form<'a, A>, A>),
    Block(Block<'a, A>),
    Entries(Vec<Entry<'a, A>, A>),
}

/// A level of a command line with those below it, where all of them stand on one page.
#[derive(Debug, Drop)]
pub struct Chapter<'a, A: Allocator = Global> {
    /// What it is called on the whole page: `tide save`.
    pub title: &'a str,
    /// What it is called under the level above: `save`.
    pub name: &'a str,
    pub about: Vec<Block<'a, A>, A>,
    /// What follows `about`.
    pub parts: Vec<Part<'a, A>, A>,
    pub below: Vec<Chapter<'a, A>, A>,
}
