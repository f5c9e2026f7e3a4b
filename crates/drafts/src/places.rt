//! Where each passage of a help text goes.
ghost use Rattle.std.specs.Prelude.{◌≡◌, IfOk, map};
ghost use Rattle.std.specs.List.{list_any};
ghost use Rattle.drafts.specs.Places as spec;
ghost use Rattle.drafts.specs.View.{marked_said, passage_said, placed_said};

use crate::options::{byte_at, is_blank};
use crate::passages::Passage;
use crate::seen::{is_heading, is_usual, last_byte, title_text};
use crate::taken::{Marked, mark_all};
use help_blocks::Kind;
use std::alloc::{AllocError, Allocator};

/// A part of a help text: what stands before the first title, and what each title begins.
#[derive(Clone, Copy)]
pub enum Part {
    First,
    /// Entries under a title that the draft has.
    Group,
    /// Entries without one.
    List,
    /// Text under a title that the draft has.
    Topic,
    /// Text without one.
    Loose,
}

/// Where a passage goes.
#[derive(Clone, Copy)]
pub enum Role {
    /// It has no lines.
    Nothing,
    Usage,
    About,
    Header,
    Footer,
    /// The title of a topic.
    Topic,
    InTopic,
    /// The title of a group.
    Group,
    /// A title that pages have of themselves.
    Usual,
    Entry,
    /// An entry of a group.
    Member,
    /// A comment.
    LeftOut,
}

/// What stands above a passage.
#[derive(Clone, Copy)]
pub struct Above {
    pub part: Part,
    pub has_usage: bool,
    pub has_about: bool,
    pub has_entry: bool,
    /// Whether text or code below the nearest title is indented.
    pub is_indented: bool,
}

/// A passage, and where it goes.
#[derive(Clone, Copy)]
pub struct Placed<'a> {
    pub passage: Passage<'a>,
    pub role: Role,
}

// ---- what stands below a title

pub fn is_title(kind: Kind) -> bool
    ensures { result ≡ spec.is_title kind }
{
    matches!(kind, Kind::Title)
}

fn is_entry(kind: Kind) -> bool
    ensures { result ≡ spec.is_entry kind }
{
    matches!(kind, Kind::Option | Kind::Command | Kind::Value)
}

fn is_prose(kind: Kind) -> bool
    ensures { result ≡ spec.is_prose kind }
{
    matches!(kind, Kind::Text | Kind::Code)
}

fn is_fence(text: &[u8]) -> bool
    ensures { result ≡ spec.is_fence text.now }
{
    byte_at(text, 0) == b'`' && byte_at(text, 1) == b'`' && byte_at(text, 2) == b'`'
}

fn is_said(line: &str) -> bool
    ensures { result ≡ spec.is_said line.now }
{
    let text = line.trim();
    !text.is_empty() && !is_fence(text.as_bytes())
}

fn has_said(lines: &[&str]) -> bool
    ensures { result ≡ list_any spec.is_said (map (λ line. line.now) lines.now) }
{
    for line in lines {
        if is_said(line) {
            return true;
        }
    }
    false
}

// What is looked for below a title.
#[derive(Clone, Copy)]
pub enum Sought {
    Entry,
    Written,
    Body,
}

impl Sought {
    fn is_at(self, marked: Marked<'_>) -> bool
        ensures { result ≡ spec.is_at self (marked_said marked.entry) }
    {
        match self {
            Sought::Entry => is_entry(marked.passage.kind),
            Sought::Written => marked.is_written,
            Sought::Body => is_prose(marked.passage.kind)
                && marked.passage.is_permitted()
                && has_said(marked.passage.lines),
        }
    }
}

// Whether there is such a passage before the next title.
fn has_below(sought: Sought, below: &[Marked<'_>]) -> bool
    ensures { result ≡ spec.has_below (spec.is_at sought) (map marked_said below.now) }
{
    for marked in below {
        if is_title(marked.passage.kind) {
            return false;
        }
        if sought.is_at(*marked) {
            return true;
        }
    }
    false
}

fn list_part(title: &str, below: &[Marked<'_>]) -> Part
    ensures { result ≡ spec.list_part title.now (map marked_said below.now) }
{
    if is_heading(title) && !is_usual(title) && has_below(Sought::Written, below) {
        Part::Group
    } else {
        Part::List
    }
}

fn text_part(title: &str, below: &[Marked<'_>]) -> Part
    ensures { result ≡ spec.text_part title.now (map marked_said below.now) }
{
    if is_heading(title) && has_below(Sought::Body, below) {
        Part::Topic
    } else {
        Part::Loose
    }
}

fn part_below(title: &str, below: &[Marked<'_>]) -> Part
    ensures { result ≡ spec.part_below title.now (map marked_said below.now) }
{
    if has_below(Sought::Entry, below) {
        list_part(title, below)
    } else {
        text_part(title, below)
    }
}

// ---- roles

impl Role {
    fn is_about(self) -> bool
        ensures { result ≡ spec.is_about_role self }
    {
        matches!(self, Role::About)
    }

    pub fn is_usage(self) -> bool
        ensures { result ≡ spec.is_usage_role self }
    {
        matches!(self, Role::Usage)
    }
}

impl Above {
    fn nothing() -> Self
        ensures { result ≡ spec.nothing_above }
    {
        Above {
            part: Part::First,
            has_usage: false,
            has_about: false,
            has_entry: false,
            is_indented: false,
        }
    }

    fn around_lists(self) -> Role
        ensures { result ≡ spec.around_lists self }
    {
        if self.has_entry {
            Role::Footer
        } else {
            Role::Header
        }
    }

    fn first_role(self, leads_on: bool) -> Role
        ensures { result ≡ spec.first_role leads_on self }
    {
        if !self.has_entry && !(self.has_usage && self.has_about) && !leads_on {
            Role::About
        } else {
            self.around_lists()
        }
    }

    fn text_role(self, own: Part, leads_on: bool) -> Role
        ensures { result ≡ spec.text_role own leads_on self }
    {
        match own {
            Part::Topic => Role::InTopic,
            Part::First => self.first_role(leads_on),
            _ => self.around_lists(),
        }
    }

    fn list_title_role(self, title: &str) -> Role
        ensures { result ≡ spec.list_title_role title.now self }
    {
        if is_usual(title) {
            Role::Usual
        } else if is_heading(title) {
            Role::LeftOut
        } else {
            self.around_lists()
        }
    }

    fn title_role(self, own: Part, title: &str) -> Role
        ensures { result ≡ spec.title_role own title.now self }
    {
        match own {
            Part::Group => Role::Group,
            Part::List => self.list_title_role(title),
            Part::Topic => Role::Topic,
            _ => self.around_lists(),
        }
    }

    fn kind_role(self, own: Part, marked: Marked<'_>) -> Role
        ensures { result ≡ spec.kind_role marked.entry.passage.kind own (marked_said marked.entry) self }
    {
        match marked.passage.kind {
            Kind::Usage => Role::Usage,
            Kind::Title => self.title_role(own, title_text(marked.passage.first_line())),
            Kind::Text => self.text_role(own, leads_on(marked.passage.first_line())),
            Kind::Code => self.text_role(own, leads_on(marked.passage.first_line())),
            _ => entry_role(self.part, marked.is_written),
        }
    }

    fn role_in(self, own: Part, marked: Marked<'_>) -> Role
        ensures { result ≡ spec.role_in own (marked_said marked.entry) self }
    {
        if marked.passage.lines.is_empty() {
            Role::Nothing
        } else if marked.passage.is_permitted() {
            self.kind_role(own, marked)
        } else {
            Role::LeftOut
        }
    }

    // The part that a passage is in or begins.
    fn own_part(self, marked: Marked<'_>, below: &[Marked<'_>]) -> Part
        ensures { result ≡ spec.own_part (marked_said marked.entry) (map marked_said below.now) self }
    {
        if is_title(marked.passage.kind) {
            title_part(marked.passage, below)
        } else if self.ends_topic(marked.passage) {
            Part::Loose
        } else {
            self.part
        }
    }

    // Whether it is text at the left edge, below what is indented in a topic.
    fn ends_topic(self, passage: Passage<'_>) -> bool
        ensures { result ≡ spec.ends_topic (passage_said passage.entry) self }
    {
        matches!(self.part, Part::Topic)
            && self.is_indented
            && is_prose(passage.kind)
            && is_at_edge(passage)
    }

    fn after(self, own: Part, role: Role, marked: Marked<'_>) -> Self
        ensures { result ≡ spec.above_after own role (marked_said marked.entry) self }
    {
        let kind = marked.passage.kind;
        Above {
            part: own,
            has_usage: self.has_usage || role.is_usage(),
            has_about: self.has_about || role.is_about(),
            has_entry: self.has_entry || is_entry(kind),
            is_indented: !is_title(kind) && (self.is_indented || is_indented_body(marked)),
        }
    }
}

fn title_part(passage: Passage<'_>, below: &[Marked<'_>]) -> Part
    ensures { result ≡ spec.title_part (passage_said passage.entry) (map marked_said below.now) }
{
    if !passage.lines.is_empty() && passage.is_permitted() {
        part_below(title_text(passage.first_line()), below)
    } else {
        Part::Loose
    }
}

fn is_at_edge(passage: Passage<'_>) -> bool
    ensures { result ≡ spec.is_at_edge (passage_said passage.entry) }
{
    let line = passage.first_line().as_bytes();
    line.len() > 0 && !is_blank(byte_at(line, 0))
}

fn is_indented_body(marked: Marked<'_>) -> bool
    ensures { result ≡ spec.is_indented_body (marked_said marked.entry) }
{
    Sought::Body.is_at(marked) && !is_at_edge(marked.passage)
}

// Whether a line leads to what stands below it.
fn leads_on(line: &str) -> bool
    ensures { result ≡ spec.leads_on line.now }
{
    last_byte(line.trim().as_bytes()) == b':'
}

fn entry_role(part: Part, is_written: bool) -> Role
    ensures { result ≡ spec.entry_role part is_written }
{
    match (part, is_written) {
        (_, false) => Role::LeftOut,
        (Part::Group, true) => Role::Member,
        (_, true) => Role::Entry,
    }
}

fn placed_marked<'a, A: Allocator>(
    alloc: A,
    marked: &[Marked<'a>],
) -> Result<Vec<Placed<'a>, A>, AllocError>
    ensures { IfOk result (λ found. map placed_said found.items
        ≡ spec.placed_from spec.nothing_above (map marked_said marked.now)) }
{
    let mut found = Vec::new(alloc);
    let mut above = Above::nothing();
    let mut rest = marked;
    while let [first, below @ ..] = rest {
        let own = above.own_part(*first, below);
        let role = above.role_in(own, *first);
        found.push(Placed {
            passage: first.passage,
            role,
        })?;
        above = above.after(own, role, *first);
        rest = below;
    }
    Ok(found)
}

/// Where each passage of a help text goes.
pub fn place_all<'a, A: Allocator + Copy>(
    alloc: A,
    passages: &[Passage<'a>],
) -> Result<Vec<Placed<'a>, A>, AllocError>
    ensures { IfOk result (λ found. map placed_said found.items ≡ spec.placed (map passage_said passages.now)) }
{
    let marked = mark_all(alloc, passages)?;
    placed_marked(alloc, &marked)
}
