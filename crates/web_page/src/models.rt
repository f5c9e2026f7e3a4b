//! What each element may hold.

ghost use Rattle.std.specs.Prelude.{◌≡◌};
ghost use Rattle.std.specs.List.{list_any};
ghost use Rattle.web_page.specs.Tree.{is_tag};
ghost use Rattle.web_page.specs.Models.{element_may_hold, is_after, is_child, is_flow, is_ink, is_phrasing, is_words};
ghost use Rattle.web_page.specs.Models.{may_end, may_hold, wants_ink};

use crate::elements::{Child, Element, Level, Tag};

const HEADING: Tag = Tag::Of(Element::Heading(Level::One));

const HEADER: Tag = Tag::Of(Element::Header);

const NAV: Tag = Tag::Of(Element::Nav);

const MAIN: Tag = Tag::Of(Element::Main);

const FOOTER: Tag = Tag::Of(Element::Footer);

const SECTION: Tag = Tag::Of(Element::Section);

const P: Tag = Tag::Of(Element::P);

const PRE: Tag = Tag::Of(Element::Pre);

const UL: Tag = Tag::Of(Element::Ul);

const LI: Tag = Tag::Of(Element::Li);

const DL: Tag = Tag::Of(Element::Dl);

const DT: Tag = Tag::Of(Element::Dt);

const DD: Tag = Tag::Of(Element::Dd);

// Whether an element is of one of these kinds.
fn is_one_of(tag: Tag, tags: &[Tag]) -> bool
    ensures { result ≡ list_any (is_tag tag) tags.now }
{
    tags.iter().any(|other| tag.kind() == other.kind())
}

fn is_words(child: Child) -> bool
    ensures { result ≡ is_words child }
{
    match child {
        Child::Words => true,
        Child::Inner(_) => false,
    }
}

fn is_child(tags: &[Tag], child: Child) -> bool
    ensures { result ≡ is_child tags.now child }
{
    match child {
        Child::Words => false,
        Child::Inner(tag) => is_one_of(tag, tags),
    }
}

// A child within a line.
fn is_phrasing(child: Child) -> bool
    ensures { result ≡ is_phrasing child }
{
    is_words(child)
        || is_child(
            &[
                Tag::Of(Element::Code),
                Tag::Of(Element::Strong),
                Tag::Of(Element::Em),
                Tag::Of(Element::Var),
                Tag::A,
                Tag::Br,
            ],
            child,
        )
}

// A heading, or an element that stands by itself.
fn is_flow(child: Child) -> bool
    ensures { result ≡ is_flow child }
{
    is_child(&[HEADING, P, PRE, UL, DL], child)
}

// Whether the child before is of one of these kinds.
fn is_after(tags: &[Tag], before: Option<Child>) -> bool
    ensures { result ≡ is_after (is_child tags.now) before }
{
    match before {
        Some(before) => is_child(tags, before),
        None => false,
    }
}

fn is_after_phrasing(before: Option<Child>) -> bool
    ensures { result ≡ is_after is_phrasing before }
{
    match before {
        Some(before) => is_phrasing(before),
        None => false,
    }
}

fn may_item_hold(before: Option<Child>, child: Child) -> bool
    ensures { result ≡ element_may_hold Element.Li before child }
{
    !is_after(&[UL], before) && (is_phrasing(child) || is_child(&[UL], child))
}

fn may_description_hold(before: Option<Child>, child: Child) -> bool
    ensures { result ≡ element_may_hold Element.Dd before child }
{
    (is_phrasing(child) && (before.is_none() || is_after_phrasing(before)))
        || (is_child(&[P, PRE, UL, DL], child) && !is_after_phrasing(before))
}

fn may_element_hold(element: Element, before: Option<Child>, child: Child) -> bool
    ensures { result ≡ element_may_hold element before child }
{
    match element {
        Element::Header => is_flow(child),
        Element::Nav => is_flow(child),
        Element::Main => is_flow(child) || is_child(&[SECTION], child),
        Element::Footer => is_flow(child),
        Element::Section => is_flow(child) || is_child(&[SECTION], child),
        Element::Heading(_) => is_phrasing(child),
        Element::P => is_phrasing(child),
        Element::Pre => is_phrasing(child),
        Element::Ul => is_child(&[LI], child),
        Element::Li => may_item_hold(before, child),
        Element::Dl => is_child(&[DT], child) || (is_child(&[DD], child) && before.is_some()),
        Element::Dt => is_phrasing(child),
        Element::Dd => may_description_hold(before, child),
        Element::Code => is_phrasing(child),
        Element::Strong => is_phrasing(child),
        Element::Em => is_phrasing(child),
        Element::Var => is_phrasing(child),
    }
}

fn may_html_hold(before: Option<Child>, child: Child) -> bool
    ensures { result ≡ may_hold Tag.Html before child }
{
    (is_child(&[Tag::Head], child) && before.is_none())
        || (is_child(&[Tag::Body], child) && is_after(&[Tag::Head], before))
}

fn may_head_hold(before: Option<Child>, child: Child) -> bool
    ensures { result ≡ may_hold Tag.Head before child }
{
    (is_child(&[Tag::Meta], child) && (before.is_none() || is_after(&[Tag::Meta], before)))
        || (is_child(&[Tag::Title], child) && is_after(&[Tag::Meta], before))
        || (is_child(&[Tag::Style], child) && is_after(&[Tag::Title], before))
}

fn may_body_hold(before: Option<Child>, child: Child) -> bool
    ensures { result ≡ may_hold Tag.Body before child }
{
    (is_child(&[HEADER], child) && before.is_none())
        || (is_child(&[NAV], child) && (before.is_none() || is_after(&[HEADER], before)))
        || (is_child(&[MAIN], child) && (before.is_none() || is_after(&[HEADER, NAV], before)))
        || (is_child(&[FOOTER], child) && is_after(&[MAIN], before))
}

/// Whether a child may stand in an element, after this child or, at `None`, as the first one.
pub fn may_hold(tag: Tag, before: Option<Child>, child: Child) -> bool
    ensures { result ≡ may_hold tag before child }
{
    match tag {
        Tag::Html => may_html_hold(before, child),
        Tag::Head => may_head_hold(before, child),
        Tag::Meta => false,
        Tag::Title => is_words(child),
        Tag::Style => is_words(child),
        Tag::Body => may_body_hold(before, child),
        Tag::Br => false,
        Tag::A => is_phrasing(child),
        Tag::Of(element) => may_element_hold(element, before, child),
    }
}

/// Whether an element may end after this child or, at `None`, empty.
pub fn may_end(tag: Tag, last: Option<Child>) -> bool
    ensures { result ≡ may_end tag last }
{
    match tag {
        Tag::Html => is_after(&[Tag::Body], last),
        Tag::Head => is_after(&[Tag::Style], last),
        Tag::Body => is_after(&[MAIN, FOOTER], last),
        Tag::Of(Element::Dl) => is_after(&[DD], last),
        _ => true,
    }
}

/// Whether an element has to have a text that is more than white space, at any depth.
pub fn wants_ink(tag: Tag) -> bool
    ensures { result ≡ wants_ink tag }
{
    is_one_of(tag, &[Tag::Title, HEADING, P, UL, DL])
}

/// A byte that is not white space of HTML.
pub(crate) fn is_ink(byte: u8) -> bool
    ensures { result ≡ is_ink byte }
{
    !matches!(byte, b'\t' | b'\n' | 12 | b'\r' | b' ')
}

/// Whether a text is more than white space of HTML: tabs, newlines, form feeds, carriage returns and blanks.
pub fn has_ink(text: &str) -> bool
    ensures { result ≡ list_any is_ink text.now }
{
    text.as_bytes().iter().any(|byte| is_ink(*byte))
}
