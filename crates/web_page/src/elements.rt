//! The elements of a page.

ghost use Rattle.std.specs.Prelude.{◌≡◌};
ghost use Rattle.web_page.specs.Tree.{element_kind, element_name, heading_name, kind, name_of};

/// The level of a heading, from the page's own down.
#[derive(Clone, Copy, Debug, PartialEq, Eq)]
pub enum Level {
    One,
    Two,
    Three,
    Four,
    Five,
    Six,
}

/// An element of the body that has content and no attribute except an id. A link, which has a target, is not among
/// them, nor is a line break, which is empty.
#[derive(Clone, Copy, Debug, PartialEq, Eq)]
pub enum Element {
    Header,
    Nav,
    Main,
    Footer,
    Section,
    Heading(Level),
    P,
    Pre,
    Ul,
    Li,
    Dl,
    Dt,
    Dd,
    Code,
    Strong,
    Em,
    Var,
}

/// Any element of a page.
#[derive(Clone, Copy, Debug, PartialEq, Eq)]
pub enum Tag {
    Html,
    Head,
    Meta,
    Title,
    Style,
    Body,
    Br,
    A,
    Of(Element),
}

/// A node as the element that holds it sees it: a text that is not empty, or an element.
#[derive(Clone, Copy, Debug, PartialEq, Eq)]
pub enum Child {
    Words,
    Inner(Tag),
}

impl Level {
    fn name(self) -> &'static str
        ensures { result.now ≡ heading_name self }
    {
        match self {
            Level::One => "h1",
            Level::Two => "h2",
            Level::Three => "h3",
            Level::Four => "h4",
            Level::Five => "h5",
            Level::Six => "h6",
        }
    }
}

impl Element {
    fn name(self) -> &'static str
        ensures { result.now ≡ element_name self }
    {
        match self {
            Element::Header => "header",
            Element::Nav => "nav",
            Element::Main => "main",
            Element::Footer => "footer",
            Element::Section => "section",
            Element::Heading(level) => level.name(),
            Element::P => "p",
            Element::Pre => "pre",
            Element::Ul => "ul",
            Element::Li => "li",
            Element::Dl => "dl",
            Element::Dt => "dt",
            Element::Dd => "dd",
            Element::Code => "code",
            Element::Strong => "strong",
            Element::Em => "em",
            Element::Var => "var",
        }
    }

    // Which kind of element it is, as a number above those of `Tag::kind`.
    fn kind(self) -> u8
        ensures { result ≡ element_kind self }
    {
        match self {
            Element::Header => 8,
            Element::Nav => 9,
            Element::Main => 10,
            Element::Footer => 11,
            Element::Section => 12,
            Element::Heading(_) => 13,
            Element::P => 14,
            Element::Pre => 15,
            Element::Ul => 16,
            Element::Li => 17,
            Element::Dl => 18,
            Element::Dt => 19,
            Element::Dd => 20,
            Element::Code => 21,
            Element::Strong => 22,
            Element::Em => 23,
            Element::Var => 24,
        }
    }
}

impl Tag {
    /// The name in tags.
    pub fn name(self) -> &'static str
        ensures { result.now ≡ name_of self }
    {
        match self {
            Tag::Html => "html",
            Tag::Head => "head",
            Tag::Meta => "meta",
            Tag::Title => "title",
            Tag::Style => "style",
            Tag::Body => "body",
            Tag::Br => "br",
            Tag::A => "a",
            Tag::Of(element) => element.name(),
        }
    }

    // Which kind of element it is, as a number: headings of all levels are one.
    pub(crate) fn kind(self) -> u8
        ensures { result ≡ kind self }
    {
        match self {
            Tag::Html => 0,
            Tag::Head => 1,
            Tag::Meta => 2,
            Tag::Title => 3,
            Tag::Style => 4,
            Tag::Body => 5,
            Tag::Br => 6,
            Tag::A => 7,
            Tag::Of(element) => element.kind(),
        }
    }
}
