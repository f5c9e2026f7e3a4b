//! Hints, and the ways to what they are about.
use keyed::Step;
use shown_words::Brief;
use std::fmt;
use std::fmt::Display;

/// What would better be said. `Display` is a line for people, without a newline at its end.
#[derive(Clone, Copy, Debug, PartialEq, Eq)]
pub enum Hint<'a> {
    /// Nothing says what an option does that pages show.
    NoHelp,
    /// Neither `help` nor `about` says what a command does that pages show.
    NothingSaid,
    /// Nothing says what the program does.
    NoAbout,
    /// The first paragraph, which is a summary, has more than one sentence.
    TwoSentences,
    /// The first paragraph, which is a summary, takes that many columns on one line, which are over 80.
    WideSummary(usize),
    /// A literal looks like an option, and no option of the description is called so.
    NoSuchOption(&'a str),
    /// An address that is linked to is of `http`, and not of this machine.
    PlainLink(&'a str),
    /// The option takes that many columns as an item of the usage that is made of its level, which are over 60.
    WideItem(usize),
    /// A text in place of a usage has this name, but neither an option of its level nor a help option is called so.
    NotOnLevel(&'a str),
    /// An option of this name stands before, where this leads, and its help is another text.
    DifferentHelp {
        name: &'a str,
        first: &'a [Step<'a>],
    },
    /// A file of the page would have this name, which no file may have.
    NoFileName(&'a str),
    /// Some folders take the page of this name for one before it.
    AlikeName(&'a str),
    /// An option that asks for help is shown under this name too.
    HelpName(&'a str),
    /// The word for a value has brackets or dots around it, which pages set by themselves.
    MarkedValue(&'a str),
    /// This long name has a bracket.
    BracketedName(&'a str),
    /// The default is this, which is neither one of the values nor some of them with commas between.
    UnlistedDefault(&'a str),
}

impl Display for Hint<'_> {
    fn fmt<W: fmt::Write>(&self, f: &mut fmt::Formatter<W>) -> fmt::Result {
        match self {
            Hint::NoHelp => f.write_str("no help says what the option does"),
            Hint::NothingSaid => f.write_str("neither help nor about says what the command does"),
            Hint::NoAbout => f.write_str("no about says what the program does"),
            Hint::TwoSentences => {
                f.write_str("the first paragraph is the summary, and has more than one sentence")
            }
            Hint::WideSummary(columns) => write!(
                f,
                "the first paragraph is the summary, and has {columns} columns, over 80"
            ),
            Hint::NoSuchOption(text) => write!(f, "no option is called {}", Brief(*text)),
            Hint::PlainLink(address) => write!(f, "the link {} is not https", Brief(*address)),
            Hint::WideItem(columns) => {
                write!(f, "as an item of a usage it has {columns} columns, over 60")
            }
            Hint::NotOnLevel(text) => write!(f, "no option here is called {}", Brief(*text)),
            Hint::DifferentHelp { name, .. } => {
                write!(f, "{} has a different help", Brief(*name))
            }
            Hint::NoFileName(name) => write!(f, "no file may be called {}", Brief(*name)),
            Hint::AlikeName(name) => {
                write!(f, "some folders take its page {} for another", Brief(*name))
            }
            Hint::HelpName(name) => write!(f, "a help option is called {} too", Brief(*name)),
            Hint::MarkedValue(word) => write!(
                f,
                "{} needs no brackets or dots: pages set them, by required and repeated",
                Brief(*word)
            ),
            Hint::BracketedName(word) => {
                write!(
                    f,
                    "the name {} has a bracket; write it as syntax",
                    Brief(*word)
                )
            }
            Hint::UnlistedDefault(text) => {
                write!(f, "the default {} is not one of the values", Brief(*text))
            }
        }
    }
}

/// A hint, and the way from the top of the TOML to the table or the text that it is about.
#[derive(Clone, Copy, Debug, PartialEq, Eq)]
pub struct Warning<'p> {
    pub path: &'p [Step<'p>],
    pub hint: Hint<'p>,
}

impl<'p> Warning<'p> {
    /// The way to what stands before and is different, if the hint is about that.
    pub fn first(&self) -> Option<&'p [Step<'p>]> {
        match self.hint {
            Hint::DifferentHelp { first, .. } => Some(first),
            _ => None,
        }
    }
}
