//! Whole command lines.
ghost use Rattle.std.specs.Prelude.{◌≡◌, ◌++◌, ◌∷◌, [], None, Some, OnErr, OnOk, codes};
ghost use Rattle.description.specs.View.{description_said, level_said, opt_said};
ghost use Rattle.description.specs.Words.{english, words_said};

use crate::levels::Level;
use crate::options::Opt;
use crate::words::FixedWords;
use std::alloc::{AllocError, Allocator, Global};

/// A command line: its name, the words of the title line of its manual page, the language of its texts, the words that
/// stand on each page, the options that ask for help, and its top level.
#[derive(Drop)]
#[derive_where(Debug)]
pub struct Description<'a, A: Allocator = Global> {
    pub name: &'static str,
    /// The section of the manual, as `1` or `3p`.
    pub section: &'a str,
    pub date: Option<&'a str>,
    pub vendor: Option<&'a str>,
    pub title: Option<&'a str>,
    /// The tag of the language of the texts, as `en` or `pt-BR`.
    pub language: &'a str,
    pub words: FixedWords<'a>,
    /// The options that ask for help, here and at each command.
    pub help_options: Vec<Opt<'a>, A>,
    pub level: Level<'a, A>,
}

impl<'a, A: Allocator> Description<'a, A> {
    /// A command line of this name in English, in the general section of the manual, without other words for its
    /// title line and without options that ask for help.
    pub fn new(alloc: A, name: &'static str, level: Level<'a, A>) -> Description<'a, A>
        ensures { description_said result
            ≡ record {
              name = name.now;
              section = codes "1";
              date = None;
              vendor = None;
              title = None;
              language = codes "en";
              words = english;
              help_options = [];
              level = level_said level.entry;
            } }
    {
        Description {
            name,
            section: "1",
            date: None,
            vendor: None,
            title: None,
            language: "en",
            words: FixedWords::english(),
            help_options: Vec::new(alloc),
            level,
        }
    }

    /// The command line in another section of the manual.
    pub fn section(mut self, section: &'a str) -> Description<'a, A>
        ensures { description_said result ≡ record (description_said self.entry) { section = section.now } }
    {
        self.section = section;
        self
    }

    /// The command line with a date.
    pub fn date(mut self, date: &'a str) -> Description<'a, A>
        ensures { description_said result ≡ record (description_said self.entry) { date = Some date.now } }
    {
        self.date = Some(date);
        self
    }

    /// The command line with a vendor.
    pub fn vendor(mut self, vendor: &'a str) -> Description<'a, A>
        ensures { description_said result ≡ record (description_said self.entry) { vendor = Some vendor.now } }
    {
        self.vendor = Some(vendor);
        self
    }

    /// The command line with a title.
    pub fn title(mut self, title: &'a str) -> Description<'a, A>
        ensures { description_said result ≡ record (description_said self.entry) { title = Some title.now } }
    {
        self.title = Some(title);
        self
    }

    /// The command line with texts in another language, of this tag: ASCII letters, digits and `-`. A complete HTML
    /// page says it.
    pub fn language(mut self, language: &'a str) -> Description<'a, A>
        ensures { description_said result ≡ record (description_said self.entry) { language = language.now } }
    {
        self.language = language;
        self
    }

    /// The command line with other words on each page.
    pub fn words(mut self, words: FixedWords<'a>) -> Description<'a, A>
        ensures { description_said result ≡ record (description_said self.entry) { words = words_said words.entry } }
    {
        self.words = words;
        self
    }

    /// Puts an option that asks for help last. After `AllocError` the description is as it was, and what was given
    /// is dropped.
    pub fn help_option(&mut self, option: Opt<'a>) -> Result<(), AllocError>
        ensures ok { OnOk result (description_said self.new
            ≡ record (description_said self.old) {
              help_options = (description_said self.old).help_options
                  ++ opt_said option.entry ∷ [];
            }) }
        ensures err { OnErr result (description_said self.new ≡ description_said self.old) }
    {
        self.help_options.push(option)?;
        Ok(())
    }
}
