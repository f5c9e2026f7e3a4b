//! The texts that a page shows for environment variables.
ghost use Rattle.std.specs.Prelude.{◌≡◌, OnOk, OnErr};
ghost use Rattle.std.specs.Option.{option_copied};
ghost use Rattle.bpaf_items.specs.Page.EnvTexts.{AreSameTexts, no_texts, texts_in, texts_with};

use std::alloc::{AllocError, Allocator, Global};
use std::collections::BTreeMap;
use std::fmt;
use std::marker::Model;

/// A map from the names of environment variables to the texts that a page shows for their values, already quoted.
#[derive(Drop)]
pub struct EnvTexts<A: Allocator = Global> {
    texts: BTreeMap<String<A>, String<A>, A>,
    alloc: A,
}

impl<A: Allocator> Model for EnvTexts<A> {
    ghost use Rattle.std.specs.Prelude.{ℕ, List, map, string_bytes};

    ghost Value = { List (List ℕ × List ℕ) };

    ghost view = { λ env. map (λ e. (string_bytes e.0, string_bytes e.1)) env.texts.entries };
}

impl<A: Allocator> fmt::Debug for EnvTexts<A> {
    fn fmt<W: fmt::Write>(&self, f: &mut fmt::Formatter<W>) -> fmt::Result {
        f.debug_map().entries(self.texts.iter()).finish()
    }
}

impl<A: Allocator + Copy> EnvTexts<A> {
    /// A map in which no name has a text.
    pub fn new(alloc: A) -> EnvTexts<A>
        ensures { AreSameTexts (texts_in result) no_texts }
    {
        EnvTexts {
            texts: BTreeMap::new(alloc),
            alloc,
        }
    }

    /// Sets the text for the name, in place of an earlier one. An `AllocError` says that an allocation failed; then
    /// each name has the text that it had.
    pub fn insert(&mut self, name: &str, text: &str) -> Result<(), AllocError>
        ensures ok { OnOk result (AreSameTexts (texts_in self.new) (texts_with (texts_in self.old) name.now text.now)) }
        ensures err { OnErr result (AreSameTexts (texts_in self.new) (texts_in self.old)) }
    {
        let name = String::from_str(self.alloc, name)?;
        let text = String::from_str(self.alloc, text)?;
        match self.texts.insert(name, text) {
            Ok(_) => Ok(()),
            Err(_) => Err(AllocError),
        }
    }
}

impl<A: Allocator> EnvTexts<A> {
    /// The text for the name, if it has one.
    pub fn get(&self, name: &str) -> Option<&str>
        ensures { option_copied result ≡ texts_in self.now name.now }
    {
        match self.texts.get(name) {
            Some(text) => Some(text.as_str()),
            None => None,
        }
    }
}
