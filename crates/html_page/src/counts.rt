//! How often a text was there before.

ghost use Rattle.std.specs.Prelude.{◌≡◌, ◌+◌, ◌<◌, ◌^◌, ◌++◌, ◌∷◌, [], ℕ, List, IfOk, OnErr, OnOk, map};
ghost use Rattle.std.specs.Prelude.{bytes_eq, if◌then◌else◌};
ghost use Rattle.std.specs.BTreeMap.{IsUnchanged};
ghost use Rattle.html_page.specs.Ids.{times};
ghost use Rattle.html_page.specs.Steps.Counts.{CountsAll, count_of};

use std::alloc::{AllocError, Allocator};
use std::collections::BTreeMap;

/// Texts, with how often each of them is there, so that none has to be looked for among them.
#[derive(Drop)]
pub struct Counts<'a, B: Allocator> {
    /// No code reads them: contracts speak of them, and since there is room for them the counts fit.
    pub texts: Vec<&'a str, B>,
    // A text that is not there may be absent.
    counts: BTreeMap<&'a str, usize, B>,
    ghost counted: { CountsAll counts (map (λ text. text.now) texts.items) },
}

impl<'a, B: Allocator + Copy> Counts<'a, B> {
    /// No texts.
    pub fn new(alloc: B) -> Counts<'a, B>
        ensures { result.texts.items ≡ [] }
    {
        Counts {
            texts: Vec::new(alloc),
            counts: BTreeMap::new(alloc),
        }
    }

    /// How often a text is there.
    pub fn count(&self, text: &str) -> usize
        ensures { result ≡ times text.now (map (λ text. text.now) self.now.texts.items) }
    {
        count_in(&self.counts, text)
    }

    /// Appends a text.
    pub fn push(&mut self, text: &'a str) -> Result<(), AllocError>
        ensures { OnOk result (map (λ text. text.now) self.new.texts.items
            ≡ map (λ text. text.now) self.old.texts.items ++ text.now ∷ []) }
    {
        self.texts.reserve(1)?;
        count_text(&mut self.counts, text)?;
        self.texts.push_reserved(text);
        Ok(())
    }
}

fn count_in<B: Allocator>(counts: &BTreeMap<&str, usize, B>, text: &str) -> usize
    ensures { result ≡ count_of counts.now text.now }
{
    match counts.get(text) {
        None => 0,
        Some(count) => *count,
    }
}

fn count_text<'a, B: Allocator + Copy>(
    counts: &mut BTreeMap<&'a str, usize, B>,
    text: &'a str,
) -> Result<(), AllocError>
    requires { count_of counts.old text.now < 2 ^ 63 }
    ensures ok { OnOk result ((other : List ℕ) → count_of counts.new other
        ≡ count_of counts.old other + (if bytes_eq other text.now then 1 else 0)) }
    ensures err { OnErr result (IsUnchanged counts.old counts.new) }
{
    let count = count_in(counts, text) + 1;
    counts.insert(text, count)?;
    Ok(())
}
