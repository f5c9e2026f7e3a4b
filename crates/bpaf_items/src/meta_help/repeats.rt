//! Which entries of a list are shown: each key once, and a note below what is shown.
ghost use Rattle.std.specs.Prelude.{◌≡◌, ◌||◌, ◌++◌, ◌∷◌, [], IfOk, IsTrue, List, false, map};
ghost use Rattle.bpaf_items.specs.Listing.ItemList.{Entry};
ghost use Rattle.bpaf_items.specs.Listing.Falls.{is_shown};
ghost use Rattle.bpaf_items.specs.Page.Steps.Repeats.{AreApart, AreHashed, PutsKey, Remembers, key_hash};
ghost use Rattle.bpaf_items.specs.View.{entry_at, entry_of, key_in};

use crate::meta_help::entry::HelpItem;
use crate::meta_help::key::ItemKey;
use std::alloc::{AllocError, Allocator};
use std::collections::BTreeSet;
use std::hash::{FoldHasher, Hash, Hasher};

/// What is remembered of the entries of one group or heading: the keys of its items, unless all items have different
/// hashes; and whether a note would be shown now. Each key is stored with its hash first, so that a number tells most
/// keys apart. Keys whose hashes collide are ordered too, so that no key is compared with all others.
#[derive(Drop)]
pub struct Repeats<'s, B: Allocator, L: Allocator> {
    are_apart: bool,
    keys: BTreeSet<(u64, ItemKey<'s, B>), L>,
    shown: bool,
}

impl<'s, B: Allocator, L: Allocator + Copy> Repeats<'s, B, L> {
    /// Nothing is remembered yet. `shows` is to be called for each of these entries in turn.
    pub fn new<'a>(
        alloc: L,
        entries: &[&'s HelpItem<'a, B>],
    ) -> Result<Repeats<'s, B, L>, AllocError>
        ensures { IfOk result (λ repeats.
            Remembers (map entry_at entries.now) repeats.are_apart repeats.keys.keys repeats.shown []) }
    {
        Ok(Repeats {
            are_apart: are_apart(alloc, entries)?,
            keys: BTreeSet::new(alloc),
            shown: false,
        })
    }

    /// Whether the next entry is shown: a mark; an item with a new key; a note directly after one of these.
    pub fn shows<'a>(&mut self, entry: &'s HelpItem<'a, B>) -> Result<bool, AllocError>
        ensures { (all before rest : List Entry) → all ≡ before ++ entry_of entry.now ∷ rest
            → Remembers all self.old.are_apart self.old.keys.keys self.old.shown before → IfOk result (λ shown.
            (shown ≡ is_shown (before, entry_of entry.now))
            × Remembers all self.new.are_apart self.new.keys.keys self.new.shown (before ++ entry_of entry.now ∷ [])) }
    {
        match entry.key() {
            Some(key) => self.shows_item(key),
            None => Ok(self.shows_other(entry.is_mark())),
        }
    }

    fn shows_item(&mut self, key: ItemKey<'s, B>) -> Result<bool, AllocError>
        ensures apart { IsTrue self.old.are_apart → IfOk result (λ shown.
            IsTrue shown × IsTrue self.new.shown × (self.new.keys.keys ≡ self.old.keys.keys)) }
        ensures item { self.old.are_apart ≡ false → AreHashed self.old.keys.keys → IfOk result (λ shown.
            PutsKey self.old.keys.keys self.new.keys.keys (key_in key.entry) shown × (self.new.shown ≡ shown)) }
        ensures same { self.new.are_apart ≡ self.old.are_apart }
    {
        if self.are_apart {
            self.shown = true;
            return Ok(true);
        }
        let shown = self.keys.insert((hash_of(key), key))?;
        self.shown = shown;
        Ok(shown)
    }

    // A mark or a note.
    fn shows_other(&mut self, is_mark: bool) -> bool
        ensures shown { result ≡ (self.old.shown || is_mark) }
        ensures last { self.new.shown ≡ is_mark }
        ensures keys { self.new.keys.keys ≡ self.old.keys.keys }
        ensures same { self.new.are_apart ≡ self.old.are_apart }
    {
        let shown = self.shown || is_mark;
        self.shown = is_mark;
        shown
    }
}

// True only if no two items have the same hash, and so no two the same key.
fn are_apart<'a, B: Allocator, L: Allocator>(
    alloc: L,
    entries: &[&HelpItem<'a, B>],
) -> Result<bool, AllocError>
    ensures { IfOk result (λ apart. IsTrue apart → AreApart (map entry_at entries.now)) }
{
    let mut hashes = Vec::with_capacity(alloc, entries.len())?;
    for entry in entries {
        if let Some(key) = entry.key() {
            hashes.push(hash_of(key))?;
        }
    }
    hashes.sort_unstable();
    let count = hashes.len();
    hashes.dedup();
    Ok(hashes.len() == count)
}

fn hash_of<B: Allocator>(key: ItemKey<'_, B>) -> u64
    ensures { result ≡ key_hash (key_in key.entry) }
{
    let mut state = FoldHasher::default();
    key.hash(&mut state);
    state.finish()
}
