//! Lists of entries: what is shown of them, written in order.
ghost use Rattle.std.specs.Prelude.{◌≡◌, ◌++◌, ◌∷◌, [], List, OnOk, map};
ghost use Rattle.bpaf_doc.specs.Buffer.Growth.{Grows};
ghost use Rattle.bpaf_doc.specs.Buffer.Writes.{with_writes};
ghost use Rattle.bpaf_items.specs.Listing.ItemList.{Entry};
ghost use Rattle.bpaf_items.specs.Page.EnvTexts.{texts_in};
ghost use Rattle.bpaf_items.specs.Page.HelpPage.{list_writes};
ghost use Rattle.bpaf_items.specs.Page.Steps.Pieces.{Leaves};
ghost use Rattle.bpaf_items.specs.Page.Steps.Repeats.{Remembers, shown_writes};
ghost use Rattle.bpaf_items.specs.View.{entry_at, entry_of};

use crate::meta_help::entry::HelpItem;
use crate::meta_help::repeats::Repeats;
use crate::meta_help::room::reserve_for;
use crate::meta_help::writes::Writer;
use bpaf_doc::buffer::Doc;
use std::alloc::{AllocError, Allocator};

impl<'t, C: Allocator, L: Allocator + Copy> Writer<'t, C, L> {
    /// Writes what is shown of a list. The keys seen so far take memory of the writer's allocator.
    pub fn put_list<'a, 's, A: Allocator, B: Allocator + Copy>(
        &self,
        doc: &mut Doc<A>,
        entries: &[&'s HelpItem<'a, B>],
    ) -> Result<(), AllocError>
        ensures { Leaves result doc.old doc.new
            (list_writes self.now.include_env (texts_in self.now.texts.now) (map entry_at entries.now)) }
    {
        reserve_for(doc, entries)?;
        let mut repeats: Repeats<'s, B, L> = Repeats::new(self.alloc, entries)?;
        for entry in entries {
            self.put_next(doc, &mut repeats, *entry)?;
        }
        Ok(())
    }

    fn put_next<'a, 's, A: Allocator, B: Allocator + Copy>(
        &self,
        doc: &mut Doc<A>,
        repeats: &mut Repeats<'s, B, L>,
        entry: &'s HelpItem<'a, B>,
    ) -> Result<(), AllocError>
        ensures grows { Grows doc.old doc.new }
        ensures next { (all before rest : List Entry) → all ≡ before ++ entry_of entry.now ∷ rest
            → Remembers all repeats.old.are_apart repeats.old.keys.keys repeats.old.shown before → OnOk result (
            (doc.new ≡ with_writes doc.old
            (shown_writes self.now.include_env (texts_in self.now.texts.now) before (entry_of entry.now)))
            × Remembers all repeats.new.are_apart repeats.new.keys.keys repeats.new.shown (before ++ entry_of entry.now ∷ [])) }
    {
        if !repeats.shows(entry)? {
            return Ok(());
        }
        self.put_entry(doc, entry)
    }
}
