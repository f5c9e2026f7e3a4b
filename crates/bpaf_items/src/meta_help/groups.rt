//! Groups, one after another, and the headings over the entries outside them.
ghost use Rattle.std.specs.Prelude.{◌≡◌, ◌+◌, ◌<◌, ◌≤◌, nat_lt, not, ◌&&◌, ◌++◌, ◌∷◌, [], if◌then◌else◌, IfOk, OnOk};
ghost use Rattle.std.specs.Prelude.{drop, length, map, take};
ghost use Rattle.bpaf_doc.specs.Buffer.Growth.{Grows};
ghost use Rattle.bpaf_doc.specs.Buffer.Writes.{with_writes};
ghost use Rattle.bpaf_items.specs.Listing.Falls.{is_adjacent_start, is_adjacent_stop, is_group_start};
ghost use Rattle.bpaf_items.specs.Listing.Falls.{items_of_type, lacks_help, outside_groups};
ghost use Rattle.bpaf_items.specs.Listing.Groups.{HasPairedGroups, kept_entries};
ghost use Rattle.bpaf_items.specs.Page.EnvTexts.{texts_in};
ghost use Rattle.bpaf_items.specs.Page.HelpPage.{group_members_writes, groups_writes, heading_writes, list_writes};
ghost use Rattle.bpaf_items.specs.Page.HelpPage.{three_headings_writes};
ghost use Rattle.bpaf_items.specs.Page.Steps.Groups.{Takes, group_len};
ghost use Rattle.bpaf_items.specs.Page.Steps.Pieces.{Leaves};
ghost use Rattle.bpaf_items.specs.View.{entry_at, entry_of};

use crate::meta_help::entry::{HelpItem, HiTy};
use crate::meta_help::given::{State, lacks_help};
use crate::meta_help::list::group_end_place;
use crate::meta_help::pieces::Piece;
use crate::meta_help::writes::{Writer, put_list_end, put_list_start};
use bpaf_doc::buffer::{Doc, Style};
use std::alloc::{AllocError, Allocator, Global};

impl<'t, C: Allocator, L: Allocator + Copy> Writer<'t, C, L> {
    /// Writes the groups of a list, and then the headings over what is outside them.
    pub fn put_all<'a, 's, A: Allocator, B: Allocator + Copy>(
        &self,
        doc: &mut Doc<A>,
        entries: &'s [HelpItem<'a, B>],
    ) -> Result<(), AllocError>
        requires { HasPairedGroups (map entry_of entries.now) }
        ensures { Leaves result doc.old doc.new
            (groups_writes self.now.include_env (texts_in self.now.texts.now) (map entry_of entries.now)) }
    {
        let mut outside: Vec<&'s HelpItem<'a, B>, L> = Vec::new(self.alloc);
        self.put_groups(doc, &mut outside, entries)?;
        self.put_headings(doc, outside.as_slice())
    }

    // Writes the groups in order, and collects what is outside them.
    fn put_groups<'a, 's, A: Allocator, B: Allocator + Copy>(
        &self,
        doc: &mut Doc<A>,
        outside: &mut Vec<&'s HelpItem<'a, B>, L>,
        entries: &'s [HelpItem<'a, B>],
    ) -> Result<(), AllocError>
        requires { HasPairedGroups (map entry_of entries.now) }
        ensures grows { Grows doc.old doc.new }
        ensures groups { OnOk result (doc.new ≡ with_writes doc.old
            (group_members_writes self.now.include_env (texts_in self.now.texts.now) (map entry_of entries.now))) }
        ensures outside { OnOk result (map entry_at outside.new.items
            ≡ map entry_at outside.old.items ++ outside_groups (map entry_of entries.now)) }
    {
        let mut rest = entries;
        while !rest.is_empty() {
            let count = self.put_first(doc, outside, rest)?;
            rest = without_front(rest, count);
        }
        Ok(())
    }

    // Writes a first group, or collects a first entry outside groups, and returns how many entries that takes.
    fn put_first<'a, 's, A: Allocator, B: Allocator + Copy>(
        &self,
        doc: &mut Doc<A>,
        outside: &mut Vec<&'s HelpItem<'a, B>, L>,
        rest: &'s [HelpItem<'a, B>],
    ) -> Result<usize, AllocError>
        requires paired { HasPairedGroups (map entry_of rest.now) }
        requires some { 0 < length rest.now }
        ensures grows { Grows doc.old doc.new }
        ensures takes { IfOk result (λ count.
            Takes self.now.include_env (texts_in self.now.texts.now) (map entry_of rest.now) count doc.old doc.new
            (map entry_at outside.old.items) (map entry_at outside.new.items)) }
    {
        let first = &rest[0];
        if !first.is_group_start() {
            outside.push(first)?;
            return Ok(1);
        }
        let count = group_len(rest);
        self.put_group(doc, front(rest, count))?;
        Ok(count)
    }

    fn put_group<'a, 's, A: Allocator, B: Allocator + Copy>(
        &self,
        doc: &mut Doc<A>,
        entries: &'s [HelpItem<'a, B>],
    ) -> Result<(), AllocError>
        ensures { Leaves result doc.old doc.new
            (list_writes self.now.include_env (texts_in self.now.texts.now)
            (kept_entries (map entry_of entries.now))) }
    {
        let mut members: Vec<&'s HelpItem<'a, B>, L> = Vec::new(self.alloc);
        keep(&mut members, entries)?;
        self.put_list(doc, members.as_slice())
    }

    fn put_headings<'a, A: Allocator, B: Allocator + Copy>(
        &self,
        doc: &mut Doc<A>,
        outside: &[&HelpItem<'a, B>],
    ) -> Result<(), AllocError>
        ensures { Leaves result doc.old doc.new
            (three_headings_writes self.now.include_env (texts_in self.now.texts.now)
            (items_of_type (map entry_at outside.now))) }
    {
        self.put_heading(
            doc,
            "Available positional items:",
            outside,
            HiTy::Positional,
        )?;
        self.put_heading(doc, "Available options:", outside, HiTy::Flag)?;
        self.put_heading(doc, "Available commands:", outside, HiTy::Command)
    }

    fn put_heading<'a, A: Allocator, B: Allocator + Copy>(
        &self,
        doc: &mut Doc<A>,
        title: &str,
        outside: &[&HelpItem<'a, B>],
        ty: HiTy,
    ) -> Result<(), AllocError>
        ensures { Leaves result doc.old doc.new
            (heading_writes self.now.include_env (texts_in self.now.texts.now) title.now
            (items_of_type (map entry_at outside.now) ty)) }
    {
        let members = given(self.alloc, outside, ty)?;
        self.put_titled(doc, title, members.as_slice())
    }

    // A heading over its entries; nothing without entries.
    fn put_titled<'a, A: Allocator, B: Allocator + Copy>(
        &self,
        doc: &mut Doc<A>,
        title: &str,
        entries: &[&HelpItem<'a, B>],
    ) -> Result<(), AllocError>
        ensures { Leaves result doc.old doc.new
            (heading_writes self.now.include_env (texts_in self.now.texts.now) title.now
            (map entry_at entries.now)) }
    {
        if entries.is_empty() {
            return Ok(());
        }
        let title: Piece<'_, Global> = Piece::Text(title, Style::Emphasis);
        put_list_start(doc, title)?;
        self.put_list(doc, entries)?;
        put_list_end(doc)
    }
}

fn front<'a, 's, B: Allocator>(
    entries: &'s [HelpItem<'a, B>],
    count: usize,
) -> &'s [HelpItem<'a, B>]
    requires { count ≤ length entries.now }
    ensures { result.now ≡ take count entries.now }
{
    &entries[..count]
}

fn without_front<'a, 's, B: Allocator>(
    entries: &'s [HelpItem<'a, B>],
    count: usize,
) -> &'s [HelpItem<'a, B>]
    requires { count ≤ length entries.now }
    ensures { result.now ≡ drop count entries.now }
{
    &entries[count..]
}

fn group_len<B: Allocator>(entries: &[HelpItem<'_, B>]) -> usize
    ensures len { result ≡ group_len (map entry_of entries.now) }
    ensures within { result ≤ length entries.now }
{
    match group_end_place(entries) {
        None => entries.len(),
        Some(last) => last + 1,
    }
}

// How many adjacent blocks were started and stopped since the group started.
#[derive(Clone, Copy)]
struct Depth {
    starts: usize,
    stops: usize,
}

// Adds what is shown of a group: all except the items without help in an adjacent block of it.
fn keep<'a, 's, B: Allocator, L: Allocator + Copy>(
    members: &mut Vec<&'s HelpItem<'a, B>, L>,
    entries: &'s [HelpItem<'a, B>],
) -> Result<(), AllocError>
    ensures { OnOk result (map entry_at members.new.items
        ≡ map entry_at members.old.items ++ kept_entries (map entry_of entries.now)) }
{
    let mut depth = Depth {
        starts: 0,
        stops: 0,
    };
    for entry in entries {
        push_if(members, entry, depth.keeps(entry))?;
        depth = depth.after(entry);
    }
    Ok(())
}

impl Depth {
    fn keeps<B: Allocator>(self, entry: &HelpItem<'_, B>) -> bool
        ensures { result ≡ not (lacks_help (entry_of entry.now) && nat_lt self.stops self.starts) }
    {
        !(lacks_help(entry) && self.stops < self.starts)
    }

    fn after<B: Allocator>(self, entry: &HelpItem<'_, B>) -> Depth
        requires starts { self.starts < usize.MAX }
        requires stops { self.stops < usize.MAX }
        ensures starts { result.starts ≡ (if is_group_start (entry_of entry.now) then 0
            else self.starts + (if is_adjacent_start (entry_of entry.now) then 1 else 0)) }
        ensures stops { result.stops ≡ (if is_group_start (entry_of entry.now) then 0
            else self.stops + (if is_adjacent_stop (entry_of entry.now) then 1 else 0)) }
    {
        match entry {
            HelpItem::GroupStart { .. } => Depth {
                starts: 0,
                stops: 0,
            },
            HelpItem::AdjacentStart { .. } => Depth {
                starts: self.starts + 1,
                stops: self.stops,
            },
            HelpItem::AdjacentStop { .. } => Depth {
                starts: self.starts,
                stops: self.stops + 1,
            },
            _ => self,
        }
    }
}

// The entries of a heading.
#[tactic(auto, using(crate::proofs::Steps::Given::given_of_type))]
fn given<'a, 's, B: Allocator, L: Allocator + Copy>(
    alloc: L,
    outside: &[&'s HelpItem<'a, B>],
    ty: HiTy,
) -> Result<Vec<&'s HelpItem<'a, B>, L>, AllocError>
    ensures { IfOk result (λ members. map entry_at members.items ≡ items_of_type (map entry_at outside.now) ty) }
{
    let mut members: Vec<&'s HelpItem<'a, B>, L> = Vec::new(alloc);
    let mut state = State::Outside;
    for entry in outside {
        push_if(&mut members, *entry, state.is_given(*entry, ty))?;
        state = state.after(*entry);
    }
    Ok(members)
}

fn push_if<'a, 's, B: Allocator, L: Allocator + Copy>(
    members: &mut Vec<&'s HelpItem<'a, B>, L>,
    entry: &'s HelpItem<'a, B>,
    wanted: bool,
) -> Result<(), AllocError>
    ensures { OnOk result (map entry_at members.new.items ≡ map entry_at members.old.items
        ++ (if wanted then entry_of entry.now ∷ [] else [])) }
{
    if wanted {
        members.push(entry)?;
    }
    Ok(())
}
