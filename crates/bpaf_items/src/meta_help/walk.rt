//! The walk through a tree that makes its item list.
ghost use Rattle.std.specs.Prelude.{◌≡◌, ◌<◌, Some, [], ◌∷◌, ◌++◌, IfOk, OnOk, map};
ghost use Rattle.std.specs.Prelude.{slice_set, take, vec_len};
ghost use Rattle.std.specs.Option.{option_or};
ghost use Rattle.bpaf_meta.specs.Content.{adjacent, subsection, suffix};
ghost use Rattle.bpaf_meta.specs.View.{leaf_of, tree_of, trees_of};
ghost use Rattle.bpaf_items.specs.Listing.ItemList.{entries_of, entries_of_parts, first_front_type, front_type};
ghost use Rattle.bpaf_items.specs.Listing.ItemList.{item_entries, type_of_item};
ghost use Rattle.bpaf_items.specs.Steps.Given.{is_listed};
ghost use Rattle.bpaf_items.specs.Steps.Growth.{IsFront};
ghost use Rattle.bpaf_items.specs.View.{entry_of};

use crate::meta_help::entry::{HelpItem, HiTy};
use bpaf_doc::buffer::Doc;
use bpaf_meta::item::Item;
use bpaf_meta::meta::Meta;
use std::alloc::{AllocError, Allocator};

// Appends the item list of a tree, with marks of groups where groups are allowed, and returns the type of the tree's
// first item, so that no item is looked at twice. After `AllocError` some of the list may have been appended.
#[cycle(append)]
pub(crate) fn append<'a, A: Allocator, L: Allocator>(
    items: &mut Vec<HelpItem<'a, A>, L>,
    meta: &'a Meta<A>,
    groups: bool,
) -> Result<Option<HiTy>, AllocError>
    ensures entries { OnOk result (map entry_of items.new.items
        ≡ map entry_of items.old.items ++ entries_of groups (tree_of meta.now)) }
    ensures ty { IfOk result (λ front. front ≡ front_type (tree_of meta.now)) }
    ensures front { IsFront items.old.items items.new.items }
{
    match meta {
        Meta::And(parts) | Meta::Or(parts) => append_parts(items, parts, groups),
        Meta::Item(item) => append_item(items, item),
        Meta::Adjacent(inner) => append_adjacent(items, inner, groups),
        Meta::Subsection(inner, title) => append_group(items, inner, title, groups),
        Meta::Suffix(inner, note) => append_noted(items, inner, note, groups),
        Meta::Skip => Ok(None),
        Meta::Optional(inner)
        | Meta::Required(inner)
        | Meta::Many(inner)
        | Meta::CustomUsage(inner, _)
        | Meta::Strict(inner) => append(items, inner, groups),
    }
}

#[cycle(append)]
fn append_parts<'a, A: Allocator, L: Allocator>(
    items: &mut Vec<HelpItem<'a, A>, L>,
    parts: &'a Vec<Meta<A>, A>,
    groups: bool,
) -> Result<Option<HiTy>, AllocError>
    ensures entries { OnOk result (map entry_of items.new.items
        ≡ map entry_of items.old.items ++ entries_of_parts groups (trees_of parts.now.items)) }
    ensures ty { IfOk result (λ front. front ≡ first_front_type (trees_of parts.now.items)) }
    ensures front { IsFront items.old.items items.new.items }
{
    items.reserve(parts.len())?;
    let mut front = None;
    for part in parts {
        let own = append(items, part, groups)?;
        front = first_of(front, own);
    }
    Ok(front)
}

fn first_of(front: Option<HiTy>, next: Option<HiTy>) -> Option<HiTy>
    ensures { result ≡ option_or front next }
{
    match front {
        Some(ty) => Some(ty),
        None => next,
    }
}

#[tactic(auto, using(crate::proofs::Steps::Fronts::listed_entries))]
fn append_item<'a, A: Allocator, L: Allocator>(
    items: &mut Vec<HelpItem<'a, A>, L>,
    item: &'a Item<A>,
) -> Result<Option<HiTy>, AllocError>
    ensures entries { OnOk result (map entry_of items.new.items
        ≡ map entry_of items.old.items ++ item_entries (leaf_of item.now)) }
    ensures ty { IfOk result (λ front. front ≡ Some (type_of_item (leaf_of item.now))) }
    ensures front { IsFront items.old.items items.new.items }
{
    if is_listed(item) {
        push(items, HelpItem::from(item))?;
    }
    Ok(Some(HiTy::from(item)))
}

// A positional value without help is in no list.
fn is_listed<A: Allocator>(item: &Item<A>) -> bool
    ensures { result ≡ is_listed (leaf_of item.now) }
{
    match item {
        Item::Positional { help, .. } => help.is_some(),
        Item::Any { .. } | Item::Command { .. } | Item::Flag { .. } | Item::Argument { .. } => true,
    }
}

// The type of the first mark is known only once the inner tree is appended: until then it has another.
#[cycle(append)]
fn append_adjacent<'a, A: Allocator, L: Allocator>(
    items: &mut Vec<HelpItem<'a, A>, L>,
    inner: &'a Meta<A>,
    groups: bool,
) -> Result<Option<HiTy>, AllocError>
    ensures entries { OnOk result (map entry_of items.new.items
        ≡ map entry_of items.old.items ++ entries_of groups (adjacent (tree_of inner.now))) }
    ensures ty { IfOk result (λ front. front ≡ front_type (tree_of inner.now)) }
    ensures front { IsFront items.old.items items.new.items }
{
    let at = items.len();
    push(
        items,
        HelpItem::AdjacentStart {
            inner,
            ty: HiTy::Flag,
        },
    )?;
    let Some(ty) = append(items, inner, groups)? else {
        items.truncate(at);
        return Ok(None);
    };
    let first = HelpItem::AdjacentStart { inner, ty };
    close(items, at, first, HelpItem::AdjacentStop { ty })?;
    Ok(Some(ty))
}

// A group, or only its entries where groups are not allowed.
#[cycle(append)]
fn append_group<'a, A: Allocator, L: Allocator>(
    items: &mut Vec<HelpItem<'a, A>, L>,
    inner: &'a Meta<A>,
    help: &'a Doc<A>,
    groups: bool,
) -> Result<Option<HiTy>, AllocError>
    ensures entries { OnOk result (map entry_of items.new.items
        ≡ map entry_of items.old.items ++ entries_of groups (subsection (tree_of inner.now) help.now)) }
    ensures ty { IfOk result (λ front. front ≡ front_type (tree_of inner.now)) }
    ensures front { IsFront items.old.items items.new.items }
{
    if !groups {
        return append(items, inner, false);
    }
    let at = items.len();
    push(
        items,
        HelpItem::GroupStart {
            help,
            ty: HiTy::Flag,
        },
    )?;
    let Some(ty) = append(items, inner, false)? else {
        items.truncate(at);
        return Ok(None);
    };
    let first = HelpItem::GroupStart { help, ty };
    close(items, at, first, HelpItem::GroupEnd { ty })?;
    Ok(Some(ty))
}

#[cycle(append)]
fn append_noted<'a, A: Allocator, L: Allocator>(
    items: &mut Vec<HelpItem<'a, A>, L>,
    inner: &'a Meta<A>,
    help: &'a Doc<A>,
    groups: bool,
) -> Result<Option<HiTy>, AllocError>
    ensures entries { OnOk result (map entry_of items.new.items
        ≡ map entry_of items.old.items ++ entries_of groups (suffix (tree_of inner.now) help.now)) }
    ensures ty { IfOk result (λ front. front ≡ front_type (tree_of inner.now)) }
    ensures front { IsFront items.old.items items.new.items }
{
    let front = append(items, inner, groups)?;
    if let Some(ty) = front {
        push(items, HelpItem::DecorSuffix { help, ty })?;
    }
    Ok(front)
}

// Puts the first mark of a block in the place that was kept for it, and the last mark after the block.
fn close<'a, A: Allocator, L: Allocator>(
    items: &mut Vec<HelpItem<'a, A>, L>,
    at: usize,
    first: HelpItem<'a, A>,
    last: HelpItem<'a, A>,
) -> Result<(), AllocError>
    requires { at < vec_len items.old }
    ensures items { OnOk result (items.new.items ≡ slice_set items.old.items at first.entry ++ last.entry ∷ []) }
    ensures front { IsFront (take at items.old.items) items.new.items }
{
    push(items, first)?;
    // The last item, which is `first`, comes into the place of the one that is removed.
    let _kept = items.swap_remove(at);
    push(items, last)
}

fn push<'a, A: Allocator, L: Allocator>(
    items: &mut Vec<HelpItem<'a, A>, L>,
    item: HelpItem<'a, A>,
) -> Result<(), AllocError>
    ensures items { OnOk result (items.new.items ≡ items.old.items ++ item.entry ∷ []) }
    ensures front { IsFront items.old.items items.new.items }
{
    items.push(item)?;
    Ok(())
}
