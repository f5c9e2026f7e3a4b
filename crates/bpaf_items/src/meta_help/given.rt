//! The entries of a list that belong to a heading.
ghost use Rattle.std.specs.Prelude.{◌≡◌, map};
ghost use Rattle.bpaf_items.specs.Listing.Falls.{items_of_type, lacks_help, type_of};
ghost use Rattle.bpaf_items.specs.Steps.Given.{is_given_in, state_after};
ghost use Rattle.bpaf_items.specs.View.{entry_of};

use crate::meta_help::entry::{HelpItem, HiTy};
use std::alloc::{Allocator, Global};
use std::marker::Model;

/// The entries of a list that belong to one heading, in order, as `HelpItems::items_of_ty` gives them.
#[derive(Drop)]
pub struct HelpItemsIter<'a, 's, A: Allocator = Global> {
    items: &'s [HelpItem<'a, A>],
    at: usize,
    state: State,
    ty: HiTy,
}

// The block that was started last and has not ended.
#[derive(Clone, Copy)]
pub enum State {
    Outside,
    Group(HiTy),
    Adjacent(HiTy),
}

impl<'a, 's, A: Allocator> Model for HelpItemsIter<'a, 's, A> {
    ghost use Rattle.std.specs.Prelude.{List, drop};
    ghost use Rattle.std.specs.Coded.{codes};
    ghost use Rattle.bpaf_items.specs.declared.meta_help.entry.HelpItem.{HelpItem};
    ghost use Rattle.bpaf_items.specs.Steps.Codes.{info_code, tree_code};

    ghost Value = { List (HelpItem A) };

    ghost coded = { Prim.hlevel (codes, tree_code A.code, info_code A.code) };

    ghost use Rattle.bpaf_items.specs.Steps.Given.{given_from};
    ghost use Rattle.bpaf_items.specs.View.{entry_of};

    ghost view = { λ left. given_from entry_of left.state left.ty (drop left.at left.items.now) };
}

impl<'a, 's, A: Allocator> HelpItemsIter<'a, 's, A> {
    pub(crate) fn over(items: &'s [HelpItem<'a, A>], ty: HiTy) -> HelpItemsIter<'a, 's, A>
        ensures { map entry_of result ≡ items_of_type (map entry_of items.now) ty }
    {
        HelpItemsIter {
            items,
            at: 0,
            state: State::Outside,
            ty,
        }
    }
}

impl<'a, 's, A: Allocator> Iterator for HelpItemsIter<'a, 's, A> {
    ghost use Rattle.std.specs.Iterator.{YieldsFirstBy, item_count};

    type Item = &'s HelpItem<'a, A>;

    ghost next_gives = { YieldsFirstBy (λ item. item.now) (λ left. left) };

    ghost remaining = { item_count (λ left. left) };

    fn next(&mut self) -> Option<&'s HelpItem<'a, A>> {
        while self.at < self.items.len() {
            let item = &self.items[self.at];
            let given = self.state.is_given(item, self.ty);
            self.state = self.state.after(item);
            self.at += 1;
            if given {
                return Some(item);
            }
        }
        None
    }
}

impl State {
    pub fn after<A: Allocator>(self, item: &HelpItem<'_, A>) -> State
        ensures { result ≡ state_after self (entry_of item.now) }
    {
        match *item {
            HelpItem::GroupStart { ty, .. } => State::Group(ty),
            HelpItem::AdjacentStart { ty, .. } => State::Adjacent(ty),
            HelpItem::GroupEnd { .. } | HelpItem::AdjacentStop { .. } => State::Outside,
            _ => self,
        }
    }

    // A mark goes by its own type, any other entry by the block that it is in.
    pub fn is_given<A: Allocator>(self, item: &HelpItem<'_, A>, ty: HiTy) -> bool
        ensures { result ≡ is_given_in self ty (entry_of item.now) }
    {
        if item.is_mark() {
            return type_of(item) == ty;
        }
        match self {
            State::Outside => type_of(item) == ty,
            State::Group(block) => block == ty,
            State::Adjacent(block) => !lacks_help(item) && block == ty,
        }
    }
}

fn type_of<A: Allocator>(item: &HelpItem<'_, A>) -> HiTy
    ensures { result ≡ type_of (entry_of item.now) }
{
    match *item {
        HelpItem::DecorSuffix { ty, .. }
        | HelpItem::GroupStart { ty, .. }
        | HelpItem::GroupEnd { ty }
        | HelpItem::AdjacentStart { ty, .. }
        | HelpItem::AdjacentStop { ty } => ty,
        HelpItem::Any { anywhere: true, .. } | HelpItem::Flag { .. } | HelpItem::Argument { .. } =>
            HiTy::Flag,
        HelpItem::Any { .. } | HelpItem::Positional { .. } => HiTy::Positional,
        HelpItem::Command { .. } => HiTy::Command,
    }
}

// Whether it is an item without help.
pub(crate) fn lacks_help<A: Allocator>(item: &HelpItem<'_, A>) -> bool
    ensures { result ≡ lacks_help (entry_of item.now) }
{
    match *item {
        HelpItem::Any { help, .. }
        | HelpItem::Positional { help, .. }
        | HelpItem::Command { help, .. }
        | HelpItem::Flag { help, .. }
        | HelpItem::Argument { help, .. } => help.is_none(),
        _ => false,
    }
}
