//! Item lists.
ghost use Rattle.std.specs.Prelude.{◌≡◌, false, [], ◌++◌, IfOk, IfSome, OnOk, OnErr, map};
ghost use Rattle.std.specs.List.{position};
ghost use Rattle.std.specs.Option.{option_map};
ghost use Rattle.std.specs.Range.{range_inclusive_start, range_inclusive_end, range_inclusive_exhausted};
ghost use Rattle.bpaf_meta.specs.View.{tree_of};
ghost use Rattle.bpaf_items.specs.Listing.ItemList.{IsItemList, item_list};
ghost use Rattle.bpaf_items.specs.Listing.Falls.{is_group_end, is_group_start, items_of_type};
ghost use Rattle.bpaf_items.specs.Listing.Groups.{find_group};
ghost use Rattle.bpaf_items.specs.View.{entry_of};

use crate::meta_help::entry::{HelpItem, HiTy};
use crate::meta_help::given::HelpItemsIter;
use crate::meta_help::walk::append;
use bpaf_meta::meta::Meta;
use std::alloc::{AllocError, Allocator, Global};
use std::fmt;
use std::marker::Model;
use std::ops::RangeInclusive;

/// The item lists of some trees, one after another: `A` is the allocator of the trees, `L` that of the list.
#[derive(Drop)]
pub struct HelpItems<'a, A: Allocator = Global, L: Allocator = Global> {
    items: Vec<HelpItem<'a, A>, L>,
}

impl<'a, A: Allocator, L: Allocator> Model for HelpItems<'a, A, L> {
    ghost use Rattle.std.specs.Prelude.{List, map};
    ghost use Rattle.std.specs.Coded.{codes};
    ghost use Rattle.bpaf_items.specs.declared.meta_help.entry.HelpItem.{HelpItem};
    ghost use Rattle.bpaf_items.specs.Steps.Codes.{info_code, tree_code};
    ghost use Rattle.bpaf_items.specs.Listing.ItemList.{IsItemList};
    ghost use Rattle.bpaf_items.specs.View.{entry_of};

    ghost Value = { List (HelpItem A) };

    ghost coded = { Prim.hlevel (codes, tree_code A.code, info_code A.code) };

    ghost view = { λ list. list.items.items };

    ghost invariant = { λ list. IsItemList (map entry_of list.items.items) };
}

impl<'a, A: Allocator, L: Allocator> fmt::Debug for HelpItems<'a, A, L> {
    fn fmt<W: fmt::Write>(&self, f: &mut fmt::Formatter<W>) -> fmt::Result {
        f.debug_list().entries(self.items.iter()).finish()
    }
}

impl<'a, A: Allocator, L: Allocator> HelpItems<'a, A, L> {
    /// A list without entries. It takes no memory.
    pub fn new(alloc: L) -> HelpItems<'a, A, L>
        ensures { result ≡ [] }
    {
        HelpItems {
            items: Vec::new(alloc),
        }
    }

    /// The item list of a tree, with that of its help options after it. `AllocError` comes where an allocation failed.
    /// The rules are those of `docs/help.md`.
    pub fn of(
        alloc: L,
        parser: &'a Meta<A>,
        help: &'a Meta<A>,
    ) -> Result<HelpItems<'a, A, L>, AllocError>
        ensures { IfOk result (λ items. map entry_of items
            ≡ item_list (tree_of parser.now) ++ item_list (tree_of help.now)) }
    {
        let mut items: HelpItems<'a, A, L> = HelpItems::new(alloc);
        items.append_meta(parser)?;
        items.append_meta(help)?;
        Ok(items)
    }

    /// Appends the item list of a tree. After `AllocError` the list is as it was.
    pub fn append_meta(&mut self, meta: &'a Meta<A>) -> Result<(), AllocError>
        ensures ok { OnOk result (map entry_of self.new ≡ map entry_of self.old ++ item_list (tree_of meta.now)) }
        ensures err { OnErr result (self.new ≡ self.old) }
    {
        let count = self.items.len();
        match append(&mut self.items, meta, true) {
            Ok(_) => Ok(()),
            Err(refused) => {
                self.items.truncate(count);
                Err(refused)
            }
        }
    }

    /// The entries, in order.
    pub fn items(&self) -> &[HelpItem<'a, A>]
        ensures entries { result.now ≡ self.now }
        ensures listed { IsItemList (map entry_of self.now) }
    {
        self.items.as_slice()
    }

    /// The places from the first start of a group to the first end of one; `None` unless the list has both.
    pub fn find_group(&self) -> Option<RangeInclusive<usize>>
        ensures places { option_map (λ range. (range_inclusive_start range, range_inclusive_end range)) result
            ≡ find_group (map entry_of self.now) }
        ensures whole { IfSome result (λ range. range_inclusive_exhausted range ≡ false) }
    {
        let start = group_start_place(self.items())?;
        let end = group_end_place(self.items())?;
        Some(start..=end)
    }

    /// The entries of a heading, in order. A mark goes by its own type. Any other entry goes by the last mark before
    /// it: after the start of a group by the type of the group; after the start of an adjacent block by the type of the
    /// block, if it has help, and otherwise it is left out; and in all other cases by its own type. A note counts as an
    /// item with help. It takes no memory.
    pub fn items_of_ty(&self, ty: HiTy) -> HelpItemsIter<'a, '_, A>
        ensures { map entry_of result ≡ items_of_type (map entry_of self.now) ty }
    {
        HelpItemsIter::over(self.items(), ty)
    }
}

impl<'a, A: Allocator, L: Allocator + Copy> HelpItems<'a, A, L> {
    // The allocator of the list, for lists that are made from it.
    pub(crate) fn allocator(&self) -> L {
        *self.items.allocator()
    }
}

fn group_start_place<A: Allocator>(items: &[HelpItem<'_, A>]) -> Option<usize>
    ensures { result ≡ position is_group_start (map entry_of items.now) }
{
    items.iter().position(HelpItem::is_group_start)
}

pub(crate) fn group_end_place<A: Allocator>(items: &[HelpItem<'_, A>]) -> Option<usize>
    ensures { result ≡ position is_group_end (map entry_of items.now) }
{
    items.iter().position(HelpItem::is_group_end)
}
