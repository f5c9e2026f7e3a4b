//! The entries of an item list.
ghost use Rattle.std.specs.Prelude.{◌≡◌};
ghost use Rattle.std.specs.Option.{option_map};
ghost use Rattle.bpaf_items.specs.Listing.Falls.{is_group_end, is_group_start, is_mark};
ghost use Rattle.bpaf_items.specs.Listing.Keys.{entry_key};
ghost use Rattle.bpaf_items.specs.View.{entry_of, key_in};

use crate::meta_help::key::ItemKey;
use bpaf_doc::buffer::Doc;
use bpaf_meta::item::{Item, ShortLong};
use bpaf_meta::meta::Meta;
use bpaf_meta::meta_help::{Info, Metavar};
use std::alloc::{Allocator, Global};

/// The heading that an item is listed under.
#[derive(Clone, Copy, Debug, PartialEq, Eq)]
pub enum HiTy {
    Flag,
    Command,
    Positional,
}

/// An entry of an item list: an item, a note below the items before it (`DecorSuffix`), or a mark that starts or ends a
/// group or an adjacent block. Texts and trees are borrowed.
#[derive_where(Clone, Copy, Debug)]
pub enum HelpItem<'a, A: Allocator = Global> {
    DecorSuffix {
        help: &'a Doc<A>,
        ty: HiTy,
    },
    GroupStart {
        help: &'a Doc<A>,
        ty: HiTy,
    },
    GroupEnd {
        ty: HiTy,
    },
    Any {
        metavar: &'a Doc<A>,
        anywhere: bool,
        help: Option<&'a Doc<A>>,
    },
    Positional {
        metavar: Metavar,
        help: Option<&'a Doc<A>>,
    },
    Command {
        name: &'static str,
        short: Option<char>,
        help: Option<&'a Doc<A>>,
        meta: &'a Meta<A>,
        info: &'a Info<A>,
    },
    Flag {
        name: ShortLong,
        env: Option<&'static str>,
        help: Option<&'a Doc<A>>,
    },
    Argument {
        name: ShortLong,
        metavar: Metavar,
        env: Option<&'static str>,
        help: Option<&'a Doc<A>>,
    },
    AdjacentStart {
        inner: &'a Meta<A>,
        ty: HiTy,
    },
    AdjacentStop {
        ty: HiTy,
    },
}

impl<'a, A: Allocator> From<&'a Item<A>> for HiTy {
    ghost use Rattle.std.specs.Prelude.{◌≡◌};
    ghost use Rattle.bpaf_meta.specs.View.{leaf_of};
    ghost use Rattle.bpaf_items.specs.Listing.ItemList.{type_of_item};

    ghost from_gives = { λ item ty. ty ≡ type_of_item (leaf_of item.now) };

    /// The type of an item. An `Any` that may stand anywhere counts as a flag, any other `Any` as a positional value.
    fn from(item: &'a Item<A>) -> HiTy {
        match item {
            Item::Any { anywhere, .. } => {
                if *anywhere {
                    HiTy::Flag
                } else {
                    HiTy::Positional
                }
            }
            Item::Positional { .. } => HiTy::Positional,
            Item::Command { .. } => HiTy::Command,
            Item::Flag { .. } | Item::Argument { .. } => HiTy::Flag,
        }
    }
}

impl<'a, A: Allocator> From<&'a Item<A>> for HelpItem<'a, A> {
    ghost use Rattle.std.specs.Prelude.{◌≡◌};
    ghost use Rattle.bpaf_meta.specs.View.{leaf_of};
    ghost use Rattle.bpaf_items.specs.Listing.ItemList.{entry_of_item};
    ghost use Rattle.bpaf_items.specs.View.{entry_of};

    ghost from_gives = { λ item entry. entry_of entry ≡ entry_of_item (leaf_of item.now) };

    /// The item as a list shows it: without its list of short names.
    fn from(item: &'a Item<A>) -> HelpItem<'a, A> {
        match item {
            Item::Any {
                metavar,
                anywhere,
                help,
            } => HelpItem::Any {
                metavar,
                anywhere: *anywhere,
                help: help.as_ref(),
            },
            Item::Positional { metavar, help } => HelpItem::Positional {
                metavar: *metavar,
                help: help.as_ref(),
            },
            Item::Command {
                name,
                short,
                help,
                meta,
                info,
            } => HelpItem::Command {
                name: *name,
                short: *short,
                help: help.as_ref(),
                meta,
                info,
            },
            Item::Flag {
                name,
                env,
                help,
                ..
            } => HelpItem::Flag {
                name: *name,
                env: *env,
                help: help.as_ref(),
            },
            Item::Argument {
                name,
                metavar,
                env,
                help,
                ..
            } => HelpItem::Argument {
                name: *name,
                metavar: *metavar,
                env: *env,
                help: help.as_ref(),
            },
        }
    }
}

impl<'a, A: Allocator> HelpItem<'a, A> {
    /// The key of an item. Marks and notes have none.
    pub fn key(&self) -> Option<ItemKey<'a, A>>
        ensures { option_map key_in result ≡ entry_key (entry_of self.now) }
    {
        match *self {
            HelpItem::Any { metavar, help, .. } => Some(ItemKey::Any(metavar, help)),
            HelpItem::Positional { metavar, help } => Some(ItemKey::Word(metavar.0, help)),
            HelpItem::Command { name, help, .. } => Some(ItemKey::Word(name, help)),
            HelpItem::Flag { name, help, .. } => Some(ItemKey::Flag(name, help)),
            HelpItem::Argument {
                name,
                metavar,
                help,
                ..
            } => Some(ItemKey::Argument(name, metavar, help)),
            HelpItem::DecorSuffix { .. }
            | HelpItem::GroupStart { .. }
            | HelpItem::GroupEnd { .. }
            | HelpItem::AdjacentStart { .. }
            | HelpItem::AdjacentStop { .. } => None,
        }
    }

    pub(crate) fn is_group_start(&self) -> bool
        ensures { result ≡ is_group_start (entry_of self.now) }
    {
        matches!(self, HelpItem::GroupStart { .. })
    }

    pub(crate) fn is_group_end(&self) -> bool
        ensures { result ≡ is_group_end (entry_of self.now) }
    {
        matches!(self, HelpItem::GroupEnd { .. })
    }

    // Whether it starts or ends a group or an adjacent block.
    pub(crate) fn is_mark(&self) -> bool
        ensures { result ≡ is_mark (entry_of self.now) }
    {
        matches!(
            self,
            HelpItem::GroupStart { .. }
                | HelpItem::GroupEnd { .. }
                | HelpItem::AdjacentStart { .. }
                | HelpItem::AdjacentStop { .. }
        )
    }
}
