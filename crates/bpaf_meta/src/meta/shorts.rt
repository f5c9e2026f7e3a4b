//! The short names of a tree, which tell how to split `-abc`.
ghost use Rattle.std.specs.Prelude.{false, ◌≡◌, ◌∷◌, ◌++◌, OnOk, OnErr};
ghost use Rattle.bpaf_meta.specs.View.{tree_of, trees_of, leaf_of};
ghost use Rattle.std.specs.List.{flat_map};
ghost use Rattle.bpaf_meta.specs.Meta.Shorts.{flag_shorts, argument_shorts, shorts_of_flag, shorts_of_argument};
ghost use Rattle.bpaf_meta.specs.Meta.Misplaced.{items_in_parts, command_items};
ghost use Rattle.bpaf_meta.specs.Meta.Shorts.{IsFront};

use crate::item::Item;
use crate::meta::Meta;
use std::alloc::{AllocError, Allocator};

impl<A: Allocator> Meta<A> {
    /// Appends, in tree order, the `shorts` of flags to `flags` and those of arguments to `args`. Those of commands'
    /// own trees are included, and those inside `Strict` are not. After `AllocError` both lists are as they were.
    pub fn collect_shorts<B: Allocator, C: Allocator>(
        &self,
        flags: &mut Vec<char, B>,
        args: &mut Vec<char, C>,
    ) -> Result<(), AllocError>
        ensures flags { OnOk result (flags.new.items ≡ flags.old.items ++ flag_shorts (tree_of self.now)) }
        ensures args { OnOk result (args.new.items ≡ args.old.items ++ argument_shorts (tree_of self.now)) }
        ensures flags_kept { OnErr result (flags.new.items ≡ flags.old.items) }
        ensures args_kept { OnErr result (args.new.items ≡ args.old.items) }
    {
        let flag_count = flags.len();
        let arg_count = args.len();
        let gathered = gather(self, flags, args);
        if gathered.is_err() {
            flags.truncate(flag_count);
            args.truncate(arg_count);
        }
        gathered
    }
}

// After `AllocError` something may have been appended.
#[cycle(shorts)]
fn gather<A: Allocator, B: Allocator, C: Allocator>(
    meta: &Meta<A>,
    flags: &mut Vec<char, B>,
    args: &mut Vec<char, C>,
) -> Result<(), AllocError>
    ensures flags { OnOk result (flags.new.items ≡ flags.old.items ++ flag_shorts (tree_of meta.now)) }
    ensures args { OnOk result (args.new.items ≡ args.old.items ++ argument_shorts (tree_of meta.now)) }
    ensures flags_front { IsFront flags.old.items flags.new.items }
    ensures args_front { IsFront args.old.items args.new.items }
{
    match meta {
        Meta::And(parts) | Meta::Or(parts) => gather_parts(parts, flags, args),
        Meta::Item(item) => gather_item(item, flags, args),
        Meta::Skip | Meta::Strict(_) => Ok(()),
        Meta::Optional(inner)
        | Meta::Required(inner)
        | Meta::Adjacent(inner)
        | Meta::Many(inner)
        | Meta::Subsection(inner, _)
        | Meta::Suffix(inner, _)
        | Meta::CustomUsage(inner, _) => gather(inner, flags, args),
    }
}

#[cycle(shorts)]
fn gather_item<A: Allocator, B: Allocator, C: Allocator>(
    item: &Item<A>,
    flags: &mut Vec<char, B>,
    args: &mut Vec<char, C>,
) -> Result<(), AllocError>
    ensures flags { OnOk result (flags.new.items ≡ flags.old.items
        ++ flat_map shorts_of_flag (leaf_of item.now ∷ command_items false (leaf_of item.now))) }
    ensures args { OnOk result (args.new.items ≡ args.old.items
        ++ flat_map shorts_of_argument (leaf_of item.now ∷ command_items false (leaf_of item.now))) }
    ensures flags_front { IsFront flags.old.items flags.new.items }
    ensures args_front { IsFront args.old.items args.new.items }
{
    match item {
        Item::Any { .. } | Item::Positional { .. } => Ok(()),
        Item::Command { meta, .. } => gather(meta, flags, args),
        Item::Flag { shorts, .. } => flags.extend_from_slice(shorts),
        Item::Argument { shorts, .. } => args.extend_from_slice(shorts),
    }
}

#[cycle(shorts)]
fn gather_parts<A: Allocator, B: Allocator, C: Allocator>(
    parts: &Vec<Meta<A>, A>,
    flags: &mut Vec<char, B>,
    args: &mut Vec<char, C>,
) -> Result<(), AllocError>
    ensures flags { OnOk result (flags.new.items ≡ flags.old.items
        ++ flat_map shorts_of_flag (items_in_parts false (trees_of parts.now.items))) }
    ensures args { OnOk result (args.new.items ≡ args.old.items
        ++ flat_map shorts_of_argument (items_in_parts false (trees_of parts.now.items))) }
    ensures flags_front { IsFront flags.old.items flags.new.items }
    ensures args_front { IsFront args.old.items args.new.items }
{
    for part in parts {
        gather(part, flags, args)?;
    }
    Ok(())
}
