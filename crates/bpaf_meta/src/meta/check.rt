//! The check that no named item stands after a positional one.
ghost use Rattle.std.specs.Prelude.{◌≡◌, OnOk, IfErr};
ghost use Rattle.std.specs.Option.{option_map};
ghost use Rattle.bpaf_meta.specs.View.{tree_of, trees_of, leaf_of};
ghost use Rattle.bpaf_meta.specs.Meta.Misplaced.{IsWellPlaced, IsFirstMisplaced, first_item, first_item_of_parts};
ghost use Rattle.bpaf_meta.specs.Content.{item as item_of};
ghost use Rattle.bpaf_meta.specs.Meta.Steps.Walk.{IsKnown, check_of, walked, walked_within, walked_parts};
ghost use Rattle.bpaf_meta.specs.Meta.Steps.Walk.{walked_branches};

use crate::item::Item;
use crate::meta::Meta;
use std::alloc::Allocator;

impl<A: Allocator> Meta<A> {
    /// Checks that each named item stands before the positional ones of its line. `Err` has the first item that does
    /// not, in tree order, where the items of a command's own tree come right after the command. An `Adjacent` that
    /// begins with a named item is checked alone, and so is the own tree of each command that is reached. The inside of
    /// an `Adjacent` without a first item is not checked (`docs/tree.md`). The check takes no memory.
    #[tactic(auto, using(crate::proofs::lemmas::Misplaced::Lines::first_misplaced))]
    pub fn positional_invariant_check(&self) -> Result<(), &Item<A>>
        ensures ok { OnOk result (IsWellPlaced (tree_of self.now)) }
        ensures err { IfErr result (λ i. IsFirstMisplaced (tree_of self.now) (leaf_of i.now)) }
    {
        match walk(self, None, false) {
            Ok(_) => Ok(()),
            Err(item) => Err(item),
        }
    }
}

// Goes through a tree. `seen` says whether a positional item was seen, and so does the answer for what comes next. The
// tree's first item is `known` where an `Adjacent` around it has looked for it, so that it is looked for once, even
// within several of them.
#[cycle(walk)]
fn walk<'a, A: Allocator>(
    meta: &'a Meta<A>,
    known: Option<&'a Item<A>>,
    seen: bool,
) -> Result<bool, &'a Item<A>>
    requires known { IsKnown known (first_item (tree_of meta.now)) }
    ensures { check_of result ≡ walked (tree_of meta.now) seen }
{
    match meta {
        Meta::And(parts) => walk_parts(parts, known, seen),
        Meta::Or(parts) => walk_branches(parts, seen),
        Meta::Item(item) => walk_item(item, seen),
        Meta::Skip => Ok(seen),
        Meta::Adjacent(inner) => match first_of(inner, known) {
            None => Ok(seen),
            Some(first) => {
                if first.is_pos() {
                    walk(inner, Some(first), seen)
                } else {
                    walk(inner, Some(first), false)?;
                    Ok(seen)
                }
            }
        },
        Meta::Optional(inner)
        | Meta::Required(inner)
        | Meta::Many(inner)
        | Meta::Subsection(inner, _)
        | Meta::Suffix(inner, _)
        | Meta::CustomUsage(inner, _)
        | Meta::Strict(inner) => walk(inner, known, seen),
    }
}

// The first item of a tree, which is looked for unless it is known.
fn first_of<'a, A: Allocator>(meta: &'a Meta<A>, known: Option<&'a Item<A>>) -> Option<&'a Item<A>>
    requires known { IsKnown known (first_item (tree_of meta.now)) }
    ensures { option_map (λ i. leaf_of i.now) result ≡ first_item (tree_of meta.now) }
{
    match known {
        Some(_) => known,
        None => meta.first_item(),
    }
}

#[cycle(walk)]
fn walk_item<A: Allocator>(item: &Item<A>, seen: bool) -> Result<bool, &Item<A>>
    ensures { check_of result ≡ walked (item_of (leaf_of item.now)) seen }
{
    let is_positional = item.is_pos();
    if seen && !is_positional {
        return Err(item);
    }
    if let Item::Command { meta, .. } = item {
        walk(meta, None, false)?;
    }
    Ok(seen || is_positional)
}

#[cycle(walk)]
fn walk_parts<'a, A: Allocator>(
    parts: &'a Vec<Meta<A>, A>,
    known: Option<&'a Item<A>>,
    seen: bool,
) -> Result<bool, &'a Item<A>>
    requires known { IsKnown known (first_item_of_parts (trees_of parts.now.items)) }
    ensures { check_of result ≡ walked_parts (trees_of parts.now.items) seen }
{
    let mut running = seen;
    let mut known = known;
    for part in parts {
        running = walk(part, known, running)?;
        known = None;
    }
    Ok(running)
}

// Each branch starts from the same mark; the mark afterwards is set if a branch sets it.
#[cycle(walk)]
fn walk_branches<A: Allocator>(branches: &Vec<Meta<A>, A>, seen: bool) -> Result<bool, &Item<A>>
    ensures { check_of result ≡ walked_branches (trees_of branches.now.items) seen seen }
{
    let mut after = seen;
    for branch in branches {
        after |= walk(branch, None, seen)?;
    }
    Ok(after)
}
