//! The tree of a command line.
ghost use Rattle.std.specs.Prelude.{◌≡◌, ◌↔◌, true, IfOk, IfNone};
ghost use Rattle.std.specs.Option.{option_map};
ghost use Rattle.bpaf_meta.specs.Content.{item as item_of, skip, no_trees, tree};
ghost use Rattle.bpaf_meta.specs.View.{tree_of, trees_of, leaf_of};
ghost use Rattle.bpaf_meta.specs.Meta.Normal.{is_command_tree, normalized};
ghost use Rattle.bpaf_meta.specs.Meta.Sequences.{is_hidden, ShowsSame};
ghost use Rattle.bpaf_meta.specs.Meta.Shape.{HasUsageShape, HasStrict, KeepsStrict};
ghost use Rattle.bpaf_meta.specs.Meta.Alternatives.{alternatives, choice_form, either_form};
ghost use Rattle.bpaf_meta.specs.Meta.Misplaced.{first_item};

mod check;
pub(crate) mod form;
pub(crate) mod normal;
mod shorts;

use crate::item::Item;
use crate::meta::normal::borrowed_form;
use bpaf_doc::buffer::Doc;
use std::alloc::{AllocError, Allocator, Global};

/// What a command line may hold, as a tree of items.
#[cycle(tree)]
#[derive(Drop)]
#[derive_where(Debug)]
pub enum Meta<A: Allocator = Global> {
    /// All of them.
    And(Vec<Meta<A>, A>),
    /// One of them.
    Or(Vec<Meta<A>, A>),
    /// It may be left out.
    Optional(Box<Meta<A>, A>),
    /// Shown in parentheses where it has several parts.
    Required(Box<Meta<A>, A>),
    /// Its items stand next to each other. A help page lists them as a block.
    Adjacent(Box<Meta<A>, A>),
    Item(Box<Item<A>, A>),
    /// Once or more.
    Many(Box<Meta<A>, A>),
    /// A group of the help page, with this title.
    Subsection(Box<Meta<A>, A>, Box<Doc<A>, A>),
    /// On the help page this note follows its items.
    Suffix(Box<Meta<A>, A>, Box<Doc<A>, A>),
    /// Nothing.
    Skip,
    /// A usage line shows this document in its place, and nothing where the document has no parts.
    CustomUsage(Box<Meta<A>, A>, Box<Doc<A>, A>),
    /// It has to stand after `--`.
    Strict(Box<Meta<A>, A>),
}

impl<A: Allocator> Default for Meta<A> {
    ghost use Rattle.std.specs.Prelude.{◌≡◌};
    ghost use Rattle.bpaf_meta.specs.Content.{skip};
    ghost use Rattle.bpaf_meta.specs.View.{tree_of};

    ghost is_default = { λ m. tree_of m ≡ skip };

    fn default() -> Meta<A> {
        Meta::Skip
    }
}

/// A tree by reference.
#[derive_where(Clone, Copy)]
pub struct MetaInfo<'a, A: Allocator = Global>(pub &'a Meta<A>);

impl<A: Allocator> Meta<A> {
    /// The first item of the tree: an item itself, for an `And` that of its first part, none for `Skip` and `Or`, and
    /// otherwise that of the inner tree.
    pub fn first_item(&self) -> Option<&Item<A>>
        ensures { option_map (λ i. leaf_of i.now) result ≡ first_item (tree_of self.now) }
    {
        match self {
            Meta::And(parts) => match parts.first() {
                Some(part) => part.first_item(),
                None => None,
            },
            Meta::Or(_) | Meta::Skip => None,
            Meta::Item(item) => Some(item),
            Meta::Optional(inner)
            | Meta::Required(inner)
            | Meta::Adjacent(inner)
            | Meta::Many(inner)
            | Meta::Subsection(inner, _)
            | Meta::Suffix(inner, _)
            | Meta::CustomUsage(inner, _)
            | Meta::Strict(inner) => inner.first_item(),
        }
    }

    /// Whether the tree is a command, also one inside `Subsection`.
    pub fn is_command(&self) -> bool
        ensures { result ≡ is_command_tree (tree_of self.now) }
    {
        match self {
            Meta::Item(item) => matches!(**item, Item::Command { .. }),
            Meta::Subsection(inner, _) => inner.is_command(),
            _ => false,
        }
    }
}

impl<A: Allocator + Copy> Meta<A> {
    /// The item as a tree. After `AllocError` the item is dropped.
    pub fn from_item(alloc: A, item: Item<A>) -> Result<Meta<A>, AllocError>
        ensures { IfOk result (λ m. tree_of m ≡ item_of (leaf_of item)) }
    {
        Ok(Meta::Item(Box::new(alloc, item)?))
    }

    /// A copy with the same content.
    #[cycle(copy)]
    pub fn clone(&self) -> Result<Meta<A>, AllocError>
        ensures { IfOk result (λ m. tree_of m ≡ tree_of self.now) }
    {
        match self {
            Meta::And(parts) => Ok(Meta::And(clone_parts(parts)?)),
            Meta::Or(parts) => Ok(Meta::Or(clone_parts(parts)?)),
            Meta::Optional(inner) => Ok(Meta::Optional(clone_boxed(inner)?)),
            Meta::Required(inner) => Ok(Meta::Required(clone_boxed(inner)?)),
            Meta::Adjacent(inner) => Ok(Meta::Adjacent(clone_boxed(inner)?)),
            Meta::Item(item) => Ok(Meta::Item(Box::new(
                *Box::allocator(item),
                Item::clone(item)?,
            )?)),
            Meta::Many(inner) => Ok(Meta::Many(clone_boxed(inner)?)),
            Meta::Subsection(inner, title) => Ok(Meta::Subsection(
                clone_boxed(inner)?,
                clone_doc(title)?,
            )),
            Meta::Suffix(inner, note) => Ok(Meta::Suffix(clone_boxed(inner)?, clone_doc(note)?)),
            Meta::Skip => Ok(Meta::Skip),
            Meta::CustomUsage(inner, usage) => Ok(Meta::CustomUsage(
                clone_boxed(inner)?,
                clone_doc(usage)?,
            )),
            Meta::Strict(inner) => Ok(Meta::Strict(clone_boxed(inner)?)),
        }
    }
}

pub(crate) fn clone_doc<A: Allocator + Copy>(
    doc: &Box<Doc<A>, A>,
) -> Result<Box<Doc<A>, A>, AllocError>
    ensures { IfOk result (λ d. d.value ≡ doc.now.value) }
{
    Ok(Box::new(*Box::allocator(doc), Doc::clone(doc)?)?)
}

#[cycle(copy)]
pub(crate) fn clone_boxed<A: Allocator + Copy>(
    meta: &Box<Meta<A>, A>,
) -> Result<Box<Meta<A>, A>, AllocError>
    ensures { IfOk result (λ m. tree_of m.value ≡ tree_of meta.now.value) }
{
    Ok(Box::new(*Box::allocator(meta), Meta::clone(meta)?)?)
}

#[cycle(copy)]
fn clone_parts<A: Allocator + Copy>(parts: &Vec<Meta<A>, A>) -> Result<Vec<Meta<A>, A>, AllocError>
    ensures { IfOk result (λ v. trees_of v.items ≡ trees_of parts.now.items) }
{
    let mut copies = Vec::with_capacity(*parts.allocator(), parts.len())?;
    for part in parts {
        copies.push(part.clone()?)?;
    }
    Ok(copies)
}

impl<A: Allocator + Copy> Meta<A> {
    /// The normal form of the tree, for a usage line or for other places. It is a new tree; this one does not change.
    ///
    /// Not counting commands' own trees, it has no `Adjacent`, `Subsection` or `Suffix`, one name for each flag and
    /// argument, and `Skip` only as the whole or directly in a `Strict` or a `CustomUsage`. From a tree without
    /// `Strict`, `Skip` as the result says that nothing is shown. An `AllocError` says that an allocation failed.
    #[tactic(auto, using(crate::proofs::lemmas::Normal::Shaped::normalized_shape, crate::proofs::lemmas::Normal::Keeps::normalized_shows, crate::proofs::lemmas::Normal::Marks::normalized_strict))]
    pub fn normalized(&self, for_usage: bool) -> Result<Meta<A>, AllocError>
        ensures form { IfOk result (λ m. tree_of m ≡ normalized for_usage (tree_of self.now)) }
        ensures shape { IfOk result (λ m. HasUsageShape for_usage (tree_of m)) }
        ensures shows { IfOk result (λ m. ShowsSame for_usage (tree_of m) (tree_of self.now)) }
        ensures strict { IfOk result (λ m. KeepsStrict for_usage (tree_of self.now) (tree_of m)) }
        ensures twice { IfOk result (λ m. ¬ HasStrict (tree_of self.now) → normalized for_usage (tree_of m)
            ≡ tree_of m) }
        ensures skip { IfOk result (λ m. ¬ HasStrict (tree_of self.now) → (tree_of m ≡ skip)
            ↔ (is_hidden for_usage (tree_of self.now) ≡ true)) }
    {
        self.form_of_table(for_usage)
    }

    // The tree of the table, from which the other clauses of `normalized` follow.
    fn form_of_table(&self, for_usage: bool) -> Result<Meta<A>, AllocError>
        ensures { IfOk result (λ m. tree_of m ≡ normalized for_usage (tree_of self.now)) }
    {
        match self.allocator() {
            Some(alloc) => borrowed_form(self, for_usage)?.to_meta(alloc),
            None => Ok(Meta::Skip),
        }
    }

    // The allocator of the tree. Only `Skip` has none.
    pub(crate) fn allocator(&self) -> Option<A>
        ensures { IfNone result (tree_of self.now ≡ skip) }
    {
        match self {
            Meta::And(parts) | Meta::Or(parts) => Some(*parts.allocator()),
            Meta::Item(item) => Some(*Box::allocator(item)),
            Meta::Skip => None,
            Meta::Optional(inner)
            | Meta::Required(inner)
            | Meta::Adjacent(inner)
            | Meta::Many(inner)
            | Meta::Subsection(inner, _)
            | Meta::Suffix(inner, _)
            | Meta::CustomUsage(inner, _)
            | Meta::Strict(inner) => Some(*Box::allocator(inner)),
        }
    }
}

impl<A: Allocator + Copy> Meta<A> {
    /// The alternatives of both: an `Or` gives its parts, `Skip` none, and any other tree itself. None give `Skip`, one
    /// stands alone, more are an `Or`. After `AllocError` both trees are dropped.
    #[tactic(auto, using(crate::proofs::lemmas::Normal::Parts::trees_of_append))]
    pub fn or(self, other: Meta<A>) -> Result<Meta<A>, AllocError>
        ensures { IfOk result (λ m. tree_of m ≡ either_form (tree_of self) (tree_of other)) }
    {
        let alloc = match self.allocator() {
            Some(alloc) => alloc,
            None => match other.allocator() {
                Some(alloc) => alloc,
                None => return Ok(Meta::Skip),
            },
        };
        let mut parts = alternatives(alloc, self)?;
        let mut others = alternatives(alloc, other)?;
        parts.append(&mut others)?;
        Ok(one_of(parts))
    }
}

fn alternatives<A: Allocator + Copy>(alloc: A, meta: Meta<A>) -> Result<Vec<Meta<A>, A>, AllocError>
    ensures { IfOk result (λ v. trees_of v.items ≡ alternatives (tree_of meta)) }
{
    match meta {
        Meta::Or(parts) => Ok(parts),
        Meta::Skip => Ok(Vec::new(alloc)),
        other => alone(alloc, other),
    }
}

fn alone<A: Allocator>(alloc: A, meta: Meta<A>) -> Result<Vec<Meta<A>, A>, AllocError>
    ensures { IfOk result (λ v. trees_of v.items ≡ tree (tree_of meta) no_trees) }
{
    let mut parts = Vec::new(alloc);
    parts.push(meta)?;
    Ok(parts)
}

// None give `Skip`, one stands alone, more are an `Or`.
fn one_of<A: Allocator>(mut parts: Vec<Meta<A>, A>) -> Meta<A>
    ensures { tree_of result ≡ choice_form (trees_of parts.items) }
{
    if parts.len() > 1 {
        return Meta::Or(parts);
    }
    match parts.pop() {
        Some(part) => part,
        None => Meta::Skip,
    }
}
