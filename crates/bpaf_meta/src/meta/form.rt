//! A tree in normal form that refers to the items and documents of the original tree, so that these are not copied.
ghost use Rattle.std.specs.Prelude.{◌≡◌, IfOk};
ghost use Rattle.bpaf_meta.specs.View.{tree_of, trees_of, leaf_of};
ghost use Rattle.bpaf_meta.specs.Meta.Normal.{is_command_tree, item_form};
ghost use Rattle.bpaf_meta.specs.Meta.Steps.Forms.{form_of, forms_of};
ghost use Rattle.bpaf_meta.specs.Meta.Steps.Passes.{is_skip_tree};

use crate::item::Item;
use crate::meta::Meta;
use bpaf_doc::buffer::Doc;
use std::alloc::{AllocError, Allocator};

// The mark beside an item says which of two names it is shown by, like the argument of `Item::normalize`.
#[derive(Drop)]
pub(crate) enum Form<'a, A: Allocator> {
    And(Vec<Form<'a, A>, A>),
    Or(Vec<Form<'a, A>, A>),
    Optional(Box<Form<'a, A>, A>),
    Required(Box<Form<'a, A>, A>),
    Item(&'a Item<A>, bool),
    Many(Box<Form<'a, A>, A>),
    Skip,
    CustomUsage(Box<Form<'a, A>, A>, &'a Doc<A>),
    Strict(Box<Form<'a, A>, A>),
}

impl<'a, A: Allocator> Form<'a, A> {
    pub(crate) fn is_skip(&self) -> bool
        ensures { result ≡ is_skip_tree (form_of self.now) }
    {
        matches!(self, Form::Skip)
    }

    pub(crate) fn is_command(&self) -> bool
        ensures { result ≡ is_command_tree (form_of self.now) }
    {
        match self {
            Form::Item(item, _) => matches!(**item, Item::Command { .. }),
            _ => false,
        }
    }
}

impl<'a, A: Allocator + Copy> Form<'a, A> {
    /// A tree of its own, with copies of the items and documents.
    #[cycle(own)]
    pub(crate) fn to_meta(&self, alloc: A) -> Result<Meta<A>, AllocError>
        ensures { IfOk result (λ m. tree_of m ≡ form_of self.now) }
    {
        match self {
            Form::And(parts) => Ok(Meta::And(own_parts(parts, alloc)?)),
            Form::Or(parts) => Ok(Meta::Or(own_parts(parts, alloc)?)),
            Form::Optional(inner) => Ok(Meta::Optional(own_boxed(inner, alloc)?)),
            Form::Required(inner) => Ok(Meta::Required(own_boxed(inner, alloc)?)),
            Form::Item(item, short) => Ok(Meta::Item(one_name(*item, *short, alloc)?)),
            Form::Many(inner) => Ok(Meta::Many(own_boxed(inner, alloc)?)),
            Form::Skip => Ok(Meta::Skip),
            Form::CustomUsage(inner, usage) => Ok(Meta::CustomUsage(
                own_boxed(inner, alloc)?,
                own_doc(*usage, alloc)?,
            )),
            Form::Strict(inner) => Ok(Meta::Strict(own_boxed(inner, alloc)?)),
        }
    }
}

#[cycle(own)]
fn own_boxed<A: Allocator + Copy>(
    form: &Form<'_, A>,
    alloc: A,
) -> Result<Box<Meta<A>, A>, AllocError>
    ensures { IfOk result (λ m. tree_of m.value ≡ form_of form.now) }
{
    Ok(Box::new(alloc, form.to_meta(alloc)?)?)
}

#[cycle(own)]
fn own_parts<'a, A: Allocator + Copy>(
    parts: &Vec<Form<'a, A>, A>,
    alloc: A,
) -> Result<Vec<Meta<A>, A>, AllocError>
    ensures { IfOk result (λ v. trees_of v.items ≡ forms_of parts.now.items) }
{
    let mut copies = Vec::with_capacity(alloc, parts.len())?;
    for part in parts {
        copies.push(part.to_meta(alloc)?)?;
    }
    Ok(copies)
}

fn own_doc<A: Allocator + Copy>(doc: &Doc<A>, alloc: A) -> Result<Box<Doc<A>, A>, AllocError>
    ensures { IfOk result (λ d. d.value ≡ doc.now) }
{
    Ok(Box::new(alloc, doc.clone()?)?)
}

// A copy of the item with one name.
fn one_name<A: Allocator + Copy>(
    item: &Item<A>,
    short: bool,
    alloc: A,
) -> Result<Box<Item<A>, A>, AllocError>
    ensures { IfOk result (λ i. leaf_of i.value ≡ item_form short (leaf_of item.now)) }
{
    let mut copy = item.clone()?;
    copy.normalize(short);
    Ok(Box::new(alloc, copy)?)
}
