//! Names, items and trees, written into documents as a usage line shows them.
ghost use Rattle.std.specs.Prelude.{◌≡◌, [], ◌∷◌, ◌++◌, if◌then◌else◌, OnOk, OnErr, chars, codes};
ghost use Rattle.std.specs.List.{list_all};
ghost use Rattle.bpaf_doc.specs.Buffer.Growth.{Grows};
ghost use Rattle.bpaf_doc.specs.Buffer.Parts.{IsWellNested};
ghost use Rattle.bpaf_doc.specs.Buffer.Writes.{plain, literal, inside, with_writes};
ghost use Rattle.bpaf_meta.specs.View.{name_of, leaf_of, tree_of};
ghost use Rattle.bpaf_meta.specs.Meta.Normal.{item_form, name_form};
ghost use Rattle.bpaf_meta.specs.Meta.Steps.Forms.{form_of, forms_of};
ghost use Rattle.bpaf_meta.specs.Names.{short_text, long_text};
ghost use Rattle.bpaf_meta.specs.Usage.Nested.{HasNestedDoc, HasNestedDocs};
ghost use Rattle.bpaf_meta.specs.Usage.Writes.{is_bare_character, metavar_writes, name_writes, item_writes};
ghost use Rattle.bpaf_meta.specs.Usage.Writes.{separated, tree_writes, part_writes, usage_writes};

use crate::item::{Item, ShortLong};
use crate::meta::form::Form;
use crate::meta::normal::borrowed_form;
use crate::meta::{Meta, MetaInfo};
use crate::meta_help::Metavar;
use bpaf_doc::buffer::{Block, Doc, Style, Token};
use std::alloc::{AllocError, Allocator};
use unicode::properties::is_uppercase;

// A public call takes back what it wrote before an allocation failed. The functions below leave what they wrote.

/// Writes a name: `--` and the long name if it has one, otherwise `-` and the short name. After `AllocError` the
/// document is as it was.
pub fn write_shortlong<A: Allocator>(doc: &mut Doc<A>, name: &ShortLong) -> Result<(), AllocError>
    ensures ok { OnOk result (doc.new ≡ with_writes doc.old (name_writes (name_of name.now))) }
    ensures err { OnErr result (doc.new ≡ doc.old) }
    ensures nested { IsWellNested doc.old → IsWellNested doc.new }
{
    let before = doc.checkpoint();
    let written = put_name(doc, name);
    doc.settle(before, written)
}

/// Writes the name of a value: bare where it has only uppercase characters, ASCII digits, `-` and `_`, and otherwise
/// between `<` and `>`. After `AllocError` the document is as it was.
pub fn metavar<A: Allocator>(doc: &mut Doc<A>, name: Metavar) -> Result<(), AllocError>
    ensures ok { OnOk result (doc.new ≡ with_writes doc.old (metavar_writes name.0.now)) }
    ensures err { OnErr result (doc.new ≡ doc.old) }
    ensures nested { IsWellNested doc.old → IsWellNested doc.new }
{
    let before = doc.checkpoint();
    let written = put_metavar(doc, name.0);
    doc.settle(before, written)
}

/// Writes an item: the name of a flag, the name of an argument with `=` and its value, the name of a positional value,
/// the document of an `Any`, or `COMMAND ...` for any command. After `AllocError` the document is as it was.
pub fn write_item<A: Allocator, B: Allocator>(
    doc: &mut Doc<A>,
    item: &Item<B>,
) -> Result<(), AllocError>
    ensures ok { OnOk result (doc.new ≡ with_writes doc.old (item_writes (leaf_of item.now))) }
    ensures err { OnErr result (doc.new ≡ doc.old) }
    ensures nested { HasNestedDoc (leaf_of item.now) → IsWellNested doc.old → IsWellNested doc.new }
{
    let before = doc.checkpoint();
    let written = put_item(doc, item);
    doc.settle(before, written)
}

/// Writes the normal form of a tree, between the marks of a `Mono` block (`docs/tree.md`). The form takes its memory
/// from the allocator of the tree. After `AllocError` the document is as it was.
#[tactic(auto, using(crate::proofs::lemmas::Usage::Nested::normalized_nested))]
pub fn write_meta<A: Allocator, B: Allocator + Copy>(
    doc: &mut Doc<A>,
    meta: &Meta<B>,
    for_usage: bool,
) -> Result<(), AllocError>
    ensures ok { OnOk result (doc.new ≡ with_writes doc.old (usage_writes for_usage (tree_of meta.now))) }
    ensures err { OnErr result (doc.new ≡ doc.old) }
    ensures nested { HasNestedDocs (tree_of meta.now) → IsWellNested doc.old → IsWellNested doc.new }
{
    let form = borrowed_form(meta, for_usage)?;
    write_form(doc, &form)
}

/// The same as `write_meta`, with the same error.
pub fn meta<A: Allocator, B: Allocator + Copy>(
    doc: &mut Doc<A>,
    meta: MetaInfo<'_, B>,
    for_usage: bool,
) -> Result<(), AllocError>
    ensures ok { OnOk result (doc.new ≡ with_writes doc.old (usage_writes for_usage (tree_of meta.entry.0.now))) }
    ensures err { OnErr result (doc.new ≡ doc.old) }
    ensures nested { HasNestedDocs (tree_of meta.entry.0.now) → IsWellNested doc.old → IsWellNested doc.new }
{
    write_meta(doc, meta.0, for_usage)
}

// Writes a tree in normal form, between the marks of a `Mono` block.
fn write_form<A: Allocator, B: Allocator>(
    doc: &mut Doc<A>,
    form: &Form<'_, B>,
) -> Result<(), AllocError>
    ensures ok { OnOk result (doc.new ≡ with_writes doc.old (inside Block.Mono (tree_writes (form_of form.now)))) }
    ensures err { OnErr result (doc.new ≡ doc.old) }
    ensures nested { HasNestedDocs (form_of form.now) → IsWellNested doc.old → IsWellNested doc.new }
{
    let before = doc.checkpoint();
    let written = put_usage(doc, form);
    doc.settle(before, written)
}

fn put_name<A: Allocator>(doc: &mut Doc<A>, name: &ShortLong) -> Result<(), AllocError>
    ensures ok { OnOk result (doc.new ≡ with_writes doc.old (name_writes (name_of name.now))) }
    ensures grows { Grows doc.old doc.new }
{
    match *name {
        ShortLong::Short(short) => put_short(doc, short),
        ShortLong::Long(long) => put_long(doc, long),
        ShortLong::Both(_, long) => put_long(doc, long),
    }
}

fn put_short<A: Allocator>(doc: &mut Doc<A>, short: char) -> Result<(), AllocError>
    ensures ok { OnOk result (doc.new ≡ with_writes doc.old (literal (short_text short) ∷ [])) }
    ensures grows { Grows doc.old doc.new }
{
    doc.literal("-")?;
    doc.write_char(short, Style::Literal)
}

fn put_long<A: Allocator>(doc: &mut Doc<A>, long: &str) -> Result<(), AllocError>
    ensures ok { OnOk result (doc.new ≡ with_writes doc.old (literal (long_text long.now) ∷ [])) }
    ensures grows { Grows doc.old doc.new }
{
    doc.literal("--")?;
    doc.literal(long)
}

fn put_metavar<A: Allocator>(doc: &mut Doc<A>, name: &str) -> Result<(), AllocError>
    ensures ok { OnOk result (doc.new ≡ with_writes doc.old (metavar_writes name.now)) }
    ensures grows { Grows doc.old doc.new }
{
    if is_bare(name) {
        return doc.write_str(name, Style::Metavar);
    }
    doc.write_str("<", Style::Metavar)?;
    doc.write_str(name, Style::Metavar)?;
    doc.write_str(">", Style::Metavar)
}

fn is_bare(text: &str) -> bool
    ensures { result ≡ list_all is_bare_character (chars text.now) }
{
    text.chars().all(is_bare_character)
}

fn is_bare_character(character: char) -> bool
    ensures { result ≡ is_bare_character character }
{
    is_uppercase(character) || character.is_ascii_digit() || character == '-' || character == '_'
}

fn put_item<A: Allocator, B: Allocator>(doc: &mut Doc<A>, item: &Item<B>) -> Result<(), AllocError>
    ensures ok { OnOk result (doc.new ≡ with_writes doc.old (item_writes (leaf_of item.now))) }
    ensures grows { Grows doc.old doc.new }
{
    match item {
        Item::Any { metavar, .. } => doc.doc(metavar),
        Item::Positional { metavar, .. } => put_metavar(doc, metavar.0),
        Item::Command { .. } => doc.write_str("COMMAND ...", Style::Metavar),
        Item::Flag { name, .. } => put_name(doc, name),
        Item::Argument { name, metavar, .. } => put_argument(doc, name, *metavar),
    }
}

// Writes an item with the one name that it is shown by: the one for a usage line for true, the other for false.
fn put_shown<A: Allocator, B: Allocator>(
    doc: &mut Doc<A>,
    item: &Item<B>,
    short: bool,
) -> Result<(), AllocError>
    ensures ok { OnOk result (doc.new ≡ with_writes doc.old (item_writes (item_form short (leaf_of item.now)))) }
    ensures grows { Grows doc.old doc.new }
{
    match item {
        Item::Any { .. } | Item::Positional { .. } | Item::Command { .. } => put_item(doc, item),
        Item::Flag { name, .. } => put_name(doc, &one_name(*name, short)),
        Item::Argument { name, metavar, .. } => {
            put_argument(doc, &one_name(*name, short), *metavar)
        }
    }
}

fn one_name(mut name: ShortLong, short: bool) -> ShortLong
    ensures { name_of result ≡ name_form short (name_of name) }
{
    name.normalize(short);
    name
}

fn put_argument<A: Allocator>(
    doc: &mut Doc<A>,
    name: &ShortLong,
    metavar: Metavar,
) -> Result<(), AllocError>
    ensures ok { OnOk result (doc.new
        ≡ with_writes doc.old (name_writes (name_of name.now) ++ plain (codes "=")
        ∷ metavar_writes metavar.0.now)) }
    ensures grows { Grows doc.old doc.new }
{
    put_name(doc, name)?;
    doc.text("=")?;
    put_metavar(doc, metavar.0)
}

fn put_usage<A: Allocator, B: Allocator>(
    doc: &mut Doc<A>,
    form: &Form<'_, B>,
) -> Result<(), AllocError>
    ensures ok { OnOk result (doc.new ≡ with_writes doc.old (inside Block.Mono (tree_writes (form_of form.now)))) }
    ensures grows { Grows doc.old doc.new }
{
    doc.token(Token::BlockStart(Block::Mono))?;
    put_tree(doc, form)?;
    doc.token(Token::BlockEnd(Block::Mono))
}

#[cycle(put)]
fn put_tree<A: Allocator, B: Allocator>(
    doc: &mut Doc<A>,
    form: &Form<'_, B>,
) -> Result<(), AllocError>
    ensures ok { OnOk result (doc.new ≡ with_writes doc.old (tree_writes (form_of form.now))) }
    ensures grows { Grows doc.old doc.new }
{
    match form {
        Form::And(parts) => put_parts(doc, parts, " "),
        Form::Or(parts) => put_parts(doc, parts, " | "),
        Form::Optional(inner) => put_between(doc, "[", inner, "]"),
        Form::Required(inner) => put_between(doc, "(", inner, ")"),
        Form::Many(inner) => {
            put_tree(doc, inner)?;
            doc.text("...")
        }
        Form::Strict(inner) => {
            doc.literal("--")?;
            doc.text(" ")?;
            put_tree(doc, inner)
        }
        Form::CustomUsage(_, usage) => doc.doc(*usage),
        Form::Skip => Ok(()),
        Form::Item(item, short) => put_shown(doc, *item, *short),
    }
}

#[cycle(put)]
fn put_between<A: Allocator, B: Allocator>(
    doc: &mut Doc<A>,
    opening: &str,
    inner: &Box<Form<'_, B>, B>,
    closing: &str,
) -> Result<(), AllocError>
    ensures ok { OnOk result (doc.new
        ≡ with_writes doc.old (plain opening.now ∷ tree_writes (form_of inner.now.value) ++ plain closing.now
        ∷ [])) }
    ensures grows { Grows doc.old doc.new }
{
    doc.text(opening)?;
    put_tree(doc, inner)?;
    doc.text(closing)
}

#[cycle(put)]
fn put_parts<A: Allocator, B: Allocator>(
    doc: &mut Doc<A>,
    parts: &Vec<Form<'_, B>, B>,
    between: &str,
) -> Result<(), AllocError>
    ensures ok { OnOk result (doc.new
        ≡ with_writes doc.old (separated between.now (part_writes (forms_of parts.now.items)))) }
    ensures grows { Grows doc.old doc.new }
{
    let mut is_first = true;
    for part in parts {
        put_separator(doc, is_first, between)?;
        put_tree(doc, part)?;
        is_first = false;
    }
    Ok(())
}

// Nothing before the first part.
fn put_separator<A: Allocator>(
    doc: &mut Doc<A>,
    is_first: bool,
    between: &str,
) -> Result<(), AllocError>
    ensures ok { OnOk result (doc.new ≡ with_writes doc.old (if is_first then [] else plain between.now ∷ [])) }
    ensures grows { Grows doc.old doc.new }
{
    if is_first { Ok(()) } else { doc.text(between) }
}
