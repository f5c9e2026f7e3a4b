//! An application and its commands, one after another.
ghost use Rattle.std.specs.Prelude.{◌≡◌, ◌++◌, ◌∷◌, [], IfOk, OnErr, OnOk, map, string_bytes};
ghost use Rattle.bpaf_meta.specs.View.{head_of, leaf_of, tree_of, trees_of};
ghost use Rattle.bpaf_items.specs.Steps.Growth.{IsFront};
ghost use Rattle.bpaf_help.specs.Chapters.{chapters_of, command_chapters, item_chapters, part_chapters};
ghost use Rattle.bpaf_help.specs.View.{chapter_of};

use crate::pages::paths::copy_of;
use bpaf_items::meta_help::Info;
use bpaf_meta::item::Item;
use bpaf_meta::meta::Meta;
use std::alloc::{AllocError, Allocator, Global};

/// An application or one of its commands: the path of names that leads to it, its texts and its tree. `A` is the
/// allocator of the tree, `L` that of the path.
#[derive(Drop)]
#[derive_where(Debug)]
pub struct DocSection<'a, A: Allocator = Global, L: Allocator = Global> {
    pub path: Vec<String<L>, L>,
    pub info: &'a Info<A>,
    pub meta: &'a Meta<A>,
}

impl<'a, A: Allocator, L: Allocator + Copy> DocSection<'a, A, L> {
    /// A section with the same texts and tree and a copy of the path. An `AllocError` says that an allocation failed.
    pub fn clone(&self) -> Result<DocSection<'a, A, L>, AllocError>
        ensures { IfOk result (λ copy. chapter_of copy ≡ chapter_of self.now) }
    {
        Ok(DocSection {
            path: copy_of(*self.path.allocator(), &self.path)?,
            info: self.info,
            meta: self.meta,
        })
    }
}

/// Appends the section of a command line to `sections`, and then those of its commands, in the order of its item list,
/// each before the commands below it. `path` leads to the command line. The name of each command is added to `path`
/// while the command is gone through, and then removed, so that `path` always ends as it was. After `AllocError`
/// `sections` is as it was.
pub fn extract_sections<'a, A: Allocator, L: Allocator + Copy>(
    meta: &'a Meta<A>,
    info: &'a Info<A>,
    path: &mut Vec<String<L>, L>,
    sections: &mut Vec<DocSection<'a, A, L>, L>,
) -> Result<(), AllocError>
    ensures ok { OnOk result (map chapter_of sections.new.items ≡ map chapter_of sections.old.items
        ++ chapters_of (map string_bytes path.old.items) (head_of info.now) (tree_of meta.now)) }
    ensures err { OnErr result (sections.new.items ≡ sections.old.items) }
    ensures path { path.new.items ≡ path.old.items }
{
    let before = sections.len();
    let appended = append(meta, info, path, sections);
    if appended.is_err() {
        sections.truncate(before);
    }
    appended
}

// After `AllocError` these functions may have appended some of their sections.

// Appends the section of a command line and those of its commands.
#[cycle(append)]
fn append<'a, A: Allocator, L: Allocator + Copy>(
    meta: &'a Meta<A>,
    info: &'a Info<A>,
    path: &mut Vec<String<L>, L>,
    sections: &mut Vec<DocSection<'a, A, L>, L>,
) -> Result<(), AllocError>
    ensures ok { OnOk result (map chapter_of sections.new.items ≡ map chapter_of sections.old.items
        ++ chapters_of (map string_bytes path.old.items) (head_of info.now) (tree_of meta.now)) }
    ensures front { IsFront sections.old.items sections.new.items }
    ensures path { path.new.items ≡ path.old.items }
{
    push(meta, info, path, sections)?;
    append_commands(meta, path, sections)
}

fn push<'a, A: Allocator, L: Allocator + Copy>(
    meta: &'a Meta<A>,
    info: &'a Info<A>,
    path: &Vec<String<L>, L>,
    sections: &mut Vec<DocSection<'a, A, L>, L>,
) -> Result<(), AllocError>
    ensures ok { OnOk result (map chapter_of sections.new.items ≡ map chapter_of sections.old.items
        ++ record {
          path = map string_bytes path.now.items;
          info = head_of info.now;
          content = tree_of meta.now;
        } ∷ []) }
    ensures front { IsFront sections.old.items sections.new.items }
{
    let path = copy_of(*path.allocator(), path)?;
    sections.push(DocSection { path, info, meta })?;
    Ok(())
}

// Appends the sections of the commands in a tree.
#[cycle(append)]
fn append_commands<'a, A: Allocator, L: Allocator + Copy>(
    meta: &'a Meta<A>,
    path: &mut Vec<String<L>, L>,
    sections: &mut Vec<DocSection<'a, A, L>, L>,
) -> Result<(), AllocError>
    ensures ok { OnOk result (map chapter_of sections.new.items ≡ map chapter_of sections.old.items
        ++ command_chapters (map string_bytes path.old.items) (tree_of meta.now)) }
    ensures front { IsFront sections.old.items sections.new.items }
    ensures path { path.new.items ≡ path.old.items }
{
    match meta {
        Meta::And(parts) | Meta::Or(parts) => append_parts(parts, path, sections),
        Meta::Item(item) => append_item(item, path, sections),
        Meta::Skip => Ok(()),
        Meta::Optional(inner)
        | Meta::Required(inner)
        | Meta::Adjacent(inner)
        | Meta::Many(inner)
        | Meta::Subsection(inner, _)
        | Meta::Suffix(inner, _)
        | Meta::CustomUsage(inner, _)
        | Meta::Strict(inner) => append_commands(inner, path, sections),
    }
}

#[cycle(append)]
fn append_parts<'a, A: Allocator, L: Allocator + Copy>(
    parts: &'a Vec<Meta<A>, A>,
    path: &mut Vec<String<L>, L>,
    sections: &mut Vec<DocSection<'a, A, L>, L>,
) -> Result<(), AllocError>
    ensures ok { OnOk result (map chapter_of sections.new.items ≡ map chapter_of sections.old.items
        ++ part_chapters (map string_bytes path.old.items) (trees_of parts.now.items)) }
    ensures front { IsFront sections.old.items sections.new.items }
    ensures path { path.new.items ≡ path.old.items }
{
    for part in parts {
        append_commands(part, path, sections)?;
    }
    Ok(())
}

// The name of a command is at the end of the path while the command is gone through.
#[cycle(append)]
fn append_item<'a, A: Allocator, L: Allocator + Copy>(
    item: &'a Item<A>,
    path: &mut Vec<String<L>, L>,
    sections: &mut Vec<DocSection<'a, A, L>, L>,
) -> Result<(), AllocError>
    ensures ok { OnOk result (map chapter_of sections.new.items ≡ map chapter_of sections.old.items
        ++ item_chapters (map string_bytes path.old.items) (leaf_of item.now)) }
    ensures front { IsFront sections.old.items sections.new.items }
    ensures path { path.new.items ≡ path.old.items }
{
    match item {
        Item::Command {
            name,
            meta,
            info,
            ..
        } => {
            path.push(String::from_str(*path.allocator(), name)?)?;
            let appended = append(meta, info, path, sections);
            let _name = path.pop();
            appended
        }
        Item::Any { .. } | Item::Positional { .. } | Item::Flag { .. } | Item::Argument { .. } =>
            Ok(()),
    }
}

/// The sections of an application and of all its commands.
pub(crate) fn sections_of<'a, A: Allocator, L: Allocator + Copy>(
    alloc: L,
    app: &str,
    meta: &'a Meta<A>,
    info: &'a Info<A>,
) -> Result<Vec<DocSection<'a, A, L>, L>, AllocError>
    ensures { IfOk result (λ sections. map chapter_of sections.items
        ≡ chapters_of (app.now ∷ []) (head_of info.now) (tree_of meta.now)) }
{
    let mut path = Vec::new(alloc);
    path.push(String::from_str(alloc, app)?)?;
    let mut sections: Vec<DocSection<'a, A, L>, L> = Vec::new(alloc);
    extract_sections(meta, info, &mut path, &mut sections)?;
    Ok(sections)
}
