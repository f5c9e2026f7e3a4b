//! The levels that have pages of their own, each with the way to it.
ghost use Rattle.std.specs.Prelude.{◌≡◌, ◌++◌, map, IfOk, OnOk};
ghost use Rattle.description.specs.View.{command_said, commands_said, description_said, group_said, groups_said, level_said};
ghost use Rattle.description_hints.specs.Pages.{command_pages, commands_pages, group_pages, groups_pages};
ghost use Rattle.description_hints.specs.Pages.{page_below, pages, pages_below};
ghost use Rattle.description_hints.specs.View.{page_site_said, path_said};

use crate::sites::table_in;
use bumpalo::Bump;
use bumpalo::collections::into_bump_slice;
use description::{Command, Description, Group, Level};
use keyed::Step;
use std::alloc::{AllocError, Allocator};

/// A level that has a page of its own: the way to it, and the name of its page.
#[derive(Clone, Copy)]
pub struct PageSite<'p> {
    pub path: &'p [Step<'p>],
    pub name: &'p str,
}

/// Such levels in an arena.
pub type Pages<'p> = Vec<PageSite<'p>, &'p Bump>;

// The name of the page of a command, after that of the level that has it.
fn page_below<'p>(arena: &'p Bump, above: &str, name: &str) -> Result<&'p str, AllocError>
    ensures { IfOk result (λ page. page.now ≡ page_below above.now name.now) }
{
    let mut page = String::from_str(arena, above)?;
    page.push_str("-")?;
    page.push_str(name)?;
    arena.try_alloc_str(page.as_str())
}

#[cycle(pages)]
fn push_below<'p, 'a: 'p, C: Allocator>(
    arena: &'p Bump,
    pages: &mut Pages<'p>,
    path: &'p [Step<'p>],
    above: &'p str,
    level: &'p Level<'a, C>,
) -> Result<(), AllocError>
    ensures { OnOk result (map page_site_said pages.new.items ≡ map page_site_said pages.old.items
        ++ pages_below (path_said path.now) above.now (level_said level.now)) }
{
    push_groups(arena, pages, path, above, &level.groups)?;
    push_commands(arena, pages, path, above, &level.commands)
}

#[cycle(pages)]
fn push_groups<'p, 'a: 'p, C: Allocator>(
    arena: &'p Bump,
    pages: &mut Pages<'p>,
    path: &'p [Step<'p>],
    above: &'p str,
    groups: &'p Vec<Group<'a, C>, C>,
) -> Result<(), AllocError>
    ensures { OnOk result (map page_site_said pages.new.items ≡ map page_site_said pages.old.items
        ++ groups_pages (path_said path.now) above.now 0 (groups_said groups.now.items)) }
{
    for (at, group) in groups.iter().enumerate() {
        let path = table_in(arena, path, "group", at)?;
        push_group(arena, pages, path, above, group)?;
    }
    Ok(())
}

#[cycle(pages)]
fn push_group<'p, 'a: 'p, C: Allocator>(
    arena: &'p Bump,
    pages: &mut Pages<'p>,
    path: &'p [Step<'p>],
    above: &'p str,
    group: &'p Group<'a, C>,
) -> Result<(), AllocError>
    ensures { OnOk result (map page_site_said pages.new.items ≡ map page_site_said pages.old.items
        ++ group_pages (path_said path.now) above.now (group_said group.now)) }
{
    push_commands(arena, pages, path, above, &group.commands)
}

#[cycle(pages)]
fn push_commands<'p, 'a: 'p, C: Allocator>(
    arena: &'p Bump,
    pages: &mut Pages<'p>,
    path: &'p [Step<'p>],
    above: &'p str,
    commands: &'p Vec<Command<'a, C>, C>,
) -> Result<(), AllocError>
    ensures { OnOk result (map page_site_said pages.new.items ≡ map page_site_said pages.old.items
        ++ commands_pages (path_said path.now) above.now 0 (commands_said commands.now.items)) }
{
    for (at, command) in commands.iter().enumerate() {
        let path = table_in(arena, path, "command", at)?;
        push_command(arena, pages, path, above, command)?;
    }
    Ok(())
}

#[cycle(pages)]
fn push_command<'p, 'a: 'p, C: Allocator>(
    arena: &'p Bump,
    pages: &mut Pages<'p>,
    path: &'p [Step<'p>],
    above: &'p str,
    command: &'p Command<'a, C>,
) -> Result<(), AllocError>
    ensures { OnOk result (map page_site_said pages.new.items ≡ map page_site_said pages.old.items
        ++ command_pages (path_said path.now) above.now (command_said command.now)) }
{
    if command.hidden {
        return Ok(());
    }
    let name = page_below(arena, above, command.name)?;
    pages.push(PageSite { path, name })?;
    push_below(arena, pages, path, name, &command.level)
}

/// The levels of a description that have pages. An error comes only where an allocation failed.
pub fn pages<'p, 'a: 'p, C: Allocator>(
    arena: &'p Bump,
    description: &'p Description<'a, C>,
) -> Result<Pages<'p>, AllocError>
    ensures { IfOk result (λ found. map page_site_said found.items ≡ pages (description_said description.now)) }
{
    let mut found: Pages<'p> = Vec::new(arena);
    let path: &'p [Step<'p>] = into_bump_slice(Vec::new(arena));
    let name = description.name;
    found.push(PageSite { path, name })?;
    push_below(arena, &mut found, path, name, &description.level)?;
    Ok(found)
}
