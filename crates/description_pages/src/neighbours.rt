//! The names of pages, and which stand directly above and below a level.
ghost use Rattle.std.specs.Prelude.{◌≡◌, ◌++◌, ◌∷◌, [], map, IfOk, OnOk};
ghost use Rattle.description.specs.View.{command_said, commands_said, group_said, groups_said, level_said};
ghost use Rattle.description_pages.specs.Levels.{commands_in, grouped_below, lower_pages, neighbours, page_above};
ghost use Rattle.description_pages.specs.Levels.{page_below, pages_below};
ghost use Rattle.description_pages.specs.Sections.{joined_names};

use crate::levels::Depth;
use bumpalo::Bump;
use description::{Command, Group, Level};
use std::alloc::{AllocError, Allocator};

/// Names in an arena.
pub type ArenaNames<'p, A> = Vec<&'p str, &'p Bump<A>>;

/// Names with a text between two, as one.
pub fn joined_names<'p, A: Allocator>(
    arena: &'p Bump<A>,
    names: &[&str],
    between: &str,
) -> Result<&'p str, AllocError>
    ensures { IfOk result (λ whole. whole.now ≡ joined_names between.now (map (λ name. name.now) names.now)) }
{
    let whole = names.join(arena, between)?;
    arena.try_alloc_str(whole.as_str())
}

/// The names that lead to a command of the level that these names lead to, with a text between two.
pub fn names_below<'p, A: Allocator>(
    arena: &'p Bump<A>,
    names: &[&str],
    command: &str,
    between: &str,
) -> Result<&'p str, AllocError>
    ensures { IfOk result (λ whole. whole.now
        ≡ joined_names between.now (map (λ name. name.now) names.now ++ command.now ∷ [])) }
{
    let mut path: Vec<&str, &'p Bump<A>> = Vec::new(arena);
    path.extend_from_slice(names)?;
    path.push(command)?;
    joined_names(arena, path.as_slice(), between)
}

fn push_above<'p, A: Allocator>(
    arena: &'p Bump<A>,
    pages: &mut ArenaNames<'p, A>,
    names: &[&str],
) -> Result<(), AllocError>
    ensures { OnOk result (map (λ page. page.now) pages.new.items
        ≡ map (λ page. page.now) pages.old.items ++ page_above (map (λ name. name.now) names.now)) }
{
    if names.len() < 2 {
        return Ok(());
    }
    pages.push(joined_names(arena, &names[..names.len() - 1], "-")?)?;
    Ok(())
}

fn push_command<'p, A: Allocator, C: Allocator>(
    arena: &'p Bump<A>,
    pages: &mut ArenaNames<'p, A>,
    names: &[&str],
    command: &Command<'_, C>,
) -> Result<(), AllocError>
    ensures { OnOk result (map (λ page. page.now) pages.new.items ≡ map (λ page. page.now) pages.old.items
        ++ page_below (map (λ name. name.now) names.now) (command_said command.now)) }
{
    if command.hidden {
        return Ok(());
    }
    pages.push(names_below(arena, names, command.name, "-")?)?;
    Ok(())
}

fn push_commands<'p, A: Allocator, C: Allocator>(
    arena: &'p Bump<A>,
    pages: &mut ArenaNames<'p, A>,
    names: &[&str],
    commands: &[Command<'_, C>],
) -> Result<(), AllocError>
    ensures { OnOk result (map (λ page. page.now) pages.new.items ≡ map (λ page. page.now) pages.old.items
        ++ pages_below (map (λ name. name.now) names.now) (commands_said commands.now)) }
{
    for command in commands {
        push_command(arena, pages, names, command)?;
    }
    Ok(())
}

fn push_group<'p, A: Allocator, C: Allocator>(
    arena: &'p Bump<A>,
    pages: &mut ArenaNames<'p, A>,
    names: &[&str],
    group: &Group<'_, C>,
) -> Result<(), AllocError>
    ensures { OnOk result (map (λ page. page.now) pages.new.items ≡ map (λ page. page.now) pages.old.items
        ++ pages_below (map (λ name. name.now) names.now) (commands_in (group_said group.now))) }
{
    push_commands(arena, pages, names, group.commands.as_slice())
}

fn push_groups<'p, A: Allocator, C: Allocator>(
    arena: &'p Bump<A>,
    pages: &mut ArenaNames<'p, A>,
    names: &[&str],
    groups: &[Group<'_, C>],
) -> Result<(), AllocError>
    ensures { OnOk result (map (λ page. page.now) pages.new.items ≡ map (λ page. page.now) pages.old.items
        ++ grouped_below (map (λ name. name.now) names.now) (groups_said groups.now)) }
{
    for group in groups {
        push_group(arena, pages, names, group)?;
    }
    Ok(())
}

fn push_below<'p, A: Allocator, C: Allocator>(
    arena: &'p Bump<A>,
    pages: &mut ArenaNames<'p, A>,
    names: &[&str],
    level: &Level<'_, C>,
) -> Result<(), AllocError>
    ensures { OnOk result (map (λ page. page.now) pages.new.items ≡ map (λ page. page.now) pages.old.items
        ++ lower_pages (map (λ name. name.now) names.now) (level_said level.now)) }
{
    push_groups(arena, pages, names, level.groups.as_slice())?;
    push_commands(arena, pages, names, level.commands.as_slice())
}

/// The names of the pages directly above and below the level that these names lead to. Those of its groups come first.
/// Where the levels below stand on the page of the level, only the page above.
pub fn neighbours<'p, A: Allocator, C: Allocator>(
    arena: &'p Bump<A>,
    depth: Depth,
    names: &[&str],
    level: &Level<'_, C>,
) -> Result<ArenaNames<'p, A>, AllocError>
    ensures { IfOk result (λ pages. map (λ page. page.now) pages.items
        ≡ neighbours depth (map (λ name. name.now) names.now) (level_said level.now)) }
{
    let mut pages: ArenaNames<'p, A> = Vec::new(arena);
    push_above(arena, &mut pages, names)?;
    match depth {
        Depth::Alone => {
            push_below(arena, &mut pages, names, level)?;
            Ok(pages)
        }
        Depth::Deep => Ok(pages),
    }
}
