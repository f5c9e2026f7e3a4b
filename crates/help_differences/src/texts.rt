//! The lines that say which names one side alone has.
ghost use Rattle.std.specs.Prelude.{◌≡◌, ◌==◌, ◌++◌, IfOk, OnOk, flat_map, map, string_bytes};
ghost use Rattle.std.specs.List.{slice_split};
ghost use Rattle.description.specs.View.{level_said, opt_said};
ghost use Rattle.help_differences.specs.Texts as spec;
ghost use Rattle.help_differences.specs.View.{difference_said, help_said};

use crate::compared::{Difference, Side, differences};
use crate::help::names_of_help;
use crate::level::names_of_level;
use crate::names::Kind;
use bumpalo::Bump;
use description::{Level, Opt};
use shown_letters::shown_letters;
use std::alloc::{AllocError, Allocator};

/// A help text, and what the lines call it and the description that it is compared with.
#[derive(Clone, Copy, Debug)]
pub struct HelpText<'h> {
    /// What the program printed for help.
    pub printed: &'h str,
    /// What the help text is called, as `help.txt`.
    pub help_name: &'h str,
    /// What the description is called, as `app.toml`.
    pub description_name: &'h str,
}

impl<'h> HelpText<'h> {
    // What the side is called where a name stands, and the other side.
    fn sides(self, stands: Side) -> (&'h str, &'h str)
        ensures stands { result.0.now ≡ spec.stands_in stands (help_said self.entry) }
        ensures lacks { result.1.now ≡ spec.lacks_in stands (help_said self.entry) }
    {
        match stands {
            Side::Description => (self.description_name, self.help_name),
            Side::Help => (self.help_name, self.description_name),
        }
    }
}

fn kind_word(kind: Kind) -> &'static str
    ensures { result.now ≡ spec.kind_word kind }
{
    match kind {
        Kind::Option => "option ",
        Kind::Command => "command ",
    }
}

fn push_line<A: Allocator>(
    text: &mut String<A>,
    help: HelpText<'_>,
    difference: Difference<'_>,
) -> Result<(), AllocError>
    ensures { OnOk result (string_bytes text.new
        ≡ string_bytes text.old ++ spec.line (help_said help.entry) (difference_said difference.entry)) }
{
    let (stands, lacks) = help.sides(difference.stands);
    text.push_str(kind_word(difference.name.kind))?;
    text.push_str(difference.name.text)?;
    text.push_str(": in ")?;
    text.push_str(stands)?;
    text.push_str(", not in ")?;
    text.push_str(lacks)?;
    text.push_str("\n")
}

fn lines_in<'a, A: Allocator>(alloc: A, text: &'a str) -> Result<Vec<&'a str, A>, AllocError>
    ensures { IfOk result (λ lines. map (λ line. line.now) lines.items ≡ slice_split (λ b. b == 10) text.now) }
{
    text.split('\n').collect(alloc)
}

fn lines_of<A: Allocator>(
    alloc: A,
    help: HelpText<'_>,
    found: &[Difference<'_>],
) -> Result<String<A>, AllocError>
    ensures { IfOk result (λ text. string_bytes text
        ≡ flat_map (spec.line (help_said help.entry)) (map difference_said found.now)) }
{
    let mut text = String::new(alloc);
    for difference in found {
        push_line(&mut text, help, *difference)?;
    }
    Ok(text)
}

/// A line for each name that either the level or the help text has alone, options first and then by their bytes:
/// `option --old: in help.txt, not in app.toml`. Names on the way are kept in the arena.
///
/// # Errors
///
/// Memory.
pub fn difference_text<'p, 'a: 'p, A: Allocator, C: Allocator>(
    alloc: A,
    arena: &'p Bump,
    help: HelpText<'_>,
    help_options: &[Opt<'p>],
    level: &'p Level<'a, C>,
) -> Result<String<A>, AllocError>
    ensures { IfOk result (λ text. spec.IsComparison (help_said help.entry)
        (map opt_said help_options.now) (level_said level.now) (string_bytes text)) }
{
    let shown = shown_letters(arena, help.printed)?;
    let lines = lines_in(arena, shown.as_str())?;
    let theirs = names_of_help(arena, &lines)?;
    let ours = names_of_level(arena, level, help_options)?;
    let found = differences(arena, &ours, &theirs)?;
    lines_of(alloc, help, &found)
}

/// Whether a help text has no name. Names on the way are kept in the arena.
///
/// # Errors
///
/// Memory.
pub fn has_no_name(arena: &Bump, printed: &str) -> Result<bool, AllocError>
    ensures { IfOk result (λ is_so. is_so ≡ spec.has_no_name printed.now) }
{
    let shown = shown_letters(arena, printed)?;
    let lines = lines_in(arena, shown.as_str())?;
    let names = names_of_help(arena, &lines)?;
    Ok(names.is_empty())
}
