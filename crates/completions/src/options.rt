//! Options and positional values.
ghost use Rattle.std.specs.Prelude.{◌≡◌, ◌++◌, ◌∷◌, [], codes, encode_utf8, map, OnOk, string_bytes};
ghost use Rattle.description.specs.View.{choice_said, name_said, opt_said, positional_said, spelling_said, text_of};
ghost use Rattle.completions.specs.Table.{choice_entries, choices_entries, files, hint_of, how_of, lone};
ghost use Rattle.completions.specs.Table.{members_entries, name_entries, names, option_entries, option_entry};
ghost use Rattle.completions.specs.Table.{options_entries, place_entries, place_word, places_entries};
ghost use Rattle.completions.specs.Table.{shown_option, times, what_after};
ghost use Rattle.completions.specs.Written.{Writes};

use crate::entries::{Entry, push_entry};
use crate::helps::help_text;
use crate::shells::Shell;
use crate::syntax::{How, push_syntax, syntax_how};
use crate::values::{offer, push_values};
use bumpalo::Bump;
use description::{Choice, Name, Opt, Positional, Spelling, ValueHint};
use std::alloc::{AllocError, Allocator};

/// A script in an arena.
pub type Script<'p> = String<&'p Bump>;

// ---- options

fn how_of(option: &Opt<'_>) -> How
    ensures { result ≡ how_of (opt_said option.now).spelling (opt_said option.now).value }
{
    match (option.spelling, option.value) {
        (Spelling::Syntax(text), _) => syntax_how(text),
        (Spelling::Names(_), Some(_)) => How::Value,
        (Spelling::Names(_), None) => How::Flag,
    }
}

fn hint_of(how: How, values: Option<&str>, hint: ValueHint) -> &'static str
    ensures { result.now ≡ hint_of how (text_of values.entry) hint }
{
    match how {
        How::Flag => "none",
        How::Value | How::Word | How::Optional => offer(values, hint),
    }
}

fn push_short<A: Allocator>(
    arena: &Bump,
    out: &mut String<A>,
    shell: Shell,
    short: char,
) -> Result<(), AllocError>
    ensures { OnOk result (Writes shell (string_bytes out.old) (string_bytes out.new)
        (lone (codes "name") (codes "-" ++ encode_utf8 short) ∷ [])) }
{
    let mut name = String::new(arena);
    name.push('-')?;
    name.push(short)?;
    push_entry(out, shell, Entry::lone("name", name.as_str()))
}

fn push_long<A: Allocator>(out: &mut String<A>, shell: Shell, long: &str) -> Result<(), AllocError>
    ensures { OnOk result (Writes shell (string_bytes out.old) (string_bytes out.new)
        (lone (codes "name") (codes "--" ++ long.now) ∷ [])) }
{
    push_entry(out, shell, Entry::name("--", long))
}

fn push_names<A: Allocator>(
    arena: &Bump,
    out: &mut String<A>,
    shell: Shell,
    name: Name,
) -> Result<(), AllocError>
    ensures { OnOk result (Writes shell (string_bytes out.old) (string_bytes out.new)
        (map (lone (codes "name")) (names (name_said name)))) }
{
    match name {
        Name::Short(short) => push_short(arena, out, shell, short),
        Name::Long(long) => push_long(out, shell, long),
        Name::Both(short, long) => {
            push_short(arena, out, shell, short)?;
            push_long(out, shell, long)
        }
    }
}

fn push_spelling<A: Allocator>(
    arena: &Bump,
    out: &mut String<A>,
    shell: Shell,
    spelling: Spelling<'_>,
) -> Result<(), AllocError>
    ensures { OnOk result (Writes shell (string_bytes out.old) (string_bytes out.new)
        (name_entries (spelling_said spelling.entry))) }
{
    match spelling {
        Spelling::Names(name) => push_names(arena, out, shell, name),
        Spelling::Syntax(text) => push_syntax(out, shell, text),
    }
}

fn push_option_entry<'p>(
    arena: &'p Bump,
    out: &mut Script<'p>,
    shell: Shell,
    what: &'static str,
    option: &Opt<'p>,
) -> Result<(), AllocError>
    ensures { OnOk result (Writes shell (string_bytes out.old) (string_bytes out.new)
        (option_entry what.now (opt_said option.now) ∷ [])) }
{
    let how = how_of(option);
    let help = help_text(arena, option.help)?;
    let row = Entry {
        hint: hint_of(how, option.values, option.hint),
        help: help.as_str(),
        ..Entry::lone(what, how.word())
    };
    push_entry(out, shell, row)
}

fn push_option<'p>(
    arena: &'p Bump,
    out: &mut Script<'p>,
    shell: Shell,
    what: &'static str,
    option: &Opt<'p>,
) -> Result<(), AllocError>
    ensures { OnOk result (Writes shell (string_bytes out.old) (string_bytes out.new)
        (option_entries what.now (opt_said option.now))) }
{
    push_option_entry(arena, out, shell, what, option)?;
    push_spelling(arena, out, shell, option.spelling)?;
    push_values(out, shell, option.values)
}

fn push_shown<'p>(
    arena: &'p Bump,
    out: &mut Script<'p>,
    shell: Shell,
    what: &'static str,
    option: &Opt<'p>,
) -> Result<(), AllocError>
    ensures { OnOk result (Writes shell (string_bytes out.old) (string_bytes out.new)
        (shown_option what.now (opt_said option.now))) }
{
    if option.hidden {
        return Ok(());
    }
    push_option(arena, out, shell, what, option)
}

fn times(is_repeated: bool) -> &'static str
    ensures { result.now ≡ times is_repeated }
{
    if is_repeated { "many" } else { "once" }
}

/// Appends options. After `AllocError` some of them may be there.
pub fn push_options<'p>(
    arena: &'p Bump,
    out: &mut Script<'p>,
    shell: Shell,
    options: &[Opt<'p>],
) -> Result<(), AllocError>
    ensures { OnOk result (Writes shell (string_bytes out.old) (string_bytes out.new)
        (options_entries (map opt_said options.now))) }
{
    for option in options {
        push_shown(arena, out, shell, times(option.repeated), option)?;
    }
    Ok(())
}

// ---- choices

fn what_after(what: &'static str, member: &Opt<'_>) -> &'static str
    ensures { result.now ≡ what_after what.now (opt_said member.now) }
{
    if member.hidden { what } else { "or" }
}

fn push_members<'p>(
    arena: &'p Bump,
    out: &mut Script<'p>,
    shell: Shell,
    options: &[Opt<'p>],
) -> Result<(), AllocError>
    ensures { OnOk result (Writes shell (string_bytes out.old) (string_bytes out.new)
        (members_entries (codes "once") (map opt_said options.now))) }
{
    let mut what = "once";
    for option in options {
        push_shown(arena, out, shell, what, option)?;
        what = what_after(what, option);
    }
    Ok(())
}

/// Appends the options of choices. After `AllocError` some of them may be there.
pub fn push_choices<'p, 'a: 'p, C: Allocator>(
    arena: &'p Bump,
    out: &mut Script<'p>,
    shell: Shell,
    choices: &'p [Choice<'a, C>],
) -> Result<(), AllocError>
    ensures { OnOk result (Writes shell (string_bytes out.old) (string_bytes out.new)
        (choices_entries (map choice_said choices.now))) }
{
    for choice in choices {
        push_members(arena, out, shell, choice.options.as_slice())?;
    }
    Ok(())
}

// ---- positional values

fn place_word(is_strict: bool) -> &'static str
    ensures { result.now ≡ place_word is_strict }
{
    if is_strict { "strict" } else { "place" }
}

fn push_place<A: Allocator>(
    out: &mut String<A>,
    shell: Shell,
    positional: &Positional<'_>,
) -> Result<(), AllocError>
    ensures { OnOk result (Writes shell (string_bytes out.old) (string_bytes out.new)
        (place_entries (positional_said positional.now))) }
{
    let place = Entry::lone(place_word(positional.strict), times(positional.repeated));
    if positional.hidden {
        return push_entry(
            out,
            shell,
            Entry {
                hint: "none",
                ..place
            },
        );
    }
    let hint = offer(positional.values, positional.hint);
    push_entry(out, shell, Entry { hint, ..place })?;
    push_values(out, shell, positional.values)
}

/// Appends positional values. After `AllocError` some of them may be there.
pub fn push_places<A: Allocator>(
    out: &mut String<A>,
    shell: Shell,
    positionals: &[Positional<'_>],
) -> Result<(), AllocError>
    ensures { OnOk result (Writes shell (string_bytes out.old) (string_bytes out.new)
        (places_entries (map positional_said positionals.now))) }
{
    for positional in positionals {
        push_place(out, shell, positional)?;
    }
    Ok(())
}

/// Appends files, as of a positional value that may be given many times. After `AllocError` some of it may be there.
pub fn push_files<A: Allocator>(out: &mut String<A>, shell: Shell) -> Result<(), AllocError>
    ensures { OnOk result (Writes shell (string_bytes out.old) (string_bytes out.new) (files ∷ [])) }
{
    let place = Entry {
        hint: ValueHint::File.word(),
        ..Entry::lone(place_word(false), times(true))
    };
    push_entry(out, shell, place)
}
