//! Options and positional values.
ghost use Rattle.std.specs.Prelude.{◌≡◌, OnOk, not, is_some};
ghost use Rattle.description.specs.View.{name_said, opt_said, positional_said, spelling_said, text_of};
ghost use Rattle.json.specs.Json.{Json};
ghost use Rattle.json_of_descriptions.specs.Descriptions.{flags_of_option, flags_of_positional, name_fields};
ghost use Rattle.json_of_descriptions.specs.Descriptions.{option_fields, positional_fields, spelling_fields, value_fields};
ghost use Rattle.json_of_descriptions.specs.Steps.{PutsFields};

use crate::fields::{put_character, put_flag_unless, put_hint, put_optional, put_text, put_values};
use description::{Name, Opt, Positional, Spelling, ValueHint};
use json::Pretty;
use std::alloc::{AllocError, Allocator};

fn put_name<A: Allocator + Copy>(
    alloc: A,
    out: &mut Pretty<A>,
    name: Name,
) -> Result<(), AllocError>
    ensures { OnOk result (PutsFields out.old out.new (name_fields (name_said name))) }
{
    match name {
        Name::Short(short) => put_character(alloc, out, "short", short),
        Name::Long(long) => put_text(out, "long", long),
        Name::Both(short, long) => {
            put_character(alloc, out, "short", short)?;
            put_text(out, "long", long)
        }
    }
}

fn put_spelling<A: Allocator + Copy>(
    alloc: A,
    out: &mut Pretty<A>,
    spelling: Spelling<'_>,
) -> Result<(), AllocError>
    ensures { OnOk result (PutsFields out.old out.new (spelling_fields (spelling_said spelling.entry))) }
{
    match spelling {
        Spelling::Names(name) => put_name(alloc, out, name),
        Spelling::Syntax(text) => put_text(out, "syntax", text),
    }
}

// What is said of a value.
#[derive(Clone, Copy)]
struct Said<'a> {
    default: Option<&'a str>,
    values: Option<&'a str>,
    hint: ValueHint,
    help: Option<&'a str>,
    hidden: bool,
}

fn put_said<A: Allocator>(out: &mut Pretty<A>, said: Said<'_>) -> Result<(), AllocError>
    ensures { OnOk result (PutsFields out.old out.new
        (value_fields (text_of said.entry.default) (text_of said.entry.values) said.entry.hint (text_of said.entry.help) said.entry.hidden)) }
{
    put_optional(out, "default", said.default)?;
    put_values(out, "values", said.values)?;
    put_hint(out, "hint", said.hint)?;
    put_optional(out, "help", said.help)?;
    put_flag_unless(out, false, "hidden", said.hidden)
}

fn put_flags_of_option<A: Allocator>(
    out: &mut Pretty<A>,
    option: &Opt<'_>,
) -> Result<(), AllocError>
    ensures { OnOk result (PutsFields out.old out.new (flags_of_option (opt_said option.now))) }
{
    put_flag_unless(out, false, "required", option.required)?;
    put_flag_unless(out, false, "repeated", option.repeated)
}

/// Puts the members of an option.
pub fn put_option_fields<A: Allocator + Copy>(
    alloc: A,
    out: &mut Pretty<A>,
    option: &Opt<'_>,
) -> Result<(), AllocError>
    ensures { OnOk result (PutsFields out.old out.new (option_fields (opt_said option.now))) }
{
    let said = Said {
        default: option.default,
        values: option.values,
        hint: option.hint,
        help: option.help,
        hidden: option.hidden,
    };
    put_spelling(alloc, out, option.spelling)?;
    put_optional(out, "value", option.value)?;
    put_said(out, said)?;
    put_optional(out, "env", option.env)?;
    put_flags_of_option(out, option)
}

fn put_flags_of_positional<A: Allocator>(
    out: &mut Pretty<A>,
    positional: &Positional<'_>,
) -> Result<(), AllocError>
    ensures { OnOk result (PutsFields out.old out.new (flags_of_positional (positional_said positional.now))) }
{
    put_flag_unless(
        out,
        positional.default.is_none(),
        "required",
        positional.required,
    )?;
    put_flag_unless(out, false, "repeated", positional.repeated)?;
    put_flag_unless(out, false, "strict", positional.strict)
}

/// Puts the members of a positional value.
pub fn put_positional_fields<A: Allocator>(
    out: &mut Pretty<A>,
    positional: &Positional<'_>,
) -> Result<(), AllocError>
    ensures { OnOk result (PutsFields out.old out.new (positional_fields (positional_said positional.now))) }
{
    let said = Said {
        default: positional.default,
        values: positional.values,
        hint: positional.hint,
        help: positional.help,
        hidden: positional.hidden,
    };
    put_text(out, "value", positional.value)?;
    put_said(out, said)?;
    put_flags_of_positional(out, positional)
}
