//! Defaults that are none of the values.
ghost use Rattle.std.specs.Prelude.{◌≡◌, ◌++◌, ◌==◌, map, IfOk, OnOk};
ghost use Rattle.std.specs.List.{list_all, slice_split};
ghost use Rattle.description.specs.Values.{listed_values};
ghost use Rattle.description.specs.View.{text_of};
ghost use Rattle.description_hints.specs.Hints.{default_warnings, is_listed, listed_warnings};
ghost use Rattle.description_hints.specs.Names.{is_among};
ghost use Rattle.description_hints.specs.View.{path_said, warning_said};

use crate::hints::Hint;
use crate::rules::{Warnings, push_if};
use crate::sites::under;
use bumpalo::Bump;
use description::split_value;
use keyed::Step;
use std::alloc::AllocError;

// Whether the text is one of the values.
fn is_value(text: &str, values: &str) -> bool
    ensures { result ≡ is_among (listed_values values.now) text.now }
{
    let mut rest = values;
    while let Some((value, others)) = split_value(rest) {
        if value == text {
            return true;
        }
        rest = others;
    }
    rest == text
}

// The texts between its commas.
fn parts_of<'p>(arena: &'p Bump, text: &'p str) -> Result<Vec<&'p str, &'p Bump>, AllocError>
    ensures { IfOk result (λ parts. map (λ part. part.now) parts.items ≡ slice_split (λ b. b == 44) text.now) }
{
    text.split(',').collect(arena)
}

fn are_values(parts: &[&str], values: &str) -> bool
    ensures { result ≡ list_all (λ part. is_among (listed_values values.now) part.now) parts.now }
{
    parts.iter().all(|part| is_value(*part, values))
}

fn is_listed<'p>(arena: &'p Bump, default: &'p str, values: &str) -> Result<bool, AllocError>
    ensures { IfOk result (λ is_so. is_so ≡ is_listed default.now values.now) }
{
    if is_value(default, values) {
        return Ok(true);
    }
    let parts = parts_of(arena, default)?;
    Ok(are_values(&parts, values))
}

fn push_listed<'p>(
    arena: &'p Bump,
    found: &mut Warnings<'p>,
    path: &[Step<'p>],
    is_hidden: bool,
    default: &'p str,
    values: &str,
) -> Result<(), AllocError>
    ensures { OnOk result (map warning_said found.new.items ≡ map warning_said found.old.items
        ++ listed_warnings (path_said path.now) is_hidden default.now values.now) }
{
    if is_hidden || is_listed(arena, default, values)? {
        return Ok(());
    }
    let path = under(arena, path, "default")?;
    push_if(found, path, true, Hint::UnlistedDefault(default))
}

/// Puts the hint about a default, where there are values too. An error comes only where an allocation failed.
pub fn push_default<'p>(
    arena: &'p Bump,
    found: &mut Warnings<'p>,
    path: &[Step<'p>],
    is_hidden: bool,
    default: Option<&'p str>,
    values: Option<&str>,
) -> Result<(), AllocError>
    ensures { OnOk result (map warning_said found.new.items ≡ map warning_said found.old.items
        ++ default_warnings (path_said path.now) is_hidden (text_of default.entry) (text_of values.entry)) }
{
    match (default, values) {
        (Some(default), Some(values)) => {
            push_listed(arena, found, path, is_hidden, default, values)
        }
        _ => Ok(()),
    }
}
