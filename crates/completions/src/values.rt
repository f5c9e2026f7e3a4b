//! The possible values.
ghost use Rattle.std.specs.Prelude.{◌≡◌, codes, map, OnOk, string_bytes};
ghost use Rattle.description.specs.Values.{listed_values};
ghost use Rattle.description.specs.View.{text_of};
ghost use Rattle.completions.specs.Table.{lone, offer, value_entries};
ghost use Rattle.completions.specs.Written.{Writes};

use crate::entries::{Entry, push_entry};
use crate::shells::Shell;
use description::{ValueHint, split_value};
use std::alloc::{AllocError, Allocator};

fn push_listed<A: Allocator>(
    out: &mut String<A>,
    shell: Shell,
    text: &str,
) -> Result<(), AllocError>
    ensures { OnOk result (Writes shell (string_bytes out.old) (string_bytes out.new)
        (map (lone (codes "among")) (listed_values text.now))) }
{
    let mut rest = text;
    while let Some((value, after)) = split_value(rest) {
        push_entry(out, shell, Entry::lone("among", value))?;
        rest = after;
    }
    push_entry(out, shell, Entry::lone("among", rest))
}

/// Appends the possible values. After `AllocError` some of them may be there.
pub fn push_values<A: Allocator>(
    out: &mut String<A>,
    shell: Shell,
    values: Option<&str>,
) -> Result<(), AllocError>
    ensures { OnOk result (Writes shell (string_bytes out.old) (string_bytes out.new)
        (value_entries (text_of values.entry))) }
{
    match values {
        Some(text) => push_listed(out, shell, text),
        None => Ok(()),
    }
}

/// What is offered for a value: those of a list alone, where there is one.
pub fn offer(values: Option<&str>, hint: ValueHint) -> &'static str
    ensures { result.now ≡ offer (text_of values.entry) hint }
{
    match values {
        Some(_) => "none",
        None => hint.word(),
    }
}
