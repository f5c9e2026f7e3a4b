//! Entries of the table, each written as four words in quotes.
ghost use Rattle.std.specs.Prelude.{◌≡◌, ◌++◌, ◌∷◌, [], codes, OnOk, string_bytes};
ghost use Rattle.completions.specs.Table.{entry, lone, mark};
ghost use Rattle.completions.specs.View.{entry_said};
ghost use Rattle.completions.specs.Written.{Writes, quoted};

use crate::shells::Shell;
use page_model::replaced::push_replaced;
use std::alloc::{AllocError, Allocator};

/// An entry: what it is, a text in two parts, which kind of value may stand there, and a help.
#[derive(Clone, Copy)]
pub struct Entry<'e> {
    pub what: &'static str,
    pub front: &'static str,
    pub text: &'e str,
    pub hint: &'static str,
    pub help: &'e str,
}

impl<'e> Entry<'e> {
    /// An entry that says a text and nothing more.
    pub fn lone(what: &'static str, text: &'e str) -> Entry<'e>
        ensures { entry_said result ≡ lone what.now text.now }
    {
        Entry {
            what,
            front: "",
            text,
            hint: "",
            help: "",
        }
    }

    /// A name of an option, in two parts.
    pub fn name(front: &'static str, text: &'e str) -> Entry<'e>
        ensures { entry_said result ≡ lone (codes "name") (front.now ++ text.now) }
    {
        Entry {
            what: "name",
            front,
            text,
            hint: "",
            help: "",
        }
    }

    /// An entry that says what it is alone.
    pub fn mark(what: &'static str) -> Entry<'static>
        ensures { entry_said result ≡ mark what.now }
    {
        Entry::lone(what, "")
    }
}

fn push_quoted<A: Allocator>(
    out: &mut String<A>,
    shell: Shell,
    front: &str,
    text: &str,
) -> Result<(), AllocError>
    ensures { OnOk result (string_bytes out.new
        ≡ string_bytes out.old ++ quoted shell (front.now ++ text.now)) }
{
    out.push_str("'")?;
    push_replaced(out, front, shell)?;
    push_replaced(out, text, shell)?;
    out.push_str("'")
}

/// Appends an entry. After `AllocError` some of it may be there.
pub fn push_entry<A: Allocator>(
    out: &mut String<A>,
    shell: Shell,
    row: Entry<'_>,
) -> Result<(), AllocError>
    ensures { OnOk result (Writes shell (string_bytes out.old) (string_bytes out.new)
        (entry_said row.entry ∷ [])) }
{
    out.push_str("    ")?;
    push_quoted(out, shell, "", row.what)?;
    out.push_str(" ")?;
    push_quoted(out, shell, row.front, row.text)?;
    out.push_str(" ")?;
    push_quoted(out, shell, "", row.hint)?;
    out.push_str(" ")?;
    push_quoted(out, shell, "", row.help)?;
    out.push_str(shell.line_end())
}
