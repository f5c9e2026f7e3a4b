//! What identifies an entry in a list, and each entry once.
ghost use Rattle.std.specs.Prelude.{◌≡◌, IfOk, map};
ghost use Rattle.page_model.specs.View.{entry_of};
ghost use Rattle.description.specs.View.{command_said, opt_said, positional_said};
ghost use Rattle.description_pages.specs.Keys.{command_key, entries_once, key_said, option_key, positional_key};
ghost use Rattle.description_pages.specs.Rows.{row_said};

use crate::once::{Keyed, each_once};
use bumpalo::Bump;
use description::{Command, Name, Opt, Positional, Spelling};
use description_usage::ArenaEntry;
use std::alloc::{AllocError, Allocator};

/// What identifies an entry in a list.
#[derive(Clone, Copy, Debug, PartialEq, Eq, PartialOrd, Ord)]
pub enum EntryKey<'a> {
    /// The names of an option, and the word for its value.
    Names(Name, Option<&'a str>),
    /// All of an option.
    Syntax(&'a str),
    /// The word for a positional value.
    Word(&'a str),
    /// The name of a command.
    Command(&'a str),
}

/// An entry in an arena, and its key.
pub type Row<'p, A> = Keyed<EntryKey<'p>, ArenaEntry<'p, A>>;

/// The key of the entry of an option.
pub fn option_key<'a>(option: &Opt<'a>) -> EntryKey<'a>
    ensures { key_said result ≡ option_key (opt_said option.now) }
{
    match option.spelling {
        Spelling::Names(name) => EntryKey::Names(name, option.value),
        Spelling::Syntax(text) => EntryKey::Syntax(text),
    }
}

/// The key of the entry of a positional value.
pub fn positional_key(positional: &Positional<'_>) -> EntryKey<'static>
    ensures { key_said result ≡ positional_key (positional_said positional.now) }
{
    EntryKey::Word(positional.value)
}

/// The key of the entry of a command.
pub fn command_key<A: Allocator>(command: &Command<'_, A>) -> EntryKey<'static>
    ensures { key_said result ≡ command_key (command_said command.now) }
{
    EntryKey::Command(command.name)
}

/// The first of the entries with one key, in order.
pub fn entries_once<'p, A: Allocator>(
    arena: &'p Bump<A>,
    rows: Vec<Row<'p, A>, &'p Bump<A>>,
) -> Result<Vec<ArenaEntry<'p, A>, &'p Bump<A>>, AllocError>
    ensures { IfOk result (λ entries. map entry_of entries.items ≡ entries_once (map row_said rows.entry.items)) }
{
    each_once(arena, rows)
}
