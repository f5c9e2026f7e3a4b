//! Which entries are written: those that a description takes with the names that are free.
ghost use Rattle.std.specs.Prelude.{◌≡◌, IfOk, OnOk, map};
ghost use Rattle.drafts.specs.Places as spec;
ghost use Rattle.drafts.specs.View.{held, keys_said, marked_said, passage_said, taken_said};

use crate::entries::{Keys, entry_keys};
use crate::free::Words;
use crate::options::byte_at;
use crate::passages::Passage;
use help_blocks::Kind;
use std::alloc::{AllocError, Allocator};

// Takes the names of an entry. Whether a description takes it.
fn take<'a, A: Allocator + Copy>(
    words: &mut Words<'a, A>,
    keys: Option<Keys<'a, A>>,
) -> Result<bool, AllocError>
    ensures given { IfOk result (λ given. given ≡ spec.is_given (keys_said keys.entry)) }
    ensures after { OnOk result (held words.new ≡ spec.with_entry (held words.old) (keys_said keys.entry)) }
{
    let Some(keys) = keys else {
        return Ok(false);
    };
    words.put_all(&keys.words)?;
    Ok(true)
}

fn is_command(kind: Kind) -> bool
    ensures { result ≡ spec.is_command kind }
{
    matches!(kind, Kind::Command)
}

fn begins_with_command(below: &[Passage<'_>]) -> bool
    ensures { result ≡ spec.begins_with_command (map passage_said below.now) }
{
    match below {
        [] => false,
        [first, ..] => is_command(first.kind),
    }
}

// Whether it is the choice of commands, `{go,stop}`, above them.
fn is_choice_of_commands(passage: Passage<'_>, below: &[Passage<'_>]) -> bool
    ensures { result ≡ spec.is_choice_of_commands (passage_said passage.entry) (map passage_said below.now) }
{
    matches!(passage.kind, Kind::Value)
        && byte_at(passage.first_line().trim().as_bytes(), 0) == b'{'
        && begins_with_command(below)
}

// The names that are taken on a level.
#[derive(Drop)]
pub struct Taken<'a, A: Allocator> {
    options: Words<'a, A>,
    commands: Words<'a, A>,
}

impl<'a, A: Allocator + Copy> Taken<'a, A> {
    fn new(alloc: A) -> Self
        ensures { taken_said result ≡ spec.nothing_taken }
    {
        Taken {
            options: Words::new(alloc),
            commands: Words::new(alloc),
        }
    }

    // Whether a description takes an entry, which then takes its names.
    fn take(&mut self, alloc: A, passage: Passage<'a>) -> Result<bool, AllocError>
        ensures given { IfOk result (λ given. given
            ≡ spec.is_given (spec.keys_by (taken_said self.old) (passage_said passage.entry))) }
        ensures after { OnOk result (taken_said self.new
            ≡ spec.taken_after (taken_said self.old) (passage_said passage.entry)) }
    {
        if is_command(passage.kind) {
            let keys = entry_keys(alloc, &self.commands, passage)?;
            take(&mut self.commands, keys)
        } else {
            let keys = entry_keys(alloc, &self.options, passage)?;
            take(&mut self.options, keys)
        }
    }
}

/// A passage, and whether it is an entry that is written.
#[derive(Clone, Copy)]
pub struct Marked<'a> {
    pub passage: Passage<'a>,
    pub is_written: bool,
}

/// Which of the passages are entries that are written.
pub fn mark_all<'a, A: Allocator + Copy>(
    alloc: A,
    passages: &[Passage<'a>],
) -> Result<Vec<Marked<'a>, A>, AllocError>
    ensures { IfOk result (λ found. map marked_said found.items ≡ spec.marked (map passage_said passages.now)) }
{
    let mut taken = Taken::new(alloc);
    let mut found = Vec::new(alloc);
    let mut rest = passages;
    while let [passage, below @ ..] = rest {
        let is_taken = taken.take(alloc, *passage)?;
        found.push(Marked {
            passage: *passage,
            is_written: is_taken && !is_choice_of_commands(*passage, below),
        })?;
        rest = below;
    }
    Ok(found)
}
