//! Entries as tables.
ghost use Rattle.std.specs.Prelude.{◌≡◌, ◌++◌, ◌<◌, ◌≤◌, IfOk, OnOk, Some, codes, drop, flat_map, length, map, string_bytes, true};
ghost use Rattle.std.specs.List.{list_all, slice_index};
ghost use Rattle.toml_pieces.specs.Toml as toml;
ghost use Rattle.help_fronts.specs.View.{command_said, said};
ghost use Rattle.help_fronts.specs.Fronts.{command_front};
ghost use Rattle.drafts.specs.Options as options;
ghost use Rattle.drafts.specs.Passages.{first_line};
ghost use Rattle.drafts.specs.Entries as spec;
ghost use Rattle.drafts.specs.Free as free;
ghost use Rattle.drafts.specs.Seen.{is_name};
ghost use Rattle.drafts.specs.View.{free_said, held, keys_said, passage_said, value_said};

use crate::free::{FreeFront, Words, free_in};
use crate::notes::{Subject, push_help};
use crate::options::{byte_at, is_blank, is_good, key, push_spelling};
use crate::passages::Passage;
use crate::seen::{are_names, is_name, is_word};
use help_blocks::Kind;
use help_fronts::{CommandFront, OptionFront, command_front, value_word};
use std::alloc::{AllocError, Allocator};
use toml_pieces::{push_left_out, push_list, push_table, push_word};

// ---- positional values

/// The front of a positional value, and what stands after it.
#[derive(Clone, Copy)]
pub struct ValueFront<'a> {
    pub front: &'a str,
    pub help: &'a str,
}

fn ends_front(byte: u8, next: u8) -> bool
    ensures { result ≡ spec.ends_front byte next }
{
    byte == b'\t' || (byte == b' ' && is_blank(next))
}

fn front_len(text: &[u8]) -> usize
    ensures exact { result ≡ spec.front_len text.now }
    ensures within { result ≤ length text.now }
    ensures blank { result < length text.now → slice_index text.now result ≤ 32 }
{
    let mut len = 0;
    while len < text.len() && !ends_front(text[len], byte_at(text, len + 1)) {
        len += 1;
    }
    len
}

fn has_dots(text: &[u8]) -> bool
    ensures { result ≡ spec.has_dots text.now }
{
    let mut rest = text;
    while let [first, more @ ..] = rest {
        if *first == b'.' && byte_at(more, 0) == b'.' {
            return true;
        }
        rest = more;
    }
    false
}

fn value_in(text: &str) -> ValueFront<'_>
    ensures { value_said result ≡ spec.value_in text.now }
{
    let (front, help) = text.split_at(front_len(text.as_bytes()));
    ValueFront { front, help }
}

fn value_front(line: &str) -> ValueFront<'_>
    ensures { value_said result ≡ spec.value_front line.now }
{
    value_in(line.trim())
}

fn value_name(front: &str) -> &str
    ensures { result.now ≡ spec.value_name front.now }
{
    value_word(front).trim()
}

// ---- tables

fn push_entry_head<A: Allocator>(
    out: &mut String<A>,
    in_group: bool,
    top: &str,
    inner: &str,
) -> Result<(), AllocError>
    requires { inner.now ≡ codes "group." ++ top.now }
    ensures { OnOk result (string_bytes out.new
        ≡ string_bytes out.old ++ toml.table (spec.table_name in_group top.now)) }
{
    if in_group {
        push_table(out, inner)
    } else {
        push_table(out, top)
    }
}

// What stands in the first line, if there is something, and the lines below.
fn help_lines<'a, A: Allocator>(
    alloc: A,
    first: &'a str,
    below: &[&'a str],
) -> Result<Vec<&'a str, A>, AllocError>
    ensures { IfOk result (λ lines. map (λ line. line.now) lines.items
        ≡ spec.help_lines first.now (map (λ line. line.now) below.now)) }
{
    let mut lines = Vec::new(alloc);
    if !first.is_empty() {
        lines.push(first)?;
    }
    lines.extend_from_slice(below)?;
    Ok(lines)
}

fn push_help_of<A: Allocator + Copy>(
    alloc: A,
    out: &mut String<A>,
    subject: Subject,
    first: &str,
    below: &[&str],
) -> Result<(), AllocError>
    ensures { OnOk result (string_bytes out.new
        ≡ string_bytes out.old ++ spec.help_at subject first.now (map (λ line. line.now) below.now)) }
{
    let lines = help_lines(alloc, first, below)?;
    push_help(alloc, out, subject, &lines)
}

fn subject_of<A: Allocator>(front: &OptionFront<'_, A>) -> Subject
    ensures { result ≡ spec.subject_of (said front.now) }
{
    if front.values.is_empty() {
        Subject::Flag
    } else {
        Subject::Option
    }
}

/// Writes how an option is called.
pub fn push_option_head<A: Allocator, B: Allocator>(
    out: &mut String<A>,
    in_group: bool,
    front: &OptionFront<'_, B>,
) -> Result<(), AllocError>
    ensures { OnOk result (string_bytes out.new
        ≡ string_bytes out.old ++ spec.option_head in_group (said front.now)) }
{
    push_entry_head(out, in_group, "option", "group.option")?;
    push_spelling(out, front)
}

fn push_help_if<A: Allocator + Copy, B: Allocator>(
    alloc: A,
    out: &mut String<A>,
    is_last: bool,
    front: &OptionFront<'_, B>,
    below: &[&str],
) -> Result<(), AllocError>
    ensures { OnOk result (string_bytes out.new
        ≡ string_bytes out.old ++ spec.help_if is_last (map (λ line. line.now) below.now) (said front.now)) }
{
    if is_last {
        push_help_of(alloc, out, subject_of(front), front.help, below)
    } else {
        Ok(())
    }
}

#[tactic(auto, unfolding(crate::specs::Entries::option_table))]
fn push_option<A: Allocator + Copy, B: Allocator>(
    alloc: A,
    out: &mut String<A>,
    in_group: bool,
    is_last: bool,
    free: &FreeFront<'_, B>,
    below: &[&str],
) -> Result<(), AllocError>
    ensures { OnOk result (string_bytes out.new ≡ string_bytes out.old
        ++ spec.option_table in_group (map (λ line. line.now) below.now) is_last (free_said free.now)) }
{
    push_entry_head(out, in_group, "option", "group.option")?;
    push_left_out_if(out, !free.is_whole, free.front.written)?;
    push_spelling(out, &free.front)?;
    push_help_if(alloc, out, is_last, &free.front, below)
}

fn has_none<A: Allocator>(fronts: &[FreeFront<'_, A>]) -> bool
    ensures { result ≡ spec.has_none (map free_said fronts.now) }
{
    match fronts {
        [] => true,
        [_, ..] => false,
    }
}

fn push_fronts<A: Allocator + Copy, B: Allocator>(
    alloc: A,
    out: &mut String<A>,
    in_group: bool,
    fronts: &[FreeFront<'_, B>],
    below: &[&str],
) -> Result<(), AllocError>
    ensures { OnOk result (string_bytes out.new ≡ string_bytes out.old
        ++ spec.option_tables in_group (map (λ line. line.now) below.now) (map free_said fronts.now)) }
{
    let mut rest = fronts;
    while let [first, others @ ..] = rest {
        push_option(alloc, out, in_group, has_none(others), first, below)?;
        rest = others;
    }
    Ok(())
}

// Takes the names of options.
fn take_all<'a, A: Allocator + Copy>(
    alloc: A,
    taken: &mut Words<'a, A>,
    fronts: &[FreeFront<'a, A>],
) -> Result<(), AllocError>
    ensures { OnOk result (held taken.new
        ≡ free.with_keys (held taken.old) (flat_map free.free_keys (map free_said fronts.now))) }
{
    let mut keys = Vec::new(alloc);
    push_all_keys(&mut keys, fronts)?;
    taken.put_all(&keys)
}

fn push_options<'a, A: Allocator + Copy>(
    alloc: A,
    out: &mut String<A>,
    taken: &mut Words<'a, A>,
    in_group: bool,
    passage: Passage<'a>,
) -> Result<(), AllocError>
    ensures text { OnOk result (string_bytes out.new ≡ string_bytes out.old
        ++ spec.option_tables in_group (drop 1 (passage_said passage.entry).lines)
        (free.free_in (held taken.old) (first_line (passage_said passage.entry).lines))) }
    ensures after { OnOk result (held taken.new ≡ free.with_keys (held taken.old)
        (flat_map free.free_keys (free.free_in (held taken.old) (first_line (passage_said passage.entry).lines)))) }
{
    let fronts = free_in(alloc, taken, passage.first_line())?;
    push_fronts(alloc, out, in_group, &fronts, passage.below())?;
    take_all(alloc, taken, &fronts)
}

// Writes as a comment a front that says more.
fn push_left_out_if<A: Allocator>(
    out: &mut String<A>,
    says_else: bool,
    written: &str,
) -> Result<(), AllocError>
    ensures { OnOk result (string_bytes out.new
        ≡ string_bytes out.old ++ spec.left_out_if says_else written.now) }
{
    if says_else {
        push_left_out(out, written)
    } else {
        Ok(())
    }
}

fn push_command<A: Allocator + Copy>(
    alloc: A,
    out: &mut String<A>,
    in_group: bool,
    passage: Passage<'_>,
) -> Result<(), AllocError>
    ensures { OnOk result (string_bytes out.new ≡ string_bytes out.old
        ++ spec.command_table in_group (drop 1 (passage_said passage.entry).lines)
        (command_front (first_line (passage_said passage.entry).lines))) }
{
    let Some(front) = command_front(alloc, passage.first_line())? else {
        return Ok(());
    };
    push_entry_head(out, in_group, "command", "group.command")?;
    push_left_out_if(out, front.says_else, front.written)?;
    push_word(out, "name", front.name)?;
    push_list(out, "aliases", &front.aliases)?;
    push_help_of(alloc, out, Subject::Command, front.help, passage.below())
}

fn push_repeated<A: Allocator>(out: &mut String<A>, is_repeated: bool) -> Result<(), AllocError>
    ensures { OnOk result (string_bytes out.new ≡ string_bytes out.old ++ spec.repeated_at is_repeated) }
{
    if is_repeated {
        out.push_str("repeated = true\n")
    } else {
        Ok(())
    }
}

fn push_value_flags<A: Allocator>(out: &mut String<A>, front: &str) -> Result<(), AllocError>
    ensures { OnOk result (string_bytes out.new ≡ string_bytes out.old ++ spec.value_flags front.now) }
{
    out.push_str("required = false\n")?;
    push_repeated(out, has_dots(front.as_bytes()))
}

fn push_value<A: Allocator + Copy>(
    alloc: A,
    out: &mut String<A>,
    in_group: bool,
    passage: Passage<'_>,
) -> Result<(), AllocError>
    ensures { OnOk result (string_bytes out.new ≡ string_bytes out.old
        ++ spec.value_table in_group (drop 1 (passage_said passage.entry).lines)
        (spec.value_front (first_line (passage_said passage.entry).lines))) }
{
    let value = value_front(passage.first_line());
    push_entry_head(out, in_group, "positional", "group.positional")?;
    push_word(out, "value", value_name(value.front))?;
    push_help_of(alloc, out, Subject::Positional, value.help, passage.below())?;
    push_value_flags(out, value.front)
}

/// Writes the table of an entry; an option has the names that are free, and takes them.
pub fn push_entry<'a, A: Allocator + Copy>(
    alloc: A,
    out: &mut String<A>,
    taken: &mut Words<'a, A>,
    in_group: bool,
    passage: Passage<'a>,
) -> Result<(), AllocError>
    ensures text { OnOk result (string_bytes out.new ≡ string_bytes out.old
        ++ spec.entry_table (held taken.old) in_group (passage_said passage.entry)) }
    ensures after { OnOk result (held taken.new
        ≡ spec.after_entry (held taken.old) (passage_said passage.entry)) }
{
    match passage.kind {
        Kind::Option => push_options(alloc, out, taken, in_group, passage),
        Kind::Command => push_command(alloc, out, in_group, passage),
        Kind::Value => push_value(alloc, out, in_group, passage),
        _ => Ok(()),
    }
}

// ---- the names that no other entry may have

/// The names of an entry that no other of the level may have.
#[derive(Drop)]
pub struct Keys<'a, A: Allocator> {
    pub words: Vec<&'a [u8], A>,
}

fn push_keys<'a, A: Allocator>(
    keys: &mut Vec<&'a [u8], A>,
    names: &[&'a str],
) -> Result<(), AllocError>
    ensures { OnOk result (map (λ k. k.now) keys.new.items
        ≡ map (λ k. k.now) keys.old.items ++ map options.key (map (λ n. n.now) names.now)) }
{
    for name in names {
        keys.push(key(name))?;
    }
    Ok(())
}

fn push_all_keys<'a, A: Allocator>(
    keys: &mut Vec<&'a [u8], A>,
    fronts: &[FreeFront<'a, A>],
) -> Result<(), AllocError>
    ensures { OnOk result (map (λ k. k.now) keys.new.items
        ≡ map (λ k. k.now) keys.old.items ++ flat_map free.free_keys (map free_said fronts.now)) }
{
    let mut rest = fronts;
    while let [first, others @ ..] = rest {
        push_keys(keys, &first.front.names)?;
        rest = others;
    }
    Ok(())
}

fn is_writable<A: Allocator + Copy, B: Allocator>(
    alloc: A,
    free: &FreeFront<'_, B>,
) -> Result<bool, AllocError>
    ensures { IfOk result (λ is_writable. is_writable ≡ spec.is_writable (free_said free.now)) }
{
    let is_good = is_good(alloc, &free.front)?;
    Ok(is_good && !free.front.names.is_empty())
}

fn are_writable<A: Allocator + Copy, B: Allocator>(
    alloc: A,
    fronts: &[FreeFront<'_, B>],
) -> Result<bool, AllocError>
    ensures { IfOk result (λ are_writable. are_writable ≡ list_all spec.is_writable (map free_said fronts.now)) }
{
    let mut rest = fronts;
    while let [first, others @ ..] = rest {
        if !is_writable(alloc, first)? {
            return Ok(false);
        }
        rest = others;
    }
    Ok(true)
}

fn option_keys<'a, A: Allocator + Copy>(
    alloc: A,
    fronts: &[FreeFront<'a, A>],
) -> Result<Option<Keys<'a, A>>, AllocError>
    ensures { IfOk result (λ keys. keys_said keys ≡ spec.option_keys (map free_said fronts.now)) }
{
    if has_none(fronts) || !are_writable(alloc, fronts)? {
        return Ok(None);
    }
    let mut words = Vec::new(alloc);
    push_all_keys(&mut words, fronts)?;
    Ok(Some(Keys { words }))
}

fn push_names<'a, A: Allocator>(
    keys: &mut Vec<&'a [u8], A>,
    names: &[&'a str],
) -> Result<(), AllocError>
    ensures { OnOk result (map (λ k. k.now) keys.new.items
        ≡ map (λ k. k.now) keys.old.items ++ map (λ n. n.now) names.now) }
{
    for name in names {
        keys.push(name.as_bytes())?;
    }
    Ok(())
}

// Whether no name stands twice.
fn are_distinct<'a, A: Allocator + Copy>(alloc: A, keys: &[&'a [u8]]) -> Result<bool, AllocError>
    ensures { IfOk result (λ distinct. distinct ≡ spec.are_distinct free.none_taken (map (λ k. k.now) keys.now)) }
{
    let mut seen = Words::new(alloc);
    for key in keys {
        if seen.has(key) {
            return Ok(false);
        }
        seen.put(key)?;
    }
    Ok(true)
}

// The names of a command, if they are free, and none stands twice.
fn free_names_of<'a, A: Allocator + Copy>(
    alloc: A,
    taken: &Words<'a, A>,
    words: Vec<&'a [u8], A>,
) -> Result<Option<Keys<'a, A>>, AllocError>
    requires { list_all is_name (map (λ w. w.now) words.items) ≡ true }
    ensures { IfOk result (λ keys. keys_said keys
        ≡ spec.free_names_of (held taken.now) (map (λ w. w.now) words.entry.items)) }
{
    if taken.has_any(&words) || !are_distinct(alloc, &words)? {
        Ok(None)
    } else {
        Ok(Some(Keys { words }))
    }
}

fn command_keys<'a, A: Allocator + Copy>(
    alloc: A,
    taken: &Words<'a, A>,
    front: &CommandFront<'a, A>,
) -> Result<Option<Keys<'a, A>>, AllocError>
    ensures { IfOk result (λ keys. keys_said keys
        ≡ spec.command_keys (held taken.now) (Some (command_said front.now))) }
{
    if !is_name(front.name) || !are_names(&front.aliases) {
        return Ok(None);
    }
    let mut words = Vec::new(alloc);
    words.push(front.name.as_bytes())?;
    push_names(&mut words, &front.aliases)?;
    free_names_of(alloc, taken, words)
}

fn keys_of_option<'a, A: Allocator + Copy>(
    alloc: A,
    taken: &Words<'a, A>,
    line: &'a str,
) -> Result<Option<Keys<'a, A>>, AllocError>
    ensures { IfOk result (λ keys. keys_said keys ≡ spec.option_keys (free.free_in (held taken.now) line.now)) }
{
    let fronts = free_in(alloc, taken, line)?;
    option_keys(alloc, &fronts)
}

fn keys_of_command<'a, A: Allocator + Copy>(
    alloc: A,
    taken: &Words<'a, A>,
    line: &'a str,
) -> Result<Option<Keys<'a, A>>, AllocError>
    ensures { IfOk result (λ keys. keys_said keys ≡ spec.command_keys (held taken.now) (command_front line.now)) }
{
    match command_front(alloc, line)? {
        None => Ok(None),
        Some(front) => command_keys(alloc, taken, &front),
    }
}

fn keys_of_value<'a, A: Allocator>(alloc: A, line: &'a str) -> Option<Keys<'a, A>>
    ensures { keys_said result ≡ spec.value_keys (spec.value_front line.now) }
{
    if is_word(value_name(value_front(line).front)) {
        Some(Keys {
            words: Vec::new(alloc),
        })
    } else {
        None
    }
}

/// The names of an entry that no other of the level may have: of an option those that are free. None where a
/// description does not take the entry.
pub fn entry_keys<'a, A: Allocator + Copy>(
    alloc: A,
    taken: &Words<'a, A>,
    passage: Passage<'a>,
) -> Result<Option<Keys<'a, A>>, AllocError>
    ensures { IfOk result (λ keys. keys_said keys ≡ spec.entry_keys (held taken.now) (passage_said passage.entry)) }
{
    if !passage.is_permitted() {
        return Ok(None);
    }
    match passage.kind {
        Kind::Option => keys_of_option(alloc, taken, passage.first_line()),
        Kind::Command => keys_of_command(alloc, taken, passage.first_line()),
        Kind::Value => Ok(keys_of_value(alloc, passage.first_line())),
        _ => Ok(None),
    }
}
