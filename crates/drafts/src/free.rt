//! Names that are taken, and those of a line that are free.
ghost use Rattle.std.specs.Prelude.{◌≡◌, IfOk, OnOk, flat_map, map};
ghost use Rattle.std.specs.List.{list_all, list_any};
ghost use Rattle.help_fronts.specs.View.{said};
ghost use Rattle.drafts.specs.Options as options;
ghost use Rattle.drafts.specs.Free as spec;
ghost use Rattle.drafts.specs.View.{free_said, held};

use crate::notes::after;
use crate::options::{after_in, key};
use help_fronts::{OptionFront, option_front};
use std::alloc::{AllocError, Allocator};
use std::collections::BTreeSet;

/// The words that are taken.
#[derive(Drop)]
pub struct Words<'a, A: Allocator> {
    words: BTreeSet<&'a [u8], A>,
}

impl<'a, A: Allocator + Copy> Words<'a, A> {
    /// No word is taken.
    pub fn new(alloc: A) -> Self
        ensures { held result ≡ spec.none_taken }
    {
        Words {
            words: BTreeSet::new(alloc),
        }
    }

    /// Takes a word.
    pub fn put(&mut self, key: &'a [u8]) -> Result<(), AllocError>
        ensures { OnOk result (held self.new ≡ spec.with_key (held self.old) key.now) }
    {
        self.words.insert(key)?;
        Ok(())
    }

    /// Takes words.
    pub fn put_all(&mut self, keys: &[&'a [u8]]) -> Result<(), AllocError>
        ensures { OnOk result (held self.new ≡ spec.with_keys (held self.old) (map (λ k. k.now) keys.now)) }
    {
        for key in keys {
            self.put(key)?;
        }
        Ok(())
    }

    /// Whether a word is taken.
    pub fn has(&self, key: &'a [u8]) -> bool
        ensures { result ≡ held self.now key.now }
    {
        self.words.contains(&key)
    }

    /// Whether one of the words is taken.
    pub fn has_any(&self, keys: &[&'a [u8]]) -> bool
        ensures { result ≡ list_any (held self.now) (map (λ k. k.now) keys.now) }
    {
        for key in keys {
            if self.has(key) {
                return true;
            }
        }
        false
    }
}

/// The front of an option with its free names alone.
#[derive(Drop)]
pub struct FreeFront<'a, A: Allocator> {
    pub front: OptionFront<'a, A>,
    /// Whether all its names are free.
    pub is_whole: bool,
}

// The names that neither `taken` nor `seen` has, which then has them all.
fn free_names<'a, A: Allocator + Copy>(
    alloc: A,
    taken: &Words<'a, A>,
    seen: &mut Words<'a, A>,
    names: &[&'a str],
) -> Result<Vec<&'a str, A>, AllocError>
    ensures free { IfOk result (λ free. map (λ n. n.now) free.items
        ≡ spec.free_names (held taken.now) (held seen.old) (map (λ n. n.now) names.now)) }
    ensures seen { OnOk result (held seen.new
        ≡ spec.with_keys (held seen.old) (map options.key (map (λ n. n.now) names.now))) }
{
    let mut free = Vec::new(alloc);
    for name in names {
        let key = key(name);
        if !(taken.has(key) || seen.has(key)) {
            free.push(*name)?;
        }
        seen.put(key)?;
    }
    Ok(free)
}

fn last_name<'a>(names: &[&'a str]) -> &'a str
    ensures { result.now ≡ spec.last_name (map (λ n. n.now) names.now) }
{
    match names.len() {
        0 => "",
        len => names[len - 1],
    }
}

// Whether the value stays with the names that are left.
fn keeps_value<A: Allocator>(front: &OptionFront<'_, A>, names: &[&str]) -> bool
    ensures { result ≡ spec.keeps_value (said front.now) (map (λ n. n.now) names.now) }
{
    front.joint == b' ' || last_name(names) == last_name(&front.names)
}

// Whether a name stands without a value, and then with one.
fn stands_twice(name: &str, written: &str) -> bool
    ensures { result ≡ spec.stands_twice name.now written.now }
{
    let further = after_in(name, after_in(", ", after(name, written)));
    after_in("=", further).is_some()
}

// Whether the one name that is left stands so.
fn is_doubled<A: Allocator>(front: &OptionFront<'_, A>, names: &[&str]) -> bool
    ensures { result ≡ spec.is_doubled (said front.now) (map (λ n. n.now) names.now) }
{
    match names {
        [name] => {
            front.joint == b'=' && front.names.len() == 2 && stands_twice(name, front.written)
        }
        _ => false,
    }
}

fn valued<'a, A: Allocator + Copy>(
    alloc: A,
    front: OptionFront<'a, A>,
    names: &[&'a str],
) -> OptionFront<'a, A>
    ensures { said result ≡ spec.valued (said front.entry) (map (λ n. n.now) names.now) }
{
    if is_doubled(&front, names) {
        return OptionFront {
            is_optional: true,
            ..front
        };
    }
    if keeps_value(&front, names) {
        return front;
    }
    OptionFront {
        values: Vec::new(alloc),
        joint: b' ',
        value: None,
        is_optional: false,
        ..front
    }
}

fn free_front<'a, A: Allocator + Copy>(
    alloc: A,
    taken: &Words<'a, A>,
    seen: &mut Words<'a, A>,
    front: OptionFront<'a, A>,
) -> Result<FreeFront<'a, A>, AllocError>
    ensures free { IfOk result (λ free. free_said free
        ≡ spec.free_front (held taken.now) (held seen.old) (said front.entry)) }
    ensures seen { OnOk result (held seen.new
        ≡ spec.with_keys (held seen.old) (spec.front_keys (said front.entry))) }
{
    let names = free_names(alloc, taken, seen, &front.names)?;
    let is_whole = names.len() == front.names.len() || is_doubled(&front, &names);
    let front = valued(alloc, front, &names);
    let front = OptionFront { names, ..front };
    Ok(FreeFront { front, is_whole })
}

// What another option may stand in.
fn next_text<'a, A: Allocator>(front: &OptionFront<'a, A>) -> &'a str
    ensures { result.now ≡ spec.next_text (said front.now) }
{
    if front.gap == " " { front.help } else { "" }
}

/// The options of a line, with the names that are free.
pub fn free_in<'a, A: Allocator + Copy>(
    alloc: A,
    taken: &Words<'a, A>,
    line: &'a str,
) -> Result<Vec<FreeFront<'a, A>, A>, AllocError>
    ensures { IfOk result (λ found. map free_said found.items ≡ spec.free_in (held taken.now) line.now) }
{
    let mut found = Vec::new(alloc);
    let mut seen = Words::new(alloc);
    let mut rest = line;
    let mut most = line.len();
    while most > 0 {
        let Some(front) = option_front(alloc, rest)? else {
            return Ok(found);
        };
        rest = next_text(&front);
        found.push(free_front(alloc, taken, &mut seen, front)?)?;
        most -= 1;
    }
    Ok(found)
}
