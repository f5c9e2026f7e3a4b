//! Which names files may have that people of other systems read too.
#![tactic(auto)]

ghost use Rattle.std.specs.Prelude.{◌≡◌, ◌≤◌, ◌&&◌, IfOk, drop, is_ok, is_some, length, not};
ghost use Rattle.std.specs.List.{list_any};
ghost use Rattle.file_names.specs.Names.{are_alike, are_file_names, is_file_name, is_first_name, names_said};

mod keys;
mod one;

use keys::are_alike;
pub use keys::name_key;
use one::are_same_letters;
pub use one::check_name;
use std::alloc::{AllocError, Allocator, Global};
use std::collections::BTreeSet;

/// Why files may not have these names.
#[derive(Clone, Copy, Debug, PartialEq, Eq)]
pub enum NameFault<'n> {
    /// It holds a slash.
    Slash(&'n str),
    /// It holds a double quote, `*`, `:`, `<`, `>`, `?`, a backslash or `|`.
    Foreign(&'n str),
    /// It begins with a dot.
    Dot(&'n str),
    /// It begins with `-`.
    Dash(&'n str),
    /// It has more than 200 bytes.
    Long(&'n str),
    /// Other systems take it for a device.
    Device(&'n str),
    /// It is that of the page which is shown where a folder is asked for.
    Index(&'n str),
    /// It stands twice.
    Twice(&'n str),
    /// These two differ only in the case of ASCII letters.
    Alike(&'n str, &'n str),
    /// These two differ only in case, and in the form in which letters with marks are written.
    Same(&'n str, &'n str),
}

/// Refuses a name that no file may have, and two that some folders take for one. The first that is refused is reported,
/// with the first after it that is like it. What the names are compared by is kept in `global`, and which of them are
/// known in `alloc`. `AllocError` where an allocation failed.
pub fn check_names<'n, A: Allocator + Copy>(
    alloc: A,
    global: Global,
    names: &[&'n str],
) -> Result<Result<(), NameFault<'n>>, AllocError>
    ensures { IfOk result (λ judged. is_ok judged ≡ are_file_names (names_said names.now)) }
{
    let first = first_refused(alloc, global, names)?;
    check_first(global, &names[first..])
}

// Where the first name stands that is refused: at the end, where there is none. It goes from the last name to the
// first, so that it knows those after each.
fn first_refused<A: Allocator + Copy>(
    alloc: A,
    global: Global,
    names: &[&str],
) -> Result<usize, AllocError>
    ensures within { IfOk result (λ first. first ≤ length names.now) }
    ensures judged { IfOk result (λ first. is_first_name (names_said (drop first names.now))
        ≡ are_file_names (names_said names.now)) }
{
    let mut keys_after = BTreeSet::new(alloc);
    let mut first = names.len();
    let mut index = names.len();
    while index > 0 {
        index -= 1;
        let name = names[index];
        let is_alone = keys_after.insert(name_key(global, name)?)?;
        if is_refused(name, is_alone) {
            first = index;
        }
    }
    Ok(first)
}

fn is_refused(name: &str, is_alone: bool) -> bool
    ensures { result ≡ not (is_file_name name.now && is_alone) }
{
    !(check_name(name).is_ok() && is_alone)
}

// Refuses the first name: one that no file may have, or that some folders take for the same as one after it.
fn check_first<'n>(
    global: Global,
    names: &[&'n str],
) -> Result<Result<(), NameFault<'n>>, AllocError>
    ensures { IfOk result (λ judged. is_ok judged ≡ is_first_name (names_said names.now)) }
{
    let Some((name, others)) = names.split_first() else {
        return Ok(Ok(()));
    };
    if let Err(fault) = check_name(*name) {
        return Ok(Err(fault));
    }
    match other_alike(global, *name, others)? {
        Some(other) => Ok(Err(clash(*name, other))),
        None => Ok(Ok(())),
    }
}

// The first of the others that some folders take for this one.
#[tactic(auto, using(crate::proofs::Names::other_differs, crate::proofs::Names::other_is_alike, crate::proofs::Names::no_other_left))]
fn other_alike<'n>(
    global: Global,
    name: &str,
    others: &[&'n str],
) -> Result<Option<&'n str>, AllocError>
    ensures { IfOk result (λ found. is_some found ≡ list_any (are_alike name.now) (names_said others.now)) }
{
    for other in others {
        if are_alike(global, name, *other)? {
            return Ok(Some(*other));
        }
    }
    Ok(None)
}

// The fault of two names that are alike.
fn clash<'n>(name: &'n str, other: &'n str) -> NameFault<'n> {
    if name == other {
        NameFault::Twice(name)
    } else if are_same_letters(name.as_bytes(), other) {
        NameFault::Alike(name, other)
    } else {
        NameFault::Same(name, other)
    }
}
