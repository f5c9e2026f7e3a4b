//! What is checked of an entry before its place is reported.
ghost use Rattle.std.specs.Prelude.{◌≡◌, ◌++◌, ◌∷◌, [], IfOk, IfSome, IsTrue, Some, false, is_some, option_map};
ghost use Rattle.std.specs.List.{list_all};
ghost use Rattle.json.specs.Json.{Json, document, item, member, no_items, no_members};
ghost use Rattle.json.specs.Value.{items_view, members_view, value_view};
ghost use Rattle.json.specs.Word.{head, is_space};
ghost use Rattle.description_json.specs.Places.{IsEntry, IsFront, Shows, at_path, is_closing, is_gap, step_to};
ghost use Rattle.keyed.specs.declared.step.Step.TheVariants as Step;

use crate::entries::{Entry, GAP};
use json::{Error, Scratch, Value};
use keyed::Step;
use std::alloc::{AllocError, Global};

/// The text before the entry, once it is seen that the entry brings the path.
pub fn front_of<'t>(
    alloc: Global,
    text: &'t str,
    found: &Entry<'t>,
    path: &[Step<'_>],
) -> Result<Option<&'t str>, AllocError>
    ensures { IfOk result (λ front. IfSome front (λ f. IsFront text.now path.now f.now)) }
{
    let (front, entry) = (found.front, found.entry);
    let closing = found.closing.as_str();
    let kept = front.trim_end_matches(GAP);
    let Some(from) = following(text, front) else {
        return Ok(None);
    };
    let Some(_) = following(from, entry) else {
        return Ok(None);
    };
    let Some(gap) = following(front, kept) else {
        return Ok(None);
    };
    let Some(last) = path.last() else {
        return Ok(None);
    };
    if are_gaps(gap.as_bytes())
        && are_closing(closing.as_bytes())
        && begins_with_ink(entry)
        && is_entry(alloc, *last, entry)?
        && shows(alloc, kept, "", closing, path, false)?
        && shows(alloc, front, entry, closing, path, true)?
    {
        Ok(Some(front))
    } else {
        Ok(None)
    }
}

// What follows this front of the text.
fn following<'t>(text: &'t str, front: &str) -> Option<&'t str>
    ensures { IfSome result (λ rest. text.now ≡ front.now ++ rest.now) }
{
    text.strip_prefix(front)
}

fn are_gaps(bytes: &[u8]) -> bool
    ensures { result ≡ list_all is_gap bytes.now }
{
    bytes.iter().all(|byte| is_gap(*byte))
}

fn is_gap(byte: u8) -> bool
    ensures { result ≡ is_gap byte }
{
    is_space(byte) || byte == b','
}

fn is_space(byte: u8) -> bool
    ensures { result ≡ is_space byte }
{
    byte == b' ' || byte == b'\t' || byte == b'\n' || byte == b'\r'
}

fn are_closing(bytes: &[u8]) -> bool
    ensures { result ≡ list_all is_closing bytes.now }
{
    bytes.iter().all(|byte| *byte == b'}' || *byte == b']')
}

fn begins_with_ink(entry: &str) -> bool
    ensures { IsTrue result → is_space (head entry.now) ≡ false }
{
    match entry.as_bytes().first() {
        Some(first) => !is_space(*first),
        None => false,
    }
}

// Whether the entry is one that the step leads to.
fn is_entry(alloc: Global, step: Step<'_>, entry: &str) -> Result<bool, AllocError>
    ensures { IfOk result (λ seen. IsTrue seen → IsEntry step.entry entry.now) }
{
    match step {
        Step::Key(key) => is_member(alloc, key, entry),
        Step::Index(_) => is_element(alloc, entry),
    }
}

fn is_member(alloc: Global, key: &str, entry: &str) -> Result<bool, AllocError>
    ensures { IfOk result (λ seen. IsTrue seen → IsEntry (Step.Key key.entry) entry.now) }
{
    let whole = format!(in alloc; "{{{entry}}}")?;
    let mut scratch = Scratch::new(alloc);
    match parsed(alloc, &whole, &mut scratch)? {
        Some(Value::Object(members)) => Ok(is_only_key(&members, key)),
        _ => Ok(false),
    }
}

fn is_only_key(members: &Vec<(&str, Value<'_>)>, key: &str) -> bool
    ensures { IsTrue result → (j : Json) × (members_view members.now.items ≡ member key.now j no_members) }
{
    members.len() == 1 && members[0].0 == key
}

fn is_element(alloc: Global, entry: &str) -> Result<bool, AllocError>
    ensures { IfOk result (λ seen. IsTrue seen → (index : _) → IsEntry (Step.Index index) entry.now) }
{
    let whole = format!(in alloc; "[{entry}]")?;
    let mut scratch = Scratch::new(alloc);
    match parsed(alloc, &whole, &mut scratch)? {
        Some(Value::Array(items)) => Ok(is_one(&items)),
        _ => Ok(false),
    }
}

fn is_one(items: &Vec<Value<'_>>) -> bool
    ensures { IsTrue result → (j : Json) × (items_view items.now.items ≡ item j no_items) }
{
    items.len() == 1
}

// The value that the text is, if it is one.
fn parsed<'w>(
    alloc: Global,
    text: &'w str,
    scratch: &'w mut Scratch,
) -> Result<Option<Value<'w>>, AllocError>
    ensures { IfOk result (λ found. IfSome found (λ value. document text.now ≡ Some (value_view value))) }
{
    match Value::parse(alloc, text, scratch) {
        Ok(value) => Ok(Some(value)),
        Err(Error::Invalid) => Ok(None),
        Err(_) => Err(AllocError),
    }
}

// Whether these parts are a document that has something at the path, or has nothing there, as `is_there` says.
fn shows(
    alloc: Global,
    front: &str,
    entry: &str,
    closing: &str,
    path: &[Step<'_>],
    is_there: bool,
) -> Result<bool, AllocError>
    ensures { IfOk result (λ seen. IsTrue seen
        → Shows path.now (front.now ++ (entry.now ++ closing.now)) is_there) }
{
    let whole = format!(in alloc; "{front}{entry}{closing}")?;
    let mut scratch = Scratch::new(alloc);
    match parsed(alloc, &whole, &mut scratch)? {
        Some(value) => Ok(is_in(&value, path) == is_there),
        None => Ok(false),
    }
}

fn is_in(value: &Value<'_>, path: &[Step<'_>]) -> bool
    ensures { result ≡ is_some (at_path path.now (value_view value.now)) }
{
    match path {
        [] => true,
        [step, rest @ ..] => match step_from(value, *step) {
            Some(next) => is_in(next, rest),
            None => false,
        },
    }
}

fn step_from<'v, 'w>(value: &'v Value<'w>, step: Step<'_>) -> Option<&'v Value<'w>>
    ensures { option_map (λ v. value_view v.now) result ≡ step_to step.entry (value_view value.now) }
{
    match step {
        Step::Key(key) => value.get(key),
        Step::Index(index) => value.at(index),
    }
}
