//! Which names stand on one side alone.
ghost use Rattle.std.specs.Prelude.{◌≡◌, ◌↔◌, map, IfOk, OnOk};
ghost use Rattle.std.specs.List.{Contains};
ghost use Rattle.std.specs.List.Sorted.{IsStrictlySortedBy};
ghost use Rattle.std.specs.Option.{option_map};
ghost use Rattle.help_differences.specs.Differences.{Alone, IsDifference, name_cmp, names_of};
ghost use Rattle.help_differences.specs.Names.{Named};
ghost use Rattle.help_differences.specs.Steps as spec;
ghost use Rattle.help_differences.specs.View.{difference_said, name_said};

use crate::names::Name;
use std::alloc::{AllocError, Allocator};
use std::cmp::Ordering;

/// One of the two texts that have names.
#[derive(Clone, Copy, Debug, PartialEq, Eq)]
pub enum Side {
    Description,
    Help,
}

/// A name that one side alone has.
#[derive(Clone, Copy, Debug, PartialEq, Eq)]
pub struct Difference<'a> {
    pub name: Name<'a>,
    /// Where it stands.
    pub stands: Side,
}

// The names in order, each once.
fn sorted<'a, A: Allocator>(alloc: A, names: &[Name<'a>]) -> Result<Vec<Name<'a>, A>, AllocError>
    ensures in_order { IfOk result (λ copy. IsStrictlySortedBy name_cmp (map name_said copy.items)) }
    ensures same { IfOk result (λ copy. (n : Named)
        → Contains (map name_said copy.items) n ↔ Contains (map name_said names.now) n) }
{
    let mut copy = Vec::from_slice(alloc, names)?;
    copy.sort_unstable();
    copy.dedup();
    Ok(copy)
}

// Which side has the first of all names; `Equal` where both have it, and None where no name is left.
fn order_of(described: &[Name<'_>], help: &[Name<'_>]) -> Option<Ordering>
    ensures { result ≡ spec.order_of (map name_said described.now) (map name_said help.now) }
{
    match (described, help) {
        ([], []) => None,
        ([_, ..], []) => Some(Ordering::Less),
        ([], [_, ..]) => Some(Ordering::Greater),
        ([name, ..], [other, ..]) => Some(name.cmp(other)),
    }
}

fn first_alone<'a>(names: &[Name<'a>], stands: Side) -> Option<Difference<'a>>
    ensures { option_map difference_said result ≡ spec.first_alone stands (map name_said names.now) }
{
    let name = *names.first()?;
    Some(Difference { name, stands })
}

// The first of all names, if one side alone has it.
fn found_by<'a>(
    order: Ordering,
    described: &[Name<'a>],
    help: &[Name<'a>],
) -> Option<Difference<'a>>
    ensures { option_map difference_said result
        ≡ spec.found_by order (map name_said described.now) (map name_said help.now) }
{
    match order {
        Ordering::Less => first_alone(described, Side::Description),
        Ordering::Equal => None,
        Ordering::Greater => first_alone(help, Side::Help),
    }
}

// What is left, once the first name is taken out or not.
fn left<'l, 'a>(names: &'l [Name<'a>], is_taken: bool) -> &'l [Name<'a>]
    ensures { result.now ≡ spec.left is_taken names.now }
{
    match names {
        [_, others @ ..] if is_taken => others,
        _ => names,
    }
}

fn push_found<'a, A: Allocator>(
    differences: &mut Vec<Difference<'a>, A>,
    found: Option<Difference<'a>>,
) -> Result<(), AllocError>
    ensures { OnOk result (map difference_said differences.new.items
        ≡ spec.with_found (map difference_said differences.old.items) (option_map difference_said found.entry)) }
{
    if let Some(difference) = found {
        differences.push(difference)?;
    }
    Ok(())
}

// The names that one side alone has, where each side is in order and has each name once.
fn merged<'l, 'a, A: Allocator>(
    alloc: A,
    described: &'l [Name<'a>],
    help: &'l [Name<'a>],
) -> Result<Vec<Difference<'a>, A>, AllocError>
    requires described { IsStrictlySortedBy name_cmp (map name_said described.now) }
    requires help { IsStrictlySortedBy name_cmp (map name_said help.now) }
    ensures each { IfOk result (λ found. (a : Alone) → Contains (map difference_said found.items) a
        ↔ IsDifference (map name_said described.now) (map name_said help.now) a) }
    ensures in_order { IfOk result (λ found.
        IsStrictlySortedBy name_cmp (names_of (map difference_said found.items))) }
{
    let mut differences = Vec::new(alloc);
    let mut ours = described;
    let mut theirs = help;
    while let Some(order) = order_of(ours, theirs) {
        push_found(&mut differences, found_by(order, ours, theirs))?;
        ours = left(ours, order.is_le());
        theirs = left(theirs, order.is_ge());
    }
    Ok(differences)
}

/// The names that one side alone has, each once: options first, and then by their bytes.
///
/// # Errors
///
/// Memory.
pub fn differences<'a, A: Allocator + Copy>(
    alloc: A,
    described: &[Name<'a>],
    help: &[Name<'a>],
) -> Result<Vec<Difference<'a>, A>, AllocError>
    ensures each { IfOk result (λ found. (a : Alone) → Contains (map difference_said found.items) a
        ↔ IsDifference (map name_said described.now) (map name_said help.now) a) }
    ensures in_order { IfOk result (λ found.
        IsStrictlySortedBy name_cmp (names_of (map difference_said found.items))) }
{
    let described = sorted(alloc, described)?;
    let help = sorted(alloc, help)?;
    merged(alloc, &described, &help)
}
