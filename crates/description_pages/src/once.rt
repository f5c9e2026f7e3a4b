//! The first of the items with one key.
ghost use Rattle.std.specs.Prelude.{◌≡◌, ◌++◌, ◌∷◌, [], if◌then◌else◌, IfOk, List, OnOk, map, not};
ghost use Rattle.std.specs.List.{list_any};
ghost use Rattle.description_pages.specs.Once.{each_once, HasSeen};
ghost use Rattle.description_pages.specs.declared.once.Keyed.{Keyed};

use std::alloc::{AllocError, Allocator};
use std::collections::BTreeSet;

/// An item, and what identifies it in a list.
#[derive(Drop)]
pub struct Keyed<K, T> {
    pub key: K,
    pub item: T,
}

// Whether a key was not seen before. From then on it is.
fn is_new<K: Ord + Drop, A: Allocator + Copy>(
    seen: &mut BTreeSet<K, A>,
    key: K,
) -> Result<bool, AllocError>
    ensures { (before : List K) → HasSeen K.eq seen.old.keys before → IfOk result (λ new.
        (new ≡ not (list_any (K.eq key) before)) × HasSeen K.eq seen.new.keys (before ++ key ∷ [])) }
{
    Ok(seen.insert(key)?)
}

fn push_if<T: Drop, A: Allocator>(
    items: &mut Vec<T, A>,
    item: T,
    is_wanted: bool,
) -> Result<(), AllocError>
    ensures { OnOk result (items.new.items ≡ items.old.items ++ (if is_wanted then item ∷ [] else [])) }
{
    if is_wanted {
        items.push(item)?;
    }
    Ok(())
}

/// The first of the items with one key, in order. Keys are compared about as often as a sort of them does.
pub fn each_once<K: Ord + Drop, T: Drop, A: Allocator + Copy>(
    alloc: A,
    rows: Vec<Keyed<K, T>, A>,
) -> Result<Vec<T, A>, AllocError>
    ensures { IfOk result (λ items. items.items
        ≡ map (λ row. row.item) (each_once (λ (x y : Keyed K T). K.eq x.key y.key) rows.items)) }
{
    let mut seen = BTreeSet::new(alloc);
    let mut items = Vec::with_capacity(alloc, rows.len())?;
    for row in rows {
        let Keyed { key, item } = row;
        let is_new = is_new(&mut seen, key)?;
        push_if(&mut items, item, is_new)?;
    }
    Ok(items)
}
