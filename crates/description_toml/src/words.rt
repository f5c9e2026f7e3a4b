//! Words that are not known: which known word is near.
ghost use Rattle.std.specs.Prelude.{Contains, IfOk, IfSome};

pub use shown_words::{Brief, Quoted, Shown};
use std::alloc::{AllocError, Allocator};
use strsim::osa_distance;

// A longer word is not near any known one.
const LONGEST: usize = 32;

/// The first known word that takes the fewest edits: at most two, and fewer than half as many as the word has letters.
/// Swapping two neighbours is one edit. A word of over 32 bytes is near none. `AllocError` where an allocation failed.
pub fn nearest<A: Allocator + Copy>(
    alloc: A,
    word: &str,
    known: &[&'static str],
) -> Result<Option<&'static str>, AllocError>
    ensures { IfOk result (λ near. IfSome near (λ one. Contains known.now one)) }
{
    if word.len() > LONGEST {
        return Ok(None);
    }
    let mut bound = word.chars().count().div_ceil(2).min(3);
    let mut near = None;
    for candidate in known {
        let edits = osa_distance(alloc, word, *candidate)?;
        if edits < bound {
            bound = edits;
            near = Some(*candidate);
        }
    }
    Ok(near)
}
