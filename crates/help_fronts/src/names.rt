//! Names put after others.
ghost use Rattle.std.specs.Prelude.{◌≡◌, ◌++◌, ◌∷◌, [], map, OnOk};
ghost use Rattle.help_fronts.specs.Fronts as fronts;

use crate::words::{is_name, name};
use std::alloc::{AllocError, Allocator};

/// Puts a name after others, if the word is one.
pub fn push_name<'a, A: Allocator>(
    names: &mut Vec<&'a str, A>,
    word: &'a str,
) -> Result<(), AllocError>
    ensures { OnOk result (map (λ n. n.now) names.new.items
        ≡ map (λ n. n.now) names.old.items ++ fronts.names (word.now ∷ [])) }
{
    if is_name(word) {
        names.push(name(word))?;
    }
    Ok(())
}
