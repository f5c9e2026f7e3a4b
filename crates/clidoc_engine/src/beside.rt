//! The names of files on the way to their places.

ghost use Rattle.std.specs.Prelude.{◌≡◌, IfOk, string_bytes};
ghost use Rattle.clidoc_engine.specs.Beside.{beside_name};

use hex::FromHex;
use std::alloc::{AllocError, Allocator};

/// The name of the file that a page is first written to: a dot, the name of its place, a dot, what was drawn in
/// hexadecimal digits, and `.new`. `AllocError` where an allocation failed.
pub fn name_beside<A: Allocator + Copy>(
    alloc: A,
    place: &str,
    drawn: [u8; 4],
) -> Result<String<A>, AllocError>
    ensures { IfOk result (λ beside. string_bytes beside ≡ beside_name place.now drawn) }
{
    let mut beside = String::from_str(alloc, ".")?;
    beside.push_str(place)?;
    beside.push('.')?;
    beside.push_str(&hex::encode(alloc, drawn)?)?;
    beside.push_str(".new")?;
    Ok(beside)
}

/// Whether a file of this name is one that a page is first written to.
pub fn is_beside(name: &str) -> bool {
    let Some(rest) = name.strip_prefix('.') else {
        return false;
    };
    let Some(rest) = rest.strip_suffix(".new") else {
        return false;
    };
    match rest.rsplit_once('.') {
        Some((_, digits)) => <[u8; 4] as FromHex>::from_hex(digits).is_ok(),
        None => false,
    }
}
