//! Paths of names.
ghost use Rattle.std.specs.Prelude.{◌≡◌, ◌<◌, IfOk, map, string_bytes};
ghost use Rattle.std.specs.List.{join_with_byte};
ghost use Rattle.bpaf_help.specs.Chapters.{anchor, dashed_byte};

use std::alloc::{AllocError, Allocator};

/// A copy of the names.
pub fn copy_of<A: Allocator + Copy>(
    alloc: A,
    path: &[String<A>],
) -> Result<Vec<String<A>, A>, AllocError>
    ensures { IfOk result (λ copy. map string_bytes copy.items ≡ map string_bytes path.now) }
{
    let mut copy = Vec::new(alloc);
    for name in path {
        copy.push(String::from_str(alloc, name.as_str())?)?;
    }
    Ok(copy)
}

/// The names with this character between them.
pub fn joined<A: Allocator>(
    alloc: A,
    path: &[String<A>],
    between: char,
) -> Result<String<A>, AllocError>
    requires { between < 128 }
    ensures { IfOk result (λ text. string_bytes text ≡ join_with_byte between (map string_bytes path.now)) }
{
    let Some((first, others)) = path.split_first() else {
        return Ok(String::new(alloc));
    };
    let mut text = String::from_str(alloc, first.as_str())?;
    for name in others {
        text.push(between)?;
        text.push_str(name.as_str())?;
    }
    Ok(text)
}

/// The names as the address of a heading: joined by `-`, with ASCII letters in lower case and blanks as `-`.
pub fn anchor<A: Allocator + Copy>(alloc: A, path: &[String<A>]) -> Result<String<A>, AllocError>
    ensures { IfOk result (λ text. string_bytes text ≡ anchor (map string_bytes path.now)) }
{
    let mut text = joined(alloc, path, '-')?;
    text.make_ascii_lowercase();
    without_blanks(alloc, text.as_str())
}

// A text with its blanks as `-`.
fn without_blanks<A: Allocator>(alloc: A, text: &str) -> Result<String<A>, AllocError>
    ensures { IfOk result (λ dashed. string_bytes dashed ≡ map dashed_byte text.now) }
{
    let mut dashed = String::new(alloc);
    for character in text.chars() {
        dashed.push(without_blank(character))?;
    }
    Ok(dashed)
}

fn without_blank(character: char) -> char
    ensures { result ≡ dashed_byte character }
{
    if character == ' ' { '-' } else { character }
}
