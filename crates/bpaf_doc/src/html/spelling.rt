//! A block of a text in the spelling of a language, first written to a room on the stack. No branch depends on a byte:
//! where many bytes have another spelling, it would often be guessed wrong.

ghost use Rattle.std.specs.Prelude.{◌≡◌, ◌+◌, ◌≤◌, ◌++◌, [], ◌∷◌, take, length, flat_map, codes};
ghost use Rattle.bpaf_doc.specs.Html.Steps.View.{spelling_of};

use super::Language;

/// How many bytes are spelled at once.
pub const BLOCK: usize = 32;

/// How many bytes they become at most: `&lt;` for each.
pub const ROOM: usize = 4 * BLOCK;

// Puts the four bytes of an entity, of which the caller may use only the first.
#[inline(always)]
fn put_entity(room: &mut [u8; ROOM], at: usize, first: u8, letter: u8)
    requires fits { at + 4 ≤ ROOM }
    ensures one { take (at + 1) room.new ≡ take at room.old ++ first ∷ [] }
    ensures four { take (at + 4) room.new ≡ take at room.old ++ first ∷ letter ∷ codes "t;" }
{
    room[at] = first;
    room[at + 1] = letter;
    room[at + 2] = b't';
    room[at + 3] = b';';
}

// Puts a byte in HTML at a place, and returns the place after it. The one below does the same in markdown.
#[inline(always)]
fn put_html(room: &mut [u8; ROOM], at: usize, byte: u8) -> usize
    requires fits { at + 4 ≤ ROOM }
    ensures next { result ≤ at + 4 }
    ensures text { take result room.new ≡ take at room.old ++ spelling_of Language.Html byte }
{
    let is_angle = byte == b'<' || byte == b'>';
    let letter = if byte == b'<' { b'l' } else { b'g' };
    put_entity(room, at, if is_angle { b'&' } else { byte }, letter);
    if is_angle { at + 4 } else { at + 1 }
}

#[inline(always)]
fn put_markdown(room: &mut [u8; ROOM], at: usize, byte: u8) -> usize
    requires fits { at + 4 ≤ ROOM }
    ensures next { result ≤ at + 4 }
    ensures text { take result room.new ≡ take at room.old ++ spelling_of Language.Markdown byte }
{
    room[at] = b'\\';
    let start = if byte == b'[' || byte == b']' {
        at + 1
    } else {
        at
    };
    room[start] = byte;
    start + 1
}

#[inline(always)]
fn put_spelled(room: &mut [u8; ROOM], at: usize, language: Language, byte: u8) -> usize
    requires fits { at + 4 ≤ ROOM }
    ensures next { result ≤ at + 4 }
    ensures text { take result room.new ≡ take at room.old ++ spelling_of language byte }
{
    match language {
        Language::Html => put_html(room, at, byte),
        Language::Markdown => put_markdown(room, at, byte),
    }
}

/// Puts a block in the language's spelling at the start of the room, and returns how many bytes that is.
#[inline(always)]
pub fn fill(room: &mut [u8; ROOM], language: Language, bytes: &[u8]) -> usize
    requires short { length bytes.now ≤ BLOCK }
    ensures fits { result ≤ ROOM }
    ensures text { take result room.new ≡ flat_map (spelling_of language) bytes.now }
{
    let mut end = 0;
    for byte in bytes {
        end = put_spelled(room, end, language, *byte);
    }
    end
}
