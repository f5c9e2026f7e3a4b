//! What the bytes of a plain text become, first written to a room on the stack. It is copied to the output at once,
//! since each push to the output asks whether there is space.

ghost use Rattle.std.specs.Prelude.{◌≡◌, ◌<◌, ◌≤◌, ◌+◌, ◌++◌, ◌==◌, [], ◌∷◌, List, ℕ, map, take, length, slice_index};
ghost use Rattle.std.specs.Prelude.{if◌then◌else◌};
ghost use Rattle.std.specs.List.{list_all};
ghost use Rattle.bpaf_roff.specs.Escaping.{Byte, is_line_start, guard, apostrophe_text, special_text, byte_text};
ghost use Rattle.bpaf_roff.specs.Steps.Output.{IsText, AreMarks, IsMark, is_plain, mark, written};
ghost use Rattle.bpaf_roff.specs.Steps.Contexts.{byte_text_in, bytes_in, ends_in_line_start, text_in};

use crate::escape::{Apostrophes, Escape};

/// How many bytes are looked at together: one, and 64 that are marked by the bytes before them.
pub const BLOCK: usize = 65;

/// How many bytes a block becomes at most: `\&\*(Aq` for each byte.
pub const ROOM: usize = 7 * BLOCK;

/// What the form of the bytes of a text depends on.
#[derive(Clone, Copy)]
pub struct Context {
    pub apostrophes: Apostrophes,
    /// Whether the output is at a line start before the text.
    pub at_line_start: bool,
    /// The label of the text.
    pub label: Escape,
}

// Whether the output is at a line start after a byte, whatever was written before.
#[tactic(auto, using(crate::proofs::lemmas::LineStarts::line_start_lemmas))]
fn ends_line(label: Escape, byte: u8) -> bool
    ensures { (apostrophes : Apostrophes) (before : List ℕ)
        → result ≡ is_line_start (before ++ byte_text apostrophes before label byte) }
{
    match label {
        Escape::UnescapedAtNewline | Escape::Special | Escape::Unescaped => byte == b'\n',
        Escape::Spaces | Escape::SpecialNoNewline => false,
    }
}

/// Whether a line starts after these bytes.
#[inline(always)]
pub fn starts_line(context: Context, bytes: &[u8]) -> bool
    ensures { result ≡ ends_in_line_start context (bytes_in context bytes.now) }
{
    match bytes.split_last() {
        Some((last, _)) => ends_line(context.label, *last),
        None => context.at_line_start,
    }
}

// Whether the byte is written as it is in a plain text, wherever it stands.
#[inline(always)]
fn is_plain(byte: u8) -> bool
    ensures { result ≡ is_plain byte }
{
    byte != b'\\' && byte != b'-' && byte != b'.' && byte != b'\''
}

/// Whether all bytes are written as they are in a plain text.
#[inline(always)]
pub fn are_plain(bytes: &[u8]) -> bool
    ensures { result ≡ list_all is_plain bytes.now }
{
    for byte in bytes {
        if !is_plain(*byte) {
            return false;
        }
    }
    true
}

// The mark of a byte that is written neither as it is nor as a backslash and itself. It may stand for any other mark.
const ODD: u8 = 3;

// How a byte is written after another one: 1 stands for as it is, and 2 for after a backslash.
#[inline(always)]
fn mark(before: u8, byte: u8) -> u8
    ensures { result ≡ mark before byte }
{
    let is_odd = byte == b'\'' || (byte == b'.' && before == b'\n');
    let is_escaped = byte == b'\\' || byte == b'-';
    1 + 2 * u8::from(is_odd) + u8::from(is_escaped)
}

// Marks all bytes except the first, many at once.
#[inline(always)]
fn mark_all(marks: &mut [u8; BLOCK], bytes: &[u8])
    requires short { length bytes.now ≤ BLOCK }
    requires first { AreMarks bytes.now 1 marks.now }
    ensures { AreMarks bytes.now (length bytes.now) marks.new }
{
    for index in 1..bytes.len() {
        marks[index] = mark(bytes[index - 1], bytes[index]);
    }
}

// The byte that is shown for this one.
#[inline(always)]
fn shown(label: Escape, byte: u8) -> u8
    requires text { IsText label }
    ensures text { (apostrophes : Apostrophes) (before : List ℕ)
        → byte_text apostrophes before label byte ≡ byte_text apostrophes before Escape.Special result }
    ensures mark { (before : ℕ) → mark before byte ≡ mark before result }
{
    if label == Escape::SpecialNoNewline && byte == b'\n' {
        return b' ';
    }
    byte
}

// Puts a byte at a place, and returns the place after it, as those below do.
#[inline(always)]
fn put(room: &mut [u8; ROOM], at: usize, byte: u8) -> usize
    requires fits { at < ROOM }
    ensures next { result ≡ at + 1 }
    ensures text { take result room.new ≡ take at room.old ++ byte ∷ [] }
{
    room[at] = byte;
    at + 1
}

#[inline(always)]
fn put_pair(room: &mut [u8; ROOM], at: usize, first: u8, second: u8) -> usize
    requires fits { at + 2 ≤ ROOM }
    ensures next { result ≡ at + 2 }
    ensures text { take result room.new ≡ take at room.old ++ first ∷ second ∷ [] }
{
    let next = put(room, at, first);
    put(room, next, second)
}

#[inline(always)]
fn put_apostrophe(room: &mut [u8; ROOM], at: usize, apostrophes: Apostrophes) -> usize
    requires fits { at + 5 ≤ ROOM }
    ensures next { result ≤ at + 5 }
    ensures text { take result room.new ≡ take at room.old ++ apostrophe_text apostrophes }
{
    match apostrophes {
        Apostrophes::Handle => {
            let after_star = put_pair(room, at, b'\\', b'*');
            let after_letter = put_pair(room, after_star, b'(', b'A');
            put(room, after_letter, b'q')
        }
        Apostrophes::DontHandle => put(room, at, b'\''),
    }
}

#[inline(always)]
fn put_guard(room: &mut [u8; ROOM], at: usize, at_line_start: bool, byte: u8) -> usize
    requires fits { at + 2 ≤ ROOM }
    ensures next { result ≤ at + 2 }
    ensures text { take result room.new ≡ take at room.old ++ guard (written at_line_start) byte }
{
    if at_line_start && (byte == b'.' || byte == b'\'') {
        return put_pair(room, at, b'\\', b'&');
    }
    at
}

// A byte with a backslash before it where it needs one. The backslash is put in either case, and the byte over it or
// after it: a branch on the byte would often be guessed wrong.
#[inline(always)]
fn put_escaped(room: &mut [u8; ROOM], at: usize, byte: u8) -> usize
    requires fits { at + 2 ≤ ROOM }
    ensures next { result ≤ at + 2 }
    ensures text { take result room.new ≡ take at room.old ++ special_text Apostrophes.DontHandle byte }
{
    room[at] = b'\\';
    let start = if byte == b'\\' || byte == b'-' {
        at + 1
    } else {
        at
    };
    room[start] = byte;
    start + 1
}

#[inline(always)]
fn put_sign(
    room: &mut [u8; ROOM],
    at: usize,
    apostrophes: Apostrophes,
    at_line_start: bool,
    byte: u8,
) -> usize
    requires fits { at + 7 ≤ ROOM }
    ensures next { result ≤ at + 7 }
    ensures text { take result room.new
        ≡ take at room.old ++ byte_text apostrophes (written at_line_start) Escape.Special byte }
{
    let start = put_guard(room, at, at_line_start, byte);
    if byte == b'\'' {
        return put_apostrophe(room, start, apostrophes);
    }
    put_escaped(room, start, byte)
}

// Puts what the byte at an index becomes, whatever it is.
#[inline(always)]
#[tactic(auto, using(crate::proofs::lemmas::Texts::sign_is))]
fn put_byte(room: &mut [u8; ROOM], at: usize, context: Context, bytes: &[u8], index: usize) -> usize
    requires text { IsText context.label }
    requires within { index < length bytes.now }
    requires fits { at + 7 ≤ ROOM }
    ensures next { result ≤ at + 7 }
    ensures text { take result room.new ≡ take at room.old ++ byte_text_in context bytes.now index }
{
    let byte = shown(context.label, bytes[index]);
    let line_start = starts_line(context, &bytes[..index]);
    put_sign(room, at, context.apostrophes, line_start, byte)
}

// A byte with a backslash before it where its mark is 2, put as `put_escaped` puts it. The mark is the number of bytes
// that are put, so that the next place is one sum.
#[inline(always)]
fn put_marked(room: &mut [u8; ROOM], at: usize, mark: u8, byte: u8) -> usize
    requires some { 0 < mark }
    requires mark { mark < ODD }
    requires fits { at + 2 ≤ ROOM }
    ensures next { result ≤ at + 2 }
    ensures text { take result room.new
        ≡ take at room.old ++ (if mark == 2 then 92 ∷ byte ∷ [] else byte ∷ []) }
{
    room[at] = b'\\';
    let next = at + usize::from(mark);
    room[next - 1] = byte;
    next
}

// Puts what the byte at an index becomes, by its mark where the mark is enough.
#[inline(always)]
fn put_at(
    room: &mut [u8; ROOM],
    at: usize,
    context: Context,
    bytes: &[u8],
    index: usize,
    mark: u8,
) -> usize
    requires text { IsText context.label }
    requires within { index < length bytes.now }
    requires fits { at + 7 ≤ ROOM }
    requires mark { IsMark bytes.now index mark }
    ensures next { result ≤ at + 7 }
    ensures text { take result room.new ≡ take at room.old ++ byte_text_in context bytes.now index }
{
    if mark >= ODD {
        return put_byte(room, at, context, bytes, index);
    }
    put_marked(room, at, mark, shown(context.label, bytes[index]))
}

/// Puts what a text becomes at the start of the room, and returns how many bytes that is. Two bytes are put at a time,
/// since the steps of the loop itself cost a third of what a byte does.
#[inline(always)]
#[tactic(auto, using(crate::proofs::lemmas::Written::front_text_more))]
pub fn fill(room: &mut [u8; ROOM], context: Context, bytes: &[u8]) -> usize
    requires text { IsText context.label }
    requires short { length bytes.now ≤ BLOCK }
    ensures fits { result ≤ ROOM }
    ensures text { take result room.new ≡ text_in context (bytes_in context bytes.now) }
{
    let mut marks = [ODD; BLOCK];
    mark_all(&mut marks, bytes);
    let mut end = 0;
    let mut index = 0;
    'pairs: while index + 1 < bytes.len() {
        end = put_at(room, end, context, bytes, index, marks[index]);
        end = put_at(room, end, context, bytes, index + 1, marks[index + 1]);
        index += 2;
    }
    if index < bytes.len() {
        end = put_at(room, end, context, bytes, index, marks[index]);
    }
    end
}
