//! The printed form of texts.

ghost use Rattle.std.specs.Prelude.{◌≡◌, ◌<◌, ◌≤◌, ◌+◌, ◌-◌, ◌==◌, [], ◌∷◌, ◌++◌, Some, encode_utf8, flat_map};
ghost use Rattle.std.specs.Prelude.{if◌then◌else◌, IfOk, IfSome, IsTrue, IsUtf8, OnOk, length, string_bytes, take};
ghost use Rattle.std.specs.List.{list_all};
ghost use Rattle.std.specs.Str.Iter.{chars_rest};
ghost use Rattle.replay.specs.Encoding.{Spells, StandFor, character_spelling, code_at, escape_at, hex_digits};
ghost use Rattle.replay.specs.Encoding.{spelling};
ghost use Rattle.replay.specs.Steps.{AreOf, is_usual, letter_of, size_of, usual_spelling};

use crate::fault::Bad;
use std::alloc::{AllocError, Global};
use std::str;
use std::str::Chars;

// How many bytes at most are written at once.
const BLOCK: usize = 64;

// How many bytes at most these become: two for each.
const ROOM: usize = 2 * BLOCK;

/// The text that a word spells. The word is what follows the quote mark.
pub fn read_text(alloc: Global, word: &str) -> Result<String, Bad>
    ensures { IfOk result (λ text. Spells word.now (string_bytes text)) }
{
    let mut text = String::new(alloc);
    let mut marks = word.chars();
    while let Some(mark) = marks.next() {
        let Some(character) = read_character(mark, &mut marks) else {
            return Err(Bad::Words("no such escape"));
        };
        text.push(character)?;
    }
    Ok(text)
}

// The character for which a mark stands, which takes more of them if it is a backslash.
fn read_character(mark: char, marks: &mut Chars<'_>) -> Option<char>
    ensures found { IfSome result (StandFor (encode_utf8 mark ++ chars_rest marks.old) (chars_rest marks.new)) }
    ensures no_longer { length (chars_rest marks.new) ≤ length (chars_rest marks.old) }
{
    match mark {
        '\\' => Some(read_escape(marks)?),
        _ => Some(mark),
    }
}

// Takes what stands after a backslash.
fn read_escape(marks: &mut Chars<'_>) -> Option<char>
    ensures found { IfSome result (λ character. escape_at (chars_rest marks.old)
        ≡ Some (character, chars_rest marks.new)) }
    ensures no_longer { length (chars_rest marks.new) ≤ length (chars_rest marks.old) }
{
    match marks.next()? {
        '\\' => Some('\\'),
        's' => Some(' '),
        'n' => Some('\n'),
        't' => Some('\t'),
        'r' => Some('\r'),
        'u' => read_code(marks, 6, 0),
        _ => None,
    }
}

// Takes that many digits of a character's code, after those that gave a number.
fn read_code(marks: &mut Chars<'_>, count: u32, number: u32) -> Option<char>
    ensures found { IfSome result (λ character. code_at count number (chars_rest marks.old)
        ≡ Some (character, chars_rest marks.new)) }
    ensures no_longer { length (chars_rest marks.new) ≤ length (chars_rest marks.old) }
{
    if count == 0 {
        let character = char::from_u32(number)?;
        return Some(character);
    }
    let digit = marks.next()?.to_digit(16)?;
    let longer = number.checked_mul(16)?.checked_add(digit)?;
    let character = read_code(marks, count - 1, longer)?;
    Some(character)
}

/// Writes a quote mark and the text after it.
pub fn write_text(out: &mut String, text: &str) -> Result<(), AllocError>
    ensures { OnOk result (string_bytes out.new ≡ string_bytes out.old ++ 39 ∷ spelling text.now) }
{
    out.push('\'')?;
    write_characters(out, text)
}

/// Writes the characters of a text as they stand after a quote mark. Blocks of those that most texts have are written
/// at once.
pub fn write_characters(out: &mut String, text: &str) -> Result<(), AllocError>
    ensures { OnOk result (string_bytes out.new ≡ string_bytes out.old ++ spelling text.now) }
{
    let mut rest = text;
    'blocks: while !rest.is_empty() {
        let (block, others) = rest.split_at(rest.floor_char_boundary(BLOCK));
        write_block(out, block)?;
        rest = write_first(out, others)?;
    }
    Ok(())
}

// Writes the first character, where there is one, and returns the others.
fn write_first<'a>(out: &mut String, text: &'a str) -> Result<&'a str, AllocError>
    ensures written { IfOk result (λ rest. string_bytes out.new ++ spelling rest.now
        ≡ string_bytes out.old ++ spelling text.now) }
    ensures text { IfOk result (λ rest. IsUtf8 rest.now) }
    ensures left { IfOk result (λ rest. length rest.now ≤ length text.now - 1) }
{
    let mut characters = text.chars();
    let Some(character) = characters.next() else {
        return Ok(text);
    };
    write_character(out, character)?;
    Ok(characters.as_str())
}

fn write_block(out: &mut String, block: &str) -> Result<(), AllocError>
    requires short { length block.now ≤ BLOCK }
    ensures { OnOk result (string_bytes out.new ≡ string_bytes out.old ++ spelling block.now) }
{
    if are_usual(block.as_bytes()) {
        write_usual(out, block)
    } else {
        write_each(out, block)
    }
}

fn write_each(out: &mut String, text: &str) -> Result<(), AllocError>
    ensures { OnOk result (string_bytes out.new ≡ string_bytes out.old ++ spelling text.now) }
{
    for character in text.chars() {
        write_character(out, character)?;
    }
    Ok(())
}

// Whether all of these are printable ASCII or a newline. It looks at each, whatever came before, so that many are
// compared at once.
fn are_usual(bytes: &[u8]) -> bool
    ensures { result ≡ list_all is_usual bytes.now }
{
    let mut usual = true;
    for byte in bytes {
        usual &= (0x20..=0x7E).contains(byte) || *byte == b'\n';
    }
    usual
}

#[tactic(auto, using(crate::proofs::Blocks::block_text, crate::proofs::Blocks::block_spelled))]
fn write_usual(out: &mut String, block: &str) -> Result<(), AllocError>
    requires usual { IsTrue (list_all is_usual block.now) }
    requires short { length block.now ≤ BLOCK }
    ensures { OnOk result (string_bytes out.new ≡ string_bytes out.old ++ spelling block.now) }
{
    let mut room = [0; ROOM];
    let end = fill(&mut room, block.as_bytes());
    out.push_str(str::from_utf8(&room[..end]).unwrap())
}

// Puts what the bytes of a block become at the start of the room, and returns how many bytes these are.
#[tactic(auto, using(crate::proofs::Blocks::spelled_more))]
fn fill(room: &mut [u8; ROOM], bytes: &[u8]) -> usize
    requires short { length bytes.now ≤ BLOCK }
    ensures fits { result ≤ ROOM }
    ensures text { take result room.new ≡ flat_map usual_spelling bytes.now }
{
    let mut letters = [0; BLOCK];
    let mut sizes = [0; BLOCK];
    put_letters(&mut letters, bytes);
    put_sizes(&mut sizes, bytes);
    let mut end = 0;
    for index in 0..bytes.len() {
        end = put(room, end, letters[index], sizes[index]);
    }
    end
}

// Puts what stands for each byte, after a backslash or alone: for many at once.
fn put_letters(letters: &mut [u8; BLOCK], bytes: &[u8])
    requires short { length bytes.now ≤ BLOCK }
    ensures { AreOf letter_of bytes.now (length bytes.now) letters.new }
{
    for index in 0..bytes.len() {
        letters[index] = letter_of(bytes[index]);
    }
}

// Puts how many bytes each byte becomes.
fn put_sizes(sizes: &mut [u8; BLOCK], bytes: &[u8])
    requires short { length bytes.now ≤ BLOCK }
    ensures { AreOf size_of bytes.now (length bytes.now) sizes.new }
{
    for index in 0..bytes.len() {
        sizes[index] = size_of(bytes[index]);
    }
}

// Puts a letter at a place, after a backslash where the size is 2, and returns the place after it. The backslash is put
// in either case, and the letter over it or after it: a branch would often be predicted wrong.
#[inline(always)]
fn put(room: &mut [u8; ROOM], at: usize, letter: u8, size: u8) -> usize
    requires some { 0 < size }
    requires few { size ≤ 2 }
    requires fits { at + 2 ≤ ROOM }
    ensures next { result ≤ at + 2 }
    ensures text { take result room.new
        ≡ take at room.old ++ (if size == 2 then 92 ∷ letter ∷ [] else letter ∷ []) }
{
    room[at] = b'\\';
    let next = at + usize::from(size);
    room[next - 1] = letter;
    next
}

#[inline(always)]
fn letter_of(byte: u8) -> u8
    ensures { result ≡ letter_of byte }
{
    if byte == b' ' {
        b's'
    } else if byte == b'\n' {
        b'n'
    } else {
        byte
    }
}

#[inline(always)]
fn size_of(byte: u8) -> u8
    ensures { result ≡ size_of byte }
{
    if byte == b' ' || byte == b'\n' || byte == b'\\' {
        2
    } else {
        1
    }
}

/// Writes one character as it stands in a text.
pub fn write_character(out: &mut String, character: char) -> Result<(), AllocError>
    ensures { OnOk result (string_bytes out.new ≡ string_bytes out.old ++ character_spelling character) }
{
    match character {
        '\\' => out.push_str("\\\\"),
        ' ' => out.push_str("\\s"),
        '\n' => out.push_str("\\n"),
        '\t' => out.push_str("\\t"),
        '\r' => out.push_str("\\r"),
        _ => {
            if character.is_control() || character.is_whitespace() {
                out.push_str("\\u")?;
                write_digits(out, character as u32, 6)
            } else {
                out.push(character)
            }
        }
    }
}

// Writes that many of the lowest digits of a code.
fn write_digits(out: &mut String, code: u32, count: u32) -> Result<(), AllocError>
    ensures { OnOk result (string_bytes out.new ≡ string_bytes out.old ++ hex_digits count code) }
{
    if count == 0 {
        return Ok(());
    }
    write_digits(out, code / 16, count - 1)?;
    out.push(char::from_digit(code % 16, 16).unwrap())
}
