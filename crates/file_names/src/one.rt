//! Names that files may have, one by one.

ghost use Rattle.std.specs.Prelude.{◌≡◌, ◌&&◌, is_ok, nat_le, length, not};
ghost use Rattle.std.specs.List.{list_any, prefix_len};
ghost use Rattle.file_names.specs.Names.{are_same_letters, begins_well, is_console, is_console_end, is_device};
ghost use Rattle.file_names.specs.Names.{is_file_name, is_foreign, is_index, is_no_dot, is_port, is_port_number};
ghost use Rattle.file_names.specs.Names.{is_slash, stem};

use crate::NameFault;

/// How many bytes a name may have.
const MOST: usize = 200;

/// Refuses a name that no file may have, whatever other files there are.
pub fn check_name(name: &str) -> Result<(), NameFault<'_>>
    ensures { is_ok result ≡ is_file_name name.now }
{
    check_bytes(name)?;
    check_front(name)?;
    check_whole(name)
}

fn check_bytes(name: &str) -> Result<(), NameFault<'_>>
    ensures { is_ok result ≡ not (list_any is_slash name.now) && not (list_any is_foreign name.now) }
{
    if has_slash(name.as_bytes()) {
        Err(NameFault::Slash(name))
    } else if has_foreign(name.as_bytes()) {
        Err(NameFault::Foreign(name))
    } else {
        Ok(())
    }
}

fn has_slash(name: &[u8]) -> bool
    ensures { result ≡ list_any is_slash name.now }
{
    name.contains(&b'/')
}

fn is_foreign(byte: u8) -> bool
    ensures { result ≡ is_foreign byte }
{
    matches!(byte, b'"' | b'*' | b':' | b'<' | b'>' | b'?' | b'\\' | b'|')
}

fn has_foreign(name: &[u8]) -> bool
    ensures { result ≡ list_any is_foreign name.now }
{
    name.iter().any(|byte| is_foreign(*byte))
}

fn check_front(name: &str) -> Result<(), NameFault<'_>>
    ensures { is_ok result ≡ begins_well name.now }
{
    let first = name.as_bytes().first();
    if first == Some(&b'.') {
        Err(NameFault::Dot(name))
    } else if first == Some(&b'-') {
        Err(NameFault::Dash(name))
    } else {
        Ok(())
    }
}

fn check_whole(name: &str) -> Result<(), NameFault<'_>>
    ensures { is_ok result ≡ nat_le (length name.now) 200 && not (is_device name.now) && not (is_index name.now) }
{
    if name.len() > MOST {
        Err(NameFault::Long(name))
    } else if is_device(name.as_bytes()) {
        Err(NameFault::Device(name))
    } else if are_same_letters(name.as_bytes(), "index.html") {
        Err(NameFault::Index(name))
    } else {
        Ok(())
    }
}

fn is_no_dot(byte: u8) -> bool
    ensures { result ≡ is_no_dot byte }
{
    byte != b'.'
}

fn stem_len(name: &[u8]) -> usize
    ensures { result ≡ prefix_len is_no_dot name.now }
{
    name.iter().take_while(|byte| is_no_dot(**byte)).count()
}

// What stands before the first dot.
#[tactic(auto, using(crate::proofs::Names::stem_within))]
fn stem(name: &[u8]) -> &[u8]
    ensures { result.now ≡ stem name.now }
{
    &name[..stem_len(name)]
}

fn is_device(name: &[u8]) -> bool
    ensures { result ≡ is_device name.now }
{
    let word = stem(name);
    is_console(word) || is_console_end(word) || is_port(word)
}

fn is_console(word: &[u8]) -> bool
    ensures { result ≡ is_console word.now }
{
    are_same_letters(word, "con")
        || are_same_letters(word, "prn")
        || are_same_letters(word, "aux")
        || are_same_letters(word, "nul")
}

fn is_console_end(word: &[u8]) -> bool
    ensures { result ≡ is_console_end word.now }
{
    are_same_letters(word, "conin$") || are_same_letters(word, "conout$")
}

// A digit, or one of three that are written above the line.
fn is_port_number(number: &[u8]) -> bool
    ensures { result ≡ is_port_number number.now }
{
    match number {
        [digit] => digit.is_ascii_digit(),
        [first, second] => *first == 0xc2 && matches!(*second, 0xb2 | 0xb3 | 0xb9),
        _ => false,
    }
}

fn is_port(word: &[u8]) -> bool
    ensures { result ≡ is_port word.now }
{
    word.len() > 3
        && is_port_number(&word[3..])
        && (are_same_letters(&word[..3], "com") || are_same_letters(&word[..3], "lpt"))
}

/// Whether two words are the same except for the case of ASCII letters.
#[tactic(auto, using(crate::proofs::Names::tells_same))]
pub(crate) fn are_same_letters(word: &[u8], other: &str) -> bool
    ensures { result ≡ are_same_letters word.now other.now }
{
    word.eq_ignore_ascii_case(other.as_bytes())
}
