//! Scripts: the program of a shell, and the table within it.
ghost use Rattle.std.specs.Prelude.{◌≡◌, ◌++◌, ◌<◌, ◌∷◌, [], encode_utf8, IfOk, OnOk, string_bytes};
ghost use Rattle.std.specs.Char.{digit_char};
ghost use Rattle.std.specs.List.{list_all};
ghost use Rattle.description.specs.View.{description_said};
ghost use Rattle.completions.specs.Scripts.{IsScript, first_line, head, is_plain_byte, tag, tag_byte, tagged, tail};

use crate::levels::push_table;
use crate::options::Script;
use crate::shells::Shell;
use bumpalo::Bump;
use description::Description;
use std::alloc::{AllocError, Allocator};

// ---- the name of what a script defines

fn hex_digit(value: u8) -> char
    requires { value < 16 }
    ensures { encode_utf8 result ≡ digit_char value ∷ [] }
{
    if value < 10 {
        char::from(b'0' + value)
    } else {
        char::from(b'a' - 10 + value)
    }
}

fn push_tag_byte<A: Allocator>(tag: &mut String<A>, byte: u8) -> Result<(), AllocError>
    ensures { OnOk result (string_bytes tag.new ≡ string_bytes tag.old ++ tag_byte byte) }
{
    if byte.is_ascii_alphanumeric() {
        return tag.push(char::from(byte));
    }
    tag.push('_')?;
    tag.push(hex_digit(byte / 16))?;
    tag.push(hex_digit(byte % 16))
}

fn tag<'p>(arena: &'p Bump, name: &str) -> Result<&'p str, AllocError>
    ensures { IfOk result (λ made. made.now ≡ tag name.now) }
{
    let mut made = String::new(arena);
    let bytes = name.as_bytes();
    for byte in bytes {
        push_tag_byte(&mut made, *byte)?;
    }
    arena.try_alloc_str(made.as_str())
}

// ---- the program

fn is_plain_byte(byte: u8) -> bool
    ensures { result ≡ is_plain_byte byte }
{
    byte.is_ascii_alphanumeric() || matches!(byte, b'-' | b'.' | b'_' | b'+')
}

fn is_plain(name: &[u8]) -> bool
    ensures { result ≡ list_all is_plain_byte name.now }
{
    name.iter().all(|byte| is_plain_byte(*byte))
}

fn push_first_line<A: Allocator>(
    out: &mut String<A>,
    shell: Shell,
    name: &str,
) -> Result<(), AllocError>
    ensures { OnOk result (string_bytes out.new ≡ string_bytes out.old ++ first_line shell name.now) }
{
    match shell {
        Shell::Bash | Shell::Fish => Ok(()),
        Shell::Zsh => {
            out.push_str("#compdef ")?;
            if is_plain(name.as_bytes()) {
                out.push_str(name)?;
            }
            out.push_str("\n")
        }
    }
}

fn push_piece<A: Allocator>(out: &mut String<A>, piece: &str, tag: &str) -> Result<(), AllocError>
    ensures { OnOk result (string_bytes out.new ≡ string_bytes out.old ++ (piece.now ++ tag.now)) }
{
    out.push_str(piece)?;
    out.push_str(tag)
}

// Appends a text in which a backquote stands for the tag.
fn push_tagged<A: Allocator>(out: &mut String<A>, tag: &str, text: &str) -> Result<(), AllocError>
    ensures { OnOk result (string_bytes out.new ≡ string_bytes out.old ++ tagged tag.now text.now) }
{
    let mut rest = text;
    while let Some((piece, after)) = rest.split_once('`') {
        push_piece(out, piece, tag)?;
        rest = after;
    }
    out.push_str(rest)
}

// A script with its first line.
fn begun<'p>(arena: &'p Bump, shell: Shell, name: &str) -> Result<Script<'p>, AllocError>
    ensures { IfOk result (λ script. string_bytes script ≡ first_line shell name.now) }
{
    let mut script = String::new(arena);
    push_first_line(&mut script, shell, name)?;
    Ok(script)
}

fn push_head<A: Allocator>(out: &mut String<A>, shell: Shell, tag: &str) -> Result<(), AllocError>
    ensures { OnOk result (string_bytes out.new ≡ string_bytes out.old ++ tagged tag.now (head shell)) }
{
    push_tagged(out, tag, shell.head())
}

fn push_tail<A: Allocator>(out: &mut String<A>, shell: Shell, tag: &str) -> Result<(), AllocError>
    ensures { OnOk result (string_bytes out.new ≡ string_bytes out.old ++ tagged tag.now (tail shell)) }
{
    push_tagged(out, tag, shell.tail())
}

/// The script that completes the command line of a description in a shell. What the shell reads of the data in it is,
/// word by word, the table of the description's completions; all else is the same for every description, except for a
/// name made of the program's. An error comes only where an allocation failed.
pub fn completion_script<'p, 'a: 'p, C: Allocator>(
    arena: &'p Bump,
    shell: Shell,
    description: &'p Description<'a, C>,
) -> Result<Script<'p>, AllocError>
    ensures { IfOk result (λ script.
        IsScript shell (description_said description.now) (string_bytes script)) }
{
    let tag = tag(arena, description.name)?;
    let mut out = begun(arena, shell, description.name)?;
    push_head(&mut out, shell, tag)?;
    push_table(arena, &mut out, shell, description)?;
    push_tail(&mut out, shell, tag)?;
    Ok(out)
}
