//! The bytes that labelled pieces are escaped to.

ghost use Rattle.std.specs.Prelude.{◌≡◌, ◌≤◌, ◌++◌, [], ◌∷◌, List, ℕ, length, drop, map, flat_map, IfOk, OnOk, OnErr, IsUtf8};
ghost use Rattle.std.specs.Borrow.{Bor};
ghost use Rattle.std.specs.Iterator.{IsFinite, Drains};
ghost use Rattle.bpaf_roff.specs.Pieces.{Piece, piece_at};
ghost use Rattle.bpaf_roff.specs.Roff.{piece};
ghost use Rattle.bpaf_roff.specs.Escaping.{spaces_text, breaks, signs_of, escaped};
ghost use Rattle.bpaf_roff.specs.Steps.Output.{KeepsFront, IsText};
ghost use Rattle.bpaf_roff.specs.Steps.Contexts.{bytes_in, ends_in_line_start, text_in};

use crate::escape::text::{BLOCK, Context, ROOM, are_plain, fill, starts_line};
use crate::escape::{Apostrophes, Escape};
use std::alloc::{AllocError, Allocator};

fn write_spaces<A: Allocator>(out: &mut Vec<u8, A>, byte: u8) -> Result<(), AllocError>
    ensures ok { OnOk result (out.new.items ≡ out.old.items ++ spaces_text byte) }
    ensures kept { KeepsFront out.old.items out.new.items }
{
    match byte {
        b' ' | b'\n' => out.extend_from_slice(b"\\ ")?,
        b'\\' => out.extend_from_slice(b"\\\\")?,
        _ => out.push(byte)?,
    }
    Ok(())
}

#[tactic(auto, using(crate::proofs::lemmas::Fronts::front_lemmas))]
fn write_argument<A: Allocator>(out: &mut Vec<u8, A>, bytes: &[u8]) -> Result<(), AllocError>
    ensures ok { OnOk result (out.new.items ≡ out.old.items ++ flat_map spaces_text bytes.now) }
    ensures kept { KeepsFront out.old.items out.new.items }
{
    for byte in bytes {
        write_spaces(out, *byte)?;
    }
    Ok(())
}

// Inlined, so that the loop over the bytes is compiled for one label.
#[inline(always)]
fn write_text<A: Allocator>(
    out: &mut Vec<u8, A>,
    room: &mut [u8; ROOM],
    context: Context,
    bytes: &[u8],
) -> Result<(), AllocError>
    requires text { IsText context.label }
    requires short { length bytes.now ≤ BLOCK }
    ensures ok { OnOk result (out.new.items ≡ out.old.items ++ text_in context (bytes_in context bytes.now)) }
    ensures kept { KeepsFront out.old.items out.new.items }
{
    let end = fill(room, context, bytes);
    out.extend_from_slice(&room[..end])
}

// The newline before a piece that begins a line. Returns whether a line starts there.
fn write_break<A: Allocator>(out: &mut Vec<u8, A>, context: Context) -> Result<bool, AllocError>
    ensures ok { OnOk result (out.new.items ≡ out.old.items ++ text_in context (breaks context.label)) }
    ensures line_start { IfOk result (λ after. after ≡ ends_in_line_start context (breaks context.label)) }
    ensures kept { KeepsFront out.old.items out.new.items }
{
    match context.label {
        Escape::UnescapedAtNewline => {
            if !context.at_line_start {
                out.push(b'\n')?;
            }
            Ok(true)
        }
        Escape::Spaces | Escape::Special | Escape::SpecialNoNewline | Escape::Unescaped => {
            Ok(context.at_line_start)
        }
    }
}

// A text is copied whole where its bytes are written as they are. A text whose newlines are stripped is not tested for
// that, since such texts are short.
#[inline(always)]
fn write_bytes<A: Allocator>(
    out: &mut Vec<u8, A>,
    room: &mut [u8; ROOM],
    context: Context,
    bytes: &[u8],
) -> Result<(), AllocError>
    requires short { length bytes.now ≤ BLOCK }
    ensures ok { OnOk result (out.new.items ≡ out.old.items ++ text_in context (bytes_in context bytes.now)) }
    ensures kept { KeepsFront out.old.items out.new.items }
{
    match context.label {
        Escape::UnescapedAtNewline | Escape::Unescaped => out.extend_from_slice(bytes),
        Escape::Spaces => write_argument(out, bytes),
        Escape::Special => {
            if are_plain(bytes) {
                return out.extend_from_slice(bytes);
            }
            write_text(
                out,
                room,
                Context {
                    label: Escape::Special,
                    ..context
                },
                bytes,
            )
        }
        Escape::SpecialNoNewline => {
            write_text(
                out,
                room,
                Context {
                    label: Escape::SpecialNoNewline,
                    ..context
                },
                bytes,
            )
        }
    }
}

// Returns whether a line starts after the block. Inlined, so that the loops know how many bytes a whole block has.
#[inline(always)]
fn write_block<A: Allocator>(
    out: &mut Vec<u8, A>,
    room: &mut [u8; ROOM],
    context: Context,
    block: &[u8],
) -> Result<bool, AllocError>
    requires short { length block.now ≤ BLOCK }
    ensures ok { OnOk result (out.new.items ≡ out.old.items ++ text_in context (bytes_in context block.now)) }
    ensures line_start { IfOk result (λ after. after ≡ ends_in_line_start context (bytes_in context block.now)) }
    ensures kept { KeepsFront out.old.items out.new.items }
{
    write_bytes(out, room, context, block)?;
    Ok(starts_line(context, block))
}

/// Returns whether a line starts after the piece. What blocks become goes through `room`, which is passed in since to
/// clear it for each piece would take time.
#[inline(always)]
#[tactic(auto, using(crate::proofs::lemmas::Fronts::front_lemmas))]
pub(crate) fn write_piece<A: Allocator>(
    out: &mut Vec<u8, A>,
    room: &mut [u8; ROOM],
    context: Context,
    text: &str,
) -> Result<bool, AllocError>
    ensures ok { OnOk result (out.new.items
        ≡ out.old.items ++ text_in context (signs_of (piece context.label text.now))) }
    ensures line_start { IfOk result (λ after. after
        ≡ ends_in_line_start context (signs_of (piece context.label text.now))) }
    ensures kept { KeepsFront out.old.items out.new.items }
    ensures utf8 { IsUtf8 text.now }
{
    let mut at_line_start = write_break(out, context)?;
    let mut rest = text.as_bytes();
    while rest.len() >= BLOCK {
        let (block, after) = rest.split_at(BLOCK);
        at_line_start = write_block(
            out,
            room,
            Context {
                at_line_start,
                ..context
            },
            block,
        )?;
        rest = after;
    }
    let after = write_block(
        out,
        room,
        Context {
            at_line_start,
            ..context
        },
        rest,
    )?;
    Ok(after)
}

/// Appends the bytes of each piece, as from a line start. An error comes where an allocation failed; the bytes are then
/// those that were there.
pub fn escape<'a, I: Iterator<Item = (&'a Escape, &'a str)> + Drop, A: Allocator>(
    items: I,
    out: &mut Vec<u8, A>,
    apostrophes: Apostrophes,
) -> Result<(), AllocError>
    requires can { I.can_next items }
    requires ends { IsFinite (I.remaining items) }
    ensures ok { OnOk result ((xs : List (Bor Escape × Bor (List ℕ))) × Drains I.next_gives items xs
        × (out.new.items ≡ out.old.items ++ escaped apostrophes (map piece_at xs))) }
    ensures added { OnOk result (IsUtf8 (drop (length out.old.items) out.new.items)) }
    ensures text { OnOk result (IsUtf8 out.old.items → IsUtf8 out.new.items) }
    ensures err { OnErr result (out.new.items ≡ out.old.items) }
{
    let start = out.len();
    let mut room = [0; ROOM];
    let mut at_line_start = true;
    for (label, text) in items {
        let context = Context {
            apostrophes,
            at_line_start,
            label: *label,
        };
        match write_piece(out, &mut room, context, text) {
            Ok(after) => at_line_start = after,
            Err(refused) => {
                out.truncate(start);
                return Err(refused);
            }
        }
    }
    Ok(())
}
