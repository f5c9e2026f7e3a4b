//! The text of a roff, written as its pieces come.

ghost use Rattle.std.specs.Prelude.{◌≡◌, List, ℕ, IsUtf8, OnOk, OnErr, string_bytes};
ghost use Rattle.bpaf_roff.specs.Escaping.{is_line_start};
ghost use Rattle.bpaf_roff.specs.Roff.{RoffText, piece, with_piece};

use crate::escape::bytes::write_piece;
use crate::escape::text::{Context, ROOM};
use crate::escape::{Apostrophes, Escape};
use std::alloc::{AllocError, Allocator, Global};
use std::marker::Model;

/// Writes pieces after a text, and keeps none of them: for a roff that is to be rendered once. `Roff::begin` makes one.
#[derive(Drop)]
pub struct RoffWriter<A: Allocator = Global> {
    text: Vec<u8, A>,
    apostrophes: Apostrophes,
    at_line_start: bool,
    // Plain text is escaped here, a block at a time.
    room: [u8; ROOM],
}

impl<A: Allocator> Model for RoffWriter<A> {
    ghost use Rattle.std.specs.Prelude.{◌≡◌, IsUtf8};
    ghost use Rattle.bpaf_roff.specs.Escaping.{is_line_start};
    ghost use Rattle.bpaf_roff.specs.Roff.{RoffText};

    ghost Value = { RoffText };

    ghost view = { λ w. record { bytes = w.text.items; apostrophes = w.apostrophes } };

    ghost invariant = { λ w. (w.at_line_start ≡ is_line_start w.text.items) × IsUtf8 w.text.items };
}

#[tactic(auto, using(crate::proofs::lemmas::LineStarts::line_start_lemmas))]
fn ends_line(bytes: &[u8]) -> bool
    ensures { result ≡ is_line_start bytes.now }
{
    match bytes.split_last() {
        Some((last, _)) => *last == b'\n',
        None => true,
    }
}

impl<A: Allocator> RoffWriter<A> {
    pub(crate) fn new(text: Vec<u8, A>, apostrophes: Apostrophes) -> RoffWriter<A>
        requires text { IsUtf8 text.items }
        ensures { result ≡ record { bytes = text.items; apostrophes = apostrophes } }
    {
        let at_line_start = ends_line(text.as_slice());
        RoffWriter {
            text,
            apostrophes,
            at_line_start,
            room: [0; ROOM],
        }
    }

    /// Writes a piece after the others. An error comes where an allocation failed; then nothing changed.
    #[inline(always)]
    pub fn put(&mut self, label: Escape, text: &str) -> Result<(), AllocError>
        ensures ok { OnOk result (self.new ≡ with_piece self.old (piece label text.now)) }
        ensures err { OnErr result (self.new ≡ self.old) }
    {
        let end = self.text.len();
        let context = Context {
            apostrophes: self.apostrophes,
            at_line_start: self.at_line_start,
            label,
        };
        match write_piece(&mut self.text, &mut self.room, context, text) {
            Ok(after) => {
                self.at_line_start = after;
                Ok(())
            }
            Err(refused) => {
                self.text.truncate(end);
                Err(refused)
            }
        }
    }

    /// The allocator that its memory comes from.
    pub fn allocator(&self) -> &A {
        self.text.allocator()
    }

    /// The text with all that was written.
    pub fn into_string(self) -> String<A>
        ensures { string_bytes result ≡ self.bytes }
    {
        // The bytes are a text after each piece, so they are not checked again.
        unsafe { String::from_utf8_unchecked(self.text) }
    }
}
