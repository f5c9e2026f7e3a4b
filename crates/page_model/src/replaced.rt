//! Texts in which something else stands for some bytes.

ghost use Rattle.std.specs.Prelude.{◌≡◌, ◌<◌, ◌++◌, ℕ, List, [], ◌∷◌, MatchOption, OnOk, flat_map, string_bytes};

use std::alloc::{AllocError, Allocator};

/// What stands for the bytes that do not stand for themselves, each of which is a character.
pub trait StandIns: Copy {
    // What is written for a byte.
    ghost replaced: { Self → ℕ → List ℕ };

    /// What stands for a byte, or none where it stands for itself.
    fn stand_in(self, byte: u8) -> Option<&'static str>
        ensures { MatchOption result (replaced self byte ≡ byte ∷ [])
            (λ text. (byte < 128) × (replaced self byte ≡ text.now)) };
}

/// Writes a text after what is there, with what stands for its bytes. What lies between two bytes that do not stand
/// for themselves goes in at once. An error comes only where an allocation failed; then the text has some part of it.
pub fn push_replaced<A: Allocator, S: StandIns>(
    out: &mut String<A>,
    text: &str,
    stand_ins: S,
) -> Result<(), AllocError>
    ensures { OnOk result (string_bytes out.new
        ≡ string_bytes out.old ++ flat_map (S.replaced stand_ins) text.now) }
{
    let bytes = text.as_bytes();
    let mut start = 0;
    for at in 0..bytes.len() {
        if let Some(name) = stand_ins.stand_in(bytes[at]) {
            out.push_str(&text[start..at])?;
            out.push_str(name)?;
            start = at + 1;
        }
    }
    out.push_str(&text[start..])
}
