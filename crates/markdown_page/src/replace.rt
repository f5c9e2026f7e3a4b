//! What stands for the bytes of texts that are not escaped.

ghost use Rattle.std.specs.Prelude.{◌≡◌, ◌<◌, [], ◌∷◌, MatchOption};
ghost use Rattle.markdown_page.specs.Exact.{auto_byte};
ghost use Rattle.markdown_page.specs.Kept.{code_byte, shown_byte};
ghost use Rattle.markdown_page.specs.Steps.{place_byte};

use page_model::replaced::StandIns;

/// Where a text is put: in an autolink, in a code span, or in code by itself.
#[derive(Clone, Copy)]
pub enum Place {
    Autolink,
    Span,
    Code,
}

fn in_autolink(byte: u8) -> Option<&'static str>
    ensures { MatchOption result (auto_byte byte ≡ byte ∷ []) (λ text. (byte < 128) × (auto_byte byte ≡ text.now)) }
{
    match byte {
        b'&' => Some("&amp;"),
        _ => None,
    }
}

fn in_span(byte: u8) -> Option<&'static str>
    ensures { MatchOption result (shown_byte byte ∷ [] ≡ byte ∷ [])
        (λ text. (byte < 128) × (shown_byte byte ∷ [] ≡ text.now)) }
{
    match byte {
        b'\t' | b'\n' => Some(" "),
        _ => None,
    }
}

fn in_code(byte: u8) -> Option<&'static str>
    ensures { MatchOption result (code_byte byte ∷ [] ≡ byte ∷ [])
        (λ text. (byte < 128) × (code_byte byte ∷ [] ≡ text.now)) }
{
    match byte {
        b'\n' => Some(" "),
        _ => None,
    }
}

impl StandIns for Place {
    ghost replaced = { place_byte };

    fn stand_in(self, byte: u8) -> Option<&'static str> {
        match self {
            Place::Autolink => in_autolink(byte),
            Place::Span => in_span(byte),
            Place::Code => in_code(byte),
        }
    }
}
