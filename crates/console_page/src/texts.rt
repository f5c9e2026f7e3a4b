//! Texts of a page as a console shows them.

ghost use Rattle.std.specs.Prelude.{◌≡◌, ◌++◌, [], ◌∷◌, MatchOption, OnOk, string_bytes};
ghost use Rattle.page_model.specs.View.{line_of, piece_of};
ghost use Rattle.std.specs.List.{list_all};
ghost use Rattle.console_page.specs.Steps.{stands_alone};
ghost use Rattle.console_page.specs.Texts.{line_text, piece_text, shown, shown_byte, tab_text};
ghost use Rattle.console_page.specs.declared.texts.Role.TheVariants.{Text};

use page_model::Inline;
use page_model::replaced::{StandIns, push_replaced};
use std::alloc::{AllocError, Allocator};

/// Where a text stands: in lines that are filled, or in lines of code, which stay as they are.
#[derive(Clone, Copy)]
pub enum Role {
    Text,
    Code,
}

fn stand_in_of_tab(role: Role) -> Option<&'static str>
    ensures { MatchOption result (tab_text role ≡ 9 ∷ []) (λ text. tab_text role ≡ text.now) }
{
    match role {
        Role::Text => Some(" "),
        Role::Code => None,
    }
}

impl StandIns for Role {
    ghost replaced = { shown_byte };

    fn stand_in(self, byte: u8) -> Option<&'static str> {
        match byte {
            b'\n' => Some(" "),
            b'\t' => stand_in_of_tab(self),
            _ => None,
        }
    }
}

// Whether each byte stands for itself. It looks at each, whatever came before, so that many are compared at once.
fn stand_alone(bytes: &[u8]) -> bool
    ensures { result ≡ list_all stands_alone bytes.now }
{
    let mut stand = true;
    for byte in bytes {
        stand &= *byte != b'\n' && *byte != b'\t';
    }
    stand
}

#[tactic(auto, using(crate::proofs::Alone::shown_alone))]
fn push_text<A: Allocator>(out: &mut String<A>, text: &str) -> Result<(), AllocError>
    ensures { OnOk result (string_bytes out.new ≡ string_bytes out.old ++ shown Text text.now) }
{
    // Most texts have no newline and no tab.
    if stand_alone(text.as_bytes()) {
        return out.push_str(text);
    }
    push_replaced(out, text, Role::Text)
}

fn push_piece<A: Allocator>(out: &mut String<A>, piece: Inline<'_>) -> Result<(), AllocError>
    ensures { OnOk result (string_bytes out.new ≡ string_bytes out.old ++ piece_text (piece_of piece.entry)) }
{
    match piece {
        Inline::Words(text)
        | Inline::Literal(text)
        | Inline::Value(text)
        | Inline::Link(text)
        | Inline::Page(text) => push_text(out, text),
    }
}

/// Appends the pieces of a line to what is there.
pub fn push_line<A: Allocator>(out: &mut String<A>, pieces: &[Inline<'_>]) -> Result<(), AllocError>
    ensures { OnOk result (string_bytes out.new ≡ string_bytes out.old ++ line_text (line_of pieces.now)) }
{
    for piece in pieces {
        push_piece(out, *piece)?;
    }
    Ok(())
}
