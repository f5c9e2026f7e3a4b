//! A page of roff.

ghost use Rattle.std.specs.Prelude.{◌≡◌, ◌∷◌, [], ◌++◌, true, IfOk, OnOk, OnErr, codes, string_bytes};
ghost use Rattle.bpaf_roff.specs.Roff.{with_pieces, control_pieces, text_pieces, rendering};

use bpaf_roff::escape::Apostrophes;
use bpaf_roff::roff::{Font, Roff};
use std::alloc::{AllocError, Allocator, Global};

/// A page with a heading and a bold word, newlines shown as blanks.
pub fn page(alloc: Global, heading: &str, word: &str) -> Result<String, AllocError>
    ensures { IfOk result (λ page. string_bytes page ≡ rendering Apostrophes.Handle
        (control_pieces (codes "SH") (heading.now ∷ []) ++ text_pieces true ((Font.Bold, word.now) ∷ []))) }
{
    let mut roff = Roff::new(alloc);
    roff.strip_newlines(true)
        .control("SH", &[heading])?
        .text(&[(Font::Bold, word)])?;
    roff.render(Apostrophes::Handle)
}

/// A heading, or nothing.
pub fn heading<A: Allocator>(roff: &mut Roff<A>, name: &str) -> Result<(), AllocError>
    ensures ok { OnOk result (roff.new ≡ with_pieces roff.old (control_pieces (codes "SH") (name.now ∷ []))) }
    ensures err { OnErr result (roff.new ≡ roff.old) }
{
    roff.append_control("SH", &[name])
}
