//! Lines with prefixes, and paragraphs that are laid out.

ghost use Rattle.std.specs.Prelude.{◌≡◌, ◌++◌, IfOk, OnOk, string_bytes};
ghost use Rattle.std.specs.Int.{is_in_range};
ghost use Rattle.std.specs.List.{list_all};
ghost use Rattle.bpaf_doc.specs.Splitter.Chunks.{columns};
ghost use Rattle.console_page.specs.Lines.{blanks, fronted, laid_out, parting, prefixed};

use bpaf_doc::buffer::Doc;
use std::alloc::{AllocError, Allocator};
use unicode_width::UnicodeWidthStr;

/// An empty line, where one is wanted.
pub fn parting(is_wanted: bool) -> &'static str
    ensures { result.now ≡ parting is_wanted }
{
    if is_wanted { "\n" } else { "" }
}

/// Writes that many blanks.
pub fn push_blanks<A: Allocator>(out: &mut String<A>, count: usize) -> Result<(), AllocError>
    ensures { OnOk result (string_bytes out.new ≡ string_bytes out.old ++ blanks count) }
{
    for _ in 0..count {
        out.push_str(" ")?;
    }
    Ok(())
}

// A line after a prefix, which an empty line does not have.
fn push_fronted<A: Allocator>(
    out: &mut String<A>,
    front: &str,
    line: &str,
) -> Result<(), AllocError>
    ensures { OnOk result (string_bytes out.new ≡ string_bytes out.old ++ fronted front.now line.now) }
{
    if line.is_empty() {
        return Ok(());
    }
    out.push_str(front)?;
    out.push_str(line)
}

/// Writes the lines of a text, the first with one prefix and each further one with a second. An empty line has no
/// prefix.
pub fn push_prefixed<A: Allocator>(
    out: &mut String<A>,
    text: &str,
    first: &str,
    others: &str,
) -> Result<(), AllocError>
    ensures { OnOk result (string_bytes out.new
        ≡ string_bytes out.old ++ prefixed first.now others.now text.now) }
{
    let mut front = first;
    let mut rest = text;
    while let Some((line, below)) = rest.split_once('\n') {
        push_fronted(out, front, line)?;
        out.push_str("\n")?;
        front = others;
        rest = below;
    }
    push_fronted(out, front, rest)
}

// Whether all of these are printable ASCII. It looks at each, whatever came before, so that many are compared at once.
fn is_printable(bytes: &[u8]) -> bool
    ensures { result ≡ list_all (is_in_range 0x20 0x7E) bytes.now }
{
    let mut printable = true;
    for byte in bytes {
        printable &= (0x20..=0x7E).contains(byte);
    }
    printable
}

/// The columns of a text. Each printable ASCII character takes one, and most texts have no other.
#[tactic(auto, using(bpaf_doc::proofs::lemmas::Splitter::Printable::line_columns_are))]
pub fn columns_of(text: &str) -> usize
    ensures { result ≡ columns text.now }
{
    if is_printable(text.as_bytes()) {
        text.len()
    } else {
        text.width()
    }
}

/// The lines of a text of words, as the console page of a document of its own lays them out.
#[tactic(auto, unfolding(crate::specs::Lines::laid_out))]
pub fn lay_out<A: Allocator + Copy>(
    alloc: A,
    text: &str,
    width: usize,
) -> Result<String<A>, AllocError>
    ensures { IfOk result (λ lines. string_bytes lines ≡ laid_out width text.now) }
{
    Doc::from_text(alloc, text)?.render_console(alloc, true, width)
}
