//! A line on a console.

ghost use Rattle.std.specs.Prelude.{◌≡◌, [], true, IfOk, OnOk, OnErr, codes, string_bytes};
ghost use Rattle.bpaf_doc.specs.Console.Layout.{IsLayout};
ghost use Rattle.bpaf_doc.specs.Buffer.Writes.{with_text};

use bpaf_doc::buffer::{Doc, Style};
use std::alloc::{AllocError, Allocator, Global};

/// A usage line, laid out in 80 columns.
pub fn usage(alloc: Global, name: &str) -> Result<String, AllocError>
    ensures { IfOk result (λ page. IsLayout
        (with_text (with_text [] (codes "Usage: ") Style.Text) name.now Style.Literal) true 80 (string_bytes page)) }
{
    let mut doc = Doc::new(alloc);
    doc.text("Usage: ")?;
    doc.literal(name)?;
    doc.render_console(alloc, true, 80)
}

/// Writes a name as it stands, or nothing.
pub fn name<A: Allocator>(doc: &mut Doc<A>, name: &str) -> Result<(), AllocError>
    ensures ok { OnOk result (doc.new ≡ with_text doc.old name.now Style.Literal) }
    ensures err { OnErr result (doc.new ≡ doc.old) }
{
    doc.literal(name)
}
