//! A page with one paragraph, that reads back as such.

ghost use Rattle.std.specs.Prelude.{[], IfOk, codes, string_bytes};
ghost use Rattle.web_page.specs.Reader.{Draft, with_start};
ghost use Rattle.web_page.specs.Models.{ReadsAs};
ghost use Rattle.web_page.specs.Calls.{new_page, whole_page, with_end, with_text};

use std::alloc::Global;
use web_page::{Element, Page, PageError, Tag};

/// A page with one paragraph. It reads back with just this text in it, whatever the text is.
pub fn note(alloc: Global, title: &str, line: &str) -> Result<String, PageError>
    ensures { IfOk result (λ text.
        let main : Draft = with_start (new_page (codes "en") title.now []) (Tag.Of Element.Main) [] in
        let written : Draft = with_text (with_start main (Tag.Of Element.P) []) line.now in
        ReadsAs (string_bytes text) (whole_page (with_end (with_end written)))) }
{
    let mut page = Page::new(alloc, "en", title, "")?;
    page.start(Element::Main)?;
    page.start(Element::P)?;
    page.text(line)?;
    page.end()?;
    page.end()?;
    page.finish()
}
