//! Pages for a browser and for a repository.

ghost use Rattle.std.specs.Prelude.{true, IfOk, string_bytes};
ghost use Rattle.bpaf_doc.specs.Markdown.Page.{IsMarkdownOf};
ghost use Rattle.bpaf_doc.specs.Buffer.Parts.{IsWellNested};
ghost use Rattle.bpaf_doc.specs.Html.Page.{IsHtmlPageOf, IsHtmlTextPageOf};

use bpaf_doc::buffer::Doc;
use std::alloc::{AllocError, Global};

/// A page for a browser.
pub fn web_page(alloc: Global, doc: &Doc) -> Result<String, AllocError>
    ensures html { IfOk result (λ page. IsWellNested doc.now → IsHtmlPageOf doc.now true true (string_bytes page)) }
    ensures text { IfOk result (λ page. IsHtmlTextPageOf doc.now true true (string_bytes page)) }
{
    doc.render_html(alloc, true, true)
}

/// A page for a repository.
pub fn readme(alloc: Global, doc: &Doc) -> Result<String, AllocError>
    ensures { IfOk result (λ page. IsMarkdownOf doc.now true (string_bytes page)) }
{
    doc.render_markdown(alloc, true)
}
