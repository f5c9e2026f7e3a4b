//! The help pages of an application and of its commands as one document, as HTML and as markdown.
ghost use Rattle.std.specs.Prelude.{◌≡◌, ◌∷◌, [], true, false, IfOk, string_bytes};
ghost use Rattle.bpaf_doc.specs.Buffer.Parts.{IsWellNested};
ghost use Rattle.bpaf_doc.specs.Html.Page.{IsHtmlPageOf, IsHtmlTextPageOf};
ghost use Rattle.bpaf_doc.specs.Html.Exact.{html_page};
ghost use Rattle.bpaf_doc.specs.Markdown.Page.{IsMarkdownOf};
ghost use Rattle.bpaf_doc.specs.Markdown.Exact.{markdown_page};
ghost use Rattle.bpaf_meta.specs.View.{head_of, tree_of};
ghost use Rattle.bpaf_help.specs.Chapters.{chapters_of};
ghost use Rattle.bpaf_help.specs.NestedPages.{HasNestedPages};
ghost use Rattle.bpaf_help.specs.PageAnswers.{IsCollected, collected_document};

use crate::pages::collected_writes::{put_pages, put_summary};
use crate::pages::sections::sections_of;
use bpaf_doc::buffer::Doc;
use bpaf_items::meta_help::{HelpError, Info};
use bpaf_meta::meta::Meta;
use std::alloc::Allocator;

/// The help pages of an application and of all its commands, each under its path. Where there are commands, a summary
/// above them has a line for each page. `Misplaced` has the first named item that stands after a positional one, on the
/// first page that has such an item. `Memory` says that an allocation failed; it may come before a page is checked. The
/// rules are those of `docs/pages.md`.
pub fn collect_html<'m, A: Allocator + Copy, B: Allocator + Copy>(
    alloc: A,
    app: &str,
    meta: &'m Meta<B>,
    info: &'m Info<B>,
) -> Result<Doc<A>, HelpError<'m, B>>
    ensures collected { IsCollected (chapters_of (app.now ∷ []) (head_of info.now) (tree_of meta.now)) result }
    ensures document { IfOk result (λ document. document
        ≡ collected_document app.now (tree_of meta.now) (head_of info.now)) }
    ensures nested { IfOk result (λ document. HasNestedPages app.now (head_of info.now) (tree_of meta.now)
        → IsWellNested document) }
{
    let sections = sections_of(alloc, app, meta, info)?;
    let mut document = Doc::new(alloc);
    put_summary(alloc, &mut document, &sections)?;
    put_pages(alloc, &mut document, &sections)?;
    Ok(document)
}

/// The HTML of the document that `collect_html` makes, in full and without a style sheet. The errors are those of
/// `collect_html`; `Memory` may also come while the text is made.
pub fn render_html<'m, A: Allocator + Copy, B: Allocator + Copy>(
    alloc: A,
    app: &str,
    meta: &'m Meta<B>,
    info: &'m Info<B>,
) -> Result<String<A>, HelpError<'m, B>>
    ensures collected { IsCollected (chapters_of (app.now ∷ []) (head_of info.now) (tree_of meta.now)) result }
    ensures html { IfOk result (λ text.
        IsWellNested (collected_document app.now (tree_of meta.now) (head_of info.now))
        → IsHtmlPageOf (collected_document app.now (tree_of meta.now) (head_of info.now)) true false
        (string_bytes text)) }
    ensures text { IfOk result (λ text.
        IsHtmlTextPageOf (collected_document app.now (tree_of meta.now) (head_of info.now)) true false
        (string_bytes text)) }
    ensures exact { IfOk result (λ text. string_bytes text
        ≡ html_page true false (collected_document app.now (tree_of meta.now) (head_of info.now))) }
{
    let document = collect_html(alloc, app, meta, info)?;
    Ok(document.render_html(alloc, true, false)?)
}

/// The markdown of the document that `collect_html` makes, in full. The errors are those of `collect_html`;
/// `Memory` may also come while the text is made.
pub fn render_markdown<'m, A: Allocator + Copy, B: Allocator + Copy>(
    alloc: A,
    app: &str,
    meta: &'m Meta<B>,
    info: &'m Info<B>,
) -> Result<String<A>, HelpError<'m, B>>
    ensures collected { IsCollected (chapters_of (app.now ∷ []) (head_of info.now) (tree_of meta.now)) result }
    ensures laws { IfOk result (λ text.
        IsMarkdownOf (collected_document app.now (tree_of meta.now) (head_of info.now)) true (string_bytes text)) }
    ensures exact { IfOk result (λ text. string_bytes text
        ≡ markdown_page true (collected_document app.now (tree_of meta.now) (head_of info.now))) }
{
    let document = collect_html(alloc, app, meta, info)?;
    Ok(document.render_markdown(alloc, true)?)
}
