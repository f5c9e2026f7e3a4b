//! A document and an application, shown in every form at once.

ghost use Rattle.std.specs.Prelude.{IfOk};
ghost use Rattle.bpaf_help.specs.Headline.{IsHeadline};

use crate::pages::ManualTitle;
use bpaf_doc::buffer::Doc;
use bpaf_items::meta_help::Info;
use bpaf_meta::meta::Meta;
use bpaf_roff::roff::Roff;
use std::alloc::{AllocError, Allocator, Global};

/// What is shown.
#[derive(Drop)]
pub struct Sources<'a, D: Allocator = Global, M: Allocator = Global> {
    /// A document, and the columns of its console page.
    pub document: &'a Doc<D>,
    pub width: usize,
    /// An application by its name, the rest of its manual page's title line, its tree and its info.
    pub app: &'a str,
    pub title: ManualTitle<'a>,
    pub tree: &'a Meta<M>,
    pub info: &'a Info<M>,
    /// Whether the normal form of the tree is for a usage line.
    pub for_usage: bool,
}

/// The forms in which they are shown: the document in full for a console, as HTML without a style sheet and as roff,
/// the application as a manual page, and its tree in normal form.
#[derive(Drop)]
#[derive_where(Debug)]
pub struct Headline<A: Allocator = Global, P: Allocator = Global, M: Allocator = Global> {
    pub console: String<A>,
    pub html: String<A>,
    pub roff: String<P>,
    pub manual: String<A>,
    pub normal: Meta<M>,
}

/// Shows the document and the application in each form. The roff of the document follows what `page` holds.
/// `IsHeadline` has a field for each clause of the five calls that make the forms.
///
/// An `AllocError` says that an allocation failed; then `page` is dropped.
pub fn show<A: Allocator + Copy, P: Allocator + Copy, D: Allocator, M: Allocator + Copy>(
    alloc: A,
    page: Roff<P>,
    of: &Sources<'_, D, M>,
) -> Result<Headline<A, P, M>, AllocError>
    ensures { IfOk result (λ made. IsHeadline of.now page made) }
{
    Ok(Headline {
        console: of.document.render_console(alloc, true, of.width)?,
        html: of.document.render_html(alloc, true, false)?,
        roff: of.document.render_roff(page)?,
        manual: of.title.page(alloc, of.app, of.tree, of.info)?,
        normal: of.tree.normalized(of.for_usage)?,
    })
}
