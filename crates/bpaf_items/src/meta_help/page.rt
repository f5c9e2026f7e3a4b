//! The entries of a list under their groups and headings, and the help page.
ghost use Rattle.std.specs.Prelude.{◌≡◌, All, None, IfOk, OnOk, OnErr, map, string_bytes};
ghost use Rattle.bpaf_doc.specs.Buffer.Parts.{IsWellNested};
ghost use Rattle.bpaf_doc.specs.Buffer.Writes.{inside, with_writes};
ghost use Rattle.bpaf_meta.specs.View.{head_of, tree_of};
ghost use Rattle.bpaf_items.specs.Listing.Groups.{HasPairedGroups};
ghost use Rattle.bpaf_items.specs.Page.EnvTexts.{texts_in};
ghost use Rattle.bpaf_items.specs.Page.HelpPage.{doc_within, groups_writes, help_page_writes, usage_line_writes};
ghost use Rattle.bpaf_items.specs.Page.NestedTexts.{HasNestedEntry, HasNestedHead, HasNestedTexts};
ghost use Rattle.bpaf_items.specs.Page.PageAnswers.{IsHelpPageAnswer};
ghost use Rattle.bpaf_items.specs.Page.Steps.Pages.{front_writes};
ghost use Rattle.bpaf_items.specs.Page.Steps.Pieces.{Leaves};
ghost use Rattle.bpaf_items.specs.View.{answer_of, entry_of};

use crate::meta_help::entry::HelpItem;
use crate::meta_help::env_texts::EnvTexts;
use crate::meta_help::error::HelpError;
use crate::meta_help::list::HelpItems;
use crate::meta_help::pieces::{Piece, put_inside, put_words};
use crate::meta_help::writes::Writer;
use bpaf_doc::buffer::{Block, Doc, Style};
use bpaf_meta::meta::Meta;
use bpaf_meta::meta_help::Info;
use bpaf_meta::usage::write_meta;
use std::alloc::{AllocError, Allocator};

/// Writes the groups of the list in order, and then what is outside them under the headings of positional items,
/// options and commands. Each group and each heading shows a key once, at its first place. If `include_env` is true,
/// names of environment variables are shown with their texts in `texts`, otherwise alone. Working memory comes from the
/// list's allocator. After `AllocError` the document is as it was.
pub fn write_help_item_groups<A: Allocator, B: Allocator + Copy, L: Allocator + Copy, C: Allocator>(
    doc: &mut Doc<A>,
    items: HelpItems<'_, B, L>,
    include_env: bool,
    texts: &EnvTexts<C>,
) -> Result<(), AllocError>
    ensures ok { OnOk result (doc.new ≡ with_writes doc.old
        (groups_writes include_env (texts_in texts.now) (map entry_of items.entry))) }
    ensures err { OnErr result (doc.new ≡ doc.old) }
    ensures nested { All HasNestedEntry (map entry_of items.entry) → IsWellNested doc.old → IsWellNested doc.new }
{
    let writer = Writer {
        include_env,
        texts,
        alloc: items.allocator(),
    };
    writer.put_or_undo(doc, items.items())
}

impl<'t, C: Allocator, L: Allocator + Copy> Writer<'t, C, L> {
    fn put_or_undo<'a, A: Allocator, B: Allocator + Copy>(
        &self,
        doc: &mut Doc<A>,
        entries: &[HelpItem<'a, B>],
    ) -> Result<(), AllocError>
        requires { HasPairedGroups (map entry_of entries.now) }
        ensures ok { OnOk result (doc.new ≡ with_writes doc.old
            (groups_writes self.now.include_env (texts_in self.now.texts.now) (map entry_of entries.now))) }
        ensures err { OnErr result (doc.new ≡ doc.old) }
    {
        let before = doc.checkpoint();
        let written = self.put_all(doc, entries);
        doc.settle(before, written)
    }

    fn put_page<A: Allocator, P: Allocator, B: Allocator + Copy>(
        &self,
        doc: &mut Doc<A>,
        path: &[String<P>],
        info: &Info<B>,
        parser: &Meta<B>,
        help: &Meta<B>,
    ) -> Result<(), AllocError>
        ensures { Leaves result doc.old doc.new (help_page_writes (map string_bytes path.now) (head_of info.now)
            (tree_of parser.now) (tree_of help.now) self.now.include_env (texts_in self.now.texts.now)) }
    {
        let items = HelpItems::of(self.alloc, parser, help)?;
        put_front(doc, path, info, parser)?;
        self.put_all(doc, items.items())?;
        put_within(doc, &info.footer)
    }
}

/// Appends the help page of a command line to the document: its texts, its usage line with the path to it, and the
/// items of `parser` and then of `help` under their groups and headings. Whether items are misplaced is not checked.
/// Working memory comes from `alloc`. After `AllocError` the document is as it was.
pub fn write_help<
    A: Allocator,
    L: Allocator + Copy,
    P: Allocator,
    B: Allocator + Copy,
    C: Allocator,
>(
    doc: &mut Doc<A>,
    alloc: L,
    path: &[String<P>],
    info: &Info<B>,
    parser: &Meta<B>,
    help: &Meta<B>,
    include_env: bool,
    texts: &EnvTexts<C>,
) -> Result<(), AllocError>
    ensures ok { OnOk result (doc.new ≡ with_writes doc.old (help_page_writes (map string_bytes path.now)
        (head_of info.now) (tree_of parser.now) (tree_of help.now) include_env (texts_in texts.now))) }
    ensures err { OnErr result (doc.new ≡ doc.old) }
    ensures nested { HasNestedHead (head_of info.now) → HasNestedTexts (tree_of parser.now)
        → HasNestedTexts (tree_of help.now) → IsWellNested doc.old → IsWellNested doc.new }
{
    let writer = Writer {
        include_env,
        texts,
        alloc,
    };
    let before = doc.checkpoint();
    let written = writer.put_page(doc, path, info, parser, help);
    doc.settle(before, written)
}

/// The help page of a command line as a document of its own, as `write_help` writes it. `Misplaced` has the first named
/// item of `parser` that stands after a positional one; it comes before memory is asked for. `Memory` says that an
/// allocation failed.
pub fn render_help<'m, A: Allocator + Copy, P: Allocator, B: Allocator + Copy, C: Allocator>(
    alloc: A,
    path: &[String<P>],
    info: &Info<B>,
    parser: &'m Meta<B>,
    help: &Meta<B>,
    include_env: bool,
    texts: &EnvTexts<C>,
) -> Result<Doc<A>, HelpError<'m, B>>
    ensures answer { IsHelpPageAnswer (map string_bytes path.now) (head_of info.now) (tree_of parser.now)
        (tree_of help.now) include_env (texts_in texts.now) (answer_of result) }
    ensures nested { IfOk result (λ page. HasNestedHead (head_of info.now) → HasNestedTexts (tree_of parser.now)
        → HasNestedTexts (tree_of help.now) → IsWellNested page) }
{
    if let Err(item) = parser.positional_invariant_check() {
        return Err(HelpError::Misplaced(item));
    }
    let mut page = Doc::new(alloc);
    match write_help(
        &mut page,
        alloc,
        path,
        info,
        parser,
        help,
        include_env,
        texts,
    ) {
        Ok(()) => Ok(page),
        Err(refused) => Err(HelpError::Memory(refused)),
    }
}

// What is above the list: the description, the usage line and the header.
fn put_front<A: Allocator, P: Allocator, B: Allocator + Copy>(
    doc: &mut Doc<A>,
    path: &[String<P>],
    info: &Info<B>,
    parser: &Meta<B>,
) -> Result<(), AllocError>
    ensures { Leaves result doc.old doc.new
        (front_writes (map string_bytes path.now) (head_of info.now) (tree_of parser.now)) }
{
    put_within(doc, &info.descr)?;
    put_usage(doc, path, &info.usage, parser)?;
    put_within(doc, &info.header)
}

fn put_within<A: Allocator, B: Allocator + Copy>(
    doc: &mut Doc<A>,
    text: &Option<Doc<B>>,
) -> Result<(), AllocError>
    ensures { Leaves result doc.old doc.new (doc_within Block.Block text.now) }
{
    match text {
        None => Ok(()),
        Some(text) => put_inside(doc, Block::Block, &[Piece::Document(text)]),
    }
}

fn put_usage<A: Allocator, P: Allocator, B: Allocator + Copy>(
    doc: &mut Doc<A>,
    path: &[String<P>],
    usage: &Option<Doc<B>>,
    parser: &Meta<B>,
) -> Result<(), AllocError>
    ensures { Leaves result doc.old doc.new
        (inside Block.Block (usage_line_writes (map string_bytes path.now) usage.now (tree_of parser.now))) }
{
    put_words(doc, &[Piece::Start(Block::Block)])?;
    put_usage_text(doc, path, usage, parser)?;
    put_words(doc, &[Piece::End(Block::Block)])
}

fn put_usage_text<A: Allocator, P: Allocator, B: Allocator + Copy>(
    doc: &mut Doc<A>,
    path: &[String<P>],
    usage: &Option<Doc<B>>,
    parser: &Meta<B>,
) -> Result<(), AllocError>
    ensures { Leaves result doc.old doc.new
        (usage_line_writes (map string_bytes path.now) usage.now (tree_of parser.now)) }
{
    match usage {
        None => put_usage_line(doc, path, parser),
        Some(usage) => doc.doc(usage),
    }
}

fn put_usage_line<A: Allocator, P: Allocator, B: Allocator + Copy>(
    doc: &mut Doc<A>,
    path: &[String<P>],
    parser: &Meta<B>,
) -> Result<(), AllocError>
    ensures { Leaves result doc.old doc.new (usage_line_writes (map string_bytes path.now) None (tree_of parser.now)) }
{
    put_words(
        doc,
        &[
            Piece::Text("Usage", Style::Emphasis),
            Piece::Text(": ", Style::Text),
            Piece::Start(Block::Mono),
        ],
    )?;
    doc.write_path(path)?;
    write_meta(doc, parser, true)?;
    put_words(doc, &[Piece::End(Block::Mono)])
}
