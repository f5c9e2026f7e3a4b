//! Titles and texts around the lists of a page.
ghost use Rattle.std.specs.Prelude.{◌≡◌, ◌∷◌, [], OnOk};
ghost use Rattle.bpaf_doc.specs.Buffer.Writes.{inside, plain, with_writes};
ghost use Rattle.bpaf_items.specs.Page.HelpPage.{doc_within};

use bpaf_doc::buffer::{Block, Doc, Style, Token};
use std::alloc::{AllocError, Allocator};

/// Writes a title of a part of a page.
pub fn put_title<A: Allocator>(doc: &mut Doc<A>, title: &str) -> Result<(), AllocError>
    ensures { OnOk result (doc.new ≡ with_writes doc.old (inside Block.Header (plain title.now ∷ []))) }
{
    doc.token(Token::BlockStart(Block::Header))?;
    doc.write_str(title, Style::Text)?;
    doc.token(Token::BlockEnd(Block::Header))
}

/// Writes a title in a block of its own.
pub fn put_title_block<A: Allocator>(doc: &mut Doc<A>, title: &str) -> Result<(), AllocError>
    ensures { OnOk result (doc.new
        ≡ with_writes doc.old (inside Block.Block (inside Block.Header (plain title.now ∷ [])))) }
{
    doc.token(Token::BlockStart(Block::Block))?;
    put_title(doc, title)?;
    doc.token(Token::BlockEnd(Block::Block))
}

/// Writes a text in a block of its own, if there is one.
pub fn put_within<A: Allocator, B: Allocator>(
    doc: &mut Doc<A>,
    text: &Option<Doc<B>>,
) -> Result<(), AllocError>
    ensures { OnOk result (doc.new ≡ with_writes doc.old (doc_within Block.Block text.now)) }
{
    let Some(text) = text else {
        return Ok(());
    };
    doc.token(Token::BlockStart(Block::Block))?;
    doc.doc(text)?;
    doc.token(Token::BlockEnd(Block::Block))
}
