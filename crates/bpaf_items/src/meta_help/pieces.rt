//! Small parts that pages are made of.
ghost use Rattle.std.specs.Prelude.{[], ◌∷◌};
ghost use Rattle.bpaf_doc.specs.Buffer.Writes.{inside, text};
ghost use Rattle.bpaf_meta.specs.Content.{both};
ghost use Rattle.bpaf_meta.specs.View.{name_of};
ghost use Rattle.bpaf_items.specs.Page.EntryWrites.{names_writes};
ghost use Rattle.bpaf_items.specs.Page.Steps.Pieces.{Leaves, joined, piece_writes, pieces_write};

use bpaf_doc::buffer::{Block, Doc, Style, Token};
use bpaf_meta::item::ShortLong;
use bpaf_meta::meta::Meta;
use bpaf_meta::meta_help::Metavar;
use bpaf_meta::usage::{metavar, write_meta, write_shortlong};
use std::alloc::{AllocError, Allocator, Global};

/// One part of what is written.
#[derive_where(Clone, Copy)]
pub enum Piece<'a, A: Allocator> {
    Start(Block),
    End(Block),
    Text(&'a str, Style),
    /// A character in literal style.
    Character(char),
    /// Texts that are written as one.
    Joined(&'a [&'a str], Style),
    /// The names of a flag or an argument. A lone long name is indented by four blanks, so that it stands below those
    /// after a short one.
    Names(ShortLong),
    /// The name of a value.
    Value(Metavar),
    Document(&'a Doc<A>),
    /// A document whose first text is a title.
    Title(&'a Doc<A>),
    /// The usage line of a tree.
    Usage(&'a Meta<A>),
}

// What these functions wrote stays where an allocation fails: the public calls that use them take it back.

/// Writes the pieces in order.
pub fn put<A: Allocator, B: Allocator + Copy>(
    doc: &mut Doc<A>,
    pieces: &[Piece<'_, B>],
) -> Result<(), AllocError>
    ensures { Leaves result doc.old doc.new (pieces_write pieces.now) }
{
    for piece in pieces {
        put_piece(doc, piece)?;
    }
    Ok(())
}

/// Writes pieces that borrow no document and no tree.
pub fn put_words<A: Allocator>(
    doc: &mut Doc<A>,
    pieces: &[Piece<'_, Global>],
) -> Result<(), AllocError>
    ensures { Leaves result doc.old doc.new (pieces_write pieces.now) }
{
    put(doc, pieces)
}

/// Writes the pieces between the marks of a block.
pub fn put_inside<A: Allocator, B: Allocator + Copy>(
    doc: &mut Doc<A>,
    block: Block,
    pieces: &[Piece<'_, B>],
) -> Result<(), AllocError>
    ensures { Leaves result doc.old doc.new (inside block (pieces_write pieces.now)) }
{
    put_words(doc, &[Piece::Start(block)])?;
    put(doc, pieces)?;
    put_words(doc, &[Piece::End(block)])
}

fn put_piece<A: Allocator, B: Allocator + Copy>(
    doc: &mut Doc<A>,
    piece: &Piece<'_, B>,
) -> Result<(), AllocError>
    ensures { Leaves result doc.old doc.new (piece_writes piece.now) }
{
    match *piece {
        Piece::Start(block) => doc.token(Token::BlockStart(block)),
        Piece::End(block) => doc.token(Token::BlockEnd(block)),
        Piece::Text(text, style) => doc.write_str(text, style),
        Piece::Character(character) => doc.write_char(character, Style::Literal),
        Piece::Joined(texts, style) => put_joined(doc, texts, style),
        Piece::Names(name) => put_names(doc, name),
        Piece::Value(name) => metavar(doc, name),
        Piece::Document(other) => doc.doc(other),
        Piece::Title(other) => doc.em_doc(other),
        Piece::Usage(tree) => write_meta(doc, tree, true),
    }
}

// The texts become one, since a text joins the one before it.
fn put_joined<A: Allocator>(
    doc: &mut Doc<A>,
    texts: &[&str],
    style: Style,
) -> Result<(), AllocError>
    ensures { Leaves result doc.old doc.new (text (joined texts.now) style ∷ []) }
{
    doc.write_str("", style)?;
    for text in texts {
        doc.write_str(text, style)?;
    }
    Ok(())
}

fn put_names<A: Allocator>(doc: &mut Doc<A>, name: ShortLong) -> Result<(), AllocError>
    ensures { Leaves result doc.old doc.new (names_writes (name_of name)) }
{
    match name {
        ShortLong::Short(_) => write_shortlong(doc, &name),
        ShortLong::Long(long) => put_joined(doc, &["    --", long], Style::Literal),
        ShortLong::Both(short, long) => put_both(doc, short, long),
    }
}

fn put_both<A: Allocator>(
    doc: &mut Doc<A>,
    short: char,
    long: &'static str,
) -> Result<(), AllocError>
    ensures { Leaves result doc.old doc.new (names_writes (both short long.now)) }
{
    write_shortlong(doc, &ShortLong::Short(short))?;
    doc.text(", ")?;
    write_shortlong(doc, &ShortLong::Long(long))
}
