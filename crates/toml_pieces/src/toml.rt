//! Keys, tables and comments of TOML.
ghost use Rattle.std.specs.Prelude.{◌≡◌, ◌<◌, ◌++◌, ◌∷◌, [], MatchOption, OnOk, codes, flat_map, map, string_bytes};
ghost use Rattle.std.specs.List.{list_all, slice_index_or};
ghost use Rattle.toml_pieces.specs.Toml as toml;
ghost use Rattle.toml_pieces.specs.View.{piece_said, text_of};

use page_model::replaced::{StandIns, push_replaced};
use std::alloc::{AllocError, Allocator};

/// How quotation marks are written.
#[derive(Clone, Copy)]
pub enum Quoting {
    Escaped,
    Plain,
}

impl Quoting {
    fn mark(self) -> Option<&'static str>
        ensures { MatchOption result (toml.quote_mark self ≡ 34 ∷ []) (λ text. toml.quote_mark self ≡ text.now) }
    {
        match self {
            Quoting::Escaped => Some("\\\""),
            Quoting::Plain => None,
        }
    }
}

impl StandIns for Quoting {
    ghost replaced = { toml.replaced };

    fn stand_in(self, byte: u8) -> Option<&'static str> {
        match byte {
            b'\\' => Some("\\\\"),
            b'"' => self.mark(),
            _ => None,
        }
    }
}

/// How a piece of a text follows the one before it: on a line of its own, after a blank, as a line of code, or on a new
/// line of the page.
#[derive(Clone, Copy)]
pub enum Lead {
    Line,
    Joined,
    Code,
    Broken,
}

/// A piece of a text.
#[derive(Clone, Copy)]
pub struct Piece<'a> {
    pub lead: Lead,
    pub text: &'a str,
}

impl Lead {
    fn text(self) -> &'static str
        ensures { result.now ≡ toml.lead_text self }
    {
        match self {
            Lead::Line => "\n",
            Lead::Joined => " ",
            Lead::Code => "\n    ",
            Lead::Broken => "\n ",
        }
    }

    fn is_line(self) -> bool
        ensures { result ≡ toml.is_line self }
    {
        matches!(self, Lead::Line)
    }

    fn is_joined(self) -> bool
        ensures { result ≡ toml.is_joined self }
    {
        matches!(self, Lead::Joined)
    }
}

// The first byte, or a quotation mark if there are no bytes.
fn first_or_quote(bytes: &[u8]) -> u8
    ensures { result ≡ slice_index_or bytes.now 0 34 }
{
    match bytes {
        [] => b'"',
        [byte, ..] => *byte,
    }
}

// Whether no quotation mark stands at the end or before another.
fn is_tame(text: &[u8]) -> bool
    ensures { result ≡ toml.is_tame text.now }
{
    let mut rest = text;
    while let [first, more @ ..] = rest {
        if *first == b'"' && first_or_quote(more) == b'"' {
            return false;
        }
        rest = more;
    }
    true
}

fn quoting_of(text: &str) -> Quoting
    ensures { result ≡ toml.quoting_of text.now }
{
    if is_tame(text.as_bytes()) {
        Quoting::Plain
    } else {
        Quoting::Escaped
    }
}

/// Writes a text on one line, as it stands between quotation marks.
pub fn push_escaped<A: Allocator>(out: &mut String<A>, text: &str) -> Result<(), AllocError>
    ensures { OnOk result (string_bytes out.new ≡ string_bytes out.old ++ toml.escaped text.now) }
{
    push_replaced(out, text, Quoting::Escaped)
}

/// Writes a key with a text on one line.
pub fn push_word<A: Allocator>(out: &mut String<A>, key: &str, text: &str) -> Result<(), AllocError>
    ensures { OnOk result (string_bytes out.new ≡ string_bytes out.old ++ toml.word_at key.now text.now) }
{
    out.push_str(key)?;
    out.push_str(" = \"")?;
    push_escaped(out, text)?;
    out.push_str("\"\n")
}

/// Writes a key with a text on one line, if there is a text.
pub fn push_optional<A: Allocator>(
    out: &mut String<A>,
    key: &str,
    text: Option<&str>,
) -> Result<(), AllocError>
    ensures { OnOk result (string_bytes out.new
        ≡ string_bytes out.old ++ toml.optional_at key.now (text_of text.entry)) }
{
    match text {
        None => Ok(()),
        Some(text) => push_word(out, key, text),
    }
}

fn push_joined_pieces<A: Allocator>(
    out: &mut String<A>,
    pieces: &[Piece<'_>],
) -> Result<(), AllocError>
    ensures { OnOk result (string_bytes out.new
        ≡ string_bytes out.old ++ flat_map toml.joined_piece (map piece_said pieces.now)) }
{
    for piece in pieces {
        out.push_str(" ")?;
        push_escaped(out, piece.text)?;
    }
    Ok(())
}

fn push_one_text<A: Allocator>(out: &mut String<A>, pieces: &[Piece<'_>]) -> Result<(), AllocError>
    ensures { OnOk result (string_bytes out.new
        ≡ string_bytes out.old ++ toml.one_text (map piece_said pieces.now)) }
{
    match pieces {
        [] => Ok(()),
        [first, others @ ..] => {
            push_escaped(out, first.text)?;
            push_joined_pieces(out, others)
        }
    }
}

fn push_line_piece<A: Allocator>(out: &mut String<A>, piece: Piece<'_>) -> Result<(), AllocError>
    ensures { OnOk result (string_bytes out.new
        ≡ string_bytes out.old ++ toml.line_piece (piece_said piece.entry)) }
{
    out.push_str(piece.lead.text())?;
    push_replaced(out, piece.text, quoting_of(piece.text))
}

fn push_many_text<A: Allocator>(out: &mut String<A>, pieces: &[Piece<'_>]) -> Result<(), AllocError>
    ensures { OnOk result (string_bytes out.new
        ≡ string_bytes out.old ++ toml.many_text (map piece_said pieces.now)) }
{
    for piece in pieces {
        push_line_piece(out, *piece)?;
    }
    Ok(())
}

fn are_joined(pieces: &[Piece<'_>]) -> bool
    ensures { result ≡ list_all (λ q. toml.is_joined q.lead) (map piece_said pieces.now) }
{
    for piece in pieces {
        if !piece.lead.is_joined() {
            return false;
        }
    }
    true
}

// Whether a text stands on one line.
fn is_one(pieces: &[Piece<'_>]) -> bool
    ensures { result ≡ toml.is_one (map piece_said pieces.now) }
{
    match pieces {
        [] => true,
        [first, others @ ..] => first.lead.is_line() && are_joined(others),
    }
}

fn push_one<A: Allocator>(
    out: &mut String<A>,
    key: &str,
    pieces: &[Piece<'_>],
) -> Result<(), AllocError>
    ensures { OnOk result (string_bytes out.new
        ≡ string_bytes out.old ++ toml.one_at key.now (map piece_said pieces.now)) }
{
    out.push_str(key)?;
    out.push_str(" = \"")?;
    push_one_text(out, pieces)?;
    out.push_str("\"\n")
}

fn push_many<A: Allocator>(
    out: &mut String<A>,
    key: &str,
    pieces: &[Piece<'_>],
) -> Result<(), AllocError>
    ensures { OnOk result (string_bytes out.new
        ≡ string_bytes out.old ++ toml.many_at key.now (map piece_said pieces.now)) }
{
    out.push_str(key)?;
    out.push_str(" = \"\"\"")?;
    push_many_text(out, pieces)?;
    out.push_str("\"\"\"\n")
}

/// Writes a key with a text of any number of lines, unless the text is empty.
pub fn push_text<A: Allocator>(
    out: &mut String<A>,
    key: &str,
    pieces: &[Piece<'_>],
) -> Result<(), AllocError>
    ensures { OnOk result (string_bytes out.new
        ≡ string_bytes out.old ++ toml.text_at key.now (map piece_said pieces.now)) }
{
    if pieces.is_empty() {
        Ok(())
    } else if is_one(pieces) {
        push_one(out, key, pieces)
    } else {
        push_many(out, key, pieces)
    }
}

fn push_further_items<A: Allocator>(out: &mut String<A>, texts: &[&str]) -> Result<(), AllocError>
    ensures { OnOk result (string_bytes out.new
        ≡ string_bytes out.old ++ flat_map toml.further_item (map (λ t. t.now) texts.now)) }
{
    for text in texts {
        out.push_str("\", \"")?;
        push_escaped(out, text)?;
    }
    Ok(())
}

fn push_items<A: Allocator>(
    out: &mut String<A>,
    first: &str,
    others: &[&str],
) -> Result<(), AllocError>
    ensures { OnOk result (string_bytes out.new
        ≡ string_bytes out.old ++ toml.items_text first.now (map (λ t. t.now) others.now)) }
{
    push_escaped(out, first)?;
    push_further_items(out, others)
}

fn push_filled_list<A: Allocator>(
    out: &mut String<A>,
    key: &str,
    first: &str,
    others: &[&str],
) -> Result<(), AllocError>
    ensures { OnOk result (string_bytes out.new
        ≡ string_bytes out.old ++ toml.filled_list key.now first.now (map (λ t. t.now) others.now)) }
{
    out.push_str(key)?;
    out.push_str(" = [\"")?;
    push_items(out, first, others)?;
    out.push_str("\"]\n")
}

/// Writes a key with an array of texts, unless the array is empty.
pub fn push_list<A: Allocator>(
    out: &mut String<A>,
    key: &str,
    texts: &[&str],
) -> Result<(), AllocError>
    ensures { OnOk result (string_bytes out.new
        ≡ string_bytes out.old ++ toml.list_at key.now (map (λ t. t.now) texts.now)) }
{
    match texts {
        [] => Ok(()),
        [first, others @ ..] => push_filled_list(out, key, first, others),
    }
}

/// Writes the head of a table.
pub fn push_table<A: Allocator>(out: &mut String<A>, name: &str) -> Result<(), AllocError>
    ensures { OnOk result (string_bytes out.new ≡ string_bytes out.old ++ toml.table name.now) }
{
    out.push_str("\n[[")?;
    out.push_str(name)?;
    out.push_str("]]\n")
}

/// Writes a line as a comment.
pub fn push_left_out<A: Allocator>(out: &mut String<A>, line: &str) -> Result<(), AllocError>
    ensures { OnOk result (string_bytes out.new ≡ string_bytes out.old ++ toml.left_out line.now) }
{
    out.push_str("# left out: ")?;
    out.push_str(line)?;
    out.push_str("\n")
}
