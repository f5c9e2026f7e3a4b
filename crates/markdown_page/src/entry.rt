//! Entries of a list: the terms, and what is said of them.

ghost use Rattle.std.specs.Prelude.{◌≡◌, ◌++◌, [], ◌||◌, flat_map, map, option_map, OnOk, string_bytes};
ghost use Rattle.page_model.specs.View.{block_of, entry_of, line_of, piece_of, target_of};
ghost use Rattle.markdown_page.specs.Bytes.{holds_definition};
ghost use Rattle.markdown_page.specs.Exact.{body_text, entry_text, first_span, further_span, lines_text, term_span};
ghost use Rattle.markdown_page.specs.Exact.{terms_text};
ghost use Rattle.markdown_page.specs.Kept.{line_bytes, piece_bytes, shown_byte, target_address};
ghost use Rattle.markdown_page.specs.Steps.{first_block, first_text, is_nothing, shown_span};

use crate::block::{Writer, begin_line, push_block, push_blocks, push_lines};
use crate::line::{LineText, push_line, push_open_span, push_pieces};
use crate::link::push_target;
use crate::replace::Place;
use page_model::replaced::push_replaced;
use page_model::{Block, Entry, Inline, Line, Target};
use std::alloc::{AllocError, Allocator};

/// The text of a piece.
pub fn text_of<'a>(piece: Inline<'a>) -> &'a str
    ensures { result.now ≡ piece_bytes (piece_of piece.entry) }
{
    match piece {
        Inline::Words(text)
        | Inline::Literal(text)
        | Inline::Value(text)
        | Inline::Link(text)
        | Inline::Page(text) => text,
    }
}

// Puts the text of a line into the span that is open.
fn push_span_text<A: Allocator>(
    span: &mut String<A>,
    pieces: &[Inline<'_>],
) -> Result<(), AllocError>
    ensures { OnOk result (string_bytes span.new
        ≡ string_bytes span.old ++ map shown_byte (line_bytes (line_of pieces.now))) }
{
    for piece in pieces {
        push_replaced(span, text_of(*piece), Place::Span)?;
    }
    Ok(())
}

// Writes a term where no span is open.
fn push_term<A: Allocator>(line: &mut LineText<A>, term: &[Inline<'_>]) -> Result<(), AllocError>
    requires { string_bytes line.old.span ≡ [] }
    ensures written { OnOk result (string_bytes line.new.text
        ≡ string_bytes line.old.text ++ term_span (line_of term.now)) }
    ensures left { OnOk result (string_bytes line.new.span ≡ []) }
{
    push_span_text(&mut line.span, term)?;
    push_open_span(line)
}

// Whether a text might define a link where it follows a bracket.
#[tactic(auto, using(crate::proofs::Loops::defines_is, crate::proofs::Loops::defines_next))]
fn holds_definition(text: &[u8]) -> bool
    ensures { result ≡ holds_definition text.now }
{
    let mut is_after_bracket = false;
    for byte in text {
        if is_after_bracket && *byte == b':' {
            return true;
        }
        is_after_bracket = *byte == b']';
    }
    false
}

fn is_unlinked(text: &str) -> bool
    ensures { result ≡ (is_nothing text.now || holds_definition text.now) }
{
    text.is_empty() || holds_definition(text.as_bytes())
}

// Writes the span that is open as a link that leads there.
fn push_leading<A: Allocator + Copy>(
    alloc: A,
    line: &mut LineText<A>,
    target: Target<'_>,
) -> Result<(), AllocError>
    ensures written { OnOk result (string_bytes line.new.text ≡ string_bytes line.old.text
        ++ shown_span (target_address (target_of target.entry)) (string_bytes line.old.span)) }
    ensures left { OnOk result (string_bytes line.new.span ≡ []) }
{
    if is_unlinked(line.span.as_str()) {
        return push_open_span(line);
    }
    line.text.push_str("[")?;
    push_open_span(line)?;
    push_target(alloc, &mut line.text, target)
}

#[tactic(auto, using(crate::proofs::Parts::leading_is))]
fn push_first_term<A: Allocator + Copy>(
    alloc: A,
    line: &mut LineText<A>,
    target: Option<Target<'_>>,
    term: &[Inline<'_>],
) -> Result<(), AllocError>
    requires { string_bytes line.old.span ≡ [] }
    ensures written { OnOk result (string_bytes line.new.text ≡ string_bytes line.old.text
        ++ first_span (option_map target_of target.entry) (line_of term.now)) }
    ensures left { OnOk result (string_bytes line.new.span ≡ []) }
{
    push_span_text(&mut line.span, term)?;
    match target {
        Some(target) => push_leading(alloc, line, target),
        None => push_open_span(line),
    }
}

fn push_further_terms<A: Allocator, B: Allocator>(
    line: &mut LineText<A>,
    terms: &[Line<'_, B>],
) -> Result<(), AllocError>
    requires { string_bytes line.old.span ≡ [] }
    ensures written { OnOk result (string_bytes line.new.text ≡ string_bytes line.old.text
        ++ flat_map further_span (map (λ term. line_of term.items) terms.now)) }
    ensures left { OnOk result (string_bytes line.new.span ≡ []) }
{
    for term in terms {
        line.text.push_str(", ")?;
        push_term(line, term.as_slice())?;
    }
    Ok(())
}

fn push_terms<A: Allocator + Copy, B: Allocator>(
    alloc: A,
    line: &mut LineText<A>,
    target: Option<Target<'_>>,
    terms: &[Line<'_, B>],
) -> Result<(), AllocError>
    requires { string_bytes line.old.span ≡ [] }
    ensures written { OnOk result (string_bytes line.new.text ≡ string_bytes line.old.text
        ++ terms_text (option_map target_of target.entry) (map (λ term. line_of term.items) terms.now)) }
    ensures left { OnOk result (string_bytes line.new.span ≡ []) }
{
    let Some((first, rest)) = terms.split_first() else {
        return Ok(());
    };
    push_first_term(alloc, line, target, first.as_slice())?;
    push_further_terms(line, rest)
}

// Writes the terms that are put together, alone.
fn push_alone<A: Allocator>(writer: &mut Writer<A>) -> Result<(), AllocError>
    ensures { OnOk result (string_bytes writer.new.page
        ≡ string_bytes writer.old.page ++ lines_text 1 (string_bytes writer.old.line.text) []) }
{
    push_line(&mut writer.page, writer.line.text.as_str())?;
    writer.page.push_str("\n")
}

// Writes them with the first paragraph after them.
fn push_with_terms<A: Allocator, B: Allocator>(
    writer: &mut Writer<A>,
    lines: &[Line<'_, B>],
) -> Result<(), AllocError>
    requires { string_bytes writer.old.line.span ≡ [] }
    ensures { OnOk result (string_bytes writer.new.page ≡ string_bytes writer.old.page
        ++ first_text (string_bytes writer.old.line.text) (map (λ line. line_of line.items) lines.now)) }
{
    let Some((first, rest)) = lines.split_first() else {
        return push_alone(writer);
    };
    writer.line.text.push_str(" — ")?;
    push_pieces(&mut writer.line, first.as_slice())?;
    push_lines(writer, rest, 1)
}

// Writes them with the first block.
fn push_first_block<A: Allocator, B: Allocator>(
    writer: &mut Writer<A>,
    block: &Block<'_, B>,
) -> Result<(), AllocError>
    requires { string_bytes writer.old.line.span ≡ [] }
    ensures { OnOk result (string_bytes writer.new.page
        ≡ string_bytes writer.old.page ++ first_block (string_bytes writer.old.line.text) (block_of block.now)) }
{
    match block {
        Block::Paragraph(lines) => push_with_terms(writer, lines.as_slice()),
        Block::Code(_) | Block::List(_) => {
            push_alone(writer)?;
            push_block(writer, block, 1)
        }
    }
}

#[tactic(auto, using(crate::proofs::Parts::body_first))]
fn push_body<A: Allocator, B: Allocator>(
    writer: &mut Writer<A>,
    body: &[Block<'_, B>],
) -> Result<(), AllocError>
    requires { string_bytes writer.old.line.span ≡ [] }
    ensures { OnOk result (string_bytes writer.new.page
        ≡ string_bytes writer.old.page ++ body_text (string_bytes writer.old.line.text) (map block_of body.now)) }
{
    let Some((first, rest)) = body.split_first() else {
        return push_alone(writer);
    };
    push_first_block(writer, first)?;
    push_blocks(writer, rest)
}

fn push_entry<A: Allocator + Copy, B: Allocator>(
    alloc: A,
    writer: &mut Writer<A>,
    entry: &Entry<'_, B>,
) -> Result<(), AllocError>
    ensures { OnOk result (string_bytes writer.new.page
        ≡ string_bytes writer.old.page ++ entry_text (entry_of entry.now)) }
{
    writer.page.push_str("\n- ")?;
    begin_line(&mut writer.line);
    push_terms(
        alloc,
        &mut writer.line,
        entry.target,
        entry.terms.as_slice(),
    )?;
    push_body(writer, entry.body.as_slice())
}

/// Writes the entries of a list.
pub fn push_entries<A: Allocator + Copy, B: Allocator>(
    alloc: A,
    writer: &mut Writer<A>,
    entries: &[Entry<'_, B>],
) -> Result<(), AllocError>
    ensures { OnOk result (string_bytes writer.new.page
        ≡ string_bytes writer.old.page ++ flat_map entry_text (map entry_of entries.now)) }
{
    for entry in entries {
        push_entry(alloc, writer, entry)?;
    }
    Ok(())
}
