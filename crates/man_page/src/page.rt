//! Manual pages.

ghost use Rattle.std.specs.Prelude.{◌≡◌, ◌++◌, ◌==◌, [], true, false, Bool, codes, flat_map, map, IfOk, OnOk};
ghost use Rattle.std.specs.Prelude.{string_bytes};
ghost use Rattle.std.specs.List.{list_any};
ghost use Rattle.page_model.specs.View.{block_of, entry_of, form_of, line_of, part_of};
ghost use Rattle.man_page.specs.Exact.{block_text, body_text, bullet_text, code_line, entry_text, example_text};
ghost use Rattle.man_page.specs.Exact.{form_text};
ghost use Rattle.man_page.specs.Exact.{heading_name, heading_text, inner_text, input_line, is_blank, is_heading};
ghost use Rattle.man_page.specs.Exact.{is_spaced_text, item_text, lines_text, new_paragraph, page_text, part_text};
ghost use Rattle.man_page.specs.Exact.{parts_text, pieces_text, terms_text, title_line, title_text, wants_quotes};
ghost use Rattle.man_page.specs.Exact.{word_text};
ghost use Rattle.std.specs.List.{list_all};
ghost use Rattle.page_model.specs.Permitted.{are_permitted};
ghost use Rattle.man_page.specs.Kept.{page_kept, title_words};
ghost use Rattle.page_model.specs.Faults.{FailsOnlyBy, fault_unless};
ghost use Rattle.man_page.specs.Promises.{ReadsAs, page_fault};
ghost use Rattle.man_page.specs.Steps.{first_text, further_line, further_term, title_role, title_word};
ghost use Rattle.man_page.specs.View.{title_of};
ghost use Rattle.man_page.specs.declared.escape.Role.TheVariants as Role;

use crate::escape::Role;
use crate::lines::{Manner, is_blank, item_back, push_code, push_input, push_item, push_pieces};
use page_model::permitted::{are_permitted, are_permitted_parts};
use page_model::replaced::push_replaced;
use page_model::{Block, Entry, Form, Inline, Line, PageFault, Part, Rank};
use std::alloc::{AllocError, Allocator};

/// The words of a manual page's title line.
#[derive(Clone, Copy, Debug)]
pub struct TitleLine<'a> {
    pub name: &'a str,
    pub section: &'a str,
    pub date: &'a str,
    pub vendor: &'a str,
    pub title: &'a str,
}

// The page so far, and the line that is being put together.
#[derive(Drop)]
struct Writer<A: Allocator> {
    page: String<A>,
    line: String<A>,
}

fn push_input_line<A: Allocator>(
    writer: &mut Writer<A>,
    pieces: &[Inline<'_>],
    section: &str,
) -> Result<(), AllocError>
    ensures { OnOk result (string_bytes writer.new.page
        ≡ string_bytes writer.old.page ++ input_line (pieces_text Role.Text true section.now (line_of pieces.now))) }
{
    writer.line.clear();
    push_pieces(
        &mut writer.line,
        pieces,
        Manner {
            role: Role::Text,
            is_guarded: true,
            section,
        },
    )?;
    push_input(&mut writer.page, writer.line.as_str())
}

fn push_further_lines<A: Allocator, B: Allocator>(
    writer: &mut Writer<A>,
    lines: &[Line<'_, B>],
    section: &str,
) -> Result<(), AllocError>
    ensures { OnOk result (string_bytes writer.new.page
        ≡ string_bytes writer.old.page
        ++ flat_map (further_line section.now) (map (λ line. line_of line.items) lines.now)) }
{
    for line in lines {
        writer.page.push_str(".br\n")?;
        push_input_line(writer, line.as_slice(), section)?;
    }
    Ok(())
}

// The lines of a paragraph.
#[tactic(auto, using(crate::proofs::Parts::lines_first))]
fn push_lines<A: Allocator, B: Allocator>(
    writer: &mut Writer<A>,
    lines: &[Line<'_, B>],
    section: &str,
) -> Result<(), AllocError>
    ensures { OnOk result (string_bytes writer.new.page
        ≡ string_bytes writer.old.page ++ lines_text section.now (map (λ line. line_of line.items) lines.now)) }
{
    let Some((first, rest)) = lines.split_first() else {
        return Ok(());
    };
    push_input_line(writer, first.as_slice(), section)?;
    push_further_lines(writer, rest, section)
}

fn push_code_line<A: Allocator>(writer: &mut Writer<A>, line: &str) -> Result<(), AllocError>
    ensures { OnOk result (string_bytes writer.new.page ≡ string_bytes writer.old.page ++ code_line line.now) }
{
    writer.line.clear();
    push_replaced(&mut writer.line, line, Role::Code)?;
    push_code(&mut writer.page, writer.line.as_str())
}

fn push_code_lines<A: Allocator>(writer: &mut Writer<A>, lines: &[&str]) -> Result<(), AllocError>
    ensures { OnOk result (string_bytes writer.new.page
        ≡ string_bytes writer.old.page ++ flat_map code_line (map (λ line. line.now) lines.now)) }
{
    for line in lines {
        push_code_line(writer, line)?;
    }
    Ok(())
}

fn push_example<A: Allocator>(writer: &mut Writer<A>, lines: &[&str]) -> Result<(), AllocError>
    ensures { OnOk result (string_bytes writer.new.page
        ≡ string_bytes writer.old.page ++ example_text (map (λ line. line.now) lines.now)) }
{
    writer.page.push_str(".RS 4\n.EX\n")?;
    push_code_lines(writer, lines)?;
    writer.page.push_str(".EE\n.RE\n")
}

fn push_bullet<A: Allocator, B: Allocator>(
    writer: &mut Writer<A>,
    item: &[Line<'_, B>],
    section: &str,
) -> Result<(), AllocError>
    ensures { OnOk result (string_bytes writer.new.page
        ≡ string_bytes writer.old.page ++ bullet_text section.now (map (λ line. line_of line.items) item.now)) }
{
    writer.page.push_str(".IP \\(bu 2\n")?;
    push_lines(writer, item, section)
}

fn push_bullets<A: Allocator, B: Allocator>(
    writer: &mut Writer<A>,
    items: &[Vec<Line<'_, B>, B>],
    section: &str,
) -> Result<(), AllocError>
    ensures { OnOk result (string_bytes writer.new.page ≡ string_bytes writer.old.page
        ++ flat_map (bullet_text section.now) (map (λ item. map (λ line. line_of line.items) item.items) items.now)) }
{
    for item in items {
        push_bullet(writer, item.as_slice(), section)?;
    }
    Ok(())
}

fn new_paragraph(is_after_heading: bool) -> &'static str
    ensures { result.now ≡ new_paragraph is_after_heading }
{
    if is_after_heading { "" } else { ".PP\n" }
}

fn push_block<A: Allocator, B: Allocator>(
    writer: &mut Writer<A>,
    block: &Block<'_, B>,
    section: &str,
    is_after_heading: bool,
) -> Result<(), AllocError>
    ensures { OnOk result (string_bytes writer.new.page
        ≡ string_bytes writer.old.page ++ block_text section.now is_after_heading (block_of block.now)) }
{
    match block {
        Block::Paragraph(lines) => {
            writer.page.push_str(new_paragraph(is_after_heading))?;
            push_lines(writer, lines.as_slice(), section)
        }
        Block::Code(lines) => {
            writer.page.push_str(new_paragraph(is_after_heading))?;
            push_example(writer, lines.as_slice())
        }
        Block::List(items) => push_bullets(writer, items.as_slice(), section),
    }
}

// A block in the body of an entry, after the first one.
fn push_inner<A: Allocator, B: Allocator>(
    writer: &mut Writer<A>,
    block: &Block<'_, B>,
    section: &str,
) -> Result<(), AllocError>
    ensures { OnOk result (string_bytes writer.new.page
        ≡ string_bytes writer.old.page ++ inner_text section.now (block_of block.now)) }
{
    match block {
        Block::Paragraph(lines) => {
            writer.page.push_str(".IP\n")?;
            push_lines(writer, lines.as_slice(), section)
        }
        Block::Code(lines) => {
            writer.page.push_str(".RS\n.PP\n")?;
            push_example(writer, lines.as_slice())?;
            writer.page.push_str(".RE\n")
        }
        Block::List(items) => {
            writer.page.push_str(".RS\n")?;
            push_bullets(writer, items.as_slice(), section)?;
            writer.page.push_str(".RE\n")
        }
    }
}

fn push_inners<A: Allocator, B: Allocator>(
    writer: &mut Writer<A>,
    blocks: &[Block<'_, B>],
    section: &str,
) -> Result<(), AllocError>
    ensures { OnOk result (string_bytes writer.new.page
        ≡ string_bytes writer.old.page ++ flat_map (inner_text section.now) (map block_of blocks.now)) }
{
    for block in blocks {
        push_inner(writer, block, section)?;
    }
    Ok(())
}

fn push_first<A: Allocator, B: Allocator>(
    writer: &mut Writer<A>,
    block: &Block<'_, B>,
    section: &str,
) -> Result<(), AllocError>
    ensures { OnOk result (string_bytes writer.new.page
        ≡ string_bytes writer.old.page ++ first_text section.now (block_of block.now)) }
{
    match block {
        Block::Paragraph(lines) => push_lines(writer, lines.as_slice(), section),
        Block::Code(_) | Block::List(_) => push_inner(writer, block, section),
    }
}

#[tactic(auto, using(crate::proofs::Parts::body_first))]
fn push_body<A: Allocator, B: Allocator>(
    writer: &mut Writer<A>,
    blocks: &[Block<'_, B>],
    section: &str,
) -> Result<(), AllocError>
    ensures { OnOk result (string_bytes writer.new.page
        ≡ string_bytes writer.old.page ++ body_text section.now (map block_of blocks.now)) }
{
    let Some((first, rest)) = blocks.split_first() else {
        return Ok(());
    };
    push_first(writer, first, section)?;
    push_inners(writer, rest, section)
}

fn push_term<A: Allocator>(
    line: &mut String<A>,
    term: &[Inline<'_>],
    section: &str,
) -> Result<(), AllocError>
    ensures { OnOk result (string_bytes line.new
        ≡ string_bytes line.old ++ pieces_text Role.Text false section.now (line_of term.now)) }
{
    push_pieces(
        line,
        term,
        Manner {
            role: Role::Text,
            is_guarded: false,
            section,
        },
    )
}

fn push_further_terms<A: Allocator, B: Allocator>(
    line: &mut String<A>,
    terms: &[Line<'_, B>],
    section: &str,
) -> Result<(), AllocError>
    ensures { OnOk result (string_bytes line.new ≡ string_bytes line.old
        ++ flat_map (further_term section.now) (map (λ term. line_of term.items) terms.now)) }
{
    for term in terms {
        line.push_str(", ")?;
        push_term(line, term.as_slice(), section)?;
    }
    Ok(())
}

#[tactic(auto, using(crate::proofs::Parts::terms_first))]
fn push_terms<A: Allocator, B: Allocator>(
    line: &mut String<A>,
    terms: &[Line<'_, B>],
    section: &str,
) -> Result<(), AllocError>
    ensures { OnOk result (string_bytes line.new
        ≡ string_bytes line.old ++ terms_text section.now (map (λ term. line_of term.items) terms.now)) }
{
    let Some((first, rest)) = terms.split_first() else {
        return Ok(());
    };
    push_term(line, first.as_slice(), section)?;
    push_further_terms(line, rest, section)
}

fn push_entry<A: Allocator, B: Allocator>(
    writer: &mut Writer<A>,
    entry: &Entry<'_, B>,
    section: &str,
) -> Result<(), AllocError>
    ensures { OnOk result (string_bytes writer.new.page
        ≡ string_bytes writer.old.page ++ entry_text section.now (entry_of entry.now)) }
{
    writer.page.push_str(".TP\n")?;
    writer.line.clear();
    push_terms(&mut writer.line, entry.terms.as_slice(), section)?;
    push_input(&mut writer.page, writer.line.as_str())?;
    push_body(writer, entry.body.as_slice(), section)
}

fn push_entries<A: Allocator, B: Allocator>(
    writer: &mut Writer<A>,
    entries: &[Entry<'_, B>],
    section: &str,
) -> Result<(), AllocError>
    ensures { OnOk result (string_bytes writer.new.page
        ≡ string_bytes writer.old.page ++ flat_map (entry_text section.now) (map entry_of entries.now)) }
{
    for entry in entries {
        push_entry(writer, entry, section)?;
    }
    Ok(())
}

fn push_usage_item<A: Allocator>(
    writer: &mut Writer<A>,
    pieces: &[Inline<'_>],
    section: &str,
) -> Result<(), AllocError>
    ensures { OnOk result (string_bytes writer.new.page
        ≡ string_bytes writer.old.page ++ item_text section.now (line_of pieces.now)) }
{
    writer.line.clear();
    push_pieces(
        &mut writer.line,
        pieces,
        Manner {
            role: Role::Item,
            is_guarded: false,
            section,
        },
    )?;
    let back = item_back(pieces, section);
    push_item(&mut writer.page, writer.line.as_str(), back)
}

fn push_usage_items<A: Allocator, B: Allocator>(
    writer: &mut Writer<A>,
    items: &[Line<'_, B>],
    section: &str,
) -> Result<(), AllocError>
    ensures { OnOk result (string_bytes writer.new.page
        ≡ string_bytes writer.old.page
        ++ flat_map (item_text section.now) (map (λ item. line_of item.items) items.now)) }
{
    for item in items {
        push_usage_item(writer, item.as_slice(), section)?;
    }
    Ok(())
}

fn has_blank(word: &str) -> bool
    ensures { result ≡ list_any is_blank word.now }
{
    word.as_bytes().iter().any(|byte| is_blank(*byte))
}

#[tactic(auto, using(crate::proofs::Parts::wants_more))]
fn wants_quotes(word: &str) -> bool
    ensures { result ≡ wants_quotes word.now }
{
    word.is_empty() || has_blank(word)
}

// A word of a request.
fn push_word<A: Allocator>(page: &mut String<A>, word: &str, role: Role) -> Result<(), AllocError>
    ensures { OnOk result (string_bytes page.new ≡ string_bytes page.old ++ word_text role word.now) }
{
    if !wants_quotes(word) {
        return push_replaced(page, word, role);
    }
    page.push_str("\"")?;
    push_replaced(page, word, role)?;
    page.push_str("\"")
}

fn push_form<A: Allocator, B: Allocator>(
    writer: &mut Writer<A>,
    form: &Form<'_, B>,
    section: &str,
) -> Result<(), AllocError>
    ensures { OnOk result (string_bytes writer.new.page
        ≡ string_bytes writer.old.page ++ form_text section.now (form_of form.now)) }
{
    writer.page.push_str(".SY ")?;
    push_word(&mut writer.page, form.name, Role::Text)?;
    writer.page.push_str("\n")?;
    push_usage_items(writer, form.items.as_slice(), section)?;
    writer.page.push_str(".YS\n")
}

fn push_forms<A: Allocator, B: Allocator>(
    writer: &mut Writer<A>,
    forms: &[Form<'_, B>],
    section: &str,
) -> Result<(), AllocError>
    ensures { OnOk result (string_bytes writer.new.page
        ≡ string_bytes writer.old.page ++ flat_map (form_text section.now) (map form_of forms.now)) }
{
    for form in forms {
        push_form(writer, form, section)?;
    }
    Ok(())
}

// Whether words have one blank between two, and none at their ends.
#[tactic(auto, using(crate::proofs::Parts::spaced_next))]
fn is_spaced(title: &str) -> bool
    ensures { result ≡ is_spaced_text true title.now }
{
    let bytes = title.as_bytes();
    let mut is_after_blank = true;
    for byte in bytes {
        let is_blank_here = is_blank(*byte);
        if is_blank_here && is_after_blank {
            return false;
        }
        is_after_blank = is_blank_here;
    }
    !is_after_blank
}

fn role_of_title(title: &str) -> Role
    ensures { result ≡ title_role title.now }
{
    if is_spaced(title) {
        Role::Text
    } else {
        Role::Item
    }
}

fn heading_name(rank: Rank) -> &'static str
    ensures { result.now ≡ heading_name rank }
{
    match rank {
        Rank::Page | Rank::Section => ".SH ",
        Rank::Subsection => ".SS ",
    }
}

#[tactic(auto, using(crate::proofs::Parts::title_by_role, crate::proofs::Parts::no_title))]
fn push_title<A: Allocator>(page: &mut String<A>, title: &str) -> Result<(), AllocError>
    ensures { OnOk result (string_bytes page.new ≡ string_bytes page.old ++ title_text title.now) }
{
    if title.is_empty() {
        return page.push_str("\\&");
    }
    push_replaced(page, title, role_of_title(title))
}

fn push_heading<A: Allocator>(
    page: &mut String<A>,
    rank: Rank,
    title: &str,
) -> Result<(), AllocError>
    ensures { OnOk result (string_bytes page.new ≡ string_bytes page.old ++ heading_text rank title.now) }
{
    page.push_str(heading_name(rank))?;
    push_title(page, title)?;
    page.push_str("\n")
}

fn push_title_word<A: Allocator>(page: &mut String<A>, word: &str) -> Result<(), AllocError>
    ensures { OnOk result (string_bytes page.new ≡ string_bytes page.old ++ title_word word.now) }
{
    page.push_str(" ")?;
    push_word(page, word, Role::Title)
}

#[tactic(auto, using(crate::proofs::Parts::title_line_words))]
fn push_title_line<A: Allocator>(
    page: &mut String<A>,
    title: &TitleLine<'_>,
) -> Result<(), AllocError>
    ensures { OnOk result (string_bytes page.new ≡ string_bytes page.old ++ title_line (title_of title.now)) }
{
    page.push_str(".TH")?;
    push_title_word(page, title.name)?;
    push_title_word(page, title.section)?;
    push_title_word(page, title.date)?;
    push_title_word(page, title.vendor)?;
    push_title_word(page, title.title)?;
    page.push_str("\n")
}

fn push_part<A: Allocator, B: Allocator>(
    writer: &mut Writer<A>,
    part: &Part<'_, B>,
    section: &str,
    is_after_heading: bool,
) -> Result<(), AllocError>
    ensures { OnOk result (string_bytes writer.new.page
        ≡ string_bytes writer.old.page ++ part_text section.now is_after_heading (part_of part.now)) }
{
    match part {
        Part::Heading(rank, title) => push_heading(&mut writer.page, *rank, title),
        Part::Usage(forms) => push_forms(writer, forms.as_slice(), section),
        Part::Block(block) => push_block(writer, block, section, is_after_heading),
        Part::Entries(entries) => push_entries(writer, entries.as_slice(), section),
    }
}

fn is_heading<B: Allocator>(part: &Part<'_, B>) -> bool
    ensures { result ≡ is_heading (part_of part.now) }
{
    matches!(part, Part::Heading(_, _))
}

fn push_page_parts<A: Allocator, B: Allocator>(
    writer: &mut Writer<A>,
    parts: &[Part<'_, B>],
    section: &str,
) -> Result<(), AllocError>
    ensures { OnOk result (string_bytes writer.new.page
        ≡ string_bytes writer.old.page ++ parts_text section.now false (map part_of parts.now)) }
{
    let mut is_after_heading = false;
    for part in parts {
        push_part(writer, part, section, is_after_heading)?;
        is_after_heading = is_heading(part);
    }
    Ok(())
}

fn is_permitted_title(title: &TitleLine<'_>) -> bool
    ensures { result ≡ list_all are_permitted (title_words (title_of title.now)) }
{
    are_permitted(title.name)
        && are_permitted(title.section)
        && are_permitted(title.date)
        && are_permitted(title.vendor)
        && are_permitted(title.title)
}

fn are_permitted_texts<B: Allocator>(title: &TitleLine<'_>, parts: &[Part<'_, B>]) -> bool
    ensures { page_fault (title_of title.now) (map part_of parts.now) ≡ fault_unless result }
{
    is_permitted_title(title) && are_permitted_parts(parts)
}

fn write_page<A: Allocator + Copy, B: Allocator>(
    alloc: A,
    title: &TitleLine<'_>,
    parts: &[Part<'_, B>],
) -> Result<String<A>, AllocError>
    ensures { IfOk result (λ text. string_bytes text ≡ page_text (title_of title.now) (map part_of parts.now)) }
{
    let mut writer = Writer {
        page: String::new(alloc),
        line: String::new(alloc),
    };
    push_title_line(&mut writer.page, title)?;
    push_page_parts(&mut writer, parts, title.section)?;
    Ok(writer.page)
}

/// The manual page that says these parts in order, after a title line of these words. A reader of man(7) reads it,
/// whole, as what was said, except what a manual page has no form for.
///
/// `Character` comes where a text or a word of the title line has a control character other than newline and tab, or a
/// noncharacter; else an error comes only where an allocation failed.
pub fn manual_page<A: Allocator + Copy, B: Allocator>(
    alloc: A,
    title: &TitleLine<'_>,
    parts: &[Part<'_, B>],
) -> Result<String<A>, PageFault>
    ensures reads { IfOk result (λ text.
        ReadsAs (string_bytes text) (page_kept (title_of title.now) (map part_of parts.now))) }
    ensures exact { IfOk result (λ text. string_bytes text ≡ page_text (title_of title.now) (map part_of parts.now)) }
    ensures fails { FailsOnlyBy (page_fault (title_of title.now) (map part_of parts.now)) result }
{
    if !are_permitted_texts(title, parts) {
        return Err(PageFault::Character);
    }
    Ok(write_page(alloc, title, parts)?)
}
