//! Pages on a console.

ghost use Rattle.std.specs.Prelude.{◌≡◌, ◌≤◌, ◌&&◌, ◌++◌, [], false, codes, map, IfOk, OnOk, string_bytes};
ghost use Rattle.std.specs.List.{list_all};
ghost use Rattle.page_model.specs.Permitted.{are_permitted, is_permitted_form, is_permitted_part};
ghost use Rattle.page_model.specs.View.{form_of, part_of};
ghost use Rattle.console_page.specs.Page.{forms_text, help_column, is_heading, margin_after, page_text, part_text};
ghost use Rattle.console_page.specs.Page.{parts_text, widest_in, word_text};
ghost use Rattle.page_model.specs.Faults.{FailsOnlyBy, fault_unless};
ghost use Rattle.console_page.specs.Promises.{page_fault, usage_fault};

use crate::blocks::push_block;
use crate::entries::{push_entries, widest_of};
use crate::lines::{parting, push_prefixed};
use crate::texts::Role;
use crate::usage::push_usage;
use page_model::permitted::{are_permitted, are_permitted_forms, are_permitted_parts};
use page_model::replaced::push_replaced;
use page_model::{Form, PageFault, Part};
use std::alloc::{AllocError, Allocator};

// The columns of a page and of what is said of entries, and what stands before a usage.
#[derive(Clone, Copy)]
struct Sheet<'a> {
    width: usize,
    column: usize,
    word: &'a str,
}

fn widest_in<A: Allocator + Copy, B: Allocator>(
    alloc: A,
    widest: usize,
    part: &Part<'_, B>,
) -> Result<usize, AllocError>
    requires { widest ≤ 24 }
    ensures value { IfOk result (λ found. found ≡ widest_in widest (part_of part.now)) }
    ensures bound { IfOk result (λ found. found ≤ 24) }
{
    match part {
        Part::Entries(entries) => widest_of(alloc, widest, entries.as_slice()),
        Part::Heading(_, _) | Part::Usage(_) | Part::Block(_) => Ok(widest),
    }
}

fn help_column<A: Allocator + Copy, B: Allocator>(
    alloc: A,
    parts: &[Part<'_, B>],
) -> Result<usize, AllocError>
    ensures { IfOk result (λ column. column ≡ help_column (map part_of parts.now)) }
{
    let mut widest = 0;
    for part in parts {
        widest = widest_in(alloc, widest, part)?;
    }
    Ok(widest + 6)
}

fn push_part<A: Allocator + Copy, B: Allocator>(
    out: &mut String<A>,
    alloc: A,
    sheet: Sheet<'_>,
    margin: &str,
    part: &Part<'_, B>,
) -> Result<(), AllocError>
    ensures { OnOk result (string_bytes out.new ≡ string_bytes out.old
        ++ part_text sheet.entry.width sheet.entry.column sheet.entry.word.now margin.now (part_of part.now)) }
{
    let width = sheet.width.saturating_sub(margin.len());
    let mut text = String::new(alloc);
    match part {
        Part::Heading(_, title) => {
            push_replaced(out, title, Role::Text)?;
            out.push_str(":\n")
        }
        Part::Usage(forms) => {
            push_usage(&mut text, alloc, width, sheet.word, forms.as_slice())?;
            push_prefixed(out, text.as_str(), margin, margin)
        }
        Part::Block(block) => {
            push_block(&mut text, alloc, block, width)?;
            push_prefixed(out, text.as_str(), margin, margin)
        }
        Part::Entries(entries) => {
            push_entries(out, alloc, sheet.width, sheet.column, entries.as_slice())
        }
    }
}

fn is_heading<B: Allocator>(part: &Part<'_, B>) -> bool
    ensures { result ≡ is_heading (part_of part.now) }
{
    matches!(part, Part::Heading(_, _))
}

fn margin_after<'a, B: Allocator>(margin: &'a str, part: &Part<'_, B>) -> &'a str
    ensures { result.now ≡ margin_after margin.now (part_of part.now) }
{
    match part {
        Part::Heading(_, _) => "    ",
        Part::Usage(_) | Part::Block(_) | Part::Entries(_) => margin,
    }
}

fn push_parts<A: Allocator + Copy, B: Allocator>(
    out: &mut String<A>,
    alloc: A,
    sheet: Sheet<'_>,
    parts: &[Part<'_, B>],
) -> Result<(), AllocError>
    ensures { OnOk result (string_bytes out.new ≡ string_bytes out.old
        ++ parts_text sheet.entry.width sheet.entry.column sheet.entry.word.now [] false (map part_of parts.now)) }
{
    let mut margin = "";
    let mut is_parted = false;
    for part in parts {
        out.push_str(parting(is_parted))?;
        push_part(out, alloc, sheet, margin, part)?;
        margin = margin_after(margin, part);
        is_parted = !is_heading(part);
    }
    Ok(())
}

fn push_word<A: Allocator>(out: &mut String<A>, word: &str) -> Result<(), AllocError>
    ensures { OnOk result (string_bytes out.new ≡ string_bytes out.old ++ word_text word.now) }
{
    push_replaced(out, word, Role::Text)?;
    out.push_str(": ")
}

fn write_page<A: Allocator + Copy, B: Allocator>(
    alloc: A,
    width: usize,
    usage_word: &str,
    parts: &[Part<'_, B>],
) -> Result<String<A>, AllocError>
    ensures { IfOk result (λ text. string_bytes text ≡ page_text width usage_word.now (map part_of parts.now)) }
{
    let mut word = String::new(alloc);
    push_word(&mut word, usage_word)?;
    let column = help_column(alloc, parts)?;
    let sheet = Sheet {
        width,
        column,
        word: word.as_str(),
    };
    let mut page = String::new(alloc);
    push_parts(&mut page, alloc, sheet, parts)?;
    Ok(page)
}

fn are_permitted_texts<B: Allocator>(usage_word: &str, parts: &[Part<'_, B>]) -> bool
    ensures { page_fault usage_word.now (map part_of parts.now) ≡ fault_unless result }
{
    are_permitted(usage_word) && are_permitted_parts(parts)
}

/// The page that says these parts in order, as lines of that many columns. A word and a colon stand before a usage.
///
/// Each line of a paragraph is laid out by itself, by `bpaf_doc`, and prefixes are put before the result: `page_text`
/// says each byte.
///
/// `Character` comes where a text or the word has a control character other than newline and tab, or a noncharacter;
/// else an error comes only where an allocation failed.
pub fn console_page<A: Allocator + Copy, B: Allocator>(
    alloc: A,
    width: usize,
    usage_word: &str,
    parts: &[Part<'_, B>],
) -> Result<String<A>, PageFault>
    ensures exact { IfOk result (λ text. string_bytes text
        ≡ page_text width usage_word.now (map part_of parts.now)) }
    ensures fails { FailsOnlyBy (page_fault usage_word.now (map part_of parts.now)) result }
{
    if !are_permitted_texts(usage_word, parts) {
        return Err(PageFault::Character);
    }
    Ok(write_page(alloc, width, usage_word, parts)?)
}

fn write_usage<A: Allocator + Copy, B: Allocator>(
    alloc: A,
    width: usize,
    forms: &[Form<'_, B>],
) -> Result<String<A>, AllocError>
    ensures { IfOk result (λ text. string_bytes text ≡ forms_text width (map form_of forms.now)) }
{
    let mut text = String::new(alloc);
    push_usage(&mut text, alloc, width, "", forms)?;
    Ok(text)
}

fn are_permitted_usages<B: Allocator>(forms: &[Form<'_, B>]) -> bool
    ensures { usage_fault (map form_of forms.now) ≡ fault_unless result }
{
    are_permitted_forms(forms)
}

/// The forms of a usage alone, as lines of that many columns.
///
/// `Character` comes where a text has a control character other than newline and tab, or a noncharacter; else an error
/// comes only where an allocation failed.
pub fn console_usage<A: Allocator + Copy, B: Allocator>(
    alloc: A,
    width: usize,
    forms: &[Form<'_, B>],
) -> Result<String<A>, PageFault>
    ensures exact { IfOk result (λ text. string_bytes text ≡ forms_text width (map form_of forms.now)) }
    ensures fails { FailsOnlyBy (usage_fault (map form_of forms.now)) result }
{
    if !are_permitted_usages(forms) {
        return Err(PageFault::Character);
    }
    Ok(write_usage(alloc, width, forms)?)
}
