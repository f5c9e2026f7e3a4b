//! Pages in markdown.

ghost use Rattle.std.specs.Prelude.{◌≡◌, ◌++◌, ◌&&◌, codes, flat_map, map, IfOk, OnOk, string_bytes};
ghost use Rattle.std.specs.List.{list_all};
ghost use Rattle.page_model.specs.Permitted.{are_permitted, is_permitted_part};
ghost use Rattle.page_model.specs.View.{form_of, line_of, part_of};
ghost use Rattle.markdown_page.specs.Exact.{code_text, longest_of, page_text, part_text, rank_text, title_text};
ghost use Rattle.markdown_page.specs.Kept.{form_bytes, item_bytes, line_bytes, page_kept};
ghost use Rattle.page_model.specs.Faults.{FailsOnlyBy, fault_unless};
ghost use Rattle.markdown_page.specs.Promises.{ReadsAs, page_fault};
ghost use Rattle.markdown_page.specs.Steps.{form_line};

use crate::block::{Writer, begin_line, push_block, push_code_line, push_fence};
use crate::entry::{push_entries, text_of};
use crate::escape::push_escaped;
use crate::line::{LineText, push_framed};
use crate::span::longest_run;
use page_model::permitted::{are_permitted, are_permitted_parts};
use page_model::{Form, Inline, Line, PageFault, Part, Rank};
use std::alloc::{AllocError, Allocator};

fn push_item_texts<A: Allocator>(
    line: &mut String<A>,
    pieces: &[Inline<'_>],
) -> Result<(), AllocError>
    ensures { OnOk result (string_bytes line.new ≡ string_bytes line.old ++ line_bytes (line_of pieces.now)) }
{
    for piece in pieces {
        line.push_str(text_of(*piece))?;
    }
    Ok(())
}

fn push_form_items<A: Allocator, B: Allocator>(
    line: &mut String<A>,
    items: &[Line<'_, B>],
) -> Result<(), AllocError>
    ensures { OnOk result (string_bytes line.new ≡ string_bytes line.old
        ++ flat_map item_bytes (map (λ item. line_of item.items) items.now)) }
{
    for item in items {
        line.push_str(" ")?;
        push_item_texts(line, item.as_slice())?;
    }
    Ok(())
}

// Puts a form of a usage together.
fn gather_form<A: Allocator, B: Allocator>(
    line: &mut String<A>,
    form: &Form<'_, B>,
) -> Result<(), AllocError>
    ensures { OnOk result (string_bytes line.new ≡ form_bytes (form_of form.now)) }
{
    line.clear();
    line.push_str(form.name)?;
    push_form_items(line, form.items.as_slice())
}

// One less than the backquotes of the fence of a usage.
#[tactic(auto, using(crate::proofs::Loops::longest_init))]
fn longest_of_forms<A: Allocator, B: Allocator>(
    line: &mut String<A>,
    forms: &[Form<'_, B>],
) -> Result<usize, AllocError>
    ensures { IfOk result (λ longest. longest ≡ longest_of (map form_bytes (map form_of forms.now))) }
{
    let mut longest = 2;
    for form in forms {
        gather_form(line, form)?;
        longest = longest.max(longest_run(line.as_str()));
    }
    Ok(longest)
}

fn push_form<A: Allocator, B: Allocator>(
    writer: &mut Writer<A>,
    form: &Form<'_, B>,
) -> Result<(), AllocError>
    ensures { OnOk result (string_bytes writer.new.page
        ≡ string_bytes writer.old.page ++ form_line (form_of form.now)) }
{
    gather_form(&mut writer.line.text, form)?;
    push_code_line(&mut writer.page, writer.line.text.as_str(), 0)
}

fn push_forms<A: Allocator, B: Allocator>(
    writer: &mut Writer<A>,
    forms: &[Form<'_, B>],
) -> Result<(), AllocError>
    ensures { OnOk result (string_bytes writer.new.page
        ≡ string_bytes writer.old.page ++ flat_map form_line (map form_of forms.now)) }
{
    for form in forms {
        push_form(writer, form)?;
    }
    Ok(())
}

#[tactic(auto, using(crate::proofs::Parts::form_lines))]
fn push_usage<A: Allocator, B: Allocator>(
    writer: &mut Writer<A>,
    forms: &[Form<'_, B>],
) -> Result<(), AllocError>
    ensures { OnOk result (string_bytes writer.new.page
        ≡ string_bytes writer.old.page ++ code_text 0 (map form_bytes (map form_of forms.now))) }
{
    let more = longest_of_forms(&mut writer.line.text, forms)?;
    writer.page.push_str("\n")?;
    push_fence(&mut writer.page, 0, more)?;
    push_forms(writer, forms)?;
    push_fence(&mut writer.page, 0, more)
}

fn push_title<A: Allocator>(writer: &mut Writer<A>, title: &str) -> Result<(), AllocError>
    ensures { OnOk result (string_bytes writer.new.page ≡ string_bytes writer.old.page ++ title_text title.now) }
{
    begin_line(&mut writer.line);
    push_escaped(&mut writer.line.text, title, true)?;
    push_framed(&mut writer.page, writer.line.text.as_str())
}

fn rank_text(rank: Rank) -> &'static str
    ensures { result.now ≡ rank_text rank }
{
    match rank {
        Rank::Page => "\n# ",
        Rank::Section => "\n## ",
        Rank::Subsection => "\n### ",
    }
}

fn push_heading<A: Allocator>(
    writer: &mut Writer<A>,
    rank: Rank,
    title: &str,
) -> Result<(), AllocError>
    ensures { OnOk result (string_bytes writer.new.page
        ≡ string_bytes writer.old.page ++ (rank_text rank ++ (title_text title.now ++ codes "\n"))) }
{
    writer.page.push_str(rank_text(rank))?;
    push_title(writer, title)?;
    writer.page.push_str("\n")
}

fn push_part<A: Allocator + Copy, B: Allocator>(
    alloc: A,
    writer: &mut Writer<A>,
    part: &Part<'_, B>,
) -> Result<(), AllocError>
    ensures { OnOk result (string_bytes writer.new.page
        ≡ string_bytes writer.old.page ++ part_text (part_of part.now)) }
{
    match part {
        Part::Heading(rank, title) => push_heading(writer, *rank, title),
        Part::Usage(forms) => push_usage(writer, forms.as_slice()),
        Part::Block(block) => push_block(writer, block, 0),
        Part::Entries(entries) => push_entries(alloc, writer, entries.as_slice()),
    }
}

fn push_parts<A: Allocator + Copy, B: Allocator>(
    alloc: A,
    writer: &mut Writer<A>,
    parts: &[Part<'_, B>],
) -> Result<(), AllocError>
    ensures { OnOk result (string_bytes writer.new.page
        ≡ string_bytes writer.old.page ++ flat_map part_text (map part_of parts.now)) }
{
    for part in parts {
        push_part(alloc, writer, part)?;
    }
    Ok(())
}

fn are_permitted_texts<B: Allocator>(title: &str, parts: &[Part<'_, B>]) -> bool
    ensures { page_fault title.now (map part_of parts.now) ≡ fault_unless result }
{
    are_permitted(title) && are_permitted_parts(parts)
}

fn write_page<A: Allocator + Copy, B: Allocator>(
    alloc: A,
    title: &str,
    parts: &[Part<'_, B>],
) -> Result<String<A>, AllocError>
    ensures { IfOk result (λ text. string_bytes text ≡ page_text title.now (map part_of parts.now)) }
{
    let line = LineText {
        text: String::new(alloc),
        span: String::new(alloc),
        runs: Vec::new(alloc),
    };
    let mut writer = Writer {
        page: String::new(alloc),
        line,
    };
    writer.page.push_str("# ")?;
    push_title(&mut writer, title)?;
    writer.page.push_str("\n")?;
    push_parts(alloc, &mut writer, parts)?;
    Ok(writer.page)
}

/// The page in markdown that says these parts in order, under this title. A reader of CommonMark reads it, whole, as
/// what was said, except what markdown has no form for.
///
/// `Character` comes where the title or a text has a control character other than newline and tab, or a noncharacter;
/// else an error comes only where an allocation failed.
pub fn markdown_page<A: Allocator + Copy, B: Allocator>(
    alloc: A,
    title: &str,
    parts: &[Part<'_, B>],
) -> Result<String<A>, PageFault>
    ensures reads { IfOk result (λ text.
        ReadsAs (string_bytes text) (page_kept title.now (map part_of parts.now))) }
    ensures exact { IfOk result (λ text. string_bytes text ≡ page_text title.now (map part_of parts.now)) }
    ensures fails { FailsOnlyBy (page_fault title.now (map part_of parts.now)) result }
{
    if !are_permitted_texts(title, parts) {
        return Err(PageFault::Character);
    }
    Ok(write_page(alloc, title, parts)?)
}
