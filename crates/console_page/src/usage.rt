//! A usage: forms, each its name and items, as many as fit a line.

ghost use Rattle.std.specs.Prelude.{◌≡◌, ◌++◌, ◌-◌, ◌==◌, flat_map, length, map, IfOk, OnOk, string_bytes};
ghost use Rattle.page_model.specs.View.{form_of, line_of};
ghost use Rattle.console_page.specs.Lines.{blanks};
ghost use Rattle.console_page.specs.Texts.{line_text};
ghost use Rattle.console_page.specs.Usage.{all_fit, breaks, fits, form_margin, form_text, hanging, item_front};
ghost use Rattle.console_page.specs.Usage.{items_text, kept, left_after_item, part_pieces, pieces, usage_text};
ghost use Rattle.std.specs.List.{slice_split};
ghost use Rattle.console_page.specs.Steps.{left_after};

use crate::cuts::push_cut;
use crate::lines::{columns_of, push_blanks};
use crate::texts::{Role, push_line};
use page_model::replaced::push_replaced;
use page_model::{Form, Inline, Line};
use std::alloc::{AllocError, Allocator};

// What stands before each line except the first, and how many columns these have for items.
#[derive(Clone, Copy)]
struct Hang<'a> {
    margin: &'a str,
    room: usize,
}

fn breaks(room: usize, left: usize, item: &str) -> bool
    ensures { result ≡ breaks room left item.now }
{
    left <= columns_of(item) && left < room
}

fn left_after_item(room: usize, left: usize, item: &str) -> usize
    ensures { result ≡ left_after_item room left item.now }
{
    let before = if breaks(room, left, item) {
        room
    } else {
        left.saturating_sub(1)
    };
    before.saturating_sub(columns_of(item))
}

fn push_item_front<A: Allocator>(
    out: &mut String<A>,
    left: usize,
    item: &str,
    hang: Hang<'_>,
) -> Result<(), AllocError>
    ensures { OnOk result (string_bytes out.new ≡ string_bytes out.old
        ++ item_front hang.entry.room hang.entry.margin.now left item.now) }
{
    if !breaks(hang.room, left, item) {
        return out.push_str(" ");
    }
    out.push_str("\n")?;
    out.push_str(hang.margin)
}

// Writes what is not broken, in a line that has that many columns left, and returns how many it has then.
fn push_kept<A: Allocator>(
    out: &mut String<A>,
    left: usize,
    item: &str,
    hang: Hang<'_>,
) -> Result<usize, AllocError>
    ensures text { OnOk result (string_bytes out.new ≡ string_bytes out.old
        ++ items_text hang.entry.room hang.entry.margin.now left (kept item.now)) }
    ensures left { IfOk result (λ more. more ≡ left_after hang.entry.room left (kept item.now)) }
{
    if item.is_empty() {
        return Ok(left);
    }
    push_item_front(out, left, item, hang)?;
    out.push_str(item)?;
    Ok(left_after_item(hang.room, left, item))
}

fn push_words<A: Allocator>(
    out: &mut String<A>,
    first_left: usize,
    part: &str,
    hang: Hang<'_>,
) -> Result<usize, AllocError>
    ensures text { OnOk result (string_bytes out.new ≡ string_bytes out.old
        ++ items_text hang.entry.room hang.entry.margin.now first_left
        (flat_map kept (slice_split (λ b. b == 32) part.now))) }
    ensures left { IfOk result (λ more. more
        ≡ left_after hang.entry.room first_left (flat_map kept (slice_split (λ b. b == 32) part.now))) }
{
    let mut left = first_left;
    let mut rest = part;
    while let Some((word, after)) = rest.split_once(' ') {
        left = push_kept(out, left, word, hang)?;
        rest = after;
    }
    push_kept(out, left, rest, hang)
}

fn push_part<A: Allocator>(
    out: &mut String<A>,
    left: usize,
    part: &str,
    hang: Hang<'_>,
) -> Result<usize, AllocError>
    ensures text { OnOk result (string_bytes out.new ≡ string_bytes out.old
        ++ items_text hang.entry.room hang.entry.margin.now left (part_pieces hang.entry.room part.now)) }
    ensures left { IfOk result (λ more. more
        ≡ left_after hang.entry.room left (part_pieces hang.entry.room part.now)) }
{
    let whole = part.trim();
    if columns_of(whole) <= hang.room {
        push_kept(out, left, whole, hang)
    } else {
        push_words(out, left, whole, hang)
    }
}

// The lines of a text, each a part of an item.
fn push_parts<A: Allocator>(
    out: &mut String<A>,
    first_left: usize,
    text: &str,
    hang: Hang<'_>,
) -> Result<usize, AllocError>
    ensures text { OnOk result (string_bytes out.new ≡ string_bytes out.old
        ++ items_text hang.entry.room hang.entry.margin.now first_left
        (flat_map (part_pieces hang.entry.room) (slice_split (λ b. b == 10) text.now))) }
    ensures left { IfOk result (λ more. more ≡ left_after hang.entry.room first_left
        (flat_map (part_pieces hang.entry.room) (slice_split (λ b. b == 10) text.now))) }
{
    let mut left = first_left;
    let mut rest = text;
    while let Some((part, after)) = rest.split_once('\n') {
        left = push_part(out, left, part, hang)?;
        rest = after;
    }
    push_part(out, left, rest, hang)
}

fn push_item<A: Allocator + Copy>(
    out: &mut String<A>,
    alloc: A,
    left: usize,
    item: &str,
    hang: Hang<'_>,
) -> Result<usize, AllocError>
    ensures text { OnOk result (string_bytes out.new ≡ string_bytes out.old
        ++ items_text hang.entry.room hang.entry.margin.now left (pieces hang.entry.room item.now)) }
    ensures left { IfOk result (λ more. more
        ≡ left_after hang.entry.room left (pieces hang.entry.room item.now)) }
{
    if columns_of(item) <= hang.room {
        return push_kept(out, left, item, hang);
    }
    let mut text = String::new(alloc);
    push_cut(&mut text, item)?;
    push_parts(out, left, text.as_str(), hang)
}

fn push_line_item<A: Allocator + Copy>(
    out: &mut String<A>,
    alloc: A,
    left: usize,
    item: &[Inline<'_>],
    hang: Hang<'_>,
) -> Result<usize, AllocError>
    ensures text { OnOk result (string_bytes out.new ≡ string_bytes out.old
        ++ items_text hang.entry.room hang.entry.margin.now left
        (pieces hang.entry.room (line_text (line_of item.now)))) }
    ensures left { IfOk result (λ more. more
        ≡ left_after hang.entry.room left (pieces hang.entry.room (line_text (line_of item.now)))) }
{
    let mut text = String::new(alloc);
    push_line(&mut text, item)?;
    push_item(out, alloc, left, text.as_str(), hang)
}

fn push_items<A: Allocator + Copy, B: Allocator>(
    out: &mut String<A>,
    alloc: A,
    first_left: usize,
    items: &[Line<'_, B>],
    hang: Hang<'_>,
) -> Result<(), AllocError>
    ensures { OnOk result (string_bytes out.new ≡ string_bytes out.old
        ++ items_text hang.entry.room hang.entry.margin.now first_left
        (flat_map (pieces hang.entry.room) (map line_text (map (λ item. line_of item.items) items.now)))) }
{
    let mut left = first_left;
    for item in items {
        left = push_line_item(out, alloc, left, item.as_slice(), hang)?;
    }
    Ok(())
}

fn fits<A: Allocator + Copy>(alloc: A, item: &[Inline<'_>], room: usize) -> Result<bool, AllocError>
    ensures { IfOk result (λ does. does ≡ fits room (line_text (line_of item.now))) }
{
    let mut text = String::new(alloc);
    push_line(&mut text, item)?;
    Ok(columns_of(text.as_str()) <= room)
}

fn all_fit<A: Allocator + Copy, B: Allocator>(
    alloc: A,
    items: &[Line<'_, B>],
    room: usize,
) -> Result<bool, AllocError>
    ensures { IfOk result (λ fit. fit
        ≡ all_fit room (map line_text (map (λ item. line_of item.items) items.now))) }
{
    for item in items {
        if !fits(alloc, item.as_slice(), room)? {
            return Ok(false);
        }
    }
    Ok(true)
}

fn push_margin<A: Allocator + Copy, B: Allocator>(
    margin: &mut String<A>,
    alloc: A,
    width: usize,
    taken: usize,
    items: &[Line<'_, B>],
) -> Result<(), AllocError>
    ensures { OnOk result (string_bytes margin.new ≡ string_bytes margin.old
        ++ form_margin width taken (map line_text (map (λ item. line_of item.items) items.now))) }
{
    let room = width.saturating_sub(taken).saturating_sub(1);
    if !all_fit(alloc, items, room)? {
        return margin.push_str("    ");
    }
    push_blanks(margin, taken)?;
    margin.push_str(" ")
}

// Items after a front.
fn push_hanging<A: Allocator + Copy, B: Allocator>(
    out: &mut String<A>,
    alloc: A,
    width: usize,
    front: &str,
    items: &[Line<'_, B>],
) -> Result<(), AllocError>
    ensures { OnOk result (string_bytes out.new ≡ string_bytes out.old
        ++ hanging width front.now (map line_text (map (λ item. line_of item.items) items.now))) }
{
    let taken = columns_of(front);
    let mut margin = String::new(alloc);
    push_margin(&mut margin, alloc, width, taken, items)?;
    let indent = margin.as_str();
    let hang = Hang {
        margin: indent,
        room: width.saturating_sub(indent.len()),
    };
    out.push_str(front)?;
    push_items(out, alloc, width.saturating_sub(taken), items, hang)?;
    out.push_str("\n")
}

fn push_form<A: Allocator + Copy, B: Allocator>(
    out: &mut String<A>,
    alloc: A,
    width: usize,
    word: &str,
    form: &Form<'_, B>,
) -> Result<(), AllocError>
    ensures { OnOk result (string_bytes out.new
        ≡ string_bytes out.old ++ form_text width word.now (form_of form.now)) }
{
    let mut front = String::from_str(alloc, word)?;
    push_replaced(&mut front, form.name, Role::Text)?;
    push_hanging(out, alloc, width, front.as_str(), form.items.as_slice())
}

fn push_forms<A: Allocator + Copy, B: Allocator>(
    out: &mut String<A>,
    alloc: A,
    width: usize,
    word: &str,
    forms: &[Form<'_, B>],
) -> Result<(), AllocError>
    ensures { OnOk result (string_bytes out.new ≡ string_bytes out.old
        ++ flat_map (form_text width word.now) (map form_of forms.now)) }
{
    for form in forms {
        push_form(out, alloc, width, word, form)?;
    }
    Ok(())
}

/// Writes the forms of a usage, the first after a word and the others under it.
pub fn push_usage<A: Allocator + Copy, B: Allocator>(
    out: &mut String<A>,
    alloc: A,
    width: usize,
    word: &str,
    forms: &[Form<'_, B>],
) -> Result<(), AllocError>
    ensures { OnOk result (string_bytes out.new
        ≡ string_bytes out.old ++ usage_text width word.now (map form_of forms.now)) }
{
    let Some((first, rest)) = forms.split_first() else {
        return Ok(());
    };
    push_form(out, alloc, width, word, first)?;
    let mut under = String::new(alloc);
    push_blanks(&mut under, columns_of(word))?;
    push_forms(out, alloc, width, under.as_str(), rest)
}
