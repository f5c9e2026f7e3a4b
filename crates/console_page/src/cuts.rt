//! Items that are too wide for a line, cut at their outermost bars.

ghost use Rattle.std.specs.Prelude.{◌≡◌, ◌++◌, ◌==◌, false, length, OnOk, string_bytes};
ghost use Rattle.console_page.specs.Usage.{cut_bars, cut_item, depth_after, is_bar_end, is_cut};
ghost use Rattle.console_page.specs.Usage.{least_after, outermost};

use std::alloc::{AllocError, Allocator};

fn depth_after(depth: usize, byte: u8) -> usize
    ensures { result ≡ depth_after depth byte }
{
    match byte {
        b'[' | b'(' | b'{' | b'<' => depth.saturating_add(1),
        b']' | b')' | b'}' | b'>' => depth.saturating_sub(1),
        _ => depth,
    }
}

fn is_bar_end(is_after_bar: bool, byte: u8) -> bool
    ensures { result ≡ is_bar_end is_after_bar byte }
{
    is_after_bar && byte == b' '
}

fn least_after(least: usize, depth: usize, is_after_bar: bool, byte: u8) -> usize
    ensures { result ≡ least_after least depth is_after_bar byte }
{
    if is_bar_end(is_after_bar, byte) {
        least.min(depth)
    } else {
        least
    }
}

// The least depth at which a bar stands.
fn outermost(item: &str) -> usize
    ensures { result ≡ outermost 18_446_744_073_709_551_615 (length item.now) false item.now }
{
    let bytes = item.as_bytes();
    let mut least = usize::MAX;
    let mut depth = bytes.len();
    let mut is_after_bar = false;
    for byte in bytes {
        least = least_after(least, depth, is_after_bar, *byte);
        depth = depth_after(depth, *byte);
        is_after_bar = *byte == b'|';
    }
    least
}

fn is_cut(least: usize, depth: usize, is_after_bar: bool, byte: u8) -> bool
    ensures { result ≡ is_cut least depth is_after_bar byte }
{
    is_bar_end(is_after_bar, byte) && depth == least
}

// Writes a text with newlines in place of the blanks after the bars of a depth.
fn push_cut_at<A: Allocator>(
    out: &mut String<A>,
    item: &str,
    least: usize,
) -> Result<(), AllocError>
    ensures { OnOk result (string_bytes out.new
        ≡ string_bytes out.old ++ cut_bars least (length item.now) false item.now) }
{
    let bytes = item.as_bytes();
    let mut start = 0;
    let mut depth = bytes.len();
    let mut is_after_bar = false;
    for at in 0..bytes.len() {
        if is_cut(least, depth, is_after_bar, bytes[at]) {
            out.push_str(&item[start..at])?;
            out.push_str("\n")?;
            start = at + 1;
        }
        depth = depth_after(depth, bytes[at]);
        is_after_bar = bytes[at] == b'|';
    }
    out.push_str(&item[start..])
}

/// Writes an item with newlines after its outermost bars.
pub fn push_cut<A: Allocator>(out: &mut String<A>, item: &str) -> Result<(), AllocError>
    ensures { OnOk result (string_bytes out.new ≡ string_bytes out.old ++ cut_item item.now) }
{
    push_cut_at(out, item, outermost(item))
}
