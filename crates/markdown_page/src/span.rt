//! Code spans, and the backquotes of spans and of fences.

ghost use Rattle.std.specs.Prelude.{◌≡◌, ◌++◌, ◌||◌, ◌==◌, [], map, suc, IfOk, OnOk, string_bytes};
ghost use Rattle.std.specs.List.{list_all};
ghost use Rattle.markdown_page.specs.Bytes.{graves, is_blank};
ghost use Rattle.markdown_page.specs.Exact.{has_edge, is_edge, longest_of, padding, span_text, spare_run};
ghost use Rattle.markdown_page.specs.Reader.{longest_run};
ghost use Rattle.markdown_page.specs.Steps.{first_unseen, widened, with_run, with_runs};

use std::alloc::{AllocError, Allocator};

/// Writes one backquote and that many more.
#[tactic(auto, using(crate::proofs::Loops::more_graves))]
pub fn push_graves<A: Allocator>(out: &mut String<A>, more: usize) -> Result<(), AllocError>
    ensures { OnOk result (string_bytes out.new ≡ string_bytes out.old ++ graves (suc more)) }
{
    out.push_str("`")?;
    for _ in 0..more {
        out.push_str("`")?;
    }
    Ok(())
}

// Makes room for runs of that many backquotes, of which none is seen yet.
fn widen<A: Allocator>(seen: &mut Vec<bool, A>, run: usize) -> Result<(), AllocError>
    ensures { OnOk result (seen.new.items ≡ widened seen.old.items run) }
{
    let more = run.saturating_sub(seen.len());
    for _ in 0..more {
        seen.push(false)?;
    }
    Ok(())
}

// Notes that a run of that many backquotes is seen, if there are any.
fn note_run<A: Allocator>(seen: &mut Vec<bool, A>, run: usize) -> Result<(), AllocError>
    ensures { OnOk result (seen.new.items ≡ with_run seen.old.items run) }
{
    if run == 0 {
        return Ok(());
    }
    widen(seen, run)?;
    seen[run - 1] = true;
    Ok(())
}

// Notes how long the runs of backquotes of a text are: each place says whether there is a run of that length, less one.
#[tactic(auto, using(crate::proofs::Runs::runs_next))]
fn note_runs<A: Allocator>(seen: &mut Vec<bool, A>, text: &str) -> Result<(), AllocError>
    ensures { OnOk result (seen.new.items ≡ with_runs [] 0 text.now) }
{
    seen.clear();
    let bytes = text.as_bytes();
    let mut run = 0;
    for byte in bytes {
        if *byte == b'`' {
            run += 1;
        } else {
            note_run(seen, run)?;
            run = 0;
        }
    }
    note_run(seen, run)
}

fn first_unseen(seen: &[bool]) -> usize
    ensures { result ≡ first_unseen seen.now }
{
    for more in 0..seen.len() {
        if !seen[more] {
            return more;
        }
    }
    seen.len()
}

// How many more backquotes than one begin the span of a text.
#[tactic(auto, using(crate::proofs::Runs::unseen_is_spare))]
fn spare_run<A: Allocator>(seen: &mut Vec<bool, A>, text: &str) -> Result<usize, AllocError>
    ensures { IfOk result (λ more. more ≡ spare_run text.now) }
{
    note_runs(seen, text)?;
    Ok(first_unseen(seen.as_slice()))
}

/// The most backquotes of a text that follow one another.
#[tactic(auto, using(crate::proofs::Loops::longest_next, crate::proofs::Loops::longest_end))]
pub fn longest_run(line: &str) -> usize
    ensures { result ≡ longest_run 0 line.now }
{
    let bytes = line.as_bytes();
    let mut longest = 0;
    let mut run = 0;
    for byte in bytes {
        if *byte == b'`' {
            run += 1;
        } else {
            longest = longest.max(run);
            run = 0;
        }
    }
    longest.max(run)
}

fn is_edge(byte: u8) -> bool
    ensures { result ≡ is_edge byte }
{
    matches!(byte, b' ' | b'`')
}

fn is_blank_text(text: &[u8]) -> bool
    ensures { result ≡ list_all is_blank text.now }
{
    text.iter().all(|byte| *byte == b' ')
}

#[tactic(auto, using(crate::proofs::Loops::edge_read))]
fn has_edge(text: &[u8]) -> bool
    ensures { result ≡ has_edge text.now }
{
    if text.is_empty() {
        return false;
    }
    is_edge(text[0]) || is_edge(text[text.len() - 1])
}

fn padding(text: &str) -> &'static str
    ensures { result.now ≡ padding text.now }
{
    let bytes = text.as_bytes();
    if has_edge(bytes) && !is_blank_text(bytes) {
        " "
    } else {
        ""
    }
}

/// Writes a text as a code span. How long its runs of backquotes are is noted in `seen`.
pub fn push_span<A: Allocator>(
    out: &mut String<A>,
    text: &str,
    seen: &mut Vec<bool, A>,
) -> Result<(), AllocError>
    ensures { OnOk result (string_bytes out.new ≡ string_bytes out.old ++ span_text text.now) }
{
    if text.is_empty() {
        return Ok(());
    }
    let more = spare_run(seen, text)?;
    let pad = padding(text);
    push_graves(out, more)?;
    out.push_str(pad)?;
    out.push_str(text)?;
    out.push_str(pad)?;
    push_graves(out, more)
}
