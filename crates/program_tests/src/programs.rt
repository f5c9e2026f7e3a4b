//! Whole runs of the programs on a desk.

use crate::engines::AMPLE;
use crate::stand_ins::desk::Desk;
use crate::stand_ins::runs::Ends;
use linked_list_allocator::LocalHeap;
use std::alloc::Global;
use std::process::ExitCode;

/// The status of a run of the program that the words name first, on that much memory. What clidoc keeps in memory of
/// its own does not count.
pub fn status_of(heap: &LocalHeap, global: Global, desk: &Desk<'_>) -> ExitCode {
    if desk.words.starts_with("helpdoc") {
        helpdoc_engine::program::run(&(desk, heap))
    } else {
        clidoc_engine::program::run(&(desk, heap), global)
    }
}

/// Whether a run on ample memory returns this status, and prints that many bytes of the page, and the line where it
/// should. Statuses are numbers here, as in the table of the program.
pub fn ends_with(global: Global, desk: &Desk<'_>, status: u8, count: usize, says: bool) -> bool {
    let Ok(heap) = LocalHeap::new(global, AMPLE) else {
        return false;
    };
    let answered = status_of(&heap, global, desk);
    answered == ExitCode::from(status) && desk.has_printed(count, says)
}

/// Whether a run on ample memory returns this status, and prints this page and, where it failed, the line.
pub fn answers(
    global: Global,
    words: &str,
    input: &[u8],
    status: u8,
    (page, line): (&[u8], &str),
) -> bool {
    let desk = Desk::new(global, words, Ends::new(input, page), line);
    ends_with(global, &desk, status, page.len(), status > 0)
}

// Whether a growth is refused on that much memory, and this reported, or the page written. None where neither is so.
fn is_refused(global: Global, budget: usize, desk: &Desk<'_>, length: usize) -> Option<bool> {
    let Ok(heap) = LocalHeap::new(global, budget) else {
        return None;
    };
    let status = status_of(&heap, global, desk);
    if status == ExitCode::from(0) && desk.has_printed(length, false) {
        Some(false)
    } else if status == ExitCode::from(1) && desk.has_printed(0, true) {
        Some(true)
    } else {
        None
    }
}

/// Whether each budget refuses the first growth that does not fit it, which the line says; the budgets rise until one
/// suffices, and the first is too small. The words take memory too.
pub fn refuses_until_ample<'a>(
    global: Global,
    words: &'a str,
    ends: Ends<'a>,
    line: &'a str,
) -> bool {
    for budget in 1..4096usize {
        let desk = Desk::new(global, words, ends, line);
        let is_refused = is_refused(global, budget * 16, &desk, ends.page.len());
        if is_refused != Some(true) {
            return is_refused == Some(false) && budget > 1;
        }
    }
    false
}
