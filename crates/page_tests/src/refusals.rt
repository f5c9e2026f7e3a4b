//! Each growth refused in turn: a page is written into an arena with room for nothing, then for a little more each
//! time, until it is whole.
ghost use Rattle.std.specs.Prelude.{[], ◌∷◌, ◌==◌, codes, if◌then◌else◌};

use crate::console::{FEW, FEW_WRITTEN, USED, USED_NARROWLY};
use crate::manual::title;
use crate::said::{forms, parts};
use crate::tide_save::{SAID, WRITTEN};
use bumpalo::Bump;
use console_page::{console_page, console_usage};
use man_page::{PageFault, manual_page};
use page_model::Part;
use page_model::replaced::{StandIns, push_replaced};
use std::alloc::{AllocError, Global};
use std::process::Abort;

/// How many bytes an arena has: more than the page takes.
pub const BYTES: usize = 65536;

/// How many bytes more are left of it each time. No growth is smaller.
pub const STEP: usize = 8;

/// An arena that grows no more.
pub fn roomy(rt: &impl Abort, out: Global) -> Bump {
    let arena = Bump::try_with_capacity(out, BYTES).expect(rt, "an arena");
    arena.set_allocation_limit(Some(0));
    arena
}

/// Takes all that an arena has left, except that many bytes.
pub fn taken<'a>(rt: &impl Abort, arena: &'a Bump, room: usize) -> Vec<u8, &'a Bump> {
    let rest = arena.chunk_capacity().saturating_sub(room);
    Vec::with_capacity(arena, rest).expect(rt, "the rest of an arena")
}

// Whether a manual page is whole in that much room. None where it is another, or has another fault.
fn is_page_whole(rt: &impl Abort, out: Global, parts: &[Part<'_>], room: usize) -> Option<bool> {
    let arena = roomy(rt, out);
    let _rest = taken(rt, &arena, room);
    match manual_page(&arena, &title("tide-save"), parts) {
        Ok(page) => (page.as_str() == WRITTEN).then_some(true),
        Err(fault) => (fault == PageFault::Refused(AllocError)).then_some(false),
    }
}

// The same of a page on a console.
fn is_console_whole(rt: &impl Abort, out: Global, room: usize) -> Option<bool> {
    let parts = parts(out, FEW).expect(rt, "parts");
    let arena = roomy(rt, out);
    let _rest = taken(rt, &arena, room);
    match console_page(&arena, 12, "Usage", parts.as_slice()) {
        Ok(page) => (page.as_str() == FEW_WRITTEN).then_some(true),
        Err(fault) => (fault == console_page::PageFault::Refused(AllocError)).then_some(false),
    }
}

// The same of a usage alone.
fn is_usage_whole(rt: &impl Abort, out: Global, room: usize) -> Option<bool> {
    let used = forms(out, "tide", USED).expect(rt, "forms");
    let arena = roomy(rt, out);
    let _rest = taken(rt, &arena, room);
    match console_usage(&arena, 12, used.as_slice()) {
        Ok(usage) => (usage.as_str() == USED_NARROWLY).then_some(true),
        Err(fault) => (fault == console_page::PageFault::Refused(AllocError)).then_some(false),
    }
}

/// Text as the value of an attribute has it.
#[derive(Clone, Copy)]
struct InQuotes;

impl StandIns for InQuotes {
    ghost replaced = { λ _ byte. if byte == 34 then codes "&quot;" else byte ∷ [] };

    fn stand_in(self, byte: u8) -> Option<&'static str> {
        if byte == b'"' { Some("&quot;") } else { None }
    }
}

// Whether a text is written after another in that much room. None where it is another text.
fn is_replaced(rt: &impl Abort, out: Global, room: usize) -> Option<bool> {
    let arena = roomy(rt, out);
    let mut text = String::from_str(&arena, "so: ").expect(rt, "a text");
    let _rest = taken(rt, &arena, room);
    match push_replaced(&mut text, "\"\u{e9}\" or \"e\"", InQuotes) {
        Ok(()) => (text.as_str() == "so: &quot;\u{e9}&quot; or &quot;e&quot;").then_some(true),
        Err(AllocError) => Some(false),
    }
}

/// What is made.
#[derive(Clone, Copy)]
enum Call {
    ManualPage,
    ConsolePage,
    ConsoleUsage,
    PushReplaced,
}

// Whether it is made in some room, and not before with less of it.
fn is_made_with_more(rt: &impl Abort, out: Global, call: Call) -> bool {
    let parts = parts(out, SAID).expect(rt, "parts");
    for step in 0..BYTES / STEP {
        let room = step.saturating_mul(STEP);
        let made = match call {
            Call::ManualPage => is_page_whole(rt, out, parts.as_slice(), room),
            Call::ConsolePage => is_console_whole(rt, out, room),
            Call::ConsoleUsage => is_usage_whole(rt, out, room),
            Call::PushReplaced => is_replaced(rt, out, room),
        };
        if made != Some(false) {
            return step > 0 && made == Some(true);
        }
    }
    false
}

#[test]
fn a_refused_manual_page_is_made_with_more(rt: HostRuntime) {
    assert!(rt; is_made_with_more(&rt, rt.alloc(), Call::ManualPage));
}

#[test]
fn a_refused_page_on_a_console_is_made_with_more(rt: HostRuntime) {
    assert!(rt; is_made_with_more(&rt, rt.alloc(), Call::ConsolePage));
}

#[test]
fn a_refused_usage_on_a_console_is_made_with_more(rt: HostRuntime) {
    assert!(rt; is_made_with_more(&rt, rt.alloc(), Call::ConsoleUsage));
}

#[test]
fn a_refused_text_is_replaced_with_more(rt: HostRuntime) {
    assert!(rt; is_made_with_more(&rt, rt.alloc(), Call::PushReplaced));
}
