//! Each growth refused in turn: a call is made over an arena with room for nothing, then for a little more each
//! time, until it succeeds. Each refusal leaves what was lent as it was, and the answer at the end is that of
//! ample memory.
use crate::arenas::{BYTES, STEP};
use crate::help::calls::{Call, Ended, end_of};
use crate::help::meta::calls::{Make, Write};
use crate::help::pages_calls::PageCall;
use crate::help::rows::{Form, Row, is_made};
use std::alloc::Global;
use std::process::Abort;

/// What a call shows that has ample memory.
pub fn given(rt: &impl Abort, out: Global, text: &str, call: Call) -> String {
    let mut shown = String::new(out);
    let ended = end_of(rt, out, BYTES, text, call, &mut shown);
    assert!(rt; ended == Ended::Given, "{text}");
    shown
}

// Whether the call succeeds in that much room. None where it does not show then what it should.
fn is_given(
    rt: &impl Abort,
    out: Global,
    room: usize,
    text: &str,
    call: Call,
    [before, given]: [&str; 2],
) -> Option<bool> {
    let mut shown = String::new(out);
    let is_right = match end_of(rt, out, room, text, call, &mut shown) {
        Ended::Given => (shown.as_str() == given).then_some(true),
        Ended::Refused => (shown.as_str() == before).then_some(false),
        Ended::Misplaced(_) => None,
    };
    drop(shown);
    is_right
}

// The room in which a call succeeds. None where it is refused and what was lent is not as it stood before, and where
// the answer is not that of ample memory.
fn needed(rt: &impl Abort, out: Global, text: &str, call: Call, before: &str) -> Option<usize> {
    let given = given(rt, out, text, call);
    for step in 0..BYTES / STEP {
        match is_given(rt, out, step * STEP, text, call, [before, &given]) {
            Some(false) => {}
            Some(true) => return Some(step * STEP),
            None => return None,
        }
    }
    None
}

// Whether a call succeeds as it should, and is refused where there is no room.
fn takes_room(rt: &impl Abort, out: Global, text: &str, call: Call, before: &str) -> bool {
    match needed(rt, out, text, call, before) {
        Some(room) => room > 0,
        None => false,
    }
}

// The same, where what stands before is what another call shows.
fn takes_room_after(rt: &impl Abort, out: Global, text: &str, first: Call, call: Call) -> bool {
    let before = given(rt, out, text, first);
    let takes_room = takes_room(rt, out, text, call, &before);
    drop(before);
    takes_room
}

const META: &str = "Sab|^+?&X$&aXR-&&";

// Two groups, an adjacent block, a note, and texts of environment variables.
const PARTS: &str = "efA&&a%&xv&@~&XC&#&";

// A command below a command.
const APPLICATION: &str = "vax1&0&";

const BEFORE: &str = r#"[Text("before", Literal)]"#;

// A tree, a call, and what stands before it.
const CALLS: &[(&str, Call, &str)] = &[
    (META, Call::Write(Write::Name), BEFORE),
    (META, Call::Write(Write::Metavar), BEFORE),
    (META, Call::Write(Write::Item), BEFORE),
    (META, Call::Write(Write::Usage), BEFORE),
    (META, Call::Write(Write::Outside), BEFORE),
    (META, Call::Write(Write::Info), BEFORE),
    (META, Call::Shorts, "['f'] ['g'] "),
    (META, Call::Make(Make::Usage), ""),
    (META, Call::Make(Make::Outside), ""),
    (META, Call::Make(Make::Item), ""),
    (META, Call::Make(Make::Required), ""),
    (META, Call::Make(Make::Optional), ""),
    (META, Call::Make(Make::Or), ""),
    (PARTS, Call::Both, ""),
    (PARTS, Call::Insert, "{} None None"),
    (PARTS, Call::Replace, r#"{"V": "7"} Some("7") None"#),
    (
        PARTS,
        Call::Groups,
        r#"{"V": "7"} [Text("before", Literal)]"#,
    ),
    (PARTS, Call::HelpPage, BEFORE),
    (PARTS, Call::Page(PageCall::Help), ""),
    (APPLICATION, Call::Page(PageCall::Collected), ""),
    (APPLICATION, Call::Page(PageCall::Html), ""),
    (APPLICATION, Call::Page(PageCall::Markdown), ""),
    (APPLICATION, Call::Page(PageCall::Manual), ""),
    (APPLICATION, Call::Page(PageCall::Titled), ""),
    ("a", Call::Page(PageCall::Forms), ""),
];

#[test]
fn a_refused_call_leaves_what_it_was_lent(rt: HostRuntime) {
    for &(text, call, before) in CALLS {
        assert!(rt;
            takes_room(&rt, rt.alloc(), text, call, before),
            "{text} {before}"
        );
    }
}

// A tree, a call that shows what stands before, and the call after it.
const AFTER_A_CALL: &[(&str, Call, Call)] = &[
    (PARTS, Call::List, Call::Append),
    (
        APPLICATION,
        Call::Page(PageCall::SectionsOnce),
        Call::Page(PageCall::Sections),
    ),
    (
        APPLICATION,
        Call::Page(PageCall::LastSection),
        Call::Page(PageCall::Section),
    ),
];

// Whether a copy shows what is copied.
fn shows_the_same(rt: &impl Abort, out: Global, text: &str, one: Call, other: Call) -> bool {
    let one = given(rt, out, text, one);
    let other = given(rt, out, text, other);
    let is_same = one.as_str() == other.as_str();
    drop(other);
    drop(one);
    is_same
}

#[test]
fn a_refused_call_leaves_lists(rt: HostRuntime) {
    for &(text, first, call) in AFTER_A_CALL {
        assert!(rt;
            takes_room_after(&rt, rt.alloc(), text, first, call),
            "{text}"
        );
    }
    assert!(rt; shows_the_same(&rt, rt.alloc(), PARTS, Call::Append, Call::Both));
    let (_, section, copy) = AFTER_A_CALL[2];
    assert!(rt; shows_the_same(&rt, rt.alloc(), APPLICATION, section, copy));
}

// A tree of each variant and of each kind of item. `Skip` is the tree of help flags in what goes with a command.
const FORMS: &str = "ab& ab| a? ab&^ ab&@ a S X Y aR a+ a# a~ a$ a-";

// Whether a copy has every part, and is made once memory lasts.
fn is_copied(rt: &impl Abort, out: Global, text: &str) -> bool {
    let copy = Call::Make(Make::Copy);
    let given = given(rt, out, text, copy);
    let row: Row<'_> = (Form::Tree, text, "", given.as_str());
    let is_same = is_made(rt, out, &row);
    drop(given);
    is_same && takes_room(rt, out, text, copy, "")
}

#[test]
fn a_copy_of_each_form_is_made_once_memory_lasts(rt: HostRuntime) {
    for text in FORMS.split(' ') {
        assert!(rt; is_copied(&rt, rt.alloc(), text), "{text}");
    }
}

const READ: &str = "Xa& aXR| aX&@b& XR#";

#[test]
fn what_takes_no_memory_is_never_refused(rt: HostRuntime) {
    for text in READ.split(' ') {
        assert!(rt;
            needed(&rt, rt.alloc(), text, Call::Read, "") == Some(0),
            "{text}"
        );
    }
}

// Whether a page ends so in that much room.
fn ends(
    rt: &impl Abort,
    out: Global,
    room: usize,
    text: &str,
    page: PageCall,
    want: Ended,
) -> bool {
    let mut shown = String::new(out);
    let ended = end_of(rt, out, room, text, Call::Page(page), &mut shown);
    drop(shown);
    ended == want
}

// The room in which sections are gathered before a page is begun, as a page gathers them.
const GATHERED: usize = usize::MAX;

// A room, a tree, a page, and how it ends.
const ENDS: &[(usize, &str, PageCall, Ended)] = &[
    // The check takes no memory.
    (0, "Pb&", PageCall::Check, Ended::Misplaced('b')),
    (0, "bP&", PageCall::Check, Ended::Given),
    // A misplaced item is found before memory is asked for.
    (0, "Pb&", PageCall::Help, Ended::Misplaced('b')),
    (BYTES, "Pb&", PageCall::Help, Ended::Misplaced('b')),
    // The page of a command is checked with its own section.
    (BYTES, "Pa&1B|@", PageCall::Help, Ended::Given),
    // Each page is checked before it takes memory, except that in which its sections are gathered.
    (0, "Pb&", PageCall::Collected, Ended::Refused),
    (GATHERED, "Pb&", PageCall::Collected, Ended::Misplaced('b')),
    (GATHERED, "bP&", PageCall::Collected, Ended::Refused),
    (BYTES, "Pb&", PageCall::Collected, Ended::Misplaced('b')),
    (BYTES, "Pa&1B|@", PageCall::Collected, Ended::Misplaced('a')),
];

#[test]
fn each_page_is_checked_before_it_takes_memory(rt: HostRuntime) {
    let gathered = needed(&rt, rt.alloc(), "Pb&", Call::Page(PageCall::Count), "").unwrap_or(0);
    for &(room, text, page, want) in ENDS {
        let room = if room == GATHERED { gathered } else { room };
        assert!(rt;
            ends(&rt, rt.alloc(), room, text, page, want),
            "{text} in {room}"
        );
    }
}
