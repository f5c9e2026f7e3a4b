//! Each growth refused in turn: a call is made over an arena with room for nothing, then for a little more each time,
//! until it succeeds. Each refusal leaves what was lent as it was, and at the end it is followed by what the call has
//! to add.
use crate::arenas::{BYTES, STEP, leave, roomy};
use crate::roff::monoids::{self, MonoidCall};
use crate::roff::roffs::{self, RoffCall};
use bpaf_roff::escape::bytes::escape;
use bpaf_roff::escape::{Apostrophes, Escape};
use bumpalo::Bump;
use std::alloc::Global;
use std::fmt::Write;
use std::process::Abort;

/// A text that no spare room holds.
pub const LONG: &str = "long enough to grow";

/// A text of two blocks, each of which may be refused.
pub const MANY: &str =
    "long enough to grow, in two blocks of a piece: the first of them is put down, then goes-";

#[derive(Clone, Copy)]
enum Call {
    OnMonoid(MonoidCall),
    OnRoff(RoffCall),
    Escape,
    /// What stands before `Escape`.
    Nothing,
}

const LABELS: &[Escape] = &[
    Escape::Special,
    Escape::SpecialNoNewline,
    Escape::UnescapedAtNewline,
    Escape::Spaces,
    Escape::Unescaped,
];

const TEXTS: &[&str] = &["'long enough to grow-'", "\n.\\", ".", "a b\\\n", "\n"];

// A call, and what it adds after what stands there, with a bar and the setting after it.
type Row = (Call, &'static str);

const ROWS: &[Row] = &[
    (
        Call::Escape,
        "\\&\\*(Aqlong enough to grow\\-\\*(Aq .\\\\\n.a\\ b\\\\\\ \n|false",
    ),
    (
        Call::OnMonoid(MonoidCall::AppendStr),
        "long enough to grow|true",
    ),
    (Call::OnMonoid(MonoidCall::AppendChar), " b:é|true"),
    (
        Call::OnMonoid(MonoidCall::PushStr),
        " b:long enough to grow|true",
    ),
    (Call::OnMonoid(MonoidCall::Push), "é|true"),
    (
        Call::OnMonoid(MonoidCall::Extend),
        "xlong enough to grow b:long enough to grow|true",
    ),
    (Call::OnMonoid(MonoidCall::AddAssign), " a:text a:text|true"),
    (Call::OnMonoid(MonoidCall::Add), " a:text a:text|true"),
    (Call::OnMonoid(MonoidCall::Clone), "|true"),
    (
        Call::OnRoff(RoffCall::AppendControl),
        "\n.long enough to grow a\\ b long\\ enough\\ to\\ grow \"\"\n|false",
    ),
    (
        Call::OnRoff(RoffCall::AppendControl0),
        "\n.long enough to grow\n|false",
    ),
    (Call::OnRoff(RoffCall::AppendLinebreak), "\n|false"),
    (
        Call::OnRoff(RoffCall::AppendEscape),
        "long enough to grow|false",
    ),
    (
        Call::OnRoff(RoffCall::AppendPlaintext),
        "long enough to grow|false",
    ),
    (
        Call::OnRoff(RoffCall::AppendText),
        "\\fBlong enough to grow\\-\\fR\\fP|false",
    ),
    (
        Call::OnRoff(RoffCall::Control),
        "\n.long enough to grow a\\ b long\\ enough\\ to\\ grow \"\"\n|false",
    ),
    (
        Call::OnRoff(RoffCall::Control0),
        "\n.long enough to grow\n|false",
    ),
    (Call::OnRoff(RoffCall::RoffLinebreak), "\n|false"),
    (Call::OnRoff(RoffCall::Escape), "long enough to grow|false"),
    (
        Call::OnRoff(RoffCall::Plaintext),
        "long enough to grow|false",
    ),
    (
        Call::OnRoff(RoffCall::Text),
        "\\fBlong enough to grow\\-\\fR\\fP|false",
    ),
    (Call::OnRoff(RoffCall::AddAssign), "text|true"),
    (Call::OnRoff(RoffCall::Add), "text|true"),
    (Call::OnRoff(RoffCall::Extend), "texttext|true"),
    (Call::OnRoff(RoffCall::Clone), "|false"),
    (Call::OnRoff(RoffCall::Render), "|false"),
    (Call::OnRoff(RoffCall::Begin), "|false"),
    (
        Call::OnRoff(RoffCall::Put),
        "long enough to grow, in two blocks of a piece: the first of them is put down, then goes\\-|false",
    ),
];

fn escaped(bytes: &mut Vec<u8, &Bump>) -> bool {
    let pieces = LABELS.iter().zip(TEXTS.iter().copied());
    escape(pieces, bytes, Apostrophes::Handle).is_ok()
}

fn is_escaped(
    rt: &impl Abort,
    out: Global,
    arena: &Bump,
    room: usize,
    call: Call,
    count: usize,
    shown: &mut String,
) -> bool {
    let mut bytes = [b'z'].repeat(arena, count).expect(rt, "bytes");
    leave(rt, arena, room);
    let is_done = match call {
        Call::Escape => escaped(&mut bytes),
        _ => true,
    };
    let text = String::from_utf8_lossy(out, &bytes).expect(rt, "a text");
    drop(bytes);
    write!(shown, "{text}|false").expect(rt, "a text");
    drop(text);
    is_done
}

// Whether a call over an arena with that many free bytes is done. What stands then is shown.
fn is_done(
    rt: &impl Abort,
    out: Global,
    room: usize,
    call: Call,
    pieces: usize,
    shown: &mut String,
) -> bool {
    let arena = roomy(rt, out);
    let is_done = match call {
        Call::OnMonoid(call) => monoids::is_done(rt, out, &arena, room, call, pieces, shown),
        Call::OnRoff(call) => roffs::is_done(rt, out, &arena, room, call, pieces, shown),
        _ => is_escaped(rt, out, &arena, room, call, pieces, shown),
    };
    drop(arena);
    is_done
}

// What stands before a call.
fn before(rt: &impl Abort, out: Global, call: Call, pieces: usize) -> String {
    let nothing = match call {
        Call::OnMonoid(_) => Call::OnMonoid(MonoidCall::Nothing),
        Call::OnRoff(_) => Call::OnRoff(RoffCall::Nothing),
        _ => Call::Nothing,
    };
    let mut shown = String::new(out);
    is_done(rt, out, 0, nothing, pieces, &mut shown);
    shown
}

// Whether a call is done in that much room. None where something else stands then than should: after the text before it
// what it adds, or all that stood before. Of a sum that is refused nothing stands.
fn is_done_as_wanted(
    rt: &impl Abort,
    out: Global,
    room: usize,
    &(call, added): &Row,
    pieces: usize,
    before: &str,
) -> Option<bool> {
    let mut shown = String::new(out);
    let is_done = is_done(rt, out, room, call, pieces, &mut shown);
    let is_right = if is_done {
        is_added(before, &shown, added)
    } else {
        shown.is_empty() || shown.as_str() == before
    };
    drop(shown);
    is_right.then_some(is_done)
}

fn is_added(before: &str, after: &str, added: &str) -> bool {
    match before.split_once('|') {
        Some((text, _)) => after.strip_prefix(text) == Some(added),
        None => false,
    }
}

// The room in which a call succeeds. None where something else stands after it than should.
fn needed(rt: &impl Abort, out: Global, row: &Row, pieces: usize) -> Option<usize> {
    let before = before(rt, out, row.0, pieces);
    for step in 0..BYTES / STEP {
        match is_done_as_wanted(rt, out, step * STEP, row, pieces, &before) {
            Some(false) => {}
            Some(true) => return Some(step * STEP),
            None => return None,
        }
    }
    None
}

// Whether a call is done as it should, and is refused in no room for some number of pieces.
fn takes_room(rt: &impl Abort, out: Global, row: &Row) -> bool {
    let mut most = 0usize;
    for pieces in 1..6usize {
        let Some(room) = needed(rt, out, row, pieces) else {
            return false;
        };
        most = most.max(room);
    }
    most > 0
}

#[test]
fn a_refused_growth_changes_nothing(rt: HostRuntime) {
    for row in ROWS {
        assert!(rt; takes_room(&rt, rt.alloc(), row), "{}", row.1);
    }
}
