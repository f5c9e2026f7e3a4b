//! The calls of a roff over a small arena.
use crate::arenas::leave;
use crate::roff::refusals::{LONG, MANY};
use bpaf_roff::escape::{Apostrophes, Escape};
use bpaf_roff::roff::{Font, Roff};
use bumpalo::Bump;
use std::alloc::{AllocError, Allocator, Global};
use std::fmt::Write;
use std::process::Abort;

/// A call of a roff.
#[derive(Clone, Copy)]
pub enum RoffCall {
    /// What stands before the others.
    Nothing,
    AppendControl,
    AppendControl0,
    AppendLinebreak,
    AppendEscape,
    AppendPlaintext,
    AppendText,
    Control,
    Control0,
    RoffLinebreak,
    Escape,
    Plaintext,
    Text,
    AddAssign,
    Extend,
    Add,
    Clone,
    Render,
    Begin,
    Put,
}

const WORDS: &[&str] = &["a b", LONG, ""];

const ITEMS: &[(Font, &str)] = &[(Font::Bold, LONG), (Font::Bold, "-"), (Font::Roman, "")];

// Plain texts, with newlines kept.
fn start<A: Allocator + Copy>(rt: &impl Abort, alloc: A, pieces: usize) -> Roff<A> {
    let mut roff = Roff::new(alloc);
    for _ in 0..pieces {
        roff.append_plaintext("text").expect(rt, "a piece");
    }
    roff
}

// A text, a bar and the setting.
fn show(rt: &impl Abort, text: &str, setting: bool, shown: &mut String) {
    write!(shown, "{text}|{setting}").expect(rt, "a text");
}

// The page is that of a copy, since the roff's own arena has no room for one.
fn show_roff(rt: &impl Abort, out: Global, roff: &Roff<&Bump>, shown: &mut String) {
    let mut copy = Roff::new(out);
    copy.add_assign(roff).expect(rt, "a copy");
    let page = copy.render(Apostrophes::DontHandle).expect(rt, "a page");
    drop(copy);
    show(rt, &page, roff.strip_newlines, shown);
    drop(page);
}

fn append(roff: &mut Roff<&Bump>, call: RoffCall, other: &Roff) -> Result<(), AllocError> {
    match call {
        RoffCall::AppendControl => roff.append_control(LONG, WORDS),
        RoffCall::AppendControl0 => roff.append_control0(LONG),
        RoffCall::AppendLinebreak => roff.append_linebreak(),
        RoffCall::AppendEscape => roff.append_escape(LONG),
        RoffCall::AppendPlaintext => roff.append_plaintext(LONG),
        RoffCall::AppendText => roff.append_text(ITEMS),
        RoffCall::AddAssign => roff.add_assign(other),
        RoffCall::Extend => roff.extend([other, other].into_iter()),
        _ => Ok(()),
    }
}

// Whether the call was done.
fn changes(roff: &mut Roff<&Bump>, call: RoffCall, other: &Roff) -> bool {
    match call {
        RoffCall::Control => roff.control(LONG, WORDS).is_ok(),
        RoffCall::Control0 => roff.control0(LONG).is_ok(),
        RoffCall::RoffLinebreak => roff.roff_linebreak().is_ok(),
        RoffCall::Escape => roff.escape(LONG).is_ok(),
        RoffCall::Plaintext => roff.plaintext(LONG).is_ok(),
        RoffCall::Text => roff.text(ITEMS).is_ok(),
        _ => append(roff, call, other).is_ok(),
    }
}

// A page that is made of the roff, or what a writer has that begins with it.
fn text_of<'a>(roff: &Roff<&'a Bump>, call: RoffCall) -> Result<String<&'a Bump>, AllocError> {
    match call {
        RoffCall::Render => roff.render(Apostrophes::DontHandle),
        _ => Ok(roff.begin(Apostrophes::DontHandle, 1)?.into_string()),
    }
}

// Whether such a text was made, which is shown. The roff itself is shown where it was not.
fn is_shown(
    rt: &impl Abort,
    out: Global,
    roff: &Roff<&Bump>,
    call: RoffCall,
    shown: &mut String,
) -> bool {
    match text_of(roff, call) {
        Ok(text) => {
            show(rt, &text, roff.strip_newlines, shown);
            drop(text);
            true
        }
        Err(AllocError) => {
            show_roff(rt, out, roff, shown);
            false
        }
    }
}

// Whether a writer that began with a roff took one more piece. What it has then is shown.
fn is_put(
    rt: &impl Abort,
    arena: &Bump,
    room: usize,
    roff: &Roff<&Bump>,
    shown: &mut String,
) -> bool {
    let mut writer = roff
        .begin(Apostrophes::DontHandle, 0)
        .expect(rt, "a writer");
    leave(rt, arena, room);
    let is_done = writer.put(Escape::Special, MANY).is_ok();
    let text = writer.into_string();
    show(rt, &text, roff.strip_newlines, shown);
    drop(text);
    is_done
}

// Whether a roff was made, which is shown.
fn is_made(
    rt: &impl Abort,
    out: Global,
    made: Result<Roff<&Bump>, AllocError>,
    shown: &mut String,
) -> bool {
    match made {
        Ok(roff) => {
            show_roff(rt, out, &roff, shown);
            drop(roff);
            true
        }
        Err(AllocError) => false,
    }
}

// Whether a copy was made, which is shown. The roff itself is shown where it was not.
fn is_copied(rt: &impl Abort, out: Global, roff: &Roff<&Bump>, shown: &mut String) -> bool {
    let is_made = is_made(rt, out, roff.clone(), shown);
    if !is_made {
        show_roff(rt, out, roff, shown);
    }
    is_made
}

/// Whether a call, which has that many bytes, was done. What stands then is shown, except where a sum is refused.
pub fn is_done(
    rt: &impl Abort,
    out: Global,
    arena: &Bump,
    room: usize,
    call: RoffCall,
    pieces: usize,
    shown: &mut String,
) -> bool {
    let mut roff = start(rt, arena, pieces);
    if let RoffCall::Put = call {
        return is_put(rt, arena, room, &roff, shown);
    }
    let mut other = start(rt, out, 1);
    other.strip_newlines(true);
    leave(rt, arena, room);
    let is_done = match call {
        RoffCall::Render | RoffCall::Begin => is_shown(rt, out, &roff, call, shown),
        RoffCall::Clone => is_copied(rt, out, &roff, shown),
        RoffCall::Add => is_made(rt, out, roff.add(&other), shown),
        _ => {
            let is_done = changes(&mut roff, call, &other);
            show_roff(rt, out, &roff, shown);
            is_done
        }
    };
    drop(other);
    is_done
}
