//! A page of many flags.
use crate::help::rows::{Form, made};
use crate::help::trees::{BARE, info, leaf};
use bpaf_help::meta::Meta;
use std::alloc::Global;
use std::fmt::Write;
use std::process::Abort;

// Each of 1,000 letters of two columns is the name of two flags.
fn flags(rt: &impl Abort, out: Global) -> Meta {
    let mut parts = Vec::new(out);
    for _ in 0..2usize {
        for letter in '\u{4e00}'..='\u{51e7}' {
            let flag = leaf(rt, out, letter);
            parts.push(flag).expect(rt, "a tree");
        }
    }
    Meta::And(parts)
}

fn lines(rt: &impl Abort, out: Global) -> String {
    let mut text = String::from_str(out, "Available options:\n").expect(rt, "a text");
    for letter in '\u{4e00}'..='\u{51e7}' {
        write!(text, "    -{letter}  h\n").expect(rt, "a text");
    }
    text
}

fn each_is_shown_once(rt: &impl Abort, out: Global) -> bool {
    let flags = flags(rt, out);
    let info = info(rt, out, BARE);
    let page = made(rt, out, Form::Groups(""), &flags, &info);
    drop(info);
    drop(flags);
    let want = lines(rt, out);
    let are_shown = page == want;
    drop(want);
    drop(page);
    are_shown
}

#[test]
fn each_of_many_flags_is_shown_once(rt: HostRuntime) {
    assert!(rt; each_is_shown_once(&rt, rt.alloc()));
}
