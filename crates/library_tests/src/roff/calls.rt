//! The calls whose results no request shows.
use crate::roff::monoids::show;
use bpaf_roff::monoid::FreeMonoid;
use bpaf_roff::roff::{Font, RESTORE_FONT};
use std::alloc::Global;
use std::process::Abort;

// Whether to squash, and pieces.
type Pieces = (bool, &'static [(char, &'static str)]);

fn made(rt: &impl Abort, out: Global, (squash, texts): Pieces) -> FreeMonoid<char> {
    let mut monoid = FreeMonoid::new(out);
    monoid.squash = squash;
    monoid.extend(texts.iter().copied()).expect(rt, "a monoid");
    monoid
}

// Pieces, how many bytes their texts have, and what stands then.
const PUT: &[(Pieces, usize, &str)] = &[
    (
        (false, &[('a', "string"), ('b', "more"), ('d', "!")]),
        11,
        " a:string b:more d:!|false",
    ),
    (
        (true, &[('a', "x"), ('a', "y"), ('b', ""), ('a', "z")]),
        3,
        " a:xy b: a:z|true",
    ),
    ((false, &[('a', "é"), ('a', "")]), 2, " a:é a:|false"),
];

fn are_put(rt: &impl Abort, out: Global, pieces: Pieces, size: usize, want: &str) -> bool {
    let monoid = made(rt, out, pieces);
    let has_size = monoid.payload_size() == size;
    let mut shown = String::new(out);
    show(rt, &monoid, &mut shown);
    drop(monoid);
    let is_that = shown.as_str() == want;
    drop(shown);
    has_size && is_that
}

#[test]
fn texts_are_put_last(rt: HostRuntime) {
    for &(pieces, size, want) in PUT {
        assert!(rt; are_put(&rt, rt.alloc(), pieces, size, want), "{want}");
    }
}

const PAIRS: &[(Pieces, Pieces, bool)] = &[
    (
        (true, &[('a', "x"), ('a', "y")]),
        (true, &[('a', "xy")]),
        true,
    ),
    (
        (false, &[('a', "x"), ('a', "y")]),
        (false, &[('a', "xy")]),
        false,
    ),
    ((false, &[('a', "x")]), (true, &[('a', "x")]), false),
    (
        (false, &[('a', "x"), ('b', "y")]),
        (false, &[('a', ""), ('b', "xy")]),
        false,
    ),
    ((false, &[('a', "x")]), (false, &[('b', "x")]), false),
];

fn are_equal(rt: &impl Abort, out: Global, left: Pieces, right: Pieces) -> bool {
    let left = made(rt, out, left);
    let right = made(rt, out, right);
    let are_equal = left == right;
    drop(right);
    drop(left);
    are_equal
}

#[test]
fn equality_is_of_pieces_and_setting(rt: HostRuntime) {
    for &(left, right, want) in PAIRS {
        assert!(rt;
            are_equal(&rt, rt.alloc(), left, right) == want,
            "{left:?} {right:?}"
        );
    }
}

fn fonts_are(roman: &str, bold: &str, italic: &str, restored: &str) -> bool {
    Font::Roman.escape() == roman
        && Font::Bold.escape() == bold
        && Font::Italic.escape() == italic
        && RESTORE_FONT == restored
}

#[test]
fn fonts_are_escapes(rt: HostRuntime) {
    assert!(rt; fonts_are("\\fR", "\\fB", "\\fI", "\\fP"));
}
