//! The vectors of pages and of labelled texts, by the calls that they name. `replay` has them by the calls that these
//! pass on to.
use bpaf_roff::escape::Apostrophes;
use bpaf_roff::monoid::FreeMonoid;
use bpaf_roff::roff::{Font, Roff};
use std::alloc::{AllocError, Global};
use std::fmt::Write;
use std::process::Abort;

// Calls with bars between them, and after an arrow the page. Before its words a call has `p` for `plaintext`, `t` for
// `text`, `c` for `control` or `0` for `control0`. Between words stand semicolons, and before those of `text` the
// letter of their font. After a plus a page is added.
const PAGES: &str = r#"pabc => abc
----
tRfoo => \fRfoo\fP
----
tRroman => \fRroman\fP
----
p- => \-
----
p\x => \\x
----
p\- => \\\-
----
pfoo
.bar
'yo
 hmm => foo
\&.bar
\&'yo
 hmm
----
pfoo-bar => foo\-bar
----
tRfoo-bar => \fRfoo\-bar\fP
----
tIfoo => \fIfoo\fP
----
tBfoo => \fBfoo\fP
----
tR.roman => \fR.roman\fP
----
tRfoo
.roman => \fRfoo
\&.roman\fP
----
tRroman
|cbr|tRmore
 => \fRroman
\fP
.br
\fRmore
\fP
----
tRroman
+cbr+tRmore
 => \fRroman
\fP
.br
\fRmore
\fP
----
cfoo;bar;foo and bar => .foo bar foo\ and\ bar

----
tBbold,;R more bold;B and more bold => \fBbold,\fR more bold\fB and more bold\fP
----
cbr|0br|cbr => .br
.br
.br

----
cSH;A
|0PP => .SH A\ 
.PP

----
cSH;A\B => .SH A\\B

----
cSH;A\  => .SH A\\\ 
"#;

fn font_of(letter: &str) -> Font {
    match letter {
        "B" => Font::Bold,
        "I" => Font::Italic,
        _ => Font::Roman,
    }
}

fn is_text(rt: &impl Abort, out: Global, roff: &mut Roff, words: &str) -> bool {
    let mut items = Vec::new(out);
    for (letter, text) in words.split(';').filter_map(|word| word.split_at_checked(1)) {
        items.push((font_of(letter), text)).expect(rt, "an item");
    }
    let is_done = roff.text(&items).is_ok();
    drop(items);
    is_done
}

fn is_control(rt: &impl Abort, out: Global, roff: &mut Roff, words: &str) -> bool {
    let mut words = words.split(';');
    let name = words.next().unwrap_or("");
    let words: Vec<&str> = words.collect(out).expect(rt, "words");
    let is_done = roff.control(name, &words).is_ok();
    drop(words);
    is_done
}

fn is_done(rt: &impl Abort, out: Global, roff: &mut Roff, call: &str) -> bool {
    match call.split_at_checked(1) {
        Some(("p", text)) => roff.plaintext(text).is_ok(),
        Some(("t", words)) => is_text(rt, out, roff, words),
        Some(("c", words)) => is_control(rt, out, roff, words),
        Some(("0", name)) => roff.control0(name).is_ok(),
        _ => false,
    }
}

fn page_of(rt: &impl Abort, out: Global, calls: &str) -> Roff {
    let mut roff = Roff::new(out);
    for call in calls.split('|') {
        assert!(rt; is_done(rt, out, &mut roff, call), "{call}");
    }
    roff
}

fn sum_of(rt: &impl Abort, out: Global, calls: &str) -> Roff {
    let mut sum = Roff::new(out);
    for calls in calls.split('+') {
        let page = page_of(rt, out, calls);
        sum = sum.add(&page).expect(rt, "a sum");
        drop(page);
    }
    sum
}

fn is_shown(rt: &impl Abort, out: Global, row: &str) -> bool {
    let (calls, want) = row.split_once(" => ").unwrap_or((row, ""));
    let sum = sum_of(rt, out, calls);
    let page = sum.render(Apostrophes::DontHandle).expect(rt, "a page");
    drop(sum);
    let is_that = page.as_str() == want;
    drop(page);
    is_that
}

#[test]
fn pages_are_made_by_chaining_calls(rt: HostRuntime) {
    for row in PAGES.split("\n----\n") {
        assert!(rt; is_shown(&rt, rt.alloc(), row), "{row}");
    }
}

// Each piece as its label, a colon, the debug text of its text and a semicolon.
fn is_printed(rt: &impl Abort, out: Global, monoid: FreeMonoid<char>, want: &str) -> bool {
    let mut printed = String::new(out);
    for (label, text) in &monoid {
        write!(printed, "{label}: {text:?}; ").expect(rt, "a text");
    }
    drop(monoid);
    let is_that = printed.as_str() == want;
    drop(printed);
    is_that
}

fn chained(out: Global) -> Result<FreeMonoid<char>, AllocError> {
    let mut monoid = FreeMonoid::new(out);
    monoid
        .push_str('a', "string ")?
        .push_str('b', "more string")?
        .push('d', '!')?;
    Ok(monoid)
}

// Whether to squash, and a piece; a piece that is added; letters under `a` that are pushed after them; and what is
// printed then.
const SUMS: &[(bool, &str, &[(char, &str)], &str, &str)] = &[
    (true, "x", &[], "y", r#"a: "xy"; "#),
    (false, "x", &[('b', "yz")], "", r#"a: "x"; b: "yz"; "#),
    (true, "x", &[('a', "y")], "", r#"a: "x"; a: "y"; "#),
    (true, "x", &[('a', "y")], "z", r#"a: "x"; a: "yz"; "#),
];

fn summed(
    out: Global,
    squash: bool,
    text: &str,
    added: &[(char, &str)],
    letters: &str,
) -> Result<FreeMonoid<char>, AllocError> {
    let mut monoid = FreeMonoid::new(out);
    monoid.squash = squash;
    monoid.push_str('a', text)?;
    let mut other = FreeMonoid::new(out);
    for &(label, text) in added {
        other.push_str(label, text)?;
    }
    let mut sum = monoid.add(&other)?;
    for letter in letters.chars() {
        sum.push('a', letter)?;
    }
    Ok(sum)
}

#[test]
fn labelled_texts_are_put_and_added(rt: HostRuntime) {
    let first = chained(rt.alloc()).expect(&rt, "a monoid");
    let want = r#"a: "string "; b: "more string"; d: "!"; "#;
    assert!(rt; is_printed(&rt, rt.alloc(), first, want));
    for &(squash, text, added, letters, want) in SUMS {
        let sum = summed(rt.alloc(), squash, text, added, letters).expect(&rt, "a sum");
        assert!(rt; sum.squash == squash, "{want}");
        assert!(rt; is_printed(&rt, rt.alloc(), sum, want), "{want}");
    }
}
