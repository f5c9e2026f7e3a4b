//! Labels that are cloned to another place in memory: of a `String` a clone is equal, and no more.
use bpaf_roff::monoid::FreeMonoid;
use std::alloc::Global;
use std::fmt::Write;
use std::process::Abort;

fn pair(rt: &impl Abort, out: Global, label: &str, text: &str) -> FreeMonoid<String> {
    let label = String::from_str(out, label).expect(rt, "a label");
    let mut monoid = FreeMonoid::new(out);
    monoid.append_str(label, text).expect(rt, "a piece");
    monoid
}

// Whether a monoid shows each piece as its label, a colon, its text and a blank.
fn shows(rt: &impl Abort, out: Global, monoid: &FreeMonoid<String>, want: &str) -> bool {
    let mut shown = String::new(out);
    for (label, text) in monoid {
        write!(shown, "{label}:{text} ").expect(rt, "a text");
    }
    let is_that = shown.as_str() == want;
    drop(shown);
    is_that
}

fn sum(rt: &impl Abort, out: Global) -> FreeMonoid<String> {
    let left = pair(rt, out, "first", "x");
    let right = pair(rt, out, "second", "yz");
    let sum = left.add(&right).expect(rt, "a sum");
    drop(right);
    sum
}

#[test]
fn sums_monoids_with_labels_of_text(rt: HostRuntime) {
    let sum = sum(&rt, rt.alloc());
    let copy = sum.clone().expect(&rt, "a copy");
    let want = "first:x second:yz ";
    assert!(rt; shows(&rt, rt.alloc(), &sum, want));
    assert!(rt; shows(&rt, rt.alloc(), &copy, want));
    assert!(rt; copy == sum);
    drop(copy);
    drop(sum);
}
