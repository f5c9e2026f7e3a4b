//! What `Debug` shows of lists and of texts of environment variables, what errors say, all forms at once, and title
//! lines.
use crate::help::calls::{Call, list_of};
use crate::help::pages_calls::PageCall;
use crate::help::refusals::given;
use crate::help::trees::{BARE, info, tree};
use bpaf_help::item::NoName;
use bpaf_help::meta::Meta;
use bpaf_help::meta_help::{EnvTexts, HelpError};
use bpaf_help::pages::{ManualTitle, Section};
use std::alloc::{AllocError, Global};
use std::fmt::Write;
use std::process::Abort;

// Texts without a name, and with two.
fn env_texts(rt: &impl Abort, out: Global) -> String {
    let mut shown = String::new(out);
    let mut texts = EnvTexts::new(out);
    write!(shown, "{texts:?} ").expect(rt, "a text");
    texts.insert("B", "'x'").expect(rt, "a text");
    texts.insert("A", "'y'").expect(rt, "a text");
    write!(shown, "{texts:?}").expect(rt, "a text");
    drop(texts);
    shown
}

#[test]
fn env_texts_show_what_they_hold(rt: HostRuntime) {
    let shown = env_texts(&rt, rt.alloc());
    assert!(rt; shown.as_str() == r#"{} {"A": "'y'", "B": "'x'"}"#);
    drop(shown);
}

fn list(rt: &impl Abort, out: Global) -> String {
    let tree = tree(rt, out, "X");
    let list = list_of(rt, out, &tree);
    let shown = format!(in out; "{list:?}");
    drop(list);
    drop(tree);
    shown.expect(rt, "a text")
}

#[test]
fn lists_show_their_entries(rt: HostRuntime) {
    let shown = list(&rt, rt.alloc());
    assert!(rt;
        shown.as_str() == r#"[Positional { metavar: Metavar("X"), help: Some([Text("h", Text)]) }]"#
    );
    drop(shown);
}

fn errors(rt: &impl Abort, out: Global) -> String {
    let tree = tree(rt, out, "X");
    let item = tree.first_item().expect(rt, "an item");
    let (refused, misplaced): (HelpError<'_>, HelpError<'_>) = (
        HelpError::Memory(AllocError),
        HelpError::Misplaced(item),
    );
    let said = format!(in out; "{NoName}, {refused}, {misplaced}");
    drop(tree);
    said.expect(rt, "a text")
}

#[test]
fn errors_say_what_is_wrong(rt: HostRuntime) {
    let said = errors(&rt, rt.alloc());
    assert!(rt; said.as_str() == "no name, no memory, misplaced item");
    drop(said);
}

// All forms of a description and of a flag, in parts.
const FORMS: &[&str] = &[
    r#"Headline { console: "Prints\nthings", html: "Prints things", "#,
    r#"roff: ".ie \\n(.g .ds Aq \\(aq\n.el .ds Aq '\n.SH d\n\\fRPrints things\\fP", "#,
    r#"manual: ".ie \\n(.g .ds Aq \\(aq\n.el .ds Aq '\n.TH app 6 - V \"\"\n"#,
    r#".SH NAME\n\\fRapp \\- \\fP\\fRPrints things\\fP\n.SH SYNOPSIS\n\\fBapp\\fP\\fR \\fP\\fB\\-a\\fP\n"#,
    r#".PP\n.SS AVAILABLE\\ OPTIONS:\n.TP\n\\fB\\-a\\fP\n\\fRA\\fP\n.PP\n", "#,
    r#"normal: Item(Flag { name: Short('a'), shorts: ['a'], env: None, help: Some([Text("A", Text)]) }) }"#,
];

fn is_joined(text: &str, parts: &[&str]) -> bool {
    let mut rest = text;
    for part in parts {
        match rest.strip_prefix(*part) {
            Some(after) => rest = after,
            None => return false,
        }
    }
    rest.is_empty()
}

#[test]
fn all_forms_of_a_document_and_a_tree(rt: HostRuntime) {
    let shown = given(&rt, rt.alloc(), "a", Call::Page(PageCall::Forms));
    assert!(rt; is_joined(&shown, FORMS));
    drop(shown);
}

// What stands before and after the words of a title line, in a manual page of nothing.
const BEFORE: &str = ".ie \\n(.g .ds Aq \\(aq\n.el .ds Aq '\n.TH a\\ b\\\\ ";

const AFTER: &str = "\n.SH SYNOPSIS\n\\fBa b\\\\\\fP\\fR \\fP";

fn titles(rt: &impl Abort, out: Global, words: ManualTitle<'_>, want: &str) -> bool {
    let info = info(rt, out, BARE);
    let page = words
        .page(out, "a b\\", &Meta::Skip, &info)
        .expect(rt, "a page");
    drop(info);
    let is_that = match page.as_str().strip_prefix(BEFORE) {
        Some(rest) => rest.strip_suffix(AFTER) == Some(want),
        None => false,
    };
    drop(page);
    is_that
}

#[test]
fn a_title_line(rt: HostRuntime) {
    let custom = ManualTitle::new(Section::Custom("3\"x"));
    assert!(rt; titles(&rt, rt.alloc(), custom, "3\"x - - \"\""));
    let titled = custom.vendor("").title("T\n");
    assert!(rt; titles(&rt, rt.alloc(), titled, "3\"x - \"\" T\\ "));
    let dated = custom.title("T").date("May 1").vendor("V 2");
    assert!(rt; titles(&rt, rt.alloc(), dated, "3\"x May\\ 1 V\\ 2 T"));
    let game = ManualTitle::new(Section::Game).date("D");
    assert!(rt; titles(&rt, rt.alloc(), game, "6 D - \"\""));
}
