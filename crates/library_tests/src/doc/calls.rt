//! What no stored run of `replay` shows of documents.
use bpaf_doc::buffer::{Block, Doc, Style, Token};
use std::alloc::{AllocError, Global};
use std::process::Abort;

pub fn document(rt: &impl Abort, out: Global, text: &str) -> Doc {
    Doc::from_text(out, text).expect(rt, "a document")
}

fn write_each(doc: &mut Doc) -> Result<(), AllocError> {
    doc.write_char('é', Style::Text)?;
    doc.literal("b")?;
    doc.emphasis("c")?;
    doc.invalid("d")?;
    doc.token(Token::BlockStart(Block::Mono))?;
    doc.token(Token::BlockEnd(Block::Mono))
}

fn written(rt: &impl Abort, out: Global) -> Doc {
    let first = String::from_str(out, "a").expect(rt, "a text");
    let mut doc = Doc::from_string(first).expect(rt, "a document");
    write_each(&mut doc).expect(rt, "its parts");
    doc
}

fn nested(rt: &impl Abort, out: Global) -> Doc {
    let mut doc = document(rt, out, "ab");
    let other = document(rt, out, "c");
    doc.doc(&other).expect(rt, "its parts");
    drop(other);
    doc
}

// Whether a document has these parts, how many they and their bytes are, and what stands at three places.
fn tells(
    rt: &impl Abort,
    out: Global,
    doc: Doc,
    [first, second, third]: [usize; 3],
    want: &str,
) -> bool {
    let told = format!(in out;
        "{doc:?} {} {} {:?} {:?} {:?}",
        doc.len(),
        doc.text_len(),
        doc.part_at(first),
        doc.part_at(second),
        doc.part_at(third)
    );
    let told = told.expect(rt, "a text");
    drop(doc);
    let is_that = told.as_str() == want;
    drop(told);
    is_that
}

// Writes a text and takes it back.
fn roll_back(doc: &mut Doc) -> Result<(), AllocError> {
    let before = doc.checkpoint();
    doc.text("b")?;
    doc.roll_back(before);
    Ok(())
}

fn rolls_back(rt: &impl Abort, out: Global) -> bool {
    let mut doc = document(rt, out, "a");
    roll_back(&mut doc).expect(rt, "a text");
    let want = document(rt, out, "a");
    let is_that = doc == want;
    drop(want);
    drop(doc);
    is_that
}

#[test]
fn documents_hold_what_is_written(rt: HostRuntime) {
    let want =
        r#"[Text("aé", Text), Text("b", Literal), Text("c", Emphasis), Text("d", Invalid), Start(Mono), End(Mono)] 6 6 Some(Text("b", Literal)) Some(End(Mono)) None"#;
    let each = written(&rt, rt.alloc());
    assert!(rt; tells(&rt, rt.alloc(), each, [1, 5, 6], want));
    let want =
        r#"[Text("ab", Text), Start(InlineBlock), Text("c", Text), End(InlineBlock)] 4 3 Some(Text("ab", Text)) Some(Text("c", Text)) None"#;
    let nested = nested(&rt, rt.alloc());
    assert!(rt; tells(&rt, rt.alloc(), nested, [0, 2, 4], want));
    assert!(rt; rolls_back(&rt, rt.alloc()));
}

// In order: a beginning comes first, then texts decide, then styles.
const IN_ORDER: &[&[(&str, Style)]] = &[
    &[],
    &[("", Style::Text)],
    &[("a", Style::Text)],
    &[("a", Style::Text), ("b", Style::Literal)],
    &[("a", Style::Emphasis)],
    &[("b", Style::Text)],
];

fn paired(rt: &impl Abort, out: Global, number: usize) -> Doc {
    let made = match IN_ORDER.get(number) {
        Some(pairs) => Doc::from_pairs(out, pairs),
        None => Err(AllocError),
    };
    made.expect(rt, "a document")
}

fn compare_as_numbers(rt: &impl Abort, out: Global, one: usize, other: usize) -> bool {
    let left = paired(rt, out, one);
    let right = paired(rt, out, other);
    let are_in_order = left.cmp(&right) == one.cmp(&other);
    let are_equal = left == right;
    drop(right);
    drop(left);
    are_in_order && are_equal == (one == other)
}

#[test]
fn documents_compare_as_their_parts(rt: HostRuntime) {
    for pair in 0..36usize {
        assert!(rt;
            compare_as_numbers(&rt, rt.alloc(), pair / 6, pair % 6),
            "{pair}"
        );
    }
}
