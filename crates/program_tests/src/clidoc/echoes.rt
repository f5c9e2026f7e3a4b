//! How lines show words of others.
use crate::stand_ins::lines::says;
use clidoc_engine::echoed::Echoed;
use clidoc_engine::faults::Fault;
use clidoc_engine::places::Place;
use shown_words::{Brief, Quoted};
use std::alloc::{AllocError, Global};

// Words, and after an arrow what a line shows of them.
const ROWS: &str = "greet.toml => greet.toml
 => 
a::b##c => a::b##c
:a => :a
: => \":\"
  : => \"  :\"
::error::x => \"::error::x\"
##vso[x]y => \"##vso[x]y\"
#a => #a
\t::x => \"\\t::x\"
  ##[x] => \"  ##[x]\"
a\u{1b}b => \"a\\u{1b}b\"";

// Whether `count` of the letter, with another one before them, are shown as only the last `left`.
fn are_cut(global: Global, letter: &str, count: usize, left: usize) -> Result<bool, AllocError> {
    let mut words = String::from_str(global, "a")?;
    words.push_str(&letter.repeat(global, count)?)?;
    let mut shown = String::from_str(global, "..")?;
    shown.push_str(&letter.repeat(global, left)?)?;
    Ok(says(&Echoed(words.as_str()), shown.as_str()))
}

// Whether of that many of the letter only these are shown, each like this, between these marks.
fn are_brief(
    global: Global,
    (letter, count): (&str, usize),
    (shown, left): (&str, usize),
    mark: &str,
) -> Result<bool, AllocError> {
    let words = letter.repeat(global, count)?;
    let mut wanted = String::from_str(global, mark)?;
    wanted.push_str(&shown.repeat(global, left)?)?;
    wanted.push_str(mark)?;
    wanted.push_str("..")?;
    Ok(says(&Brief(words.as_str()), wanted.as_str()))
}

#[test]
fn long_words_are_cut(rt: HostRuntime) {
    assert!(rt; are_brief(rt.alloc(), ("b", 61), ("b", 60), "") == Ok(true));
    assert!(rt; are_brief(rt.alloc(), ("\u{1f600}", 51), ("\u{1f600}", 50), "") == Ok(true));
    assert!(rt; are_brief(rt.alloc(), ("\u{ad}", 34), ("\\u{ad}", 33), "\"") == Ok(true));
    assert!(rt; are_brief(rt.alloc(), ("\u{e0fff}", 60), ("\\u{e0fff}", 22), "\"") == Ok(true));
}

#[test]
fn words_of_others_are_echoed(rt: HostRuntime) {
    for row in ROWS.split('\n') {
        let (words, shown) = row.split_once(" => ").unwrap_or((row, ""));
        assert!(rt; says(&Echoed(words), shown), "{row}");
    }
    assert!(rt; are_cut(rt.alloc(), "b", 200, 200) == Ok(true));
    assert!(rt; are_cut(rt.alloc(), "\u{e9}", 100, 100) == Ok(true));
    assert!(rt; are_cut(rt.alloc(), "\u{20ac}", 300, 66) == Ok(true));
    assert!(rt;
        says(
            &Quoted("it's \u{3164}\u{fffe}\n"),
            "\"it's \\u{3164}\\u{fffe}\\n\""
        )
    );
    assert!(rt; says(&Brief("\u{2800}\"\\"), "\"\\u{2800}\\\"\\\\\""));
    assert!(rt; says(&Brief("\u{1f600}\u{2010}"), "\u{1f600}\u{2010}"));
    let garbled = Fault::NotUtf8(Place { line: 2, column: 4 });
    assert!(rt; says(&garbled.told("::x"), "\"::x\":2:4: the text is not UTF-8"));
}
