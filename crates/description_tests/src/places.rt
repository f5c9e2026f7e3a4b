//! Where a path comes into a text in TOML.
use keyed::{Step, text_before};
use std::alloc::Global;

const TEXT: &str = "name = 'app'
[[option]]
long = 'first'
[[option]]
short = 's'
\"long\" = 'second'
[words]
usage = 'Use'
";

// A path, and how the text goes on where it comes to be; nothing where it does not.
const ROWS: &[(&[Step<'static>], &str)] = &[
    (&[Step::Key("name")], "name = "),
    (&[Step::Key("option")], "[[option]]\nlong = 'first'"),
    (&[Step::Key("option"), Step::Index(1)], "[[option]]\nshort"),
    (
        &[Step::Key("option"), Step::Index(1), Step::Key("long")],
        "\"long\" = 'second'",
    ),
    (&[Step::Key("words"), Step::Key("usage")], "usage = "),
    (&[Step::Key("words"), Step::Key("options")], ""),
    (&[Step::Key("option"), Step::Index(2)], ""),
];

fn goes_on(alloc: Global, path: &[Step<'_>], words: &str) -> bool {
    let Ok(found) = text_before(alloc, TEXT, path) else {
        return false;
    };
    let Some(front) = found else {
        return words.is_empty();
    };
    match TEXT.strip_prefix(front) {
        Some(rest) => !words.is_empty() && rest.strip_prefix(words).is_some(),
        None => false,
    }
}

#[test]
fn paths_have_their_places(rt: HostRuntime) {
    for &(path, words) in ROWS {
        assert!(rt; goes_on(rt.alloc(), path, words), "{words}");
    }
}
