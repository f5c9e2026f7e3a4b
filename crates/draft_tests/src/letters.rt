//! What a terminal shows: each row is a text and its letters.
use bumpalo::Bump;
use shown_letters::shown_letters;
use std::alloc::Global;
use std::process::Abort;

const ROWS: [(&str, &str); 22] = [
    ("", ""),
    ("plain\n\ttext é\n", "plain\n\ttext é\n"),
    // colours, a link, a title of the window
    (
        "\u{1b}[1m-v\u{1b}[0m, \u{1b}[38;5;2m--loud\u{1b}[m",
        "-v, --loud",
    ),
    (
        "\u{1b}]8;;http://x.org\u{1b}\\here\u{1b}]8;;\u{1b}\\.",
        "here.",
    ),
    ("\u{1b}]0;title\u{7}text", "text"),
    // as C1 controls
    ("\u{9b}1mbold\u{9b}m \u{9d}0;t\u{9c}x", "bold x"),
    // other escapes: a set of letters, a reset, a string
    ("\u{1b}(Bword\u{1b}c \u{1b}Pq#0\u{1b}\\z", "word z"),
    // what is cut off or broken
    ("a\u{1b}", "a"),
    ("a\u{1b}[1", "a"),
    ("a\u{1b}\nb", "a\nb"),
    ("a\u{1b}[1\nb", "a\nb"),
    ("a\u{1b}]0;t\nb", "a\nb"),
    ("a\u{1b}\u{1b}[1mb", "ab"),
    // struck over
    ("N\u{8}NA\u{8}AM\u{8}ME\u{8}E", "NAME"),
    ("_\u{8}f_\u{8}i_\u{8}l_\u{8}e", "file"),
    ("ab\u{8}\u{8}c", "cb"),
    ("ab\u{8}", "ab"),
    ("a\n\u{8}\u{8}b", "a\nb"),
    ("é\u{8}éü\u{8}ü", "éü"),
    // the start of the line
    ("one\r\ntwo\r\n", "one\ntwo\n"),
    ("10%\r100%\rdone", "done"),
    ("a\u{0}b\u{7}c\u{7f}d\u{b}e\u{c}f", "abcdef"),
];

fn is_shown(rt: &impl Abort, out: Global, row: (&str, &str)) -> bool {
    let (text, letters) = row;
    shown_letters(out, text).expect(rt, "letters").as_str() == letters
}

#[test]
fn letters_are_those_of_a_terminal(rt: HostRuntime) {
    for row in ROWS {
        assert!(rt; is_shown(&rt, rt.alloc(), row));
    }
}

// How many bytes an arena has: more than the letters of the text take.
const BYTES: usize = 4096;

const TEXT: &str = "\u{1b}[1mone\u{1b}[m\rtwo\u{8}\u{8}to and more that takes some room\n";

const LETTERS: &str = "tto and more that takes some room\n";

// Whether the letters are there in that much room. None where a growth is refused.
fn is_made_in(rt: &impl Abort, out: Global, room: usize) -> Option<bool> {
    let arena = Bump::try_with_capacity(out, BYTES).expect(rt, "an arena");
    arena.set_allocation_limit(Some(0));
    let taken = arena.chunk_capacity().saturating_sub(room);
    let _rest: Vec<u8, &Bump> = Vec::with_capacity(&arena, taken).expect(
        rt,
        "the rest of an arena",
    );
    let letters = shown_letters(&arena, TEXT).ok()?;
    Some(letters.as_str() == LETTERS)
}

// Whether they are there in some room, and not before with less of it.
fn is_made_with_more(rt: &impl Abort, out: Global) -> bool {
    for room in 0..BYTES {
        if let Some(is_that) = is_made_in(rt, out, room) {
            return is_that && room > 0;
        }
    }
    false
}

#[test]
fn letters_are_made_with_more_room(rt: HostRuntime) {
    assert!(rt; is_made_with_more(&rt, rt.alloc()));
}
