//! Which lines of a help text are what: each row is the lines and their blocks, each with its kind and where it ends.
use bumpalo::Bump;
use help_blocks::{Block, Kind, blocks};
use std::alloc::Global;
use std::process::Abort;

const ROWS: [(&[&str], &[(Kind, usize)]); 19] = [
    (&[], &[]),
    // arguments of an option are not those of the program
    (
        &["Valid arguments for --style are:", "", "  plain", "  full"],
        &[(Kind::Title, 2), (Kind::Text, 4)],
    ),
    // options at two indents, and one in the help of another
    (
        &[
            "Usage: cut OPTION... [FILE]...",
            "  or:  cut --help",
            "Print parts of lines.",
            "",
            "  -b, --bytes=LIST   select bytes",
            "                     of each line",
            "                     -c is not here",
            "      --complement   the rest",
        ],
        &[
            (Kind::Usage, 2),
            (Kind::Text, 4),
            (Kind::Option, 7),
            (Kind::Option, 8),
        ],
    ),
    // options right below a usage, and in it
    (
        &["Usage: curl [options...] <url>", " -d, --data <data>  Post"],
        &[(Kind::Usage, 1), (Kind::Option, 2)],
    ),
    (
        &[
            "usage: ssh [-46]",
            "           [-b address]",
            "           --far",
        ],
        &[(Kind::Usage, 3)],
    ),
    // commands in braces
    (
        &[
            "positional arguments:",
            "  {go,stop}",
            "    go        start",
            "    stop",
            "                the end",
            "",
            "options:",
            "  -h, --help",
        ],
        &[
            (Kind::Title, 1),
            (Kind::Value, 2),
            (Kind::Command, 3),
            (Kind::Command, 6),
            (Kind::Title, 7),
            (Kind::Option, 8),
        ],
    ),
    // a list of commands, with one blank before a help
    (
        &[
            "Available Commands:",
            "  auto-update Update all",
            "  help        Help",
            "",
            "Use more.",
        ],
        &[
            (Kind::Title, 1),
            (Kind::Command, 2),
            (Kind::Command, 4),
            (Kind::Text, 5),
        ],
    ),
    // helps of many paragraphs
    (
        &[
            "Options:",
            "    -g <G>",
            "            Include.",
            "",
            "            --no-glob does not.",
            "",
            "        --deep",
        ],
        &[(Kind::Title, 1), (Kind::Option, 6), (Kind::Option, 7)],
    ),
    (
        &[
            "        --pre <X>",
            "            For each",
            "            --pre-glob is",
        ],
        &[(Kind::Option, 3)],
    ),
    // titles without a colon
    (
        &[
            "",
            "CORE COMMANDS",
            "  auth:  Log in",
            "",
            "LEARN MORE",
            "  Use it",
        ],
        &[
            (Kind::Text, 1),
            (Kind::Title, 2),
            (Kind::Command, 4),
            (Kind::Title, 5),
            (Kind::Text, 6),
        ],
    ),
    // positional values
    (
        &["Arguments:", "  [FILE]  What to read", "  DIR", "", "Text"],
        &[
            (Kind::Title, 1),
            (Kind::Value, 2),
            (Kind::Value, 4),
            (Kind::Text, 5),
        ],
    ),
    // examples and columns
    (
        &["Examples:", "  prog a b", "  prog c", "", "  $ prog"],
        &[(Kind::Title, 1), (Kind::Code, 4), (Kind::Code, 5)],
    ),
    (
        &[
            "The values:",
            "",
            "  none, off    never",
            "  all          always",
        ],
        &[(Kind::Title, 2), (Kind::Code, 4)],
    ),
    (
        &["A sentence.  Another one.", "a -b", "- c"],
        &[(Kind::Text, 3)],
    ),
    (
        &["one", "", "two", "USAGE: three"],
        &[(Kind::Text, 2), (Kind::Text, 3), (Kind::Usage, 4)],
    ),
    // an empty line between a title and its options, and the end of a text
    (
        &["All is.", "Ordering options:", "", "  -b"],
        &[(Kind::Text, 1), (Kind::Title, 3), (Kind::Option, 4)],
    ),
    (
        &["All is,", "and so on:", "", "  -c"],
        &[(Kind::Text, 3), (Kind::Option, 4)],
    ),
    // options as they are typed, and two names of one
    (
        &[
            "It is:",
            "--format=gnu -f- -b20",
            "--far=/a",
            "",
            "  -a",
            "--size=n, -s n",
            "--as=n -s n  help",
        ],
        &[
            (Kind::Title, 1),
            (Kind::Code, 4),
            (Kind::Option, 5),
            (Kind::Option, 6),
            (Kind::Option, 7),
        ],
    ),
    // tabulators
    (
        &["\t-x\tfirst", "\t\tmore", "text"],
        &[(Kind::Option, 2), (Kind::Text, 3)],
    ),
];

fn is_that(block: &Block, wanted: (Kind, usize)) -> bool {
    block.kind == wanted.0 && block.end == wanted.1
}

fn are_blocks(found: &[Block], wanted: &[(Kind, usize)]) -> bool {
    if found.len() != wanted.len() {
        return false;
    }
    for (block, row) in found.iter().zip(wanted) {
        if !is_that(block, *row) {
            return false;
        }
    }
    true
}

fn is_cut(rt: &impl Abort, out: Global, row: (&[&str], &[(Kind, usize)])) -> bool {
    let (lines, wanted) = row;
    let found = blocks(out, lines).expect(rt, "blocks");
    are_blocks(&found, wanted)
}

#[test]
fn lines_are_in_their_blocks(rt: HostRuntime) {
    for row in ROWS {
        assert!(rt; is_cut(&rt, rt.alloc(), row));
    }
}

// How many bytes an arena has: more than the blocks of the lines take.
const BYTES: usize = 4096;

const LINES: [&str; 9] = ["Usage: a", "one", "", "two", "", "three", "", "four", "-x"];

const BLOCKS: [(Kind, usize); 6] = [
    (Kind::Usage, 1),
    (Kind::Text, 3),
    (Kind::Text, 5),
    (Kind::Text, 7),
    (Kind::Text, 8),
    (Kind::Option, 9),
];

// Whether the blocks are there in that much room. None where a growth is refused.
fn is_made_in(rt: &impl Abort, out: Global, room: usize) -> Option<bool> {
    let arena = Bump::try_with_capacity(out, BYTES).expect(rt, "an arena");
    arena.set_allocation_limit(Some(0));
    let taken = arena.chunk_capacity().saturating_sub(room);
    let _rest: Vec<u8, &Bump> = Vec::with_capacity(&arena, taken).expect(
        rt,
        "the rest of an arena",
    );
    let found = blocks(&arena, &LINES).ok()?;
    Some(are_blocks(&found, &BLOCKS))
}

// Whether they are there in some room, and not before with less of it.
fn is_made_with_more(rt: &impl Abort, out: Global) -> bool {
    for room in 0..BYTES {
        if let Some(is_that) = is_made_in(rt, out, room) {
            return is_that && room > 0;
        }
    }
    false
}

#[test]
fn blocks_are_found_with_more_room(rt: HostRuntime) {
    assert!(rt; is_made_with_more(&rt, rt.alloc()));
}
