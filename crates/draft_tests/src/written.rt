//! Drafts: each row is what a program printed, and the draft of it.
use bumpalo::Bump;
use drafts::{DraftError, draft};
use std::alloc::{Allocator, Global};
use std::process::Abort;

const ROWS: &[(&str, &str)] = &[
    // a text before the usage, forms, and a usual title
    (
        "Cuts lines.\n\nUsage: /bin/cut [-b LIST]\n            [FILE]...\n  or:  cut --help\n\nOptions:\n  -b, --bytes=LIST   select bytes\n                     of each line\n      --only[=N]     the rest\n",
        "name = \"cut\"\nabout = \"Cuts lines.\"\nusage = \"\"\"\n/bin/cut [-b LIST] [FILE]...\ncut --help\"\"\"\n\n# Options:\n\n[[option]]\nshort = \"b\"\nlong = \"bytes\"\nvalue = \"LIST\"\nhelp = \"\"\"\nselect bytes\nof each line\"\"\"\n\n[[option]]\nsyntax = \"--only[=N]\"\nhelp = \"the rest\"\n\n[[option]]\nlong = \"help\"\n",
    ),
    // a text next to the usage, one before the entries, and one below them
    (
        "usage: a\nOne.\n\nTwo \"\" \\.\n -x  more\n\nThree.\n\n  a   b\n",
        "name = \"a\"\nabout = \"One.\"\nusage = \"a\"\nheader = \"Two \\\"\\\" \\\\.\"\nfooter = \"\"\"\nThree.\n\n    a   b\"\"\"\n\n[[option]]\nshort = \"x\"\nhelp = \"more\"\n",
    ),
    // a group with commands, one of them twice, and a topic
    (
        "usage: a\n\nMain commands:\n  go (g)   run\n  g        again\n\nNotes:\n  See \"a\".\n",
        "name = \"a\"\nusage = \"a\"\n\n[[group]]\ntitle = \"Main commands\"\n\n[[group.command]]\nname = \"go\"\naliases = [\"g\"]\nhelp = \"run\"\n# left out:   g        again\n\n[[topic]]\ntitle = \"Notes\"\ntext = \"See \\\"a\\\".\"\n",
    ),
    // a group without members
    (
        "usage: a\n\nEmpty:\n  -x\u{200b}  unseen\n",
        "name = \"a\"\nusage = \"a\"\n# left out: Empty:\n# left out:   -x\u{200b}  unseen\n",
    ),
    // positional values
    (
        "usage: a\n\npositional arguments:\n  <file>...  some files\n",
        "name = \"a\"\nusage = \"a\"\n\n# positional arguments:\n\n[[positional]]\nvalue = \"file\"\nhelp = \"some files\"\nrequired = false\nrepeated = true\n",
    ),
    // some options on a line, and others only in the usage
    (
        "usage: a [-z] [-t N]\n  -t N -far\n  -z -y  last\n",
        "name = \"a\"\nusage = \"a [-z] [-t N]\"\n\n[[option]]\nshort = \"t\"\nvalue = \"N\"\n\n[[option]]\nsyntax = \"-far\"\n\n[[option]]\nshort = \"z\"\n\n[[option]]\nshort = \"y\"\nhelp = \"last\"\n",
    ),
    (
        "usage: a [-b] [--far <x>] [-b]\n\nText.\n",
        "name = \"a\"\nabout = \"Text.\"\nusage = \"a [-b] [--far <x>] [-b]\"\n\n[[option]]\nshort = \"b\"\n\n[[option]]\nlong = \"far\"\nvalue = \"x\"\n",
    ),
    // values as they stand
    (
        "usage: a\n  -P <MIN> [MAX]  from\n  -j[N], --jobs[=N]\n  --in FILE ...  read\n  --all {a,b}\n  -c, -C, --set K=V\n  -s=X|Y, -S\n",
        "name = \"a\"\nusage = \"a\"\n\n[[option]]\nsyntax = \"-P <MIN> [MAX]\"\nhelp = \"from\"\n\n[[option]]\nsyntax = \"-j, --jobs[=N]\"\n\n[[option]]\nsyntax = \"--in FILE ...\"\nhelp = \"read\"\n\n[[option]]\nsyntax = \"--all {a,b}\"\n\n[[option]]\nsyntax = \"-c, -C, --set K=V\"\n\n[[option]]\nsyntax = \"-s, -S=<X|Y>\"\n",
    ),
    // the usage of a program in Go, and letters that are a name
    (
        "Usage of ./tool:\n  -host NAME\n\tthe host\nusage: tool [-host NAME]\n",
        "name = \"tool\"\nusage = \"\"\"\n./tool\ntool [-host NAME]\"\"\"\n\n[[option]]\nsyntax = \"-host NAME\"\nhelp = \"the host\"\n",
    ),
    // a word in parentheses that is not a name
    (
        "usage: a\n\nCommands:\n  go (g)  run\n  list (default)  show\n",
        "name = \"a\"\nusage = \"a\"\n\n# Commands:\n\n[[command]]\nname = \"go\"\naliases = [\"g\"]\nhelp = \"run\"\n\n[[command]]\n# left out: list (default)\nname = \"list\"\nhelp = \"show\"\n",
    ),
    // other names in parentheses
    (
        "usage: a\n\nCommands:\n  send (put)        Send a file\n  stop (halt, end)  Stop it\n",
        "name = \"a\"\nusage = \"a\"\n\n# Commands:\n\n[[command]]\nname = \"send\"\naliases = [\"put\"]\nhelp = \"Send a file\"\n\n[[command]]\nname = \"stop\"\naliases = [\"halt\", \"end\"]\nhelp = \"Stop it\"\n",
    ),
    // a sentence, a text at the left edge below a topic, and letters of options in another order
    (
        "usage: a [-yx]\n\nMandatory arguments are mandatory.\n  -x  more\n  -y, --at=<k>[,..]  place\n\nExit status:\n 0  if OK,\n\nSee more.\n",
        "name = \"a\"\nusage = \"a [-yx]\"\nheader = \"Mandatory arguments are mandatory.\"\nfooter = \"See more.\"\n\n[[option]]\nshort = \"x\"\nhelp = \"more\"\n\n[[option]]\nsyntax = \"-y, --at=<k>[,..]\"\nhelp = \"place\"\n\n[[topic]]\ntitle = \"Exit status\"\ntext = \"\"\"\n    0  if OK,\"\"\"\n",
    ),
    // commands below a choice of them, under any title
    (
        "usage: a\n\noptions:\n  -h  help\n\nActions:\n  {go,stop}  what\n    go    start\n    stop  end\n",
        "name = \"a\"\nusage = \"a\"\n\n# options:\n\n[[option]]\nshort = \"h\"\nhelp = \"help\"\n\n[[group]]\ntitle = \"Actions\"\n# left out:   {go,stop}  what\n\n[[group.command]]\nname = \"go\"\nhelp = \"start\"\n\n[[group.command]]\nname = \"stop\"\nhelp = \"end\"\n",
    ),
    // a choice of commands that are written above, and a topic that begins with a backquote
    (
        "usage: a\n\nCommands:\n  go  run\n\nActions:\n  {go}  what\n    go    again\n\nNotes:\n  `a` is.\n",
        "name = \"a\"\nusage = \"a\"\n\n# Commands:\n\n[[command]]\nname = \"go\"\nhelp = \"run\"\n# left out: Actions:\n# left out:   {go}  what\n# left out:     go    again\n\n[[topic]]\ntitle = \"Notes\"\ntext = \"`a` is.\"\n",
    ),
    // a name that stands twice on a line, and some that entries above have
    (
        "usage: a\n  -x, --far, -x  more\n  -y  less\n  -y n=N, --near=N  near\n  -y  again\n  -z -y  last\n",
        "name = \"a\"\nusage = \"a\"\n\n[[option]]\n# left out: -x, --far, -x\nshort = \"x\"\nlong = \"far\"\nhelp = \"more\"\n\n[[option]]\nshort = \"y\"\nhelp = \"less\"\n\n[[option]]\n# left out: -y n=N, --near=N\nlong = \"near\"\nvalue = \"N\"\nhelp = \"near\"\n# left out:   -y  again\n# left out:   -z -y  last\n",
    ),
    // lines of prose that end early, and a paragraph
    (
        "usage: a\nShort.\nExample: a -x one two\n\nA paragraph whose first line is as long as lines of a help text may be\nwraps.\n\n -x  more\n",
        "name = \"a\"\nabout = \"\"\"\nShort.\n Example: a -x one two\"\"\"\nusage = \"a\"\nheader = \"\"\"\nA paragraph whose first line is as long as lines of a help text may be\nwraps.\"\"\"\n\n[[option]]\nshort = \"x\"\nhelp = \"more\"\n",
    ),
    // letters that stand together
    (
        "usage: a [-bC4] [-Cb] [-bC]\n",
        "name = \"a\"\nusage = \"a [-bC4] [-Cb] [-bC]\"\n\n[[option]]\nsyntax = \"-bC4\"\n\n[[option]]\nsyntax = \"-Cb\"\n\n[[option]]\nshort = \"b\"\n\n[[option]]\nshort = \"C\"\n",
    ),
    // a title that is a sentence, and a line that leads to what follows
    (
        "usage: a\nThese are all:\n\nAll are short.\n  -x  more\n",
        "name = \"a\"\nusage = \"a\"\nheader = \"\"\"\nThese are all:\n\nAll are short.\"\"\"\n\n[[option]]\nshort = \"x\"\nhelp = \"more\"\n",
    ),
    // a syntax
    (
        "usage: a\n  -q, --[no-]quiet   say less\n  -std=<x>\n",
        "name = \"a\"\nusage = \"a\"\n\n[[option]]\nsyntax = \"-q, --[no-]quiet\"\nhelp = \"say less\"\n\n[[option]]\nsyntax = \"-std=<x>\"\n",
    ),
    // notes at the end of helps, also over the end of a line; a flag has no default
    (
        "usage: a\n  --in FILE  read [default: x] [env: IN=y]\n  --as KIND  kind [possible\n             values: b, c]\n  -q  quiet (default: no)\n  --of N  count (default \"9\")\n  --by N  (default 9) so\n  --up N  (default 9)\n",
        "name = \"a\"\nusage = \"a\"\n\n[[option]]\nlong = \"in\"\nvalue = \"FILE\"\nhelp = \"read\"\ndefault = \"x\"\nenv = \"IN\"\n\n[[option]]\nlong = \"as\"\nvalue = \"KIND\"\nhelp = \"kind\"\nvalues = [\"b\", \"c\"]\n\n[[option]]\nshort = \"q\"\nhelp = \"quiet (default: no)\"\n\n[[option]]\nlong = \"of\"\nvalue = \"N\"\nhelp = \"count\"\ndefault = \"9\"\n\n[[option]]\nlong = \"by\"\nvalue = \"N\"\nhelp = \"(default 9) so\"\n\n[[option]]\nlong = \"up\"\nvalue = \"N\"\ndefault = \"9\"\n",
    ),
    // notes that an entry may not have, or twice, stay in its help
    (
        "usage: a\n  --in N  one [default: 1] [default: 2]\n  -v  two [env: V]\n\ncommands:\n  go  three [env: G]\n\narguments:\n  FILE  four [default: 4]\n  DIR   five [env: D]\n",
        "name = \"a\"\nusage = \"a\"\n\n[[option]]\nlong = \"in\"\nvalue = \"N\"\nhelp = \"one [default: 1] [default: 2]\"\n\n[[option]]\nshort = \"v\"\nhelp = \"two\"\nenv = \"V\"\n\n# commands:\n\n[[command]]\nname = \"go\"\nhelp = \"three [env: G]\"\n\n# arguments:\n\n[[positional]]\nvalue = \"FILE\"\nhelp = \"four\"\ndefault = \"4\"\nrequired = false\n\n[[positional]]\nvalue = \"DIR\"\nhelp = \"five [env: D]\"\nrequired = false\n",
    ),
    // a value goes with its name, and letters in brackets are not a negation
    (
        "usage: a\n  --at N  where\n  -p, --at=there  place\n  --[dis]able  more\n  --able  less\n",
        "name = \"a\"\nusage = \"a\"\n\n[[option]]\nlong = \"at\"\nvalue = \"N\"\nhelp = \"where\"\n\n[[option]]\n# left out: -p, --at=there\nshort = \"p\"\nhelp = \"place\"\n\n[[option]]\nsyntax = \"--[dis]able\"\nhelp = \"more\"\n\n[[option]]\nlong = \"able\"\nhelp = \"less\"\n",
    ),
    // values in a usage, one of them unseen
    (
        "usage: a [-C <path>] [--color[=WHEN]] [-x | -y to] [-z \u{200b}] -ab N\n",
        "name = \"a\"\nusage = \"a [-C <path>] [--color[=WHEN]] [-x | -y to] [-z \u{200b}] -ab N\"\n\n[[option]]\nshort = \"C\"\nvalue = \"path\"\n\n[[option]]\nsyntax = \"--color[=WHEN]\"\n\n[[option]]\nshort = \"x\"\n\n[[option]]\nshort = \"y\"\nvalue = \"to\"\n\n[[option]]\nshort = \"z\"\n\n[[option]]\nshort = \"a\"\n\n[[option]]\nshort = \"b\"\n",
    ),
    // a module of Python, a name with and without a value, and a range
    (
        "usage: python3 -m a [-x N]\n  --color, --color=WHEN  when\n  --pre <p>,--pre=<p>\n  -0 ... -9  level\n",
        "name = \"python3\"\nusage = \"python3 -m a [-x N]\"\n\n[[option]]\nsyntax = \"--color[=WHEN]\"\nhelp = \"when\"\n\n[[option]]\n# left out: --pre <p>,--pre=<p>\nlong = \"pre\"\nvalue = \"p\"\n\n[[option]]\nsyntax = \"-0 ... -9\"\nhelp = \"level\"\n\n[[option]]\nshort = \"x\"\nvalue = \"N\"\n",
    ),
    // a title with an empty line above its options, and options as they are typed
    (
        "usage: a\nText.\nOrder options:\n\n  -x  more\n\nIt is:\n--format=gnu -b20\n",
        "name = \"a\"\nabout = \"Text.\"\nusage = \"a\"\n\n[[group]]\ntitle = \"Order options\"\n\n[[group.option]]\nshort = \"x\"\nhelp = \"more\"\n\n[[topic]]\ntitle = \"It is\"\ntext = \"\"\"\n    --format=gnu -b20\"\"\"\n",
    ),
];

fn is_drafted(out: Global, row: &(&str, &str)) -> bool {
    is_that(out, row.0, row.1) == Some(true)
}

#[test]
fn drafts_are_made(rt: HostRuntime) {
    for row in ROWS {
        assert!(rt; is_drafted(rt.alloc(), row));
    }
}

fn has_no_name(out: Global, printed: &str) -> bool {
    match draft(out, None, printed) {
        Err(DraftError::NoName) => true,
        _ => false,
    }
}

fn has_no_name_but(out: Global, given: &str, printed: &str) -> bool {
    match draft(out, Some(given), printed) {
        Err(DraftError::NoName) => true,
        _ => false,
    }
}

#[test]
fn a_name_is_given_or_in_a_usage(rt: HostRuntime) {
    assert!(rt; has_no_name(rt.alloc(), "-x  more\n"));
    assert!(rt; has_no_name(rt.alloc(), "usage: -x\n"));
    assert!(rt; has_no_name_but(rt.alloc(), "", "usage: a\n"));
    assert!(rt; has_no_name_but(rt.alloc(), "-b", "usage: a\n"));
    match draft(rt.alloc(), Some("b"), "usage: a\n") {
        Ok(text) => assert!(rt; text.as_str() == "name = \"b\"\nusage = \"a\"\n"),
        Err(_) => assert!(rt; false),
    }
}

// How many bytes an arena has: more than the draft takes.
const BYTES: usize = 65536;

// Whether the draft is what is wanted. None where a growth is refused.
fn is_that<A: Allocator + Copy>(alloc: A, printed: &str, wanted: &str) -> Option<bool> {
    match draft(alloc, None, printed) {
        Ok(text) => Some(text.as_str() == wanted),
        Err(DraftError::NoName) => Some(false),
        Err(DraftError::Memory(_)) => None,
    }
}

// Whether it is there in that much room. None where a growth is refused.
fn is_made_in(
    rt: &impl Abort,
    out: Global,
    printed: &str,
    wanted: &str,
    room: usize,
) -> Option<bool> {
    let arena = Bump::try_with_capacity(out, BYTES).expect(rt, "an arena");
    arena.set_allocation_limit(Some(0));
    let taken = arena.chunk_capacity().saturating_sub(room);
    let _rest: Vec<u8, &Bump> = Vec::with_capacity(&arena, taken).expect(
        rt,
        "the rest of an arena",
    );
    is_that(&arena, printed, wanted)
}

// Whether it is there in some room, and not before with less of it.
fn is_made_with_more(rt: &impl Abort, out: Global, row: &(&str, &str)) -> bool {
    for step in 0..4096 {
        if let Some(is_that) = is_made_in(rt, out, row.0, row.1, step * 8) {
            return is_that && step > 0;
        }
    }
    false
}

// Whether each second row is, from the first or from the second on: all of them take a test too long.
fn are_made_with_more(rt: &impl Abort, out: Global, is_odd: bool) -> bool {
    for (index, row) in ROWS.iter().enumerate() {
        if (index % 2 == 1) == is_odd && !is_made_with_more(rt, out, row) {
            return false;
        }
    }
    true
}

#[test]
fn drafts_are_made_with_more_room(rt: HostRuntime) {
    assert!(rt; are_made_with_more(&rt, rt.alloc(), false));
}

#[test]
fn others_are_made_with_more_room(rt: HostRuntime) {
    assert!(rt; are_made_with_more(&rt, rt.alloc(), true));
}
