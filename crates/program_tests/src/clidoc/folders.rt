//! Runs that write all pages into a folder, which fails at each call, or holds what others put there.
use crate::engines::AMPLE;
use crate::programs::{ends_with, status_of};
use crate::stand_ins::desk::Desk;
use crate::stand_ins::folder::{Folder, Stands};
use crate::stand_ins::lines::says;
use crate::stand_ins::runs::Ends;
use clidoc_engine::all::make_files;
use clidoc_engine::files::{PageFile, check_names};
use clidoc_engine::room::Room;
use clidoc_engine::words::TitleGiven;
use linked_list_allocator::LocalHeap;
use std::alloc::{AllocError, Global};
use std::io::ErrorKind;
use std::process::ExitCode;
use watched::Watched;

const WORDS: &str = "clidoc|all|--into|out";

const INPUT: &[u8] = b"name = 'a'\n";

const MANUAL: &str = "write .TH a 1 \"\" \"\" \"\"\n.SH NAME\na\n.SH SYNOPSIS\n.SY a\n.YS\n";

const DATED_MANUAL: &str =
    "write .TH a 1 2026-11-28 \"Tide works\" \"\"\n.SH NAME\na\n.SH SYNOPSIS\n.SY a\n.YS\n";

const WEB: &str =
    "write <!DOCTYPE html><html lang=\"en\"><head><meta charset=\"utf-8\"><meta name=\"viewport\" content=\"width=device-width\"><title>a</title><style>html{color-scheme:light dark}body{font:1rem/1.5 sans-serif;max-width:50rem;margin:0 auto;padding:1rem;color:#1b1b1b;background:#fff;overflow-wrap:anywhere}h1,h2,h3{line-height:1.25;margin:1.5rem 0 .5rem}a{color:#0645ad}p,pre,ul,dl{margin:.5rem 0}ul ul{margin:0}pre,code,dt{font-family:ui-monospace,monospace;font-size:.875rem}pre{white-space:pre-wrap;padding:.5rem;background:#f2f2f2}pre code{display:inline-block;max-width:100%}nav>ul>li>ul{columns:15rem}nav li li{break-inside:avoid}nav a:not([href*=':::']){font-weight:bold}section+section,footer{margin-top:2rem;border-top:1px solid #949494}dt{margin-top:.5rem}dt a{text-decoration:none}dt a:hover{text-decoration:underline}dd{margin-left:2rem}dd p{margin:.25rem 0}h3:target,dt:target{background:#fff2c2}@media(max-width:40rem){dd,ul{margin-left:0;padding-left:0}ul{list-style-position:inside}}@media(prefers-color-scheme:dark){body{color:#e6e6e6;background:#161616}a{color:#8ab4f8}pre{background:#262626}h3:target,dt:target{background:#3d3300}}@media print{body{max-width:none;color:#000;background:#fff}a{color:#000}pre,h3:target,dt:target{background:none}pre{border:1px solid #949494;break-inside:avoid}h2,h3,dt{break-after:avoid}}</style></head><body><header><h1>a</h1></header><main><section id=\"a\"><h3>Usage</h3><pre>\n<code><strong>a</strong></code></pre></section></main></body></html>";

const DATED_WEB: &str =
    "write <!DOCTYPE html><html lang=\"en\"><head><meta charset=\"utf-8\"><meta name=\"viewport\" content=\"width=device-width\"><title>a</title><style>html{color-scheme:light dark}body{font:1rem/1.5 sans-serif;max-width:50rem;margin:0 auto;padding:1rem;color:#1b1b1b;background:#fff;overflow-wrap:anywhere}h1,h2,h3{line-height:1.25;margin:1.5rem 0 .5rem}a{color:#0645ad}p,pre,ul,dl{margin:.5rem 0}ul ul{margin:0}pre,code,dt{font-family:ui-monospace,monospace;font-size:.875rem}pre{white-space:pre-wrap;padding:.5rem;background:#f2f2f2}pre code{display:inline-block;max-width:100%}nav>ul>li>ul{columns:15rem}nav li li{break-inside:avoid}nav a:not([href*=':::']){font-weight:bold}section+section,footer{margin-top:2rem;border-top:1px solid #949494}dt{margin-top:.5rem}dt a{text-decoration:none}dt a:hover{text-decoration:underline}dd{margin-left:2rem}dd p{margin:.25rem 0}h3:target,dt:target{background:#fff2c2}@media(max-width:40rem){dd,ul{margin-left:0;padding-left:0}ul{list-style-position:inside}}@media(prefers-color-scheme:dark){body{color:#e6e6e6;background:#161616}a{color:#8ab4f8}pre{background:#262626}h3:target,dt:target{background:#3d3300}}@media print{body{max-width:none;color:#000;background:#fff}a{color:#000}pre,h3:target,dt:target{background:none}pre{border:1px solid #949494;break-inside:avoid}h2,h3,dt{break-after:avoid}}</style></head><body><header><h1>a</h1></header><main><section id=\"a\"><h3>Usage</h3><pre>\n<code><strong>a</strong></code></pre></section></main><footer><p>Tide works, 2026-11-28</p></footer></body></html>";

const MARKDOWN: &str = "write # a\n\n```\na\n```\n";

// The calls that write three files. Before a page is written what stands in its place is looked at.
const CALLS: &[&str] = &[
    "enter out",
    "list ./",
    "look a.1",
    "draw",
    "create .a.1.00000000.new",
    MANUAL,
    "keep file",
    "rename .a.1.00000000.new a.1",
    "look a.md",
    "draw",
    "create .a.md.01010101.new",
    MARKDOWN,
    "keep file",
    "rename .a.md.01010101.new a.md",
    "look a.html",
    "draw",
    "create .a.html.02020202.new",
    WEB,
    "keep file",
    "rename .a.html.02020202.new a.html",
    "open .",
    "keep folder",
];

// The same, where the name of the folder ends in a slash.
const SLASHED: &[&str] = &[
    "enter out/",
    "list ./",
    "look a.1",
    "draw",
    "create .a.1.00000000.new",
    MANUAL,
    "keep file",
    "rename .a.1.00000000.new a.1",
    "look a.md",
    "draw",
    "create .a.md.01010101.new",
    MARKDOWN,
    "keep file",
    "rename .a.md.01010101.new a.md",
    "look a.html",
    "draw",
    "create .a.html.02020202.new",
    WEB,
    "keep file",
    "rename .a.html.02020202.new a.html",
    "open .",
    "keep folder",
];

// The same, where the manual page and the HTML page have a date and a vendor.
const DATED: &[&str] = &[
    "enter out",
    "list ./",
    "look a.1",
    "draw",
    "create .a.1.00000000.new",
    DATED_MANUAL,
    "keep file",
    "rename .a.1.00000000.new a.1",
    "look a.md",
    "draw",
    "create .a.md.01010101.new",
    MARKDOWN,
    "keep file",
    "rename .a.md.01010101.new a.md",
    "look a.html",
    "draw",
    "create .a.html.02020202.new",
    DATED_WEB,
    "keep file",
    "rename .a.html.02020202.new a.html",
    "open .",
    "keep folder",
];

// The same, where a file stands in each place.
const REPLACING: &[&str] = &[
    "enter out",
    "list ./",
    "look a.1",
    "draw",
    "create .a.1.00000000.new",
    "mode",
    MANUAL,
    "keep file",
    "rename .a.1.00000000.new a.1",
    "look a.md",
    "draw",
    "create .a.md.01010101.new",
    "mode",
    MARKDOWN,
    "keep file",
    "rename .a.md.01010101.new a.md",
    "look a.html",
    "draw",
    "create .a.html.02020202.new",
    "mode",
    WEB,
    "keep file",
    "rename .a.html.02020202.new a.html",
    "open .",
    "keep folder",
];

// The calls after the first that creates a file, where another has one of this name.
const OTHER: &[&str] = &[
    "draw",
    "create .a.1.01010101.new",
    MANUAL,
    "keep file",
    "rename .a.1.01010101.new a.1",
    "look a.md",
    "draw",
    "create .a.md.02020202.new",
    MARKDOWN,
    "keep file",
    "rename .a.md.02020202.new a.md",
    "look a.html",
    "draw",
    "create .a.html.03030303.new",
    WEB,
    "keep file",
    "rename .a.html.03030303.new a.html",
    "open .",
    "keep folder",
];

// A call that fails, why, the calls after it, the status, and the line. A folder may not know how it is kept.
type Failing = (usize, ErrorKind, &'static [&'static str], u8, &'static str);

const WRITTEN: &str = "clidoc: wrote 3 files to out; see out/a.html";

const FULL: ErrorKind = ErrorKind::StorageFull;

// The names that were there before are kept too.
const KEEP: &[&str] = &["open .", "keep folder"];

const REMOVE_MANUAL: &[&str] = &["remove .a.1.00000000.new", "open .", "keep folder"];

const REMOVE_MARKDOWN: &[&str] = &["remove .a.md.01010101.new", "open .", "keep folder"];

const REMOVE_WEB: &[&str] = &["remove .a.html.02020202.new", "open .", "keep folder"];

const FAILING: &[Failing] = &[
    (
        0,
        ErrorKind::NotFound,
        &[],
        1,
        "clidoc: can't open out: no such folder",
    ),
    (
        0,
        ErrorKind::NotADirectory,
        &[],
        1,
        "clidoc: out is no folder",
    ),
    (
        0,
        ErrorKind::PermissionDenied,
        &[],
        1,
        "clidoc: can't open out: permission denied",
    ),
    (
        3,
        ErrorKind::Other,
        KEEP,
        1,
        "clidoc: can't write out/a.1: other error",
    ),
    (
        4,
        FULL,
        KEEP,
        1,
        "clidoc: can't write out/a.1: no storage space",
    ),
    (4, ErrorKind::AlreadyExists, OTHER, 0, WRITTEN),
    (
        5,
        FULL,
        REMOVE_MANUAL,
        1,
        "clidoc: can't write out/a.1: no storage space",
    ),
    (
        6,
        FULL,
        REMOVE_MANUAL,
        1,
        "clidoc: can't write out/a.1: no storage space",
    ),
    (
        7,
        FULL,
        REMOVE_MANUAL,
        1,
        "clidoc: can't write out/a.1: no storage space",
    ),
    (
        10,
        FULL,
        KEEP,
        1,
        "clidoc: can't write out/a.md: no storage space",
    ),
    (
        11,
        FULL,
        REMOVE_MARKDOWN,
        1,
        "clidoc: can't write out/a.md: no storage space",
    ),
    (
        12,
        FULL,
        REMOVE_MARKDOWN,
        1,
        "clidoc: can't write out/a.md: no storage space",
    ),
    (
        13,
        FULL,
        REMOVE_MARKDOWN,
        1,
        "clidoc: can't write out/a.md: no storage space",
    ),
    (
        16,
        FULL,
        KEEP,
        1,
        "clidoc: can't write out/a.html: no storage space",
    ),
    (
        17,
        FULL,
        REMOVE_WEB,
        1,
        "clidoc: can't write out/a.html: no storage space",
    ),
    (
        18,
        FULL,
        REMOVE_WEB,
        1,
        "clidoc: can't write out/a.html: no storage space",
    ),
    (
        19,
        FULL,
        REMOVE_WEB,
        1,
        "clidoc: can't write out/a.html: no storage space",
    ),
    (20, ErrorKind::PermissionDenied, &[], 0, WRITTEN),
    (
        21,
        FULL,
        &[],
        1,
        "clidoc: can't write out: no storage space",
    ),
    (21, ErrorKind::InvalidInput, &[], 0, WRITTEN),
    (21, ErrorKind::Unsupported, &[], 0, WRITTEN),
];

// Whether a run ends so, and made the calls on the folder that it should.
fn ends_so<'a>(
    global: Global,
    folder: &'a Folder,
    words: &'a str,
    input: &'a [u8],
    status: u8,
    line: &'a str,
) -> bool {
    let desk = Desk::new(global, words, Ends::new(input, b""), line).with_folder(folder);
    ends_with(global, &desk, status, 0, true) && folder.is_done()
}

fn writes_all(global: Global, folder: Folder, status: u8, line: &str) -> bool {
    ends_so(global, &folder, WORDS, INPUT, status, line)
}

// Whether the words write all into the folder by these calls.
fn words_write(global: Global, words: &str, calls: &'static [&'static str]) -> bool {
    ends_so(global, &Folder::new(calls), words, INPUT, 0, WRITTEN)
}

#[test]
fn pages_are_written_into_a_folder(rt: HostRuntime) {
    assert!(rt; writes_all(rt.alloc(), Folder::new(CALLS), 0, WRITTEN));
    assert!(rt; words_write(rt.alloc(), "clidoc|all|--into|out|-", CALLS));
    let line = "clidoc: wrote 3 files to out/; see out/a.html";
    let folder = Folder::new(SLASHED);
    assert!(rt;
        ends_so(
            rt.alloc(),
            &folder,
            "clidoc|all|--into|out/",
            INPUT,
            0,
            line
        )
    );
    let dated = "clidoc|--date=2026-11-28|all|--vendor|Tide works|--into|out";
    assert!(rt; words_write(rt.alloc(), dated, DATED));
    for &(call, kind, then, status, line) in FAILING {
        let folder = Folder::new(CALLS).failing(call, kind, then);
        assert!(rt;
            writes_all(rt.alloc(), folder, status, line),
            "{call} {kind:?}"
        );
    }
}

// What a failed call does not say of the folder or of a place in it changes nothing.
#[test]
fn what_is_not_told_changes_nothing(rt: HostRuntime) {
    for call in 1..3usize {
        let folder = Folder::new(CALLS).failing(
            call,
            ErrorKind::PermissionDenied,
            &CALLS[call + 1..],
        );
        assert!(rt; writes_all(rt.alloc(), folder, 0, WRITTEN), "{call}");
    }
}

// A link is not followed, and a file keeps its mode.
#[test]
fn what_stands_in_a_place_is_replaced(rt: HostRuntime) {
    let replacing = Folder::new(REPLACING).holding(Stands::File);
    assert!(rt; writes_all(rt.alloc(), replacing, 0, WRITTEN));
    for &stands in &[Stands::Link, Stands::Folder] {
        let folder = Folder::new(CALLS).holding(stands);
        assert!(rt; writes_all(rt.alloc(), folder, 0, WRITTEN));
    }
}

const LEFT: &[u8] =
    b"a.1\0.a.1.0123abcd.new\0.a.1.new\0.a.1.0123abc.new\0a.1.0123abcd.new\0.0123abcd.new\0.x\x1b.0123ABCD.new\0";

const LEFT_LINES: &str =
    "clidoc: out/.a.1.0123abcd.new is of a run that was stopped or goes onclidoc: out/\".x\\u{1b}.0123ABCD.new\" is of a run that was stopped or goes onclidoc: wrote 3 files to out; see out/a.html";

// Nothing that an earlier run left is touched.
#[test]
fn what_a_run_has_left_is_told(rt: HostRuntime) {
    let folder = Folder::new(CALLS).listing(LEFT);
    assert!(rt; writes_all(rt.alloc(), folder, 0, LEFT_LINES));
}

// Words, an input, and the line where no file is written. Nothing is read where the folder is not there, nor where the
// file is not.
const NOTHING: &[(&str, &[u8], &[&str], &str)] = &[
    (
        WORDS,
        b"lnog = 1\nlnog = 1\n",
        &["enter out"],
        "-:2:1: duplicate key",
    ),
    (
        WORDS,
        b"name = 'a'\n[[command]]\nname = 'b/c'\n",
        &["enter out"],
        "clidoc: file name a-b/c.1 holds a slash",
    ),
    (
        "clidoc|all|--into|out|--date=2026\u{9b}",
        INPUT,
        &[],
        "clidoc: no page: --date \"2026\\u{9b}\" holds a control character or a noncharacter",
    ),
    (
        "clidoc|all|--into|out|b.toml",
        INPUT,
        &[],
        "clidoc: can't open b.toml: no such file",
    ),
];

// Words, the bytes of the file that they name, and the lines.
const FILES: &[(&str, &[u8], &str)] = &[
    (
        "clidoc|full|my.toml",
        b"name = x",
        "my.toml:1:8: invalid value, expected a string, number, boolean, date-time, array or inline table; a text stands in quotes",
    ),
    (
        "clidoc|check|--|my.toml",
        b"name = ''\n\n[[option]]\nlong = 1",
        "my.toml:1:1: name is empty\nmy.toml:4:1: option 1: long is no text",
    ),
    (
        "clidoc|--strict|check|my.toml",
        b"name = 'a'\n\n[[option]]\nlong = 'b'\nhelp = ''",
        "my.toml:1:1: warning: no about says what the program does\nmy.toml:3:1: warning: no help says what the option does",
    ),
    (
        "clidoc|html|my.toml",
        b"name = 'a'\r\n# \xc3\xa9\xc3\xff",
        "my.toml:2:4: the text is not UTF-8",
    ),
    (
        "clidoc|full|my.toml",
        b"\n{\"name\": 1}",
        "my.toml:2:2: name is no text",
    ),
];

// The same of a file whose name ends in `.json`, and the calls on the folder.
const JSON_FILES: &[(&str, &[&str], &[u8], &str)] = &[
    (
        "clidoc|full|my.json",
        &["open my.json"],
        b"name = 'a'",
        "my.json:1:1: not a JSON object; { has to stand here",
    ),
    (
        "clidoc|check|my.json",
        &["open my.json"],
        b"\n",
        "my.json:2:1: not a JSON object; { has to stand here",
    ),
    (
        "clidoc|check|my.json",
        &["open my.json"],
        b"",
        "my.json: the input is empty",
    ),
    (
        "clidoc|all|--into|out|my.json",
        &["open my.json", "enter out"],
        b"# name = 'a'",
        "my.json:1:1: not a JSON object; { has to stand here",
    ),
    (
        "clidoc|man|my.json",
        &["open my.json"],
        b"{\"name\": \"a\", \"name\": \"b\"}",
        "my.json:1:15: this key is already in the object",
    ),
    (
        "clidoc|html|my.json",
        &["open my.json"],
        b"{\"name\": \"\xff\"}",
        "my.json:1:11: the text is not UTF-8",
    ),
    (
        "clidoc|--strict|check|my.json",
        &["open my.json"],
        b"{\"name\": \"a\", \"about\": \"Greets\",\r\n \"option\": [\n  {\"long\": \"b\"}]}",
        "my.json:3:3: warning: no help says what the option does",
    ),
];

fn json_file_is_told(
    global: Global,
    row: &(&str, &'static [&'static str], &'static [u8], &str),
) -> bool {
    let &(words, calls, bytes, line) = row;
    let folder = Folder::new(calls).with_file("my.json", bytes);
    ends_so(global, &folder, words, b"", 1, line)
}

// Whether a run on a file reports this of it, where it can be opened.
fn file_is_told(global: Global, words: &str, bytes: &'static [u8], line: &str) -> bool {
    let folder = Folder::new(&["open my.toml"]).with_file("my.toml", bytes);
    ends_so(global, &folder, words, b"", 1, line)
}

// Why it cannot be opened, and what is said.
const UNOPENED: &[(ErrorKind, &str)] = &[
    (
        ErrorKind::NotFound,
        "clidoc: can't open my.toml: no such file",
    ),
    (
        ErrorKind::PermissionDenied,
        "clidoc: can't open my.toml: permission denied",
    ),
    (
        ErrorKind::NotADirectory,
        "clidoc: can't open my.toml: not a directory",
    ),
];

#[test]
fn files_are_told_by_their_names(rt: HostRuntime) {
    for &(words, bytes, line) in FILES {
        assert!(rt; file_is_told(rt.alloc(), words, bytes, line), "{words}");
    }
    for row in JSON_FILES {
        assert!(rt; json_file_is_told(rt.alloc(), row), "{}", row.3);
    }
    let folder = Folder::new(&["open my.toml"]).with_file("my.toml", b"name = 'a'");
    let line = "my.toml:1:1: warning: no about says what the program does";
    assert!(rt; ends_so(rt.alloc(), &folder, "clidoc|check|my.toml", b"", 0, line));
    for &(kind, line) in UNOPENED {
        let folder = Folder::new(&["open my.toml"])
            .with_file("my.toml", b"")
            .failing(0, kind, &[]);
        assert!(rt;
            ends_so(rt.alloc(), &folder, "clidoc|full|my.toml", b"", 1, line),
            "{line}"
        );
    }
    let folder = Folder::new(&["open ."]);
    assert!(rt;
        ends_so(
            rt.alloc(),
            &folder,
            "clidoc|full|.",
            b"",
            1,
            "clidoc: . is a folder"
        )
    );
}

// Whether a growth is refused on that much memory, and no file written. None where it is done, or anything else comes.
fn is_without_memory(global: Global, budget: usize) -> Option<bool> {
    let Ok(heap) = LocalHeap::new(global, budget) else {
        return None;
    };
    let folder = Folder::new(CALLS);
    let line = "clidoc: no memory";
    let desk = Desk::new(global, WORDS, Ends::new(INPUT, b""), line).with_folder(&folder);
    let status = status_of(&heap, global, &desk);
    let is_said = status == ExitCode::from(1) && desk.has_printed(0, true);
    (is_said == folder.is_untouched()).then_some(is_said)
}

// Whether each budget refuses the first growth that does not fit it, and no file is written then.
fn writes_when_ample(global: Global) -> bool {
    for budget in 1..4096usize {
        let is_refused = is_without_memory(global, budget * 16);
        if is_refused != Some(true) {
            return is_refused == Some(false) && budget > 1;
        }
    }
    false
}

#[test]
fn a_fault_writes_no_file(rt: HostRuntime) {
    for &(words, input, calls, line) in NOTHING {
        let folder = Folder::new(calls);
        assert!(rt;
            ends_so(rt.alloc(), &folder, words, input, 1, line),
            "{line}"
        );
    }
    assert!(rt; writes_when_ample(rt.alloc()));
}

// How many files are made on that much memory. None where a growth is refused.
fn count_on(global: Global, budget: usize) -> Option<usize> {
    let Ok(heap) = LocalHeap::new(global, budget) else {
        return None;
    };
    let mut reader = Watched::new(INPUT);
    let given = TitleGiven {
        date: None,
        vendor: None,
    };
    match make_files(
        &heap,
        Room::new(global, usize::MAX),
        given,
        "-",
        &mut reader,
    ) {
        Ok(files) => Some(files.len()),
        Err(_) => None,
    }
}

#[test]
fn a_refused_growth_makes_no_files(rt: HostRuntime) {
    assert!(rt; count_on(rt.alloc(), 16).is_none());
    assert!(rt; count_on(rt.alloc(), AMPLE) == Some(3));
}

// Names of files with bars between them, and after an arrow the line that refuses them, if they are refused. The first
// that is refused is reported, with the first after it that is like it.
const NAMES: &str = "a.1|a-b.1|a.md
aaaaaaaaaaaaaaaaaaaaaaaaaaaaaaaaaaaaaaaaaaaaaaaaaaaaaaaaaaaaaaaaaaaaaaaaaaaaaaaaaaaaaaaaaaaaaaaaaaaaaaaaaaaaaaaaaaaaaaaaaaaaaaaaaaaaaaaaaaaaaaaaaaaaaaaaaaaaaaaaaaaaaaaaaaaaaaaaaaaaaaaaaaaaaaaaaaaaaaaa
aaaaaaaaaaaaaaaaaaaaaaaaaaaaaaaaaaaaaaaaaaaaaaaaaaaaaaaaaaaaaaaaaaaaaaaaaaaaaaaaaaaaaaaaaaaaaaaaaaaaaaaaaaaaaaaaaaaaaaaaaaaaaaaaaaaaaaaaaaaaaaaaaaaaaaaaaaaaaaaaaaaaaaaaaaaaaaaaaaaaaaaaaaaaaaaaaaaaaaaaa => clidoc: file name aaaaaaaaaaaaaaaaaaaaaaaaaaaaaaaaaaaaaaaaaaaaaaaaaaaaaaaaaaaa.. is over 200 bytes long
a.1|a/b.1 => clidoc: file name a/b.1 holds a slash
.a.1 => clidoc: file name .a.1 begins with a dot
a.1|b.1|a.1 => clidoc: two files have the name a.1
b.1|a-B.1|c.1|A-b.1 => clidoc: file names a-B.1 and A-b.1 differ in case alone
a.1|b/c.1|B.1|A.1|a.1 => clidoc: file names a.1 and A.1 differ in case alone
b/c.1|a.1|a.1 => clidoc: file name b/c.1 holds a slash
-a.1 => clidoc: file name -a.1 begins with -
a-.1|a.-1|a1..2
a:b.1 => clidoc: file name a:b.1 holds one of \" * : < > ? \\ |, which other systems refuse
c.1|a<b>.1 => clidoc: file name a<b>.1 holds one of \" * : < > ? \\ |, which other systems refuse
con.1 => clidoc: file name con.1 is a device of other systems
Nul.tar.md => clidoc: file name Nul.tar.md is a device of other systems
COM7.html => clidoc: file name COM7.html is a device of other systems
lpt0 => clidoc: file name lpt0 is a device of other systems
COM\u{b9}.1 => clidoc: file name COM\u{b9}.1 is a device of other systems
lpt\u{b3} => clidoc: file name lpt\u{b3} is a device of other systems
conin$.1 => clidoc: file name conin$.1 is a device of other systems
ConOut$ => clidoc: file name ConOut$ is a device of other systems
com\u{b4}.1|com\u{e9}.1|com\u{b2}0.1|conin.1|conout.1
con-a.1|cons.1|co.1|com.1|coma.1|com10.1|lpd1.1|xcon.1|.con => clidoc: file name .con begins with a dot
con-a.1|cons.1|co.1|com.1|coma.1|com10.1|lpd1.1|xcon.1
index.1|index.md|index.html => clidoc: file name index.html is that of the page of the folder itself
Index.HTML => clidoc: file name Index.HTML is that of the page of the folder itself
index.1|index.htm|indexes.html|a-index.html
\u{e9}.1|b.1|\u{c9}.1 => clidoc: file names \u{e9}.1 and \u{c9}.1 are one to some systems
e\u{301}.1|\u{e9}.1 => clidoc: file names e\u{301}.1 and \u{e9}.1 are one to some systems
k.1|\u{212a}.1 => clidoc: file names k.1 and \u{212a}.1 are one to some systems
stra\u{df}e.1|STRASSE.1 => clidoc: file names stra\u{df}e.1 and STRASSE.1 are one to some systems
\u{e9}.1|e.1|\u{e8}.1|\u{fb01}.1|fi.2";

fn files_named(alloc: Global, names: &str) -> Result<Vec<PageFile>, AllocError> {
    let mut files = Vec::new(alloc);
    for name in names.split('|') {
        files.push(PageFile {
            name: String::from_str(alloc, name)?,
            page: String::new(alloc),
        })?;
    }
    Ok(files)
}

// Whether three names pass on that much memory. None where a growth is refused.
fn pass_on(files: &[PageFile], global: Global, budget: usize) -> Option<bool> {
    let Ok(heap) = LocalHeap::new(global, budget) else {
        return Some(false);
    };
    match check_names(&heap, global, files) {
        Ok(judged) => Some(judged.is_ok()),
        Err(AllocError) => None,
    }
}

// Whether some budget is refused, and the names pass with the first that is not.
fn pass_when_ample(global: Global) -> Result<bool, AllocError> {
    let files = files_named(global, "a.1|a-b.1|a.md")?;
    for budget in 0..4096usize {
        if let Some(is_passed) = pass_on(&files, global, budget * 16) {
            return Ok(is_passed && budget > 0);
        }
    }
    Ok(false)
}

// Whether the names of a row are judged as it says.
fn are_judged(alloc: Global, row: &str) -> Result<bool, AllocError> {
    let (names, line) = row.split_once(" => ").unwrap_or((row, ""));
    let files = files_named(alloc, names)?;
    let is_said = match check_names(alloc, alloc, &files)? {
        Ok(()) => line.is_empty(),
        Err(fault) => says(&fault, line),
    };
    drop(files);
    Ok(is_said)
}

#[test]
fn names_of_files_say_why_they_are_none(rt: HostRuntime) {
    for row in NAMES.split('\n') {
        assert!(rt; are_judged(rt.alloc(), row) == Ok(true), "{row}");
    }
    assert!(rt; pass_when_ample(rt.alloc()) == Ok(true));
}
