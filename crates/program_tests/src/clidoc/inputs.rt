//! Inputs that are longer than may be read, and pages that are longer, or take more, than may be written.
use crate::stand_ins::desk::Desk;
use crate::stand_ins::runs::Ends;
use crate::stand_ins::scripts::{Script, ScriptedReader};
use clidoc_engine::bounded::Bounded;
use clidoc_engine::program::run;
use linked_list_allocator::LocalHeap;
use std::alloc::{AllocError, Global};
use std::fmt::Write;
use std::process::ExitCode;
use watched::{ReadError, Watched};

const INPUT: &[u8] = b"abcde";

// How many bytes are read by this script where that many may be. None where there are more.
fn read(global: Global, script: Script<'_>, most: usize) -> Option<usize> {
    let mut reader = Watched::new(Bounded::new(ScriptedReader::new(INPUT, script), most));
    let read = match reader.read_all(global) {
        Ok(bytes) if INPUT.starts_with(&bytes) => Some(bytes.len()),
        _ => None,
    };
    let is_over = reader.into_inner().is_over();
    if is_over == read.is_none() {
        read
    } else {
        Some(usize::MAX)
    }
}

#[test]
fn no_more_is_read_than_may_be(rt: HostRuntime) {
    for most in 0..8usize {
        let want = if most < INPUT.len() {
            None
        } else {
            Some(INPUT.len())
        };
        assert!(rt; read(rt.alloc(), Script::WHOLE, most) == want, "{most}");
        assert!(rt; read(rt.alloc(), Script::BYTES, most) == want, "{most}");
    }
}

// Whether the input is written where that many bytes may be, and otherwise reported as too long.
fn is_written(global: Global, most: usize) -> Option<bool> {
    let mut writer = Watched::new(Bounded::new(Vec::new(global), most));
    let is_written = writer.write_all(INPUT).is_ok();
    let is_over = writer.into_inner().is_over();
    if is_over == is_written {
        None
    } else {
        Some(is_written)
    }
}

#[test]
fn no_more_is_written_than_may_be(rt: HostRuntime) {
    for most in 0..8usize {
        let want = most >= INPUT.len();
        assert!(rt; is_written(rt.alloc(), most) == Some(want), "{most}");
    }
}

// How much memory a run has here.
const ROOM: usize = 256 << 20;

// As much as the largest of these pages takes, but not as much as the bounds let through.
const LITTLE: usize = 16 << 20;

const MIB: usize = 1 << 20;

// Whether a run of these words on the input, where the environment has this variable, fails with the line, and writes
// nothing.
fn is_told(
    global: Global,
    words: &str,
    input: &[u8],
    (variable, said): (&str, &str),
    line: &str,
) -> Result<bool, AllocError> {
    is_told_on(global, ROOM, words, input, (variable, said), line)
}

// The same, on that much memory.
fn is_told_on(
    global: Global,
    room: usize,
    words: &str,
    input: &[u8],
    (variable, said): (&str, &str),
    line: &str,
) -> Result<bool, AllocError> {
    let heap = LocalHeap::new(global, room)?;
    let desk = Desk::new(global, words, Ends::new(input, b""), line);
    let desk = desk.with_variable(variable, said.as_bytes());
    let status = run(&(&desk, &heap), global);
    Ok(status == ExitCode::from(1) && desk.has_printed(0, true))
}

// Whether a byte more than may be read is reported.
fn is_long(
    global: Global,
    mib: usize,
    variable: (&str, &str),
    line: &str,
) -> Result<bool, AllocError> {
    let input = vec![in global; b'\n'; mib.saturating_mul(MIB).saturating_add(1)]?;
    is_told(global, "clidoc|check", &input, variable, line)
}

#[test]
fn a_long_input_is_said(rt: HostRuntime) {
    let usual = "-: the input is over 16 MiB long; CLIDOC_INPUT_MIB sets the bound";
    assert!(rt; is_long(rt.alloc(), 16, ("OTHER", "1"), usual) == Ok(true));
    let set = "-: the input is over 2 MiB long; CLIDOC_INPUT_MIB sets the bound";
    assert!(rt; is_long(rt.alloc(), 2, ("CLIDOC_INPUT_MIB", "2"), set) == Ok(true));
}

// Whether a page of more than a MiB is reported, and nothing of it written.
fn is_large(global: Global) -> Result<bool, AllocError> {
    let line = "clidoc: the page is over 1 MiB long; CLIDOC_OUTPUT_MIB sets the bound";
    let mut input = String::from_str(global, "name = 'a'\nabout = '    ")?;
    input.push_str(&"x".repeat(global, MIB)?)?;
    input.push_str("'\n")?;
    let variable = ("CLIDOC_OUTPUT_MIB", "1");
    is_told(global, "clidoc|markdown", input.as_bytes(), variable, line)
}

#[test]
fn a_large_page_is_said(rt: HostRuntime) {
    assert!(rt; is_large(rt.alloc()) == Ok(true));
}

// How many help options, and how many commands, take more than a MiB on a deep page of a tenth of that.
const MANY: usize = 60;

// A description with many help options and as many commands.
fn many(global: Global) -> Result<String, AllocError> {
    let mut input = String::from_str(global, "name = 'a'\n")?;
    for index in 0..MANY {
        let _ = write!(input, "[[help_option]]\nlong = 'o{index}'\n");
    }
    for index in 0..MANY {
        let _ = write!(input, "[[command]]\nname = 'c{index}'\n");
    }
    Ok(input)
}

// Whether this line is reported for a deep page of many, on that much memory, and nothing written.
fn is_much(global: Global, room: usize, line: &str) -> Result<bool, AllocError> {
    let input = many(global)?;
    let words = "clidoc|markdown|--deep";
    let variable = ("CLIDOC_OUTPUT_MIB", "1");
    is_told_on(global, room, words, input.as_bytes(), variable, line)
}

#[test]
fn a_page_that_takes_much_is_said(rt: HostRuntime) {
    let line =
        "clidoc: the page with what it is made of is over 1 MiB long; CLIDOC_OUTPUT_MIB sets the bound";
    assert!(rt; is_much(rt.alloc(), ROOM, line) == Ok(true));
    // The memory may be what refused it.
    assert!(rt; is_much(rt.alloc(), LITTLE, "clidoc: no memory") == Ok(true));
}

// What is given as a bound and is not one, and how it is shown.
const NO_BOUNDS: &[(&str, &str)] = &[
    ("0", "0"),
    ("+1", "+1"),
    ("", ""),
    ("a\u{1b}", "\"a\\u{1b}\""),
];

// Whether it is reported that what the variable says is not a bound.
fn is_no_bound(
    global: Global,
    variable: &str,
    said: &str,
    shown: &str,
) -> Result<bool, AllocError> {
    let line = format!(in global; "clidoc: {variable} is no number of MiB: {shown}")?;
    is_told(global, "clidoc|man", b"", (variable, said), &line)
}

#[test]
fn a_bound_that_is_no_number_is_said(rt: HostRuntime) {
    for &(said, shown) in NO_BOUNDS {
        assert!(rt;
            is_no_bound(rt.alloc(), "CLIDOC_INPUT_MIB", said, shown) == Ok(true),
            "{shown}"
        );
        assert!(rt;
            is_no_bound(rt.alloc(), "CLIDOC_OUTPUT_MIB", said, shown) == Ok(true),
            "{shown}"
        );
    }
}
