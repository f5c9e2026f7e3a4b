//! Where faults are: the path to each, and to where a name that stands twice stood first.
use description_toml::{DescriptionError, Fault, description_from_table};
use lasting_names::Names;
use std::alloc::Global;
use std::process::Abort;

// A text, and after `=> ` the path to each of its faults, and the earlier one.
const ROWS: &str = r#"
title = 1
zzz = 1
[[option]]
=> [Key("zzz")] []
[] []
[Key("title")] []
[Key("option"), Index(0)] []

name = 'a'
[words]
usage = 1
[[option]]
short = 'b'
long = 1
[[option]]
short = 'b'
[[group]]
title = 'G'
[[group.choice]]
[[group.choice.option]]
syntax = '-b'
[[group.command]]
name = 'c'
aliases = ['d', '']
[[command]]
name = 'd'
short = 'c'
[command.option]
=> [Key("option"), Index(1), Key("short")] [Key("option"), Index(0), Key("short")]
[Key("group"), Index(0), Key("choice"), Index(0), Key("option"), Index(0), Key("syntax")] [Key("option"), Index(0), Key("short")]
[Key("group"), Index(0), Key("command"), Index(0), Key("name")] [Key("command"), Index(0), Key("short")]
[Key("group"), Index(0), Key("command"), Index(0), Key("aliases")] [Key("command"), Index(0), Key("name")]
[Key("words"), Key("usage")] []
[Key("option"), Index(0), Key("long")] []
[Key("group"), Index(0), Key("command"), Index(0), Key("aliases")] []
[Key("command"), Index(0), Key("option")] []
"#;

fn put(out: Global, all: &mut String, fault: &Fault<'_>, rt: &impl Abort) {
    let line = format!(in out; "{:?} {:?}\n", fault.path, fault.earlier).expect(rt, "a text");
    all.push_str(&line).expect(rt, "a longer text");
}

// The paths of the faults of a text, one per line.
fn ways(rt: &impl Abort, out: Global, text: &str) -> String {
    let table = toml::table_from_str(out, text).ok().expect(rt, "a table");
    let mut names = Names::new(out);
    let mut all = String::new(out);
    match description_from_table(out, &mut names, &table) {
        Err(DescriptionError::Content(faults)) => {
            for fault in &faults.told {
                put(out, &mut all, fault, rt);
            }
            drop(faults);
        }
        read => drop(read),
    }
    drop(table);
    all
}

fn are_the_ways(rt: &impl Abort, out: Global, row: &str) -> bool {
    let (text, want) = row.split_once("=> ").expect(rt, "ways");
    let ways = ways(rt, out, text);
    let are_those = ways.as_str().trim() == want;
    drop(ways);
    are_those
}

#[test]
fn faults_have_their_ways(rt: HostRuntime) {
    for row in ROWS.trim().split("\n\n") {
        assert!(rt; are_the_ways(&rt, rt.alloc(), row), "{row}");
    }
}
