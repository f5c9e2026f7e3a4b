//! Each growth refused in turn: a script is made in an arena with room for nothing, then for a little more each time,
//! until all of it is there.
use crate::reading::is_in_script;
use bumpalo::Bump;
use completions::Shell;
use description::Description;
use description_toml::description_from_table;
use lasting_names::Names;
use std::alloc::Global;
use std::process::Abort;

// How many bytes an arena has: more than a script takes.
const BYTES: usize = 131072;

// How many bytes more are left of it each time. No growth is smaller.
const STEP: usize = 8;

const TEXT: &str = "name = 'app'
[[option]]
short = 'x'
help = 'See `y`'
[[positional]]
value = 'P'
[[command]]
name = 'run'
short = 'r'
about = 'Runs'
";

const DATA: &str = "
    'once' 'flag' 'none' 'See y'
    'name' '-x' '' ''
    'place' 'once' 'file' ''
    'command' 'run' '' 'Runs'
    'alias' 'r' '' ''
    'end' '' '' ''
    'end' '' '' ''
)
";

// An arena that grows no more.
fn roomy(rt: &impl Abort, out: Global) -> Bump {
    let arena = Bump::try_with_capacity(out, BYTES).expect(rt, "an arena");
    arena.set_allocation_limit(Some(0));
    arena
}

// Takes all that an arena has left, except that many bytes.
fn taken<'a>(rt: &impl Abort, arena: &'a Bump, room: usize) -> Vec<u8, &'a Bump> {
    let rest = arena.chunk_capacity().saturating_sub(room);
    Vec::with_capacity(arena, rest).expect(rt, "the rest of an arena")
}

// Whether the script is there in that much room. None where a growth is refused.
fn is_made_in(rt: &impl Abort, out: Global, app: &Description<'_>, room: usize) -> Option<bool> {
    let arena = roomy(rt, out);
    let _rest = taken(rt, &arena, room);
    is_in_script(&arena, app, Shell::Bash, DATA)
}

// Whether it is there in some room, and not before with less of it.
fn is_made_with_more(rt: &impl Abort, out: Global, app: &Description<'_>) -> bool {
    for step in 0..BYTES / STEP {
        if let Some(is_that) = is_made_in(rt, out, app, step.saturating_mul(STEP)) {
            return is_that && step > 0;
        }
    }
    false
}

fn is_read_and_made(rt: &impl Abort, out: Global) -> bool {
    let table = toml::table_from_str(out, TEXT).ok().expect(rt, "a table");
    let mut names = Names::new(out);
    let app = description_from_table(out, &mut names, &table);
    is_made_with_more(rt, out, &app.ok().expect(rt, "a description"))
}

#[test]
fn refused_scripts_are_made_with_more(rt: HostRuntime) {
    assert!(rt; is_read_and_made(&rt, rt.alloc()));
}
