//! Each growth refused in turn: hints are found in an arena with room for nothing, then for a little more each time,
//! until all are there.
use crate::reading::is_said_of;
use bumpalo::Bump;
use description::Description;
use description_toml::description_from_table;
use lasting_names::Names;
use std::alloc::Global;
use std::process::Abort;

// How many bytes an arena has: more than the hints take.
const BYTES: usize = 65536;

// How many bytes more are left of it each time. No growth is smaller.
const STEP: usize = 8;

const TEXT: &str = "name = 'app'
about = 'See <http://a.b> and `--no`. It is all'
[[help_option]]
short = 'h'
[[option]]
syntax = '-x, --long'
help = 'As `-y`'
[[option]]
long = 'two'
help = 'One'
[[choice]]
[[choice.option]]
long = 'one'
[[group]]
title = 'G'
[[group.positional]]
value = 'P'
help = '<http://c.d>'
[[command]]
name = 'run'
usage = 'run [--none]'
[[command.option]]
long = 'two'
help = 'Two'
[[command.positional]]
value = 'Q'
default = 'c'
values = ['a', 'b']
[[command.topic]]
title = 'T'
text = '- <http://e.f>'
[[command]]
name = 'RUN'
help = 'Runs'
[[command.option]]
short = 'h'
long = 'l[x]'
value = '[V]'
help = 'L'
";

const HINTS: &str = "about - the first paragraph is the summary, and has more than one sentence
help_option 0 - no help says what the option does
about - the link http://a.b is not https
about - no option is called --no
option 0 help - no option is called -y
choice 0 option 0 - no help says what the option does
group 0 positional 0 help - the link http://c.d is not https
command 0 - neither help nor about says what the command does
command 0 usage - no option here is called --none
command 0 positional 0 default - the default c is not one of the values
command 0 topic 0 text - the link http://e.f is not https
command 1 option 0 - a help option is called -h too
command 1 option 0 long - the name l[x] has a bracket; write it as syntax
command 1 option 0 value - [V] needs no brackets or dots: pages set them, by required and repeated
command 0 option 0 - --two has a different help beside option 1 
command 1 - some folders take its page app-RUN for another
";

// An arena that grows no more.
fn roomy(rt: &impl Abort, out: Global) -> Bump {
    let arena = Bump::try_with_capacity(out, BYTES).expect(rt, "an arena");
    arena.set_allocation_limit(Some(0));
    arena
}

// Takes all that an arena has left, except that many bytes.
fn taken<'a>(rt: &impl Abort, arena: &'a Bump, room: usize) -> Vec<u8, &'a Bump> {
    let rest = arena.chunk_capacity().saturating_sub(room);
    Vec::with_capacity(arena, rest).expect(rt, "the rest of an arena")
}

// Whether the hints are there in that much room. None where a growth is refused.
fn is_said_in(rt: &impl Abort, out: Global, app: &Description<'_>, room: usize) -> Option<bool> {
    let arena = roomy(rt, out);
    let _rest = taken(rt, &arena, room);
    is_said_of(rt, out, &arena, app, HINTS)
}

// Whether they are there in some room, and not before with less of it.
fn are_said_with_more(rt: &impl Abort, out: Global, app: &Description<'_>) -> bool {
    for step in 0..BYTES / STEP {
        if let Some(is_that) = is_said_in(rt, out, app, step.saturating_mul(STEP)) {
            return is_that && step > 0;
        }
    }
    false
}

fn are_read_and_said(rt: &impl Abort, out: Global) -> bool {
    let table = toml::table_from_str(out, TEXT).ok().expect(rt, "a table");
    let mut names = Names::new(out);
    let app = description_from_table(out, &mut names, &table);
    are_said_with_more(rt, out, &app.ok().expect(rt, "a description"))
}

#[test]
fn refused_hints_are_found_with_more(rt: HostRuntime) {
    assert!(rt; are_read_and_said(&rt, rt.alloc()));
}
