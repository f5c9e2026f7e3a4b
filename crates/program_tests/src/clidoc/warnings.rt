//! What is reported of descriptions that should say something differently.
use crate::programs::ends_with;
use crate::stand_ins::desk::Desk;
use crate::stand_ins::runs::Ends;
use std::alloc::Global;

// The lines that are reported, and after a line of signs the input that they are about. Another such line separates
// rows.
//
// Warnings come in the order of their places, the first 20 at most. What is about a text has the place of its key, and
// what is about a table that of its header.
const ROWS: &str = "====
name = 'app'
about = 'Greets people.'

----
-:3:1: warning: no option here is called --nope
-:10:1: warning: --long has a different help, at line 4
====
name = 'app'
about = 'Greets'
usage = 'app [--nope] COMMAND'
[[option]]
long = 'long'
help = 'One'
[[command]]
name = 'run'
help = 'Runs'
[[command.option]]
long = 'long'
help = 'Two'

----
-:6:1: warning: the default Never is not one of the values
====
name = 'app'
about = 'Greets'
[[option]]
long = 'color'
value = 'WHEN'
default = 'Never'
values = ['never', 'always']
help = 'When to use colors'

----
-:3:1: warning: no file may be called app-a:b.1
-:9:1: warning: some folders take its page app-Run for another
====
name = 'app'
about = 'Greets'
[[command]]
name = 'a:b'
help = 'Adds'
[[command]]
name = 'run'
help = 'Runs'
[[command]]
name = 'Run'
help = 'Runs'

----
-:1:1: warning: no about says what the program does
====
name = 'app'

----
-:1:1: warning: no about says what the program does
====

# A comment.
name = 'app'

----
-:3:1: warning: no help says what the option does
====
name = 'app'
about = 'Greets'
[[option]]
long = 'v'

----
-:4:1: warning: neither help nor about says what the command does
-:9:1: warning: no help says what the option does
====
name = 'app'
about = 'Greets'

[[command]]
name = 'é'
[[command.positional]]
value = 'FILE'

[[option]]
long = 'v'

----
-:2:1: warning: the first paragraph is the summary, and has more than one sentence
-:2:1: warning: no option is called --loud
-:2:1: warning: the link http://a.b is not https
====
name = 'app'
about = 'Greets people. See `--loud` and <http://a.b>.'

----
-:3:1: warning: no option is called -x
-:5:1: warning: the first paragraph is the summary, and has 81 columns, over 80
====
name = 'app'\r
about = 'Greets'\r
footer = 'With `-x`.'\r
[[command]]\r
help = '日日日日日日日日日日日日日日日日日日日日日日日日日日日日日日日日日日日日日日日日.'\r
name = 'a'\r

----
-:4:11: warning: no help says what the option does
-:4:43: warning: the link http://a.b is not https
====
name = 'app'
about = 'Greets'
[[command]]
option = [{ short = '日' }, { short = 'w', help = 'To <http://a.b>' }]
name = 'a'
about = 'Adds'

----
-:3:1: warning: no help says what the option does
-:5:1: warning: no help says what the option does
-:7:1: warning: no help says what the option does
-:9:1: warning: no help says what the option does
-:11:1: warning: no help says what the option does
-:13:1: warning: no help says what the option does
-:15:1: warning: no help says what the option does
-:17:1: warning: no help says what the option does
-:19:1: warning: no help says what the option does
-:21:1: warning: no help says what the option does
-:23:1: warning: no help says what the option does
-:25:1: warning: no help says what the option does
-:27:1: warning: no help says what the option does
-:29:1: warning: no help says what the option does
-:31:1: warning: no help says what the option does
-:33:1: warning: no help says what the option does
-:35:1: warning: no help says what the option does
-:37:1: warning: no help says what the option does
-:39:1: warning: no help says what the option does
-:41:1: warning: no help says what the option does
====
name = 'app'
about = 'Greets'
[[option]]
long = 'a'
[[option]]
long = 'b'
[[option]]
long = 'c'
[[option]]
long = 'd'
[[option]]
long = 'e'
[[option]]
long = 'f'
[[option]]
long = 'g'
[[option]]
long = 'h'
[[option]]
long = 'i'
[[option]]
long = 'j'
[[option]]
long = 'k'
[[option]]
long = 'l'
[[option]]
long = 'm'
[[option]]
long = 'n'
[[option]]
long = 'o'
[[option]]
long = 'p'
[[option]]
long = 'q'
[[option]]
long = 'r'
[[option]]
long = 's'
[[option]]
long = 't'

----
-:3:1: warning: no help says what the option does
-:5:1: warning: no help says what the option does
-:7:1: warning: no help says what the option does
-:9:1: warning: no help says what the option does
-:11:1: warning: no help says what the option does
-:13:1: warning: no help says what the option does
-:15:1: warning: no help says what the option does
-:17:1: warning: no help says what the option does
-:19:1: warning: no help says what the option does
-:21:1: warning: no help says what the option does
-:23:1: warning: no help says what the option does
-:25:1: warning: no help says what the option does
-:27:1: warning: no help says what the option does
-:29:1: warning: no help says what the option does
-:31:1: warning: no help says what the option does
-:33:1: warning: no help says what the option does
-:35:1: warning: no help says what the option does
-:37:1: warning: no help says what the option does
-:39:1: warning: no help says what the option does
-:41:1: warning: no help says what the option does
-: and 1 more warning
====
name = 'app'
about = 'Greets'
[[option]]
long = 'a'
[[option]]
long = 'b'
[[option]]
long = 'c'
[[option]]
long = 'd'
[[option]]
long = 'e'
[[option]]
long = 'f'
[[option]]
long = 'g'
[[option]]
long = 'h'
[[option]]
long = 'i'
[[option]]
long = 'j'
[[option]]
long = 'k'
[[option]]
long = 'l'
[[option]]
long = 'm'
[[option]]
long = 'n'
[[option]]
long = 'o'
[[option]]
long = 'p'
[[option]]
long = 'q'
[[option]]
long = 'r'
[[option]]
long = 's'
[[option]]
long = 't'
[[option]]
long = 'u'

----
-:3:1: warning: no help says what the option does
-:5:1: warning: no help says what the option does
-:7:1: warning: no help says what the option does
-:9:1: warning: no help says what the option does
-:11:1: warning: no help says what the option does
-:13:1: warning: no help says what the option does
-:15:1: warning: no help says what the option does
-:17:1: warning: no help says what the option does
-:19:1: warning: no help says what the option does
-:21:1: warning: no help says what the option does
-:23:1: warning: no help says what the option does
-:25:1: warning: no help says what the option does
-:27:1: warning: no help says what the option does
-:29:1: warning: no help says what the option does
-:31:1: warning: no help says what the option does
-:33:1: warning: no help says what the option does
-:35:1: warning: no help says what the option does
-:37:1: warning: no help says what the option does
-:39:1: warning: no help says what the option does
-:41:1: warning: no help says what the option does
-: and 2 more warnings
====
name = 'app'
about = 'Greets'
[[option]]
long = 'a'
[[option]]
long = 'b'
[[option]]
long = 'c'
[[option]]
long = 'd'
[[option]]
long = 'e'
[[option]]
long = 'f'
[[option]]
long = 'g'
[[option]]
long = 'h'
[[option]]
long = 'i'
[[option]]
long = 'j'
[[option]]
long = 'k'
[[option]]
long = 'l'
[[option]]
long = 'm'
[[option]]
long = 'n'
[[option]]
long = 'o'
[[option]]
long = 'p'
[[option]]
long = 'q'
[[option]]
long = 'r'
[[option]]
long = 's'
[[option]]
long = 't'
[[option]]
long = 'u'
[[option]]
long = 'v'
";

// Whether these words lead to this status, and the lines are reported, if there are any.
fn is_status(global: Global, words: &str, row: (&str, &str), status: u8) -> bool {
    let (lines, input) = row;
    let desk = Desk::new(global, words, Ends::new(input.as_bytes(), b""), lines);
    ends_with(global, &desk, status, 0, !lines.is_empty())
}

/// Whether the lines are reported, and are a failure only where the check is strict.
pub fn is_said(global: Global, row: &str) -> bool {
    let Some((lines, input)) = row.split_once("====\n") else {
        return false;
    };
    let row = (lines.trim_end(), input);
    let status = u8::from(!lines.is_empty());
    is_status(global, "clidoc|check", row, 0)
        && is_status(global, "clidoc|check|-", row, 0)
        && is_status(global, "clidoc|check|--strict", row, status)
}

#[test]
fn says_what_is_better(rt: HostRuntime) {
    for row in ROWS.split("\n----\n") {
        assert!(rt; is_said(rt.alloc(), row), "{row}");
    }
}
